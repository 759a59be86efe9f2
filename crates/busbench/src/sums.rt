// What a workload gave, summed.
use rules::Tally;
use run::Reply;
use std::fmt;

/// The answered words in turn, the bus records, the lines written at closings, and the tallies of all runs.
#[derive(Clone, Copy)]
pub struct Sums {
    accesses: u64,
    checksum: u64,
    records: u64,
    closed: u64,
    tally: [Count; 15],
}

// A count of a tally, or such counts of several runs summed, under the name that a report has for it.
#[derive(Clone, Copy)]
struct Count {
    name: &'static str,
    sum: u64,
}

impl Count {
    // A count of one run.
    fn of(name: &'static str, sum: u32) -> Count {
        Count {
            name,
            sum: u64::from(sum),
        }
    }
}

// Each count of a tally.
fn counts(tally: &Tally) -> [Count; 15] {
    [
        Count::of("reads", tally.reads),
        Count::of("writes", tally.writes),
        Count::of("hits", tally.hits),
        Count::of("rs", tally.rs),
        Count::of("rx", tally.rx),
        Count::of("in", tally.inv),
        Count::of("up", tally.up),
        Count::of("tu", tally.tu),
        Count::of("ti", tally.ti),
        Count::of("wb", tally.wb),
        Count::of("reflected", tally.reflected),
        Count::of("fills", tally.fills),
        Count::of("displaced", tally.displaced),
        Count::of("flushed", tally.flushed),
        Count::of("invalidated", tally.invalidated),
    ]
}

impl Sums {
    // A derived default would leave the counts without their names.
    /// Nothing was made.
    pub fn new() -> Sums {
        Sums {
            accesses: 0,
            checksum: 0,
            records: 0,
            closed: 0,
            tally: counts(&Tally::default()),
        }
    }

    /// An access was answered.
    pub fn note(&mut self, reply: Reply) {
        self.accesses = self.accesses.wrapping_add(1);
        self.checksum = self
            .checksum
            .wrapping_mul(31)
            .wrapping_add(u64::from(reply.value));
        self.records = self.records.wrapping_add(reply.records as u64);
    }

    /// A run was closed: the lines that it wrote then, and its tally.
    pub fn close(&mut self, written: u32, tally: &Tally) {
        self.closed = self.closed.wrapping_add(u64::from(written));
        for (total, count) in self.tally.iter_mut().zip(&counts(tally)) {
            total.sum = total.sum.wrapping_add(count.sum);
        }
    }
}

// The sums, and below them those of the tallies, as a report writes a tally.
impl fmt::Display for Sums {
    fn fmt<W: fmt::Write>(&self, f: &mut fmt::Formatter<W>) -> fmt::Result {
        write!(
            f,
            "accesses {} checksum {} records {} closed {}\ntally",
            self.accesses, self.checksum, self.records, self.closed
        )?;
        for Count { name, sum } in &self.tally {
            write!(f, " {name} {sum}")?;
        }
        Ok(())
    }
}
