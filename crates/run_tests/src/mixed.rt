// A million accesses on eight seats under seven protocols: the sums that an independent implementation of the rules gives.
use crate::places::record_places;
use caches::Agreed;
use memory::{Memory, Plain};
use protocol::{Protocol, Published, Split};
use refusal::Refusal;
use run::{Closed, Reply, Run};
use std::test::Fail;

// Four seats in turn.
type Four = Split<Split<Published, Published>, Split<Published, Published>>;

// What was answered: the words in turn, and how many records were made.
#[derive(Clone, Copy, PartialEq, Eq, Debug, Default)]
struct Sums {
    checksum: u64,
    records: u64,
}

impl Sums {
    // An access was answered.
    fn note(&mut self, reply: Reply) {
        self.checksum = self
            .checksum
            .wrapping_mul(31)
            .wrapping_add(u64::from(reply.value));
        self.records = self.records.wrapping_add(reply.records as u64);
    }
}

// The next of a sequence of pseudo-random numbers.
fn next(x: u64) -> u64 {
    let a = x ^ (x << 13);
    let b = a ^ (a >> 7);
    b ^ (b << 17)
}

// One access: the seat by bits 0 to 2, the address by 8 to 19, a write by bit 24, its value by bits 32 to 63.
fn access<P: Protocol, M: Memory>(run: &mut Run<P, M>, x: u64) -> Result<Reply, Refusal> {
    let mut records = record_places();
    let seat = (x & 7) as u32;
    let address = ((x >> 8) & 4095) as u32;
    if (x >> 24) & 1 == 1 {
        run.write(seat, address, (x >> 32) as u32, &mut records)
    } else {
        run.read(seat, address, &mut records)
    }
}

// So many accesses in turn.
fn access_many<P: Protocol, M: Memory>(run: &mut Run<P, M>, count: u32) -> Sums {
    let mut sums = Sums::default();
    let mut x = 88172645463325252;
    // A loop and no chain, since each access changes the run.
    for _ in 0..count {
        x = next(x);
        if let Ok(reply) = access(run, x) {
            sums.note(reply);
        }
    }
    sums
}

// busbench has the same seats and numbers: a test keeps inputs of its own, so that the benchmark may change.
// The seven published protocols in turn, and the first once more.
fn mixture() -> Split<Four, Four> {
    Split::new(
        Split::new(
            Split::new(Published::WriteThrough, 1, Published::Msi),
            2,
            Split::new(Published::WriteOnce, 3, Published::Illinois),
        ),
        4,
        Split::new(
            Split::new(Published::Berkeley, 5, Published::Dragon),
            6,
            Split::new(Published::Firefly, 7, Published::WriteThrough),
        ),
    )
}

#[test]
fn a_million_accesses(rt: HostRuntime) -> Result<(), Fail> {
    let words = vec![in rt.alloc(); 0u32; 4096]?;
    let agreed = Agreed::agree(8, 64)?;
    let (mut run, ticket) = Run::open(agreed, mixture(), Plain::new(words));
    let sums = access_many(&mut run, 1_000_000);
    let Closed {
        memory: _,
        tally,
        written,
    } = run.close(ticket);
    assert_eq!(rt; sums.checksum, 5694734681096072051);
    assert_eq!(rt; sums.records, 1_272_072);
    assert_eq!(rt; written, 151);
    assert_eq!(rt;
        (tally.reads, tally.writes, tally.hits),
        (500_345, 499_655, 50_063)
    );
    assert_eq!(rt; (tally.rs, tally.rx, tally.inv), (593_641, 236_776, 4_614));
    assert_eq!(rt; (tally.up, tally.tu, tally.ti), (19_849, 19_994, 126_793));
    assert_eq!(rt;
        (tally.wb, tally.reflected, tally.invalidated),
        (270_556, 44_376, 165_274)
    );
    Ok(())
}
