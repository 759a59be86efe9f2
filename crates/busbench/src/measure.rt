// The runs that the accesses of a workload are made on.
ghost use Rattle.std.specs.Prelude.{◌≡◌};

use crate::mixture::mixture;
use crate::stream::Stream;
use crate::sums::Sums;
use crate::workload::{Workload, local, scattered};
use caches::Agreed;
use memory::Plain;
use protocol::{Flattened, Protocol};
use rules::Record;
use run::{CALL_LIMIT, Closed, PLACES_NEEDED, Run};
use std::alloc::Global;

/// What a workload of so many accesses gave.
pub fn measure(heap: Global, workload: Workload, count: u64) -> anyhow::Result<Sums> {
    match workload {
        Workload::Scattered => measure_at(heap, scattered, count),
        Workload::Local => measure_at(heap, local, count),
    }
}

// Makes so many accesses on 1,024 lines of zero memory: at the call limit a run is closed, and another opened on its memory.
fn measure_at<A: Fn(u64) -> u32 + Drop>(
    heap: Global,
    address: A,
    count: u64,
) -> anyhow::Result<Sums>
    requires { A.IsAlwaysCallable address }
{
    let agreed = Agreed::agree(8, 64)?;
    let mut memory = Plain::new(vec![in heap; 0u32; 4096]?);
    let mut accesses = Accesses {
        address,
        stream: Stream::new(),
        sums: Sums::new(),
    };
    for part in 0..count.div_ceil(u64::from(CALL_LIMIT)) {
        let left = count.saturating_sub(part.saturating_mul(u64::from(CALL_LIMIT)));
        let calls = left.min(u64::from(CALL_LIMIT));
        memory = accesses.one_run(agreed, memory, calls as u32);
    }
    Ok(accesses.sums)
}

// Where accesses go, the numbers that they are made of, and what they gave.
#[derive(Drop)]
struct Accesses<A> {
    // The address that a number of the stream gives.
    address: A,
    stream: Stream,
    sums: Sums,
}

// On each method: a field's type cannot say that its closure may be called.
impl<A: Fn(u64) -> u32> Accesses<A> {
    // One run over a memory, which is given back.
    fn one_run(&mut self, agreed: Agreed, memory: Plain, calls: u32) -> Plain
        requires { A.IsAlwaysCallable self.old.address }
        ensures { self.new.address ≡ self.old.address }
    {
        let (mut run, ticket) = Run::open(agreed, Flattened::of(&mixture()), memory);
        self.make_all(&mut run, calls);
        let Closed {
            memory,
            tally,
            written,
        } = run.close(ticket);
        self.sums.close(written, &tally);
        memory
    }

    // So many accesses in turn, into the same record places.
    fn make_all<P: Protocol>(&mut self, run: &mut Run<P, Plain>, calls: u32)
        requires { A.IsAlwaysCallable self.old.address }
        ensures { self.new.address ≡ self.old.address }
    {
        let mut records = [Record::UNMADE; PLACES_NEEDED];
        for _ in 0..calls {
            self.make(run, &mut records);
        }
    }

    // One access: the seat by bits 0 to 2, a write by bit 24, its value by bits 32 to 63.
    fn make<P: Protocol>(&mut self, run: &mut Run<P, Plain>, records: &mut [Record])
        requires { A.IsAlwaysCallable self.old.address }
        ensures { self.new.address ≡ self.old.address }
    {
        let x = self.stream.draw();
        let seat = (x & 7) as u32;
        let address = (self.address)(x);
        let reply = if (x >> 24) & 1 == 1 {
            run.write(seat, address, (x >> 32) as u32, records)
        } else {
            run.read(seat, address, records)
        };
        if let Ok(reply) = reply {
            self.sums.note(reply);
        }
    }
}
