// A run answers a million calls and no more, and closes all the same.
use crate::places::record_places;
use caches::Agreed;
use memory::{Memory, Plain};
use protocol::{Protocol, Published};
use refusal::Refusal;
use run::{Closed, Run};
use std::test::Fail;

// Makes so many writes, in turn by two seats and over sixteen addresses, and counts those answered.
fn write_many<P: Protocol, M: Memory>(run: &mut Run<P, M>, count: u32) -> u32 {
    let mut answered: u32 = 0;
    // A loop and no filter, since each write changes the run.
    for i in 0..count {
        let mut records = record_places();
        if run.write(i & 1, i & 15, i, &mut records).is_ok() {
            answered = answered.saturating_add(1);
        }
    }
    answered
}

#[test]
fn the_millionth_call_is_the_last(rt: HostRuntime) -> Result<(), Fail> {
    let words = vec![in rt.alloc(); 0u32; 16]?;
    let agreed = Agreed::agree(2, 2)?;
    let (mut run, ticket) = Run::open(agreed, Published::Berkeley, Plain::new(words));
    let mut records = record_places();
    let answered = write_many(&mut run, 999_999);
    let last = run.write(0, 5, 77, &mut records);
    let write = run.write(0, 5, 78, &mut records);
    let read = run.read(1, 0, &mut records);
    let flush = run.flush(9, 99, &mut records);
    let settle = run.settle();
    let calls = run.calls();
    let Closed {
        memory,
        tally,
        written: _,
    } = run.close(ticket);
    let line = memory.read_line(1);
    assert_eq!(rt; answered, 999_999);
    assert!(rt; last.is_ok());
    assert_eq!(rt; write.err(), Some(Refusal::CallLimit));
    assert_eq!(rt; read.err(), Some(Refusal::CallLimit));
    assert_eq!(rt; flush.err(), Some(Refusal::CallLimit));
    assert_eq!(rt; settle.err(), Some(Refusal::CallLimit));
    assert_eq!(rt; calls, 1_000_000);
    assert_eq!(rt; tally.writes, 1_000_000);
    assert_eq!(rt; line.ok(), Some([999_988, 77, 999_990, 999_991]));
    Ok(())
}
