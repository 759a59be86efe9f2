// Runs on examples.
use crate::places::record_places;
use caches::Agreed;
use memory::Plain;
use protocol::Published;
use refusal::Refusal;
use rules::Call;
use run::{Closed, Reply, Run, Step, replay};
use std::test::Fail;

// A call to be replayed.
fn step(call: Call) -> Step {
    Step { call, reply: None }
}

fn read(seat: u32, address: u32) -> Step {
    step(Call::Read {
        seat,
        address,
        places: 4,
    })
}

fn write(seat: u32, address: u32, value: u32) -> Step {
    step(Call::Write {
        seat,
        address,
        value,
        places: 4,
    })
}

fn answered(value: u32, records: usize) -> Option<Result<Reply, Refusal>> {
    Some(Ok(Reply { value, records }))
}

#[test]
fn the_first_session_replayed(rt: HostRuntime) -> Result<(), Fail> {
    let agreed = Agreed::agree(2, 2)?;
    let memory = Plain::new([0u32; 16].to_vec(rt.alloc())?);
    let mut steps = [
        read(0, 0),
        read(1, 0),
        write(1, 1, 7),
        read(0, 1),
        write(0, 8, 5),
        step(Call::Settle),
    ];
    let Closed {
        memory,
        tally,
        written,
    } = replay(agreed, Published::Illinois, memory, &mut steps);
    let words = memory.into_words();
    assert_eq!(rt; steps[0].reply, answered(0, 1));
    assert_eq!(rt; steps[2].reply, answered(7, 1));
    assert_eq!(rt; steps[3].reply, answered(7, 1));
    assert_eq!(rt; steps[4].reply, answered(5, 1));
    assert_eq!(rt; steps[5].reply, answered(1, 0));
    assert_eq!(rt; written, 0);
    assert_eq!(rt;
        [
            tally.fills,
            tally.displaced,
            tally.flushed,
            tally.invalidated,
        ],
        [4, 1, 2, 1]
    );
    assert_eq!(rt;
        words.as_slice(),
        [0, 7, 0, 0, 0, 0, 0, 0, 5, 0, 0, 0, 0, 0, 0, 0].as_slice()
    );
    Ok(())
}

#[test]
fn refused_calls_in_their_order(rt: HostRuntime) -> Result<(), Fail> {
    let agreed = Agreed::agree(2, 1)?;
    let memory = Plain::new([0u32; 8].to_vec(rt.alloc())?);
    let mut records = record_places();
    let (mut run, ticket) = Run::open(agreed, Published::Msi, memory);
    let last = run.read(0, 7, &mut records);
    let beyond = run.read(0, 8, &mut records);
    let no_seat = run.write(2, 8, 1, &mut records);
    let few_places = run.flush(0, 7, &mut records[0..3]);
    let calls = run.calls();
    let Closed {
        memory,
        tally,
        written,
    } = run.close(ticket);
    let _ = memory.into_words();
    assert_eq!(rt;
        last,
        Ok(Reply {
            value: 0,
            records: 1,
        })
    );
    assert_eq!(rt; beyond, Err(Refusal::BeyondMemory));
    assert_eq!(rt; no_seat, Err(Refusal::NoSeat));
    assert_eq!(rt; few_places, Err(Refusal::RecordPlaces));
    assert_eq!(rt; calls, 1);
    assert_eq!(rt; tally.flushed, 1);
    assert_eq!(rt; written, 0);
    Ok(())
}
