// What an answered call gave: its records, its answer, and the line's states across the seats.
use crate::calls::line_of;
use crate::words::InWords;
use memory::Memory;
use protocol::Protocol;
use rules::{Call, Record};
use run::{PLACES_NEEDED, Reply, Run};
use std::io;

/// The records in order, the answer, and the states of the line.
pub fn print_reply<P: Protocol, M: Memory>(
    rt: &impl Print,
    run: &Run<P, M>,
    call: Call,
    reply: &Reply,
    records: &[Record; PLACES_NEEDED],
) -> io::Result<()> {
    for record in records.iter().take(reply.records) {
        println!(rt; "      {}", InWords(*record))?;
    }
    let value = reply.value;
    match line_of(call) {
        Some(line) => {
            print!(rt; "      answer {value}, line {line} is")?;
            print_states(rt, run, line)
        }
        None => println!(rt; "      {value} lines written back"),
    }
}

// The state of the line in each seat.
fn print_states<P: Protocol, M: Memory>(
    rt: &impl Print,
    run: &Run<P, M>,
    line: usize,
) -> io::Result<()> {
    // Seats by number: a run is asked for one copy's state at a time.
    for seat in 0..run.seats() {
        if let Ok(state) = run.state(seat, line) {
            print!(rt; " {}", state.name())?;
        }
    }
    println!(rt; "")
}
