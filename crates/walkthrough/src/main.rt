// walkthrough: one session on a mixed bus, call by call, laid out for a person to follow.
#![tactic(auto)]

mod calls;
mod closing;
mod replies;
mod words;

use caches::Agreed;
use calls::CALLS;
use closing::print_closing;
use memory::{Memory, Plain, WriteBuffer};
use protocol::{Protocol, Published, Split, Table};
use replies::print_reply;
use rules::Record;
use run::{Closed, PLACES_NEEDED, Run, Step, replay};
use std::io;
use words::InWords;

fn main(rt: HostRuntime) -> anyhow::Result<()> {
    session(&rt)
}

// Three seats of two sets over eight lines: seat 0 follows a table, seat 1 berkeley, seat 2 dragon.
fn session(rt: &HostRuntime) -> anyhow::Result<()> {
    println!(rt; "three seats, two sets, eight lines, a write buffer over plain memory")?;
    println!(rt; "seat 0 follows 166SMEMEMSSSSIII, seat 1 berkeley, seat 2 dragon")?;
    let agreed = Agreed::agree(3, 2)?;
    let table = Table::load(b"166SMEMEMSSSSIII")?;
    let words = vec![in rt.alloc(); 0u32; 32]?;
    let memory = WriteBuffer::new(Plain::new(words));
    let (mut run, ticket) = Run::open(agreed, mixture(table), memory);
    let printed = play(rt, &mut run);
    let Closed {
        memory,
        tally,
        written,
    } = run.close(ticket);
    printed?;
    let closed = Closed {
        memory: memory.into_below(),
        tally,
        written,
    };
    print_closing(rt, &closed)?;
    again(rt, agreed, mixture(table))
}

// Seat 0 follows the table, seat 1 berkeley, seat 2 dragon.
fn mixture(table: Table) -> Split<Table, Split<Published, Published>> {
    let others = Split::new(Published::Berkeley, 2, Published::Dragon);
    Split::new(table, 1, others)
}

// The same calls once more, as one list.
fn again<P: Protocol + Drop>(rt: &HostRuntime, agreed: Agreed, protocol: P) -> anyhow::Result<()> {
    let mut steps = CALLS.map(|call| Step { call, reply: None });
    let words = vec![in rt.alloc(); 0u32; 32]?;
    let closed = replay(agreed, protocol, Plain::new(words), &mut steps);
    println!(rt; "the same calls replayed as one list, over plain memory alone:")?;
    print_replies(rt, &steps)?;
    print_closing(rt, &closed)?;
    Ok(())
}

// The replies in one line.
fn print_replies(rt: &impl Print, steps: &[Step]) -> io::Result<()> {
    print!(rt; "  replies")?;
    for step in steps {
        match step.reply {
            Some(Ok(reply)) => print!(rt; " {}", reply.value)?,
            Some(Err(refusal)) => print!(rt; " refused-{}", refusal.number())?,
            None => print!(rt; " none")?,
        }
    }
    println!(rt; "")
}

// Each call in turn; a refused one is told, and the next is made.
fn play<P: Protocol, M: Memory>(rt: &impl Print, run: &mut Run<P, M>) -> io::Result<()> {
    for (number, call) in (1u64..).zip(CALLS) {
        println!(rt; "{number:>3}.  {}", InWords(call))?;
        let mut records = [Record::UNMADE; PLACES_NEEDED];
        match run.call(call, &mut records) {
            Ok(reply) => print_reply(rt, run, call, &reply, &records)?,
            Err(refusal) => println!(rt; "      refused {}", refusal.number())?,
        }
    }
    Ok(())
}
