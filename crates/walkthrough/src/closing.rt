// What closing gave back: the lines written, the tally, and memory.
use crate::words::InWords;
use memory::{Line, Memory};
use run::Closed;
use std::io;

/// The closing of the session.
pub fn print_closing<M: Memory>(rt: &impl Print, closed: &Closed<M>) -> io::Result<()> {
    println!(rt; "close: {} lines written back", closed.written)?;
    println!(rt; "{}", InWords(closed.tally))?;
    print_memory(rt, &closed.memory)
}

fn print_memory(rt: &impl Print, memory: &impl Memory) -> io::Result<()> {
    // Lines by number: a memory is asked for one at a time, and lends no slice of them.
    for line in 0..memory.count() {
        if let Ok(words) = memory.read_line(line) {
            print_words(rt, line, words)?;
        }
    }
    Ok(())
}

fn print_words(rt: &impl Print, line: usize, words: Line) -> io::Result<()> {
    let [a, b, c, d] = words;
    println!(rt; "  memory line {line}: {a} {b} {c} {d}")
}
