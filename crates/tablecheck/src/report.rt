// What is printed for one line: accepted, with the meaning of each cell, or refused, with the reason.
use crate::reason::Reason;
use crate::word::Word;
use protocol::{Cell, State, Transaction};
use std::{fmt, io};
use trace::Choice;

/// The line with its number, and whether it is accepted.
pub fn print_line(rt: &impl Print, number: u64, bytes: &[u8]) -> io::Result<()> {
    let word = Word { bytes };
    println!(rt; "line {number}: {word}")?;
    match Choice::read(bytes) {
        Ok(choice) => {
            println!(rt; "  accepted")?;
            print_cells(rt, &choice.cells())
        }
        Err(refusal) => println!(rt;
            "  refused {}{}",
            refusal.number(),
            Reason { refusal, bytes }
        ),
    }
}

// One cell to a line.
fn print_cells(rt: &impl Print, bytes: &[u8; 16]) -> io::Result<()> {
    for (cell, byte) in Cell::ALL.iter().zip(bytes) {
        print_cell(rt, *cell, *byte)?;
    }
    Ok(())
}

// The cell's number, what it is for, its byte, and the transaction or state that it names.
fn print_cell(rt: &impl Print, cell: Cell, byte: u8) -> io::Result<()> {
    let number = cell.number();
    let purpose = cell.purpose();
    let shown = char::from(byte);
    let meaning = Meaning { byte };
    println!(rt; "  {number:>4}  {purpose:<26}  {shown}  {meaning}")
}

// What the byte of a cell names.
#[derive(Clone, Copy)]
struct Meaning {
    byte: u8,
}

// A transaction by its mnemonic and its name, or a state by its name.
impl fmt::Display for Meaning {
    fn fmt<W: fmt::Write>(&self, f: &mut fmt::Formatter<W>) -> fmt::Result {
        match Transaction::try_from(self.byte) {
            Ok(transaction) => write!(f, "{}, {}", transaction.mnemonic(), transaction.name()),
            Err(_) => f.write_str(State::try_from(self.byte).map_or("no state", State::name)),
        }
    }
}
