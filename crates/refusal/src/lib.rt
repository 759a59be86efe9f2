// The numbered refusals: one case for each condition under which a call answers no value.
#![tactic(auto)]

ghost use Rattle.std.specs.Prelude.{◌≡◌, ℕ, Some};
ghost use Rattle.refusal.specs.Refusals.{told, number, cell_of, sentence};

use std::error::Error;
use std::fmt;

/// Why a call was refused.
#[derive(Clone, Copy, PartialEq, Eq, Debug)]
pub enum Refusal {
    /// The seats are not one to eight.
    Seats,
    /// The sets are not 1, 2, 4, 8, 16, 32 or 64.
    Sets,
    /// The table has not sixteen bytes.
    TableLength,
    /// The first cell of a table that lies outside its set.
    CellOutside { cell: u8 },
    /// The run has answered as many calls as it may.
    CallLimit,
    /// The seat is not on the bus.
    NoSeat,
    /// The address, line or word lies beyond memory.
    BeyondMemory,
    /// There are fewer places for bus records than an access may need.
    RecordPlaces,
    /// A line of the text has the wrong form.
    LineForm,
    /// A number of the text does not fit 32 bits.
    NumberTooLarge,
    /// No protocol has this name.
    ProtocolName,
    /// The memory of a text is not 1 to 1,024 lines.
    TextMemory,
    /// The text is longer than 65,536 bytes.
    TextLength,
}

impl Refusal {
    // A `match`: the fourth case carries a cell, so the cases have no numbers of their own.
    /// The number in the refusal table.
    pub fn number(&self) -> u8
        ensures { result ≡ number self.now }
    {
        match self {
            Refusal::Seats => 1,
            Refusal::Sets => 2,
            Refusal::TableLength => 3,
            Refusal::CellOutside { .. } => 4,
            Refusal::CallLimit => 5,
            Refusal::NoSeat => 6,
            Refusal::BeyondMemory => 7,
            Refusal::RecordPlaces => 8,
            Refusal::LineForm => 9,
            Refusal::NumberTooLarge => 10,
            Refusal::ProtocolName => 11,
            Refusal::TextMemory => 12,
            Refusal::TextLength => 13,
        }
    }

    /// The cell that the refusal names, where it names one.
    pub fn cell(&self) -> Option<u8>
        ensures { result ≡ cell_of self.now }
    {
        match self {
            Refusal::CellOutside { cell } => Some(*cell),
            _ => None,
        }
    }
}

impl fmt::Display for Refusal {
    ghost output = { λ e. Some (sentence e) };

    fn fmt<W: fmt::Write>(&self, f: &mut fmt::Formatter<W>) -> fmt::Result {
        match self {
            Refusal::Seats => f.write_str("the seats are not one to eight"),
            Refusal::Sets => f.write_str("the sets are not 1, 2, 4, 8, 16, 32 or 64"),
            Refusal::TableLength => f.write_str("a table has sixteen bytes"),
            Refusal::CellOutside { cell } => write!(
                f,
                "cell {cell} of the table lies outside its set"
            ),
            Refusal::CallLimit => f.write_str("the run has answered as many calls as it may"),
            Refusal::NoSeat => f.write_str("the seat is not on the bus"),
            Refusal::BeyondMemory => f.write_str("the address, line or word lies beyond memory"),
            Refusal::RecordPlaces => f.write_str("an access may need more places for bus records"),
            Refusal::LineForm => f.write_str("the line has the wrong form"),
            Refusal::NumberTooLarge => f.write_str("the number does not fit 32 bits"),
            Refusal::ProtocolName => f.write_str("no protocol has this name"),
            Refusal::TextMemory => f.write_str("the memory of a text is not 1 to 1,024 lines"),
            Refusal::TextLength => f.write_str("the text is longer than 65,536 bytes"),
        }
    }
}

impl Error for Refusal {}
