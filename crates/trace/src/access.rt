// What an access line asks for.
use std::fmt;

// Not a call of the rules: a line of the text says nothing of record places.
/// An access, or a settle of the whole bus.
#[derive(Clone, Copy, PartialEq, Eq, Debug)]
pub enum Access {
    /// The word at an address, for a seat.
    Read { seat: u32, address: u32 },
    /// A new word at an address, by a seat.
    Write { seat: u32, address: u32, value: u32 },
    /// A seat's copy of an address's line is dropped.
    Flush { seat: u32, address: u32 },
    /// Every copy is flushed.
    Settle,
}

/// The access as its line has it, without the line's end.
impl fmt::Display for Access {
    ghost use Rattle.std.specs.Prelude.{Some};
    ghost use Rattle.trace.specs.Written.{access_text};

    ghost output = { λ access. Some (access_text access) };

    fn fmt<W: fmt::Write>(&self, f: &mut fmt::Formatter<W>) -> fmt::Result {
        match self {
            Access::Read { seat, address } => write!(f, "r {seat} {address}"),
            Access::Write {
                seat,
                address,
                value,
            } => write!(f, "w {seat} {address} {value}"),
            Access::Flush { seat, address } => write!(f, "f {seat} {address}"),
            Access::Settle => f.write_str("s"),
        }
    }
}
