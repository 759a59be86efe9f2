// Why a line is refused, in words.
use crate::word::Word;
use protocol::Cell;
use refusal::Refusal;
use std::fmt;

/// What is wrong with a line that was refused, as it stands behind the refusal's number.
#[derive(Drop)]
pub struct Reason<'a> {
    pub refusal: Refusal,
    pub bytes: &'a [u8],
}

impl fmt::Display for Reason<'_> {
    fn fmt<W: fmt::Write>(&self, f: &mut fmt::Formatter<W>) -> fmt::Result {
        match self.refusal {
            Refusal::CellOutside { cell } => write_outside(f, cell, self.bytes),
            Refusal::TableLength => {
                let length = self.bytes.len();
                write!(f, ": a table has 16 bytes, this one has {length}")
            }
            _ => write!(f, ": no published protocol has this name"),
        }
    }
}

// The first cell outside its set, the byte that stands there, and the set.
fn write_outside<W: fmt::Write>(
    f: &mut fmt::Formatter<W>,
    number: u8,
    bytes: &[u8],
) -> fmt::Result {
    let Ok(cell) = Cell::try_from(number) else {
        return write!(f, ": cell {number}");
    };
    let purpose = cell.purpose();
    let set = cell.set();
    let at = number as usize;
    let found = Word {
        bytes: bytes.get(at..at + 1).unwrap_or(bytes),
    };
    write!(f, ", cell {number} ({purpose}): {found} is none of {set}")
}
