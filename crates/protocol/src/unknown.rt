// A byte that stands for no state, transaction or cell.
ghost use Rattle.std.specs.Prelude.{Some};
ghost use Rattle.protocol.specs.Unknown.{unknown_text};

use std::error::Error;
use std::fmt;

/// The byte that was to stand for a state, a transaction or a cell, and stands for none.
#[derive(Clone, Copy, PartialEq, Eq, Debug)]
pub struct Unknown {
    pub byte: u8,
}

impl fmt::Display for Unknown {
    ghost output = { λ e. Some (unknown_text e) };

    fn fmt<W: fmt::Write>(&self, f: &mut fmt::Formatter<W>) -> fmt::Result {
        write!(f, "byte {} stands for none", self.byte)
    }
}

impl Error for Unknown {}
