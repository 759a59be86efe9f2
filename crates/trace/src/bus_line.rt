// What the bus line says, before any of it is checked.
use crate::word::Word;

/// A number of the text and its first byte.
#[derive(Clone, Copy, PartialEq, Eq, Debug)]
pub struct Numeral {
    pub value: u32,
    pub byte: usize,
}

/// ` B Q`: the seats from `below` on follow the protocol of `word`.
#[derive(Clone, Copy, PartialEq, Eq, Debug)]
pub struct Second {
    pub below: u32,
    pub word: Word,
}

/// `bus SEATS SETS LINES P` or `bus SEATS SETS LINES P B Q`.
#[derive(Clone, Copy, PartialEq, Eq, Debug)]
pub struct BusLine {
    pub seats: Numeral,
    pub sets: Numeral,
    pub lines: Numeral,
    pub first: Word,
    pub second: Option<Second>,
}
