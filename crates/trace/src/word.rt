// Where a word stands: a borrowed word would hold where it is borrowed from, and no law of reading could name its value.

/// The bytes of a text from `start` to before `end`.
#[derive(Clone, Copy, PartialEq, Eq, Debug)]
pub struct Word {
    pub start: usize,
    pub end: usize,
}
