// What an access answers.

/// The answer of an access.
#[derive(Clone, Copy, PartialEq, Eq, Debug)]
pub struct Reply {
    /// The word of a read or write; the lines that a flush or settle wrote.
    pub value: u32,
    /// How many bus records stand in the first of the places handed in.
    pub records: usize,
}
