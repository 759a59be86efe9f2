// What a run counts.

/// The counts of a run since its opening.
#[derive(Clone, Copy, PartialEq, Eq, Debug, Default)]
pub struct Tally {
    /// Answered reads.
    pub reads: u32,
    /// Answered writes.
    pub writes: u32,
    /// Reads and writes whose line was held.
    pub hits: u32,
    /// Transactions: read shared.
    pub rs: u32,
    /// Transactions: read and invalidate.
    pub rx: u32,
    /// Transactions: invalidate.
    pub inv: u32,
    /// Transactions: update.
    pub up: u32,
    /// Transactions: through with update.
    pub tu: u32,
    /// Transactions: through with invalidate.
    pub ti: u32,
    /// Transactions: write back.
    pub wb: u32,
    /// Reads shared at which memory received the owner's line too.
    pub reflected: u32,
    /// Lines brought into a seat: by read shared, and by read and invalidate.
    pub fills: u32,
    /// Copies that went to make room for another line.
    pub displaced: u32,
    /// Copies dropped by a flush, a settle or closing.
    pub flushed: u32,
    /// Copies that a transaction of another seat made Invalid.
    pub invalidated: u32,
}
