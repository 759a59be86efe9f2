// What closing gives.
use rules::Tally;

/// The memory of a run, drained, what was counted, and the lines that the closing settle wrote.
#[derive(Drop)]
pub struct Closed<M> {
    pub memory: M,
    pub tally: Tally,
    pub written: u32,
}
