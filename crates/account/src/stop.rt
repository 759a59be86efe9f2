// Where and why a text stopped.
use trace::TraceFault;

/// The fault that stopped a text, and the line of the text that it lies in, counted from 1.
#[derive(Clone, Copy)]
pub struct Stop {
    pub fault: TraceFault,
    pub line: usize,
}
