#![tactic(auto)]

// Tests of whole runs: a session replayed, refusals in their order, the call limit, the sizes, many accesses under seven protocols.
#[cfg(test)]
mod limit;
#[cfg(test)]
mod mixed;
mod places;
#[cfg(test)]
mod sizes;
#[cfg(test)]
mod tests;

pub use places::record_places;
