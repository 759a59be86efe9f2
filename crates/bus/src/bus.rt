// The bus: a protocol, a memory, the caches and the tally.
use caches::Caches;
use rules::Tally;

/// A bus at work. The calls that bound its seats, lines and counts stand above it.
pub struct Bus<P, M> {
    /// What each seat answers at each cell.
    pub protocol: P,
    /// The memory below.
    pub memory: M,
    /// Every seat's copies.
    pub caches: Caches,
    /// What was counted.
    pub tally: Tally,
}

mod accesses;
mod calls;
mod drops;
mod fills;
mod opening;
mod sends;
mod settling;
mod through;
mod transactions;
