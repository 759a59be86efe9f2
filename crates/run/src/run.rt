// A run between opening and closing.
ghost use Rattle.std.specs.Prelude.{◌*◌, ◌≤◌};
ghost use Rattle.bus.specs.Totals.{total};

use bus::Bus;

// No Model: the system that a run stands for holds its protocol's cells, a function, which no model's value may hold.
/// Caches on a bus over a memory, and how many calls were answered. A run is never let go: closing takes it.
pub struct Run<P, M> {
    bus: Bus<P, M>,
    calls: u32,
    ghost few: { calls ≤ 1000000 },
    ghost counted: { total bus.tally ≤ 2048 * calls },
}

mod calls;
mod checks;
mod closing;
mod looks;
mod makes;
mod opening;

pub use checks::{CALL_LIMIT, PLACES_NEEDED};
