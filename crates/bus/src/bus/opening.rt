// Opening a bus: every copy Invalid, nothing counted.
ghost use Rattle.std.specs.Prelude.{◌≡◌, replicate};
ghost use Rattle.rules.specs.Caches.{fresh};
ghost use Rattle.rules.specs.Tallies.{blank};
ghost use Rattle.caches.specs.Views.{caches_of};

use super::Bus;
use caches::{Agreed, Caches};
use rules::Tally;

impl<P, M> Bus<P, M> {
    /// A bus of the agreed sizes, over a protocol and a memory.
    pub fn new(agreed: Agreed, protocol: P, memory: M) -> Bus<P, M>
        ensures caches { caches_of result.caches ≡ replicate agreed.seats (fresh agreed.sets 1) }
        ensures agreed { result.caches.agreed ≡ agreed }
        ensures tally { result.tally ≡ blank }
        ensures protocol { result.protocol ≡ protocol }
        ensures memory { result.memory ≡ memory }
    {
        Bus {
            protocol,
            memory,
            caches: Caches::new(agreed),
            tally: Tally::default(),
        }
    }
}
