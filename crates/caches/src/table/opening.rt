// Opening the table with every copy Invalid.
ghost use Rattle.std.specs.Prelude.{◌≡◌, replicate};
ghost use Rattle.rules.specs.Caches.{fresh};
ghost use Rattle.caches.specs.Views.{caches_of};

use super::Caches;
use crate::agreed::Agreed;
use crate::line::CacheLine;
use protocol::State;

impl Caches {
    /// The agreed caches, all empty.
    pub fn new(agreed: Agreed) -> Caches
        ensures caches { caches_of result ≡ replicate agreed.seats (fresh agreed.sets 1) }
        ensures agreed { result.agreed ≡ agreed }
    {
        // No Default: only an empty place begins as Invalid, and a state by itself has no first value.
        let empty = CacheLine {
            state: State::Invalid,
            tag: 0,
            words: [0; 4],
        };
        Caches {
            table: [[empty; 64]; 8],
            agreed,
        }
    }

    /// The seats on the bus.
    pub fn seats(&self) -> usize
        ensures { result ≡ self.now.agreed.seats }
    {
        self.agreed.seats()
    }

    /// The sets of each seat's cache.
    pub fn sets(&self) -> usize
        ensures { result ≡ self.now.agreed.sets }
    {
        self.agreed.sets()
    }
}
