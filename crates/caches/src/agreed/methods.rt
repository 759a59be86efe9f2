// Agreeing on sizes, and reading them.
ghost use Rattle.std.specs.Prelude.{◌≡◌};
ghost use Rattle.refusal.specs.Refusals.{Answered};
ghost use Rattle.caches.specs.Sizes.{agree_refusal};

use super::Agreed;
use refusal::Refusal;

impl Agreed {
    /// Agrees on one to eight seats, and on 1, 2, 4, 8, 16, 32 or 64 sets for each.
    pub fn agree(seats: u32, sets: u32) -> Result<Agreed, Refusal>
        ensures { Answered (agree_refusal seats sets) (λ a. (a.seats ≡ seats) × (a.sets ≡ sets)) result }
    {
        if !(1..=8).contains(&seats) {
            return Err(Refusal::Seats);
        }
        if !matches!(sets, 1 | 2 | 4 | 8 | 16 | 32 | 64) {
            return Err(Refusal::Sets);
        }
        Ok(Agreed {
            seats: seats as usize,
            sets: sets as usize,
        })
    }

    /// The seats on the bus.
    pub fn seats(&self) -> usize
        ensures { result ≡ self.now.seats }
    {
        self.seats
    }

    /// The sets of each seat's cache.
    pub fn sets(&self) -> usize
        ensures { result ≡ self.now.sets }
    {
        self.sets
    }
}
