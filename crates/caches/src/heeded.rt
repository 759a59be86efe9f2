// What a requester is told of the other seats' reactions.
ghost use Rattle.std.specs.Prelude.{◌≡◌, ◌+◌, ◌^◌, ◌<◌, true};
ghost use Rattle.protocol.specs.States.{valid};
ghost use Rattle.caches.specs.Lines.{copy_of};
ghost use Rattle.caches.specs.Heeding.{supplying, noted};

use crate::line::CacheLine;
use protocol::State;

/// What the seat that owned the line supplies.
#[derive(Clone, Copy)]
pub struct Owner {
    pub seat: usize,
    /// Its words before it reacted.
    pub words: [u32; 4],
    /// It has not ended in Owned.
    pub reflected: bool,
}

/// The outcome of one transaction in the seats that heard it; before any has, the default.
#[derive(Clone, Copy, Default)]
pub struct Heeded {
    /// The first owner before, among the other seats.
    pub owner: Option<Owner>,
    /// Another seat holds the line after all have reacted.
    pub shared: bool,
    /// The other seats that held the line before, and do not after.
    pub lost: u32,
}

impl Heeded {
    // The first owner met supplies.
    fn supply(&mut self, seat: usize, copy: CacheLine, after: State)
        ensures { self.new ≡ supplying seat copy.state copy.words after self.old }
    {
        if copy.state.is_owned() && self.owner.is_none() {
            self.owner = Some(Owner {
                seat,
                words: copy.words,
                reflected: !matches!(after, State::Owned),
            });
        }
    }

    /// Notes the reaction of a copy that was held, the copy before and its state after: it supplies, and stays or goes.
    pub(crate) fn note(&mut self, seat: usize, copy: CacheLine, after: State)
        requires held { valid copy.state ≡ true }
        requires few { self.old.lost + 1 < 2 ^ 32 }
        ensures { self.new ≡ noted seat (copy_of copy) after self.old }
    {
        self.supply(seat, copy, after);
        if after.is_valid() {
            self.shared = true;
        } else {
            self.lost += 1;
        }
    }
}
