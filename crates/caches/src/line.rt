// One place of a cache, and how the copy in it reacts to what it hears.
ghost use Rattle.std.specs.Prelude.{◌≡◌, slice_set};
ghost use Rattle.caches.specs.Lines.{copy_of};
ghost use Rattle.caches.specs.Hearing.{reaction};

use crate::heard::{Heard, cell_state};
use crate::store::Store;
use protocol::{Cell, Protocol, State};

/// A place for one line: the copy's state, the line's number and its words.
// Invalid is one of the states by which a copy reacts in place, so that the line and the words stand beside it and mean nothing then.
#[derive(Clone, Copy)]
pub struct CacheLine {
    pub state: State,
    pub tag: usize,
    pub words: [u32; 4],
}

impl CacheLine {
    /// The copy changes by its own state and the transaction heard together; the answer is its state then.
    pub fn snoop<P: Protocol>(&mut self, protocol: &P, seat: usize, heard: Heard) -> State
        ensures copy { copy_of self.new ≡ reaction (P.cells protocol.now seat) heard (copy_of self.old) }
        ensures tag { self.new.tag ≡ self.old.tag }
        ensures state { result ≡ self.new.state }
    {
        let state_by = |cell: Cell| cell_state(protocol, seat, cell.number());
        self.state = match (self.state, heard) {
            (State::Invalid, _) => return State::Invalid,
            (_, Heard::ReadInvalidate | Heard::Invalidate | Heard::ThroughInvalidate) =>
                State::Invalid,
            (State::Shared, Heard::ReadShared) => state_by(Cell::ReadHeardAtShared),
            (State::Exclusive, Heard::ReadShared) => state_by(Cell::ReadHeardAtExclusive),
            (State::Owned, Heard::ReadShared) => state_by(Cell::ReadHeardAtOwned),
            (State::Modified, Heard::ReadShared) => state_by(Cell::ReadHeardAtModified),
            (State::Shared | State::Exclusive, Heard::Update(_)) => state_by(
                Cell::UpdateHeardAtShared,
            ),
            (State::Owned | State::Modified, Heard::Update(_)) => state_by(
                Cell::UpdateHeardAtOwned,
            ),
            (State::Shared | State::Exclusive, Heard::ThroughUpdate(_)) => state_by(
                Cell::ThroughUpdateHeardAtShared,
            ),
            (State::Owned | State::Modified, Heard::ThroughUpdate(_)) => State::Owned,
        };
        if let Heard::Update(store) | Heard::ThroughUpdate(store) = heard {
            self.words[store.word] = store.value;
        }
        self.state
    }

    /// The copy takes a state and one word.
    pub fn take(&mut self, state: State, store: Store)
        ensures state { self.new.state ≡ state }
        ensures tag { self.new.tag ≡ self.old.tag }
        ensures words { self.new.words ≡ slice_set self.old.words store.word store.value }
    {
        self.state = state;
        self.words[store.word] = store.value;
    }
}
