// Changes of one seat's copy of a line by the seat itself.
ghost use Rattle.std.specs.Prelude.{◌≡◌, ℕ, ◌%◌, ◌<◌, true, [], slice_index_or, slice_set};
ghost use Rattle.protocol.specs.States.{valid};
ghost use Rattle.rules.specs.Columns.{kept, none, state_at, words_at};
ghost use Rattle.rules.specs.Caches.{room};
ghost use Rattle.rules.specs.Machines.{copies_of, put_each};
ghost use Rattle.caches.specs.Views.{caches_of};

use super::Caches;
use crate::line::CacheLine;
use crate::store::Store;
use protocol::State;

// Three clauses on each and no record of them: a caller's proof takes the one that it needs by its name.
impl Caches {
    /// The seat takes the line, in a state and with these words: there is room for it.
    pub fn place(&mut self, seat: usize, line: usize, state: State, words: [u32; 4])
        requires on { seat < self.old.agreed.seats }
        requires held { valid state ≡ true }
        requires free { room (slice_index_or (caches_of self.old) seat []) line ≡ true }
        ensures caches { caches_of self.new ≡ put_each line (caches_of self.old) (slice_set (copies_of line (caches_of self.old)) seat (kept state words)) }
        ensures copies { copies_of line (caches_of self.new) ≡ slice_set (copies_of line (caches_of self.old)) seat (kept state words) }
        ensures agreed { self.new.agreed ≡ self.old.agreed }
    {
        let at = self.place_of(line);
        self.table[seat][at] = CacheLine {
            state,
            tag: line,
            words,
        };
    }

    /// The seat's copy of a line that it holds changes its state and one word.
    pub fn write(&mut self, seat: usize, line: usize, state: State, store: Store)
        requires on { seat < self.old.agreed.seats }
        requires held { valid (state_at (copies_of line (caches_of self.old)) seat) ≡ true }
        ensures caches { caches_of self.new ≡ put_each line (caches_of self.old) (slice_set (copies_of line (caches_of self.old)) seat (kept state (slice_set (words_at (copies_of line (caches_of self.old)) seat) store.word store.value))) }
        ensures copies { copies_of line (caches_of self.new) ≡ slice_set (copies_of line (caches_of self.old)) seat (kept state (slice_set (words_at (copies_of line (caches_of self.old)) seat) store.word store.value)) }
        ensures agreed { self.new.agreed ≡ self.old.agreed }
    {
        let at = self.place_of(line);
        self.table[seat][at].take(state, store);
    }

    /// The seat's copy of a line is none, and where there was one its place is free.
    pub fn discard(&mut self, seat: usize, line: usize)
        requires { seat < self.old.agreed.seats }
        ensures caches { caches_of self.new ≡ put_each line (caches_of self.old) (slice_set (copies_of line (caches_of self.old)) seat none) }
        ensures copies { copies_of line (caches_of self.new) ≡ slice_set (copies_of line (caches_of self.old)) seat none }
        ensures free { valid (state_at (copies_of line (caches_of self.old)) seat) ≡ true → (n : ℕ) → n % self.old.agreed.sets ≡ line % self.old.agreed.sets → room (slice_index_or (caches_of self.new) seat []) n ≡ true }
        ensures agreed { self.new.agreed ≡ self.old.agreed }
    {
        let at = self.place_of(line);
        if self.table[seat][at].tag == line {
            self.table[seat][at].state = State::Invalid;
        }
    }
}
