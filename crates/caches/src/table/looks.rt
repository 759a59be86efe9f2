// Look-ups in the table, which change nothing.
ghost use Rattle.std.specs.Prelude.{◌≡◌, ◌%◌, ◌<◌, true, not, [], set, IfSome, if◌then◌else◌, Some, None, slice_index, slice_index_or, slice_set};
ghost use Rattle.std.specs.Option.{option_to_list};
ghost use Rattle.protocol.specs.States.{valid};
ghost use Rattle.rules.specs.Columns.{none, state_at, words_at, alone, owner_of};
ghost use Rattle.rules.specs.Caches.{look, room, victim, lines_at};
ghost use Rattle.rules.specs.Machines.{copies_of};
ghost use Rattle.caches.specs.Views.{caches_of};

use super::Caches;
use protocol::State;

impl Caches {
    /// The place of a line: its number modulo the sets, which are a power of two.
    pub(super) fn place_of(&self, line: usize) -> usize
        ensures place { result ≡ line % self.now.agreed.sets }
        ensures below { result < self.now.agreed.sets }
    {
        line & (self.agreed.sets - 1)
    }

    /// The state of a seat's copy of a line.
    pub fn state(&self, seat: usize, line: usize) -> State
        requires { seat < self.now.agreed.seats }
        ensures value { result ≡ state_at (copies_of line (caches_of self.now)) seat }
        ensures seat { result ≡ (look (slice_index_or (caches_of self.now) seat []) line).state }
    {
        self.state_in(seat, self.place_of(line), line)
    }

    // The same, by the line's place, which is the same in each seat's row.
    pub(super) fn state_in(&self, seat: usize, at: usize, line: usize) -> State
        requires on { seat < self.now.agreed.seats }
        requires place { at ≡ line % self.now.agreed.sets }
        requires below { at < self.now.agreed.sets }
        ensures value { result ≡ state_at (copies_of line (caches_of self.now)) seat }
        ensures seat { result ≡ (look (slice_index_or (caches_of self.now) seat []) line).state }
    {
        let copy = &self.table[seat][at];
        if copy.tag == line {
            copy.state
        } else {
            State::Invalid
        }
    }

    /// One word of a line that the seat holds.
    pub fn word(&self, seat: usize, line: usize, word: usize) -> u32
        requires on { seat < self.now.agreed.seats }
        requires held { valid (state_at (copies_of line (caches_of self.now)) seat) ≡ true }
        requires within { word < 4 }
        ensures { result ≡ slice_index (words_at (copies_of line (caches_of self.now)) seat) word }
    {
        let at = self.place_of(line);
        self.table[seat][at].words[word]
    }

    /// The words of a line that the seat holds.
    pub fn words(&self, seat: usize, line: usize) -> [u32; 4]
        requires on { seat < self.now.agreed.seats }
        requires held { valid (state_at (copies_of line (caches_of self.now)) seat) ≡ true }
        ensures { result ≡ words_at (copies_of line (caches_of self.now)) seat }
    {
        let at = self.place_of(line);
        self.table[seat][at].words
    }

    /// The line that has to go before the seat can take this one: none where there is room.
    /// It stands in the same set, and the seat holds it.
    pub fn occupant(&self, seat: usize, line: usize) -> Option<usize>
        requires { seat < self.now.agreed.seats }
        ensures answer { result ≡ (if room (slice_index_or (caches_of self.now) seat []) line then None else Some (victim (slice_index_or (caches_of self.now) seat []) line)) }
        ensures stands { IfSome result (λ v. (v % self.now.agreed.sets ≡ line % self.now.agreed.sets) × (valid (state_at (copies_of v (caches_of self.now)) seat) ≡ true)) }
    {
        let at = self.place_of(line);
        let copy = &self.table[seat][at];
        (copy.tag != line && copy.state.is_valid()).then_some(copy.tag)
    }

    /// The line that stands in a set of a seat.
    pub fn standing(&self, seat: usize, at: usize) -> Option<usize>
        requires on { seat < self.now.agreed.seats }
        requires within { at < self.now.agreed.sets }
        ensures { option_to_list result ≡ lines_at (slice_index_or (caches_of self.now) seat []) at }
    {
        let copy = &self.table[seat][at];
        copy.state.is_valid().then_some(copy.tag)
    }

    /// The first seat other than the requester that owns the line.
    pub fn owner(&self, requester: usize, line: usize) -> Option<usize>
        ensures { result ≡ owner_of (slice_set (copies_of line (caches_of self.now)) requester none) }
    {
        (0..self.agreed.seats).find(|&seat| seat != requester && self.state(seat, line).is_owned())
    }

    /// Whether a seat other than this one holds the line.
    pub fn shared(&self, seat: usize, line: usize) -> bool
        ensures { result ≡ not (alone seat (copies_of line (caches_of self.now))) }
    {
        (0..self.agreed.seats).any(|other| other != seat && self.state(other, line).is_valid())
    }
}
