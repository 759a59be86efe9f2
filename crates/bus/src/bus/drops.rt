// How copies go: written back if owned, to make room for another line, or by a flush.
ghost use Rattle.std.specs.Prelude.{◌≡◌, ℕ, ◌%◌, ◌<◌, slice_set};
ghost use Rattle.protocol.specs.States.{owned};
ghost use Rattle.rules.specs.Columns.{none};
ghost use Rattle.rules.specs.Machines.{copies_of, put_each};
ghost use Rattle.rules.specs.Accesses.{state_in, written_back_if, let_go, emptied, flushed};
ghost use Rattle.caches.specs.Views.{caches_of};
ghost use Rattle.bus.specs.Totals.{Room};
ghost use Rattle.bus.specs.Logs.{listed};
ghost use Rattle.bus.specs.Machines.{Holds, Lacks, Free, Obeys};

use super::Bus;
use memory::Memory;
use protocol::Protocol;
use rules::Record;

// A seat and a line stay two numbers, as the caches take them: what is asked of them is a relation to this bus, which no type of theirs can state.
impl<P: Protocol, M: Memory> Bus<P, M> {
    // A seat writes its copy back if it is owned.
    fn save(&mut self, seat: usize, line: usize) -> Option<Record>
        requires on { seat < self.old.caches.agreed.seats }
        requires room { Room 3 self.old.tally }
        ensures obeys { Obeys M.lines M.aside (λ m. written_back_if (owned (state_in seat line m)) seat line m) (listed result) 3 self.old self.new }
        ensures caches { self.new.caches ≡ self.old.caches }
    {
        // No `then`: of a closure that is not called it is not known that the bus stays.
        if self.caches.state(seat, line).is_owned() {
            Some(self.write_back(seat, line))
        } else {
            None
        }
    }

    // A seat lets its copy of a line go, after a write back if it is owned.
    fn let_go(&mut self, seat: usize, line: usize) -> Option<Record>
        requires on { seat < self.old.caches.agreed.seats }
        requires room { Room 3 self.old.tally }
        ensures obeys { Obeys M.lines M.aside (let_go seat line) (listed result) 3 self.old self.new }
        ensures gone { caches_of self.new.caches ≡ put_each line (caches_of self.old.caches) (slice_set (copies_of line (caches_of self.old.caches)) seat none) }
        ensures free { Holds seat line self.old.caches → (n : ℕ) → n % self.old.caches.agreed.sets ≡ line % self.old.caches.agreed.sets → Free seat n self.new.caches }
    {
        let event = self.save(seat, line);
        self.caches.discard(seat, line);
        event
    }

    /// A seat has room for a line that it does not hold: if there was none, another line goes.
    pub(super) fn empty(&mut self, seat: usize, line: usize) -> Option<Record>
        requires on { seat < self.old.caches.agreed.seats }
        requires absent { Lacks seat line self.old.caches }
        requires room { Room 4 self.old.tally }
        ensures obeys { Obeys M.lines M.aside (emptied seat line) (listed result) 4 self.old self.new }
        ensures free { Free seat line self.new.caches }
        ensures absent { Lacks seat line self.new.caches }
    {
        let other = self.caches.occupant(seat, line)?;
        let event = self.let_go(seat, other);
        self.tally.displaced += 1;
        event
    }

    // A seat drops its copy of a line, if it holds one, after a write back if it is owned.
    pub(super) fn flush_line(&mut self, seat: usize, line: usize) -> Option<Record>
        requires on { seat < self.old.caches.agreed.seats }
        requires room { Room 4 self.old.tally }
        ensures { Obeys M.lines M.aside (flushed seat line) (listed result) 4 self.old self.new }
    {
        if !self.caches.state(seat, line).is_valid() {
            return None;
        }
        let event = self.let_go(seat, line);
        self.tally.flushed += 1;
        event
    }
}
