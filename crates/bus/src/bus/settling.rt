// Settling: every seat drops every copy, seats upward, sets upward.
ghost use Rattle.std.specs.Prelude.{◌<◌, ◌≤◌};
ghost use Rattle.rules.specs.Accesses.{flushed_set, flushed_seat, settled};
ghost use Rattle.bus.specs.Totals.{Room};
ghost use Rattle.bus.specs.Machines.{Settles};

use super::Bus;
use crate::records::lines_written;
use memory::Memory;
use protocol::Protocol;

// What is asked of a seat, a set and the tally is a relation to this bus, which no type of theirs can state.
impl<P: Protocol, M: Memory> Bus<P, M> {
    // A seat drops the copy that stands in a set, and answers the lines written.
    fn settle_set(&mut self, seat: usize, at: usize) -> u32
        requires on { seat < self.old.caches.agreed.seats }
        requires within { at < self.old.caches.agreed.sets }
        requires room { Room 4 self.old.tally }
        ensures settles { Settles M.lines M.aside (flushed_set seat at) result 4 self.old self.new }
        ensures few { result ≤ 1 }
    {
        // No `map_or`: of a closure that is not called it is not known that the bus stays.
        match self.caches.standing(seat, at) {
            Some(line) => lines_written(self.flush_line(seat, line)),
            None => 0,
        }
    }

    // A seat drops every copy. A `for`: after a sum nothing is known of what its closure changed.
    fn settle_seat(&mut self, seat: usize) -> u32
        requires on { seat < self.old.caches.agreed.seats }
        requires room { Room 256 self.old.tally }
        ensures settles { Settles M.lines M.aside (flushed_seat seat) result 256 self.old self.new }
        ensures few { result ≤ 64 }
    {
        let mut written = 0;
        for at in 0..self.caches.sets() {
            written += self.settle_set(seat, at);
        }
        written
    }

    /// Every seat drops every copy, after a write back if it is owned. Answers the lines written.
    // A `for` as above; the two go over other things within other bounds.
    pub fn settle(&mut self) -> u32
        requires { Room 2048 self.old.tally }
        ensures { Settles M.lines M.aside settled result 2048 self.old self.new }
    {
        let mut written = 0;
        for seat in 0..self.caches.seats() {
            written += self.settle_seat(seat);
        }
        written
    }
}
