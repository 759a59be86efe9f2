// How the other seats' copies of a line react to a transaction.
ghost use Rattle.std.specs.Prelude.{◌≡◌, ◌+◌, ◌^◌, ◌<◌, true, [], slice_index_or, slice_set};
ghost use Rattle.protocol.specs.States.{valid};
ghost use Rattle.rules.specs.Columns.{state_at};
ghost use Rattle.rules.specs.Caches.{look, put};
ghost use Rattle.rules.specs.Machines.{copies_of, put_each};
ghost use Rattle.caches.specs.Hearing.{reaction, heard_by};
ghost use Rattle.caches.specs.Heeding.{noted, Heeds};
ghost use Rattle.caches.specs.Views.{caches_of};

use super::Caches;
use crate::heard::Heard;
use crate::heeded::Heeded;
use protocol::Protocol;

impl Caches {
    // A held copy of the line reacts: this one element of the table is lent for the change.
    fn turn<P: Protocol>(
        &mut self,
        protocol: &P,
        seat: usize,
        line: usize,
        heard: Heard,
        heeded: &mut Heeded,
    )
        requires on { seat < self.old.agreed.seats }
        requires held { valid (look (slice_index_or (caches_of self.old) seat []) line).state ≡ true }
        requires few { heeded.old.lost + 1 < 2 ^ 32 }
        ensures caches { caches_of self.new ≡ slice_set (caches_of self.old) seat (put line (slice_index_or (caches_of self.old) seat []) (reaction (P.cells protocol.now seat) heard (look (slice_index_or (caches_of self.old) seat []) line))) }
        ensures noted { heeded.new ≡ noted seat (look (slice_index_or (caches_of self.old) seat []) line) (reaction (P.cells protocol.now seat) heard (look (slice_index_or (caches_of self.old) seat []) line)).state heeded.old }
        ensures agreed { self.new.agreed ≡ self.old.agreed }
    {
        let at = self.place_of(line);
        let copy = self.table[seat][at];
        let after = self.table[seat][at].snoop(protocol, seat, heard);
        heeded.note(seat, copy, after);
    }

    // The clauses apart, as where a seat changes its own copy: a caller's proof takes the one that it needs by its name.
    /// Every other seat's copy of the line reacts, seats upward.
    pub fn react<P: Protocol>(
        &mut self,
        protocol: &P,
        requester: usize,
        line: usize,
        heard: Heard,
    ) -> Heeded
        requires on { requester < self.old.agreed.seats }
        ensures caches { caches_of self.new ≡ put_each line (caches_of self.old) (heard_by (P.cells protocol.now) heard requester (copies_of line (caches_of self.old))) }
        ensures copies { copies_of line (caches_of self.new) ≡ heard_by (P.cells protocol.now) heard requester (copies_of line (caches_of self.old)) }
        ensures answer { Heeds requester (copies_of line (caches_of self.old)) (heard_by (P.cells protocol.now) heard requester (copies_of line (caches_of self.old))) result }
        ensures agreed { self.new.agreed ≡ self.old.agreed }
    {
        let at = self.place_of(line);
        let mut heeded = Heeded::default();
        // Seats by number, since each turn changes the table.
        for seat in 0..self.agreed.seats {
            if seat != requester && self.state_in(seat, at, line).is_valid() {
                self.turn(protocol, seat, line, heard, &mut heeded);
            }
        }
        heeded
    }
}
