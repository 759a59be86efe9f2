// Through with invalidate: an owner's write back first, then the word to memory, and the other copies go.
ghost use Rattle.std.specs.Prelude.{◌<◌};
ghost use Rattle.protocol.specs.declared.transaction.Transaction.TheVariants.{ThroughInvalidate};
ghost use Rattle.rules.specs.Transactions.{through_invalidate};
ghost use Rattle.rules.specs.Machines.{transact};
ghost use Rattle.rules.specs.Accesses.{saved_from, through};
ghost use Rattle.bus.specs.Totals.{Room};
ghost use Rattle.bus.specs.Logs.{single, listed, Fits};
ghost use Rattle.bus.specs.Machines.{Obeys, Tells};

use super::Bus;
use crate::counts::tell;
use crate::log::Log;
use crate::records::unsupplied;
use crate::states::keep_through;
use caches::{Heard, Store};
use memory::Memory;
use protocol::{Protocol, Transaction};
use rules::Record;

// A seat and a line stay two numbers, as the caches take them: what is asked of them is a relation to this bus, which no type of theirs can state.
impl<P: Protocol, M: Memory> Bus<P, M> {
    // An owner of the line in another seat writes it back.
    fn save_owner(&mut self, seat: usize, line: usize) -> Option<Record>
        requires { Room 3 self.old.tally }
        ensures { Obeys M.lines M.aside (saved_from seat line) (listed result) 3 self.old self.new }
    {
        let owner = self.caches.owner(seat, line)?;
        Some(self.write_back(owner, line))
    }

    // TI: memory takes the word, the others become Invalid, and the seat's copy, if there is one, goes by its state.
    fn through_invalidate(&mut self, seat: usize, line: usize, store: Store) -> Record
        requires on { seat < self.old.caches.agreed.seats }
        requires room { Room 11 self.old.tally }
        ensures { Obeys M.lines M.aside (transact ThroughInvalidate seat line (through_invalidate (P.cells self.old.protocol) seat store.word store.value)) (single result) 11 self.old self.new }
    {
        let _ = self.memory.write_word(line, store.word, store.value);
        let heeded = self
            .caches
            .react(&self.protocol, seat, line, Heard::ThroughInvalidate);
        keep_through(&mut self.caches, &self.protocol, seat, line, store);
        let event = unsupplied(Transaction::ThroughInvalidate, seat, line, heeded.shared);
        tell(&mut self.tally, event, heeded.lost)
    }

    // Through with invalidate; an owner in another seat writes back first.
    pub(super) fn write_through(&mut self, seat: usize, line: usize, store: Store, log: &mut Log)
        requires on { seat < self.old.caches.agreed.seats }
        requires room { Room 14 self.old.tally }
        requires places { Fits 2 log.old }
        ensures { Tells M.lines M.aside (through (P.cells self.old.protocol) seat line store.word store.value) 2 14 log.old log.new self.old self.new }
    {
        log.push_some(self.save_owner(seat, line));
        log.push(self.through_invalidate(seat, line, store));
    }
}
