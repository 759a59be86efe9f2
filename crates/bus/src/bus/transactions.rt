// Write back, the transaction that no seat hears. It answers its record.
ghost use Rattle.std.specs.Prelude.{◌≡◌, ◌<◌};
ghost use Rattle.protocol.specs.declared.transaction.Transaction.TheVariants.{WriteBack};
ghost use Rattle.rules.specs.Transactions.{write_back};
ghost use Rattle.rules.specs.Machines.{transact};
ghost use Rattle.bus.specs.Totals.{Room};
ghost use Rattle.bus.specs.Logs.{single};
ghost use Rattle.bus.specs.Machines.{Holds, Obeys};

use super::Bus;
use crate::counts::tell;
use crate::records::unsupplied;
use memory::Memory;
use protocol::{Protocol, Transaction};
use rules::Record;

// A seat and a line stay two numbers, as the caches take them: what is asked of them is a relation to this bus, which no type of theirs can state.
impl<P: Protocol, M: Memory> Bus<P, M> {
    /// WB: memory takes the whole line from a seat that holds it.
    pub(super) fn write_back(&mut self, seat: usize, line: usize) -> Record
        requires on { seat < self.old.caches.agreed.seats }
        requires held { Holds seat line self.old.caches }
        requires room { Room 3 self.old.tally }
        ensures obeys { Obeys M.lines M.aside (transact WriteBack seat line (write_back seat)) (single result) 3 self.old self.new }
        ensures caches { self.new.caches ≡ self.old.caches }
    {
        let words = self.caches.words(seat, line);
        let _ = self.memory.write_line(line, words);
        let shared = self.caches.shared(seat, line);
        let event = unsupplied(Transaction::WriteBack, seat, line, shared);
        tell(&mut self.tally, event, 0)
    }
}
