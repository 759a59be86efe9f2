// The transactions that bring a line into a seat: read shared, and read and invalidate. Each answers its record.
ghost use Rattle.std.specs.Prelude.{◌<◌, length};
ghost use Rattle.protocol.specs.declared.transaction.Transaction.TheVariants.{ReadShared, ReadInvalidate};
ghost use Rattle.rules.specs.Transactions.{read_shared, read_invalidate};
ghost use Rattle.rules.specs.Machines.{transact};
ghost use Rattle.bus.specs.Totals.{Room};
ghost use Rattle.bus.specs.Logs.{single};
ghost use Rattle.bus.specs.Machines.{Holds, Lacks, Free, Obeys};

use super::Bus;
use crate::counts::tell;
use crate::records::supplied;
use crate::states::after_read;
use crate::supplies::{reflect, supply};
use caches::{Heard, Store};
use memory::Memory;
use protocol::{Protocol, State, Transaction};
use rules::Record;

// A seat and a line stay two numbers, as the caches take them: what is asked of them is a relation to this bus, which no type of theirs can state.
impl<P: Protocol, M: Memory> Bus<P, M> {
    /// RS: the others react, an owner or else memory supplies the line, and the seat takes it.
    pub(super) fn read_shared(&mut self, seat: usize, line: usize) -> Record
        requires on { seat < self.old.caches.agreed.seats }
        requires there { line < length (M.lines self.old.memory) }
        requires absent { Lacks seat line self.old.caches }
        requires free { Free seat line self.old.caches }
        requires room { Room 11 self.old.tally }
        ensures obeys { Obeys M.lines M.aside (transact ReadShared seat line (read_shared (P.cells self.old.protocol) seat)) (single result) 11 self.old self.new }
        ensures held { Holds seat line self.new.caches }
    {
        let heeded = self
            .caches
            .react(&self.protocol, seat, line, Heard::ReadShared);
        let words = supply(&self.memory, line, heeded.owner);
        let reflected = heeded.owner.is_some_and(|owner| owner.reflected);
        reflect(&mut self.memory, line, words, reflected);
        let state = after_read(&self.protocol, seat, !heeded.shared);
        self.caches.place(seat, line, state, words);
        let event = Record {
            reflected,
            ..supplied(Transaction::ReadShared, seat, line, &heeded)
        };
        tell(&mut self.tally, event, heeded.lost)
    }

    /// RX: the others become Invalid, an owner or else memory supplies the line, and the seat takes it with the new word.
    pub(super) fn read_invalidate(&mut self, seat: usize, line: usize, store: Store) -> Record
        requires on { seat < self.old.caches.agreed.seats }
        requires there { line < length (M.lines self.old.memory) }
        requires absent { Lacks seat line self.old.caches }
        requires free { Free seat line self.old.caches }
        requires room { Room 11 self.old.tally }
        ensures { Obeys M.lines M.aside (transact ReadInvalidate seat line (read_invalidate seat store.word store.value)) (single result) 11 self.old self.new }
    {
        let heeded = self
            .caches
            .react(&self.protocol, seat, line, Heard::ReadInvalidate);
        let mut words = supply(&self.memory, line, heeded.owner);
        words[store.word] = store.value;
        self.caches.place(seat, line, State::Modified, words);
        let event = supplied(Transaction::ReadInvalidate, seat, line, &heeded);
        tell(&mut self.tally, event, heeded.lost)
    }
}
