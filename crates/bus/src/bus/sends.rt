// The transactions of a held line that send the written word: invalidate, update, through with update. Each answers its record.
ghost use Rattle.std.specs.Prelude.{◌<◌};
ghost use Rattle.protocol.specs.declared.transaction.Transaction.TheVariants.{Invalidate, Update, ThroughUpdate};
ghost use Rattle.rules.specs.Transactions.{invalidate, update, through_update};
ghost use Rattle.rules.specs.Machines.{transact};
ghost use Rattle.bus.specs.Totals.{Room};
ghost use Rattle.bus.specs.Logs.{single};
ghost use Rattle.bus.specs.Machines.{Holds, Obeys};

use super::Bus;
use crate::counts::tell;
use crate::records::unsupplied;
use crate::states::{after_through_update, after_update};
use caches::{Heard, Store};
use memory::Memory;
use protocol::{Protocol, State, Transaction};
use rules::Record;

// A seat and a line stay two numbers, as the caches take them: what is asked of them is a relation to this bus, which no type of theirs can state.
impl<P: Protocol, M: Memory> Bus<P, M> {
    /// IN: the others become Invalid, and the seat's copy is Modified with the new word.
    pub(super) fn invalidate(&mut self, seat: usize, line: usize, store: Store) -> Record
        requires on { seat < self.old.caches.agreed.seats }
        requires held { Holds seat line self.old.caches }
        requires room { Room 11 self.old.tally }
        ensures { Obeys M.lines M.aside (transact Invalidate seat line (invalidate seat store.word store.value)) (single result) 11 self.old self.new }
    {
        let heeded = self
            .caches
            .react(&self.protocol, seat, line, Heard::Invalidate);
        self.caches.write(seat, line, State::Modified, store);
        let event = unsupplied(Transaction::Invalidate, seat, line, heeded.shared);
        tell(&mut self.tally, event, heeded.lost)
    }

    /// UP: the others react and take the word, and the seat's copy owns the line.
    pub(super) fn update(&mut self, seat: usize, line: usize, store: Store) -> Record
        requires on { seat < self.old.caches.agreed.seats }
        requires held { Holds seat line self.old.caches }
        requires room { Room 11 self.old.tally }
        ensures { Obeys M.lines M.aside (transact Update seat line (update (P.cells self.old.protocol) seat store.word store.value)) (single result) 11 self.old self.new }
    {
        let heeded = self
            .caches
            .react(&self.protocol, seat, line, Heard::Update(store));
        let state = after_update(&self.protocol, seat, !heeded.shared);
        self.caches.write(seat, line, state, store);
        let event = unsupplied(Transaction::Update, seat, line, heeded.shared);
        tell(&mut self.tally, event, heeded.lost)
    }

    /// TU: memory and the others take the word, and the seat's copy goes by its state.
    pub(super) fn through_update(&mut self, seat: usize, line: usize, store: Store) -> Record
        requires on { seat < self.old.caches.agreed.seats }
        requires held { Holds seat line self.old.caches }
        requires room { Room 11 self.old.tally }
        ensures { Obeys M.lines M.aside (transact ThroughUpdate seat line (through_update (P.cells self.old.protocol) seat store.word store.value)) (single result) 11 self.old self.new }
    {
        let _ = self.memory.write_word(line, store.word, store.value);
        let old = self.caches.state(seat, line);
        let heeded = self
            .caches
            .react(&self.protocol, seat, line, Heard::ThroughUpdate(store));
        let state = after_through_update(&self.protocol, seat, !heeded.shared, old);
        self.caches.write(seat, line, state, store);
        let event = unsupplied(Transaction::ThroughUpdate, seat, line, heeded.shared);
        tell(&mut self.tally, event, heeded.lost)
    }
}
