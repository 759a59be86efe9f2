// Accesses: transactions in turn, whose records go into a log.
ghost use Rattle.std.specs.Prelude.{◌<◌, ◌≤◌, [], length, Some};
ghost use Rattle.protocol.specs.declared.transaction.Transaction.TheVariants.{ReadInvalidate};
ghost use Rattle.protocol.specs.Transactions.{digit_transaction};
ghost use Rattle.rules.specs.Transactions.{read_invalidate, silent};
ghost use Rattle.rules.specs.Machines.{change, transact};
ghost use Rattle.rules.specs.Accesses.{emptied, filled, fetched, sent_by, written_held, missed_by, written};
ghost use Rattle.bus.specs.Totals.{Room};
ghost use Rattle.bus.specs.Logs.{Fits};
ghost use Rattle.bus.specs.Machines.{Holds, Lacks, Obeys, Reaches, Tells};

use super::Bus;
use crate::choice::choose;
use crate::log::Log;
use caches::Store;
use memory::Memory;
use protocol::{Protocol, State, Transaction};
use rules::Record;

// A seat and a line stay two numbers, as the caches take them: what is asked of them is a relation to this bus, which no type of theirs can state.
impl<P: Protocol, M: Memory> Bus<P, M> {
    // The place is emptied and the line read shared.
    fn fill(&mut self, seat: usize, line: usize, log: &mut Log)
        requires on { seat < self.old.caches.agreed.seats }
        requires there { line < length (M.lines self.old.memory) }
        requires absent { Lacks seat line self.old.caches }
        requires room { Room 15 self.old.tally }
        requires places { Fits 2 log.old }
        ensures told { Tells M.lines M.aside (filled (P.cells self.old.protocol) seat line) 2 15 log.old log.new self.old self.new }
        ensures held { Holds seat line self.new.caches }
    {
        log.push_some(self.empty(seat, line));
        log.push(self.read_shared(seat, line));
    }

    // A write at an exclusive copy uses no bus.
    fn write_silently(&mut self, seat: usize, line: usize, store: Store)
        requires on { seat < self.old.caches.agreed.seats }
        requires held { Holds seat line self.old.caches }
        ensures { Obeys M.lines M.aside (change line (silent seat store.word store.value)) [] 0 self.old self.new }
    {
        self.caches.write(seat, line, State::Modified, store);
    }

    // A write of a held line by a transaction.
    fn send_held(
        &mut self,
        transaction: Transaction,
        seat: usize,
        line: usize,
        store: Store,
        log: &mut Log,
    )
        requires on { seat < self.old.caches.agreed.seats }
        requires held { Holds seat line self.old.caches }
        requires room { Room 14 self.old.tally }
        requires places { Fits 2 log.old }
        ensures { Tells M.lines M.aside (sent_by (P.cells self.old.protocol) seat line store.word store.value (Some transaction)) 2 14 log.old log.new self.old self.new }
    {
        match transaction {
            Transaction::Invalidate => log.push(self.invalidate(seat, line, store)),
            Transaction::Update => log.push(self.update(seat, line, store)),
            Transaction::ThroughUpdate => log.push(self.through_update(seat, line, store)),
            Transaction::ThroughInvalidate => self.write_through(seat, line, store, log),
            // The law names no other transaction for a held line.
            Transaction::ReadShared | Transaction::ReadInvalidate | Transaction::WriteBack => {}
        }
    }

    // A write of a held line, by the transaction that its cell names; an exclusive copy uses no bus.
    fn write_held(&mut self, seat: usize, line: usize, store: Store, log: &mut Log)
        requires on { seat < self.old.caches.agreed.seats }
        requires held { Holds seat line self.old.caches }
        requires room { Room 14 self.old.tally }
        requires places { Fits 2 log.old }
        ensures { Tells M.lines M.aside (written_held (P.cells self.old.protocol) seat line store.word store.value) 2 14 log.old log.new self.old self.new }
    {
        let state = self.caches.state(seat, line);
        match choose(&self.protocol, seat, state) {
            Some(transaction) => self.send_held(transaction, seat, line, store, log),
            None => self.write_silently(seat, line, store),
        }
    }

    // A line is brought in with the new word, and the other copies go.
    fn fill_written(&mut self, seat: usize, line: usize, store: Store, log: &mut Log)
        requires on { seat < self.old.caches.agreed.seats }
        requires there { line < length (M.lines self.old.memory) }
        requires absent { Lacks seat line self.old.caches }
        requires room { Room 15 self.old.tally }
        requires places { Fits 2 log.old }
        ensures { Tells M.lines M.aside (λ m. transact ReadInvalidate seat line (read_invalidate seat store.word store.value) (emptied seat line m)) 2 15 log.old log.new self.old self.new }
    {
        log.push_some(self.empty(seat, line));
        log.push(self.read_invalidate(seat, line, store));
    }

    // A line is read shared, and the write goes on as from Shared or Exclusive.
    fn fill_then_write(&mut self, seat: usize, line: usize, store: Store, log: &mut Log)
        requires on { seat < self.old.caches.agreed.seats }
        requires there { line < length (M.lines self.old.memory) }
        requires absent { Lacks seat line self.old.caches }
        requires room { Room 29 self.old.tally }
        requires places { Fits 4 log.old }
        ensures { Tells M.lines M.aside (λ m. written_held (P.cells self.old.protocol) seat line store.word store.value (filled (P.cells self.old.protocol) seat line m)) 4 29 log.old log.new self.old self.new }
    {
        self.fill(seat, line, log);
        self.write_held(seat, line, store, log);
    }

    // A write at Invalid, by the transaction that cell 0 names.
    fn write_missed(&mut self, seat: usize, line: usize, store: Store, log: &mut Log)
        requires on { seat < self.old.caches.agreed.seats }
        requires there { line < length (M.lines self.old.memory) }
        requires absent { Lacks seat line self.old.caches }
        requires room { Room 29 self.old.tally }
        requires places { Fits 4 log.old }
        ensures { Tells M.lines M.aside (missed_by (P.cells self.old.protocol) seat line store.word store.value (digit_transaction (P.cells self.old.protocol seat 0))) 4 29 log.old log.new self.old self.new }
    {
        let Some(transaction) = choose(&self.protocol, seat, State::Invalid) else {
            return;
        };
        match transaction {
            Transaction::ReadShared => self.fill_then_write(seat, line, store, log),
            Transaction::ReadInvalidate => self.fill_written(seat, line, store, log),
            Transaction::ThroughInvalidate => self.write_through(seat, line, store, log),
            // The law names no other transaction at Invalid.
            Transaction::Invalidate
            | Transaction::Update
            | Transaction::ThroughUpdate
            | Transaction::WriteBack => {}
        }
    }

    // A read's part of the bus: a line that is not held is read shared. Answers how many records were made.
    pub(super) fn fetch(&mut self, seat: usize, line: usize, records: &mut [Record]) -> usize
        requires on { seat < self.old.caches.agreed.seats }
        requires there { line < length (M.lines self.old.memory) }
        requires room { Room 15 self.old.tally }
        requires places { 2 ≤ length records.old }
        ensures reaches { Reaches M.lines M.aside (fetched (P.cells self.old.protocol) seat line) 2 15 0 result records.old records.new self.old self.new }
        ensures held { Holds seat line self.new.caches }
    {
        if self.caches.state(seat, line).is_valid() {
            return 0;
        }
        // A log is made only here, so that a hit takes no more than its look-up.
        let mut log = Log::new(records);
        self.fill(seat, line, &mut log);
        log.made()
    }

    // A write's part of the bus, by the seat's state and its cells.
    pub(super) fn send(&mut self, seat: usize, line: usize, store: Store, log: &mut Log)
        requires on { seat < self.old.caches.agreed.seats }
        requires there { line < length (M.lines self.old.memory) }
        requires room { Room 29 self.old.tally }
        requires places { Fits 4 log.old }
        ensures { Tells M.lines M.aside (written (P.cells self.old.protocol) seat line store.word store.value) 4 29 log.old log.new self.old self.new }
    {
        if self.caches.state(seat, line).is_valid() {
            self.write_held(seat, line, store, log);
        } else {
            self.write_missed(seat, line, store, log);
        }
    }
}
