// The calls on a bus: reads, writes and flushes, counted and answered.
ghost use Rattle.std.specs.Prelude.{◌≡◌, ◌<◌, ◌≤◌, length, slice_index};
ghost use Rattle.rules.specs.Columns.{words_at};
ghost use Rattle.rules.specs.Tallies.{one_read, one_write};
ghost use Rattle.rules.specs.Machines.{copies_of, holds};
ghost use Rattle.rules.specs.Accesses.{counting, fetched, written, flushed};
ghost use Rattle.caches.specs.Views.{caches_of};
ghost use Rattle.bus.specs.Totals.{Room};
ghost use Rattle.bus.specs.Machines.{Reaches};

use super::Bus;
use crate::counts::{count_read, count_write};
use crate::log::Log;
use crate::records::lines_written;
use crate::reply::Reply;
use caches::Store;
use memory::Memory;
use protocol::Protocol;
use rules::Record;

// What is asked of the numbers and the places is a relation to this bus, which no type of theirs can state; a written word is a `Store` from here on.
impl<P: Protocol, M: Memory> Bus<P, M> {
    /// A seat reads a word: a line that it does not hold is read shared.
    pub fn read(&mut self, seat: usize, line: usize, word: usize, records: &mut [Record]) -> Reply
        requires on { seat < self.old.caches.agreed.seats }
        requires there { line < length (M.lines self.old.memory) }
        requires within { word < 4 }
        requires room { Room 17 self.old.tally }
        requires places { 4 ≤ length records.old }
        ensures reaches { Reaches M.lines M.aside (λ m. counting (one_read (holds seat line m)) (fetched (P.cells self.old.protocol) seat line m)) 2 17 0 result.records records.old records.new self.old self.new }
        ensures value { result.value ≡ slice_index (words_at (copies_of line (caches_of self.new.caches)) seat) word }
    {
        let hit = self.caches.state(seat, line).is_valid();
        let made = self.fetch(seat, line, records);
        count_read(&mut self.tally, hit);
        Reply {
            value: self.caches.word(seat, line, word),
            records: made,
        }
    }

    /// A seat writes a word, by its state and its cells.
    pub fn write(
        &mut self,
        seat: usize,
        line: usize,
        word: usize,
        value: u32,
        records: &mut [Record],
    ) -> Reply
        requires on { seat < self.old.caches.agreed.seats }
        requires there { line < length (M.lines self.old.memory) }
        requires within { word < 4 }
        requires room { Room 31 self.old.tally }
        requires places { 4 ≤ length records.old }
        ensures reaches { Reaches M.lines M.aside (λ m. counting (one_write (holds seat line m)) (written (P.cells self.old.protocol) seat line word value m)) 4 31 0 result.records records.old records.new self.old self.new }
        ensures value { result.value ≡ value }
    {
        let hit = self.caches.state(seat, line).is_valid();
        let mut log = Log::new(records);
        self.send(seat, line, Store { word, value }, &mut log);
        count_write(&mut self.tally, hit);
        Reply {
            value,
            records: log.made(),
        }
    }

    /// A seat drops its copy of a line, if it holds one, after a write back if it is owned.
    pub fn flush(&mut self, seat: usize, line: usize, records: &mut [Record]) -> Reply
        requires on { seat < self.old.caches.agreed.seats }
        requires room { Room 4 self.old.tally }
        requires places { 4 ≤ length records.old }
        ensures reaches { Reaches M.lines M.aside (flushed seat line) 1 4 0 result.records records.old records.new self.old self.new }
        ensures value { result.value ≡ result.records }
    {
        let event = self.flush_line(seat, line);
        let mut log = Log::new(records);
        log.push_some(event);
        Reply {
            value: lines_written(event),
            records: log.made(),
        }
    }
}
