// The calls on a run: each acts on it in place, and a refused one changes nothing.
ghost use Rattle.std.specs.Prelude.{ℕ, [], length};
ghost use Rattle.rules.specs.declared.call.Call.TheVariants.{Read, Write, Flush, Settle};
ghost use Rattle.run.specs.Calls.{Called};

use super::Run;
use crate::place::Place;
use bus::Reply;
use memory::Memory;
use protocol::Protocol;
use refusal::Refusal;
use rules::Record;

impl<P: Protocol, M: Memory> Run<P, M> {
    // Read, write and flush differ in the bus's call between check and count: as a closure's, what it promises would be said twice.
    /// A seat reads the word at an address. Refused with 5, 6, 7 or 8.
    pub fn read(
        &mut self,
        seat: u32,
        address: u32,
        records: &mut [Record],
    ) -> Result<Reply, Refusal>
        ensures { Called P.cells M.lines M.aside (Read seat address (length records.old)) self.old self.new records.old records.new result }
    {
        self.check(seat, address, records.len())?;
        let at = Place::from(address);
        let reply = self.bus.read(seat as usize, at.line, at.word, records);
        self.calls += 1;
        Ok(reply)
    }

    /// A seat writes a word at an address. Refused with 5, 6, 7 or 8.
    pub fn write(
        &mut self,
        seat: u32,
        address: u32,
        value: u32,
        records: &mut [Record],
    ) -> Result<Reply, Refusal>
        ensures { Called P.cells M.lines M.aside (Write seat address value (length records.old)) self.old self.new records.old records.new result }
    {
        self.check(seat, address, records.len())?;
        let at = Place::from(address);
        let reply = self
            .bus
            .write(seat as usize, at.line, at.word, value, records);
        self.calls += 1;
        Ok(reply)
    }

    /// A seat drops its copy of the line that an address lies in. Refused with 5, 6, 7 or 8.
    pub fn flush(
        &mut self,
        seat: u32,
        address: u32,
        records: &mut [Record],
    ) -> Result<Reply, Refusal>
        ensures { Called P.cells M.lines M.aside (Flush seat address (length records.old)) self.old self.new records.old records.new result }
    {
        self.check(seat, address, records.len())?;
        let at = Place::from(address);
        let reply = self.bus.flush(seat as usize, at.line, records);
        self.calls += 1;
        Ok(reply)
    }

    /// Every seat drops every copy. Refused with 5.
    pub fn settle(&mut self) -> Result<Reply, Refusal>
        ensures { Called P.cells M.lines M.aside Settle self.old self.new [] [] result }
    {
        self.check_calls()?;
        let written = self.bus.settle();
        self.calls += 1;
        Ok(Reply {
            value: written,
            records: 0,
        })
    }
}
