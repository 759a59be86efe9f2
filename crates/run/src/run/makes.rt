// Making a call that is given as a value.
ghost use Rattle.std.specs.Prelude.{◌≡◌, ℕ, length};
ghost use Rattle.refusal.specs.Refusals.{Answers};
ghost use Rattle.rules.specs.Systems.{due_in, outcome};
ghost use Rattle.run.specs.Views.{system_of};
ghost use Rattle.run.specs.Calls.{reply_of, lent, Called};

use super::Run;
use super::checks::PLACES_NEEDED;
use bus::Reply;
use memory::Memory;
use protocol::Protocol;
use refusal::Refusal;
use rules::{Call, Record};

impl<P: Protocol, M: Memory> Run<P, M> {
    /// Makes the call, and lends it the first of these places: as many as it brings, if there are so many.
    pub fn call(&mut self, call: Call, records: &mut [Record]) -> Result<Reply, Refusal>
        ensures { Called P.cells M.lines M.aside (lent (length records.old) call) self.old self.new records.old records.new result }
    {
        let room = records.len();
        // Cut in each arm: a settle brings no places.
        match call {
            Call::Read {
                seat,
                address,
                places,
            } => self.read(seat, address, &mut records[..places.min(room)]),
            Call::Write {
                seat,
                address,
                value,
                places,
            } => self.write(seat, address, value, &mut records[..places.min(room)]),
            Call::Flush {
                seat,
                address,
                places,
            } => self.flush(seat, address, &mut records[..places.min(room)]),
            Call::Settle => self.settle(),
        }
    }

    /// Makes the call, with as many of four places as it brings, and keeps no record.
    pub(crate) fn make(&mut self, call: Call) -> Result<Reply, Refusal>
        ensures replies { Answers (due_in 4 (system_of P.cells M.lines self.old) call) (reply_of (outcome 4 call (system_of P.cells M.lines self.old))) result }
        ensures system { system_of P.cells M.lines self.new ≡ (outcome 4 call (system_of P.cells M.lines self.old)).system }
        ensures aside { M.aside self.new.bus.memory ≡ M.aside self.old.bus.memory }
    {
        self.call(call, &mut [Record::UNMADE; PLACES_NEEDED])
    }
}
