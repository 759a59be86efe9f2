// The checks of a call, in their order.
ghost use Rattle.std.specs.Prelude.{ℕ};
ghost use Rattle.refusal.specs.Refusals.{Answers};
ghost use Rattle.rules.specs.declared.call.Call.TheVariants.{Settle};
ghost use Rattle.rules.specs.Systems.{due_in};
ghost use Rattle.run.specs.Views.{system_of, look_due};
ghost use Rattle.run.specs.Calls.{access_due};

use super::Run;
use crate::place::Place;
use memory::Memory;
use protocol::Protocol;
use refusal::Refusal;

/// The calls that a run answers before closing.
pub const CALL_LIMIT: u32 = 1_000_000;

/// The record places that an access may need.
pub const PLACES_NEEDED: usize = 4;

impl<P: Protocol, M: Memory> Run<P, M> {
    /// Another call may be answered.
    pub(super) fn check_calls(&self) -> Result<(), Refusal>
        ensures { Answers (due_in 4 (system_of P.cells M.lines self.now) Settle) tt result }
    {
        if self.calls >= CALL_LIMIT {
            return Err(Refusal::CallLimit);
        }
        Ok(())
    }

    /// The seat is on the bus, and the line in memory.
    pub(super) fn check_place(&self, seat: usize, line: usize) -> Result<(), Refusal>
        ensures { Answers (look_due (system_of P.cells M.lines self.now) seat line) tt result }
    {
        if seat >= self.seats() {
            return Err(Refusal::NoSeat);
        }
        if line >= self.lines() {
            return Err(Refusal::BeyondMemory);
        }
        Ok(())
    }

    /// Another call may be answered, the seat is on the bus, the address in memory, and there are places enough.
    pub(super) fn check(&self, seat: u32, address: u32, places: usize) -> Result<(), Refusal>
        ensures { Answers (access_due (system_of P.cells M.lines self.now) seat address places) tt result }
    {
        self.check_calls()?;
        self.check_place(seat as usize, Place::from(address).line)?;
        if places < PLACES_NEEDED {
            return Err(Refusal::RecordPlaces);
        }
        Ok(())
    }
}
