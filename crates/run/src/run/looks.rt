// Looking at a run: no look counts as a call.
ghost use Rattle.std.specs.Prelude.{◌≡◌, ℕ, length};
ghost use Rattle.refusal.specs.Refusals.{Answers};
ghost use Rattle.rules.specs.Systems.{state_on};
ghost use Rattle.run.specs.Views.{system_of, look_due};

use super::Run;
use memory::Memory;
use protocol::{Protocol, State};
use refusal::Refusal;
use rules::Tally;

impl<P: Protocol, M: Memory> Run<P, M> {
    /// The seats on the bus.
    pub fn seats(&self) -> usize
        ensures { result ≡ length (system_of P.cells M.lines self.now).caches }
    {
        self.bus.caches.seats()
    }

    /// The lines of the memory.
    pub fn lines(&self) -> usize
        ensures { result ≡ length (system_of P.cells M.lines self.now).memory }
    {
        self.bus.memory.count()
    }

    /// The calls answered since opening.
    pub fn calls(&self) -> u32
        ensures { result ≡ (system_of P.cells M.lines self.now).answered }
    {
        self.calls
    }

    /// What was counted since opening.
    pub fn tally(&self) -> Tally
        ensures { result ≡ (system_of P.cells M.lines self.now).tally }
    {
        self.bus.tally
    }

    /// The state of a seat's copy of a line. Refused with 6 for a seat not on the bus, then with 7 for a line beyond memory.
    pub fn state(&self, seat: usize, line: usize) -> Result<State, Refusal>
        ensures { Answers (look_due (system_of P.cells M.lines self.now) seat line) (state_on (system_of P.cells M.lines self.now) line seat) result }
    {
        self.check_place(seat, line)?;
        Ok(self.bus.caches.state(seat, line))
    }
}
