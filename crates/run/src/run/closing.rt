// Closing a run.
ghost use Rattle.std.specs.Prelude.{ℕ};
ghost use Rattle.run.specs.Closings.{Closes};

use super::Run;
use crate::closed::Closed;
use crate::ticket::Ticket;
use bus::Bus;
use memory::Memory;
use protocol::Protocol;

impl<P: Protocol + Drop, M: Memory> Run<P, M> {
    /// Settles, drains the memory, and gives it back with the tally and the lines written. It is never refused.
    pub fn close(self, ticket: Ticket) -> Closed<M>
        ensures { Closes P.cells M.lines M.settled M.aside self result }
    {
        ticket.spend();
        let Run { mut bus, calls: _ } = self;
        let written = bus.settle();
        let Bus {
            protocol: _,
            mut memory,
            caches: _,
            tally,
        } = bus;
        memory.drain();
        Closed {
            memory,
            tally,
            written,
        }
    }
}
