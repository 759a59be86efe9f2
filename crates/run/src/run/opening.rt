// Opening a run.
ghost use Rattle.std.specs.Prelude.{◌≡◌, ℕ};
ghost use Rattle.run.specs.Openings.{Opened};

use super::Run;
use crate::ticket::Ticket;
use bus::Bus;
use caches::Agreed;
use memory::Memory;
use protocol::Protocol;

impl<P: Protocol, M: Memory> Run<P, M> {
    /// Opens a run with every copy Invalid, and gives its ticket. It is never refused.
    pub fn open(agreed: Agreed, protocol: P, memory: M) -> (Run<P, M>, Ticket)
        ensures { Opened P.cells M.lines agreed protocol memory result.0 }
    {
        let bus = Bus::new(agreed, protocol, memory);
        (Run { bus, calls: 0 }, Ticket::issue())
    }
}
