// A whole run: opened, every call made, and closed.
ghost use Rattle.std.specs.Prelude.{ℕ};
ghost use Rattle.run.specs.Replayed.{Replays};

use crate::closed::Closed;
use crate::run::Run;
use crate::step::Step;
use caches::Agreed;
use memory::Memory;
use protocol::Protocol;

/// Opens a run, makes the calls of all steps in turn, the refused ones too, notes each reply in its step, and closes.
pub fn replay<P: Protocol + Drop, M: Memory>(
    agreed: Agreed,
    protocol: P,
    memory: M,
    steps: &mut [Step],
) -> Closed<M>
    ensures { Replays P.cells M.lines M.settled M.aside agreed protocol memory steps.old steps.new result }
{
    let (mut run, ticket) = Run::open(agreed, protocol, memory);
    for step in steps.iter_mut() {
        step.reply = Some(run.make(step.call));
    }
    run.close(ticket)
}
