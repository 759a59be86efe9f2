// A run that the accesses of a text are performed on.
ghost use Rattle.std.specs.Prelude.{◌≡◌};
ghost use Rattle.memory.specs.Words.{plain_lines};
ghost use Rattle.run.specs.Views.{system_of};
ghost use Rattle.session.specs.Plays.{History};

use memory::Plain;
use protocol::Protocol;
use run::Run;

// No Model: the system that a run stands for holds its protocol's cells, a function, which no model's value may hold.
/// A run over plain memory, and that calls since an opening have led to where it stands.
pub(crate) struct Playing<P: Protocol> {
    pub run: Run<P, Plain>,
    ghost history: { ∥ History (system_of P.cells plain_lines run) ∥₁ },
}

mod accesses;
mod perform;
