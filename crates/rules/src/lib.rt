// The rules of the bus: what each transaction, access and call does, the ledger beside a run, and what is proved of them.
#![tactic(auto)]

ghost use Rattle.rules.specs.Coherence.{Coherence};
ghost use Rattle.rules.specs.Deciding.{Deciding};
ghost use Rattle.rules.specs.Laws.{BusLaws};
ghost use Rattle.rules.specs.Sessions.{Sessions};

mod call;
mod record;
mod tally;

pub use call::Call;
pub use record::{Record, Supplier};
pub use tally::Tally;

/// The rules give the nine sessions worked out by hand.
pub fn worked_sessions()
    ensures { Sessions }
{}

/// Each cell of a table decides what it is for, shown for every byte that it may hold.
pub fn deciding_cells()
    ensures { Deciding }
{}

/// Under every lawful protocol, after every list of calls, a run keeps what it owes its ledger.
pub fn coherence()
    ensures { Coherence }
{}

/// What a refused call, a read, a flush and a settle leave alone, who writes back and who supplies, what the tally counts, and what closing gives.
pub fn bus_laws()
    ensures { BusLaws }
{}
