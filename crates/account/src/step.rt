// One access of a text, performed.
ghost use Rattle.std.specs.Prelude.{◌≡◌, take};

use crate::prefix::Prefix;
use protocol::State;
use rules::Record;
use run::PLACES_NEEDED;
use trace::Access;

/// How many seats a bus may have.
pub const MOST_SEATS: usize = 8;

/// How many bus records an access may make.
pub const MOST_RECORDS: usize = PLACES_NEEDED;

/// An access, its answer, the states of its line in each seat, and the bus records that it made.
#[derive(Clone, Copy)]
pub struct Step {
    pub access: Access,
    pub answer: u32,
    /// The states of the line, one for each seat on the bus.
    pub states: Prefix<State, MOST_SEATS>,
    /// The bus records that were made.
    pub records: Prefix<Record, MOST_RECORDS>,
}

impl Step {
    /// The state of the access's line in each seat, seat 0 first.
    pub fn states(&self) -> &[State]
        ensures { result.now ≡ take self.now.states.count self.now.states.items }
    {
        self.states.as_slice()
    }

    /// The bus records, oldest first.
    pub fn records(&self) -> &[Record]
        ensures { result.now ≡ take self.now.records.count self.now.records.items }
    {
        self.records.as_slice()
    }
}
