// One access, performed on a run.
ghost use Rattle.std.specs.Prelude.{◌≡◌, ℕ, take};
ghost use Rattle.memory.specs.Words.{plain_lines};
ghost use Rattle.run.specs.Views.{system_of};
ghost use Rattle.session.specs.Plays.{call_of, states_of};
ghost use Rattle.session.specs.Steps.{IsWithin, Made};

use super::Playing;
use crate::states::line_states;
use account::{MOST_RECORDS, MOST_SEATS, Prefix, Step};
use memory::{Plain, WORDS_IN_LINE};
use protocol::{Protocol, State};
use refusal::Refusal;
use rules::{Call, Record};
use run::Run;
use trace::Access;

impl<P: Protocol> Playing<P> {
    /// Performs an access, with four places for bus records.
    pub fn perform(&mut self, access: Access) -> Result<Step, Refusal>
        ensures { Made access (system_of P.cells plain_lines self.old.run) (system_of P.cells plain_lines self.new.run) result }
    {
        let mut items = [Record::UNMADE; MOST_RECORDS];
        let reply = self.run.call(call_of(access), &mut items)?;
        Ok(Step {
            access,
            answer: reply.value,
            states: states_after(&self.run, access),
            records: Prefix {
                items,
                count: reply.records,
            },
        })
    }
}

// The call that an access makes. It is no `From`: neither type is this crate's.
fn call_of(access: Access) -> Call
    ensures { result ≡ call_of access }
{
    match access {
        Access::Read { seat, address } => Call::Read {
            seat,
            address,
            places: MOST_RECORDS,
        },
        Access::Write {
            seat,
            address,
            value,
        } => Call::Write {
            seat,
            address,
            value,
            places: MOST_RECORDS,
        },
        Access::Flush { seat, address } => Call::Flush {
            seat,
            address,
            places: MOST_RECORDS,
        },
        Access::Settle => Call::Settle,
    }
}

// The states of the line of an access; a settle has none.
fn states_after<P: Protocol>(run: &Run<P, Plain>, access: Access) -> Prefix<State, MOST_SEATS>
    requires { IsWithin access (system_of P.cells plain_lines run.now) }
    ensures { take result.count result.items ≡ states_of access (system_of P.cells plain_lines run.now) }
{
    match access {
        Access::Read { address, .. }
        | Access::Write { address, .. }
        | Access::Flush { address, .. } => line_states(run, address as usize / WORDS_IN_LINE),
        Access::Settle => Prefix {
            items: [State::Invalid; MOST_SEATS],
            count: 0,
        },
    }
}
