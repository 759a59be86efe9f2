// The states of a line, seat by seat.
ghost use Rattle.std.specs.Prelude.{◌≡◌, ℕ, ◌<◌, length, take};
ghost use Rattle.memory.specs.Words.{plain_lines};
ghost use Rattle.rules.specs.Systems.{state_on};
ghost use Rattle.run.specs.Views.{system_of};
ghost use Rattle.session.specs.Plays.{states_on};

use account::{MOST_SEATS, Prefix};
use memory::Plain;
use protocol::{Protocol, State};
use run::Run;

/// The state of a line in each seat on the bus.
pub(crate) fn line_states<P: Protocol>(
    run: &Run<P, Plain>,
    line: usize,
) -> Prefix<State, MOST_SEATS>
    requires { line < length (system_of P.cells plain_lines run.now).memory }
    ensures { take result.count result.items ≡ states_on line (system_of P.cells plain_lines run.now) }
{
    Prefix {
        items: std::array::from_fn(|seat| state_in(run, seat, line)),
        count: run.seats(),
    }
}

// The state of a line in a seat; Invalid past the last one.
fn state_in<P: Protocol>(run: &Run<P, Plain>, seat: usize, line: usize) -> State
    requires { line < length (system_of P.cells plain_lines run.now).memory }
    ensures { result ≡ state_on (system_of P.cells plain_lines run.now) line seat }
{
    run.state(seat, line).unwrap_or(State::Invalid)
}
