// A whole text.
ghost use Rattle.std.specs.Prelude.{◌≡◌, ℕ, IfOk};
ghost use Rattle.std.specs.Option.{option_map};
ghost use Rattle.memory.specs.Words.{plain_lines};
ghost use Rattle.trace.specs.Faults.{trace_stop};
ghost use Rattle.account.specs.Accounts.{halted, outcome_of};
ghost use Rattle.session.specs.Texts.{halt_at, zeros, setup_cells, Played, Accounted};

use crate::memory_words::zero_memory;
use crate::playing::Playing;
use account::{Account, Ran, Stop};
use caches::Agreed;
use memory::Plain;
use protocol::{Protocol, Split};
use run::Run;
use std::alloc::{AllocError, Global};
use trace::{Reader, Setup, TraceFault};

/// Runs a text from its bus line to the closing. Only want of memory keeps an account from being made.
pub fn play(heap: Global, text: &[u8]) -> Result<Account, AllocError>
    ensures { IfOk result (λ a. Accounted text.now (outcome_of a)) }
{
    let mut reader = Reader::over(text);
    // A `match`: through a closure it is not known what the run of the setup gives.
    match reader.setup() {
        Ok(setup) => Ok(Ok(play_setup(heap, reader, setup)?)),
        Err(fault) => Ok(Err(stop_at(&reader, fault))),
    }
}

// A fault with the line that it lies in.
fn stop_at(reader: &Reader, fault: TraceFault) -> Stop
    ensures { halted result ≡ halt_at reader.now.text.now (trace_stop fault) }
{
    Stop {
        fault,
        line: reader.line_of(fault.byte()),
    }
}

// What stopped the accesses, if anything did.
// No `map`: through a closure over the reader it is not known which text the stop's line is of.
fn stop_if(reader: &Reader, fault: Option<TraceFault>) -> Option<Stop>
    ensures { option_map halted result ≡ option_map (halt_at reader.now.text.now) (option_map trace_stop fault) }
{
    Some(stop_at(reader, fault?))
}

// The accesses of a text whose bus line gave this setup.
fn play_setup(heap: Global, reader: Reader, setup: Setup) -> Result<Ran, AllocError>
    ensures { IfOk result (λ ran. Played reader.entry.text.now reader.entry.at setup.agreed.seats setup.agreed.sets (setup_cells setup) (zeros setup.lines) ran) }
{
    let memory = zero_memory(heap, setup.lines)?;
    match setup.division {
        None => play_on(heap, reader, setup.agreed, setup.first, memory),
        Some(division) => {
            let protocol = Split::new(setup.first, division.below as usize, division.second);
            play_on(heap, reader, setup.agreed, protocol, memory)
        }
    }
}

// The accesses of a text, on a run under this protocol over this memory.
fn play_on<P: Protocol + Drop>(
    heap: Global,
    reader: Reader,
    agreed: Agreed,
    protocol: P,
    memory: Plain,
) -> Result<Ran, AllocError>
    ensures { IfOk result (λ ran. Played reader.entry.text.now reader.entry.at agreed.seats agreed.sets (P.cells protocol) (plain_lines memory) ran) }
{
    let (run, ticket) = Run::open(agreed, protocol, memory);
    let mut playing = Playing { run };
    let ended = playing.perform_all(heap, reader);
    let Playing { run } = playing;
    let closed = run.close(ticket);
    let (steps, fault) = ended?;
    Ok(Ran {
        steps,
        stop: stop_if(&reader, fault),
        closed,
    })
}
