// The checks of a bus line, in their order.
ghost use Rattle.std.specs.Prelude.{◌≡◌, ◌<◌, ◌≤◌};
ghost use Rattle.trace.specs.Choices.{Chosen};
ghost use Rattle.trace.specs.Setups.{Settled, sizes_stop, lines_stop, word_stop, second_stop, setup_stop, word_in, Inside, InsideSecond, Divided, Given};

use crate::bus_line::{BusLine, Numeral, Second};
use crate::choice::Choice;
use crate::fault::TraceFault;
use crate::setup::{Division, Setup};
use crate::word::Word;
use caches::Agreed;
use refusal::Refusal;

/// A bus line and the text that its words lie in.
#[derive(Clone, Copy)]
pub(crate) struct Checks<'a> {
    pub(crate) text: &'a [u8],
    pub(crate) line: BusLine,
    ghost first: { Inside text.now line.first },
    ghost second: { InsideSecond text.now line.second },
}

impl Checks<'_> {
    // The seats and sets of the bus line.
    fn sizes(&self) -> Result<Agreed, TraceFault>
        ensures { Settled (sizes_stop self.now.line) (λ a. (a.seats ≡ self.now.line.seats.value) × (a.sets ≡ self.now.line.sets.value)) result }
    {
        let BusLine { seats, sets, .. } = self.line;
        Agreed::agree(seats.value, sets.value).map_err(|refusal| TraceFault::Refused {
            byte: match refusal {
                Refusal::Seats => seats.byte,
                _ => sets.byte,
            },
            refusal,
        })
    }

    // The protocol that a word chooses.
    fn chosen(&self, word: Word) -> Result<Choice, TraceFault>
        requires { Inside self.now.text.now word }
        ensures { Settled (word_stop self.now.text.now word) (Chosen (word_in self.now.text.now word)) result }
    {
        let Word { start, end } = word;
        Choice::read(&self.text[start..end]).map_err(|refusal| TraceFault::Refused {
            byte: start,
            refusal,
        })
    }

    // B and the protocol of Q, where they are given.
    fn division(&self) -> Result<Option<Division>, TraceFault>
        ensures { Settled (second_stop self.now.text.now self.now.line.second) (Divided self.now.text.now self.now.line.second) result }
    {
        let Some(Second { below, word }) = self.line.second else {
            return Ok(None);
        };
        let second = self.chosen(word)?;
        Ok(Some(Division { below, second }))
    }

    /// The setup that the bus line gives.
    pub(crate) fn setup(&self) -> Result<Setup, TraceFault>
        ensures { Settled (setup_stop self.now.text.now self.now.line) (Given self.now.text.now self.now.line) result }
    {
        let agreed = self.sizes()?;
        let lines = memory_lines(self.line.lines)?;
        let first = self.chosen(self.line.first)?;
        let division = self.division()?;
        Ok(Setup {
            agreed,
            lines,
            first,
            division,
        })
    }
}

// The lines of memory.
fn memory_lines(lines: Numeral) -> Result<u32, TraceFault>
    ensures { Settled (lines_stop lines) (λ n. (n ≡ lines.value) × (0 < n) × (n ≤ 1024)) result }
{
    match lines.value {
        1..=1024 => Ok(lines.value),
        _ => Err(TraceFault::Refused {
            byte: lines.byte,
            refusal: Refusal::TextMemory,
        }),
    }
}
