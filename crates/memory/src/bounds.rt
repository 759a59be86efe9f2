// Which lines and words a memory of so many lines has.
ghost use Rattle.std.specs.Prelude.{◌&&◌, nat_lt};
ghost use Rattle.refusal.specs.Refusals.{Answers};
ghost use Rattle.memory.specs.Lines.{unless, words_in_line};

use crate::interface::WORDS_IN_LINE;
use refusal::Refusal;

/// Refuses a line that is not there.
pub(crate) fn check_line(count: usize, line: usize) -> Result<(), Refusal>
    ensures { Answers (unless (nat_lt line count)) tt result }
{
    if line < count {
        Ok(())
    } else {
        Err(Refusal::BeyondMemory)
    }
}

/// Refuses a word that is not there, or whose line is not.
// Not by `check_line`: both faults have one refusal, so that one test of both is no longer than two in turn.
pub(crate) fn check_word(count: usize, line: usize, word: usize) -> Result<(), Refusal>
    ensures { Answers (unless (nat_lt line count && nat_lt word words_in_line)) tt result }
{
    if line < count && word < WORDS_IN_LINE {
        Ok(())
    } else {
        Err(Refusal::BeyondMemory)
    }
}
