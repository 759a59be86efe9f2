// What a memory is: the lines that reads answer, and the lines that stand at the bottom.
ghost use Rattle.std.specs.Prelude.{◌≡◌, ℕ, List, [], length, slice_index_or, slice_set};
ghost use Rattle.refusal.specs.Refusals.{Answers, Kept};
ghost use Rattle.memory.specs.Lines.{Lawful, line_due, word_due, word_written};

use refusal::Refusal;

/// How many words a line has.
pub const WORDS_IN_LINE: usize = 4;

/// The words of a line.
pub type Line = [u32; WORDS_IN_LINE];

/// A memory of lines.
pub trait Memory {
    /// What reads answer, line by line.
    ghost lines: { Self → List (List ℕ) };

    /// What stands at the bottom, line by line.
    ghost settled: { Self → List (List ℕ) };

    /// What no call changes.
    ghost Aside: { Type 0 };

    ghost aside: { Self → Aside };

    /// How many lines there are.
    fn count(&self) -> usize
        ensures { result ≡ length (lines self.now) };

    /// The words of a line.
    fn read_line(&self, line: usize) -> Result<Line, Refusal>
        ensures { Answers (line_due (lines self.now) line) (slice_index_or (lines self.now) line []) result };

    /// Puts words into a line.
    fn write_line(&mut self, line: usize, words: Line) -> Result<(), Refusal>
        ensures answers { Answers (line_due (lines self.old) line) tt result }
        ensures refused { Kept result (self.new ≡ self.old) }
        ensures lines { lines self.new ≡ slice_set (lines self.old) line words }
        ensures aside { aside self.new ≡ aside self.old };

    /// Puts a value into one word of a line.
    fn write_word(&mut self, line: usize, word: usize, value: u32) -> Result<(), Refusal>
        ensures answers { Answers (word_due (lines self.old) line word) tt result }
        ensures refused { Kept result (self.new ≡ self.old) }
        ensures lines { lines self.new ≡ word_written (lines self.old) line word value }
        ensures aside { aside self.new ≡ aside self.old };

    /// Settles every line.
    fn drain(&mut self)
        ensures lines { lines self.new ≡ lines self.old }
        ensures settled { settled self.new ≡ lines self.old }
        ensures aside { aside self.new ≡ aside self.old };

    ghost lawful: { (m : Self) → Lawful (lines m) (settled m) };
}
