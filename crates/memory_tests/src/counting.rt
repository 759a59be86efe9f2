// A memory that counts the lines written to the one below, and remembers the last four of them.
ghost use Rattle.std.specs.Prelude.{◌≡◌};

use memory::{Line, Memory};
use refusal::Refusal;

#[derive(Drop)]
pub struct Counting<M> {
    below: M,
    written: u32,
    recent: [usize; 4],
}

impl<M: Memory> Counting<M> {
    pub fn new(below: M) -> Counting<M>
        ensures { result.below ≡ below }
    {
        Counting {
            below,
            written: 0,
            recent: [0; 4],
        }
    }

    /// How many lines were written.
    pub fn written(&self) -> u32
        ensures { result ≡ self.now.written }
    {
        self.written
    }

    /// The last four lines that were written, the latest last.
    pub fn recent(&self) -> [usize; 4]
        ensures { result ≡ self.now.recent }
    {
        self.recent
    }

    fn note(&mut self, line: usize)
        ensures { self.new.below ≡ self.old.below }
    {
        self.written = self.written.wrapping_add(1);
        self.recent.rotate_left(1);
        self.recent[3] = line;
    }
}

impl<M: Memory> Memory for Counting<M> {
    ghost lines = { λ m. M.Memory.lines m.below };

    ghost settled = { λ m. M.Memory.settled m.below };

    ghost Aside = { M.Memory.Aside };

    ghost aside = { λ m. M.Memory.aside m.below };

    ghost lawful = { λ m. M.Memory.lawful m.below };

    fn count(&self) -> usize {
        self.below.count()
    }

    fn read_line(&self, line: usize) -> Result<Line, Refusal> {
        self.below.read_line(line)
    }

    fn write_line(&mut self, line: usize, words: Line) -> Result<(), Refusal> {
        self.below.write_line(line, words)?;
        self.note(line);
        Ok(())
    }

    fn write_word(&mut self, line: usize, word: usize, value: u32) -> Result<(), Refusal> {
        self.below.write_word(line, word, value)
    }

    fn drain(&mut self) {
        self.below.drain()
    }
}
