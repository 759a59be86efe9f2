// Plain memory: lines over words that are handed in and given back.
ghost use Rattle.std.specs.Prelude.{◌≡◌, ℕ, ◌<◌, List, [], ◌++◌, length, slice_index_or, slice_set};
ghost use Rattle.memory.specs.Lines.{words_in_line, word_written};
ghost use Rattle.memory.specs.Words.{lines_of, spare_of, whole, flat, plain_lines, plain_spare};
ghost use Rattle.memory.specs.Cuts.{lawful-lines};

use crate::bounds::{check_line, check_word};
use crate::interface::{Line, Memory, WORDS_IN_LINE};
use refusal::Refusal;

/// How many lines there are at most.
const MOST_LINES: usize = 16384;

/// A memory over words of its own.
#[derive(Drop)]
pub struct Plain {
    words: Vec<u32>,
}

impl Plain {
    /// A memory over these words: as many whole lines as they make, and at most 16,384.
    pub fn new(words: Vec<u32>) -> Plain
        ensures lines { plain_lines result ≡ lines_of words.items }
        ensures spare { plain_spare result ≡ spare_of words.items }
        ensures words { result.words ≡ words }
    {
        Plain { words }
    }

    /// The words, those of the lines first and then the spare ones.
    pub fn into_words(self) -> Vec<u32>
        ensures items { result.items ≡ flat (plain_lines self) ++ plain_spare self }
        ensures words { result ≡ self.words }
    {
        self.words
    }

    /// The lines, each with its words.
    pub fn lines(&self) -> &[Line]
        ensures { result.now ≡ plain_lines self.now }
    {
        let (lines, _) = self.words.as_chunks::<WORDS_IN_LINE>();
        &lines[..lines.len().min(MOST_LINES)]
    }

    /// Puts a value into a word that is there.
    // At its place among all words: a line lent for change by `as_chunks_mut` comes with no promise of the words after it.
    fn put(&mut self, line: usize, word: usize, value: u32)
        requires within { line < whole (length self.old.words.items) }
        requires short { word < words_in_line }
        ensures lines { plain_lines self.new ≡ word_written (plain_lines self.old) line word value }
        ensures spare { plain_spare self.new ≡ plain_spare self.old }
    {
        self.words[WORDS_IN_LINE * line + word] = value;
    }

    /// Puts words into a line that is there.
    fn put_line(&mut self, line: usize, words: Line)
        requires { line < whole (length self.old.words.items) }
        ensures lines { plain_lines self.new ≡ slice_set (plain_lines self.old) line words }
        ensures spare { plain_spare self.new ≡ plain_spare self.old }
    {
        let start = WORDS_IN_LINE * line;
        put_words(&mut self.words[start..start + WORDS_IN_LINE], words);
    }
}

/// Puts words over as many others.
// As one array: to copy so many as come is a call.
fn put_words(place: &mut [u32], words: Line)
    requires { length place.old ≡ words_in_line }
    ensures { place.new ≡ words }
{
    if let Some(place) = place.as_mut_array() {
        *place = words;
    }
}

impl Memory for Plain {
    ghost lines = { plain_lines };

    ghost settled = { plain_lines };

    ghost Aside = { List ℕ };

    ghost aside = { plain_spare };

    ghost lawful = { λ m. lawful-lines m.words.items };

    fn count(&self) -> usize {
        self.lines().len()
    }

    fn read_line(&self, line: usize) -> Result<Line, Refusal> {
        self.lines().get(line).copied().ok_or(Refusal::BeyondMemory)
    }

    fn write_line(&mut self, line: usize, words: Line) -> Result<(), Refusal> {
        check_line(self.count(), line)?;
        self.put_line(line, words);
        Ok(())
    }

    fn write_word(&mut self, line: usize, word: usize, value: u32) -> Result<(), Refusal> {
        check_word(self.count(), line, word)?;
        self.put(line, word, value);
        Ok(())
    }

    fn drain(&mut self) {}
}
