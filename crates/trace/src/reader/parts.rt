// The parts of a line: a byte, a number, a word.
ghost use Rattle.std.specs.Prelude.{◌≡◌, ◌+◌, ◌<◌, ◌≤◌, length, drop, MatchOption};
ghost use Rattle.trace.specs.Choices.{is_digit};
ghost use Rattle.trace.specs.Reading.{Reads, next_at, byte_at, number_at, word_at};
ghost use Rattle.trace.specs.Runs.{in_word, run_at};

use crate::fault::LineFault;
use crate::reader::Reader;
use crate::value::number;
use crate::word::Word;

impl<'a> Reader<'a> {
    /// The beginning of a text.
    pub fn over(text: &'a [u8]) -> Reader<'a>
        ensures { (result.text.now ≡ text.now) × (result.at ≡ 0) }
    {
        Reader { text, at: 0 }
    }

    // What is left of the text.
    fn rest(&self) -> &'a [u8]
        ensures { result.now ≡ drop self.now.at self.now.text.now }
    {
        &self.text[self.at..]
    }

    // Where the digits from here on end. It shares with `word_end` the chain alone: over a test as a parameter, each would say what its test computes.
    fn number_end(&self) -> usize
        ensures value { result ≡ self.now.at + length (run_at is_digit self.now.text.now self.now.at) }
        ensures within { result ≤ length self.now.text.now }
    {
        let digits = self.rest().iter().take_while(|byte| byte.is_ascii_digit());
        self.at + digits.count()
    }

    // Where the bytes of a word from here on end: any bytes but a space and byte 10.
    fn word_end(&self) -> usize
        ensures value { result ≡ self.now.at + length (run_at in_word self.now.text.now self.now.at) }
        ensures within { result ≤ length self.now.text.now }
    {
        let word = self
            .rest()
            .iter()
            .take_while(|&&byte| byte != b' ' && byte != b'\n');
        self.at + word.count()
    }

    /// The next byte, if the text does not end here.
    #[tactic(auto, unfolding(crate::specs::Reading::next_at))]
    pub fn peek(&self) -> Option<u8>
        ensures value { result ≡ next_at self.now.text.now self.now.at }
        ensures within { MatchOption result (self.now.at ≡ length self.now.text.now) (λ _. self.now.at < length self.now.text.now) }
    {
        self.rest().first().copied()
    }

    /// Reads this byte.
    #[tactic(auto, unfolding(crate::specs::Reading::byte_at))]
    pub fn byte(&mut self, byte: u8) -> Result<(), LineFault>
        ensures { Reads (byte_at byte) self.old result self.new }
    {
        if self.peek() != Some(byte) {
            return Err(LineFault::Form { byte: self.at });
        }
        self.at += 1;
        Ok(())
    }

    /// Reads a number.
    #[tactic(auto, unfolding(crate::specs::Reading::number_at))]
    pub fn number(&mut self) -> Result<u32, LineFault>
        ensures { Reads number_at self.old result self.new }
    {
        let end = self.number_end();
        let number = number(&self.text[self.at..end], self.at)?;
        self.at = end;
        Ok(number)
    }

    /// Reads a word.
    #[tactic(auto, unfolding(crate::specs::Reading::word_at))]
    pub fn word(&mut self) -> Result<Word, LineFault>
        ensures { Reads word_at self.old result self.new }
    {
        let start = self.at;
        let end = self.word_end();
        if end == start {
            return Err(LineFault::Form { byte: start });
        }
        self.at = end;
        Ok(Word { start, end })
    }
}
