// The bus line.
ghost use Rattle.std.specs.Prelude.{◌≡◌};
ghost use Rattle.trace.specs.Reading.{Reads, Comes};
ghost use Rattle.trace.specs.Lines.{bus_word_at, numeral_at, spaced_word_at, last_at, second_at, tail_at, bus_at};
ghost use Rattle.trace.specs.Written.{Faithful, written_bus, SoundBus, bus_line_of};

use crate::bus_line::{BusLine, Numeral, Second};
use crate::fault::LineFault;
use crate::reader::Reader;
use crate::word::Word;

impl Reader<'_> {
    // `bus`
    fn bus_word(&mut self) -> Result<(), LineFault>
        ensures { Comes bus_word_at self.old result self.new }
    {
        for letter in b"bus" {
            self.byte(*letter)?;
        }
        Ok(())
    }

    // ` NUMBER`
    fn numeral(&mut self) -> Result<Numeral, LineFault>
        ensures { Comes numeral_at self.old result self.new }
    {
        self.byte(b' ')?;
        let byte = self.at;
        let value = self.number()?;
        Ok(Numeral { value, byte })
    }

    // ` WORD`
    fn spaced_word(&mut self) -> Result<Word, LineFault>
        ensures { Comes spaced_word_at self.old result self.new }
    {
        self.byte(b' ')?;
        self.word()
    }

    // The end of the line, where nothing follows P.
    fn line_end(&mut self) -> Result<Option<Second>, LineFault>
        ensures { Comes last_at self.old result self.new }
    {
        self.byte(b'\n')?;
        Ok(None)
    }

    // ` B Q` and the end of the line.
    fn second(&mut self) -> Result<Option<Second>, LineFault>
        ensures { Comes second_at self.old result self.new }
    {
        self.byte(b' ')?;
        let below = self.number()?;
        let word = self.spaced_word()?;
        self.byte(b'\n')?;
        Ok(Some(Second { below, word }))
    }

    // What follows P.
    fn tail(&mut self) -> Result<Option<Second>, LineFault>
        ensures { Comes tail_at self.old result self.new }
    {
        match self.peek() {
            Some(b' ') => self.second(),
            _ => self.line_end(),
        }
    }

    // The line, part by part.
    fn bus_parts(&mut self) -> Result<BusLine, LineFault>
        ensures { Comes bus_at self.old result self.new }
    {
        self.bus_word()?;
        // Three numbers, each with a name of its own.
        let seats = self.numeral()?;
        let sets = self.numeral()?;
        let lines = self.numeral()?;
        let first = self.spaced_word()?;
        let second = self.tail()?;
        Ok(BusLine {
            seats,
            sets,
            lines,
            first,
            second,
        })
    }

    /// Reads a bus line.
    pub fn bus_line(&mut self) -> Result<BusLine, LineFault>
        ensures reads { Reads bus_at self.old result self.new }
        ensures faithful { Faithful written_bus SoundBus bus_line_of self.old.text.now self.old.at result self.new.at }
    {
        // As in access: a fault leaves the reader where it stood.
        let mut ahead = *self;
        let line = ahead.bus_parts()?;
        *self = ahead;
        Ok(line)
    }
}
