// A whole text: its bus line, then its access lines.
ghost use Rattle.std.specs.Prelude.{◌≡◌};
ghost use Rattle.trace.specs.Faults.{line_of};
ghost use Rattle.trace.specs.Texts.{Opens, ReadsNext, Counted, AccessLaws};

use crate::access::Access;
use crate::fault::TraceFault;
use crate::line_number::line_of;
use crate::reader::Reader;
use crate::setup::Setup;
use crate::setup::checks::Checks;
use refusal::Refusal;

/// The most bytes that a text may have.
pub const LONGEST: usize = 65_536;

impl Reader<'_> {
    /// The byte of the text that comes next.
    pub fn at(&self) -> usize
        ensures { result ≡ self.now.at }
    {
        self.at
    }

    /// The line that the next byte lies in, counted from 1.
    pub fn line(&self) -> usize
        ensures { result ≡ line_of self.now.text.now self.now.at }
    {
        self.line_of(self.at)
    }

    /// The line that a byte of the text lies in, counted from 1.
    pub fn line_of(&self, byte: usize) -> usize
        ensures { result ≡ line_of self.now.text.now byte }
    {
        line_of(self.text, byte)
    }

    /// Reads and checks the bus line of a text.
    pub fn setup(&mut self) -> Result<Setup, TraceFault>
        ensures { Opens self.old result self.new }
    {
        if self.text.len() > LONGEST {
            return Err(TraceFault::Refused {
                byte: 0,
                refusal: Refusal::TextLength,
            });
        }
        // As in access: a fault leaves the reader where it stood.
        let mut ahead = *self;
        let line = ahead.bus_line()?;
        let checks = Checks {
            text: self.text,
            line,
        };
        let setup = checks.setup()?;
        *self = ahead;
        Ok(setup)
    }

    /// Reads the next access line, if the text does not end here.
    pub fn next_access(&mut self) -> Result<Option<Access>, TraceFault>
        ensures { ReadsNext self.old result self.new }
    {
        if self.at == self.text.len() {
            return Ok(None);
        }
        Ok(Some(self.access()?))
    }

    /// How many access lines follow, if all of them are sound.
    pub fn count_accesses(&self) -> Result<usize, TraceFault>
        ensures counted { Counted self.now.text.now self.now.at result }
        ensures laws { AccessLaws self.now.text.now self.now.at }
    {
        let mut ahead = *self;
        // The reader is no iterator: a fault leaves it where it stood, so that it would give that fault for ever.
        let mut count = 0;
        while let Some(_) = ahead.next_access()? {
            count += 1;
        }
        Ok(count)
    }
}
