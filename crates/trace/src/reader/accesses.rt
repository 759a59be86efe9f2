// Access lines.
ghost use Rattle.std.specs.Prelude.{◌≡◌};
ghost use Rattle.trace.specs.Reading.{Reads, Comes};
ghost use Rattle.trace.specs.Lines.{target_at, target_line_at, write_line_at, settle_line_at, access_at};
ghost use Rattle.trace.specs.Written.{Faithful, written, Sound};

use crate::access::Access;
use crate::fault::LineFault;
use crate::reader::Reader;

impl Reader<'_> {
    // ` SEAT ADDR`: the seat and the address that an access is for.
    fn target(&mut self) -> Result<(u32, u32), LineFault>
        ensures { Comes target_at self.old result self.new }
    {
        self.byte(b' ')?;
        let seat = self.number()?;
        self.byte(b' ')?;
        let address = self.number()?;
        Ok((seat, address))
    }

    // `LETTER SEAT ADDR`: the target of a line that says no more.
    fn target_line(&mut self, letter: u8) -> Result<(u32, u32), LineFault>
        ensures { Comes (target_line_at letter) self.old result self.new }
    {
        self.byte(letter)?;
        let target = self.target()?;
        self.byte(b'\n')?;
        Ok(target)
    }

    // `w SEAT ADDR VALUE`
    fn write_line(&mut self) -> Result<Access, LineFault>
        ensures { Comes write_line_at self.old result self.new }
    {
        self.byte(b'w')?;
        let (seat, address) = self.target()?;
        self.byte(b' ')?;
        let value = self.number()?;
        self.byte(b'\n')?;
        Ok(Access::Write {
            seat,
            address,
            value,
        })
    }

    // `s`
    fn settle_line(&mut self) -> Result<Access, LineFault>
        ensures { Comes settle_line_at self.old result self.new }
    {
        self.byte(b's')?;
        self.byte(b'\n')?;
        Ok(Access::Settle)
    }

    // The first word decides the line.
    fn access_line(&mut self) -> Result<Access, LineFault>
        ensures { Comes access_at self.old result self.new }
    {
        match self.peek() {
            Some(b'r') => self
                .target_line(b'r')
                .map(|(seat, address)| Access::Read { seat, address }),
            Some(b'w') => self.write_line(),
            Some(b'f') => self
                .target_line(b'f')
                .map(|(seat, address)| Access::Flush { seat, address }),
            Some(b's') => self.settle_line(),
            _ => Err(LineFault::Form { byte: self.at }),
        }
    }

    /// Reads an access line.
    pub fn access(&mut self) -> Result<Access, LineFault>
        ensures reads { Reads access_at self.old result self.new }
        ensures faithful { Faithful written Sound (λ x _. x) self.old.text.now self.old.at result self.new.at }
    {
        // A fault leaves the reader where it stood. `bus_line` has these lines too: over what is read, they would need what it leaves.
        let mut ahead = *self;
        let access = ahead.access_line()?;
        *self = ahead;
        Ok(access)
    }
}
