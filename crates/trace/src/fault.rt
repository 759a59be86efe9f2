// The faults of a text: a number's, a line's that keeps it, and the run's that keeps the line's.
ghost use Rattle.std.specs.Prelude.{◌≡◌, Some};
ghost use Rattle.refusal.specs.Refusals.{told};
ghost use Rattle.trace.specs.declared.fault.LineFault.TheVariants.{Number as kept_number};
ghost use Rattle.trace.specs.declared.fault.TraceFault.TheVariants.{Line as kept_line};
ghost use Rattle.trace.specs.Faults.{line_stop, trace_stop, number_text, line_text, trace_text};

use refusal::Refusal;
use std::error::Error;
use std::fmt;

/// A number of the text that does not fit 32 bits.
#[derive(Clone, Copy, PartialEq, Eq, Debug)]
pub struct NumberFault {
    /// The number's first byte.
    pub byte: usize,
}

/// What is wrong in a line of the text.
#[derive(Clone, Copy, PartialEq, Eq, Debug)]
pub enum LineFault {
    /// The first byte that cannot stand in a sound line, or the text's length where it ends too early.
    Form { byte: usize },
    /// A number of the line.
    Number(NumberFault),
}

/// What stops the run of a text.
#[derive(Clone, Copy, PartialEq, Eq, Debug)]
pub enum TraceFault {
    /// A line that is not sound.
    Line(LineFault),
    /// A refusal of the text, of its setup or of an access, at a byte of the text.
    Refused { byte: usize, refusal: Refusal },
}

impl From<NumberFault> for LineFault {
    ghost from_gives = { λ f r. r ≡ kept_number f };

    fn from(fault: NumberFault) -> LineFault {
        LineFault::Number(fault)
    }
}

impl From<LineFault> for TraceFault {
    ghost from_gives = { λ f r. r ≡ kept_line f };

    fn from(fault: LineFault) -> TraceFault {
        TraceFault::Line(fault)
    }
}

impl LineFault {
    /// The byte of the text.
    pub fn byte(&self) -> usize
        ensures { result ≡ (line_stop self.now).byte }
    {
        match self {
            LineFault::Form { byte } => *byte,
            LineFault::Number(fault) => fault.byte,
        }
    }

    /// The refusal: of the line's form, or of its number.
    pub fn refusal(&self) -> Refusal
        ensures { told result ≡ (line_stop self.now).told }
    {
        match self {
            LineFault::Form { .. } => Refusal::LineForm,
            LineFault::Number(_) => Refusal::NumberTooLarge,
        }
    }
}

impl TraceFault {
    /// The byte of the text.
    pub fn byte(&self) -> usize
        ensures { result ≡ (trace_stop self.now).byte }
    {
        match self {
            TraceFault::Line(fault) => fault.byte(),
            TraceFault::Refused { byte, .. } => *byte,
        }
    }

    /// The refusal.
    pub fn refusal(&self) -> Refusal
        ensures { told result ≡ (trace_stop self.now).told }
    {
        match self {
            TraceFault::Line(fault) => fault.refusal(),
            TraceFault::Refused { refusal, .. } => *refusal,
        }
    }
}

impl fmt::Display for NumberFault {
    ghost output = { λ fault. Some (number_text fault) };

    fn fmt<W: fmt::Write>(&self, f: &mut fmt::Formatter<W>) -> fmt::Result {
        let byte = self.byte;
        write!(f, "the number at byte {byte} does not fit 32 bits")
    }
}

impl fmt::Display for LineFault {
    ghost output = { λ fault. Some (line_text fault) };

    fn fmt<W: fmt::Write>(&self, f: &mut fmt::Formatter<W>) -> fmt::Result {
        match self {
            LineFault::Form { byte } => write!(f, "the line is not sound at byte {byte}"),
            LineFault::Number(fault) => write!(f, "{fault}"),
        }
    }
}

impl fmt::Display for TraceFault {
    ghost output = { λ fault. Some (trace_text fault) };

    fn fmt<W: fmt::Write>(&self, f: &mut fmt::Formatter<W>) -> fmt::Result {
        match self {
            TraceFault::Line(fault) => write!(f, "{fault}"),
            TraceFault::Refused { byte, refusal } => {
                let number = refusal.number();
                write!(f, "refusal {number} at byte {byte}")
            }
        }
    }
}

impl Error for NumberFault {}

impl Error for LineFault {}

impl Error for TraceFault {}
