// The lines of the closing.
ghost use Rattle.account.specs.Accounts.{closing_of};
ghost use Rattle.report.specs.Printed.{closing_lines, tally_line};

use crate::shown::Shown;
use memory::Plain;
use rules::Tally;
use run::Closed;
use std::alloc::AllocError;

// The lines written, the tally, and the memory.
impl Shown for Closed<Plain> {
    ghost text = { λ closed. closing_lines (closing_of closed) };

    fn show(&self, out: &mut String) -> Result<(), AllocError> {
        let lines = self.written;
        write!(out, "close = {lines}\n")?;
        self.tally.show(out)?;
        self.memory.show(out)
    }
}

// Each number of the tally behind its name: the accesses, the transactions, and what became of lines and copies.
impl Shown for Tally {
    ghost text = { tally_line };

    fn show(&self, out: &mut String) -> Result<(), AllocError> {
        let Tally {
            reads,
            writes,
            hits,
            rs,
            rx,
            inv,
            up,
            tu,
            ti,
            wb,
            reflected,
            fills,
            displaced,
            flushed,
            invalidated,
        } = *self;
        write!(out, "tally reads {reads} writes {writes} hits {hits}")?;
        write!(out, " rs {rs} rx {rx} in {inv} up {up}")?;
        write!(out, " tu {tu} ti {ti} wb {wb}")?;
        write!(
            out,
            " reflected {reflected} fills {fills} displaced {displaced} flushed {flushed} invalidated {invalidated}\n"
        )
    }
}
