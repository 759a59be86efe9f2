// The line of a stop.
ghost use Rattle.account.specs.Accounts.{halted};
ghost use Rattle.report.specs.Printed.{stop_line};

use crate::shown::Shown;
use account::Stop;
use std::alloc::AllocError;
use trace::Layer;

// `stop N LAYER line L byte K`
impl Shown for Stop {
    ghost text = { λ stop. stop_line (halted stop) };

    fn show(&self, out: &mut String) -> Result<(), AllocError> {
        let refusal = self.fault.refusal();
        let number = refusal.number();
        let layer = Layer::from(refusal);
        let line = self.line;
        let byte = self.fault.byte();
        write!(out, "stop {number} {layer} line {line} byte {byte}\n")
    }
}
