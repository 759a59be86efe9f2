// The line of an access.
ghost use Rattle.std.specs.Prelude.{◌≡◌, [], ◌∷◌, ◌++◌, string_bytes, codes, OnOk};
ghost use Rattle.account.specs.Accounts.{performed};
ghost use Rattle.protocol.specs.States.{letter};
ghost use Rattle.report.specs.Printed.{record_text, detail_text, step_line};

use crate::shown::{Shown, show_all};
use account::Step;
use protocol::State;
use rules::Record;
use std::alloc::AllocError;
use trace::Access;

// The access, its answer, the states of its line, and the transactions that it made.
impl Shown for Step {
    ghost text = { λ step. step_line (performed step) };

    fn show(&self, out: &mut String) -> Result<(), AllocError> {
        let access = self.access;
        let answer = self.answer;
        write!(out, "{access} = {answer}")?;
        show_detail(out, self)?;
        write!(out, "\n")
    }
}

// What follows the answer of a read, a write or a flush: the states, then the transactions.
fn show_detail(out: &mut String, step: &Step) -> Result<(), AllocError>
    ensures { OnOk result (string_bytes out.new ≡ string_bytes out.old ++ detail_text step.now.access (performed step.now).states (performed step.now).records) }
{
    match step.access {
        Access::Settle => Ok(()),
        Access::Read { .. } | Access::Write { .. } | Access::Flush { .. } => {
            write!(out, " ")?;
            show_all(out, step.states())?;
            show_all(out, step.records())
        }
    }
}

// The letter of a state.
impl Shown for State {
    ghost text = { λ state. letter state ∷ [] };

    fn show(&self, out: &mut String) -> Result<(), AllocError> {
        let letter = char::from(self.letter());
        write!(out, "{letter}")
    }
}

// A transaction with its seat.
impl Shown for Record {
    ghost text = { record_text };

    fn show(&self, out: &mut String) -> Result<(), AllocError> {
        let mnemonic = self.transaction.mnemonic();
        let seat = self.seat;
        write!(out, " {mnemonic}{seat}")
    }
}
