// The whole report.
ghost use Rattle.std.specs.Prelude.{◌≡◌, IfOk, Ok, string_bytes};
ghost use Rattle.account.specs.Accounts.{outcome_of};
ghost use Rattle.report.specs.Printed.{printed};

use crate::shown::{Shown, show_all};
use account::{Account, Ran};
use std::alloc::{AllocError, Global};

/// The report of an account. Only want of memory keeps it from being made.
pub fn report(heap: Global, account: &Account) -> Result<String, AllocError>
    ensures { IfOk result (λ text. string_bytes text ≡ printed (outcome_of account.now)) }
{
    let mut out = String::new(heap);
    account.show(&mut out)?;
    Ok(out)
}

// The accesses, the stop if there is one, and the closing.
impl Shown for Ran {
    ghost text = { λ ran. printed (outcome_of (Ok ran)) };

    fn show(&self, out: &mut String) -> Result<(), AllocError> {
        show_all(out, self.steps.as_slice())?;
        self.stop.show(out)?;
        self.closed.show(out)
    }
}
