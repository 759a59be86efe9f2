// From the bytes of a text to the bytes of its report.
ghost use Rattle.std.specs.Prelude.{IfOk, string_bytes};
ghost use Rattle.report.specs.Reports.{Reported};

use crate::text::report;
use session::play;
use std::alloc::{AllocError, Global};

/// The report of a text. Only want of memory keeps it from being made.
pub fn report_text(heap: Global, text: &[u8]) -> Result<String, AllocError>
    ensures { IfOk result (λ shown. Reported text.now (string_bytes shown)) }
{
    let account = play(heap, text)?;
    report(heap, &account)
}
