// The lines of memory that are not all zero.
ghost use Rattle.std.specs.Prelude.{◌≡◌, ℕ, ◌++◌, string_bytes, codes, decimal, OnOk};
ghost use Rattle.memory.specs.Words.{plain_lines};
ghost use Rattle.report.specs.Printed.{all_zero, memory_line, memory_line_if, memory_lines};

use crate::shown::{Shown, show_all};
use memory::Plain;
use std::alloc::AllocError;

// `m LINE WORDS` for each line that is not all zero, upward.
impl Shown for Plain {
    ghost text = { λ memory. memory_lines 0 (plain_lines memory) };

    fn show(&self, out: &mut String) -> Result<(), AllocError> {
        for (line, words) in self.lines().iter().enumerate() {
            show_line_if(out, line, words)?;
        }
        Ok(())
    }
}

// A line of memory, unless it is all zero.
fn show_line_if(out: &mut String, line: usize, words: &[u32]) -> Result<(), AllocError>
    ensures { OnOk result (string_bytes out.new ≡ string_bytes out.old ++ memory_line_if line words.now) }
{
    if all_zero(words) {
        return Ok(());
    }
    show_line(out, line, words)
}

// Whether every word is 0.
fn all_zero(words: &[u32]) -> bool
    ensures { result ≡ all_zero words.now }
{
    words.iter().all(|word| *word == 0)
}

// A line of memory and its words.
fn show_line(out: &mut String, line: usize, words: &[u32]) -> Result<(), AllocError>
    ensures { OnOk result (string_bytes out.new ≡ string_bytes out.old ++ memory_line line words.now) }
{
    write!(out, "m {line}")?;
    show_all(out, words)?;
    write!(out, "\n")
}

// A word of memory stands behind a space.
impl Shown for u32 {
    ghost text = { λ word. codes " " ++ decimal word };

    fn show(&self, out: &mut String) -> Result<(), AllocError> {
        let word = *self;
        write!(out, " {word}")
    }
}
