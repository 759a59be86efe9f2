// The memory of a text.
ghost use Rattle.std.specs.Prelude.{◌≡◌, ◌≤◌, IfOk};
ghost use Rattle.memory.specs.Words.{plain_lines};
ghost use Rattle.session.specs.Texts.{zeros};

use memory::{Plain, WORDS_IN_LINE};
use std::alloc::{AllocError, Global};

/// A memory of so many lines, all zero.
pub(crate) fn zero_memory(heap: Global, lines: u32) -> Result<Plain, AllocError>
    requires { lines ≤ 1024 }
    ensures { IfOk result (λ m. plain_lines m ≡ zeros lines) }
{
    let words = vec![in heap; 0u32; lines as usize * WORDS_IN_LINE]?;
    Ok(Plain::new(words))
}
