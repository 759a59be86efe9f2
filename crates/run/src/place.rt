// Where a word address lies.
ghost use Rattle.std.specs.Prelude.{◌≡◌, ◌/◌, ◌%◌};

use memory::WORDS_IN_LINE;

/// A line, and a word of it.
#[derive(Clone, Copy)]
pub(crate) struct Place {
    pub line: usize,
    pub word: usize,
}

impl From<u32> for Place {
    ghost from_gives = { λ address place. place ≡ record { line = address / 4; word = address % 4 } };

    /// The place of a word address.
    fn from(address: u32) -> Place {
        Place {
            line: address as usize / WORDS_IN_LINE,
            word: address as usize % WORDS_IN_LINE,
        }
    }
}
