// A protocol as a text chooses it: by a published name, or by a table.
ghost use Rattle.std.specs.Prelude.{◌≡◌, false, slice_index};
ghost use Rattle.refusal.specs.Refusals.{Answered};
ghost use Rattle.trace.specs.Choices.{choice_cells, Chosen, word_refusal, is_table};
ghost use Rattle.std.proofs.Common.{rules};
ghost use Rattle.trace.specs.declared.choice.Choice.TheVariants.{Named, Loaded};

use protocol::{Protocol, Published, Table};
use refusal::Refusal;
use std::str;

/// A protocol that every seat follows, and how the text gave it.
#[derive(Clone, Copy)]
pub enum Choice {
    /// By the name of a published protocol.
    Named(Published),
    /// By a table of its cells.
    Loaded(Table),
}

impl Choice {
    /// Reads a word: one that begins with a digit is a table, any other a name.
    pub fn read(word: &[u8]) -> Result<Choice, Refusal>
        ensures { Answered (word_refusal word.now) (Chosen word.now) result }
    {
        if is_table(word) {
            Table::load(word).map(Choice::Loaded)
        } else {
            by_name(word)
        }
    }

    /// The protocol's cells.
    pub fn cells(&self) -> [u8; 16]
        ensures { result ≡ choice_cells self.now }
    {
        match self {
            Choice::Named(published) => *published.cells(),
            Choice::Loaded(table) => table.cells(),
        }
    }
}

/// Whether a word is a table: it begins with a digit.
pub fn is_table(word: &[u8]) -> bool
    ensures { result ≡ is_table word.now }
{
    matches!(word, [b'0'..=b'9', ..])
}

// The published protocol of a name; bytes that are no text are no name.
fn by_name(word: &[u8]) -> Result<Choice, Refusal>
    requires { is_table word.now ≡ false }
    ensures { Answered (word_refusal word.now) (Chosen word.now) result }
{
    let name = str::from_utf8(word).map_err(|_| Refusal::ProtocolName)?;
    name.parse::<Published>().map(Choice::Named)
}

impl Protocol for Choice {
    ghost cells = { λ c seat k. slice_index (choice_cells c) k };

    ghost lawful = { elim [ Named p ↦ λ seat k. Prim.search rules | Loaded t ↦ λ seat k. t.lawful k ] };

    fn cell(&self, seat: usize, cell: u8) -> u8 {
        match self {
            Choice::Named(published) => published.cell(seat, cell),
            Choice::Loaded(table) => table.cell(seat, cell),
        }
    }
}
