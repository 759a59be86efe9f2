// Code over any memory: it knows no more than a memory's meaning.
ghost use Rattle.std.specs.Prelude.{◌≡◌, ◌*◌, [], ◌++◌, length, slice_index_or, slice_set};
ghost use Rattle.refusal.specs.Refusals.{Answers};
ghost use Rattle.memory.specs.Words.{flat, lines_of, spare_of};
ghost use Rattle.memory.specs.Lines.{line_due, word_written, words_in_line};

use memory::{Line, Memory, Plain, WORDS_IN_LINE, WriteBuffer};
use refusal::Refusal;

/// Writes a line, then one word of it, settles both, and reads the line back.
pub fn write_through<M: Memory>(
    memory: &mut M,
    line: usize,
    words: Line,
    word: usize,
    value: u32,
) -> Result<Line, Refusal>
    ensures answers { Answers (line_due (M.Memory.lines memory.old) line) (slice_index_or (word_written (slice_set (M.Memory.lines memory.old) line words) line word value) line []) result }
    ensures lines { M.Memory.lines memory.new ≡ word_written (slice_set (M.Memory.lines memory.old) line words) line word value }
    ensures settled { M.Memory.settled memory.new ≡ M.Memory.lines memory.new }
    ensures aside { M.Memory.aside memory.new ≡ M.Memory.aside memory.old }
{
    let _ = memory.write_line(line, words);
    let _ = memory.write_word(line, word, value);
    memory.drain();
    memory.read_line(line)
}

/// How many words the lines have. A memory's law keeps the product in range.
pub fn words_in<M: Memory>(memory: &M) -> usize
    ensures { result ≡ words_in_line * length (M.Memory.lines memory.now) }
{
    WORDS_IN_LINE * memory.count()
}

/// Words with one line and then one word of it written through a buffer: every word that comes back is known.
pub fn through_a_buffer(
    words: Vec<u32>,
    line: usize,
    new: Line,
    word: usize,
    value: u32,
) -> Vec<u32>
    ensures { result.items ≡ flat (word_written (slice_set (lines_of words.items) line new) line word value) ++ spare_of words.items }
{
    let mut memory = WriteBuffer::new(Plain::new(words));
    let _ = write_through(&mut memory, line, new, word, value);
    memory.into_below().into_words()
}
