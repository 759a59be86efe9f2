// The lines that wait in a write buffer: each keeps its place, the oldest leaves first, a new one comes last.
ghost use Rattle.std.specs.Prelude.{◌≡◌, ◌<◌, ◌≤◌, false, [], ◌∷◌, ◌++◌, length, get_or, set, MatchOption, slice_index_or, slice_set};
ghost use Rattle.memory.specs.Ages.{blank, Apart, full, holds, most_waiting, Newest, waits, with_words};
ghost use Rattle.memory.specs.Lines.{words_in_line};

use crate::interface::Line;
use arrayvec::ArrayVec;
use std::marker::Model;

/// How many lines may wait.
const PLACES: usize = 4;

/// A line that was written and has not gone down yet.
#[derive(Clone, Copy, Default)]
pub struct Waiting {
    pub line: usize,
    pub words: Line,
}

/// Up to four waiting lines, oldest first.
#[derive(Drop)]
pub struct Queue {
    lines: ArrayVec<Waiting, PLACES>,
}

// Clauses see the waiting lines.
impl Model for Queue {
    ghost use Rattle.std.specs.Prelude.{◌≤◌, List, length};
    ghost use Rattle.memory.specs.declared.queue.Waiting.{Waiting};
    ghost use Rattle.memory.specs.Ages.{Apart, most_waiting};

    ghost Value = { List Waiting };

    ghost view = { λ q. q.lines.items };

    ghost invariant = { λ q. (length q.lines.items ≤ most_waiting) × Apart q.lines.items };
}

impl Queue {
    /// No line waits.
    pub fn new() -> Queue
        ensures { result ≡ [] }
    {
        Queue {
            lines: ArrayVec::new(),
        }
    }

    /// The waiting lines, oldest first.
    pub fn waiting(&self) -> &[Waiting]
        ensures lines { result.now ≡ self.now }
        ensures apart { Apart result.now }
        ensures few { length result.now ≤ most_waiting }
    {
        self.lines.as_slice()
    }

    /// Whether the oldest has to leave before another can come.
    pub fn is_full(&self) -> bool
        ensures { result ≡ full self.now }
    {
        self.lines.is_full()
    }

    /// Where a line waits: the newest such place.
    pub fn find(&self, line: usize) -> Option<usize>
        ensures apart { Apart self.now }
        ensures place { MatchOption result (holds line self.now ≡ false) (λ i. Newest line self.now i) }
    {
        self.lines.iter().rposition(|waiting| waiting.line == line)
    }

    /// The words of the line at a place.
    pub fn words(&self, place: usize) -> Line
        requires { place < length self.now }
        ensures { result ≡ (get_or self.now place blank).words }
    {
        self.lines[place].words
    }

    /// Puts words into the line at a place.
    pub fn replace(&mut self, place: usize, words: Line)
        requires { place < length self.old }
        ensures { self.new ≡ slice_set self.old place (with_words (λ _. words) (slice_index_or self.old place blank)) }
    {
        self.lines[place].words = words;
    }

    /// Puts a value into one word of the line at a place.
    pub fn change(&mut self, place: usize, word: usize, value: u32)
        requires within { place < length self.old }
        requires short { word < words_in_line }
        ensures { self.new ≡ slice_set self.old place (with_words (λ words. set words word value) (slice_index_or self.old place blank)) }
    {
        self.lines[place].words[word] = value;
    }

    /// A line comes, as the youngest.
    pub fn push(&mut self, line: usize, words: Line)
        requires room { full self.old ≡ false }
        requires other { holds line self.old ≡ false }
        ensures { self.new ≡ self.old ++ waits line words ∷ [] }
    {
        self.lines.push(Waiting { line, words });
    }

    /// The oldest line leaves.
    // Not by `remove`, which moves lines by a call for any number of them; these few stand in a row where it is known how many wait.
    #[inline]
    pub fn pop(&mut self) -> Option<Waiting>
        ensures { MatchOption result ((self.old ≡ []) × (self.new ≡ self.old)) (λ w. self.old ≡ w ∷ self.new) }
    {
        let oldest = self.lines.as_slice().first().copied()?;
        self.lines.as_mut_slice().copy_within(1.., 0);
        self.lines.pop();
        Some(oldest)
    }
}
