// The lines of the input.
ghost use Rattle.std.specs.Prelude.{◌≡◌, ℕ, ◌<◌, ◌≤◌, length, ◌≢◌, slice_index};
ghost use Rattle.std.specs.Iterator.{at_most};
ghost use Rattle.std.specs.Option.{option_map};
ghost use Rattle.tablecheck.specs.Lines.{NextLine};

/// The place of the first byte 10 at or after `from`, or the end of the text.
pub fn line_end(text: &[u8], from: usize) -> usize
    requires { from ≤ length text.now }
    ensures within { (from ≤ result) × (result ≤ length text.now) }
    ensures before { (k : ℕ) → from ≤ k → k < result → slice_index text.now k ≢ 10 }
    ensures ends { result < length text.now → slice_index text.now result ≡ 10 }
{
    let rest = &text[from..];
    rest.iter()
        .position(|byte| *byte == b'\n')
        .map_or(text.len(), |count| from + count)
}

/// The lines of a text in turn, each without its end; the last one may lack it.
#[derive(Drop)]
pub struct Lines<'a> {
    pub text: &'a [u8],
}

impl<'a> Iterator for Lines<'a> {
    type Item = &'a [u8];

    ghost next_gives = { λ old line new. NextLine old.text.now (option_map (λ l. l.now) line) new.text.now };

    ghost remaining = { λ s. at_most (length s.text.now) };

    fn next(&mut self) -> Option<&'a [u8]> {
        if self.text.is_empty() {
            return None;
        }
        let (line, rest) = self.text.split_at(line_end(self.text, 0));
        self.text = &rest[rest.len().min(1)..];
        Some(line)
    }
}
