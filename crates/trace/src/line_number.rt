// The lines of a text by their numbers.
ghost use Rattle.std.specs.Prelude.{◌≡◌};
ghost use Rattle.trace.specs.Faults.{line_of};

/// The number of the line that a byte lies in, counted from 1.
pub fn line_of(text: &[u8], byte: usize) -> usize
    ensures { result ≡ line_of text.now byte }
{
    let front = &text[..byte.min(text.len())];
    1 + front
        .iter()
        .map(|&next| usize::from(next == b'\n'))
        .sum::<usize>()
}
