// A place in a text.
ghost use Rattle.std.specs.Prelude.{◌≤◌, length};

/// A text and how far it has been read.
#[derive(Clone, Copy)]
pub struct Reader<'a> {
    text: &'a [u8],
    at: usize,
    ghost within: { at ≤ length text.now },
}

mod accesses;
mod buses;
mod parts;
mod texts;

pub use texts::LONGEST;
