// A written word on its way to a copy.
ghost use Rattle.std.specs.Prelude.{◌<◌};

/// A word of a line, and the value that is written there.
#[derive(Clone, Copy)]
pub struct Store {
    pub word: usize,
    pub value: u32,
    ghost within: { word < 4 },
}
