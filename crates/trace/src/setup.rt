// What an accepted bus line gives.
ghost use Rattle.std.specs.Prelude.{◌<◌, ◌≤◌};

use crate::choice::Choice;
use caches::Agreed;

/// The seats from `below` on follow a second protocol.
#[derive(Clone, Copy)]
pub struct Division {
    pub below: u32,
    pub second: Choice,
}

/// The sizes of a bus, the lines of its memory, and the protocol of each seat.
#[derive(Clone, Copy)]
pub struct Setup {
    pub agreed: Agreed,
    pub lines: u32,
    pub first: Choice,
    pub division: Option<Division>,
    ghost some: { 0 < lines },
    ghost few: { lines ≤ 1024 },
}

pub(crate) mod checks;
