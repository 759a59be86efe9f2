// The table of copies: a fixed place for each seat and set.
ghost use Rattle.std.specs.Prelude.{◌≡◌, length};
ghost use Rattle.caches.specs.Lines.{Wide, Homed};

use crate::agreed::Agreed;
use crate::line::CacheLine;

/// The caches of all seats. Line n stands, if at all, in place n mod sets of a seat's row.
// That a seat is on the bus, or holds a line, ties it to one table: each method asks it, and no type of its own can keep it.
#[derive(Drop)]
pub struct Caches {
    // Of one fixed size, whatever is agreed: nothing is allocated while a bus runs.
    table: [[CacheLine; 64]; 8],
    agreed: Agreed,
    ghost rows: { length table ≡ 8 },
    ghost wide: { Wide table },
    ghost homed: { Homed agreed.sets table },
}

mod changes;
mod looks;
mod opening;
mod reactions;
