// The records of an access: they go into places that the caller lends, oldest first.
ghost use Rattle.std.specs.Prelude.{◌≤◌, length};

use rules::Record;

/// Places lent for records, and how many of them, from the first, hold one.
// A count and no vector: the places are the caller's, and a run allocates nothing.
#[derive(Drop)]
pub struct Log<'a> {
    places: &'a mut [Record],
    made: usize,
    ghost within: { made ≤ length places.now },
}

mod methods;
