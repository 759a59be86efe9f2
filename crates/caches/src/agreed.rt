// The sizes of a bus, agreed before it is opened.
ghost use Rattle.std.specs.Prelude.{◌≡◌, ◌<◌, ◌≤◌, true};
ghost use Rattle.protocol.specs.Cells.{among};
ghost use Rattle.caches.specs.Sizes.{set_counts};

/// The seats of a bus and the sets of each seat's cache, within the bounds that every bus keeps.
#[derive(Clone, Copy)]
pub struct Agreed {
    pub(crate) seats: usize,
    pub(crate) sets: usize,
    ghost some: { 0 < seats },
    ghost few: { seats ≤ 8 },
    ghost listed: { among sets set_counts ≡ true },
    ghost some_sets: { 0 < sets },
    ghost few_sets: { sets ≤ 64 },
}

mod methods;
