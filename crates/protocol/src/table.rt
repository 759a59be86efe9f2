// A table of cells that keeps the bus laws.
ghost use Rattle.std.specs.Prelude.{◌≡◌, ℕ, true, slice_index};
ghost use Rattle.protocol.specs.Cells.{allowed};

/// A client's protocol, followed by every seat: sixteen cells, each in its set.
#[derive(Clone, Copy)]
pub struct Table {
    cells: [u8; 16],
    ghost lawful: { (k : ℕ) → allowed k (slice_index cells k) ≡ true },
}

mod methods;
