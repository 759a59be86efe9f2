// A protocol written out once, seat by seat and cell by cell.
ghost use Rattle.std.specs.Prelude.{◌≡◌, length};
ghost use Rattle.protocol.specs.Cells.{Lawful};
ghost use Rattle.protocol.specs.Flattened.{rows_answer, Wide};

/// What a protocol answers for eight seats, as one table.
#[derive(Clone, Copy, Drop)]
pub struct Flattened {
    rows: [[u8; 16]; 8],
    ghost seats: { length rows ≡ 8 },
    ghost wide: { Wide rows },
    ghost lawful: { Lawful (rows_answer rows) },
}

mod methods;
