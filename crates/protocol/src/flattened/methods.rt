// Writing a protocol out, and the answers of the table.
ghost use Rattle.std.specs.Prelude.{◌≡◌, ℕ, ◌<◌, length, slice_index};
ghost use Rattle.protocol.specs.Flattened.{rows_answer, RowOf, Alike};

use super::Flattened;
use crate::cells::byte_of;
use crate::interface::Protocol;
use std::array;

impl Flattened {
    /// Writes a protocol out: the table answers what the protocol does, for each seat that a bus can have.
    pub fn of<P: Protocol>(protocol: &P) -> Flattened
        ensures { Alike (rows_answer result.rows) (P.cells protocol.now) }
    {
        let rows = array::from_fn(
            |seat| -> [u8; 16]
                ensures { RowOf (P.cells protocol.entry.now) seat result }
            { row(protocol, seat) },
        );
        Flattened { rows }
    }
}

// A seat's cells.
fn row<P: Protocol>(protocol: &P, seat: usize) -> [u8; 16]
    ensures { RowOf (P.cells protocol.now) seat result }
{
    array::from_fn(|cell| protocol.cell(seat, cell as u8))
}

impl Protocol for Flattened {
    ghost cells = { λ f seat k. rows_answer f.rows seat k };

    ghost lawful = { λ f seat k. f.lawful seat k };

    fn cell(&self, seat: usize, cell: u8) -> u8 {
        byte_of(&self.rows[seat % 8], cell)
    }
}
