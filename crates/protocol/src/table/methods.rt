// Loading a table, and its answers.
ghost use Rattle.std.specs.Prelude.{◌≡◌, ◌<◌, true, length, is_ok, MatchOption, slice_index};
ghost use Rattle.refusal.specs.Refusals.{Answered};
ghost use Rattle.protocol.specs.Cells.{allowed};
ghost use Rattle.protocol.specs.CellNames.{cell_number};
ghost use Rattle.protocol.specs.Tables.{table_refusal, Keeps, FirstFault, FaultTold};

use super::Table;
use crate::cell::Cell;
use crate::cells::byte_of;
use crate::interface::Protocol;
use refusal::Refusal;

impl Table {
    /// Loads sixteen bytes as a protocol's cells: accepted just when each lies in its cell's set.
    pub fn load(bytes: &[u8]) -> Result<Table, Refusal>
        ensures answer { Answered (table_refusal bytes.now) (λ t. t.cells ≡ bytes.now) result }
        ensures accepted { is_ok result ≡ true → Keeps bytes.now }
        ensures lawful { Keeps bytes.now → is_ok result ≡ true }
        ensures refused { FaultTold bytes.now result }
    {
        let cells = <[u8; 16]>::try_from(bytes).map_err(|_| Refusal::TableLength)?;
        match first_outside(&cells) {
            Some(cell) => Err(Refusal::CellOutside {
                cell: cell.number(),
            }),
            None => Ok(Table { cells }),
        }
    }

    /// The cells, as they were loaded.
    pub fn cells(&self) -> [u8; 16]
        ensures { result ≡ self.now.cells }
    {
        self.cells
    }
}

// The first cell that lies outside its set.
fn first_outside(cells: &[u8; 16]) -> Option<Cell>
    ensures { MatchOption result (Keeps cells.now) (λ cell. FirstFault cells.now (cell_number cell)) }
{
    let mut all = Cell::ALL.iter().copied();
    all.find(|cell| !cell.allows(byte_of(cells, cell.number())))
}

impl Protocol for Table {
    ghost cells = { λ t seat k. slice_index t.cells k };

    ghost lawful = { λ p seat k. p.lawful k };

    fn cell(&self, _seat: usize, cell: u8) -> u8 {
        byte_of(&self.cells, cell)
    }
}
