// The sixteen cells of a protocol table.
ghost use Rattle.std.specs.Prelude.{◌≡◌};
ghost use Rattle.protocol.specs.Cells.{allowed, cell_set};
ghost use Rattle.protocol.specs.CellNames.{cell_number, cell_at, cell_use};
ghost use Rattle.protocol.specs.Unknown.{Reads};

use crate::unknown::Unknown;

/// What a cell of a protocol table decides.
#[derive(Clone, Copy, PartialEq, Eq, Debug)]
pub enum Cell {
    /// The transaction of a write at Invalid.
    WriteAtInvalid,
    /// The transaction of a write at Shared.
    WriteAtShared,
    /// The transaction of a write at Owned.
    WriteAtOwned,
    /// The state of a copy filled by a read while no other seat holds the line.
    FilledAlone,
    /// The state after an update that no other seat holds on to.
    UpdatedAlone,
    /// The state after a write through with update at Shared, alone.
    ThroughUpdatedAloneAtShared,
    /// The state after a write through with update at Owned, alone.
    ThroughUpdatedAloneAtOwned,
    /// The state after a write through with invalidate at Shared.
    ThroughInvalidatedAtShared,
    /// The state after a write through with invalidate at Owned.
    ThroughInvalidatedAtOwned,
    /// The state of a Shared copy that hears a read shared.
    ReadHeardAtShared,
    /// The state of an Exclusive copy that hears a read shared.
    ReadHeardAtExclusive,
    /// The state of an Owned copy that hears a read shared.
    ReadHeardAtOwned,
    /// The state of a Modified copy that hears a read shared.
    ReadHeardAtModified,
    /// The state of a Shared copy that hears an update.
    UpdateHeardAtShared,
    /// The state of an Owned copy that hears an update.
    UpdateHeardAtOwned,
    /// The state of a Shared copy that hears a write through with update.
    ThroughUpdateHeardAtShared,
}

impl Cell {
    /// How many cells a table has.
    pub const COUNT: u8 = 16;

    /// The cells, in the order of a table.
    pub const ALL: [Cell; Cell::COUNT as usize] = [
        Cell::WriteAtInvalid,
        Cell::WriteAtShared,
        Cell::WriteAtOwned,
        Cell::FilledAlone,
        Cell::UpdatedAlone,
        Cell::ThroughUpdatedAloneAtShared,
        Cell::ThroughUpdatedAloneAtOwned,
        Cell::ThroughInvalidatedAtShared,
        Cell::ThroughInvalidatedAtOwned,
        Cell::ReadHeardAtShared,
        Cell::ReadHeardAtExclusive,
        Cell::ReadHeardAtOwned,
        Cell::ReadHeardAtModified,
        Cell::UpdateHeardAtShared,
        Cell::UpdateHeardAtOwned,
        Cell::ThroughUpdateHeardAtShared,
    ];

    // By name and not by `From`: a call says that the byte is a place and no cell's content.
    /// The cell's place in a table.
    pub fn number(self) -> u8
        ensures { result ≡ cell_number self }
    {
        self as u8
    }

    /// What the cell is for, in words.
    // A text and no `Display`: a report pads it to a column.
    pub fn purpose(self) -> &'static str
        ensures { result.now ≡ cell_use self }
    {
        match self {
            Cell::WriteAtInvalid => "write at Invalid",
            Cell::WriteAtShared => "write at Shared",
            Cell::WriteAtOwned => "write at Owned",
            Cell::FilledAlone => "filled alone",
            Cell::UpdatedAlone => "after UP, alone",
            Cell::ThroughUpdatedAloneAtShared => "after TU at Shared, alone",
            Cell::ThroughUpdatedAloneAtOwned => "after TU at Owned, alone",
            Cell::ThroughInvalidatedAtShared => "after TI at Shared",
            Cell::ThroughInvalidatedAtOwned => "after TI at Owned",
            Cell::ReadHeardAtShared => "RS heard at Shared",
            Cell::ReadHeardAtExclusive => "RS heard at Exclusive",
            Cell::ReadHeardAtOwned => "RS heard at Owned",
            Cell::ReadHeardAtModified => "RS heard at Modified",
            Cell::UpdateHeardAtShared => "UP heard at Shared",
            Cell::UpdateHeardAtOwned => "UP heard at Owned",
            Cell::ThroughUpdateHeardAtShared => "TU heard at Shared",
        }
    }

    /// The bytes that the cell may hold.
    pub fn set(self) -> &'static str
        ensures { result.now ≡ cell_set (cell_number self) }
    {
        match self {
            Cell::WriteAtInvalid => "126",
            Cell::WriteAtShared | Cell::WriteAtOwned => "3456",
            Cell::FilledAlone
            | Cell::ThroughUpdatedAloneAtShared
            | Cell::ThroughInvalidatedAtShared => "SE",
            Cell::UpdatedAlone
            | Cell::ThroughUpdatedAloneAtOwned
            | Cell::ThroughInvalidatedAtOwned => "OM",
            Cell::ReadHeardAtOwned | Cell::ReadHeardAtModified => "ISO",
            Cell::ReadHeardAtShared
            | Cell::ReadHeardAtExclusive
            | Cell::UpdateHeardAtShared
            | Cell::UpdateHeardAtOwned
            | Cell::ThroughUpdateHeardAtShared => "IS",
        }
    }

    /// Whether a byte lies in the cell's set.
    // By cases of its own and not by `set`: a table is loaded by sixteen such questions, and to search a text took twice the time.
    pub fn allows(self, byte: u8) -> bool
        ensures { result ≡ allowed (cell_number self) byte }
    {
        match self {
            Cell::WriteAtInvalid => matches!(byte, b'1' | b'2' | b'6'),
            Cell::WriteAtShared | Cell::WriteAtOwned => matches!(byte, b'3' | b'4' | b'5' | b'6'),
            Cell::FilledAlone
            | Cell::ThroughUpdatedAloneAtShared
            | Cell::ThroughInvalidatedAtShared => matches!(byte, b'S' | b'E'),
            Cell::UpdatedAlone
            | Cell::ThroughUpdatedAloneAtOwned
            | Cell::ThroughInvalidatedAtOwned => matches!(byte, b'O' | b'M'),
            Cell::ReadHeardAtOwned | Cell::ReadHeardAtModified => matches!(
                byte,
                b'I' | b'S' | b'O'
            ),
            Cell::ReadHeardAtShared
            | Cell::ReadHeardAtExclusive
            | Cell::UpdateHeardAtShared
            | Cell::UpdateHeardAtOwned
            | Cell::ThroughUpdateHeardAtShared => matches!(byte, b'I' | b'S'),
        }
    }
}

/// The cell at a place of a table.
impl TryFrom<u8> for Cell {
    type Error = Unknown;

    ghost try_from_gives = { Reads cell_at };

    fn try_from(number: u8) -> Result<Cell, Unknown> {
        match number {
            0 => Ok(Cell::WriteAtInvalid),
            1 => Ok(Cell::WriteAtShared),
            2 => Ok(Cell::WriteAtOwned),
            3 => Ok(Cell::FilledAlone),
            4 => Ok(Cell::UpdatedAlone),
            5 => Ok(Cell::ThroughUpdatedAloneAtShared),
            6 => Ok(Cell::ThroughUpdatedAloneAtOwned),
            7 => Ok(Cell::ThroughInvalidatedAtShared),
            8 => Ok(Cell::ThroughInvalidatedAtOwned),
            9 => Ok(Cell::ReadHeardAtShared),
            10 => Ok(Cell::ReadHeardAtExclusive),
            11 => Ok(Cell::ReadHeardAtOwned),
            12 => Ok(Cell::ReadHeardAtModified),
            13 => Ok(Cell::UpdateHeardAtShared),
            14 => Ok(Cell::UpdateHeardAtOwned),
            15 => Ok(Cell::ThroughUpdateHeardAtShared),
            byte => Err(Unknown { byte }),
        }
    }
}
