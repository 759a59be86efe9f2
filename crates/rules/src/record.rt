// What the bus tells of one transaction.
ghost use Rattle.std.specs.Prelude.{◌≡◌};
ghost use Rattle.rules.specs.Machines.{owner_or_memory};

use protocol::Transaction;

/// Who supplied the line.
#[derive(Clone, Copy, PartialEq, Eq, Debug)]
pub enum Supplier {
    /// The transaction moves no line to the requester.
    Nobody,
    /// Memory supplied it.
    Memory,
    /// The owner in this seat supplied it.
    Seat(usize),
}

/// One transaction on the bus.
#[derive(Clone, Copy, PartialEq, Eq, Debug)]
pub struct Record {
    /// The transaction.
    pub transaction: Transaction,
    /// The seat that made it.
    pub seat: usize,
    /// The line it was about.
    pub line: usize,
    /// Other seats hold the line right after it.
    pub shared: bool,
    /// Memory received the line too, since its owner did not stay Owned.
    pub reflected: bool,
    /// Who supplied the line.
    pub supplier: Supplier,
}

impl From<Option<usize>> for Supplier {
    ghost from_gives = { λ owner supplier. supplier ≡ owner_or_memory owner };

    /// The owner's seat, or else memory.
    fn from(owner: Option<usize>) -> Supplier {
        owner.map_or(Supplier::Memory, Supplier::Seat)
    }
}

impl Record {
    /// What stands in a place for a record before one is made there.
    pub const UNMADE: Record = Record {
        transaction: Transaction::WriteBack,
        seat: 0,
        line: 0,
        shared: false,
        reflected: false,
        supplier: Supplier::Nobody,
    };
}
