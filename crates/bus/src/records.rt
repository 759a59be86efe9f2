// The record of a transaction, and the lines that an access wrote by its records.
ghost use Rattle.std.specs.Prelude.{◌≡◌, false, length};
ghost use Rattle.std.specs.Option.{option_map};
ghost use Rattle.rules.specs.declared.record.Supplier.TheVariants.{Nobody};
ghost use Rattle.rules.specs.Machines.{owner_or_memory};
ghost use Rattle.caches.specs.declared.heeded.Owner.{Owner};
ghost use Rattle.bus.specs.Logs.{listed};

use caches::Heeded;
use protocol::Transaction;
use rules::{Record, Supplier};

/// A transaction that moves no line to its requester.
pub fn unsupplied(transaction: Transaction, seat: usize, line: usize, shared: bool) -> Record
    ensures { result ≡ record { transaction = transaction; seat = seat; line = line; shared = shared; reflected = false; supplier = Nobody } }
{
    Record {
        transaction,
        seat,
        line,
        shared,
        reflected: false,
        supplier: Supplier::Nobody,
    }
}

/// A transaction whose line the owner supplies, or else memory. Memory does not receive it.
pub fn supplied(transaction: Transaction, seat: usize, line: usize, heeded: &Heeded) -> Record
    ensures { result ≡ record { transaction = transaction; seat = seat; line = line; shared = heeded.now.shared; reflected = false; supplier = owner_or_memory (option_map (λ (o : Owner). o.seat) heeded.now.owner) } }
{
    Record {
        supplier: Supplier::from(heeded.owner.map(|owner| owner.seat)),
        ..unsupplied(transaction, seat, line, heeded.shared)
    }
}

/// The lines that a write back that may have been made has written.
pub fn lines_written(event: Option<Record>) -> u32
    ensures { result ≡ length (listed event) }
{
    event.map_or(0, |_| 1)
}
