// The tally's counting of transactions.
ghost use Rattle.std.specs.Prelude.{◌≡◌, ◌+◌, ◌≤◌};
ghost use Rattle.rules.specs.Tallies.{tallied, one_read, one_write};
ghost use Rattle.bus.specs.Totals.{total, Room};

use protocol::Transaction;
use rules::{Record, Tally};

/// Counts a transaction: the transaction itself, a fill, a reflection, and the copies that it made Invalid. Hands its record on.
pub fn tell(tally: &mut Tally, event: Record, lost: u32) -> Record
    requires { Room (3 + lost) tally.old }
    ensures event { result ≡ event }
    ensures value { tally.new ≡ tallied result lost tally.old }
    ensures most { total tally.new ≤ total tally.old + (3 + lost) }
{
    match event.transaction {
        Transaction::ReadShared => {
            tally.rs += 1;
            tally.fills += 1;
        }
        Transaction::ReadInvalidate => {
            tally.rx += 1;
            tally.fills += 1;
        }
        Transaction::Invalidate => tally.inv += 1,
        Transaction::Update => tally.up += 1,
        Transaction::ThroughUpdate => tally.tu += 1,
        Transaction::ThroughInvalidate => tally.ti += 1,
        Transaction::WriteBack => tally.wb += 1,
    }
    if event.reflected {
        tally.reflected += 1;
    }
    tally.invalidated += lost;
    event
}

/// Counts an answered read, and a hit if its line was held.
pub fn count_read(tally: &mut Tally, hit: bool)
    requires { Room 2 tally.old }
    ensures value { tally.new ≡ one_read hit tally.old }
    ensures most { total tally.new ≤ total tally.old + 2 }
{
    tally.reads += 1;
    if hit {
        tally.hits += 1;
    }
}

// Apart from the read's count, since which number moves would be a parameter that the contract has to read by cases.
/// Counts an answered write, and a hit if its line was held.
pub fn count_write(tally: &mut Tally, hit: bool)
    requires { Room 2 tally.old }
    ensures value { tally.new ≡ one_write hit tally.old }
    ensures most { total tally.new ≤ total tally.old + 2 }
{
    tally.writes += 1;
    if hit {
        tally.hits += 1;
    }
}
