// Which transaction a write makes.
ghost use Rattle.std.specs.Prelude.{◌≡◌};
ghost use Rattle.bus.specs.Choices.{code_at, chosen};

use protocol::{Cell, Protocol, State, Transaction};

/// The byte that decides a write: cell 0 at Invalid, 1 at Shared, 2 at Owned; an exclusive copy asks no cell.
// 0 there, as a protocol answers where there is no cell; nothing reads it.
fn code_at<P: Protocol>(protocol: &P, seat: usize, state: State) -> u8
    ensures { result ≡ code_at (P.cells protocol.now seat) state }
{
    // An arm for each state, as the rule reads.
    match state {
        State::Invalid => protocol.cell(seat, Cell::WriteAtInvalid.number()),
        State::Shared => protocol.cell(seat, Cell::WriteAtShared.number()),
        State::Owned => protocol.cell(seat, Cell::WriteAtOwned.number()),
        State::Exclusive | State::Modified => 0,
    }
}

/// The transaction of a write by a seat whose copy is in this state: none where the copy is exclusive.
pub fn choose<P: Protocol>(protocol: &P, seat: usize, state: State) -> Option<Transaction>
    ensures { result ≡ chosen (P.cells protocol.now seat) state }
{
    // By the design a match over the state and the cell's code together, with guards.
    match (state, code_at(protocol, seat, state)) {
        (State::Exclusive | State::Modified, _) => None,
        (State::Invalid, code) if code == b'1' => Some(Transaction::ReadShared),
        (State::Invalid, code) if code == b'2' => Some(Transaction::ReadInvalidate),
        (State::Invalid, _) => Some(Transaction::ThroughInvalidate),
        (State::Shared | State::Owned, code) if code == b'3' => Some(Transaction::Invalidate),
        (State::Shared | State::Owned, code) if code == b'4' => Some(Transaction::Update),
        (State::Shared | State::Owned, code) if code == b'5' => Some(Transaction::ThroughUpdate),
        _ => Some(Transaction::ThroughInvalidate),
    }
}
