// What a protocol is: for a seat and a cell it answers one byte, which keeps the bus laws.
ghost use Rattle.std.specs.Prelude.{◌≡◌, ℕ, true};
ghost use Rattle.protocol.specs.Cells.{Lawful, FilledState};
ghost use Rattle.protocol.specs.States.{state_of};

use crate::cell::Cell;
use crate::state::State;

/// A coherence protocol for every seat of a bus.
pub trait Protocol {
    /// What each seat answers at each cell number.
    ghost cells: { Self → ℕ → ℕ → ℕ };

    // A protocol and a seat stay two parameters: it is asked for any seat's byte, and nothing ties the two.
    /// The byte of a cell for a seat: a transaction's digit or a state's letter, 0 above the last cell.
    fn cell(&self, seat: usize, cell: u8) -> u8
        ensures { result ≡ cells self.now seat cell };

    /// Each answer lies in its cell's set, and is 0 above the last cell.
    ghost lawful: { (p : Self) → Lawful (cells p) };
}

/// The state in which a seat takes a line that no other seat holds: by the law Shared or Exclusive.
pub fn filled_alone<P: Protocol>(protocol: &P, seat: usize) -> State
    ensures value { result ≡ state_of (P.cells protocol.now seat 3) }
    ensures lawful { FilledState result }
{
    // The law's two letters: a fill takes 4% more instructions where all five are read and unwrapped.
    match protocol.cell(seat, Cell::FilledAlone.number()) {
        b'S' => State::Shared,
        b'E' => State::Exclusive,
        _ => unreachable(),
    }
}
