// What a copy may hear on the bus.
ghost use Rattle.std.specs.Prelude.{◌≡◌};
ghost use Rattle.protocol.specs.States.{state_of};

use crate::store::Store;
use protocol::{Protocol, State};

/// A transaction of another seat, as a copy of the line hears it. A write back is heard by nobody.
#[derive(Clone, Copy)]
pub enum Heard {
    /// Read shared: the copy goes by the cell of its state.
    ReadShared,
    /// Read and invalidate: the copy goes.
    ReadInvalidate,
    /// Invalidate: the copy goes.
    Invalidate,
    /// Update: the copy goes by the cell of its state, and takes the word.
    Update(Store),
    /// Through with update: a shared copy goes by its cell, and takes the word; an owner takes the word.
    ThroughUpdate(Store),
    /// Through with invalidate: the copy goes.
    ThroughInvalidate,
}

/// The state that a seat's cell names.
// By number, as a protocol is asked: over a `Cell` the promise would hold for sixteen numbers, and it holds for any.
pub fn cell_state<P: Protocol>(protocol: &P, seat: usize, cell: u8) -> State
    ensures { result ≡ state_of (P.cells protocol.now seat cell) }
{
    State::try_from(protocol.cell(seat, cell)).unwrap_or(State::Invalid)
}
