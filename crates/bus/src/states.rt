// The state that a requester's copy takes, by its own cells.
ghost use Rattle.std.specs.Prelude.{◌≡◌, ◌<◌, true, slice_set};
ghost use Rattle.protocol.specs.States.{valid};
ghost use Rattle.rules.specs.Columns.{kept, state_at, words_at};
ghost use Rattle.rules.specs.Transactions.{after_rs, after_up, after_tu, after_ti};
ghost use Rattle.rules.specs.Machines.{copies_of, put_each};
ghost use Rattle.caches.specs.Views.{caches_of};

use caches::{Caches, Store, cell_state};
use protocol::{Cell, Protocol, State, filled_alone};

/// After a read shared: cell 3 when alone.
pub fn after_read<P: Protocol>(protocol: &P, seat: usize, alone: bool) -> State
    ensures value { result ≡ after_rs (P.cells protocol.now seat) alone }
    ensures held { valid result ≡ true }
{
    if alone {
        filled_alone(protocol, seat)
    } else {
        State::Shared
    }
}

/// After an update: cell 4 when alone.
pub fn after_update<P: Protocol>(protocol: &P, seat: usize, alone: bool) -> State
    ensures { result ≡ after_up (P.cells protocol.now seat) alone }
{
    if alone {
        cell_state(protocol, seat, Cell::UpdatedAlone.number())
    } else {
        State::Owned
    }
}

/// After a write through with update: cell 5 from Shared and cell 6 from Owned, when alone.
pub fn after_through_update<P: Protocol>(
    protocol: &P,
    seat: usize,
    alone: bool,
    state: State,
) -> State
    ensures { result ≡ after_tu (P.cells protocol.now seat) alone state }
{
    match (state, alone) {
        (State::Invalid, _) => State::Invalid,
        (State::Shared | State::Exclusive, true) => cell_state(
            protocol,
            seat,
            Cell::ThroughUpdatedAloneAtShared.number(),
        ),
        (State::Shared | State::Exclusive, false) => State::Shared,
        (State::Owned | State::Modified, true) => cell_state(
            protocol,
            seat,
            Cell::ThroughUpdatedAloneAtOwned.number(),
        ),
        (State::Owned | State::Modified, false) => State::Owned,
    }
}

/// After a write through with invalidate: cell 7 from Shared, cell 8 from Owned.
pub fn after_through_invalidate<P: Protocol>(protocol: &P, seat: usize, state: State) -> State
    ensures { result ≡ after_ti (P.cells protocol.now seat) state }
{
    match state {
        State::Invalid => State::Invalid,
        State::Shared | State::Exclusive => cell_state(
            protocol,
            seat,
            Cell::ThroughInvalidatedAtShared.number(),
        ),
        State::Owned | State::Modified => cell_state(
            protocol,
            seat,
            Cell::ThroughInvalidatedAtOwned.number(),
        ),
    }
}

/// After a write through with invalidate the seat's copy, if there is one, has the word, and goes by its state.
pub fn keep_through<P: Protocol>(
    caches: &mut Caches,
    protocol: &P,
    seat: usize,
    line: usize,
    store: Store,
)
    requires on { seat < caches.old.agreed.seats }
    ensures caches { caches_of caches.new ≡ put_each line (caches_of caches.old) (slice_set (copies_of line (caches_of caches.old)) seat (kept (after_ti (P.cells protocol.now seat) (state_at (copies_of line (caches_of caches.old)) seat)) (slice_set (words_at (copies_of line (caches_of caches.old)) seat) store.word store.value))) }
    ensures agreed { caches.new.agreed ≡ caches.old.agreed }
{
    let state = caches.state(seat, line);
    if state.is_valid() {
        let after = after_through_invalidate(protocol, seat, state);
        caches.write(seat, line, after, store);
    }
}
