// Coherence protocols: states, transactions, the cells of a table with their law, and four kinds of protocol.
#![tactic(auto)]

mod cell;
mod cells;
mod flattened;
mod interface;
mod published;
mod split;
mod state;
mod table;
mod transaction;
mod unknown;

pub use cell::Cell;
pub use flattened::Flattened;
pub use interface::{Protocol, filled_alone};
pub use published::Published;
pub use split::Split;
pub use state::State;
pub use table::Table;
pub use transaction::Transaction;
pub use unknown::Unknown;
