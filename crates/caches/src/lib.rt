// The caches of all seats: the sizes agreed for a bus, the table of copies, and how copies react to what they hear.
#![tactic(auto)]

mod agreed;
mod heard;
mod heeded;
mod line;
mod store;
mod table;

pub use agreed::Agreed;
pub use heard::{Heard, cell_state};
pub use heeded::{Heeded, Owner};
pub use line::CacheLine;
pub use store::Store;
pub use table::Caches;
