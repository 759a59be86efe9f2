// A run: caches on a bus over a memory, opened with agreed sizes, called, and closed with its ticket.
#![tactic(auto)]

mod closed;
mod place;
mod replays;
mod run;
mod step;
mod ticket;

pub use bus::Reply;
pub use closed::Closed;
pub use replays::replay;
pub use run::{CALL_LIMIT, PLACES_NEEDED, Run};
pub use step::Step;
pub use ticket::Ticket;
