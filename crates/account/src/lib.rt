// What the run of a text gives: its accesses performed, what stopped it, and what closing gave.
#![tactic(auto)]

mod account;
mod prefix;
mod step;
mod stop;

pub use account::{Account, Ran};
pub use prefix::Prefix;
pub use step::{MOST_RECORDS, MOST_SEATS, Step};
pub use stop::Stop;
