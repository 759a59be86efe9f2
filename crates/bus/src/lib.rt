// The bus at work: the seven transactions and the accesses made of them, over caches, a memory and a tally.
#![tactic(auto)]

mod bus;
mod choice;
mod counts;
mod log;
mod records;
mod reply;
mod states;
mod supplies;

pub use bus::Bus;
pub use reply::Reply;
