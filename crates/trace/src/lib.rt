// The trace text: its lines, its faults, and the words that choose a protocol.
#![tactic(auto)]

mod access;
mod bus_line;
mod choice;
mod fault;
mod layer;
mod line_number;
mod reader;
mod setup;
mod value;
mod word;

pub use access::Access;
pub use bus_line::{BusLine, Numeral, Second};
pub use choice::Choice;
pub use fault::{LineFault, NumberFault, TraceFault};
pub use layer::Layer;
pub use line_number::line_of;
pub use reader::{LONGEST, Reader};
pub use setup::{Division, Setup};
pub use word::Word;
