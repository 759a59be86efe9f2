// The report of a text: what its run did, as the bytes that are printed.
#![tactic(auto)]

mod closing;
mod memory_lines;
mod shown;
mod step;
mod stop;
mod text;
mod whole;

pub use text::report;
pub use whole::report_text;
