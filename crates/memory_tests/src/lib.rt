// Memories at work: generic code over any memory, a memory that counts what reaches it, and runs of the write buffer.
#![tactic(auto)]

mod counting;
mod generic;

pub use counting::Counting;
pub use generic::{through_a_buffer, words_in, write_through};

#[cfg(test)]
mod tests;
