// The memory below the bus: what any memory means, plain memory over words handed in, and a write buffer over any memory.
#![tactic(auto)]

mod bounds;
mod interface;
mod plain_memory;
mod queue;
mod write_buffer;

pub use interface::{Line, Memory, WORDS_IN_LINE};
pub use plain_memory::Plain;
pub use queue::Waiting;
pub use write_buffer::WriteBuffer;
