//! The console: a queue of input bytes, and output to a buffer, byte by byte or out of guest memory.
//!
//! Registers, by offset and size in bytes: data (0, 1), status (4, 4), ctrl (8, 4), txaddr (0x10, 8) and
//! txlen (0x18, 4).
#![tactic(auto)]

mod control;
mod device;
mod laws;
mod output;
mod registers;
#[cfg(test)]
mod tests;

pub use device::{Console, Refused};
pub use laws::sends_at_most;
pub use output::{NoMemory, OutBuf};
pub use registers::listed;
