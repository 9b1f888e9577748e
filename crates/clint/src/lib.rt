//! The core-local interruptor: the timer and the software interrupts of 1 to 8 harts, in the layout
//! of SiFive's block (FU540-C000 Manual, "Core-Local Interruptor (CLINT)").
#![tactic(auto)]

mod block;
mod laws;
mod registers;
#[cfg(test)]
mod tests;

pub use block::{Clint, Refused};
pub use laws::keeps_harts;
pub use registers::listed;
