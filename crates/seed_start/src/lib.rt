//! The machine and the program that a seed stands for, so that a run needs no file.
//!
//! The program is a loop of 200 instructions that are drawn by a linear congruential generator, over data
//! that all harts share. Which instruction is drawn at a number is defined in `specs/Seed.antt`.
#![tactic(auto)]

mod laws;
mod program;
mod start;
#[cfg(test)]
mod tests;
mod words;

pub use laws::program_is_kept;
pub use start::{NoMemory, seed_start};
