//! The platform-level interrupt controller: two interrupt sources, and two contexts for each of 1 to 8
//! harts (RISC-V Platform-Level Interrupt Controller Specification).
#![tactic(auto)]

mod controller;
mod registers;
#[cfg(test)]
mod tests;

pub use controller::{Plic, Refused};
pub use registers::listed;
