//! The control and status registers of one hart.
#![tactic(auto)]

mod access;
mod count;
mod file;
mod kept;
mod legal;
pub mod masks;
pub mod numbers;
mod registers;
mod reset;
#[cfg(test)]
mod tests;
mod view;

pub use file::{CsrFile, Illegal};
pub use registers::{DebugRegs, KeptRegs, Registers};
pub use view::merge;
