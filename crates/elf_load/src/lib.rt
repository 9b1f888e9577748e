//! Reads ELF64 files for RISC-V: lays their segments into guest memory, and finds the value of a
//! symbol.
//!
//! The file's format is that of the System V Application Binary Interface, chapters 4 (Object
//! Files) and 5 (Program Loading), for the class of 64 bits and the little-endian order. The number
//! of the machine is that of the RISC-V ELF psABI.
#![tactic(auto)]

mod checks;
mod fault;
mod format;
mod laying;
mod loading;
mod naming;
#[cfg(test)]
mod tests;

pub use checks::LONGEST_FILE;
pub use fault::{ElfFault, ElfField};
pub use loading::load;
pub use naming::symbol;
