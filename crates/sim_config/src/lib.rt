//! The two JSON texts of a simulation: the configuration of a machine, and the meta text that goes
//! with a checkpoint of it.
//!
//! What a text stands for is defined over the value that `serde_json` reads: the values at its keys,
//! or its first fault. A number counts where the value is a whole number from 0 to 2^64 - 1, and a
//! repeated key has the last of its values.
#![tactic(auto)]

mod fault;
mod keys;
mod members;
mod name;
mod read;
#[cfg(test)]
mod tests;
mod values;
mod write;

pub use fault::ConfigFault;
pub use keys::Key;
pub use name::Name;
pub use read::{LONGEST_TEXT, read_config, read_meta};
pub use values::{Config, Meta, Shape};
pub use write::{NoMemory, meta_text};
