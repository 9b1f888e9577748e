//! The bus of the board: which device registers there are, the three devices behind one load and one
//! store, the signals that they drive, and the host window.
#![tactic(auto)]

mod board;
mod bus;
mod laws;
mod place;
#[cfg(test)]
mod tests;
mod window;

pub use board::Board;
pub use bus::Refused;
pub use laws::{access_laws, drives_four_bits, loads_fit};
pub use place::listed;
pub use window::{HostSays, host_word};
