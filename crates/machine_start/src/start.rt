//! Where a machine begins.

use guest_ram::GuestRam;
use sim_config::Shape;

/// Where a machine begins.
#[derive(Drop)]
pub struct Start {
    /// Its harts, its length of memory, its slice and its host window.
    pub shape: Shape,
    /// Its memory with the program.
    pub ram: GuestRam,
    /// The address of the first instruction.
    pub entry: u64,
}
