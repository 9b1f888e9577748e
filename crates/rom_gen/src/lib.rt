//! The boot ROM of a checkpoint: code that harts execute in debug mode, from reset, and that puts a running
//! machine back. `specs/Executed.antt` says what executing it does, and [`rom_of`] makes it; `specs/Rom.antt`
//! has its layout.
#![tactic(auto)]

mod accesses;
mod device_block;
mod entry;
mod hart_block;
mod laws;
mod rom;
#[cfg(test)]
mod tests;
mod words;
mod writer;

pub use device_block::device_stub;
pub use entry::dispatch;
pub use hart_block::hart_stub;
pub use laws::{devices_restored, item_steps, items_join, registers_restored, roms_restore};
pub use rom::{NoMemory, Rom, rom_of};
