//! The guest's memory: one region of bytes, which the harts, the loader and the devices share.
//!
//! The first byte has the guest address [`BASE`]. Every `at` is a guest address, and every `n` and
//! `size` a number of bytes.
#![tactic(auto)]

mod block;
mod page_table;
mod ram;
#[cfg(test)]
mod tests;

pub use page_table::PageTable;
pub use ram::{BASE, GuestRam, MOST_BYTES, NoMemory, is_in_ram};
