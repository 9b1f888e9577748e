//! The translation of addresses by Sv39 page tables in guest memory. Which address is mapped where is
//! defined in `specs/Walk.antt`.
//!
//! A walker remembers up to 64 translations, one in each slot. A translation that was answered is in the
//! slot of its page, whose number is the low 6 bits of the page's, until another one takes the slot or all
//! are forgotten. Kept are the root table, the page, the addresses of the entries that were read, and the
//! leaf; whether the leaf permits an access is tested at each use. The walker marks each page of RAM in
//! which it has read an entry, and forgets all when it is told of a store to such a page.
#![tactic(auto)]

mod entry;
mod laws;
mod slots;
#[cfg(test)]
mod tests;
mod walk;
mod walker;

pub use laws::{agrees_kept, one_address, plain_reckoning};
use rv_alu::Mode;
pub use walker::{NoMemory, Walker};

/// What an access does with its address (Privileged ISA, "Virtual Address Translation Process").
#[derive(Clone, Copy, PartialEq, Eq, Debug)]
pub enum Kind {
    /// Fetches an instruction.
    Fetch,
    /// Reads data.
    Load,
    /// Writes data.
    Store,
}

/// What a translation depends on beside memory (Privileged ISA, "Memory Privilege in mstatus
/// Register" and "Supervisor Address Translation and Protection (satp) Register").
#[derive(Clone, Copy)]
pub struct Ctx {
    /// The effective mode of the access.
    pub mode: Mode,
    /// MODE in bits 63 to 60 and the root table's page number in bits 43 to 0.
    pub satp: u64,
    /// Supervisor mode may load from and store to pages of user mode.
    pub sum: bool,
    /// Loads may read pages that can only be executed.
    pub mxr: bool,
}

/// Why an address is mapped nowhere.
#[derive(Clone, Copy, PartialEq, Eq, Debug)]
pub enum WalkFault {
    /// The page tables do not permit the access: a page fault.
    Page,
    /// An entry on the way lies outside memory: an access fault.
    Access,
}
