//! The rules of traps: where a trap goes, what its entry and the returns do to the registers of a hart,
//! and which interrupt is taken. Plain calls that allocate nothing and refuse nothing.
#![tactic(auto)]

mod entry;
mod interrupts;
mod registers;
mod returns;
mod status;
#[cfg(test)]
mod tests;

pub use entry::enter;
pub use interrupts::{may_take, pick};
pub use registers::{mie, mstatus};
pub use returns::{dret, mret, sret};
pub use status::{has_any, machine_previous};

/// Why a trap comes, by the number that the cause register gets (Privileged ISA, "Machine Cause Register").
#[derive(Clone, Copy, PartialEq, Eq, Debug)]
pub enum Cause {
    /// An exception of an instruction, with a number below 16.
    Exception(u8),
    /// An interrupt: 1, 3, 5, 7, 9 or 11.
    Interrupt(u8),
}
