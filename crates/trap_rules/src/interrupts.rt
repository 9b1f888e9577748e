//! Which interrupt is taken.

ghost use Rattle.std.specs.Prelude.{◌≡◌, find, IfSome, IsTrue};
ghost use Rattle.csr_file.specs.Numbers.{csr_mip};
ghost use Rattle.csr_file.specs.View.{IsGiven};
ghost use Rattle.rv_alu.specs.Bits.{has_bit};
ghost use Rattle.trap_rules.specs.Interrupt.{interrupt_order, is_machine_open, is_supervisor_open, may_be_taken, own_signal, picked, traps_to_machine, traps_to_supervisor};

use crate::registers::{mideleg, mie, mip, mstatus};
use crate::status::has_any;
use csr_file::CsrFile;
use csr_file::masks::{MSTATUS_MIE, MSTATUS_SIE};
use rv_alu::{Mode, has_bit};

/// Whether an interrupt bound for machine mode can be taken.
fn is_machine_open(csrs: &CsrFile, mode: Mode) -> bool
    ensures { result ≡ is_machine_open csrs.now mode }
{
    mode != Mode::M || has_any(mstatus(csrs), MSTATUS_MIE)
}

/// Whether an interrupt bound for supervisor mode can be taken.
fn is_supervisor_open(csrs: &CsrFile, mode: Mode) -> bool
    ensures { result ≡ is_supervisor_open csrs.now mode }
{
    match mode {
        Mode::U => true,
        Mode::S => has_any(mstatus(csrs), MSTATUS_SIE),
        Mode::M => false,
    }
}

/// The first interrupt of a set in the order of priority: MEI, MSI, MTI, SEI, SSI, STI.
fn first(set: u64) -> Option<u8>
    ensures { result ≡ find (has_bit set) interrupt_order }
{
    if set == 0 {
        None
    } else if has_bit(set, 11) {
        Some(11)
    } else if has_bit(set, 3) {
        Some(3)
    } else if has_bit(set, 7) {
        Some(7)
    } else if has_bit(set, 9) {
        Some(9)
    } else if has_bit(set, 1) {
        Some(1)
    } else if has_bit(set, 5) {
        Some(5)
    } else {
        None
    }
}

/// The first interrupt that traps to machine mode.
fn first_to_machine(csrs: &CsrFile, mode: Mode, live: u64) -> Option<u8>
    ensures { result ≡ find (traps_to_machine csrs.now mode live) interrupt_order }
{
    if is_machine_open(csrs, mode) {
        first((mip(csrs) | live) & mie(csrs) & !mideleg(csrs))
    } else {
        None
    }
}

/// The first interrupt that traps to supervisor mode.
fn first_to_supervisor(csrs: &CsrFile, mode: Mode, live: u64) -> Option<u8>
    ensures { result ≡ find (traps_to_supervisor csrs.now mode live) interrupt_order }
{
    if is_supervisor_open(csrs, mode) {
        first((mip(csrs) | live) & mie(csrs) & mideleg(csrs))
    } else {
        None
    }
}

/// The interrupt that is taken in `mode` where devices drive the bits `live` of `mip`. None exactly where
/// nothing that is pending and enabled can be taken in this mode, or the hart is in debug mode (Privileged
/// ISA, "Machine Interrupt Registers", "Supervisor Interrupt Registers").
#[tactic(auto, unfolding(crate::specs::Interrupt::picked))]
pub fn pick(csrs: &CsrFile, mode: Mode, live: u64) -> Option<u8>
    ensures value { result ≡ picked csrs.now mode live }
    ensures permitted { IsGiven csr_mip live → IfSome result (λ cause. IsTrue (may_be_taken csrs.now mode cause)) }
{
    if csrs.debug().is_some() {
        return None;
    }
    match first_to_machine(csrs, mode, live) {
        Some(cause) => Some(cause),
        None => first_to_supervisor(csrs, mode, live),
    }
}

/// The live signal of interrupt `cause`, where devices drive it: MSI, MTI, SEI and MEI.
fn own_signal(cause: u8) -> u64
    ensures { result ≡ own_signal cause }
{
    match cause {
        3 | 7 | 9 | 11 => 1 << cause,
        _ => 0,
    }
}

/// Whether interrupt `cause` may be taken in `mode`, whatever devices drive: it is the one that is taken
/// where its own signal is the only live one, or none is live if software drives it.
#[tactic(auto, unfolding(crate::specs::Interrupt::may_be_taken))]
pub fn may_take(csrs: &CsrFile, mode: Mode, cause: u8) -> bool
    ensures { result ≡ may_be_taken csrs.now mode cause }
{
    pick(csrs, mode, own_signal(cause)) == Some(cause)
}
