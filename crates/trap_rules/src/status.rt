//! The stack of privilege modes and interrupt enables in `mstatus`.
#![tactic(auto, unfolding(crate::specs::Status::machine_stacked, crate::specs::Status::supervisor_stacked, crate::specs::Status::machine_unstacked, crate::specs::Status::supervisor_unstacked))]

ghost use Rattle.std.specs.Prelude.{◌≡◌};
ghost use Rattle.trap_rules.specs.Status.{bits_if, has_any, machine_previous, machine_stacked, machine_unstacked, supervisor_previous, supervisor_stacked, supervisor_unstacked};

use csr_file::masks::{
    MSTATUS_MIE, MSTATUS_MPIE, MSTATUS_MPP, MSTATUS_MPRV, MSTATUS_SIE, MSTATUS_SPIE, MSTATUS_SPP,
};
use csr_file::merge;
use rv_alu::{Mode, mode_of};

/// Whether the word has any of the bits of the mask.
pub fn has_any(word: u64, mask: u64) -> bool
    ensures { result ≡ has_any word mask }
{
    word & mask != 0
}

/// The mask where the test holds, else no bits.
fn bits_if(test: bool, mask: u64) -> u64
    ensures { result ≡ bits_if test mask }
{
    if test { mask } else { 0 }
}

/// The mode in the field MPP of `mstatus`, to which `mret` returns.
pub fn machine_previous(status: u64) -> Mode
    ensures { result ≡ machine_previous status }
{
    mode_of(status >> 11 & 3)
}

/// The mode to which `sret` returns.
pub(crate) fn supervisor_previous(status: u64) -> Mode
    ensures { result ≡ supervisor_previous status }
{
    if has_any(status, MSTATUS_SPP) {
        Mode::S
    } else {
        Mode::U
    }
}

/// `mstatus` after entry to machine mode.
pub(crate) fn machine_stacked(mode: Mode, status: u64) -> u64
    ensures { result ≡ machine_stacked mode status }
{
    let enabled = bits_if(has_any(status, MSTATUS_MIE), MSTATUS_MPIE);
    let from = (mode as u64) << 11;
    merge(
        MSTATUS_MIE + MSTATUS_MPIE + MSTATUS_MPP,
        status,
        enabled + from,
    )
}

/// `mstatus` after entry to supervisor mode.
pub(crate) fn supervisor_stacked(mode: Mode, status: u64) -> u64
    ensures { result ≡ supervisor_stacked mode status }
{
    let enabled = bits_if(has_any(status, MSTATUS_SIE), MSTATUS_SPIE);
    let from = bits_if(mode == Mode::S, MSTATUS_SPP);
    merge(
        MSTATUS_SIE + MSTATUS_SPIE + MSTATUS_SPP,
        status,
        enabled + from,
    )
}

/// `mstatus` after `mret`.
pub(crate) fn machine_unstacked(status: u64) -> u64
    ensures { result ≡ machine_unstacked status }
{
    let cleared = bits_if(machine_previous(status) != Mode::M, MSTATUS_MPRV);
    let enabled = bits_if(has_any(status, MSTATUS_MPIE), MSTATUS_MIE);
    merge(
        MSTATUS_MIE + MSTATUS_MPIE + MSTATUS_MPP + cleared,
        status,
        enabled + MSTATUS_MPIE,
    )
}

/// `mstatus` after `sret`.
pub(crate) fn supervisor_unstacked(status: u64) -> u64
    ensures { result ≡ supervisor_unstacked status }
{
    let enabled = bits_if(has_any(status, MSTATUS_SPIE), MSTATUS_SIE);
    merge(
        MSTATUS_SIE + MSTATUS_SPIE + MSTATUS_SPP + MSTATUS_MPRV,
        status,
        enabled + MSTATUS_SPIE,
    )
}
