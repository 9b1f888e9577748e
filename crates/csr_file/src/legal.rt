//! The values that registers keep of what is written.
#![tactic(auto, unfolding(crate::specs::Legal::legal, crate::specs::Legal::legal_status, crate::specs::Legal::legal_translation, crate::specs::Legal::legal_debug_control, crate::specs::Legal::kept_bits))]

ghost use Rattle.std.specs.Prelude.{◌≡◌};
ghost use Rattle.csr_file.specs.Legal.{kept_bits, legal, legal_debug_control, legal_status, legal_translation};

use crate::masks::{
    ALL_BITS, ALL_INTERRUPTS, COUNTER_BITS, DCSR_FIXED, ENVCFG_FIOM, EVEN, MEDELEG_BITS,
    MSTATUS_BITS, MSTATUS_MPP, MSTATUS_MPP_RESERVED, MSTATUS_XLEN, SUPERVISOR_INTERRUPTS,
    VECTOR_BITS,
};
use crate::numbers::{
    DCSR, DPC, MCOUNTEREN, MEDELEG, MENVCFG, MEPC, MIDELEG, MIE, MIP, MSTATUS, MTVEC, SATP,
    SCOUNTEREN, SENVCFG, SEPC, STVEC,
};

/// The value that register `num` keeps, where it kept `old` and `v` is written.
pub(crate) fn legal_value(num: u16, old: u64, v: u64) -> u64
    ensures { result ≡ legal num old v }
{
    match num {
        MSTATUS => status(v),
        SATP => translation(old, v),
        DCSR => debug_control(v),
        _ => v & bits_kept(num),
    }
}

fn status(v: u64) -> u64
    ensures { result ≡ legal_status v }
{
    if v & MSTATUS_MPP == MSTATUS_MPP_RESERVED {
        v & (MSTATUS_BITS - MSTATUS_MPP) | MSTATUS_XLEN
    } else {
        v & MSTATUS_BITS | MSTATUS_XLEN
    }
}

fn translation(old: u64, v: u64) -> u64
    ensures { result ≡ legal_translation old v }
{
    match v >> 60 {
        0 | 8 => v,
        _ => old,
    }
}

fn debug_control(v: u64) -> u64
    ensures { result ≡ legal_debug_control v }
{
    match v % 4 {
        2 => DCSR_FIXED,
        mode => DCSR_FIXED + mode,
    }
}

/// The bits that a register with no rule of its own keeps.
fn bits_kept(num: u16) -> u64
    ensures { result ≡ kept_bits num }
{
    match num {
        MEDELEG => MEDELEG_BITS,
        MIDELEG => SUPERVISOR_INTERRUPTS,
        MIE => ALL_INTERRUPTS,
        MIP => SUPERVISOR_INTERRUPTS,
        MTVEC | STVEC => VECTOR_BITS,
        MCOUNTEREN | SCOUNTEREN => COUNTER_BITS,
        MENVCFG | SENVCFG => ENVCFG_FIOM,
        MEPC | SEPC | DPC => EVEN,
        _ => ALL_BITS,
    }
}
