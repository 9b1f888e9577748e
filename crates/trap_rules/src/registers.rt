//! The registers of traps, read and written by name.
#![tactic(auto, unfolding(csr_file::specs::Legal::keeps_value, csr_file::specs::Legal::is_kept_number, csr_file::specs::Legal::kept_numbers, csr_file::specs::Kept::kept_in, csr_file::specs::Kept::kept_value, csr_file::specs::Numbers::is_listed))]

ghost use Rattle.std.specs.Prelude.{◌≡◌, ◌%◌};
ghost use Rattle.csr_file.specs.Numbers.{csr_mcause, csr_mepc, csr_mstatus, csr_mtval, csr_scause, csr_sepc, csr_stval};
ghost use Rattle.csr_file.specs.Write.{written};

use csr_file::CsrFile;
use csr_file::numbers::{
    MCAUSE, MEDELEG, MEPC, MIDELEG, MIE, MIP, MSTATUS, MTVAL, MTVEC, SCAUSE, SEPC, STVAL, STVEC,
};

/// The register `mstatus`.
pub fn mstatus(csrs: &CsrFile) -> u64
    ensures { result ≡ csrs.now.kept.mstatus }
{
    csrs.kept(MSTATUS)
}

pub(crate) fn medeleg(csrs: &CsrFile) -> u64
    ensures { result ≡ csrs.now.kept.medeleg }
{
    csrs.kept(MEDELEG)
}

pub(crate) fn mideleg(csrs: &CsrFile) -> u64
    ensures { result ≡ csrs.now.kept.mideleg }
{
    csrs.kept(MIDELEG)
}

/// The register `mie`.
pub fn mie(csrs: &CsrFile) -> u64
    ensures { result ≡ csrs.now.kept.mie }
{
    csrs.kept(MIE)
}

pub(crate) fn mip(csrs: &CsrFile) -> u64
    ensures { result ≡ csrs.now.kept.mip }
{
    csrs.kept(MIP)
}

pub(crate) fn mtvec(csrs: &CsrFile) -> u64
    ensures { result ≡ csrs.now.kept.mtvec }
{
    csrs.kept(MTVEC)
}

pub(crate) fn stvec(csrs: &CsrFile) -> u64
    ensures { result ≡ csrs.now.kept.stvec }
{
    csrs.kept(STVEC)
}

pub(crate) fn mepc(csrs: &CsrFile) -> u64
    ensures value { result ≡ csrs.now.kept.mepc }
    ensures even { result % 2 ≡ 0 }
{
    csrs.kept(MEPC)
}

pub(crate) fn sepc(csrs: &CsrFile) -> u64
    ensures value { result ≡ csrs.now.kept.sepc }
    ensures even { result % 2 ≡ 0 }
{
    csrs.kept(SEPC)
}

pub(crate) fn set_mstatus(csrs: &mut CsrFile, v: u64)
    ensures { csrs.new ≡ written csr_mstatus v csrs.old }
{
    csrs.set(MSTATUS, v);
}

pub(crate) fn set_mepc(csrs: &mut CsrFile, v: u64)
    ensures { csrs.new ≡ written csr_mepc v csrs.old }
{
    csrs.set(MEPC, v);
}

pub(crate) fn set_mcause(csrs: &mut CsrFile, v: u64)
    ensures { csrs.new ≡ written csr_mcause v csrs.old }
{
    csrs.set(MCAUSE, v);
}

pub(crate) fn set_mtval(csrs: &mut CsrFile, v: u64)
    ensures { csrs.new ≡ written csr_mtval v csrs.old }
{
    csrs.set(MTVAL, v);
}

pub(crate) fn set_sepc(csrs: &mut CsrFile, v: u64)
    ensures { csrs.new ≡ written csr_sepc v csrs.old }
{
    csrs.set(SEPC, v);
}

pub(crate) fn set_scause(csrs: &mut CsrFile, v: u64)
    ensures { csrs.new ≡ written csr_scause v csrs.old }
{
    csrs.set(SCAUSE, v);
}

pub(crate) fn set_stval(csrs: &mut CsrFile, v: u64)
    ensures { csrs.new ≡ written csr_stval v csrs.old }
{
    csrs.set(STVAL, v);
}
