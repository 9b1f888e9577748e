//! The modes in which a hart makes its accesses, and what they allow.

ghost use Rattle.std.specs.Prelude.{◌≡◌};
ghost use Rattle.hart_step.specs.Effects.{is_open, may_fence_translation, may_return_machine, may_return_supervisor, may_wait};
ghost use Rattle.hart_step.specs.Memory.{acting_mode, data_mode};

use crate::hart::Hart;
use csr_file::masks::{MSTATUS_MPRV, MSTATUS_TSR, MSTATUS_TVM, MSTATUS_TW};
use rv_alu::Mode;
use trap_rules::{has_any, machine_previous, mstatus};

impl Hart {
    /// The mode in which the hart fetches and carries out instructions: debug mode counts as machine
    /// mode.
    #[inline(always)]
    pub(crate) fn acting_mode(&self) -> Mode
        ensures { result ≡ acting_mode self.now }
    {
        if self.is_in_debug() {
            Mode::M
        } else {
            self.mode
        }
    }

    /// The mode in which the hart loads and stores (Privileged ISA, "Memory Privilege in mstatus
    /// Register").
    #[inline(always)]
    pub(crate) fn data_mode(&self) -> Mode
        ensures { result ≡ data_mode self.now }
    {
        if self.is_in_debug() {
            return Mode::M;
        }
        let status = mstatus(&self.csrs);
        if has_any(status, MSTATUS_MPRV) {
            machine_previous(status)
        } else {
            self.mode
        }
    }

    /// Whether `mret` is legal now.
    #[inline(never)]
    pub(crate) fn may_return_machine(&self) -> bool
        ensures { result ≡ may_return_machine self.now }
    {
        self.mode == Mode::M && !self.is_in_debug()
    }

    /// Whether `sret` is legal now.
    #[inline(never)]
    pub(crate) fn may_return_supervisor(&self) -> bool
        ensures { result ≡ may_return_supervisor self.now }
    {
        is_open(MSTATUS_TSR, mstatus(&self.csrs), self.mode) && !self.is_in_debug()
    }

    /// Whether `wfi` is legal now.
    #[inline(never)]
    pub(crate) fn may_wait(&self) -> bool
        ensures { result ≡ may_wait self.now }
    {
        self.acting_mode() == Mode::M || !has_any(mstatus(&self.csrs), MSTATUS_TW)
    }

    /// Whether `sfence.vma` is legal now.
    #[inline(never)]
    pub(crate) fn may_fence_translation(&self) -> bool
        ensures { result ≡ may_fence_translation self.now }
    {
        is_open(MSTATUS_TVM, mstatus(&self.csrs), self.acting_mode())
    }
}

/// Whether a mode may use what the bit `mask` of `mstatus` keeps from supervisor mode.
pub(crate) fn is_open(mask: u64, status: u64, mode: Mode) -> bool
    ensures { result ≡ is_open mask status mode }
{
    match mode {
        Mode::U => false,
        Mode::S => !has_any(status, mask),
        Mode::M => true,
    }
}
