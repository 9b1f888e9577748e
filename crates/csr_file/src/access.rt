//! Which accesses are allowed.
#![tactic(auto)]

ghost use Rattle.std.specs.Prelude.{◌≡◌, ◌≤◌, ◌||◌, not, nat_le};
ghost use Rattle.rv_alu.specs.Modes.{level};
ghost use Rattle.csr_file.specs.Access.{allows, effective_mode, is_enabled, is_present, is_trapped, may_access, may_count};
ghost use Rattle.csr_file.specs.Numbers.{is_debug_number, is_identity_number, is_listed, is_machine_counter, is_machine_number, is_protection_number, is_supervisor_number, is_user_counter, is_read_only, lowest_mode};

use crate::masks::MSTATUS_TVM;
use crate::numbers::{
    CYCLE, DCSR, DSCRATCH1, HPMCOUNTER_LAST, MCONFIGPTR, MCOUNTEREN, MCOUNTINHIBIT, MCYCLE,
    MENVCFG, MHPMCOUNTER_LAST, MHPMEVENT_FIRST, MHPMEVENT_LAST, MINSTRET, MIP, MSCRATCH, MSTATUS,
    MVENDORID, PMPADDR_FIRST, PMPADDR_LAST, PMPCFG_FIRST, PMPCFG_LAST, SATP, SCOUNTEREN, SENVCFG,
    SIE, SIP, SSCRATCH, SSTATUS,
};
use crate::registers::Registers;
use rv_alu::{Mode, has_bit};

fn names_supervisor(num: u16) -> bool
    ensures { result ≡ is_supervisor_number num }
{
    matches!(num, SSTATUS | SIE..=SCOUNTEREN | SENVCFG | SSCRATCH..=SIP | SATP)
}

fn names_protection(num: u16) -> bool
    ensures { result ≡ is_protection_number num }
{
    match num {
        PMPCFG_FIRST..=PMPCFG_LAST => num % 2 == 0,
        PMPADDR_FIRST..=PMPADDR_LAST => true,
        _ => false,
    }
}

fn names_machine(num: u16) -> bool
    ensures { result ≡ is_machine_number num }
{
    match num {
        MSTATUS..=MCOUNTEREN | MENVCFG | MCOUNTINHIBIT => true,
        MHPMEVENT_FIRST..=MHPMEVENT_LAST | MSCRATCH..=MIP => true,
        _ => names_protection(num),
    }
}

fn names_debug(num: u16) -> bool
    ensures { result ≡ is_debug_number num }
{
    matches!(num, DCSR..=DSCRATCH1)
}

fn names_machine_counter(num: u16) -> bool
    ensures { result ≡ is_machine_counter num }
{
    matches!(num, MCYCLE | MINSTRET..=MHPMCOUNTER_LAST)
}

fn names_user_counter(num: u16) -> bool
    ensures { result ≡ is_user_counter num }
{
    matches!(num, CYCLE..=HPMCOUNTER_LAST)
}

fn names_identity(num: u16) -> bool
    ensures { result ≡ is_identity_number num }
{
    matches!(num, MVENDORID..=MCONFIGPTR)
}

#[tactic(auto, unfolding(crate::specs::Numbers::is_listed))]
fn names_register(num: u16) -> bool
    ensures { result ≡ is_listed num }
{
    names_supervisor(num)
        || names_machine(num)
        || names_debug(num)
        || names_machine_counter(num)
        || names_user_counter(num)
        || names_identity(num)
}

/// Whether the bit of a counter is set in the enable register `enable`.
fn enables(enable: u64, counter: u16) -> bool
    requires first { CYCLE ≤ counter }
    requires last { counter ≤ HPMCOUNTER_LAST }
    ensures { result ≡ is_enabled enable counter }
{
    has_bit(enable, (counter - CYCLE) as u8)
}

/// Whether a register's number says that it is read-only: bits 11:10 are 3.
fn names_read_only(num: u16) -> bool
    ensures { result ≡ is_read_only num }
{
    num >> 10 & 3 == 3
}

/// Whether a mode may name the register by bits 9:8 of its number.
fn reaches(mode: Mode, num: u16) -> bool
    ensures { result ≡ nat_le (lowest_mode num) (level mode) }
{
    num >> 8 & 3 <= mode as u16
}

impl Registers {
    /// Whether register `num` is there.
    fn has(&self, num: u16) -> bool
        ensures { result ≡ is_present self.now num }
    {
        names_register(num) && (!names_debug(num) || self.debug.is_some())
    }

    /// Whether the bit TVM keeps `mode` away from register `num`.
    fn traps(&self, mode: Mode, num: u16) -> bool
        ensures { result ≡ is_trapped self.now mode num }
    {
        num == SATP && mode == Mode::S && self.kept.mstatus & MSTATUS_TVM != 0
    }

    /// Whether the counter may be read in `mode`.
    fn lets_count(&self, mode: Mode, counter: u16) -> bool
        requires first { CYCLE ≤ counter }
        requires last { counter ≤ HPMCOUNTER_LAST }
        ensures { result ≡ may_count self.now mode counter }
    {
        match mode {
            Mode::M => true,
            Mode::S => enables(self.kept.mcounteren, counter),
            Mode::U => enables(self.kept.mcounteren, counter)
                && enables(self.kept.scounteren, counter),
        }
    }

    /// Whether `mode` may read register `num` as far as it is a counter.
    fn lets_read(&self, mode: Mode, num: u16) -> bool
        ensures { result ≡ (not (is_user_counter num) || may_count self.now mode num) }
    {
        match num {
            CYCLE..=HPMCOUNTER_LAST => self.lets_count(mode, num),
            _ => true,
        }
    }

    /// Whether an access in `mode` is legal.
    #[tactic(auto, unfolding(crate::specs::Access::allows))]
    fn allows(&self, mode: Mode, num: u16, write: bool) -> bool
        ensures { result ≡ allows self.now mode num write }
    {
        self.has(num)
            && reaches(mode, num)
            && !(write && names_read_only(num))
            && !self.traps(mode, num)
            && self.lets_read(mode, num)
    }

    /// Whether an access is legal, where debug mode counts as machine mode.
    pub(crate) fn may(&self, num: u16, mode: Mode, write: bool) -> bool
        ensures { result ≡ may_access self.now mode num write }
    {
        let mode = if self.debug.is_some() { Mode::M } else { mode };
        self.allows(mode, num, write)
    }
}
