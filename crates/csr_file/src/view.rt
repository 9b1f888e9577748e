//! What instructions read of the registers, and what their writes leave.
#![tactic(auto, unfolding(crate::specs::View::view, crate::specs::View::base, crate::specs::View::is_volatile_number, crate::specs::View::volatile_bits, crate::specs::Write::changed_register, crate::specs::Write::asked_value, crate::specs::Write::written))]

ghost use Rattle.std.specs.Prelude.{◌≡◌};
ghost use Rattle.csr_file.specs.View.{base, is_volatile_number, view, volatile_bits};
ghost use Rattle.csr_file.specs.Write.{asked_value, changed_register, merged, written};

use crate::legal::legal_value;
use crate::masks::{
    ALL_BITS, MIP_LIVE, MISA_VALUE, SIP_LIVE, SSTATUS_BITS, SSTATUS_READ, SUPERVISOR_SOFTWARE,
};
use crate::numbers::{
    CYCLE, INSTRET, MCYCLE, MHARTID, MIE, MIP, MISA, MSTATUS, SIE, SIP, SSTATUS, TIME,
};
use crate::registers::Registers;

/// Whether register `num` has bits that are read from a given word.
pub(crate) fn has_volatile_bits(num: u16) -> bool
    ensures { result ≡ is_volatile_number num }
{
    bits_given(num) != 0
}

/// The bits of register `num` that are read from a given word.
pub(crate) fn bits_given(num: u16) -> u64
    ensures { result ≡ volatile_bits num }
{
    match num {
        CYCLE | TIME | MCYCLE => ALL_BITS,
        MIP => MIP_LIVE,
        SIP => SIP_LIVE,
        _ => 0,
    }
}

/// The register that a write to register `num` may change.
fn register_behind(num: u16) -> u16
    ensures { result ≡ changed_register num }
{
    match num {
        SSTATUS => MSTATUS,
        SIE => MIE,
        SIP => MIP,
        _ => num,
    }
}

/// `old` with the bits of `mask` taken from `v`.
pub fn merge(mask: u64, old: u64, v: u64) -> u64
    ensures { result ≡ merged mask old v }
{
    old & !mask | v & mask
}

impl Registers {
    /// What an instruction reads of register `num`, where its volatile bits are `given`.
    pub(crate) fn view(&self, num: u16, given: u64) -> u64
        ensures { result ≡ view self.now num given }
    {
        match num {
            SSTATUS => self.kept.mstatus & SSTATUS_READ,
            SIE => self.kept.mie & self.kept.mideleg,
            SIP => (self.kept.mip | given) & self.kept.mideleg,
            MIP => self.kept.mip | given,
            CYCLE | TIME | MCYCLE => given,
            INSTRET => self.kept.minstret,
            MISA => MISA_VALUE,
            MHARTID => u64::from(self.hart),
            _ => self.kept(num),
        }
    }

    /// What the set and clear forms work on.
    pub(crate) fn base(&self, num: u16, given: u64) -> u64
        ensures { result ≡ base self.now num given }
    {
        match num {
            MIP => self.kept.mip,
            SIP => self.kept.mip & self.kept.mideleg,
            _ => self.view(num, given),
        }
    }

    /// What a write of `v` to register `num` asks the register that it changes to keep.
    fn asked(&self, num: u16, v: u64) -> u64
        ensures { result ≡ asked_value num v self.now }
    {
        match num {
            SSTATUS => merge(SSTATUS_BITS, self.kept.mstatus, v),
            SIE => merge(self.kept.mideleg, self.kept.mie, v),
            SIP => {
                let delegated = self.kept.mideleg & SUPERVISOR_SOFTWARE;
                merge(delegated, self.kept.mip, v)
            }
            _ => v,
        }
    }

    /// Writes `v` to register `num`.
    pub(crate) fn write(&mut self, num: u16, v: u64)
        ensures { self.new ≡ written num v self.old }
    {
        let changed = register_behind(num);
        let legal = legal_value(changed, self.kept(changed), self.asked(num, v));
        self.put(changed, legal);
    }
}
