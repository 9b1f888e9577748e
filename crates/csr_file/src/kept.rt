//! Reading and writing the kept values by register number.
#![tactic(auto, unfolding(crate::specs::Kept::kept_in, crate::specs::Kept::kept_from, crate::specs::Kept::debug_kept, crate::specs::Kept::debug_from, crate::specs::Kept::kept_value, crate::specs::Kept::with_kept))]

ghost use Rattle.std.specs.Prelude.{◌≡◌};
ghost use Rattle.csr_file.specs.Kept.{debug_from, debug_kept, kept_from, kept_in, kept_value, replaced, with_kept};

use crate::numbers::{
    DCSR, DPC, DSCRATCH0, DSCRATCH1, MCAUSE, MCOUNTEREN, MCYCLE, MEDELEG, MENVCFG, MEPC, MIDELEG,
    MIE, MINSTRET, MIP, MSCRATCH, MSTATUS, MTVAL, MTVEC, SATP, SCAUSE, SCOUNTEREN, SENVCFG, SEPC,
    SSCRATCH, STVAL, STVEC,
};
use crate::registers::{DebugRegs, KeptRegs, Registers};

impl DebugRegs {
    /// The value that register `num` keeps.
    fn kept(&self, num: u16) -> u64
        ensures { result ≡ debug_kept num self.now }
    {
        match num {
            DCSR => self.dcsr,
            DPC => self.dpc,
            DSCRATCH0 => self.dscratch0,
            DSCRATCH1 => self.dscratch1,
            _ => 0,
        }
    }

    /// Keeps `x` in register `num`.
    fn put(&mut self, num: u16, x: u64)
        ensures { self.new ≡ debug_from (replaced num x (λ n. debug_kept n self.old)) }
    {
        match num {
            DCSR => self.dcsr = x,
            DPC => self.dpc = x,
            DSCRATCH0 => self.dscratch0 = x,
            DSCRATCH1 => self.dscratch1 = x,
            _ => {}
        }
    }
}

impl KeptRegs {
    /// The value that register `num` keeps.
    fn kept(&self, num: u16) -> u64
        ensures { result ≡ kept_in num self.now }
    {
        match num {
            MSTATUS => self.mstatus,
            MEDELEG => self.medeleg,
            MIDELEG => self.mideleg,
            MIE => self.mie,
            MTVEC => self.mtvec,
            MCOUNTEREN => self.mcounteren,
            MENVCFG => self.menvcfg,
            MSCRATCH => self.mscratch,
            MEPC => self.mepc,
            MCAUSE => self.mcause,
            MTVAL => self.mtval,
            MIP => self.mip,
            STVEC => self.stvec,
            SCOUNTEREN => self.scounteren,
            SENVCFG => self.senvcfg,
            SSCRATCH => self.sscratch,
            SEPC => self.sepc,
            SCAUSE => self.scause,
            STVAL => self.stval,
            SATP => self.satp,
            MCYCLE => self.mcycle,
            MINSTRET => self.minstret,
            _ => 0,
        }
    }

    /// Keeps `x` in register `num`.
    fn put(&mut self, num: u16, x: u64)
        ensures { self.new ≡ kept_from (replaced num x (λ n. kept_in n self.old)) }
    {
        match num {
            MSTATUS => self.mstatus = x,
            MEDELEG => self.medeleg = x,
            MIDELEG => self.mideleg = x,
            MIE => self.mie = x,
            MTVEC => self.mtvec = x,
            MCOUNTEREN => self.mcounteren = x,
            MENVCFG => self.menvcfg = x,
            MSCRATCH => self.mscratch = x,
            MEPC => self.mepc = x,
            MCAUSE => self.mcause = x,
            MTVAL => self.mtval = x,
            MIP => self.mip = x,
            STVEC => self.stvec = x,
            SCOUNTEREN => self.scounteren = x,
            SENVCFG => self.senvcfg = x,
            SSCRATCH => self.sscratch = x,
            SEPC => self.sepc = x,
            SCAUSE => self.scause = x,
            STVAL => self.stval = x,
            SATP => self.satp = x,
            MCYCLE => self.mcycle = x,
            MINSTRET => self.minstret = x,
            _ => {}
        }
    }
}

impl Registers {
    /// The value that register `num` keeps.
    pub(crate) fn kept(&self, num: u16) -> u64
        ensures { result ≡ kept_value num self.now }
    {
        match num {
            DCSR..=DSCRATCH1 => match &self.debug {
                Some(debug) => debug.kept(num),
                None => 0,
            },
            _ => self.kept.kept(num),
        }
    }

    /// Keeps `x` in register `num`.
    pub(crate) fn put(&mut self, num: u16, x: u64)
        ensures { self.new ≡ with_kept num x self.old }
    {
        self.kept.put(num, x);
        if let Some(debug) = &mut self.debug {
            debug.put(num, x);
        }
    }
}
