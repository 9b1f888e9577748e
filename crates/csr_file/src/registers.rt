//! The registers of a hart as plain data.

/// The registers that a hart has in debug mode alone (External Debug Support, "Core Debug Registers").
#[derive(Clone, Copy, PartialEq, Eq, Debug)]
pub struct DebugRegs {
    /// Debug control and status: fixed bits, and in bits 1:0 the mode to which `dret` goes.
    pub dcsr: u64,
    /// The address at which `dret` goes on.
    pub dpc: u64,
    pub dscratch0: u64,
    pub dscratch1: u64,
}

/// The registers that a hart has in every mode, a field for each of the same name.
#[derive(Clone, Copy, Default)]
pub struct KeptRegs {
    pub mstatus: u64,
    pub medeleg: u64,
    pub mideleg: u64,
    pub mie: u64,
    pub mtvec: u64,
    pub mcounteren: u64,
    pub menvcfg: u64,
    pub mscratch: u64,
    pub mepc: u64,
    pub mcause: u64,
    pub mtval: u64,
    /// The interrupt bits that software sets; the live ones are the devices'.
    pub mip: u64,
    pub stvec: u64,
    pub scounteren: u64,
    pub senvcfg: u64,
    pub sscratch: u64,
    pub sepc: u64,
    pub scause: u64,
    pub stval: u64,
    pub satp: u64,
    pub mcycle: u64,
    pub minstret: u64,
}

/// The values that a hart keeps: what contracts see of a `CsrFile`.
#[derive(Drop)]
pub struct Registers {
    /// The hart's number, which `mhartid` reads.
    pub hart: u8,
    pub kept: KeptRegs,
    /// The debug registers, in debug mode.
    pub debug: Option<DebugRegs>,
}
