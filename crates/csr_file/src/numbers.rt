//! The numbers of the control and status registers (Privileged ISA, "CSR Listing"; External Debug
//! Support, "Core Debug Registers").

// Supervisor registers, with number bits 9:8 at 1.

/// Supervisor status: a view of `mstatus`.
pub const SSTATUS: u16 = 0x100;

/// Supervisor interrupt enables: a view of `mie`.
pub const SIE: u16 = 0x104;

/// Supervisor trap vector.
pub const STVEC: u16 = 0x105;

/// Counters that user mode may read.
pub const SCOUNTEREN: u16 = 0x106;

/// Supervisor environment configuration.
pub const SENVCFG: u16 = 0x10a;

/// Supervisor scratch.
pub const SSCRATCH: u16 = 0x140;

/// Supervisor exception program counter.
pub const SEPC: u16 = 0x141;

/// Supervisor trap cause.
pub const SCAUSE: u16 = 0x142;

/// Supervisor trap value.
pub const STVAL: u16 = 0x143;

/// Supervisor interrupts pending: a view of `mip`.
pub const SIP: u16 = 0x144;

/// Address translation and protection.
pub const SATP: u16 = 0x180;

// Machine registers, with number bits 9:8 at 3.

/// Machine status.
pub const MSTATUS: u16 = 0x300;

/// The instruction set.
pub const MISA: u16 = 0x301;

/// Exceptions that go to supervisor mode.
pub const MEDELEG: u16 = 0x302;

/// Interrupts that go to supervisor mode.
pub const MIDELEG: u16 = 0x303;

/// Machine interrupt enables.
pub const MIE: u16 = 0x304;

/// Machine trap vector.
pub const MTVEC: u16 = 0x305;

/// Counters that the modes below machine mode may read.
pub const MCOUNTEREN: u16 = 0x306;

/// Machine environment configuration.
pub const MENVCFG: u16 = 0x30a;

/// Counters that are stopped: none ever is.
pub const MCOUNTINHIBIT: u16 = 0x320;

/// The first event selector, `mhpmevent3`; the last is `mhpmevent31`.
pub const MHPMEVENT_FIRST: u16 = 0x323;

/// The last event selector.
pub const MHPMEVENT_LAST: u16 = 0x33f;

/// Machine scratch.
pub const MSCRATCH: u16 = 0x340;

/// Machine exception program counter.
pub const MEPC: u16 = 0x341;

/// Machine trap cause.
pub const MCAUSE: u16 = 0x342;

/// Machine trap value.
pub const MTVAL: u16 = 0x343;

/// Machine interrupts pending.
pub const MIP: u16 = 0x344;

/// The first `pmpcfg`. On RV64 those with an odd number do not exist.
pub const PMPCFG_FIRST: u16 = 0x3a0;

/// The last `pmpcfg`.
pub const PMPCFG_LAST: u16 = 0x3ae;

/// The first `pmpaddr`.
pub const PMPADDR_FIRST: u16 = 0x3b0;

/// The last `pmpaddr`.
pub const PMPADDR_LAST: u16 = 0x3ef;

// Registers of debug mode.

/// Debug control and status.
pub const DCSR: u16 = 0x7b0;

/// Debug program counter.
pub const DPC: u16 = 0x7b1;

/// First debug scratch.
pub const DSCRATCH0: u16 = 0x7b2;

/// Second debug scratch.
pub const DSCRATCH1: u16 = 0x7b3;

// Counters.

/// Cycles counted.
pub const MCYCLE: u16 = 0xb00;

/// Instructions retired.
pub const MINSTRET: u16 = 0xb02;

/// The last machine counter, `mhpmcounter31`.
pub const MHPMCOUNTER_LAST: u16 = 0xb1f;

/// The cycle counter, a view of `mcycle`.
pub const CYCLE: u16 = 0xc00;

/// The time, a view of the timer.
pub const TIME: u16 = 0xc01;

/// The counter of retired instructions, a view of `minstret`.
pub const INSTRET: u16 = 0xc02;

/// The last counter that is readable below machine mode, `hpmcounter31`.
pub const HPMCOUNTER_LAST: u16 = 0xc1f;

// What the hart is; these are read-only.

/// The vendor, 0.
pub const MVENDORID: u16 = 0xf11;

/// The microarchitecture, 0.
pub const MARCHID: u16 = 0xf12;

/// The implementation, 0.
pub const MIMPID: u16 = 0xf13;

/// The hart's number.
pub const MHARTID: u16 = 0xf14;

/// The configuration data, 0 for none.
pub const MCONFIGPTR: u16 = 0xf15;
