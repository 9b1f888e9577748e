//! Masks and constants of the registers' bits.

/// The bits of `mstatus` that a write changes: SIE 1, MIE 3, SPIE 5, MPIE 7, SPP 8, MPP 12:11,
/// MPRV 17, SUM 18, MXR 19, TVM 20, TW 21 and TSR 22.
pub const MSTATUS_BITS: u64 = 0x7e_19aa;
/// The bit SIE of `mstatus`: interrupts are enabled in supervisor mode.
pub const MSTATUS_SIE: u64 = 0x2;
/// The bit MIE of `mstatus`: interrupts are enabled in machine mode.
pub const MSTATUS_MIE: u64 = 0x8;
/// The bit SPIE of `mstatus`: SIE before the trap.
pub const MSTATUS_SPIE: u64 = 0x20;
/// The bit MPIE of `mstatus`: MIE before the trap.
pub const MSTATUS_MPIE: u64 = 0x80;
/// The bit SPP of `mstatus`: the mode before the trap into supervisor mode.
pub const MSTATUS_SPP: u64 = 0x100;
/// The field MPP of `mstatus`, bits 12:11: the mode before the trap into machine mode.
pub const MSTATUS_MPP: u64 = 0x1800;
/// The field MPP at 2, which is no mode.
pub const MSTATUS_MPP_RESERVED: u64 = 0x1000;
/// SXL and UXL of `mstatus` at 2, which says 64 bits.
pub const MSTATUS_XLEN: u64 = 0xa_0000_0000;
/// The bit MPRV of `mstatus`: loads and stores go by the mode in MPP.
pub const MSTATUS_MPRV: u64 = 0x2_0000;
/// The bit SUM of `mstatus`: supervisor mode may load from and store to pages of user mode.
pub const MSTATUS_SUM: u64 = 0x4_0000;
/// The bit MXR of `mstatus`: loads may read pages that can only be executed.
pub const MSTATUS_MXR: u64 = 0x8_0000;
/// The bit TVM of `mstatus`, which keeps supervisor mode from `satp` and `sfence.vma`.
pub const MSTATUS_TVM: u64 = 0x10_0000;
/// The bit TW of `mstatus`, which keeps the modes below machine mode from `wfi`.
pub const MSTATUS_TW: u64 = 0x20_0000;
/// The bit TSR of `mstatus`, which keeps supervisor mode from `sret`.
pub const MSTATUS_TSR: u64 = 0x40_0000;
/// The bits of `mstatus` that `sstatus` writes: SIE, SPIE, SPP, SUM and MXR.
pub const SSTATUS_BITS: u64 = 0xc_0122;
/// The bits of `mstatus` that `sstatus` reads: those, and UXL in bits 33:32.
pub const SSTATUS_READ: u64 = 0x3_000c_0122;
/// RV64 with the extensions A, C, I, M and the modes S and U.
pub const MISA_VALUE: u64 = 0x8000_0000_0014_1105;
/// The exceptions that can be delegated.
pub const MEDELEG_BITS: u64 = 0xb3ff;
/// The supervisor interrupts SSI 1, STI 5 and SEI 9, which can be delegated and set by software.
pub const SUPERVISOR_INTERRUPTS: u64 = 0x222;
/// The machine interrupts MSI 3, MTI 7 and MEI 11, and the supervisor interrupts.
pub const ALL_INTERRUPTS: u64 = 0xaaa;
/// The bit of the supervisor software interrupt, which alone `sip` writes.
pub const SUPERVISOR_SOFTWARE: u64 = 0x2;
/// The bits of `mip` that devices drive: MSI 3, MTI 7, SEI 9 and MEI 11.
pub const MIP_LIVE: u64 = 0xa88;
/// The bits of `sip` that devices drive: SEI 9.
pub const SIP_LIVE: u64 = 0x200;
/// The counters with an enable bit: cycle 0, time 1 and instret 2.
pub const COUNTER_BITS: u64 = 0x7;
/// The bit FIOM of `menvcfg` and `senvcfg`.
pub const ENVCFG_FIOM: u64 = 0x1;
/// All but bit 0.
pub const EVEN: u64 = 0xffff_ffff_ffff_fffe;
/// All but bit 1, which leaves the modes 0 and 1 of a trap vector.
pub const VECTOR_BITS: u64 = 0xffff_ffff_ffff_fffd;
/// All bits of a register.
pub const ALL_BITS: u64 = 0xffff_ffff_ffff_ffff;
/// `dcsr` without its prv: xdebugver 4, stopcount, stoptime and cause 3.
pub const DCSR_FIXED: u64 = 0x4000_06c0;
