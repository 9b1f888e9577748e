//! Exceptions and interrupts, the handlers that they enter, and the returns.

use crate::tests::steps::Did::{Interrupted, Passed, Raised, Wrote};
use crate::tests::steps::{PLAIN, Row, Start, run_counted};
use hart_step::Priv::{M, S, U};
use std::alloc::AllocError;

#[test]
fn exceptions_go_where_they_are_delegated(rt: HostRuntime) -> Result<(), AllocError> {
    run_counted(&rt, rt.alloc(), PLAIN, &DELEGATION, (59, 54))?;
    run_counted(&rt, rt.alloc(), PLAIN, &MACHINE_CAUSES, (15, 12))
}

#[test]
fn interrupts_are_whole_steps(rt: HostRuntime) -> Result<(), AllocError> {
    run_counted(&rt, rt.alloc(), PLAIN, &SOFTWARE_INTERRUPTS, (31, 28))?;
    let start = Start {
        live: 0x880,
        ..PLAIN
    };
    run_counted(&rt, rt.alloc(), start, &LIVE_INTERRUPTS, (4, 3))?;
    run_counted(&rt, rt.alloc(), PLAIN, &EXTERNAL_INTERRUPT, (17, 16))
}

/// A supervisor external interrupt that software set in mip and that is delegated: machine mode, which set
/// SIE too, does not take it, and supervisor mode does.
static EXTERNAL_INTERRUPT: [Row; 17] = [
    (0, M, 0x8000_0000, 0x2000_0293, Wrote(5, 0x200)), // addi x5,x0,0x200
    (0, M, 0x8000_0004, 0x3032_9073, Passed), // csrrw x0,mideleg,x5
    (0, M, 0x8000_0008, 0x3042_9073, Passed), // csrrw x0,mie,x5
    (0, M, 0x8000_000c, 0x3442_9073, Passed), // csrrw x0,mip,x5
    (0, M, 0x8000_0010, 0x0000_0317, Wrote(6, 0x8000_0010)), // auipc x6,0
    (0, M, 0x8000_0014, 0x0403_0413, Wrote(8, 0x8000_0050)), // addi x8,x6,0x40
    (0, M, 0x8000_0018, 0x1054_1073, Passed), // csrrw x0,stvec,x8
    (0, M, 0x8000_001c, 0x0243_0313, Wrote(6, 0x8000_0034)), // addi x6,x6,0x24
    (0, M, 0x8000_0020, 0x3413_1073, Passed), // csrrw x0,mepc,x6
    (0, M, 0x8000_0024, 0x0000_13b7, Wrote(7, 0x1000)), // lui x7,1
    (0, M, 0x8000_0028, 0x8023_8393, Wrote(7, 0x802)), // addi x7,x7,-2046
    (0, M, 0x8000_002c, 0x3003_9073, Passed), // csrrw x0,mstatus,x7
    (0, M, 0x8000_0030, 0x3020_0073, Passed), // mret
    (0, S, 0x8000_0034, 0x0000_0000, Interrupted(9)), // an interrupt
    (
        0,
        S,
        0x8000_0050,
        0x1420_2573,
        Wrote(10, 0x8000_0000_0000_0009),
    ), // csrrs x10,scause,x0
    (0, S, 0x8000_0054, 0x1410_25f3, Wrote(11, 0x8000_0034)), // csrrs x11,sepc,x0
    (0, S, 0x8000_0058, 0x1000_2673, Wrote(12, 0x2_0000_0120)), // csrrs x12,sstatus,x0
];

/// User mode's calls and breakpoints are delegated: medeleg is 0x108. The rest goes to machine mode.
static DELEGATION: [Row; 59] = [
    (0, M, 0x8000_0000, 0x0000_0f97, Wrote(31, 0x8000_0000)), // auipc x31,0
    (0, M, 0x8000_0004, 0x200f_8293, Wrote(5, 0x8000_0200)), // addi x5,x31,0x200
    (0, M, 0x8000_0008, 0x3052_9073, Passed), // csrrw x0,mtvec,x5
    (0, M, 0x8000_000c, 0x400f_8293, Wrote(5, 0x8000_0400)), // addi x5,x31,0x400
    (0, M, 0x8000_0010, 0x1052_9073, Passed), // csrrw x0,stvec,x5
    (0, M, 0x8000_0014, 0x1080_0293, Wrote(5, 0x108)), // addi x5,x0,0x108
    (0, M, 0x8000_0018, 0x3022_9073, Passed), // csrrw x0,medeleg,x5
    (0, M, 0x8000_001c, 0x0820_0293, Wrote(5, 0x82)), // addi x5,x0,0x82
    (0, M, 0x8000_0020, 0x3002_9073, Passed), // csrrw x0,mstatus,x5
    (0, M, 0x8000_0024, 0x100f_8293, Wrote(5, 0x8000_0100)), // addi x5,x31,0x100
    (0, M, 0x8000_0028, 0x3412_9073, Passed), // csrrw x0,mepc,x5
    (0, M, 0x8000_002c, 0x3020_0073, Passed), // mret
    (0, U, 0x8000_0100, 0x0000_0073, Raised(8, 0)), // ecall
    (0, S, 0x8000_0400, 0x1420_2373, Wrote(6, 8)), // csrrs x6,scause,x0
    (0, S, 0x8000_0404, 0x1410_23f3, Wrote(7, 0x8000_0100)), // csrrs x7,sepc,x0
    (0, S, 0x8000_0408, 0x1430_2473, Wrote(8, 0)), // csrrs x8,stval,x0
    (0, S, 0x8000_040c, 0x1000_24f3, Wrote(9, 0x2_0000_0020)), // csrrs x9,sstatus,x0
    (0, S, 0x8000_0410, 0x0043_8393, Wrote(7, 0x8000_0104)), // addi x7,x7,4
    (0, S, 0x8000_0414, 0x1413_9073, Passed), // csrrw x0,sepc,x7
    (0, S, 0x8000_0418, 0x1020_0073, Passed), // sret
    (0, U, 0x8000_0104, 0x0010_0073, Raised(3, 0x8000_0104)), // ebreak
    (0, S, 0x8000_0400, 0x1420_2373, Wrote(6, 3)), // csrrs x6,scause,x0
    (0, S, 0x8000_0404, 0x1410_23f3, Wrote(7, 0x8000_0104)), // csrrs x7,sepc,x0
    (0, S, 0x8000_0408, 0x1430_2473, Wrote(8, 0x8000_0104)), // csrrs x8,stval,x0
    (0, S, 0x8000_040c, 0x1000_24f3, Wrote(9, 0x2_0000_0020)), // csrrs x9,sstatus,x0
    (0, S, 0x8000_0410, 0x0043_8393, Wrote(7, 0x8000_0108)), // addi x7,x7,4
    (0, S, 0x8000_0414, 0x1413_9073, Passed), // csrrw x0,sepc,x7
    (0, S, 0x8000_0418, 0x1020_0073, Passed), // sret
    (0, U, 0x8000_0108, 0xffff_ffff, Raised(2, 0xffff_ffff)), // .word 0xffffffff
    (0, M, 0x8000_0200, 0x3420_2573, Wrote(10, 2)), // csrrs x10,mcause,x0
    (0, M, 0x8000_0204, 0x3410_25f3, Wrote(11, 0x8000_0108)), // csrrs x11,mepc,x0
    (0, M, 0x8000_0208, 0x3430_2673, Wrote(12, 0xffff_ffff)), // csrrs x12,mtval,x0
    (0, M, 0x8000_020c, 0x3000_26f3, Wrote(13, 0xa_0000_00a2)), // csrrs x13,mstatus,x0
    (0, M, 0x8000_0210, 0x0045_8593, Wrote(11, 0x8000_010c)), // addi x11,x11,4
    (0, M, 0x8000_0214, 0x3415_9073, Passed), // csrrw x0,mepc,x11
    (0, M, 0x8000_0218, 0x0010_0713, Wrote(14, 1)), // addi x14,x0,1
    (0, M, 0x8000_021c, 0x00b7_1713, Wrote(14, 0x800)), // slli x14,x14,11
    (0, M, 0x8000_0220, 0x3007_2073, Passed), // csrrs x0,mstatus,x14
    (0, M, 0x8000_0224, 0x3020_0073, Passed), // mret
    (0, S, 0x8000_010c, 0x0000_0073, Raised(9, 0)), // ecall
    (0, M, 0x8000_0200, 0x3420_2573, Wrote(10, 9)), // csrrs x10,mcause,x0
    (0, M, 0x8000_0204, 0x3410_25f3, Wrote(11, 0x8000_010c)), // csrrs x11,mepc,x0
    (0, M, 0x8000_0208, 0x3430_2673, Wrote(12, 0)), // csrrs x12,mtval,x0
    (0, M, 0x8000_020c, 0x3000_26f3, Wrote(13, 0xa_0000_08a2)), // csrrs x13,mstatus,x0
    (0, M, 0x8000_0210, 0x0045_8593, Wrote(11, 0x8000_0110)), // addi x11,x11,4
    (0, M, 0x8000_0214, 0x3415_9073, Passed), // csrrw x0,mepc,x11
    (0, M, 0x8000_0218, 0x0010_0713, Wrote(14, 1)), // addi x14,x0,1
    (0, M, 0x8000_021c, 0x00b7_1713, Wrote(14, 0x800)), // slli x14,x14,11
    (0, M, 0x8000_0220, 0x3007_2073, Passed), // csrrs x0,mstatus,x14
    (0, M, 0x8000_0224, 0x3020_0073, Passed), // mret
    (0, S, 0x8000_0110, 0x0010_0073, Raised(3, 0x8000_0110)), // ebreak
    (0, S, 0x8000_0400, 0x1420_2373, Wrote(6, 3)), // csrrs x6,scause,x0
    (0, S, 0x8000_0404, 0x1410_23f3, Wrote(7, 0x8000_0110)), // csrrs x7,sepc,x0
    (0, S, 0x8000_0408, 0x1430_2473, Wrote(8, 0x8000_0110)), // csrrs x8,stval,x0
    (0, S, 0x8000_040c, 0x1000_24f3, Wrote(9, 0x2_0000_0120)), // csrrs x9,sstatus,x0
    (0, S, 0x8000_0410, 0x0043_8393, Wrote(7, 0x8000_0114)), // addi x7,x7,4
    (0, S, 0x8000_0414, 0x1413_9073, Passed), // csrrw x0,sepc,x7
    (0, S, 0x8000_0418, 0x1020_0073, Passed), // sret
    (0, S, 0x8000_0114, 0x0000_0001, Passed), // c.nop
];

/// In machine mode a delegated cause is not delegated; its handler raises the same again.
static MACHINE_CAUSES: [Row; 15] = [
    (0, M, 0x8000_0000, 0x0000_0f97, Wrote(31, 0x8000_0000)), // auipc x31,0
    (0, M, 0x8000_0004, 0x040f_8293, Wrote(5, 0x8000_0040)), // addi x5,x31,0x40
    (0, M, 0x8000_0008, 0x3052_9073, Passed), // csrrw x0,mtvec,x5
    (0, M, 0x8000_000c, 0x3024_5073, Passed), // csrrwi x0,medeleg,8
    (0, M, 0x8000_0010, 0x3004_5073, Passed), // csrrwi x0,mstatus,8
    (0, M, 0x8000_0014, 0x0000_0073, Raised(11, 0)), // ecall
    (0, M, 0x8000_0040, 0x3420_2573, Wrote(10, 11)), // csrrs x10,mcause,x0
    (0, M, 0x8000_0044, 0x3000_25f3, Wrote(11, 0xa_0000_1880)), // csrrs x11,mstatus,x0
    (0, M, 0x8000_0048, 0x3410_2673, Wrote(12, 0x8000_0014)), // csrrs x12,mepc,x0
    (0, M, 0x8000_004c, 0x0000_9002, Raised(3, 0x8000_004c)), // c.ebreak
    (0, M, 0x8000_0040, 0x3420_2573, Wrote(10, 3)), // csrrs x10,mcause,x0
    (0, M, 0x8000_0044, 0x3000_25f3, Wrote(11, 0xa_0000_1800)), // csrrs x11,mstatus,x0
    (0, M, 0x8000_0048, 0x3410_2673, Wrote(12, 0x8000_004c)), // csrrs x12,mepc,x0
    (0, M, 0x8000_004c, 0x0000_9002, Raised(3, 0x8000_004c)), // c.ebreak
    (0, M, 0x8000_0040, 0x3420_2573, Wrote(10, 3)), // csrrs x10,mcause,x0
];

/// Supervisor software interrupts: to machine mode first, then delegated, and in supervisor mode with
/// SIE. The vectors are at bases of bit 0 set.
static SOFTWARE_INTERRUPTS: [Row; 31] = [
    (0, M, 0x8000_0000, 0x0000_0f97, Wrote(31, 0x8000_0000)), // auipc x31,0
    (0, M, 0x8000_0004, 0x201f_8293, Wrote(5, 0x8000_0201)), // addi x5,x31,0x201
    (0, M, 0x8000_0008, 0x3052_9073, Passed), // csrrw x0,mtvec,x5
    (0, M, 0x8000_000c, 0x401f_8293, Wrote(5, 0x8000_0401)), // addi x5,x31,0x401
    (0, M, 0x8000_0010, 0x1052_9073, Passed), // csrrw x0,stvec,x5
    (0, M, 0x8000_0014, 0x2220_0293, Wrote(5, 0x222)), // addi x5,x0,0x222
    (0, M, 0x8000_0018, 0x3042_9073, Passed), // csrrw x0,mie,x5
    (0, M, 0x8000_001c, 0x3441_5073, Passed), // csrrwi x0,mip,2
    (0, M, 0x8000_0020, 0x100f_8293, Wrote(5, 0x8000_0100)), // addi x5,x31,0x100
    (0, M, 0x8000_0024, 0x3412_9073, Passed), // csrrw x0,mepc,x5
    (0, M, 0x8000_0028, 0x3020_0073, Passed), // mret
    (0, U, 0x8000_0100, 0x0000_0000, Interrupted(1)), // an interrupt
    (
        0,
        M,
        0x8000_0204,
        0x3420_2573,
        Wrote(10, 0x8000_0000_0000_0001),
    ), // csrrs x10,mcause,x0
    (0, M, 0x8000_0208, 0x3410_25f3, Wrote(11, 0x8000_0100)), // csrrs x11,mepc,x0
    (0, M, 0x8000_020c, 0x3430_2673, Wrote(12, 0)), // csrrs x12,mtval,x0
    (0, M, 0x8000_0210, 0x3000_26f3, Wrote(13, 0xa_0000_0000)), // csrrs x13,mstatus,x0
    (0, M, 0x8000_0214, 0x3031_5073, Passed), // csrrwi x0,mideleg,2
    (0, M, 0x8000_0218, 0x3020_0073, Passed), // mret
    (0, U, 0x8000_0100, 0x0000_0000, Interrupted(1)), // an interrupt
    (
        0,
        S,
        0x8000_0404,
        0x1420_2373,
        Wrote(6, 0x8000_0000_0000_0001),
    ), // csrrs x6,scause,x0
    (0, S, 0x8000_0408, 0x1410_23f3, Wrote(7, 0x8000_0100)), // csrrs x7,sepc,x0
    (0, S, 0x8000_040c, 0x1430_2473, Wrote(8, 0)), // csrrs x8,stval,x0
    (0, S, 0x8000_0410, 0x1000_24f3, Wrote(9, 0x2_0000_0000)), // csrrs x9,sstatus,x0
    (0, S, 0x8000_0414, 0x0200_0293, Wrote(5, 32)), // addi x5,x0,0x20
    (0, S, 0x8000_0418, 0x1002_a073, Passed), // csrrs x0,sstatus,x5
    (0, S, 0x8000_041c, 0x102f_8293, Wrote(5, 0x8000_0102)), // addi x5,x31,0x102
    (0, S, 0x8000_0420, 0x1412_9073, Passed), // csrrw x0,sepc,x5
    (0, S, 0x8000_0424, 0x1001_5073, Passed), // csrrwi x0,sstatus,2
    (0, S, 0x8000_0428, 0x0000_0000, Interrupted(1)), // an interrupt
    (
        0,
        S,
        0x8000_0404,
        0x1420_2373,
        Wrote(6, 0x8000_0000_0000_0001),
    ), // csrrs x6,scause,x0
    (0, S, 0x8000_0408, 0x1410_23f3, Wrote(7, 0x8000_0428)), // csrrs x7,sepc,x0
];

/// Two live signals, taken before a fetch that would fail: external first, then timer; then at a plain
/// base.
static LIVE_INTERRUPTS: [Row; 30] = [
    (0, M, 0x8000_0000, 0x0000_0f97, Wrote(31, 0x8000_0000)), // auipc x31,0
    (0, M, 0x8000_0004, 0x201f_8293, Wrote(5, 0x8000_0201)), // addi x5,x31,0x201
    (0, M, 0x8000_0008, 0x3052_9073, Passed), // csrrw x0,mtvec,x5
    (0, M, 0x8000_000c, 0x0010_0293, Wrote(5, 1)), // addi x5,x0,1
    (0, M, 0x8000_0010, 0x00b2_9293, Wrote(5, 0x800)), // slli x5,x5,11
    (0, M, 0x8000_0014, 0x0802_8293, Wrote(5, 0x880)), // addi x5,x5,0x80
    (0, M, 0x8000_0018, 0x3042_9073, Passed), // csrrw x0,mie,x5
    (0, M, 0x8000_001c, 0x3418_5073, Passed), // csrrwi x0,mepc,0x10
    (0, M, 0x8000_0020, 0x0800_0313, Wrote(6, 0x80)), // addi x6,x0,0x80
    (0, M, 0x8000_0024, 0x3003_2073, Passed), // csrrs x0,mstatus,x6
    (0, M, 0x8000_0028, 0x0030_0393, Wrote(7, 3)), // addi x7,x0,3
    (0, M, 0x8000_002c, 0x00b3_9393, Wrote(7, 0x1800)), // slli x7,x7,11
    (0, M, 0x8000_0030, 0x3003_a073, Passed), // csrrs x0,mstatus,x7
    (0, M, 0x8000_0034, 0x3020_0073, Passed), // mret
    (0, M, 16, 0x0000_0000, Interrupted(11)), // an interrupt
    (
        0,
        M,
        0x8000_022c,
        0x3420_2573,
        Wrote(10, 0x8000_0000_0000_000b),
    ), // csrrs x10,mcause,x0
    (0, M, 0x8000_0230, 0x3410_25f3, Wrote(11, 16)), // csrrs x11,mepc,x0
    (0, M, 0x8000_0234, 0x3430_2673, Wrote(12, 0)), // csrrs x12,mtval,x0
    (0, M, 0x8000_0238, 0x3043_b073, Passed), // csrrc x0,mie,x7
    (0, M, 0x8000_023c, 0x3004_6073, Passed), // csrrsi x0,mstatus,8
    (0, M, 0x8000_0240, 0x0000_0000, Interrupted(7)), // an interrupt
    (0, M, 0x8000_021c, 0x1000_006f, Passed), // jal x0,0x100
    (
        0,
        M,
        0x8000_031c,
        0x3420_2573,
        Wrote(10, 0x8000_0000_0000_0007),
    ), // csrrs x10,mcause,x0
    (0, M, 0x8000_0320, 0x3410_25f3, Wrote(11, 0x8000_0240)), // csrrs x11,mepc,x0
    (0, M, 0x8000_0324, 0xb020_1073, Passed), // csrrw x0,minstret,x0
    (0, M, 0x8000_0328, 0xb000_1073, Passed), // csrrw x0,mcycle,x0
    (0, M, 0x8000_032c, 0x3050_5073, Passed), // csrrwi x0,mtvec,0
    (0, M, 0x8000_0330, 0x3004_6073, Passed), // csrrsi x0,mstatus,8
    (0, M, 0x8000_0334, 0x0000_0000, Interrupted(7)), // an interrupt
    (0, M, 0, 0x0000_0000, Raised(1, 0)),
];
