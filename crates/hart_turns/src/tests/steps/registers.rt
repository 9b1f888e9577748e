//! Accesses to control and status registers, and what each mode may do.

use crate::tests::steps::Did::{Passed, Raised, Saw, Wrote};
use crate::tests::steps::{Before, Did, PLAIN, Row, run_counted, run_rows, try_in};
use hart_step::Priv;
use hart_step::Priv::{M, S, U};
use std::alloc::{AllocError, Global};
use std::process::Abort;

/// A word in a mode: mstatus and mcounteren before it, with 5 in scounteren, and what the step does.
type Legality = (Priv, u64, u64, u32, Did);

fn try_each(rt: &impl Abort, alloc: Global, rows: &[Legality]) -> Result<(), AllocError> {
    for &(mode, status, counters, word, did) in rows {
        let before = Before {
            mode,
            status,
            satp: 0,
            counters,
            x10: 0,
        };
        let _ = try_in(rt, alloc, before, word, &[], did)?;
    }
    Ok(())
}

#[test]
fn each_mode_may_do_what_the_manual_says(rt: HostRuntime) -> Result<(), AllocError> {
    try_each(&rt, rt.alloc(), &CALLS)?;
    try_each(&rt, rt.alloc(), &PRIVILEGED)?;
    try_each(&rt, rt.alloc(), &ACCESSES)?;
    Ok(())
}

#[test]
fn registers_are_read_and_written_by_each_form(rt: HostRuntime) -> Result<(), AllocError> {
    run_rows(&rt, rt.alloc(), PLAIN, &REGISTERS)?;
    run_counted(&rt, rt.alloc(), PLAIN, &VOLATILES, (9, 3))
}

/// Calls, breakpoints and words without a row.
static CALLS: [Legality; 15] = [
    (U, 0, 0, 0x0000_0073, Raised(8, 0)), // ecall
    (S, 0x800, 0, 0x0000_0073, Raised(9, 0)), // ecall
    (M, 0x1800, 0, 0x0000_0073, Raised(11, 0)), // ecall
    (U, 0, 0, 0x0010_0073, Raised(3, 0x8000_0030)), // ebreak
    (S, 0x800, 0, 0x0010_0073, Raised(3, 0x8000_0030)), // ebreak
    (M, 0x1800, 0, 0x0010_0073, Raised(3, 0x8000_0030)), // ebreak
    (U, 0, 0, 0x0000_9002, Raised(3, 0x8000_0030)), // c.ebreak
    (U, 0, 0, 0x7b20_0073, Raised(2, 0x7b20_0073)), // dret
    (S, 0x800, 0, 0x7b20_0073, Raised(2, 0x7b20_0073)), // dret
    (M, 0x1800, 0, 0x7b20_0073, Raised(2, 0x7b20_0073)), // dret
    (M, 0x1800, 0, 0x0000_0000, Raised(2, 0)), // .word 0x0000
    (U, 0, 0, 0x0000_2000, Raised(2, 0x2000)), // .word 0x2000
    (S, 0x800, 0, 0x0000_2007, Raised(2, 0x2007)), // .word 0x2007
    (M, 0x1800, 0, 0xffff_ffff, Raised(2, 0xffff_ffff)), // .word 0xffffffff
    (M, 0x1800, 0, 0x0000_9ff1, Raised(2, 0x9ff1)), // .word 0x9ff1
];

/// Returns, waits and fences of translation.
static PRIVILEGED: [Legality; 19] = [
    (U, 0, 0, 0x3020_0073, Raised(2, 0x3020_0073)), // mret
    (S, 0x800, 0, 0x3020_0073, Raised(2, 0x3020_0073)), // mret
    (M, 0x1800, 0, 0x3020_0073, Passed), // mret
    (U, 0, 0, 0x1020_0073, Raised(2, 0x1020_0073)), // sret
    (S, 0x800, 0, 0x1020_0073, Passed), // sret
    (S, 0x40_0800, 0, 0x1020_0073, Raised(2, 0x1020_0073)), // sret
    (S, 0x30_0800, 0, 0x1020_0073, Passed), // sret
    (M, 0x40_1800, 0, 0x1020_0073, Passed), // sret
    (U, 0, 0, 0x1050_0073, Passed), // wfi
    (U, 0x20_0000, 0, 0x1050_0073, Raised(2, 0x1050_0073)), // wfi
    (S, 0x800, 0, 0x1050_0073, Passed), // wfi
    (S, 0x20_0800, 0, 0x1050_0073, Raised(2, 0x1050_0073)), // wfi
    (S, 0x50_0800, 0, 0x1050_0073, Passed), // wfi
    (M, 0x20_1800, 0, 0x1050_0073, Passed), // wfi
    (U, 0, 0, 0x1200_0073, Raised(2, 0x1200_0073)), // sfence.vma x0,x0
    (S, 0x800, 0, 0x12b5_0073, Passed), // sfence.vma x10,x11
    (S, 0x10_0800, 0, 0x1200_0073, Raised(2, 0x1200_0073)), // sfence.vma x0,x0
    (S, 0x60_0800, 0, 0x1200_0073, Passed), // sfence.vma x0,x0
    (M, 0x10_1800, 0, 0x1200_0073, Passed), // sfence.vma x0,x0
];

/// Accesses to registers.
static ACCESSES: [Legality; 48] = [
    (U, 0, 7, 0x3000_2673, Raised(2, 0x3000_2673)), // csrrs x12,mstatus,x0
    (S, 0x800, 7, 0x3000_2673, Raised(2, 0x3000_2673)), // csrrs x12,mstatus,x0
    (M, 0x1800, 0, 0x3000_2673, Wrote(12, 0xa_0000_1800)), // csrrs x12,mstatus,x0
    (U, 0, 7, 0x1000_2673, Raised(2, 0x1000_2673)), // csrrs x12,sstatus,x0
    (S, 0x800, 0, 0x1000_2673, Wrote(12, 0x2_0000_0000)), // csrrs x12,sstatus,x0
    (S, 0x800, 0, 0x1401_d073, Passed), // csrrwi x0,sscratch,3
    (S, 0x800, 0, 0x1800_2673, Wrote(12, 0)), // csrrs x12,satp,x0
    (S, 0x10_0800, 0, 0x1800_2673, Raised(2, 0x1800_2673)), // csrrs x12,satp,x0
    (S, 0x10_0800, 0, 0x1800_1073, Raised(2, 0x1800_1073)), // csrrw x0,satp,x0
    (S, 0x60_0800, 0, 0x1800_1073, Passed), // csrrw x0,satp,x0
    (M, 0x10_1800, 0, 0x1800_2673, Wrote(12, 0)), // csrrs x12,satp,x0
    (U, 0, 0, 0x1800_2673, Raised(2, 0x1800_2673)), // csrrs x12,satp,x0
    (S, 0x800, 6, 0xc000_2673, Raised(2, 0xc000_2673)), // csrrs x12,cycle,x0
    (
        S,
        0x800,
        1,
        0xc000_2673,
        Saw(12, 0xf0e1_d2c3_b4a5_9687, 0xf0e1_d2c3_b4a5_9687),
    ), // csrrs x12,cycle,x0
    (
        U,
        0,
        1,
        0xc000_2673,
        Saw(12, 0xf0e1_d2c3_b4a5_9687, 0xf0e1_d2c3_b4a5_9687),
    ), // csrrs x12,cycle,x0
    (U, 0, 6, 0xc000_2673, Raised(2, 0xc000_2673)), // csrrs x12,cycle,x0
    (
        S,
        0x800,
        2,
        0xc010_2673,
        Saw(12, 0xf0e1_d2c3_b4a5_9687, 0xf0e1_d2c3_b4a5_9687),
    ), // csrrs x12,time,x0
    (S, 0x800, 5, 0xc010_2673, Raised(2, 0xc010_2673)), // csrrs x12,time,x0
    (U, 0, 7, 0xc010_2673, Raised(2, 0xc010_2673)), // csrrs x12,time,x0
    (U, 0, 4, 0xc020_2673, Wrote(12, 12)), // csrrs x12,instret,x0
    (S, 0x800, 3, 0xc020_2673, Raised(2, 0xc020_2673)), // csrrs x12,instret,x0
    (M, 0x1800, 0, 0xc020_2673, Wrote(12, 12)), // csrrs x12,instret,x0
    (
        M,
        0x1800,
        0,
        0xc000_2673,
        Saw(12, 0xf0e1_d2c3_b4a5_9687, 0xf0e1_d2c3_b4a5_9687),
    ), // csrrs x12,cycle,x0
    (M, 0x1800, 0, 0xc030_2673, Wrote(12, 0)), // csrrs x12,hpmcounter3,x0
    (S, 0x800, 7, 0xc030_2673, Raised(2, 0xc030_2673)), // csrrs x12,hpmcounter3,x0
    (M, 0x1800, 0, 0xc1f0_2673, Wrote(12, 0)), // csrrs x12,hpmcounter31,x0
    (M, 0x1800, 0, 0xb1f0_2673, Wrote(12, 0)), // csrrs x12,mhpmcounter31,x0
    (M, 0x1800, 0, 0xb030_d673, Wrote(12, 0)), // csrrwi x12,mhpmcounter3,1
    (M, 0x1800, 0, 0xc000_1673, Raised(2, 0xc000_1673)), // csrrw x12,cycle,x0
    (M, 0x1800, 0, 0xc000_5073, Raised(2, 0xc000_5073)), // csrrwi x0,cycle,0
    (M, 0x1800, 0, 0xf14f_a673, Raised(2, 0xf14f_a673)), // csrrs x12,mhartid,x31
    (M, 0x1800, 0, 0xf140_e673, Raised(2, 0xf140_e673)), // csrrsi x12,mhartid,1
    (M, 0x1800, 0, 0xf140_7673, Wrote(12, 0)), // csrrci x12,mhartid,0
    (M, 0x1800, 0, 0xc000_3073, Saw(0, 0, 0xf0e1_d2c3_b4a5_9687)), // csrrc x0,cycle,x0
    (M, 0x1800, 0, 0xf110_2673, Wrote(12, 0)), // csrrs x12,mvendorid,x0
    (M, 0x1800, 0, 0x301f_9073, Passed), // csrrw x0,misa,x31
    (M, 0x1800, 0, 0x0030_2673, Raised(2, 0x30_2673)), // csrrs x12,0x003,x0
    (M, 0x1800, 0, 0x3210_2673, Raised(2, 0x3210_2673)), // csrrs x12,0x321,x0
    (M, 0x1800, 0, 0xb010_2673, Raised(2, 0xb010_2673)), // csrrs x12,0xb01,x0
    (M, 0x1800, 0, 0x3a10_2673, Raised(2, 0x3a10_2673)), // csrrs x12,0x3a1,x0
    (M, 0x1800, 0, 0x3a20_2673, Wrote(12, 0)), // csrrs x12,pmpcfg2,x0
    (M, 0x1800, 0, 0x3f00_2673, Raised(2, 0x3f00_2673)), // csrrs x12,0x3f0,x0
    (M, 0x1800, 0, 0x7a00_2673, Raised(2, 0x7a00_2673)), // csrrs x12,0x7a0,x0
    (M, 0x1800, 0, 0xf160_2673, Raised(2, 0xf160_2673)), // csrrs x12,0xf16,x0
    (M, 0x1800, 0, 0x7b00_2673, Raised(2, 0x7b00_2673)), // csrrs x12,dcsr,x0
    (M, 0x1800, 0, 0x7b10_2673, Raised(2, 0x7b10_2673)), // csrrs x12,dpc,x0
    (M, 0x1800, 0, 0x7b20_2673, Raised(2, 0x7b20_2673)), // csrrs x12,dscratch0,x0
    (M, 0x1800, 0, 0x7b30_2673, Raised(2, 0x7b30_2673)), // csrrs x12,dscratch1,x0
];

/// Each form of access, with the registers and immediates that leave out the read or the write.
static REGISTERS: [Row; 40] = [
    (
        0,
        M,
        0x8000_0000,
        0xfff0_0293,
        Wrote(5, 0xffff_ffff_ffff_ffff),
    ), // addi x5,x0,-1
    (0, M, 0x8000_0004, 0x3402_9373, Wrote(6, 0)), // csrrw x6,mscratch,x5
    (
        0,
        M,
        0x8000_0008,
        0x3400_2373,
        Wrote(6, 0xffff_ffff_ffff_ffff),
    ), // csrrs x6,mscratch,x0
    (0, M, 0x8000_000c, 0x0550_0393, Wrote(7, 85)), // addi x7,x0,0x55
    (
        0,
        M,
        0x8000_0010,
        0x3403_b473,
        Wrote(8, 0xffff_ffff_ffff_ffff),
    ), // csrrc x8,mscratch,x7
    (
        0,
        M,
        0x8000_0014,
        0x3400_2473,
        Wrote(8, 0xffff_ffff_ffff_ffaa),
    ), // csrrs x8,mscratch,x0
    (0, M, 0x8000_0018, 0x3403_9073, Passed), // csrrw x0,mscratch,x7
    (0, M, 0x8000_001c, 0x3403_a473, Wrote(8, 85)), // csrrs x8,mscratch,x7
    (0, M, 0x8000_0020, 0x3405_64f3, Wrote(9, 85)), // csrrsi x9,mscratch,10
    (0, M, 0x8000_0024, 0x3407_f4f3, Wrote(9, 95)), // csrrci x9,mscratch,15
    (0, M, 0x8000_0028, 0x340f_d4f3, Wrote(9, 80)), // csrrwi x9,mscratch,31
    (0, M, 0x8000_002c, 0x3402_92f3, Wrote(5, 31)), // csrrw x5,mscratch,x5
    (
        0,
        M,
        0x8000_0030,
        0x3402_a2f3,
        Wrote(5, 0xffff_ffff_ffff_ffff),
    ), // csrrs x5,mscratch,x5
    (
        0,
        M,
        0x8000_0034,
        0x3402_b2f3,
        Wrote(5, 0xffff_ffff_ffff_ffff),
    ), // csrrc x5,mscratch,x5
    (0, M, 0x8000_0038, 0x3403_a073, Passed), // csrrs x0,mscratch,x7
    (0, M, 0x8000_003c, 0x3400_2473, Wrote(8, 85)), // csrrs x8,mscratch,x0
    (0, M, 0x8000_0040, 0x3400_7473, Wrote(8, 85)), // csrrci x8,mscratch,0
    (0, M, 0x8000_0044, 0x3400_6473, Wrote(8, 85)), // csrrsi x8,mscratch,0
    (
        0,
        M,
        0x8000_0048,
        0xfff0_0293,
        Wrote(5, 0xffff_ffff_ffff_ffff),
    ), // addi x5,x0,-1
    (0, M, 0x8000_004c, 0x3002_9073, Passed), // csrrw x0,mstatus,x5
    (0, M, 0x8000_0050, 0x3000_2373, Wrote(6, 0xa_007e_19aa)), // csrrs x6,mstatus,x0
    (0, M, 0x8000_0054, 0x1000_2373, Wrote(6, 0x2_000c_0122)), // csrrs x6,sstatus,x0
    (0, M, 0x8000_0058, 0x3051_d073, Passed), // csrrwi x0,mtvec,3
    (0, M, 0x8000_005c, 0x3050_2373, Wrote(6, 1)), // csrrs x6,mtvec,x0
    (0, M, 0x8000_0060, 0x0090_0413, Wrote(8, 9)), // addi x8,x0,9
    (
        0,
        M,
        0x8000_0064,
        0x03c4_1413,
        Wrote(8, 0x9000_0000_0000_0000),
    ), // slli x8,x8,60
    (0, M, 0x8000_0068, 0x1804_1073, Passed), // csrrw x0,satp,x8
    (0, M, 0x8000_006c, 0x1800_2373, Wrote(6, 0)), // csrrs x6,satp,x0
    (0, M, 0x8000_0070, 0x0110_0493, Wrote(9, 17)), // addi x9,x0,17
    (
        0,
        M,
        0x8000_0074,
        0x03b4_9493,
        Wrote(9, 0x8800_0000_0000_0000),
    ), // slli x9,x9,59
    (0, M, 0x8000_0078, 0x1804_9073, Passed), // csrrw x0,satp,x9
    (
        0,
        M,
        0x8000_007c,
        0x1804_1373,
        Wrote(6, 0x8800_0000_0000_0000),
    ), // csrrw x6,satp,x8
    (
        0,
        M,
        0x8000_0080,
        0x1800_2373,
        Wrote(6, 0x8800_0000_0000_0000),
    ), // csrrs x6,satp,x0
    (0, M, 0x8000_0084, 0x3022_9373, Wrote(6, 0)), // csrrw x6,medeleg,x5
    (0, M, 0x8000_0088, 0x3020_2373, Wrote(6, 0xb3ff)), // csrrs x6,medeleg,x0
    (0, M, 0x8000_008c, 0x3010_1073, Passed), // csrrw x0,misa,x0
    (
        0,
        M,
        0x8000_0090,
        0x3010_2373,
        Wrote(6, 0x8000_0000_0014_1105),
    ), // csrrs x6,misa,x0
    (0, M, 0x8000_0094, 0xf140_2373, Wrote(6, 0)), // csrrs x6,mhartid,x0
    (0, M, 0x8000_0098, 0x3b02_9373, Wrote(6, 0)), // csrrw x6,pmpaddr0,x5
    (0, M, 0x8000_009c, 0x3b00_2373, Wrote(6, 0)), // csrrs x6,pmpaddr0,x0
];

/// Volatile registers and counters; at the end mcycle is 9 and minstret 3.
static VOLATILES: [Row; 36] = [
    (
        0,
        M,
        0x8000_0000,
        0xfff0_0293,
        Wrote(5, 0xffff_ffff_ffff_ffff),
    ), // addi x5,x0,-1
    (
        0,
        M,
        0x8000_0004,
        0xb000_2373,
        Saw(6, 0xf0e1_d2c3_b4a5_9687, 0xf0e1_d2c3_b4a5_9687),
    ), // csrrs x6,mcycle,x0
    (
        0,
        M,
        0x8000_0008,
        0xb000_2073,
        Saw(0, 0, 0xf0e1_d2c3_b4a5_9687),
    ), // csrrs x0,mcycle,x0
    (0, M, 0x8000_000c, 0xb002_9073, Passed), // csrrw x0,mcycle,x5
    (
        0,
        M,
        0x8000_0010,
        0xb000_1373,
        Saw(6, 0xf0e1_d2c3_b4a5_9687, 0xf0e1_d2c3_b4a5_9687),
    ), // csrrw x6,mcycle,x0
    (0, M, 0x8000_0014, 0xb003_d073, Passed), // csrrwi x0,mcycle,7
    (
        0,
        M,
        0x8000_0018,
        0xc000_2373,
        Saw(6, 0xf0e1_d2c3_b4a5_9687, 0xf0e1_d2c3_b4a5_9687),
    ), // csrrs x6,cycle,x0
    (
        0,
        M,
        0x8000_001c,
        0xc010_2373,
        Saw(6, 0xf0e1_d2c3_b4a5_9687, 0xf0e1_d2c3_b4a5_9687),
    ), // csrrs x6,time,x0
    (0, M, 0x8000_0020, 0x3440_2373, Saw(6, 0x280, 0x280)), // csrrs x6,mip,x0
    (0, M, 0x8000_0024, 0x3442_9073, Passed), // csrrw x0,mip,x5
    (0, M, 0x8000_0028, 0x3440_2373, Saw(6, 0x2a2, 0x280)), // csrrs x6,mip,x0
    (0, M, 0x8000_002c, 0x3441_7373, Saw(6, 0x2a2, 0x280)), // csrrci x6,mip,2
    (0, M, 0x8000_0030, 0x3440_1373, Saw(6, 0x2a0, 0x280)), // csrrw x6,mip,x0
    (0, M, 0x8000_0034, 0x3441_6373, Saw(6, 0x280, 0x280)), // csrrsi x6,mip,2
    (0, M, 0x8000_0038, 0x3440_2373, Saw(6, 0x282, 0x280)), // csrrs x6,mip,x0
    (0, M, 0x8000_003c, 0x1440_2373, Saw(6, 0, 0x200)), // csrrs x6,sip,x0
    (0, M, 0x8000_0040, 0x3032_9073, Passed), // csrrw x0,mideleg,x5
    (0, M, 0x8000_0044, 0x3030_2373, Wrote(6, 0x222)), // csrrs x6,mideleg,x0
    (0, M, 0x8000_0048, 0x1440_2373, Saw(6, 0x202, 0x200)), // csrrs x6,sip,x0
    (0, M, 0x8000_004c, 0x1440_1373, Saw(6, 0x202, 0x200)), // csrrw x6,sip,x0
    (0, M, 0x8000_0050, 0x3440_2373, Saw(6, 0x280, 0x280)), // csrrs x6,mip,x0
    (0, M, 0x8000_0054, 0x1441_5073, Passed), // csrrwi x0,sip,2
    (0, M, 0x8000_0058, 0x3440_2373, Saw(6, 0x282, 0x280)), // csrrs x6,mip,x0
    (0, M, 0x8000_005c, 0x3042_9073, Passed), // csrrw x0,mie,x5
    (0, M, 0x8000_0060, 0x1040_2373, Wrote(6, 0x222)), // csrrs x6,sie,x0
    (0, M, 0x8000_0064, 0x1040_1373, Wrote(6, 0x222)), // csrrw x6,sie,x0
    (0, M, 0x8000_0068, 0x3040_2373, Wrote(6, 0x888)), // csrrs x6,mie,x0
    (0, M, 0x8000_006c, 0x1000_0393, Wrote(7, 0x100)), // addi x7,x0,0x100
    (0, M, 0x8000_0070, 0xb023_9073, Passed), // csrrw x0,minstret,x7
    (0, M, 0x8000_0074, 0xb020_2373, Wrote(6, 0x100)), // csrrs x6,minstret,x0
    (0, M, 0x8000_0078, 0xc020_2373, Wrote(6, 0x101)), // csrrs x6,instret,x0
    (0, M, 0x8000_007c, 0xb022_9373, Wrote(6, 0x102)), // csrrw x6,minstret,x5
    (
        0,
        M,
        0x8000_0080,
        0xb020_2373,
        Wrote(6, 0xffff_ffff_ffff_ffff),
    ), // csrrs x6,minstret,x0
    (0, M, 0x8000_0084, 0x0000_0013, Passed), // addi x0,x0,0
    (0, M, 0x8000_0088, 0xb020_2373, Wrote(6, 1)), // csrrs x6,minstret,x0
    (
        0,
        M,
        0x8000_008c,
        0xb004_d373,
        Saw(6, 0xf0e1_d2c3_b4a5_9687, 0xf0e1_d2c3_b4a5_9687),
    ), // csrrwi x6,mcycle,9
];
