//! Fetches, loads and stores: what answers them, and the exceptions where nothing does.

use crate::tests::steps::Did::{Forgot, Loaded, Passed, Raised, Remembers, Stored, Updated, Wrote};
use crate::tests::steps::{
    Before, Did, PLAIN, Row, SATP, Word, reserves, run_counted, run_rows, try_in, try_rows,
    with_data,
};
use hart_step::Priv;
use hart_step::Priv::{M, S};
use std::alloc::{AllocError, Global};
use std::process::Abort;

/// A word in a mode: mstatus and x10 before it, and what the step does.
type Translated = (Priv, u64, u64, u32, Did);

fn under_pages(mode: Priv, status: u64, x10: u64) -> Before {
    Before {
        mode,
        status,
        satp: SATP,
        counters: 0,
        x10,
    }
}

fn try_each(rt: &impl Abort, alloc: Global, rows: &[Translated]) -> Result<(), AllocError> {
    for &(mode, status, x10, word, did) in rows {
        let before = under_pages(mode, status, x10);
        let _ = try_in(rt, alloc, before, word, &PAGES, did)?;
    }
    Ok(())
}

#[test]
fn fetches_are_answered_parcel_by_parcel(rt: HostRuntime) -> Result<(), AllocError> {
    run_counted(&rt, rt.alloc(), PLAIN, &FETCHES, (11, 9))?;
    run_rows(&rt, rt.alloc(), PLAIN, &LAST_HALFWORD)?;
    run_rows(&rt, rt.alloc(), PLAIN, &LAST_WORD)?;
    run_rows(&rt, rt.alloc(), PLAIN, &ROM_ADDRESS)?;
    let half = with_data(1, &HALF_A_WORD);
    run_rows(&rt, rt.alloc(), half, &SECOND_PARCEL)?;
    let paged = with_data(1, &FETCH_PAGES);
    run_counted(&rt, rt.alloc(), paged, &VIRTUAL_FETCHES, (46, 41))
}

#[test]
fn data_are_aligned_and_answered_by_memory_or_a_device(rt: HostRuntime) -> Result<(), AllocError> {
    try_rows(&rt, rt.alloc(), &MISALIGNED)?;
    try_rows(&rt, rt.alloc(), &NOTHING_THERE)?;
    try_rows(&rt, rt.alloc(), &DEVICES)?;
    Ok(())
}

#[test]
fn data_are_translated_by_the_tables(rt: HostRuntime) -> Result<(), AllocError> {
    try_each(&rt, rt.alloc(), &TRANSLATED)?;
    let changed = with_data(1, &REMAPPED_PAGES);
    run_rows(&rt, rt.alloc(), changed, &REMAPPED)
}

#[test]
fn a_reservation_is_of_physical_bytes(rt: HostRuntime) -> Result<(), AllocError> {
    // lr.w x12,(x10)
    let before = under_pages(Priv::S, 0x800, 0x4000_000c);
    let did = Did::Wrote(12, 0xffff_ffff_9122_3344);
    let core = try_in(&rt, rt.alloc(), before, 0x1005_262f, &PAGES, did)?;
    reserves(&rt, &core, 0, Some(0x8000_3008), 13);
    Ok(())
}

/// Page tables from 0x80001000 on: 0x40000000 and on by pages, 0x80000000 and on as they are, and 0xc0000000 by a
/// table outside RAM; then the data of the page at 0x80003000.
static PAGES: [(u64, u64); 15] = [
    (0x8000_1008, 0x0000_0000_2000_0801),
    (0x8000_1010, 0x0000_0000_2000_00cf),
    (0x8000_1018, 0x0000_0000_2400_0001),
    (0x8000_1000, 0x0000_0000_2000_048f),
    (0x8000_2000, 0x0000_0000_2000_1001),
    (0x8000_4000, 0x0000_0000_2000_0ccf),
    (0x8000_4010, 0x0000_0000_2000_0cdf),
    (0x8000_4018, 0x0000_0000_2000_0c49),
    (0x8000_4020, 0x0000_0000_2000_0c43),
    (0x8000_4028, 0x0000_0000_0400_00cf),
    (0x8000_4030, 0x0000_0000_2400_00cf),
    (0x8000_4038, 0x0000_0000_2000_0c4f),
    (0x8000_4040, 0x0000_0000_2000_0c8f),
    (0x8000_3008, 0x9122_3344_f566_7788),
    (0x8000_3000, 0x1685_0403_0201_807f),
];

static FETCH_PAGES: [(u64, u64); 17] = [
    (0x8000_1008, 0x0000_0000_2000_0801),
    (0x8000_1010, 0x0000_0000_2000_00cf),
    (0x8000_1018, 0x0000_0000_2400_0001),
    (0x8000_1000, 0x0000_0000_2000_048f),
    (0x8000_2000, 0x0000_0000_2000_1001),
    (0x8000_4000, 0x0000_0000_2000_0ccf),
    (0x8000_4010, 0x0000_0000_2000_0cdf),
    (0x8000_4018, 0x0000_0000_2000_0c49),
    (0x8000_4020, 0x0000_0000_2000_0c43),
    (0x8000_4028, 0x0000_0000_0400_00cf),
    (0x8000_4030, 0x0000_0000_2400_00cf),
    (0x8000_4038, 0x0000_0000_2000_0c4f),
    (0x8000_4040, 0x0000_0000_2000_0c8f),
    (0x8000_3008, 0x9122_3344_f566_7788),
    (0x8000_3000, 0x1685_0403_0201_807f),
    (0x8000_0110, 0x8000_0000_0008_0001),
    (0x8000_3ff8, 0x0013_0000_0000_0000),
];

static REMAPPED_PAGES: [(u64, u64); 17] = [
    (0x8000_1008, 0x0000_0000_2000_0801),
    (0x8000_1010, 0x0000_0000_2000_00cf),
    (0x8000_1018, 0x0000_0000_2400_0001),
    (0x8000_1000, 0x0000_0000_2000_048f),
    (0x8000_2000, 0x0000_0000_2000_1001),
    (0x8000_4000, 0x0000_0000_2000_0ccf),
    (0x8000_4010, 0x0000_0000_2000_0cdf),
    (0x8000_4018, 0x0000_0000_2000_0c49),
    (0x8000_4020, 0x0000_0000_2000_0c43),
    (0x8000_4028, 0x0000_0000_0400_00cf),
    (0x8000_4030, 0x0000_0000_2400_00cf),
    (0x8000_4038, 0x0000_0000_2000_0c4f),
    (0x8000_4040, 0x0000_0000_2000_0c8f),
    (0x8000_3008, 0x9122_3344_f566_7788),
    (0x8000_3000, 0x1685_0403_0201_807f),
    (0x8000_0110, 0x8000_0000_0008_0001),
    (0x8000_0118, 0x0000_0000_2000_04cf),
];

/// Fetches outside RAM: of address 0, and of the last halfword of all.
static FETCHES: [Row; 11] = [
    (0, M, 0x8000_0000, 0x0000_0f97, Wrote(31, 0x8000_0000)), // auipc x31,0
    (0, M, 0x8000_0004, 0x040f_8293, Wrote(5, 0x8000_0040)), // addi x5,x31,0x40
    (0, M, 0x8000_0008, 0x3052_9073, Passed), // csrrw x0,mtvec,x5
    (0, M, 0x8000_000c, 0x0000_00e7, Wrote(1, 0x8000_0010)), // jalr x1,0(x0)
    (0, M, 0, 0x0000_0000, Raised(1, 0)),
    (0, M, 0x8000_0040, 0x3410_2373, Wrote(6, 0)), // csrrs x6,mepc,x0
    (0, M, 0x8000_0044, 0x3430_23f3, Wrote(7, 0)), // csrrs x7,mtval,x0
    (0, M, 0x8000_0048, 0xffe0_00e7, Wrote(1, 0x8000_004c)), // jalr x1,-2(x0)
    (
        0,
        M,
        0xffff_ffff_ffff_fffe,
        0x0000_0000,
        Raised(1, 0xffff_ffff_ffff_fffe),
    ),
    (
        0,
        M,
        0x8000_0040,
        0x3410_2373,
        Wrote(6, 0xffff_ffff_ffff_fffe),
    ), // csrrs x6,mepc,x0
    (
        0,
        M,
        0x8000_0044,
        0x3430_23f3,
        Wrote(7, 0xffff_ffff_ffff_fffe),
    ), // csrrs x7,mtval,x0
];

/// A compressed word in the last two bytes, and then the end of RAM.
static LAST_HALFWORD: [Row; 6] = [
    (0, M, 0x8000_0000, 0x0001_02b7, Wrote(5, 0x1_0000)), // lui x5,16
    (0, M, 0x8000_0004, 0x0000_0317, Wrote(6, 0x8000_0004)), // auipc x6,0
    (0, M, 0x8000_0008, 0x0062_82b3, Wrote(5, 0x8001_0004)), // add x5,x5,x6
    (0, M, 0x8000_000c, 0xffa2_8067, Passed), // jalr x0,-6(x5)
    (0, M, 0x8000_fffe, 0x0000_0001, Passed), // c.nop
    (0, M, 0x8001_0000, 0x0000_0000, Raised(1, 0x8001_0000)),
];

/// A word in the last four bytes, and then the end of RAM.
static LAST_WORD: [Row; 6] = [
    (0, M, 0x8000_0000, 0x0001_02b7, Wrote(5, 0x1_0000)), // lui x5,16
    (0, M, 0x8000_0004, 0x0000_0317, Wrote(6, 0x8000_0004)), // auipc x6,0
    (0, M, 0x8000_0008, 0x0062_82b3, Wrote(5, 0x8001_0004)), // add x5,x5,x6
    (0, M, 0x8000_000c, 0xff82_8067, Passed), // jalr x0,-8(x5)
    (0, M, 0x8000_fffc, 0x0010_0293, Wrote(5, 1)), // addi x5,x0,1
    (0, M, 0x8001_0000, 0x0000_0000, Raised(1, 0x8001_0000)),
];

/// The low half of a word in the last two bytes.
static HALF_A_WORD: [(u64, u64); 1] = [(0x8000_fff8, 0x0013_0000_0000_0000)];

static SECOND_PARCEL: [Row; 5] = [
    (0, M, 0x8000_0000, 0x0001_02b7, Wrote(5, 0x1_0000)), // lui x5,16
    (0, M, 0x8000_0004, 0x0000_0317, Wrote(6, 0x8000_0004)), // auipc x6,0
    (0, M, 0x8000_0008, 0x0062_82b3, Wrote(5, 0x8001_0004)), // add x5,x5,x6
    (0, M, 0x8000_000c, 0xffa2_8067, Passed), // jalr x0,-6(x5)
    (0, M, 0x8000_fffe, 0x0000_0000, Raised(1, 0x8001_0000)), // .word 0x0013
];

/// A load from where the boot ROM stands in debug mode.
static ROM_ADDRESS: [Row; 3] = [
    (0, M, 0x8000_0000, 0x0001_02b7, Wrote(5, 0x1_0000)), // lui x5,16
    (0, M, 0x8000_0004, 0x0002_a303, Raised(5, 0x1_0000)), // lw x6,0(x5)
    (0, M, 0, 0x0000_0000, Raised(1, 0)),
];

/// Accesses that are not aligned, some of them of nothing.
static MISALIGNED: [Word; 17] = [
    (0x0005_1603, 0x8000_0111, 0, Raised(4, 0x8000_0111), 0), // lh x12,0(x10)
    (0x0005_5603, 0x8000_0111, 0, Raised(4, 0x8000_0111), 0), // lhu x12,0(x10)
    (0x0005_2603, 0x8000_0112, 0, Raised(4, 0x8000_0112), 0), // lw x12,0(x10)
    (0x0005_6603, 0x8000_0111, 0, Raised(4, 0x8000_0111), 0), // lwu x12,0(x10)
    (0x0005_3603, 0x8000_0114, 0, Raised(4, 0x8000_0114), 0), // ld x12,0(x10)
    (0x00b5_1023, 0x8000_0111, 0, Raised(6, 0x8000_0111), 0), // sh x11,0(x10)
    (0x00b5_2023, 0x8000_0112, 0, Raised(6, 0x8000_0112), 0), // sw x11,0(x10)
    (0x00b5_3023, 0x8000_0114, 0, Raised(6, 0x8000_0114), 0), // sd x11,0(x10)
    (0x1005_262f, 0x8000_0112, 0, Raised(4, 0x8000_0112), 0), // lr.w x12,(x10)
    (0x1005_362f, 0x8000_0114, 0, Raised(4, 0x8000_0114), 0), // lr.d x12,(x10)
    (0x18b5_262f, 0x8000_0111, 0, Raised(6, 0x8000_0111), 0), // sc.w x12,x11,(x10)
    (0x18b5_362f, 0x8000_0114, 0, Raised(6, 0x8000_0114), 0), // sc.d x12,x11,(x10)
    (0x00b5_262f, 0x8000_0112, 0, Raised(6, 0x8000_0112), 0), // amoadd.w x12,x11,(x10)
    (0x08b5_362f, 0x8000_0114, 0, Raised(6, 0x8000_0114), 0), // amoswap.d x12,x11,(x10)
    (0x0005_2603, 1, 0, Raised(4, 1), 0), // lw x12,0(x10)
    (0x00b5_2023, 0x1000_0002, 0, Raised(6, 0x1000_0002), 0), // sw x11,0(x10)
    (0xa0b5_262f, 3, 0, Raised(6, 3), 0), // amomax.w x12,x11,(x10)
];

/// Accesses of what is neither memory nor a device register of a board of one hart, and atomic ones of
/// a device.
static NOTHING_THERE: [Word; 25] = [
    (0x0005_0603, 0x7fff_ffff, 0, Raised(5, 0x7fff_ffff), 0), // lb x12,0(x10)
    (0x0005_4603, 0x8001_0000, 0, Raised(5, 0x8001_0000), 0), // lbu x12,0(x10)
    (0x0005_3603, 0x8001_0000, 0, Raised(5, 0x8001_0000), 0), // ld x12,0(x10)
    (
        0x0005_3603,
        0xffff_ffff_ffff_fff8,
        0,
        Raised(5, 0xffff_ffff_ffff_fff8),
        0,
    ), // ld x12,0(x10)
    (0x0005_2603, 0x1_0000, 0, Raised(5, 0x1_0000), 0), // lw x12,0(x10)
    (0x0005_0603, 0x1000_0001, 0, Raised(5, 0x1000_0001), 0), // lb x12,0(x10)
    (0x0005_2603, 0x1000_0000, 0, Raised(5, 0x1000_0000), 0), // lw x12,0(x10)
    (0x0005_2603, 0x1000_0014, 0, Raised(5, 0x1000_0014), 0), // lw x12,0(x10)
    (0x0005_2603, 0x200_0004, 0, Raised(5, 0x200_0004), 0), // lw x12,0(x10)
    (0x0005_3603, 0x200_c000, 0, Raised(5, 0x200_c000), 0), // ld x12,0(x10)
    (0x0005_2603, 0xc00_000c, 0, Raised(5, 0xc00_000c), 0), // lw x12,0(x10)
    (0x00b5_3023, 0x7fff_fff8, 0, Raised(7, 0x7fff_fff8), 0), // sd x11,0(x10)
    (0x00b5_0023, 0x8001_0000, 0, Raised(7, 0x8001_0000), 0), // sb x11,0(x10)
    (0x00b5_2023, 0x1_0000, 0, Raised(7, 0x1_0000), 0), // sw x11,0(x10)
    (0x00b5_0023, 0x1000_0001, 0, Raised(7, 0x1000_0001), 0), // sb x11,0(x10)
    (0x00b5_1023, 0x1000_0000, 0, Raised(7, 0x1000_0000), 0), // sh x11,0(x10)
    (0x00b5_2023, 0x200_0004, 0, Raised(7, 0x200_0004), 0), // sw x11,0(x10)
    (0x00b5_2023, 0xc20_1008, 0, Raised(7, 0xc20_1008), 0), // sw x11,0(x10)
    (0x1005_262f, 0x1000_0004, 0, Raised(5, 0x1000_0004), 0), // lr.w x12,(x10)
    (0x1005_362f, 0x1000_0010, 0, Raised(5, 0x1000_0010), 0), // lr.d x12,(x10)
    (0x18b5_262f, 0x1000_0004, 0, Raised(7, 0x1000_0004), 0), // sc.w x12,x11,(x10)
    (0x18b5_362f, 0x200_4000, 0, Raised(7, 0x200_4000), 0), // sc.d x12,x11,(x10)
    (0x40b5_262f, 0x1000_0008, 0, Raised(7, 0x1000_0008), 0), // amoor.w x12,x11,(x10)
    (0x00b5_362f, 0x200_bff8, 0, Raised(7, 0x200_bff8), 0), // amoadd.d x12,x11,(x10)
    (0x08b5_262f, 0, 0, Raised(7, 0), 0), // amoswap.w x12,x11,(x10)
];

/// Loads and stores of device registers.
static DEVICES: [Word; 14] = [
    (
        0x0005_0603,
        0x1000_0000,
        0,
        Loaded(12, 0xffff_ffff_ffff_ffa8, 0xa8),
        0x8000_0014,
    ), // lb x12,0(x10)
    (
        0x0005_4603,
        0x1000_0000,
        0,
        Loaded(12, 0xa8, 0xa8),
        0x8000_0014,
    ), // lbu x12,0(x10)
    (
        0x0005_2603,
        0x1000_0004,
        0,
        Loaded(12, 0xffff_ffff_d5c6_b7a8, 0xd5c6_b7a8),
        0x8000_0014,
    ), // lw x12,0(x10)
    (
        0x0005_6603,
        0x1000_0004,
        0,
        Loaded(12, 0xd5c6_b7a8, 0xd5c6_b7a8),
        0x8000_0014,
    ), // lwu x12,0(x10)
    (
        0x0005_3603,
        0x1000_0010,
        0,
        Loaded(12, 0x9182_7364_d5c6_b7a8, 0x9182_7364_d5c6_b7a8),
        0x8000_0014,
    ), // ld x12,0(x10)
    (
        0x0005_3603,
        0x200_bff8,
        0,
        Loaded(12, 0x9182_7364_d5c6_b7a8, 0x9182_7364_d5c6_b7a8),
        0x8000_0014,
    ), // ld x12,0(x10)
    (
        0x0005_2003,
        0xc20_0004,
        0,
        Loaded(0, 0, 0xd5c6_b7a8),
        0x8000_0014,
    ), // lw x0,0(x10)
    (
        0x0000_4110,
        0xc20_1004,
        0,
        Loaded(12, 0xffff_ffff_d5c6_b7a8, 0xd5c6_b7a8),
        0x8000_0012,
    ), // c.lw x12,0(x10)
    (
        0x00b5_0023,
        0x1000_0000,
        0x1234,
        Stored(0x1000_0000, 1, 52),
        0x8000_0014,
    ), // sb x11,0(x10)
    (
        0x00b5_2023,
        0x1000_0018,
        0xf123_4567_89ab_cdef,
        Stored(0x1000_0018, 4, 0x89ab_cdef),
        0x8000_0014,
    ), // sw x11,0(x10)
    (
        0x00b5_3023,
        0x1000_0010,
        0xf123_4567_89ab_cdef,
        Stored(0x1000_0010, 8, 0xf123_4567_89ab_cdef),
        0x8000_0014,
    ), // sd x11,0(x10)
    (
        0x00b5_2023,
        0x200_0000,
        1,
        Stored(0x200_0000, 4, 1),
        0x8000_0014,
    ), // sw x11,0(x10)
    (
        0x0000_e10c,
        0x200_4000,
        7,
        Stored(0x200_4000, 8, 7),
        0x8000_0012,
    ), // c.sd x11,0(x10)
    (
        0x00b5_2023,
        0xc00_2080,
        6,
        Stored(0xc00_2080, 4, 6),
        0x8000_0014,
    ), // sw x11,0(x10)
];

/// Loads and stores under the page tables. Root entry 3 names a table outside RAM.
static TRANSLATED: [Translated; 65] = [
    (
        S,
        0x800,
        0x4000_0008,
        0x0005_3603,
        Wrote(12, 0x9122_3344_f566_7788),
    ), // ld x12,0(x10)
    (
        S,
        0x800,
        0x4000_000b,
        0x0005_0603,
        Wrote(12, 0xffff_ffff_ffff_fff5),
    ), // lb x12,0(x10)
    (
        S,
        0x800,
        0x4000_0008,
        0x01f5_3023,
        Stored(0x8000_3008, 8, 0x8000_0000),
    ), // sd x31,0(x10)
    (
        S,
        0x800,
        0x4000_0fff,
        0x01f5_0023,
        Stored(0x8000_3fff, 1, 0),
    ), // sb x31,0(x10)
    (
        S,
        0x800,
        0x4000_0008,
        0x01f5_262f,
        Updated(12, 0xffff_ffff_f566_7788, 0x8000_3008, 4, 0x7566_7788),
    ), // amoadd.w x12,x31,(x10)
    (
        S,
        0x800,
        0x4000_0000,
        0x09f5_362f,
        Updated(12, 0x1685_0403_0201_807f, 0x8000_3000, 8, 0x8000_0000),
    ), // amoswap.d x12,x31,(x10)
    (
        S,
        0x800,
        0x4000_000c,
        0x1005_262f,
        Wrote(12, 0xffff_ffff_9122_3344),
    ), // lr.w x12,(x10)
    (S, 0x800, 0x4000_0008, 0x19f5_262f, Wrote(12, 1)), // sc.w x12,x31,(x10)
    (
        S,
        0x800,
        0x8000_3008,
        0x0005_3603,
        Wrote(12, 0x9122_3344_f566_7788),
    ), // ld x12,0(x10)
    (S, 0x800, 0x3008, 0x0005_3603, Raised(13, 0x3008)), // ld x12,0(x10)
    (
        S,
        0x800,
        0x8000_0000_0000_3008,
        0x0005_3603,
        Raised(13, 0x8000_0000_0000_3008),
    ), // ld x12,0(x10)
    (
        S,
        0x800,
        0x40_0000_0008,
        0x0005_3603,
        Raised(13, 0x40_0000_0008),
    ), // ld x12,0(x10)
    (
        S,
        0x800,
        0xffff_ffc0_0000_0008,
        0x0005_3603,
        Raised(13, 0xffff_ffc0_0000_0008),
    ), // ld x12,0(x10)
    (S, 0x800, 0x4000_1000, 0x0005_3603, Raised(13, 0x4000_1000)), // ld x12,0(x10)
    (S, 0x800, 0x4000_1000, 0x01f5_3023, Raised(15, 0x4000_1000)), // sd x31,0(x10)
    (S, 0x800, 0x4000_1004, 0x0005_3603, Raised(4, 0x4000_1004)), // ld x12,0(x10)
    (S, 0x800, 0x4000_1001, 0x61f5_262f, Raised(6, 0x4000_1001)), // amoand.w x12,x31,(x10)
    (S, 0x800, 0x4000_1000, 0x1005_362f, Raised(13, 0x4000_1000)), // lr.d x12,(x10)
    (S, 0x800, 0x4000_1000, 0x19f5_362f, Raised(15, 0x4000_1000)), // sc.d x12,x31,(x10)
    (S, 0x800, 0x4000_1000, 0x61f5_262f, Raised(15, 0x4000_1000)), // amoand.w x12,x31,(x10)
    (S, 0x800, 0x4000_2008, 0x0005_3603, Raised(13, 0x4000_2008)), // ld x12,0(x10)
    (
        S,
        0x4_0800,
        0x4000_2008,
        0x0005_3603,
        Wrote(12, 0x9122_3344_f566_7788),
    ), // ld x12,0(x10)
    (S, 0x800, 0x4000_2008, 0x01f5_3023, Raised(15, 0x4000_2008)), // sd x31,0(x10)
    (
        S,
        0x4_0800,
        0x4000_2008,
        0x01f5_3023,
        Stored(0x8000_3008, 8, 0x8000_0000),
    ), // sd x31,0(x10)
    (S, 0x800, 0x4000_3008, 0x0005_3603, Raised(13, 0x4000_3008)), // ld x12,0(x10)
    (
        S,
        0x8_0800,
        0x4000_3008,
        0x0005_3603,
        Wrote(12, 0x9122_3344_f566_7788),
    ), // ld x12,0(x10)
    (
        S,
        0x8_0800,
        0x4000_3008,
        0x01f5_3023,
        Raised(15, 0x4000_3008),
    ), // sd x31,0(x10)
    (
        S,
        0x800,
        0x4000_4008,
        0x0005_3603,
        Wrote(12, 0x9122_3344_f566_7788),
    ), // ld x12,0(x10)
    (S, 0x800, 0x4000_4008, 0x01f5_3023, Raised(15, 0x4000_4008)), // sd x31,0(x10)
    (S, 0x800, 0x4000_4008, 0x41f5_362f, Raised(15, 0x4000_4008)), // amoor.d x12,x31,(x10)
    (
        S,
        0x800,
        0x4000_7008,
        0x0005_3603,
        Wrote(12, 0x9122_3344_f566_7788),
    ), // ld x12,0(x10)
    (S, 0x800, 0x4000_7008, 0x01f5_3023, Raised(15, 0x4000_7008)), // sd x31,0(x10)
    (S, 0x800, 0x4000_8008, 0x0005_3603, Raised(13, 0x4000_8008)), // ld x12,0(x10)
    (S, 0x800, 0x4000_8008, 0x01f5_3023, Raised(15, 0x4000_8008)), // sd x31,0(x10)
    (
        S,
        0x800,
        0x4000_5000,
        0x01f5_0023,
        Stored(0x1000_0000, 1, 0),
    ), // sb x31,0(x10)
    (
        S,
        0x800,
        0x4000_5000,
        0x0005_0603,
        Loaded(12, 0xffff_ffff_ffff_ffa8, 0xa8),
    ), // lb x12,0(x10)
    (
        S,
        0x800,
        0x4000_5004,
        0x0005_6603,
        Loaded(12, 0xd5c6_b7a8, 0xd5c6_b7a8),
    ), // lwu x12,0(x10)
    (S, 0x800, 0x4000_5004, 0x01f5_262f, Raised(7, 0x4000_5004)), // amoadd.w x12,x31,(x10)
    (S, 0x800, 0x4000_6000, 0x0005_3603, Raised(5, 0x4000_6000)), // ld x12,0(x10)
    (S, 0x800, 0x4000_6000, 0x01f5_3023, Raised(7, 0x4000_6000)), // sd x31,0(x10)
    (S, 0x800, 0x4000_6000, 0x1005_262f, Raised(5, 0x4000_6000)), // lr.w x12,(x10)
    (S, 0x800, 0xc000_0000, 0x0005_3603, Raised(5, 0xc000_0000)), // ld x12,0(x10)
    (S, 0x800, 0xc000_0000, 0x01f5_3023, Raised(7, 0xc000_0000)), // sd x31,0(x10)
    (S, 0x800, 0xc000_0000, 0x01f5_262f, Raised(7, 0xc000_0000)), // amoadd.w x12,x31,(x10)
    (M, 0x1800, 0x4000_0008, 0x0005_3603, Raised(5, 0x4000_0008)), // ld x12,0(x10)
    (
        M,
        0x1800,
        0x8000_3008,
        0x0005_3603,
        Wrote(12, 0x9122_3344_f566_7788),
    ), // ld x12,0(x10)
    (
        M,
        0x2_0800,
        0x4000_0008,
        0x0005_3603,
        Wrote(12, 0x9122_3344_f566_7788),
    ), // ld x12,0(x10)
    (
        M,
        0x2_0800,
        0x4000_0008,
        0x01f5_3023,
        Stored(0x8000_3008, 8, 0x8000_0000),
    ), // sd x31,0(x10)
    (
        M,
        0x2_0800,
        0x4000_2008,
        0x0005_3603,
        Raised(13, 0x4000_2008),
    ), // ld x12,0(x10)
    (
        M,
        0x6_0800,
        0x4000_2008,
        0x0005_3603,
        Wrote(12, 0x9122_3344_f566_7788),
    ), // ld x12,0(x10)
    (
        M,
        0x2_0000,
        0x4000_0008,
        0x0005_3603,
        Raised(13, 0x4000_0008),
    ), // ld x12,0(x10)
    (
        M,
        0x2_0000,
        0x4000_2008,
        0x0005_3603,
        Wrote(12, 0x9122_3344_f566_7788),
    ), // ld x12,0(x10)
    (
        M,
        0x2_0000,
        0x4000_2008,
        0x01f5_3023,
        Stored(0x8000_3008, 8, 0x8000_0000),
    ), // sd x31,0(x10)
    (
        M,
        0x2_0000,
        0x4000_2008,
        0x1005_362f,
        Wrote(12, 0x9122_3344_f566_7788),
    ), // lr.d x12,(x10)
    (
        M,
        0x2_0800,
        0x4000_1000,
        0x01f5_3023,
        Raised(15, 0x4000_1000),
    ), // sd x31,0(x10)
    (
        M,
        0x2_0800,
        0x4000_1000,
        0x0005_3603,
        Raised(13, 0x4000_1000),
    ), // ld x12,0(x10)
    (
        M,
        0x2_1800,
        0x4000_0008,
        0x0005_3603,
        Raised(5, 0x4000_0008),
    ), // ld x12,0(x10)
    (
        M,
        0x2_1800,
        0x8000_3008,
        0x01f5_3023,
        Stored(0x8000_3008, 8, 0x8000_0000),
    ), // sd x31,0(x10)
    (
        M,
        0x2_0800,
        0x4000_1001,
        0x0005_2603,
        Raised(4, 0x4000_1001),
    ), // lw x12,0(x10)
    (M, 0x1800, 0x4000_0008, 0x01f5_3023, Raised(7, 0x4000_0008)), // sd x31,0(x10)
    (
        M,
        0x2_0800,
        0x4000_5000,
        0x01f5_0023,
        Stored(0x1000_0000, 1, 0),
    ), // sb x31,0(x10)
    (
        M,
        0x2_0800,
        0x4000_5004,
        0x0005_6603,
        Loaded(12, 0xd5c6_b7a8, 0xd5c6_b7a8),
    ), // lwu x12,0(x10)
    (
        M,
        0x2_0800,
        0x4000_5004,
        0x01f5_262f,
        Raised(7, 0x4000_5004),
    ), // amoadd.w x12,x31,(x10)
    (
        M,
        0x2_0800,
        0x1000_0000,
        0x01f5_0023,
        Raised(15, 0x1000_0000),
    ), // sb x31,0(x10)
    (
        M,
        0x1800,
        0x1000_0000,
        0x01f5_0023,
        Stored(0x1000_0000, 1, 0),
    ), // sb x31,0(x10)
];

/// The second parcel is not mapped; then a page of user mode; then pages that may be executed alone and
/// read alone, and the console.
static VIRTUAL_FETCHES: [Row; 49] = [
    (0, M, 0, 0, Forgot(0x4000_0ffe)),
    (0, M, 0x8000_0000, 0x0000_0f97, Wrote(31, 0x8000_0000)), // auipc x31,0
    (0, M, 0x8000_0004, 0x200f_8293, Wrote(5, 0x8000_0200)), // addi x5,x31,0x200
    (0, M, 0x8000_0008, 0x3052_9073, Passed), // csrrw x0,mtvec,x5
    (
        0,
        M,
        0x8000_000c,
        0x110f_b303,
        Wrote(6, 0x8000_0000_0008_0001),
    ), // ld x6,0x110(x31)
    (0, M, 0x8000_0010, 0x1803_1073, Passed), // csrrw x0,satp,x6
    (0, M, 0x8000_0014, 0x4000_1537, Wrote(10, 0x4000_1000)), // lui x10,0x40001
    (0, M, 0x8000_0018, 0xffe5_0593, Wrote(11, 0x4000_0ffe)), // addi x11,x10,-2
    (0, M, 0x8000_001c, 0x3415_9073, Passed), // csrrw x0,mepc,x11
    (0, M, 0x8000_0020, 0x0000_1737, Wrote(14, 0x1000)), // lui x14,1
    (0, M, 0x8000_0024, 0x0010_0393, Wrote(7, 1)), // addi x7,x0,1
    (0, M, 0x8000_0028, 0x00b3_9393, Wrote(7, 0x800)), // slli x7,x7,11
    (0, M, 0x8000_002c, 0x3003_a073, Passed), // csrrs x0,mstatus,x7
    (0, M, 0x8000_0030, 0x3020_0073, Passed), // mret
    (0, S, 0x4000_0ffe, 0x0000_0000, Raised(12, 0x4000_1000)),
    (0, M, 0, 0, Remembers(0x4000_0ffe)),
    (0, M, 0, 0, Forgot(0x4000_1000)),
    (0, M, 0x8000_0200, 0x3420_2473, Wrote(8, 12)), // csrrs x8,mcause,x0
    (0, M, 0x8000_0204, 0x3410_24f3, Wrote(9, 0x4000_0ffe)), // csrrs x9,mepc,x0
    (0, M, 0x8000_0208, 0x3430_2673, Wrote(12, 0x4000_1000)), // csrrs x12,mtval,x0
    (0, M, 0x8000_020c, 0x00e5_0533, Wrote(10, 0x4000_2000)), // add x10,x10,x14
    (0, M, 0x8000_0210, 0x3415_1073, Passed), // csrrw x0,mepc,x10
    (0, M, 0x8000_0214, 0x3003_a073, Passed), // csrrs x0,mstatus,x7
    (0, M, 0x8000_0218, 0x3020_0073, Passed), // mret
    (0, S, 0x4000_2000, 0x0000_0000, Raised(12, 0x4000_2000)),
    (0, M, 0x8000_0200, 0x3420_2473, Wrote(8, 12)), // csrrs x8,mcause,x0
    (0, M, 0x8000_0204, 0x3410_24f3, Wrote(9, 0x4000_2000)), // csrrs x9,mepc,x0
    (0, M, 0x8000_0208, 0x3430_2673, Wrote(12, 0x4000_2000)), // csrrs x12,mtval,x0
    (0, M, 0x8000_020c, 0x00e5_0533, Wrote(10, 0x4000_3000)), // add x10,x10,x14
    (0, M, 0x8000_0210, 0x3415_1073, Passed), // csrrw x0,mepc,x10
    (0, M, 0x8000_0214, 0x3003_a073, Passed), // csrrs x0,mstatus,x7
    (0, M, 0x8000_0218, 0x3020_0073, Passed), // mret
    (0, S, 0x4000_3000, 0x0201_807f, Raised(2, 0x201_807f)),
    (0, M, 0x8000_0200, 0x3420_2473, Wrote(8, 2)), // csrrs x8,mcause,x0
    (0, M, 0x8000_0204, 0x3410_24f3, Wrote(9, 0x4000_3000)), // csrrs x9,mepc,x0
    (0, M, 0x8000_0208, 0x3430_2673, Wrote(12, 0x201_807f)), // csrrs x12,mtval,x0
    (0, M, 0x8000_020c, 0x00e5_0533, Wrote(10, 0x4000_4000)), // add x10,x10,x14
    (0, M, 0x8000_0210, 0x3415_1073, Passed), // csrrw x0,mepc,x10
    (0, M, 0x8000_0214, 0x3003_a073, Passed), // csrrs x0,mstatus,x7
    (0, M, 0x8000_0218, 0x3020_0073, Passed), // mret
    (0, S, 0x4000_4000, 0x0000_0000, Raised(12, 0x4000_4000)),
    (0, M, 0x8000_0200, 0x3420_2473, Wrote(8, 12)), // csrrs x8,mcause,x0
    (0, M, 0x8000_0204, 0x3410_24f3, Wrote(9, 0x4000_4000)), // csrrs x9,mepc,x0
    (0, M, 0x8000_0208, 0x3430_2673, Wrote(12, 0x4000_4000)), // csrrs x12,mtval,x0
    (0, M, 0x8000_020c, 0x00e5_0533, Wrote(10, 0x4000_5000)), // add x10,x10,x14
    (0, M, 0x8000_0210, 0x3415_1073, Passed), // csrrw x0,mepc,x10
    (0, M, 0x8000_0214, 0x3003_a073, Passed), // csrrs x0,mstatus,x7
    (0, M, 0x8000_0218, 0x3020_0073, Passed), // mret
    (0, S, 0x4000_5000, 0x0000_0000, Raised(1, 0x4000_5000)),
];

/// The leaf of 0x40000000 is changed, with no fence, between two loads through it under MPRV.
static REMAPPED: [Row; 18] = [
    (0, M, 0x8000_0000, 0x0000_0f97, Wrote(31, 0x8000_0000)), // auipc x31,0
    (
        0,
        M,
        0x8000_0004,
        0x110f_b303,
        Wrote(6, 0x8000_0000_0008_0001),
    ), // ld x6,0x110(x31)
    (0, M, 0x8000_0008, 0x118f_b383, Wrote(7, 0x2000_04cf)), // ld x7,0x118(x31)
    (0, M, 0x8000_000c, 0x1803_1073, Passed), // csrrw x0,satp,x6
    (0, M, 0x8000_0010, 0x4000_0537, Wrote(10, 0x4000_0000)), // lui x10,0x40000
    (0, M, 0x8000_0014, 0x0000_45b7, Wrote(11, 0x4000)), // lui x11,4
    (0, M, 0x8000_0018, 0x01f5_85b3, Wrote(11, 0x8000_4000)), // add x11,x11,x31
    (0, M, 0x8000_001c, 0x0002_0737, Wrote(14, 0x2_0000)), // lui x14,0x20
    (0, M, 0x8000_0020, 0x0010_0793, Wrote(15, 1)), // addi x15,x0,1
    (0, M, 0x8000_0024, 0x00b7_9793, Wrote(15, 0x800)), // slli x15,x15,11
    (0, M, 0x8000_0028, 0x3007_a073, Passed), // csrrs x0,mstatus,x15
    (0, M, 0x8000_002c, 0x3007_2073, Passed), // csrrs x0,mstatus,x14
    (
        0,
        M,
        0x8000_0030,
        0x0085_3603,
        Wrote(12, 0x9122_3344_f566_7788),
    ), // ld x12,8(x10)
    (0, M, 0x8000_0034, 0x3007_3073, Passed), // csrrc x0,mstatus,x14
    (
        0,
        M,
        0x8000_0038,
        0x0075_b023,
        Stored(0x8000_4000, 8, 0x2000_04cf),
    ), // sd x7,0(x11)
    (0, M, 0x8000_003c, 0x3007_2073, Passed), // csrrs x0,mstatus,x14
    (0, M, 0x8000_0040, 0x0085_3603, Wrote(12, 0x2000_0801)), // ld x12,8(x10)
    (
        0,
        M,
        0x8000_0044,
        0x01f5_3423,
        Stored(0x8000_1008, 8, 0x8000_0000),
    ), // sd x31,8(x10)
];
