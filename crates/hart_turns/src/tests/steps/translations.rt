//! Translations that are remembered, and forgotten where a leaf is changed in between.

use crate::tests::steps::Did::{Clears, Forgot, Passed, Raised, Remembers, Stored, Updated, Wrote};
use crate::tests::steps::{Row, run_rows, with_data};
use hart_step::Priv::{M, S};
use std::alloc::AllocError;

#[test]
fn loads_go_where_the_tables_lead_now(rt: HostRuntime) -> Result<(), AllocError> {
    run_rows(&rt, rt.alloc(), with_data(2, &LOAD_PAGES), &CHANGED_LOADS)
}

#[test]
fn fetches_go_where_the_tables_lead_now(rt: HostRuntime) -> Result<(), AllocError> {
    run_rows(
        &rt,
        rt.alloc(),
        with_data(2, &FETCH_PAGES),
        &CHANGED_FETCHES,
    )
}

/// Page tables from 0x80001000 on: the page at 0x40001000, and 0x80000000 and on as they are; what the
/// harts load, and the data of four pages to which the first leads in turn.
static LOAD_PAGES: [(u64, u64); 11] = [
    (0x8000_1008, 0x2000_0801),
    (0x8000_1010, 0x2000_00cf),
    (0x8000_2000, 0x2000_1001),
    (0x8000_4008, 0x2000_0ccf),
    (0x8000_0110, 0x8000_0000_0008_0001),
    (0x8000_0118, 0x2000_18cf),
    (0x8000_0120, 28),
    (0x8000_3008, 0x9122_3344_f566_7788),
    (0x8000_6008, 0x1685_0403_0201_807f),
    (0x8000_7008, 0x7777),
    (0x8000_8008, 0x8888),
];

/// Between loads of 0x40001008: stores beside the last table; then the leaf is changed by another hart,
/// by the hart itself, by an atomic operation, and by a device.
static CHANGED_LOADS: [Row; 53] = [
    (0, M, 0, 0, Forgot(0x4000_1000)),
    (0, M, 0x8000_0000, 0x0000_0f97, Wrote(31, 0x8000_0000)), // auipc x31,0
    (0, M, 0x8000_0004, 0xf140_22f3, Wrote(5, 0)), // csrrs x5,mhartid,x0
    (0, M, 0x8000_0008, 0x118f_b383, Wrote(7, 0x2000_18cf)), // ld x7,0x118(x31)
    (0, M, 0x8000_000c, 0x120f_b403, Wrote(8, 28)), // ld x8,0x120(x31)
    (0, M, 0x8000_0010, 0x0000_45b7, Wrote(11, 0x4000)), // lui x11,4
    (0, M, 0x8000_0014, 0x01f5_85b3, Wrote(11, 0x8000_4000)), // add x11,x11,x31
    (0, M, 0x8000_0018, 0x4000_0493, Wrote(9, 0x400)), // addi x9,x0,0x400
    (0, M, 0x8000_001c, 0x0202_9a63, Passed), // bne x5,x0,0x34
    (0, M, 0x8000_0020, 0x4000_1537, Wrote(10, 0x4000_1000)), // lui x10,0x40001
    (0, M, 0x8000_0024, 0x080f_8293, Wrote(5, 0x8000_0080)), // addi x5,x31,0x80
    (0, M, 0x8000_0028, 0x3412_9073, Passed), // csrrw x0,mepc,x5
    (
        0,
        M,
        0x8000_002c,
        0x110f_b303,
        Wrote(6, 0x8000_0000_0008_0001),
    ), // ld x6,0x110(x31)
    (0, M, 0x8000_0030, 0x1803_1073, Passed), // csrrw x0,satp,x6
    (0, M, 0x8000_0034, 0x0010_0793, Wrote(15, 1)), // addi x15,x0,1
    (0, M, 0x8000_0038, 0x00b7_9793, Wrote(15, 0x800)), // slli x15,x15,11
    (0, M, 0x8000_003c, 0x3007_a073, Passed), // csrrs x0,mstatus,x15
    (0, M, 0x8000_0040, 0x3020_0073, Passed), // mret
    (
        0,
        S,
        0x8000_0080,
        0x0085_3603,
        Wrote(12, 0x9122_3344_f566_7788),
    ), // ld x12,8(x10)
    (0, M, 0, 0, Remembers(0x4000_1000)),
    (1, M, 0x8000_0000, 0x0000_0f97, Wrote(31, 0x8000_0000)), // auipc x31,0
    (1, M, 0x8000_0004, 0xf140_22f3, Wrote(5, 1)), // csrrs x5,mhartid,x0
    (1, M, 0x8000_0008, 0x118f_b383, Wrote(7, 0x2000_18cf)), // ld x7,0x118(x31)
    (1, M, 0x8000_000c, 0x120f_b403, Wrote(8, 28)), // ld x8,0x120(x31)
    (1, M, 0x8000_0010, 0x0000_45b7, Wrote(11, 0x4000)), // lui x11,4
    (1, M, 0x8000_0014, 0x01f5_85b3, Wrote(11, 0x8000_4000)), // add x11,x11,x31
    (1, M, 0x8000_0018, 0x4000_0493, Wrote(9, 0x400)), // addi x9,x0,0x400
    (1, M, 0x8000_001c, 0x0202_9a63, Passed), // bne x5,x0,0x34
    (1, M, 0x8000_0050, 0x0085_8693, Wrote(13, 0x8000_4008)), // addi x13,x11,8
    (
        1,
        M,
        0x8000_0054,
        0xfff5_bc23,
        Stored(0x8000_3ff8, 8, 0x8000_0000),
    ), // sd x31,-8(x11)
    (1, M, 0x8000_0058, 0x0000_1737, Wrote(14, 0x1000)), // lui x14,1
    (1, M, 0x8000_005c, 0x00b7_0733, Wrote(14, 0x8000_5000)), // add x14,x14,x11
    (
        1,
        M,
        0x8000_0060,
        0x01f7_3023,
        Stored(0x8000_5000, 8, 0x8000_0000),
    ), // sd x31,0(x14)
    (0, M, 0, 0, Remembers(0x4000_1000)),
    (
        0,
        S,
        0x8000_0084,
        0x0085_3603,
        Wrote(12, 0x9122_3344_f566_7788),
    ), // ld x12,8(x10)
    (
        1,
        M,
        0x8000_0064,
        0x0076_b023,
        Stored(0x8000_4008, 8, 0x2000_18cf),
    ), // sd x7,0(x13)
    (0, M, 0, 0, Forgot(0x4000_1000)),
    (
        0,
        S,
        0x8000_0088,
        0x0085_3603,
        Wrote(12, 0x1685_0403_0201_807f),
    ), // ld x12,8(x10)
    (0, M, 0, 0, Remembers(0x4000_1000)),
    (0, S, 0x8000_008c, 0x0085_84a3, Stored(0x8000_4009, 1, 28)), // sb x8,9(x11)
    (0, M, 0, 0, Forgot(0x4000_1000)),
    (0, S, 0x8000_0090, 0x0085_3603, Wrote(12, 0x7777)), // ld x12,8(x10)
    (0, M, 0, 0, Remembers(0x4000_1000)),
    (
        1,
        M,
        0x8000_0068,
        0x0096_a62f,
        Updated(12, 0x2000_1ccf, 0x8000_4008, 4, 0x2000_20cf),
    ), // amoadd.w x12,x9,(x13)
    (0, M, 0, 0, Forgot(0x4000_1000)),
    (0, S, 0x8000_0094, 0x0085_3603, Wrote(12, 0x8888)), // ld x12,8(x10)
    (0, M, 0, 0, Remembers(0x4000_1000)),
    (
        0,
        S,
        0x8000_0098,
        0x0095_3423,
        Stored(0x8000_8008, 8, 0x400),
    ), // sd x9,8(x10)
    (0, M, 0, 0, Remembers(0x4000_1000)),
    (0, M, 0, 0, Clears(0x8000_4008)),
    (0, M, 0, 0, Forgot(0x4000_1000)),
    (0, S, 0x8000_009c, 0x0085_3603, Raised(13, 0x4000_1008)), // ld x12,8(x10)
    (0, M, 0, 0, Forgot(0x4000_1000)),
];

/// The same tables, and words in three pages to which the first leads in turn.
static FETCH_PAGES: [(u64, u64); 10] = [
    (0x8000_1008, 0x2000_0801),
    (0x8000_1010, 0x2000_00cf),
    (0x8000_2000, 0x2000_1001),
    (0x8000_4008, 0x2000_0ccf),
    (0x8000_0110, 0x8000_0000_0008_0001),
    (0x8000_0118, 0x2000_18cf),
    (0x8000_0120, 0x2000_1ccf),
    (0x8000_3000, 0x16_0613_0010_0613),
    (0x8000_6008, 0x85_b423_0106_0613),
    (0x8000_7010, 0x1006_0613),
];

/// Between fetches from 0x40001000 on, the leaf is changed by another hart, by the hart itself, and by
/// another hart to one of no fetches.
static CHANGED_FETCHES: [Row; 42] = [
    (0, M, 0x8000_0000, 0x0000_0f97, Wrote(31, 0x8000_0000)), // auipc x31,0
    (0, M, 0x8000_0004, 0xf140_22f3, Wrote(5, 0)), // csrrs x5,mhartid,x0
    (0, M, 0x8000_0008, 0x118f_b383, Wrote(7, 0x2000_18cf)), // ld x7,0x118(x31)
    (0, M, 0x8000_000c, 0x120f_b403, Wrote(8, 0x2000_1ccf)), // ld x8,0x120(x31)
    (0, M, 0x8000_0010, 0x0000_45b7, Wrote(11, 0x4000)), // lui x11,4
    (0, M, 0x8000_0014, 0x01f5_85b3, Wrote(11, 0x8000_4000)), // add x11,x11,x31
    (0, M, 0x8000_0018, 0x4000_0493, Wrote(9, 0x400)), // addi x9,x0,0x400
    (0, M, 0x8000_001c, 0x0202_9a63, Passed), // bne x5,x0,0x34
    (0, M, 0x8000_0020, 0x4000_1537, Wrote(10, 0x4000_1000)), // lui x10,0x40001
    (0, M, 0x8000_0024, 0x0005_0293, Wrote(5, 0x4000_1000)), // addi x5,x10,0
    (0, M, 0x8000_0028, 0x3412_9073, Passed), // csrrw x0,mepc,x5
    (
        0,
        M,
        0x8000_002c,
        0x110f_b303,
        Wrote(6, 0x8000_0000_0008_0001),
    ), // ld x6,0x110(x31)
    (0, M, 0x8000_0030, 0x1803_1073, Passed), // csrrw x0,satp,x6
    (0, M, 0x8000_0034, 0x0010_0793, Wrote(15, 1)), // addi x15,x0,1
    (0, M, 0x8000_0038, 0x00b7_9793, Wrote(15, 0x800)), // slli x15,x15,11
    (0, M, 0x8000_003c, 0x3007_a073, Passed), // csrrs x0,mstatus,x15
    (0, M, 0x8000_0040, 0x3020_0073, Passed), // mret
    (0, M, 0, 0, Forgot(0x4000_1000)),
    (0, S, 0x4000_1000, 0x0010_0613, Wrote(12, 1)), // addi x12,x0,1
    (0, S, 0x4000_1004, 0x0016_0613, Wrote(12, 2)), // addi x12,x12,1
    (0, M, 0, 0, Remembers(0x4000_1000)),
    (1, M, 0x8000_0000, 0x0000_0f97, Wrote(31, 0x8000_0000)), // auipc x31,0
    (1, M, 0x8000_0004, 0xf140_22f3, Wrote(5, 1)), // csrrs x5,mhartid,x0
    (1, M, 0x8000_0008, 0x118f_b383, Wrote(7, 0x2000_18cf)), // ld x7,0x118(x31)
    (1, M, 0x8000_000c, 0x120f_b403, Wrote(8, 0x2000_1ccf)), // ld x8,0x120(x31)
    (1, M, 0x8000_0010, 0x0000_45b7, Wrote(11, 0x4000)), // lui x11,4
    (1, M, 0x8000_0014, 0x01f5_85b3, Wrote(11, 0x8000_4000)), // add x11,x11,x31
    (1, M, 0x8000_0018, 0x4000_0493, Wrote(9, 0x400)), // addi x9,x0,0x400
    (1, M, 0x8000_001c, 0x0202_9a63, Passed), // bne x5,x0,0x34
    (
        1,
        M,
        0x8000_0050,
        0x0075_b423,
        Stored(0x8000_4008, 8, 0x2000_18cf),
    ), // sd x7,8(x11)
    (0, M, 0, 0, Forgot(0x4000_1000)),
    (0, S, 0x4000_1008, 0x0106_0613, Wrote(12, 18)), // addi x12,x12,16
    (0, M, 0, 0, Remembers(0x4000_1000)),
    (
        0,
        S,
        0x4000_100c,
        0x0085_b423,
        Stored(0x8000_4008, 8, 0x2000_1ccf),
    ), // sd x8,8(x11)
    (0, M, 0, 0, Forgot(0x4000_1000)),
    (0, S, 0x4000_1010, 0x1006_0613, Wrote(12, 0x112)), // addi x12,x12,256
    (0, M, 0, 0, Remembers(0x4000_1000)),
    (1, M, 0x8000_0054, 0xff84_0413, Wrote(8, 0x2000_1cc7)), // addi x8,x8,-8
    (
        1,
        M,
        0x8000_0058,
        0x0085_b423,
        Stored(0x8000_4008, 8, 0x2000_1cc7),
    ), // sd x8,8(x11)
    (0, M, 0, 0, Forgot(0x4000_1000)),
    (0, S, 0x4000_1014, 0x0000_0000, Raised(12, 0x4000_1014)),
    (0, M, 0, 0, Forgot(0x4000_1000)),
];
