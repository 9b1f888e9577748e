//! Atomic operations, and reservations of one hart and of two.

use crate::tests::steps::Did::{Holds, HoldsNothing, Passed, Raised, Stored, Updated, Wrote};
use crate::tests::steps::{
    Did, Fixed, PLAIN, Row, Start, compare, holds, reserves, run, run_rows, with_data,
};
use guest_ram::BASE;
use hart_step::Priv::M;
use hart_step::{Core, Priv};
use std::alloc::{AllocError, Global};
use std::process::Abort;

/// Where the bytes of an atomic operation stand.
const PLACE: u64 = 0x8000_0110;

/// Makes x10 the place and x11 the number at 0x108, carries out the word, and compares what is left at the
/// place.
fn operate(
    rt: &impl Abort,
    alloc: Global,
    word: u32,
    pair: (u64, u64),
    did: Did,
    left: u64,
) -> Result<(), AllocError> {
    let rows = [
        (0, Priv::M, BASE, 0x0000_0f97, Did::Wrote(31, BASE)), // auipc x31,0
        (0, Priv::M, BASE + 4, 0x110f_8513, Did::Wrote(10, PLACE)), // addi x10,x31,0x110
        (0, Priv::M, BASE + 8, 0x108f_b583, Did::Wrote(11, pair.1)), // ld x11,0x108(x31)
        (0, Priv::M, BASE + 12, word, did),
    ];
    let data = [(PLACE, pair.0), (BASE + 0x108, pair.1)];
    let core = run(rt, alloc, with_data(1, &data), &rows)?;
    holds(rt, core.ram(), PLACE, left);
    Ok(())
}

/// The numbers at the place and in x11 for the first and the second value of each operation.
const FIRST: (u64, u64) = (0x8000_0000_7fff_ffff, 0x7fff_ffff_8000_0000);

const SECOND: (u64, u64) = (0xffff_ffff_ffff_ffff, 1);

#[test]
fn each_operation_stores_its_value(rt: HostRuntime) -> Result<(), AllocError> {
    for &(word, one, other) in &AMO_WORDS {
        let did = Did::Updated(12, 0x7fff_ffff, PLACE, 4, one);
        operate(
            &rt,
            rt.alloc(),
            word,
            FIRST,
            did,
            0x8000_0000_0000_0000 | one,
        )?;
        let did = Did::Updated(12, 0xffff_ffff_ffff_ffff, PLACE, 4, other);
        operate(
            &rt,
            rt.alloc(),
            word,
            SECOND,
            did,
            0xffff_ffff_0000_0000 | other,
        )?;
    }
    for &(word, one, other) in &AMO_DOUBLES {
        let did = Did::Updated(12, FIRST.0, PLACE, 8, one);
        operate(&rt, rt.alloc(), word, FIRST, did, one)?;
        let did = Did::Updated(12, SECOND.0, PLACE, 8, other);
        operate(&rt, rt.alloc(), word, SECOND, did, other)?;
    }
    run_rows(&rt, rt.alloc(), with_data(1, &DOUBLEWORD), &ONE_REGISTER)
}

#[test]
fn a_conditional_store_wins_with_its_reservation_alone(rt: HostRuntime) -> Result<(), AllocError> {
    run_rows(&rt, rt.alloc(), with_data(1, &RESERVED), &CONDITIONAL)?;
    run_rows(&rt, rt.alloc(), with_data(1, &RESERVED), &AFTER_TRAPS)?;
    let start = Start {
        wins: false,
        ..PLAIN
    };
    run_rows(&rt, rt.alloc(), start, &LOSES)
}

#[test]
fn a_store_of_another_hart_takes_a_reservation(rt: HostRuntime) -> Result<(), AllocError> {
    run_rows(&rt, rt.alloc(), with_data(2, &[]), &TWO_HARTS)?;
    run_rows(&rt, rt.alloc(), with_data(2, &[]), &TAKEN_AWAY)?;
    run_rows(&rt, rt.alloc(), with_data(2, &RESERVED), &HARTS_APART)
}

fn clear(rt: &impl Abort, core: &mut Core, at: u64) {
    assert!(rt; at % 8 == 0 && core.ram().has(at, 8));
    core.host_clear(at);
}

#[test]
fn the_host_takes_the_reservations_that_it_touches(rt: HostRuntime) -> Result<(), AllocError> {
    let mut core = run(&rt, rt.alloc(), with_data(1, &STORING), &RESERVING)?;
    clear(&rt, &mut core, 0x8000_0108);
    reserves(&rt, &core, 0, Some(0x8000_0100), 3);
    holds(&rt, core.ram(), 0x8000_0108, 0);
    holds(&rt, core.ram(), 0x8000_0100, 0x1111_1111_2222_2222);
    clear(&rt, &mut core, 0x8000_0100);
    reserves(&rt, &core, 0, None, 3);
    holds(&rt, core.ram(), 0x8000_0100, 0);
    // sc.w x12,x10,(x10)
    let row = (0, M, 0x8000_000c, 0x18a5_262f, Wrote(12, 1));
    compare(&rt, &mut core, &mut Fixed::new(0), row, 3);
    holds(&rt, core.ram(), 0x8000_0100, 0);
    Ok(())
}

#[test]
fn all_reservations_are_dropped(rt: HostRuntime) -> Result<(), AllocError> {
    let mut core = run(&rt, rt.alloc(), with_data(1, &RESERVED), &RESERVING)?;
    core.clear_reservations();
    reserves(&rt, &core, 0, None, 3);
    Ok(())
}

/// The number on which the operations of one register work.
static DOUBLEWORD: [(u64, u64); 1] = [(0x8000_0180, 0x9122_3344_7566_7788)];

/// The bytes that are reserved and those after them, and a program's third and fourth word: lr.w x12,(x10),
/// and then sc.w x12,x10,(x10).
static STORING: [(u64, u64); 3] = [
    (0x8000_0100, 0x1111_1111_2222_2222),
    (0x8000_0108, 0x3333_3333_4444_4444),
    (0x8000_0008, 0x18a5_262f_1005_262f),
];

/// The bytes that are reserved, and those after them.
static RESERVED: [(u64, u64); 2] = [
    (0x8000_0100, 0x1111_1111_2222_2222),
    (0x8000_0108, 0x3333_3333_4444_4444),
];

/// Atomic operations of 4 bytes: the word, and what is stored for the first and the second pair of
/// values.
static AMO_WORDS: [(u32, u64, u64); 9] = [
    (0x08b5_262f, 0x8000_0000, 1), // amoswap.w x12,x11,(x10)
    (0x00b5_262f, 0xffff_ffff, 0), // amoadd.w x12,x11,(x10)
    (0x20b5_262f, 0xffff_ffff, 0xffff_fffe), // amoxor.w x12,x11,(x10)
    (0x60b5_262f, 0, 1), // amoand.w x12,x11,(x10)
    (0x40b5_262f, 0xffff_ffff, 0xffff_ffff), // amoor.w x12,x11,(x10)
    (0x80b5_262f, 0x8000_0000, 0xffff_ffff), // amomin.w x12,x11,(x10)
    (0xa0b5_262f, 0x7fff_ffff, 1), // amomax.w x12,x11,(x10)
    (0xc0b5_262f, 0x7fff_ffff, 1), // amominu.w x12,x11,(x10)
    (0xe0b5_262f, 0x8000_0000, 0xffff_ffff), // amomaxu.w x12,x11,(x10)
];

/// Atomic operations of 8 bytes: the word, and what is stored for the first and the second pair of
/// values.
static AMO_DOUBLES: [(u32, u64, u64); 9] = [
    (0x08b5_362f, 0x7fff_ffff_8000_0000, 1), // amoswap.d x12,x11,(x10)
    (0x00b5_362f, 0xffff_ffff_ffff_ffff, 0), // amoadd.d x12,x11,(x10)
    (0x20b5_362f, 0xffff_ffff_ffff_ffff, 0xffff_ffff_ffff_fffe), // amoxor.d x12,x11,(x10)
    (0x60b5_362f, 0, 1), // amoand.d x12,x11,(x10)
    (0x40b5_362f, 0xffff_ffff_ffff_ffff, 0xffff_ffff_ffff_ffff), // amoor.d x12,x11,(x10)
    (0x80b5_362f, 0x8000_0000_7fff_ffff, 0xffff_ffff_ffff_ffff), // amomin.d x12,x11,(x10)
    (0xa0b5_362f, 0x7fff_ffff_8000_0000, 1), // amomax.d x12,x11,(x10)
    (0xc0b5_362f, 0x7fff_ffff_8000_0000, 1), // amominu.d x12,x11,(x10)
    (0xe0b5_362f, 0x8000_0000_7fff_ffff, 0xffff_ffff_ffff_ffff), // amomaxu.d x12,x11,(x10)
];

/// Atomic operations whose three registers are one, on the doubleword at 0x80000180.
static ONE_REGISTER: [Row; 37] = [
    (0, M, 0x8000_0000, 0x0000_0f97, Wrote(31, 0x8000_0000)), // auipc x31,0
    (0, M, 0x8000_0004, 0x180f_8513, Wrote(10, 0x8000_0180)), // addi x10,x31,0x180
    (
        0,
        M,
        0x8000_0008,
        0x08a5_252f,
        Updated(10, 0x7566_7788, 0x8000_0180, 4, 0x8000_0180),
    ), // amoswap.w x10,x10,(x10)
    (0, M, 0x8000_000c, 0x180f_8513, Wrote(10, 0x8000_0180)), // addi x10,x31,0x180
    (
        0,
        M,
        0x8000_0010,
        0x08a5_352f,
        Updated(10, 0x9122_3344_8000_0180, 0x8000_0180, 8, 0x8000_0180),
    ), // amoswap.d x10,x10,(x10)
    (0, M, 0x8000_0014, 0x180f_8513, Wrote(10, 0x8000_0180)), // addi x10,x31,0x180
    (
        0,
        M,
        0x8000_0018,
        0x00a5_252f,
        Updated(10, 0xffff_ffff_8000_0180, 0x8000_0180, 4, 0x300),
    ), // amoadd.w x10,x10,(x10)
    (0, M, 0x8000_001c, 0x180f_8513, Wrote(10, 0x8000_0180)), // addi x10,x31,0x180
    (
        0,
        M,
        0x8000_0020,
        0x00a5_352f,
        Updated(10, 0x300, 0x8000_0180, 8, 0x8000_0480),
    ), // amoadd.d x10,x10,(x10)
    (0, M, 0x8000_0024, 0x180f_8513, Wrote(10, 0x8000_0180)), // addi x10,x31,0x180
    (
        0,
        M,
        0x8000_0028,
        0x20a5_252f,
        Updated(10, 0xffff_ffff_8000_0480, 0x8000_0180, 4, 0x500),
    ), // amoxor.w x10,x10,(x10)
    (0, M, 0x8000_002c, 0x180f_8513, Wrote(10, 0x8000_0180)), // addi x10,x31,0x180
    (
        0,
        M,
        0x8000_0030,
        0x20a5_352f,
        Updated(10, 0x500, 0x8000_0180, 8, 0x8000_0480),
    ), // amoxor.d x10,x10,(x10)
    (0, M, 0x8000_0034, 0x180f_8513, Wrote(10, 0x8000_0180)), // addi x10,x31,0x180
    (
        0,
        M,
        0x8000_0038,
        0x60a5_252f,
        Updated(10, 0xffff_ffff_8000_0480, 0x8000_0180, 4, 0x8000_0080),
    ), // amoand.w x10,x10,(x10)
    (0, M, 0x8000_003c, 0x180f_8513, Wrote(10, 0x8000_0180)), // addi x10,x31,0x180
    (
        0,
        M,
        0x8000_0040,
        0x60a5_352f,
        Updated(10, 0x8000_0080, 0x8000_0180, 8, 0x8000_0080),
    ), // amoand.d x10,x10,(x10)
    (0, M, 0x8000_0044, 0x180f_8513, Wrote(10, 0x8000_0180)), // addi x10,x31,0x180
    (
        0,
        M,
        0x8000_0048,
        0x40a5_252f,
        Updated(10, 0xffff_ffff_8000_0080, 0x8000_0180, 4, 0x8000_0180),
    ), // amoor.w x10,x10,(x10)
    (0, M, 0x8000_004c, 0x180f_8513, Wrote(10, 0x8000_0180)), // addi x10,x31,0x180
    (
        0,
        M,
        0x8000_0050,
        0x40a5_352f,
        Updated(10, 0x8000_0180, 0x8000_0180, 8, 0x8000_0180),
    ), // amoor.d x10,x10,(x10)
    (0, M, 0x8000_0054, 0x180f_8513, Wrote(10, 0x8000_0180)), // addi x10,x31,0x180
    (
        0,
        M,
        0x8000_0058,
        0x80a5_252f,
        Updated(10, 0xffff_ffff_8000_0180, 0x8000_0180, 4, 0x8000_0180),
    ), // amomin.w x10,x10,(x10)
    (0, M, 0x8000_005c, 0x180f_8513, Wrote(10, 0x8000_0180)), // addi x10,x31,0x180
    (
        0,
        M,
        0x8000_0060,
        0x80a5_352f,
        Updated(10, 0x8000_0180, 0x8000_0180, 8, 0x8000_0180),
    ), // amomin.d x10,x10,(x10)
    (0, M, 0x8000_0064, 0x180f_8513, Wrote(10, 0x8000_0180)), // addi x10,x31,0x180
    (
        0,
        M,
        0x8000_0068,
        0xa0a5_252f,
        Updated(10, 0xffff_ffff_8000_0180, 0x8000_0180, 4, 0x8000_0180),
    ), // amomax.w x10,x10,(x10)
    (0, M, 0x8000_006c, 0x180f_8513, Wrote(10, 0x8000_0180)), // addi x10,x31,0x180
    (
        0,
        M,
        0x8000_0070,
        0xa0a5_352f,
        Updated(10, 0x8000_0180, 0x8000_0180, 8, 0x8000_0180),
    ), // amomax.d x10,x10,(x10)
    (0, M, 0x8000_0074, 0x180f_8513, Wrote(10, 0x8000_0180)), // addi x10,x31,0x180
    (
        0,
        M,
        0x8000_0078,
        0xc0a5_252f,
        Updated(10, 0xffff_ffff_8000_0180, 0x8000_0180, 4, 0x8000_0180),
    ), // amominu.w x10,x10,(x10)
    (0, M, 0x8000_007c, 0x180f_8513, Wrote(10, 0x8000_0180)), // addi x10,x31,0x180
    (
        0,
        M,
        0x8000_0080,
        0xc0a5_352f,
        Updated(10, 0x8000_0180, 0x8000_0180, 8, 0x8000_0180),
    ), // amominu.d x10,x10,(x10)
    (0, M, 0x8000_0084, 0x180f_8513, Wrote(10, 0x8000_0180)), // addi x10,x31,0x180
    (
        0,
        M,
        0x8000_0088,
        0xe0a5_252f,
        Updated(10, 0xffff_ffff_8000_0180, 0x8000_0180, 4, 0x8000_0180),
    ), // amomaxu.w x10,x10,(x10)
    (0, M, 0x8000_008c, 0x180f_8513, Wrote(10, 0x8000_0180)), // addi x10,x31,0x180
    (
        0,
        M,
        0x8000_0090,
        0xe0a5_352f,
        Updated(10, 0x8000_0180, 0x8000_0180, 8, 0x8000_0180),
    ), // amomaxu.d x10,x10,(x10)
];

/// A reservation and its store, with another hart beside.
static TWO_HARTS: [Row; 14] = [
    (0, M, 0x8000_0000, 0xf140_2573, Wrote(10, 0)), // csrrs x10,mhartid,x0
    (1, M, 0x8000_0000, 0xf140_2573, Wrote(10, 1)), // csrrs x10,mhartid,x0
    (0, M, 0x8000_0004, 0x0000_0597, Wrote(11, 0x8000_0004)), // auipc x11,0
    (1, M, 0x8000_0004, 0x0000_0597, Wrote(11, 0x8000_0004)), // auipc x11,0
    (0, M, 0x8000_0008, 0x0fc5_8593, Wrote(11, 0x8000_0100)), // addi x11,x11,252
    (1, M, 0x8000_0008, 0x0fc5_8593, Wrote(11, 0x8000_0100)), // addi x11,x11,252
    (0, M, 0x8000_000c, 0x0005_1a63, Passed), // bne x10,x0,20
    (1, M, 0x8000_000c, 0x0005_1a63, Passed), // bne x10,x0,20
    (0, M, 0x8000_0010, 0x1005_a62f, Wrote(12, 0)), // lr.w x12,(x11)
    (1, M, 0x8000_0020, 0x0000_0013, Passed), // addi x0,x0,0
    (
        0,
        M,
        0x8000_0014,
        0x18b5_a6af,
        Updated(13, 0, 0x8000_0100, 4, 0x8000_0100),
    ), // sc.w x13,x11,(x11)
    (1, M, 0x8000_0024, 0x0000_006f, Passed), // jal x0,0
    (
        0,
        M,
        0x8000_0018,
        0x0005_a703,
        Wrote(14, 0xffff_ffff_8000_0100),
    ), // lw x14,0(x11)
    (1, M, 0x8000_0024, 0x0000_006f, Passed), // jal x0,0
];

/// The same, where the other hart stores a byte into the last of the eight.
static TAKEN_AWAY: [Row; 14] = [
    (0, M, 0x8000_0000, 0xf140_2573, Wrote(10, 0)), // csrrs x10,mhartid,x0
    (1, M, 0x8000_0000, 0xf140_2573, Wrote(10, 1)), // csrrs x10,mhartid,x0
    (0, M, 0x8000_0004, 0x0000_0597, Wrote(11, 0x8000_0004)), // auipc x11,0
    (1, M, 0x8000_0004, 0x0000_0597, Wrote(11, 0x8000_0004)), // auipc x11,0
    (0, M, 0x8000_0008, 0x0fc5_8593, Wrote(11, 0x8000_0100)), // addi x11,x11,252
    (1, M, 0x8000_0008, 0x0fc5_8593, Wrote(11, 0x8000_0100)), // addi x11,x11,252
    (0, M, 0x8000_000c, 0x0005_1a63, Passed), // bne x10,x0,20
    (1, M, 0x8000_000c, 0x0005_1a63, Passed), // bne x10,x0,20
    (0, M, 0x8000_0010, 0x1005_a62f, Wrote(12, 0)), // lr.w x12,(x11)
    (1, M, 0x8000_0020, 0x00b5_83a3, Stored(0x8000_0107, 1, 0)), // sb x11,7(x11)
    (0, M, 0x8000_0014, 0x18b5_a6af, Wrote(13, 1)), // sc.w x13,x11,(x11)
    (1, M, 0x8000_0024, 0x0000_006f, Passed), // jal x0,0
    (0, M, 0x8000_0018, 0x0005_a703, Wrote(14, 0)), // lw x14,0(x11)
    (1, M, 0x8000_0024, 0x0000_006f, Passed), // jal x0,0
];

/// No reservation; the other half of the eight bytes; twice; a wider store; after the hart's own store;
/// elsewhere, and then in the place; a later reservation.
static CONDITIONAL: [Row; 31] = [
    (0, M, 0x8000_0000, 0x0000_0f97, Wrote(31, 0x8000_0000)), // auipc x31,0
    (0, M, 0x8000_0004, 0x100f_8513, Wrote(10, 0x8000_0100)), // addi x10,x31,0x100
    (0, M, 0x8000_0008, 0x104f_8693, Wrote(13, 0x8000_0104)), // addi x13,x31,0x104
    (0, M, 0x8000_000c, 0x108f_8713, Wrote(14, 0x8000_0108)), // addi x14,x31,0x108
    (0, M, 0x8000_0010, 0x080f_8293, Wrote(5, 0x8000_0080)), // addi x5,x31,0x80
    (0, M, 0x8000_0014, 0x3052_9073, Passed), // csrrw x0,mtvec,x5
    (0, M, 0x8000_0018, 0x19f5_262f, Wrote(12, 1)), // sc.w x12,x31,(x10)
    (0, M, 0, 0, HoldsNothing),
    (0, M, 0x8000_001c, 0x1005_262f, Wrote(12, 0x2222_2222)), // lr.w x12,(x10)
    (0, M, 0, 0, Holds(0x8000_0100)),
    (
        0,
        M,
        0x8000_0020,
        0x1856_a62f,
        Updated(12, 0, 0x8000_0104, 4, 0x8000_0080),
    ), // sc.w x12,x5,(x13)
    (0, M, 0, 0, HoldsNothing),
    (0, M, 0x8000_0024, 0x1856_a62f, Wrote(12, 1)), // sc.w x12,x5,(x13)
    (
        0,
        M,
        0x8000_0028,
        0x1006_a62f,
        Wrote(12, 0xffff_ffff_8000_0080),
    ), // lr.w x12,(x13)
    (0, M, 0, 0, Holds(0x8000_0100)),
    (
        0,
        M,
        0x8000_002c,
        0x1855_302f,
        Updated(0, 0, 0x8000_0100, 8, 0x8000_0080),
    ), // sc.d x0,x5,(x10)
    (0, M, 0, 0, HoldsNothing),
    (0, M, 0x8000_0030, 0x1005_362f, Wrote(12, 0x8000_0080)), // lr.d x12,(x10)
    (
        0,
        M,
        0x8000_0034,
        0x01f5_3023,
        Stored(0x8000_0100, 8, 0x8000_0000),
    ), // sd x31,0(x10)
    (
        0,
        M,
        0x8000_0038,
        0x18a5_362f,
        Updated(12, 0, 0x8000_0100, 8, 0x8000_0100),
    ), // sc.d x12,x10,(x10)
    (0, M, 0, 0, HoldsNothing),
    (
        0,
        M,
        0x8000_003c,
        0x1005_262f,
        Wrote(12, 0xffff_ffff_8000_0100),
    ), // lr.w x12,(x10)
    (0, M, 0x8000_0040, 0x1857_262f, Wrote(12, 1)), // sc.w x12,x5,(x14)
    (0, M, 0, 0, HoldsNothing),
    (0, M, 0x8000_0044, 0x1855_262f, Wrote(12, 1)), // sc.w x12,x5,(x10)
    (
        0,
        M,
        0x8000_0048,
        0x1005_262f,
        Wrote(12, 0xffff_ffff_8000_0100),
    ), // lr.w x12,(x10)
    (0, M, 0x8000_004c, 0x1007_262f, Wrote(12, 0x4444_4444)), // lr.w x12,(x14)
    (0, M, 0, 0, Holds(0x8000_0108)),
    (0, M, 0x8000_0050, 0x1855_262f, Wrote(12, 1)), // sc.w x12,x5,(x10)
    (0, M, 0, 0, HoldsNothing),
    (0, M, 0x8000_0054, 0x0005_3603, Wrote(12, 0x8000_0100)), // ld x12,0(x10)
];

/// A reservation outlives a trap, and a store-conditional that is not aligned or finds nothing.
static AFTER_TRAPS: [Row; 25] = [
    (0, M, 0x8000_0000, 0x0000_0f97, Wrote(31, 0x8000_0000)), // auipc x31,0
    (0, M, 0x8000_0004, 0x100f_8513, Wrote(10, 0x8000_0100)), // addi x10,x31,0x100
    (0, M, 0x8000_0008, 0x104f_8693, Wrote(13, 0x8000_0104)), // addi x13,x31,0x104
    (0, M, 0x8000_000c, 0x108f_8713, Wrote(14, 0x8000_0108)), // addi x14,x31,0x108
    (0, M, 0x8000_0010, 0x080f_8293, Wrote(5, 0x8000_0080)), // addi x5,x31,0x80
    (0, M, 0x8000_0014, 0x3052_9073, Passed), // csrrw x0,mtvec,x5
    (0, M, 0x8000_0018, 0x1005_262f, Wrote(12, 0x2222_2222)), // lr.w x12,(x10)
    (0, M, 0x8000_001c, 0x0000_0073, Raised(11, 0)), // ecall
    (0, M, 0, 0, Holds(0x8000_0100)),
    (
        0,
        M,
        0x8000_0080,
        0x1855_262f,
        Updated(12, 0, 0x8000_0100, 4, 0x8000_0080),
    ), // sc.w x12,x5,(x10)
    (0, M, 0, 0, HoldsNothing),
    (
        0,
        M,
        0x8000_0084,
        0x1005_362f,
        Wrote(12, 0x1111_1111_8000_0080),
    ), // lr.d x12,(x10)
    (0, M, 0x8000_0088, 0x0a4f_8313, Wrote(6, 0x8000_00a4)), // addi x6,x31,0xa4
    (0, M, 0x8000_008c, 0x3053_1073, Passed), // csrrw x0,mtvec,x6
    (0, M, 0x8000_0090, 0x0025_0793, Wrote(15, 0x8000_0102)), // addi x15,x10,2
    (0, M, 0x8000_0094, 0x1857_a62f, Raised(6, 0x8000_0102)), // sc.w x12,x5,(x15)
    (0, M, 0, 0, Holds(0x8000_0100)),
    (0, M, 0x8000_00a4, 0x0b4f_8313, Wrote(6, 0x8000_00b4)), // addi x6,x31,0xb4
    (0, M, 0x8000_00a8, 0x3053_1073, Passed), // csrrw x0,mtvec,x6
    (0, M, 0x8000_00ac, 0x0000_0793, Wrote(15, 0)), // addi x15,x0,0
    (0, M, 0x8000_00b0, 0x1857_a62f, Raised(7, 0)), // sc.w x12,x5,(x15)
    (0, M, 0, 0, Holds(0x8000_0100)),
    (
        0,
        M,
        0x8000_00b4,
        0x1865_362f,
        Updated(12, 0, 0x8000_0100, 8, 0x8000_00b4),
    ), // sc.d x12,x6,(x10)
    (0, M, 0, 0, HoldsNothing),
    (0, M, 0x8000_00b8, 0x0005_3603, Wrote(12, 0x8000_00b4)), // ld x12,0(x10)
];

/// A reservation of the bytes at 0x80000100.
static RESERVING: [Row; 4] = [
    (0, M, 0x8000_0000, 0x0000_0517, Wrote(10, 0x8000_0000)), // auipc x10,0
    (0, M, 0x8000_0004, 0x1045_0513, Wrote(10, 0x8000_0104)), // addi x10,x10,0x104
    (0, M, 0x8000_0008, 0x1005_262f, Wrote(12, 0x1111_1111)), // lr.w x12,(x10)
    (0, M, 0, 0, Holds(0x8000_0100)),
];

/// Surroundings that let no store-conditional win.
static LOSES: [Row; 6] = [
    (0, M, 0x8000_0000, 0x0000_0517, Wrote(10, 0x8000_0000)), // auipc x10,0
    (0, M, 0x8000_0004, 0x1005_262f, Wrote(12, 0x517)), // lr.w x12,(x10)
    (0, M, 0, 0, Holds(0x8000_0000)),
    (0, M, 0x8000_0008, 0x18a5_262f, Wrote(12, 1)), // sc.w x12,x10,(x10)
    (0, M, 0, 0, HoldsNothing),
    (
        0,
        M,
        0x8000_000c,
        0x0005_3683,
        Wrote(13, 0x1005_262f_0000_0517),
    ), // ld x13,0(x10)
];

/// What hart 1 does to hart 0's reservation: stores beside it, a load, a success, a failure, a byte, an
/// atomic operation and a store.
static HARTS_APART: [Row; 33] = [
    (0, M, 0x8000_0000, 0xf140_22f3, Wrote(5, 0)), // csrrs x5,mhartid,x0
    (1, M, 0x8000_0000, 0xf140_22f3, Wrote(5, 1)), // csrrs x5,mhartid,x0
    (0, M, 0x8000_0004, 0x0000_0f97, Wrote(31, 0x8000_0004)), // auipc x31,0
    (1, M, 0x8000_0004, 0x0000_0f97, Wrote(31, 0x8000_0004)), // auipc x31,0
    (0, M, 0x8000_0008, 0x0fcf_8513, Wrote(10, 0x8000_0100)), // addi x10,x31,0xfc
    (1, M, 0x8000_0008, 0x0fcf_8513, Wrote(10, 0x8000_0100)), // addi x10,x31,0xfc
    (0, M, 0x8000_000c, 0x0402_9863, Passed), // bne x5,x0,0x50
    (1, M, 0x8000_000c, 0x0402_9863, Passed), // bne x5,x0,0x50
    (
        0,
        M,
        0x8000_0010,
        0x1005_362f,
        Wrote(12, 0x1111_1111_2222_2222),
    ), // lr.d x12,(x10)
    (1, M, 0x8000_005c, 0x1005_262f, Wrote(12, 0x2222_2222)), // lr.w x12,(x10)
    (1, M, 0x8000_0060, 0xfe05_0fa3, Stored(0x8000_00ff, 1, 0)), // sb x0,-1(x10)
    (
        1,
        M,
        0x8000_0064,
        0x0005_3603,
        Wrote(12, 0x1111_1111_2222_2222),
    ), // ld x12,0(x10)
    (
        1,
        M,
        0x8000_0068,
        0x01f5_3423,
        Stored(0x8000_0108, 8, 0x8000_0004),
    ), // sd x31,8(x10)
    (0, M, 0, 0, Holds(0x8000_0100)),
    (1, M, 0, 0, Holds(0x8000_0100)),
    (
        1,
        M,
        0x8000_006c,
        0x19f5_262f,
        Updated(12, 0, 0x8000_0100, 4, 0x8000_0004),
    ), // sc.w x12,x31,(x10)
    (0, M, 0, 0, HoldsNothing),
    (1, M, 0, 0, HoldsNothing),
    (0, M, 0x8000_0014, 0x19f5_362f, Wrote(12, 1)), // sc.d x12,x31,(x10)
    (
        0,
        M,
        0x8000_0018,
        0x1005_362f,
        Wrote(12, 0x1111_1111_8000_0004),
    ), // lr.d x12,(x10)
    (0, M, 0, 0, Holds(0x8000_0100)),
    (1, M, 0x8000_0070, 0x19f5_262f, Wrote(12, 1)), // sc.w x12,x31,(x10)
    (0, M, 0, 0, Holds(0x8000_0100)),
    (1, M, 0x8000_0074, 0x01f5_03a3, Stored(0x8000_0107, 1, 4)), // sb x31,7(x10)
    (0, M, 0, 0, HoldsNothing),
    (
        0,
        M,
        0x8000_001c,
        0x1005_262f,
        Wrote(12, 0xffff_ffff_8000_0004),
    ), // lr.w x12,(x10)
    (0, M, 0, 0, Holds(0x8000_0100)),
    (
        1,
        M,
        0x8000_0078,
        0x01f5_262f,
        Updated(12, 0xffff_ffff_8000_0004, 0x8000_0100, 4, 8),
    ), // amoadd.w x12,x31,(x10)
    (0, M, 0, 0, HoldsNothing),
    (
        0,
        M,
        0x8000_0020,
        0x1005_362f,
        Wrote(12, 0x411_1111_0000_0008),
    ), // lr.d x12,(x10)
    (0, M, 0, 0, Holds(0x8000_0100)),
    (
        1,
        M,
        0x8000_007c,
        0x01f5_3023,
        Stored(0x8000_0100, 8, 0x8000_0004),
    ), // sd x31,0(x10)
    (0, M, 0, 0, HoldsNothing),
];
