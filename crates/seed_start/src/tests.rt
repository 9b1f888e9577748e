//! The machines and programs of some seeds. The words are those of tools/seed_image.py, which makes them of the
//! recurrence and of the fields of the instructions as the manual has them.

use crate::{NoMemory, seed_start};
use guest_ram::BASE;
use sim_config::Shape;
use std::alloc::Global;
use std::fmt::Debug;
use std::process::Abort;
use std::test::Fail;

/// Compares what is there with what should be; words and a number say where.
fn same<T: PartialEq + Debug>(rt: &impl Abort, got: &T, want: &T, what: &str, number: u64) {
    assert_eq!(rt; *got, *want, "{what} {number}");
}

/// A seed, the place of a word in its program, and the word.
type Row = (u64, u64, u64);

/// The first words, some of those behind them, the last one, and the zeros behind that.
static WORDS: [Row; 80] = [
    (0, 0, 0x0000_0e17),
    (0, 1, 0x400e_0e93),
    (0, 2, 0x1000_0f37),
    (0, 3, 0xf140_20f3),
    (0, 4, 0x0010_80b3),
    (0, 5, 0x00ae_b62f),
    (0, 6, 0x0086_4133),
    (0, 7, 0x02a2_00b3),
    (0, 8, 0x00d0_c5b3),
    (0, 9, 0x02c5_8233),
    (0, 10, 0x004e_b32f),
    (0, 11, 0x00b1_01b3),
    (0, 12, 0x00ae_b5af),
    (0, 13, 0x0043_c5b3),
    (0, 50, 0x00c5_c2b3),
    (0, 100, 0x00ee_b0af),
    (0, 150, 0x0234_0733),
    (0, 203, 0x00d7_8513),
    (0, 204, 0xce1f_f06f),
    (0, 205, 0x0000_0000),
    (7, 0, 0x0000_0e17),
    (7, 1, 0x400e_0e93),
    (7, 2, 0x1000_0f37),
    (7, 3, 0xf140_20f3),
    (7, 4, 0x0010_80b3),
    (7, 5, 0x143e_b023),
    (7, 6, 0x006f_0023),
    (7, 7, 0x02f4_8133),
    (7, 8, 0x0225_8533),
    (7, 9, 0x02d1_80b3),
    (7, 10, 0x007f_0023),
    (7, 11, 0x00d3_0233),
    (7, 12, 0x00b7_03b3),
    (7, 13, 0x006e_b62f),
    (7, 50, 0x00c7_0733),
    (7, 100, 0x370e_b703),
    (7, 150, 0x0284_0533),
    (7, 203, 0x1ede_bc23),
    (7, 204, 0xce1f_f06f),
    (7, 205, 0x0000_0000),
    (15, 0, 0x0000_0e17),
    (15, 1, 0x400e_0e93),
    (15, 2, 0x1000_0f37),
    (15, 3, 0xf140_20f3),
    (15, 4, 0x0010_80b3),
    (15, 5, 0x00ce_b0af),
    (15, 6, 0x004f_0023),
    (15, 7, 0x02b1_0133),
    (15, 8, 0x002f_0023),
    (15, 9, 0x200e_b183),
    (15, 10, 0x003f_0023),
    (15, 11, 0x068e_b583),
    (15, 12, 0x0237_02b3),
    (15, 13, 0x0567_0313),
    (15, 50, 0x0255_86b3),
    (15, 100, 0x02b5_8233),
    (15, 150, 0x02e6_01b3),
    (15, 203, 0x0264_83b3),
    (15, 204, 0xce1f_f06f),
    (15, 205, 0x0000_0000),
    (u64::MAX, 0, 0x0000_0e17),
    (u64::MAX, 1, 0x400e_0e93),
    (u64::MAX, 2, 0x1000_0f37),
    (u64::MAX, 3, 0xf140_20f3),
    (u64::MAX, 4, 0x001f_0023),
    (u64::MAX, 5, 0x0032_c1b3),
    (u64::MAX, 6, 0x007f_0023),
    (u64::MAX, 7, 0x00e0_8093),
    (u64::MAX, 8, 0x300e_b103),
    (u64::MAX, 9, 0x0081_07b3),
    (u64::MAX, 10, 0x009e_b0af),
    (u64::MAX, 11, 0x0716_8613),
    (u64::MAX, 12, 0x00ff_0023),
    (u64::MAX, 13, 0x00a7_4133),
    (u64::MAX, 50, 0x004e_b72f),
    (u64::MAX, 100, 0x00a6_8433),
    (u64::MAX, 150, 0x0212_0133),
    (u64::MAX, 203, 0x008e_b62f),
    (u64::MAX, 204, 0xce1f_f06f),
    (u64::MAX, 205, 0x0000_0000),
];

/// Looks for a word of a seed's program.
fn find(rt: &impl Abort, alloc: Global, row: Row) -> Result<(), NoMemory> {
    let (seed, place, word) = row;
    let start = seed_start(alloc, seed)?;
    assert!(rt; place < 1000 && start.ram.has(BASE + 4 * place, 4));
    same(
        rt,
        &start.ram.read(BASE + 4 * place, 4),
        &word,
        "word at",
        place,
    );
    Ok(())
}

#[test]
fn words_of_some_seeds(rt: HostRuntime) -> Result<(), Fail> {
    for &row in &WORDS {
        find(&rt, rt.alloc(), row)?;
    }
    Ok(())
}

/// The machine of a seed has so many harts, and so many steps in a turn.
fn shaped(
    rt: &impl Abort,
    alloc: Global,
    seed: u64,
    harts: u8,
    slice: u16,
) -> Result<(), NoMemory> {
    let start = seed_start(alloc, seed)?;
    let want = Shape {
        harts,
        ram: 65_536,
        slice,
        tohost: 0,
    };
    same(rt, &start.shape, &want, "shape of", seed);
    same(rt, &start.entry, &0x8000_0000, "entry of", seed);
    Ok(())
}

#[test]
fn each_number_of_harts_with_each_slice(rt: HostRuntime) -> Result<(), Fail> {
    let mut seed = 0u64;
    for slice in 1..=16 {
        for harts in 1..=8 {
            shaped(&rt, rt.alloc(), seed, harts, slice)?;
            seed = seed.saturating_add(1);
        }
    }
    shaped(&rt, rt.alloc(), 128, 1, 1)?;
    shaped(&rt, rt.alloc(), u64::MAX, 8, 16)?;
    Ok(())
}
