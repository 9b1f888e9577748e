//! Machines whose registers and devices have given numbers, which a ROM of its own form lays.

use crate::NoMemory;
use crate::tests::numbers::{
    BORDERS, EIGHT, EIGHT_ROWS, IN_LOOP, IN_LOOP_ROWS, LARGEST_ROWS, LAYS, SHIFTED, TWO, TWO_ROWS,
};
use crate::tests::support::{booted, goes_on, machine_of};
use crate::tests::words::PROGRAM;
use crate::tests::{Measures, comes_back};
use byteorder::{ByteOrder, LittleEndian};
use hart_turns::Machine;
use std::alloc::Global;
use std::process::Abort;
use std::test::Fail;

/// What is laid, and the measures of the laid machine's ROM.
#[derive(Clone, Copy)]
struct Laid {
    harts: u8,
    /// Where the numbers for registers are of all sizes: bits that are set in each. Else they are 0.
    ones: Option<u64>,
    /// Numbers, each with its place in the ROM.
    numbers: &'static [(u32, u64)],
    /// Device registers, with the kind of access above the address, and their values.
    rows: &'static [(u64, u64)],
    /// How many steps it takes to lay them.
    steps: u32,
    measures: Measures,
}

/// The length of the ROM that lays, and its places for the numbers of hart 0 and for rows.
const LENGTH: usize = 0x1800;

const NUMBERS_AT: usize = 0x200;

const ROWS_AT: usize = 0x1200;

fn put(rom: &mut Vec<u8>, at: usize, value: u64) {
    if at < rom.len() && 8 <= rom.len() - at {
        LittleEndian::write_u64(&mut rom[at..], value);
    }
}

/// The ROM with no numbers.
fn code(alloc: Global) -> Result<Vec<u8>, NoMemory> {
    let mut rom = vec![in alloc; 0u8; LENGTH]?;
    let mut at = 0usize;
    for &word in &LAYS {
        put(&mut rom, at, u64::from(word));
        at = at.wrapping_add(4);
    }
    Ok(rom)
}

/// A number of any size.
fn mixed(n: u64) -> u64 {
    let spread = n.wrapping_mul(0x9e37_79b9_7f4a_7c15).cast_signed();
    (spread >> (n / 8 % 64 * 7 % 64)).cast_unsigned()
}

/// Lays numbers of all sizes, with these bits set, for each hart.
fn fill(rom: &mut Vec<u8>, harts: u8, ones: u64) {
    for n in 0..64 * usize::from(harts) {
        put(rom, NUMBERS_AT + 8 * n, mixed(n as u64 + 1) | ones);
    }
}

fn put_number(rom: &mut Vec<u8>, number: (u32, u64)) {
    let (at, value) = number;
    put(rom, at as usize, value);
}

fn put_numbers(rom: &mut Vec<u8>, numbers: &[(u32, u64)]) {
    for &number in numbers {
        put_number(rom, number);
    }
}

fn put_rows(rom: &mut Vec<u8>, rows: &[(u64, u64)]) {
    let mut at = ROWS_AT;
    for &(register, value) in rows {
        put(rom, at, register);
        put(rom, at.wrapping_add(8), value);
        at = at.wrapping_add(16);
    }
}

/// The ROM that lays.
fn lays(alloc: Global, laid: Laid) -> Result<Vec<u8>, NoMemory> {
    let mut rom = code(alloc)?;
    if let Some(ones) = laid.ones {
        fill(&mut rom, laid.harts, ones);
    }
    put_numbers(&mut rom, laid.numbers);
    put_rows(&mut rom, laid.rows);
    Ok(rom)
}

/// The laid machine.
fn machine_laid(rt: &impl Abort, alloc: Global, laid: Laid) -> Result<Machine, NoMemory> {
    let like = machine_of(rt, alloc, laid.harts, 4, &PROGRAM)?;
    let rom = lays(alloc, laid)?;
    booted(rt, alloc, &like, rom, laid.steps)
}

/// The laid machine comes back, and both go on in the same way.
fn lays_and_saves(rt: &impl Abort, alloc: Global, laid: Laid) -> Result<(), NoMemory> {
    let mut machine = machine_laid(rt, alloc, laid)?;
    let mut left = comes_back(rt, alloc, &machine, laid.measures)?;
    goes_on(rt, &mut left, &mut machine);
    Ok(())
}

#[test]
fn harts_at_reset_behind_devices_in_use(rt: HostRuntime) -> Result<(), Fail> {
    let laid = Laid {
        harts: 8,
        ones: None,
        numbers: &IN_LOOP,
        rows: &IN_LOOP_ROWS,
        steps: 994,
        measures: (2664, 0xf049_88cc_fdb1_e261, 659),
    };
    lays_and_saves(&rt, rt.alloc(), laid)?;
    Ok(())
}

#[test]
fn numbers_at_the_borders(rt: HostRuntime) -> Result<(), Fail> {
    let laid = Laid {
        harts: 1,
        ones: None,
        numbers: &BORDERS,
        rows: &[],
        steps: 89,
        measures: (656, 0x81bc_cdbf_0072_b6c7, 137),
    };
    lays_and_saves(&rt, rt.alloc(), laid)?;
    let shifted = Laid {
        numbers: &SHIFTED,
        measures: (688, 0x2d2e_d154_6226_c011, 137),
        ..laid
    };
    lays_and_saves(&rt, rt.alloc(), shifted)?;
    Ok(())
}

#[test]
fn harts_and_devices_that_differ(rt: HostRuntime) -> Result<(), Fail> {
    let largest = Laid {
        harts: 8,
        ones: Some(u64::MAX),
        numbers: &[],
        rows: &LARGEST_ROWS,
        steps: 1492,
        measures: (3352, 0x5757_7769_b645_5dd7, 847),
    };
    lays_and_saves(&rt, rt.alloc(), largest)?;
    let two = Laid {
        harts: 2,
        ones: Some(0),
        numbers: &TWO,
        rows: &TWO_ROWS,
        steps: 531,
        measures: (1544, 0xba2f_6a42_4f86_cb4b, 264),
    };
    lays_and_saves(&rt, rt.alloc(), two)?;
    let eight = Laid {
        harts: 8,
        ones: Some(0),
        numbers: &EIGHT,
        rows: &EIGHT_ROWS,
        steps: 1377,
        measures: (5104, 0x8593_6cfe_1b37_c641, 924),
    };
    lays_and_saves(&rt, rt.alloc(), eight)?;
    Ok(())
}
