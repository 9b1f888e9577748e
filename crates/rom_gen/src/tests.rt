//! Machines and their ROMs. The words are those of an assembler (LLVM); what the ROMs are to be was
//! written by tools/boot_rom.py, which shares nothing with this crate and executes each of them too.

ghost use Rattle.std.specs.Prelude.{◌≡◌, ◌%◌, ◌<◌, ◌≤◌, IfOk, IfSome, length};
ghost use Rattle.rom_gen.specs.Executed.{IsBlockAddress};

mod first;
mod laid;
mod numbers;
mod support;
mod words;

use crate::tests::first::{FIRST_EIGHT, FIRST_ONE};
use crate::tests::support::{booted, go, holds, machine_of, same, same_events, same_machine};
use crate::tests::words::{AFTER_PROGRAM, AT_RESET, DISPATCH, FILLS, PROGRAM, RESERVES};
use crate::{NoMemory, Rom, device_stub, dispatch, hart_stub, rom_of};
use byteorder::{ByteOrder, LittleEndian};
use guest_ram::BASE;
use hart_step::{Event, Priv};
use hart_turns::Machine;
use std::alloc::Global;
use std::process::Abort;
use std::test::Fail;

/// The ROM of a machine.
fn made(rt: &impl Abort, alloc: Global, machine: &Machine) -> Result<Rom, NoMemory> {
    assert!(rt; machine.running());
    rom_of(alloc, machine)
}

/// A number that depends on each byte.
fn checksum(bytes: &[u8]) -> u64 {
    let mut sum = 0u64;
    for &byte in bytes {
        sum = (sum ^ u64::from(byte)).wrapping_mul(0x100_0000_01b3);
    }
    sum
}

/// The length and the checksum of a ROM, and how many steps its boot makes.
pub(crate) type Measures = (usize, u64, u32);

/// The ROM of a machine has these measures and is made of its parts, and its boot makes the machine again.
pub(crate) fn comes_back(
    rt: &impl Abort,
    alloc: Global,
    machine: &Machine,
    measures: Measures,
) -> Result<Machine, NoMemory> {
    let (length, sum, steps) = measures;
    let rom = made(rt, alloc, machine)?;
    same(
        rt,
        &rom.bytes().len(),
        &length,
        "bytes for steps",
        u64::from(steps),
    );
    same(
        rt,
        &checksum(rom.bytes()),
        &sum,
        "checksum for steps",
        u64::from(steps),
    );
    let parts = assembled(rt, alloc, machine)?;
    holds(
        rt,
        parts.as_slice() == rom.bytes(),
        "parts for steps",
        u64::from(steps),
    );
    let left = booted(rt, alloc, machine, rom.into_bytes(), steps)?;
    same_machine(rt, &left, machine);
    Ok(left)
}

// ---- words

/// Word `i` of a list of bytes.
fn word_at(bytes: &[u8], i: usize) -> Option<u32> {
    let at = i.wrapping_mul(4);
    if at < bytes.len() && 4 <= bytes.len() - at {
        Some(LittleEndian::read_u32(&bytes[at..]))
    } else {
        None
    }
}

/// These bytes are those of these words.
fn same_words(rt: &impl Abort, bytes: &[u8], words: &[u32]) {
    same(rt, &bytes.len(), &words.len().wrapping_mul(4), "bytes", 0);
    let mut i = 0usize;
    for &word in words {
        same(rt, &word_at(bytes, i), &Some(word), "word", i as u64);
        i = i.wrapping_add(1);
    }
}

/// The ROM of a machine has these words.
fn has_words(
    rt: &impl Abort,
    alloc: Global,
    machine: &Machine,
    words: &[u32],
) -> Result<(), NoMemory> {
    let rom = made(rt, alloc, machine)?;
    same_words(rt, rom.bytes(), words);
    Ok(())
}

#[test]
fn a_hart_at_reset(rt: HostRuntime) -> Result<(), Fail> {
    let machine = machine_of(&rt, rt.alloc(), 1, 16, &[])?;
    has_words(&rt, rt.alloc(), &machine, &AT_RESET)?;
    comes_back(&rt, rt.alloc(), &machine, (424, 0x50_1bc5_4036_c798, 100))?;
    Ok(())
}

// ---- the three parts

/// The part for the devices, which stands at one address and goes on at another.
fn device_part(alloc: Global, machine: &Machine, at: u64, next: u64) -> Result<Vec<u8>, NoMemory>
    requires { IsBlockAddress next }
    ensures aligned { IfOk result (λ v. length v.items % 8 ≡ 0) }
    ensures short { IfOk result (λ v. length v.items ≤ 1616) }
{
    machine.see_fit();
    device_stub(alloc, machine.board(), machine.shape().harts, at, next)
}

/// The part for a hart, which stands at this address.
fn hart_part(
    rt: &impl Abort,
    alloc: Global,
    machine: &Machine,
    h: u8,
    at: u64,
) -> Result<Vec<u8>, NoMemory> {
    machine.core().see_fit();
    assert!(rt; h < machine.core().harts());
    let hart = machine.core().hart(h);
    assert!(rt; hart.csrs().debug().is_none());
    hart_stub(alloc, hart, at)
}

/// The part that leads each hart to its block.
fn first_part(rt: &impl Abort, alloc: Global, starts: &[u64]) -> Result<Vec<u8>, NoMemory> {
    assert!(rt; 1 <= starts.len() && starts.len() <= 8);
    dispatch(alloc, starts)
}

/// A machine's ROM out of its parts.
fn assembled(rt: &impl Abort, alloc: Global, machine: &Machine) -> Result<Vec<u8>, NoMemory> {
    let harts = machine.shape().harts;
    let at = 0x1_0018 + 8 * u64::from(harts);
    let draft = device_part(alloc, machine, at, at)?;
    let next = at + draft.len() as u64;
    let mut code = device_part(alloc, machine, at, next)?;
    let mut starts = Vec::new(alloc);
    for h in 0..harts {
        let place = at.wrapping_add(code.len() as u64);
        starts.push(if h == 0 { at } else { place })?;
        let block = hart_part(rt, alloc, machine, h, place)?;
        code.extend_from_slice(&block)?;
    }
    let mut rom = first_part(rt, alloc, &starts)?;
    rom.extend_from_slice(&code)?;
    Ok(rom)
}

#[test]
fn a_dispatch_to_eight_blocks(rt: HostRuntime) -> Result<(), Fail> {
    let mut starts = Vec::new(rt.alloc());
    for h in 0..8u64 {
        starts.push(0x1_0058 + 8 * (h * h))?;
    }
    let bytes = first_part(&rt, rt.alloc(), &starts)?;
    same_words(&rt, &bytes, &DISPATCH);
    Ok(())
}

// ---- machines after programs, and ROMs that others made

/// The value of a hexadecimal digit.
fn digit(c: u8) -> Option<u8>
    ensures { IfSome result (λ v. v < 16) }
{
    match c {
        b'0'..=b'9' => Some(c - b'0'),
        b'a'..=b'f' => Some(c - b'a' + 10),
        _ => None,
    }
}

/// The bytes of hexadecimal digits.
fn read_digits(alloc: Global, digits: &[u8]) -> Result<Vec<u8>, NoMemory> {
    let mut bytes = Vec::new(alloc);
    let mut first = None;
    for &c in digits {
        first = match (first, digit(c)) {
            (None, high) => high,
            (Some(high), Some(low)) => {
                bytes.push(high % 16 * 16 + low)?;
                None
            }
            (Some(_), None) => None,
        };
    }
    Ok(bytes)
}

/// A ROM of these digits makes the machine again, too, in so many steps.
fn boots_too(
    rt: &impl Abort,
    alloc: Global,
    machine: &Machine,
    digits: &[u8],
    steps: u32,
) -> Result<(), NoMemory> {
    let rom = read_digits(alloc, digits)?;
    let left = booted(rt, alloc, machine, rom, steps)?;
    same_machine(rt, &left, machine);
    Ok(())
}

/// The turn after `PROGRAM`.
static JUMPED: [Event; 1] = [Event::Commit {
    hart: 0,
    mode: Priv::M,
    pc: 0x8000_0020,
    insn: 0x0000_006f,
    rd: None,
    st: None,
    dv: None,
    vl: None,
}];

/// A hart after ten turns of a step each.
fn after_ten(rt: &impl Abort, alloc: Global) -> Result<Machine, NoMemory> {
    let mut machine = machine_of(rt, alloc, 1, 1, &PROGRAM)?;
    for _ in 0..10 {
        go(rt, &mut machine, None);
    }
    Ok(machine)
}

#[test]
fn a_hart_whose_loads_are_those_of_user_mode(rt: HostRuntime) -> Result<(), Fail> {
    let machine = after_ten(&rt, rt.alloc())?;
    has_words(&rt, rt.alloc(), &machine, &AFTER_PROGRAM)?;
    boots_too(&rt, rt.alloc(), &machine, FIRST_ONE, 130)?;
    let measures = (464, 0xded7_ff3c_fa01_fdf0, 104);
    let mut left = comes_back(&rt, rt.alloc(), &machine, measures)?;
    go(&rt, &mut left, None);
    same_events(&rt, left.events(), &JUMPED);
    Ok(())
}

/// Hart 1 of two reserves the first bytes of memory.
fn reserves(rt: &impl Abort, machine: &Machine) {
    assert!(rt; machine.core().harts() == 2);
    let reservation = machine.core().reservation(1);
    same(rt, &reservation, &Some(BASE), "reservation of hart", 1);
}

#[test]
fn reservations_are_dropped(rt: HostRuntime) -> Result<(), Fail> {
    let mut machine = machine_of(&rt, rt.alloc(), 2, 1, &RESERVES)?;
    go(&rt, &mut machine, Some(0x68));
    go(&rt, &mut machine, Some(0x69));
    go(&rt, &mut machine, Some(0));
    reserves(&rt, &machine);
    let measures = (784, 0x882b_caef_ede6_9dcc, 181);
    comes_back(&rt, rt.alloc(), &machine, measures)?;
    Ok(())
}

#[test]
fn served_sources_and_a_full_queue(rt: HostRuntime) -> Result<(), Fail> {
    let mut machine = machine_of(&rt, rt.alloc(), 8, 200, &FILLS)?;
    go(&rt, &mut machine, None);
    boots_too(&rt, rt.alloc(), &machine, FIRST_EIGHT, 862)?;
    comes_back(
        &rt,
        rt.alloc(),
        &machine,
        (2744, 0xb624_8a09_5742_15aa, 680),
    )?;
    Ok(())
}
