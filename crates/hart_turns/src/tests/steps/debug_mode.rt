//! Steps in debug mode, by tables. What is expected is reckoned by hand from External Debug Support and the
//! choices of this board.

use crate::tests::steps::Did::{Loaded, Passed, Raised, Stored, Wrote};
use crate::tests::steps::{Did, Fixed, Row, counted, replay, same};
use guest_ram::{BASE, GuestRam};
use hart_step::Core;
use hart_step::Priv::D;
use std::alloc::{AllocError, Global};
use std::process::Abort;

/// The debug registers, whose fields keep their ranges.
static REGISTERS: [Row; 16] = [
    (0, D, 0x1_0000, 0x7b00_22f3, Wrote(5, 0x4000_06c3)), // csrrs x5,dcsr,x0
    (0, D, 0x1_0004, 0x7b10_2373, Wrote(6, 0)), // csrrs x6,dpc,x0
    (0, D, 0x1_0008, 0x7b00_5073, Passed), // csrrwi x0,dcsr,0
    (0, D, 0x1_000c, 0x7b00_22f3, Wrote(5, 0x4000_06c0)), // csrrs x5,dcsr,x0
    (0, D, 0x1_0010, 0xfff0_0393, Wrote(7, u64::MAX)), // addi x7,x0,-1
    (0, D, 0x1_0014, 0x7b13_9073, Passed), // csrrw x0,dpc,x7
    (0, D, 0x1_0018, 0x7b10_2373, Wrote(6, u64::MAX - 1)), // csrrs x6,dpc,x0
    (0, D, 0x1_001c, 0x7b23_9073, Passed), // csrrw x0,dscratch0,x7
    (0, D, 0x1_0020, 0x7b20_2373, Wrote(6, u64::MAX)), // csrrs x6,dscratch0,x0
    (0, D, 0x1_0024, 0x7b3a_d073, Passed), // csrrwi x0,dscratch1,21
    (0, D, 0x1_0028, 0x7b30_2373, Wrote(6, 21)), // csrrs x6,dscratch1,x0
    (0, D, 0x1_002c, 0x7b03_9073, Passed), // csrrw x0,dcsr,x7
    (0, D, 0x1_0030, 0x7b00_22f3, Wrote(5, 0x4000_06c3)), // csrrs x5,dcsr,x0
    (0, D, 0x1_0034, 0x7b01_5073, Passed), // csrrwi x0,dcsr,2
    (0, D, 0x1_0038, 0x7b00_22f3, Wrote(5, 0x4000_06c0)), // csrrs x5,dcsr,x0
    (0, D, 0x1_003c, 0xb020_2373, Wrote(6, 0)), // csrrs x6,minstret,x0
];

/// Every interrupt is pending and enabled, and none is taken.
static INTERRUPTS: [Row; 5] = [
    (0, D, 0x1_0000, 0xfff0_0393, Wrote(7, u64::MAX)), // addi x7,x0,-1
    (0, D, 0x1_0004, 0x3043_9073, Passed), // csrrw x0,mie,x7
    (0, D, 0x1_0008, 0x3443_9073, Passed), // csrrw x0,mip,x7
    (0, D, 0x1_000c, 0x3004_6073, Passed), // csrrsi x0,mstatus,8
    (0, D, 0x1_0010, 0x0000_0013, Passed), // addi x0,x0,0
];

/// Data accesses are made in machine mode, also with MPRV set, user mode in MPP, and page tables that
/// map nothing.
static PRIVILEGE: [Row; 11] = [
    (0, D, 0x1_0000, 0x0010_0093, Wrote(1, 1)), // addi x1,x0,1
    (0, D, 0x1_0004, 0x01f0_9093, Wrote(1, BASE)), // slli x1,x1,31
    (0, D, 0x1_0008, 0x0002_0437, Wrote(8, 0x2_0000)), // lui x8,0x20
    (0, D, 0x1_000c, 0x3004_1073, Passed), // csrrw x0,mstatus,x8
    (0, D, 0x1_0010, 0x0080_0493, Wrote(9, 8)), // addi x9,x0,8
    (0, D, 0x1_0014, 0x03c4_9493, Wrote(9, 1 << 63)), // slli x9,x9,60
    (0, D, 0x1_0018, 0x1804_9073, Passed), // csrrw x0,satp,x9
    (0, D, 0x1_001c, 0x0090_b423, Stored(BASE + 8, 8, 1 << 63)), // sd x9,8(x1)
    (0, D, 0x1_0020, 0x0080_b303, Wrote(6, 1 << 63)), // ld x6,8(x1)
    (0, D, 0x1_0024, 0x1000_02b7, Wrote(5, 0x1000_0000)), // lui x5,0x10000
    (0, D, 0x1_0028, 0x0002_c303, Loaded(6, 0xa8, 0xa8)), // lbu x6,0(x5)
];

/// Loads from the ROM of each size, and one that reaches past its end.
static LOADS: [Row; 11] = [
    (0, D, 0x1_0000, 0x0000_0297, Wrote(5, 0x1_0000)), // auipc x5,0
    (0, D, 0x1_0004, 0x0282_8303, Wrote(6, 0xffff_ffff_ffff_ff88)), // lb x6,40(x5)
    (0, D, 0x1_0008, 0x0282_c303, Wrote(6, 0x88)), // lbu x6,40(x5)
    (0, D, 0x1_000c, 0x02a2_9303, Wrote(6, 0xffff_ffff_ffff_f566)), // lh x6,42(x5)
    (0, D, 0x1_0010, 0x02a2_d303, Wrote(6, 0xf566)), // lhu x6,42(x5)
    (0, D, 0x1_0014, 0x02c2_a303, Wrote(6, 0xffff_ffff_9122_3344)), // lw x6,44(x5)
    (0, D, 0x1_0018, 0x02c2_e303, Wrote(6, 0x9122_3344)), // lwu x6,44(x5)
    (0, D, 0x1_001c, 0x0282_b303, Wrote(6, 0x9122_3344_f566_7788)), // ld x6,40(x5)
    (0, D, 0x1_0020, 0x0302_a303, Wrote(6, 0x13)), // lw x6,48(x5)
    (0, D, 0x1_0024, 0x0302_b303, Raised(5, 0x1_0030)), // ld x6,48(x5)
    (0, D, 0x1_0024, 0x0302_b303, Raised(5, 0x1_0030)), // ld x6,48(x5)
];

/// What they load.
static LOADED: [u32; 3] = [0xf566_7788, 0x9122_3344, 0x0000_0013];

/// No store goes into the ROM.
static STORE: [Row; 3] = [
    (0, D, 0x1_0000, 0x0000_0297, Wrote(5, 0x1_0000)), // auipc x5,0
    (0, D, 0x1_0004, 0x0002_b023, Raised(7, 0x1_0000)), // sd x0,0(x5)
    (0, D, 0x1_0004, 0x0002_b023, Raised(7, 0x1_0000)), // sd x0,0(x5)
];

/// Instructions that raise an exception, which changes nothing.
static EXCEPTIONS: [(u32, Did); 8] = [
    (0x0010_0073, Raised(3, 0x1_0000)), // ebreak
    (0x0000_0073, Raised(11, 0)), // ecall
    (0x3020_0073, Raised(2, 0x3020_0073)), // mret
    (0x1020_0073, Raised(2, 0x1020_0073)), // sret
    (0xffff_ffff, Raised(2, 0xffff_ffff)), // no instruction
    (0x0000_3023, Raised(7, 0)), // sd x0,0(x0)
    (0x0010_3283, Raised(4, 1)), // ld x5,1(x0)
    (0x1000_252f, Raised(5, 0)), // lr.w x10,(x0)
];

pub(crate) fn push_word(rom: &mut Vec<u8>, word: u32) -> Result<(), AllocError> {
    let mut left = word;
    for _ in 0..4 {
        rom.push((left % 256) as u8)?;
        left /= 256;
    }
    Ok(())
}

/// A ROM of the words of the rows, as they follow one another, and of more words.
fn rom_of(alloc: Global, rows: &[Row], more: &[u32]) -> Result<Vec<u8>, AllocError> {
    let mut rom = Vec::new(alloc);
    for &(_, _, pc, word, _) in rows {
        if pc == 0x1_0000u64.wrapping_add(rom.len() as u64) {
            push_word(&mut rom, word)?;
        }
    }
    for &word in more {
        push_word(&mut rom, word)?;
    }
    Ok(rom)
}

/// A hart at reset in debug mode over such a ROM.
fn core_of(rt: &impl Abort, alloc: Global, rows: &[Row], more: &[u32]) -> Result<Core, AllocError> {
    let ram = GuestRam::new(alloc, 0x1_0000)?;
    let rom = rom_of(alloc, rows, more)?;
    assert!(rt; rom.len() <= 1024);
    Core::new_debug(alloc, 1, ram, rom)
}

/// Takes the steps of the rows with every interrupt signalled. They count nothing and leave the ROM.
fn run(rt: &impl Abort, alloc: Global, rows: &[Row], more: &[u32]) -> Result<(), AllocError> {
    let core = core_of(rt, alloc, rows, more)?;
    let core = replay(rt, core, &mut Fixed::new(0xa88), rows);
    counted(rt, &core, (0, 0), rows.len() as u64);
    let rom = rom_of(alloc, rows, more)?;
    same(
        rt,
        &core.rom(),
        &rom.as_slice(),
        "ROM of",
        rows.len() as u64,
    );
    Ok(())
}

/// A word that raises an exception, twice.
fn raises(rt: &impl Abort, alloc: Global, word: u32, did: Did) -> Result<(), AllocError> {
    let row = (0, D, 0x1_0000, word, did);
    run(rt, alloc, &[row, row], &[])
}

#[test]
fn steps_in_debug_mode(rt: HostRuntime) -> Result<(), AllocError> {
    run(&rt, rt.alloc(), &REGISTERS, &[])?;
    run(&rt, rt.alloc(), &INTERRUPTS, &[])?;
    run(&rt, rt.alloc(), &PRIVILEGE, &[])?;
    run(&rt, rt.alloc(), &LOADS, &LOADED)?;
    run(&rt, rt.alloc(), &STORE, &[])
}

#[test]
fn exceptions_in_debug_mode_change_nothing(rt: HostRuntime) -> Result<(), AllocError> {
    for &(word, did) in &EXCEPTIONS {
        raises(&rt, rt.alloc(), word, did)?;
    }
    Ok(())
}
