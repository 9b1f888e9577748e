//! Boots of machines at reset in debug mode. The words are those of an assembler (llvm-mc), and what is
//! expected is reckoned by hand from External Debug Support and the choices of this board.

use crate::tests::Shown::Wrote;
use crate::tests::steps::debug_mode::push_word;
use crate::tests::steps::{counted, same};
use crate::tests::{SMALL, go, is_event, is_shape, leaves, put_words, shows};
use crate::{BootFault, Machine, NoMemory};
use Ends::{Freed, Long, Trap};
use guest_ram::{BASE, GuestRam};
use hart_step::{Event, Priv};
use rv_alu::Mode;
use sim_config::Shape;
use std::alloc::Global;
use std::process::Abort;
use std::test::Fail;

// How a boot ends.
#[derive(Clone, Copy)]
enum Ends {
    // After so many steps.
    Freed(u32),
    // Of this hart, at this pc, by this cause.
    Trap(u8, u64, u8),
    // With this hart.
    Long(u8),
}

// The harts, the words of the ROM and those at the beginning of memory, how the boot ends, and the bytes
// that it sends.
type Boot = (u8, &'static [u32], &'static [u32], Ends, &'static [u8]);

// Counts x5 down from 511, which takes 1,023 steps.
const COUNT: u32 = 0x1ff0_0293; // addi x5,x0,511

const DOWN: u32 = 0xfff2_8293; // addi x5,x5,-1

const AGAIN: u32 = 0xfe02_9ee3; // bne x5,x0,-4

const NOTHING: u32 = 0x0000_0013; // addi x0,x0,0

const LEAVE: u32 = 0x7b20_0073; // dret

// Sends the two bytes "Hi".
const SEND: [u32; 5] = [
    0x1000_02b7, // lui x5,0x10000
    0x0480_0313, // addi x6,x0,72
    0x0062_8023, // sb x6,0(x5)
    0x0690_0313, // addi x6,x0,105
    0x0062_8023, // sb x6,0(x5)
];

static BOOTS: [Boot; 22] = [
    (1, &[0x0000_006f], &[], Long(0), b""), // jal x0,0
    (1, &[0x0010_0073], &[], Trap(0, 0x1_0000, 3), b""), // ebreak
    (1, &[0x0000_0073], &[], Trap(0, 0x1_0000, 11), b""), // ecall
    (1, &[0x3020_0073], &[], Trap(0, 0x1_0000, 2), b""), // mret
    (1, &[0x1020_0073], &[], Trap(0, 0x1_0000, 2), b""), // sret
    (1, &[], &[], Trap(0, 0x1_0000, 1), b""),
    (1, &[NOTHING], &[], Trap(0, 0x1_0004, 1), b""),
    (1, &[LEAVE], &[], Freed(1), b""),
    (8, &[LEAVE], &[], Freed(8), b""),
    // what is left after 1,023 steps: the last step leaves, or one more than the most would
    (1, &[COUNT, DOWN, AGAIN, LEAVE], &[], Freed(1024), b""),
    (2, &[COUNT, DOWN, AGAIN, LEAVE], &[], Freed(2048), b""),
    (1, &[NOTHING, COUNT, DOWN, AGAIN, LEAVE], &[], Long(0), b""),
    (
        1,
        &[COUNT, DOWN, AGAIN, 0x0010_0073], // ebreak
        &[],
        Trap(0, 0x1_000c, 3),
        b"",
    ),
    (
        1,
        &[NOTHING, COUNT, DOWN, AGAIN, 0x0010_0073], // ebreak
        &[],
        Long(0),
        b"",
    ),
    // only hart 0 leaves
    (
        2,
        &[
            0xf140_2173, // csrrs x2,mhartid,x0
            0x0001_1463, // bne x2,x0,8
            LEAVE,
            0x0000_006f, // jal x0,0
        ],
        &[],
        Long(1),
        b"",
    ),
    // hart 0 leaves, and hart 1 meets the exception
    (
        2,
        &[
            0xf140_22f3, // csrrs x5,mhartid,x0
            0x0002_9463, // bne x5,x0,8
            LEAVE,
            0xffff_ffff, // no instruction
        ],
        &[],
        Trap(1, 0x1_000c, 2),
        b"",
    ),
    // into memory
    (
        1,
        &[
            0x0010_0093, // addi x1,x0,1
            0x01f0_9093, // slli x1,x1,31
            0x0000_8067, // jalr x0,0(x1)
        ],
        &[0x0070_0293, LEAVE], // addi x5,x0,7
        Freed(5),
        b"",
    ),
    (
        1,
        &[
            0x0010_0093, // addi x1,x0,1
            0x01f0_9093, // slli x1,x1,31
            0x0000_8067, // jalr x0,0(x1)
        ],
        &[0x0070_0293], // addi x5,x0,7
        Trap(0, BASE + 4, 2),
        b"",
    ),
    // into the ROM itself
    (
        1,
        &[0x0000_0297, 0x0002_b023, LEAVE], // auipc x5,0; sd x0,0(x5)
        &[],
        Trap(0, 0x1_0004, 7),
        b"",
    ),
    // to a device
    (
        1,
        &[SEND[0], SEND[1], SEND[2], SEND[3], SEND[4], LEAVE],
        &[],
        Freed(6),
        b"Hi",
    ),
    (
        2,
        &[SEND[0], SEND[1], SEND[2], SEND[3], SEND[4], LEAVE],
        &[],
        Freed(12),
        b"HiHi",
    ),
    (
        1,
        &[SEND[0], SEND[1], SEND[2], SEND[3], SEND[4], 0x0010_0073], // ebreak
        &[],
        Trap(0, 0x1_0014, 3),
        b"Hi",
    ),
];

fn rom_of(alloc: Global, words: &[u32]) -> Result<Vec<u8>, NoMemory> {
    let mut rom = Vec::new(alloc);
    for &word in words {
        push_word(&mut rom, word)?;
    }
    Ok(rom)
}

// A machine at reset in debug mode, with one step of each hart in a turn and 3 bytes taken.
fn debugged(
    rt: &impl Abort,
    alloc: Global,
    harts: u8,
    rom: &[u32],
    words: &[u32],
) -> Result<Machine, NoMemory> {
    let shape = Shape {
        harts,
        ram: SMALL,
        slice: 1,
        tohost: 0,
    };
    assert!(rt; is_shape(shape));
    let mut ram = GuestRam::new(alloc, SMALL)?;
    put_words(&mut ram, words);
    let rom = rom_of(alloc, rom)?;
    assert!(rt; rom.len() <= 1024 && ram.len() == shape.ram);
    Machine::reset_debug(alloc, shape, ram, rom, 3)
}

// The length of the ROM, and the lowest hart in debug mode.
fn held(machine: &Machine) -> (usize, Option<u8>) {
    (machine.core().rom().len(), machine.core().in_debug())
}

// What the boot answers, and the hart that is in debug mode then.
fn wanted(ends: Ends) -> (Result<u32, BootFault>, Option<u8>) {
    match ends {
        Freed(steps) => (Ok(steps), None),
        Trap(hart, pc, cause) => (Err(BootFault::Trap { hart, pc, cause }), Some(hart)),
        Long(hart) => (Err(BootFault::Long { hart }), Some(hart)),
    }
}

// Boots, and what is there then: no time has passed, no byte was taken, and the ROM is gone where no hart
// is in debug mode.
fn boots(rt: &impl Abort, machine: &mut Machine, row: &Boot, number: u64) {
    let (_, rom, _, ends, sent) = *row;
    let (answer, hart) = wanted(ends);
    same(rt, &machine.boot(), &answer, "boot", number);
    leaves(rt, machine, 0, sent);
    let length = if answer.is_ok() {
        0
    } else {
        rom.len().wrapping_mul(4)
    };
    same(
        rt,
        &held(machine),
        &(length, hart),
        "ROM after boot",
        number,
    );
    same(rt, &machine.running(), &answer.is_ok(), "running", number);
    let passed = (machine.taken(), machine.board().time());
    same(rt, &passed, &(3, 0), "taken and time after boot", number);
    counted(rt, machine.core(), (0, 0), number);
}

#[test]
fn boots_end_as_the_rom_says(rt: HostRuntime) -> Result<(), Fail> {
    let mut number = 0u64;
    for row in &BOOTS {
        let mut machine = debugged(&rt, rt.alloc(), row.0, row.1, row.2)?;
        boots(&rt, &mut machine, row, number);
        number = number.wrapping_add(1);
    }
    Ok(())
}

// A boot that was refused goes on where it stands, and its bytes give way.
#[test]
fn a_boot_replaces_the_bytes_of_the_last(rt: HostRuntime) -> Result<(), Fail> {
    let row = &BOOTS[21];
    let mut machine = debugged(&rt, rt.alloc(), 1, row.1, &[])?;
    boots(&rt, &mut machine, row, 0);
    let again: Boot = (1, row.1, &[], row.3, b"");
    boots(&rt, &mut machine, &again, 1);
    Ok(())
}

// Leaves into user mode, with an odd number written to dpc.
static TO_USER: [u32; 6] = [
    0x0010_0093, // addi x1,x0,1
    0x01f0_9093, // slli x1,x1,31
    0x0010_8093, // addi x1,x1,1
    0x7b10_9073, // csrrw x0,dpc,x1
    0x7b00_5073, // csrrwi x0,dcsr,0
    LEAVE,
];

// No memory stands at 0, where a hart goes that leaves with its debug registers at reset.
static NOWHERE: Event = Event::Exception {
    hart: 0,
    mode: Priv::M,
    pc: 0,
    cause: 1,
    tval: 0,
};

// Where hart 0 is, and in which mode.
fn place(rt: &impl Abort, machine: &Machine) -> (u64, Mode) {
    assert!(rt; 0 < machine.core().harts());
    let hart = machine.core().hart(0);
    (hart.pc(), hart.mode())
}

#[test]
fn a_hart_leaves_into_the_mode_of_dcsr(rt: HostRuntime) -> Result<(), Fail> {
    let mut machine = debugged(&rt, rt.alloc(), 1, &TO_USER, &[0x0070_0293])?; // addi x5,x0,7
    same(&rt, &machine.boot(), &Ok(6), "boot", 0);
    same(&rt, &place(&rt, &machine), &(BASE, Mode::U), "place", 0);
    let mut machine = debugged(&rt, rt.alloc(), 1, &[LEAVE], &[])?;
    same(&rt, &machine.boot(), &Ok(1), "boot", 1);
    same(&rt, &place(&rt, &machine), &(0, Mode::M), "place", 1);
    go(&rt, &mut machine, None);
    leaves(&rt, &machine, 1, b"");
    is_event(&rt, &machine, 0, NOWHERE);
    Ok(())
}

// Leaves to the first byte of memory in machine mode.
static TO_MEMORY: [u32; 4] = [
    0x0010_0093, // addi x1,x0,1
    0x01f0_9093, // slli x1,x1,31
    0x7b10_9073, // csrrw x0,dpc,x1
    LEAVE,
];

#[test]
fn turns_pass_after_a_boot(rt: HostRuntime) -> Result<(), Fail> {
    let mut machine = debugged(&rt, rt.alloc(), 1, &TO_MEMORY, &[0x0070_0293])?; // addi x5,x0,7
    same(&rt, &machine.boot(), &Ok(4), "boot", 0);
    go(&rt, &mut machine, None);
    shows(&rt, &machine, &[(0, 0, 0x0070_0293, Wrote(5, 7))]);
    counted(&rt, machine.core(), (1, 1), 0);
    Ok(())
}
