//! The host window: words that end the run or send a byte, and when they are looked at.

use crate::tests::Shown::{Nothing, Stored, Wrote};
use crate::tests::steps::same;
use crate::tests::{
    Row, SMALL, WINDOW, begins, go, is_event, leaves, machine_of, shows, stands, turn_ends, waits,
};
use crate::{Machine, NoMemory, TurnEnd};
use hart_step::Event;
use sim_config::Shape;
use std::alloc::Global;
use std::process::Abort;
use std::test::Fail;

// The word at the host window.
fn window(rt: &impl Abort, machine: &Machine) -> u64 {
    let ram = machine.core().ram();
    assert!(rt; ram.has(WINDOW, 8));
    ram.read(WINDOW, 8)
}

// Stores 0x0101000000000041 to the window.
static SENDS: [u32; 6] = [
    0x1010_0293, // addi x5,x0,0x101
    0x0302_9293, // slli x5,x5,48
    0x0412_e293, // ori x5,x5,0x41
    0x0000_1317, // auipc x6,1
    0xfe53_3a23, // sd x5,-12(x6)
    0x0000_006f, // jal x0,0
];

static SENT: [Row; 5] = [
    (0, 0x00, 0x1010_0293, Wrote(5, 0x101)),
    (0, 0x04, 0x0302_9293, Wrote(5, 0x0101_0000_0000_0000)),
    (0, 0x08, 0x0412_e293, Wrote(5, 0x0101_0000_0000_0041)),
    (0, 0x0c, 0x0000_1317, Wrote(6, 0x8000_100c)),
    (
        0,
        0x10,
        0xfe53_3a23,
        Stored(WINDOW, 8, 0x0101_0000_0000_0041),
    ),
];

static WAITS: [Row; 5] = [
    (0, 0x14, 0x0000_006f, Nothing),
    (0, 0x14, 0x0000_006f, Nothing),
    (0, 0x14, 0x0000_006f, Nothing),
    (0, 0x14, 0x0000_006f, Nothing),
    (0, 0x14, 0x0000_006f, Nothing),
];

#[test]
fn the_host_takes_a_byte(rt: HostRuntime) -> Result<(), Fail> {
    let shape = Shape {
        harts: 1,
        ram: SMALL,
        slice: 5,
        tohost: WINDOW,
    };
    let mut machine = machine_of(&rt, rt.alloc(), shape, &SENDS)?;
    go(&rt, &mut machine, None);
    leaves(&rt, &machine, 6, b"A");
    begins(&rt, &machine, &SENT);
    let host = Event::Host {
        word: 0x0101_0000_0000_0041,
    };
    is_event(&rt, &machine, 5, host);
    same(&rt, &window(&rt, &machine), &0, "word in the window at", 1);
    stands(&rt, &machine, 0, 1);
    // The next turn keeps nothing of this one.
    go(&rt, &mut machine, None);
    shows(&rt, &machine, &WAITS);
    Ok(())
}

// What the first word loads into x5 is stored to the window.
static STORES: [u32; 4] = [
    0x0010_0293, // addi x5,x0,1
    0x0000_1317, // auipc x6,1
    0xfe53_3e23, // sd x5,-4(x6)
    0x0000_006f, // jal x0,0
];

// The first turn, to which an input byte is offered, and the second one end so; `passed` is 1 where they
// go on.
fn both_end(rt: &impl Abort, machine: &mut Machine, want: TurnEnd, passed: u8) {
    let once = u64::from(passed);
    turn_ends(rt, machine, Some(b'x'), want);
    stands(rt, machine, once, once);
    waits(rt, machine, usize::from(passed));
    same(
        rt,
        &machine.board().clint().load(0xbff8, 8),
        &Ok(once),
        "mtime at",
        once,
    );
    leaves(rt, machine, 64, b"");
    // The word stays, so the next turn ends as well.
    turn_ends(rt, machine, None, want);
    stands(rt, machine, once, 2 * once);
}

// How the first two turns end, where this word is the program's first.
fn ends(
    rt: &impl Abort,
    alloc: Global,
    first: u32,
    tohost: u64,
    want: TurnEnd,
) -> Result<(), NoMemory> {
    let shape = Shape {
        harts: 1,
        ram: 0x400_0000,
        slice: 64,
        tohost,
    };
    let mut words = STORES;
    words[0] = first;
    let mut machine = machine_of(rt, alloc, shape, &words)?;
    let passed = if want == TurnEnd::Goes { 1 } else { 0 };
    both_end(rt, &mut machine, want, passed);
    Ok(())
}

// The first word, the host window, and how the turns end.
static ENDS: [(u32, u64, TurnEnd); 5] = [
    (0x0010_0293, WINDOW, TurnEnd::Ended(0)), // addi x5,x0,1
    (0x0030_0293, WINDOW, TurnEnd::Ended(1)), // addi x5,x0,3
    (0x0020_0293, WINDOW, TurnEnd::BadHost(2)), // addi x5,x0,2
    (0x0000_0013, WINDOW, TurnEnd::Goes), // addi x0,x0,0
    (0x0010_0293, 0, TurnEnd::Goes), // no window
];

#[test]
fn a_turn_ends_by_the_word_in_the_window(rt: HostRuntime) -> Result<(), Fail> {
    for &(first, tohost, want) in &ENDS {
        ends(&rt, rt.alloc(), first, tohost, want)?;
    }
    Ok(())
}

// Hart 0 stores 1 to the window, and hart 1 stores 0 there.
static TAKEN_BACK: [u32; 7] = [
    0xf140_2573, // csrrs x10,mhartid,x0
    0x0010_0293, // addi x5,x0,1
    0x0000_1317, // auipc x6,1
    0x0005_0463, // beq x10,x0,8
    0x0000_0293, // addi x5,x0,0
    0xfe53_3c23, // sd x5,-8(x6)
    0x0000_006f, // jal x0,0
];

// The harts, the slice, and how the first turn ends.
static TAKEN_BACK_ENDS: [(u8, u16, TurnEnd); 4] = [
    (1, 6, TurnEnd::Ended(0)),
    (2, 6, TurnEnd::Goes),
    (2, 5, TurnEnd::Ended(0)),
    (1, 4, TurnEnd::Goes),
];

// How the first turn of so many harts and steps ends.
fn takes_back(
    rt: &impl Abort,
    alloc: Global,
    harts: u8,
    slice: u16,
    want: TurnEnd,
) -> Result<(), NoMemory> {
    let shape = Shape {
        harts,
        ram: SMALL,
        slice,
        tohost: WINDOW,
    };
    let mut machine = machine_of(rt, alloc, shape, &TAKEN_BACK)?;
    turn_ends(rt, &mut machine, None, want);
    Ok(())
}

#[test]
fn the_window_is_looked_at_after_all_harts(rt: HostRuntime) -> Result<(), Fail> {
    for &(harts, slice, want) in &TAKEN_BACK_ENDS {
        takes_back(&rt, rt.alloc(), harts, slice, want)?;
    }
    Ok(())
}
