//! Small programs, and the turns that they make. The words are those of an assembler (llvm-mc), each with
//! its assembly beside it, and the expected events and registers are reckoned by hand from the manuals.

ghost use Rattle.std.specs.Prelude.{IsTrue};
ghost use Rattle.sim_config.specs.Ranges.{IsShape};

mod boot;
mod host_window;
mod reset;
mod steps;
mod timer;
mod unseen;

use crate::tests::steps::same;
use crate::{Machine, NoMemory, TurnEnd};
use Shown::{Loaded, Nothing, Stored, Volatile, Won, Wrote};
use guest_ram::{BASE, GuestRam};
use hart_step::{Event, Priv, Put};
use sim_config::Shape;
use std::alloc::Global;
use std::process::Abort;
use std::test::Fail;

// The host window of the machines that have one.
pub(crate) const WINDOW: u64 = 0x8000_1000;

pub(crate) const SMALL: u64 = 0x1_0000;

// Whether this is the shape of a machine, with the window at `WINDOW` or none.
pub(crate) fn is_shape(shape: Shape) -> bool
    ensures { IsTrue result → IsShape shape }
{
    let harts = 1 <= shape.harts && shape.harts <= 8;
    let ram = shape.ram == SMALL || shape.ram == 0x400_0000;
    let slice = 1 <= shape.slice && shape.slice <= 1024;
    harts && ram && slice && (shape.tohost == 0 || shape.tohost == WINDOW)
}

fn put_word(ram: &mut GuestRam, at: u64, word: u32) {
    if at % 4 == 0 && ram.has(at, 4) {
        ram.write(at, 4, u64::from(word));
    }
}

// Lays these words from the first byte of memory on.
pub(crate) fn put_words(ram: &mut GuestRam, words: &[u32]) {
    let mut at = BASE;
    for &word in words {
        put_word(ram, at, word);
        at = at.wrapping_add(4);
    }
}

// A machine of this shape at reset, with these words from the first byte of memory on.
pub(crate) fn machine_of(
    rt: &impl Abort,
    alloc: Global,
    shape: Shape,
    words: &[u32],
) -> Result<Machine, NoMemory> {
    assert!(rt; is_shape(shape));
    let mut ram = GuestRam::new(alloc, shape.ram)?;
    put_words(&mut ram, words);
    assert!(rt; ram.len() == shape.ram);
    Machine::reset(alloc, shape, ram, BASE)
}

// A machine with 64 KiB of memory and no host window.
pub(crate) fn small(
    rt: &impl Abort,
    alloc: Global,
    harts: u8,
    slice: u16,
    words: &[u32],
) -> Result<Machine, NoMemory> {
    let shape = Shape {
        harts,
        ram: SMALL,
        slice,
        tohost: 0,
    };
    machine_of(rt, alloc, shape, words)
}

// A turn, before which few bytes were taken.
fn turn(rt: &impl Abort, machine: &mut Machine, input: Option<u8>) -> TurnEnd {
    assert!(rt; machine.taken() < 1000);
    machine.turn(input)
}

// Makes a turn that ends so.
pub(crate) fn turn_ends(rt: &impl Abort, machine: &mut Machine, input: Option<u8>, want: TurnEnd) {
    let time = machine.board().time();
    same(
        rt,
        &turn(rt, machine, input),
        &want,
        "end of the turn at",
        time,
    );
}

// Makes a turn that goes on.
pub(crate) fn go(rt: &impl Abort, machine: &mut Machine, input: Option<u8>) {
    turn_ends(rt, machine, input, TurnEnd::Goes);
}

// How many bytes were taken, and the time.
pub(crate) fn stands(rt: &impl Abort, machine: &Machine, taken: u64, time: u64) {
    same(rt, &machine.taken(), &taken, "bytes taken at", time);
    same(
        rt,
        &machine.board().time(),
        &time,
        "time after bytes",
        taken,
    );
}

// How many input bytes wait.
pub(crate) fn waits(rt: &impl Abort, machine: &Machine, want: usize) {
    let console = machine.board().console();
    same(
        rt,
        &console.waiting(),
        &want,
        "waiting bytes at",
        machine.board().time(),
    );
}

// How many events the last turn has, and what it sent.
pub(crate) fn leaves(rt: &impl Abort, machine: &Machine, events: usize, sent: &[u8]) {
    let time = machine.board().time();
    same(rt, &machine.events().len(), &events, "events at", time);
    same(rt, &machine.output(), &sent, "output at", time);
}

// What a commit in machine mode shows beside its word.
#[derive(Clone, Copy)]
pub(crate) enum Shown {
    Nothing,
    // A register and the value that it gets.
    Wrote(u8, u64),
    // The address, the size and the value of a store.
    Stored(u64, u8, u64),
    // The register that gets 0, and the address and the value of a store-conditional of four bytes.
    Won(u8, u64, u64),
    // A register and the value that it gets from a device.
    Loaded(u8, u64),
    // A register and the value that it gets from a volatile register.
    Volatile(u8, u64),
}

// A commit: the hart, the pc as an offset from the first byte of memory, the word, and what it shows.
pub(crate) type Row = (u8, u64, u32, Shown);

fn written(shown: Shown) -> Option<(u8, u64)> {
    match shown {
        Nothing => None,
        Wrote(rd, value) => Some((rd, value)),
        Stored(_, _, _) => None,
        Won(rd, _, _) => Some((rd, 0)),
        Loaded(rd, value) => Some((rd, value)),
        Volatile(rd, value) => Some((rd, value)),
    }
}

fn stored(shown: Shown) -> Option<Put> {
    match shown {
        Stored(at, size, value) => Some(Put { at, size, value }),
        Won(_, at, value) => Some(Put { at, size: 4, value }),
        _ => None,
    }
}

fn answered(shown: Shown) -> Option<u64> {
    match shown {
        Loaded(_, value) => Some(value),
        _ => None,
    }
}

fn seen(shown: Shown) -> Option<u64> {
    match shown {
        Volatile(_, value) => Some(value),
        _ => None,
    }
}

pub(crate) fn commit(row: &Row) -> Event {
    let &(hart, offset, insn, shown) = row;
    Event::Commit {
        hart,
        mode: Priv::M,
        pc: BASE.wrapping_add(offset),
        insn,
        rd: written(shown),
        st: stored(shown),
        dv: answered(shown),
        vl: seen(shown),
    }
}

// Event number `i` of the last turn.
pub(crate) fn is_event(rt: &impl Abort, machine: &Machine, i: usize, want: Event) {
    let event = machine.events().get(i).copied();
    same(rt, &event, &Some(want), "event", i as u64);
}

// That the events of the last turn begin with these commits.
pub(crate) fn begins(rt: &impl Abort, machine: &Machine, rows: &[Row]) {
    let mut i = 0usize;
    for row in rows {
        is_event(rt, machine, i, commit(row));
        i = i.wrapping_add(1);
    }
}

// That the events of the last turn are these commits.
pub(crate) fn shows(rt: &impl Abort, machine: &Machine, rows: &[Row]) {
    leaves(rt, machine, rows.len(), b"");
    begins(rt, machine, rows);
}

pub(crate) fn reserves(rt: &impl Abort, machine: &Machine, h: u8, want: Option<u64>) {
    assert!(rt; h < machine.core().harts());
    let reservation = machine.core().reservation(h);
    same(rt, &reservation, &want, "reservation of hart", u64::from(h));
}

// Makes a turn of two harts, with these commits; after it hart 0 has this reservation and hart 1 none.
fn turn_shows(rt: &impl Abort, machine: &mut Machine, rows: &[Row], left: Option<u64>) {
    go(rt, machine, None);
    shows(rt, machine, rows);
    reserves(rt, machine, 0, left);
    reserves(rt, machine, 1, None);
}

// Hart 0 reserves and stores at 0x80000100, and hart 1 goes to the ninth word.
static RESERVE: [u32; 10] = [
    0xf140_2573, // csrrs x10,mhartid,x0
    0x0000_0597, // auipc x11,0
    0x0fc5_8593, // addi x11,x11,0xfc
    0x0005_1a63, // bne x10,x0,0x14
    0x1005_a62f, // lr.w x12,(x11)
    0x18b5_a6af, // sc.w x13,x11,(x11)
    0x0005_a703, // lw x14,0(x11)
    0x0000_006f, // jal x0,0
    0x0000_0013, // addi x0,x0,0
    0x0000_006f, // jal x0,0
];

// The first four turns.
static BEFORE: [[Row; 2]; 4] = [
    [
        (0, 0x00, 0xf140_2573, Wrote(10, 0)),
        (1, 0x00, 0xf140_2573, Wrote(10, 1)),
    ],
    [
        (0, 0x04, 0x0000_0597, Wrote(11, 0x8000_0004)),
        (1, 0x04, 0x0000_0597, Wrote(11, 0x8000_0004)),
    ],
    [
        (0, 0x08, 0x0fc5_8593, Wrote(11, 0x8000_0100)),
        (1, 0x08, 0x0fc5_8593, Wrote(11, 0x8000_0100)),
    ],
    [
        (0, 0x0c, 0x0005_1a63, Nothing),
        (1, 0x0c, 0x0005_1a63, Nothing),
    ],
];

// The last three turns, where the store-conditional wins.
static WINS: [[Row; 2]; 3] = [
    [
        (0, 0x10, 0x1005_a62f, Wrote(12, 0)),
        (1, 0x20, 0x0000_0013, Nothing),
    ],
    [
        (0, 0x14, 0x18b5_a6af, Won(13, 0x8000_0100, 0x8000_0100)),
        (1, 0x24, 0x0000_006f, Nothing),
    ],
    [
        (0, 0x18, 0x0005_a703, Wrote(14, 0xffff_ffff_8000_0100)),
        (1, 0x24, 0x0000_006f, Nothing),
    ],
];

// Where hart 1 has taken the reservation.
static LOSES: [[Row; 2]; 3] = [
    [
        (0, 0x10, 0x1005_a62f, Wrote(12, 0)),
        (1, 0x20, 0x00b5_83a3, Stored(0x8000_0107, 1, 0)),
    ],
    [
        (0, 0x14, 0x18b5_a6af, Wrote(13, 1)),
        (1, 0x24, 0x0000_006f, Nothing),
    ],
    [
        (0, 0x18, 0x0005_a703, Wrote(14, 0)),
        (1, 0x24, 0x0000_006f, Nothing),
    ],
];

// Two harts after the first four turns, where hart 1 goes to this word.
fn two_harts(rt: &impl Abort, alloc: Global, word: u32) -> Result<Machine, NoMemory> {
    let mut words = RESERVE;
    words[8] = word;
    let mut machine = small(rt, alloc, 2, 1, &words)?;
    for rows in &BEFORE {
        turn_shows(rt, &mut machine, rows, None);
    }
    Ok(machine)
}

#[test]
fn two_harts_take_turns(rt: HostRuntime) -> Result<(), Fail> {
    let mut machine = two_harts(&rt, rt.alloc(), 0x0000_0013)?; // addi x0,x0,0
    turn_shows(&rt, &mut machine, &WINS[0], Some(0x8000_0100));
    turn_shows(&rt, &mut machine, &WINS[1], None);
    turn_shows(&rt, &mut machine, &WINS[2], None);
    stands(&rt, &machine, 0, 7);
    Ok(())
}

#[test]
fn a_store_of_the_other_hart_takes_the_reservation(rt: HostRuntime) -> Result<(), Fail> {
    let mut machine = two_harts(&rt, rt.alloc(), 0x00b5_83a3)?; // sb x11,7(x11)
    for rows in &LOSES {
        turn_shows(&rt, &mut machine, rows, None);
    }
    Ok(())
}

#[test]
fn a_dropped_reservation_is_lost(rt: HostRuntime) -> Result<(), Fail> {
    let mut machine = two_harts(&rt, rt.alloc(), 0x0000_0013)?; // addi x0,x0,0
    turn_shows(&rt, &mut machine, &WINS[0], Some(0x8000_0100));
    machine.clear_reservations();
    shows(&rt, &machine, &WINS[0]);
    reserves(&rt, &machine, 0, None);
    turn_shows(&rt, &mut machine, &LOSES[1], None);
    turn_shows(&rt, &mut machine, &LOSES[2], None);
    Ok(())
}

// jal x0,0
pub(crate) static JUMPS: [u32; 1] = [0x0000_006f];

// Byte `i` of the input queue is this.
fn is_waiting(rt: &impl Abort, machine: &Machine, i: u8) {
    let console = machine.board().console();
    assert!(rt; usize::from(i) < console.waiting());
    same(
        rt,
        &console.byte(usize::from(i)),
        &i,
        "waiting byte",
        u64::from(i),
    );
}

// Makes a turn that is offered this byte: of the bytes 0 and on the first sixteen are taken.
fn offers(rt: &impl Abort, machine: &mut Machine, byte: u8) {
    go(rt, machine, Some(byte));
    let taken = byte.min(15) + 1;
    stands(rt, machine, u64::from(taken), u64::from(byte) + 1);
    waits(rt, machine, usize::from(taken));
    leaves(rt, machine, 16, b"");
}

#[test]
fn sixteen_input_bytes_are_taken(rt: HostRuntime) -> Result<(), Fail> {
    let mut machine = small(&rt, rt.alloc(), 1, 16, &JUMPS)?;
    for byte in 0..20u8 {
        offers(&rt, &mut machine, byte);
    }
    for i in 0..16u8 {
        is_waiting(&rt, &machine, i);
    }
    go(&rt, &mut machine, None);
    stands(&rt, &machine, 16, 21);
    Ok(())
}

// Loads a byte from the console and stores it there, again and again.
static ECHO: [u32; 4] = [
    0x1000_0337, // lui x6,0x10000
    0x0003_4283, // lbu x5,0(x6)
    0x0053_0023, // sb x5,0(x6)
    0xff9f_f06f, // jal x0,-8
];

static ECHOED: [Row; 3] = [
    (0, 0x0c, 0xff9f_f06f, Nothing),
    (0, 0x04, 0x0003_4283, Loaded(5, 0x78)),
    (0, 0x08, 0x0053_0023, Stored(0x1000_0000, 1, 0x78)),
];

#[test]
fn a_byte_is_read_in_the_turn_after_it_was_taken(rt: HostRuntime) -> Result<(), Fail> {
    let mut machine = small(&rt, rt.alloc(), 1, 3, &ECHO)?;
    go(&rt, &mut machine, Some(b'x'));
    leaves(&rt, &machine, 3, b"\0");
    go(&rt, &mut machine, None);
    leaves(&rt, &machine, 3, b"x");
    begins(&rt, &machine, &ECHOED);
    stands(&rt, &machine, 1, 2);
    waits(&rt, &machine, 0);
    Ok(())
}

fn hart_of(event: Event) -> u64 {
    match event {
        Event::Commit { hart, .. } => u64::from(hart),
        Event::Exception { hart, .. } => u64::from(hart),
        Event::Interrupt { hart, .. } => u64::from(hart),
        Event::Host { .. } => 99,
    }
}

// That the events of the last turn are of the harts in order, so many of each.
fn in_order(rt: &impl Abort, machine: &Machine, slice: u16) {
    let mut i = 0u64;
    for &event in machine.events() {
        same(
            rt,
            &hart_of(event),
            &(i / u64::from(slice.max(1))),
            "hart of event",
            i,
        );
        i = i.wrapping_add(1);
    }
}

// Makes two turns of eight harts.
fn eight_harts(rt: &impl Abort, alloc: Global, slice: u16) -> Result<(), NoMemory> {
    let mut machine = small(rt, alloc, 8, slice, &JUMPS)?;
    for turns in 1..3u64 {
        go(rt, &mut machine, None);
        leaves(rt, &machine, 8 * usize::from(slice), b"");
        in_order(rt, &machine, slice);
        stands(rt, &machine, 0, turns);
    }
    Ok(())
}

#[test]
fn eight_harts_step_in_order(rt: HostRuntime) -> Result<(), Fail> {
    for slice in [1u16, 2, 1024] {
        eight_harts(&rt, rt.alloc(), slice)?;
    }
    Ok(())
}

static COUNTERS: [u32; 4] = [
    0xc010_22f3, // csrrs x5,time,x0
    0xb000_2373, // csrrs x6,mcycle,x0
    0xc010_22f3, // csrrs x5,time,x0
    0xc000_2473, // csrrs x8,cycle,x0
];

static COUNTED: [[Row; 2]; 2] = [
    [
        (0, 0x00, 0xc010_22f3, Volatile(5, 0)),
        (0, 0x04, 0xb000_2373, Volatile(6, 1)),
    ],
    [
        (0, 0x08, 0xc010_22f3, Volatile(5, 1)),
        (0, 0x0c, 0xc000_2473, Volatile(8, 3)),
    ],
];

// Makes the timer of hart 1 due.
static SIGNALS: [u32; 3] = [
    0x0200_4337, // lui x6,0x2004
    0x0003_3423, // sd x0,8(x6)
    0x3440_23f3, // csrrs x7,mip,x0
];

static SIGNALLED: [Row; 6] = [
    (0, 0x00, 0x0200_4337, Wrote(6, 0x200_4000)),
    (0, 0x04, 0x0003_3423, Stored(0x200_4008, 8, 0)),
    (0, 0x08, 0x3440_23f3, Volatile(7, 0)),
    (1, 0x00, 0x0200_4337, Wrote(6, 0x200_4000)),
    (1, 0x04, 0x0003_3423, Stored(0x200_4008, 8, 0)),
    (1, 0x08, 0x3440_23f3, Volatile(7, 0x80)),
];

#[test]
fn volatile_registers_read_as_the_board_says(rt: HostRuntime) -> Result<(), Fail> {
    let mut machine = small(&rt, rt.alloc(), 1, 2, &COUNTERS)?;
    for rows in &COUNTED {
        go(&rt, &mut machine, None);
        shows(&rt, &machine, rows);
    }
    Ok(())
}

#[test]
fn a_timer_signals_its_own_hart(rt: HostRuntime) -> Result<(), Fail> {
    let mut machine = small(&rt, rt.alloc(), 2, 3, &SIGNALS)?;
    go(&rt, &mut machine, None);
    shows(&rt, &machine, &SIGNALLED);
    Ok(())
}
