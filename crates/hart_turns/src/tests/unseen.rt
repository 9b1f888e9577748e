//! Turns that keep no events come to the same as those that do.

use crate::tests::steps::same;
use crate::tests::{SMALL, WINDOW, machine_of};
use crate::{Machine, NoMemory, TurnEnd};
use sim_config::Shape;
use std::alloc::Global;
use std::process::Abort;
use std::test::Fail;

// A program, how many harts make it and in how large slices, and what comes of the second of its turns, to each
// of which a byte is offered: how it ends, how many bytes were taken, how many events it has, and what it sent.
struct Row {
    words: [u32; 6],
    harts: u8,
    slice: u16,
    end: TurnEnd,
    taken: u64,
    events: usize,
    sent: &'static [u8],
}

static ROWS: [Row; 5] = [
    // Sends a byte through the window.
    Row {
        words: [
            0x1010_0293, // addi x5,x0,0x101
            0x0302_9293, // slli x5,x5,48
            0x0412_e293, // ori x5,x5,0x41
            0x0000_1317, // auipc x6,1
            0xfe53_3a23, // sd x5,-12(x6)
            0x0000_006f, // jal x0,0
        ],
        harts: 1,
        slice: 3,
        end: TurnEnd::Goes,
        taken: 2,
        events: 4,
        sent: b"A",
    },
    // Ends in its second turn.
    Row {
        words: [
            0x0030_0293, // addi x5,x0,3
            0x0000_1317, // auipc x6,1
            0xfe53_3e23, // sd x5,-4(x6)
            0x0000_006f, // jal x0,0
            0,
            0,
        ],
        harts: 1,
        slice: 2,
        end: TurnEnd::Ended(1),
        taken: 1,
        events: 2,
        sent: b"",
    },
    // Leaves a word that is not understood.
    Row {
        words: [
            0x0020_0293, // addi x5,x0,2
            0x0000_1317, // auipc x6,1
            0xfe53_3e23, // sd x5,-4(x6)
            0x0000_006f, // jal x0,0
            0,
            0,
        ],
        harts: 1,
        slice: 2,
        end: TurnEnd::BadHost(2),
        taken: 1,
        events: 2,
        sent: b"",
    },
    // Loads a byte from the console and stores it there.
    Row {
        words: [
            0x1000_0337, // lui x6,0x10000
            0x0003_4283, // lbu x5,0(x6)
            0x0053_0023, // sb x5,0(x6)
            0xff9f_f06f, // jal x0,-8
            0,
            0,
        ],
        harts: 1,
        slice: 3,
        end: TurnEnd::Goes,
        taken: 2,
        events: 3,
        sent: b"x",
    },
    // Goes on.
    Row {
        words: [0x0000_006f, 0, 0, 0, 0, 0], // jal x0,0
        harts: 8,
        slice: 2,
        end: TurnEnd::Goes,
        taken: 2,
        events: 16,
        sent: b"",
    },
];

// Which of two turns keep no events.
static WAYS: [[bool; 2]; 4] = [[false, false], [false, true], [true, false], [true, true]];

// A turn that is offered a byte.
fn turn(rt: &impl Abort, machine: &mut Machine, unseen: bool) -> TurnEnd {
    assert!(rt; machine.taken() < 1000);
    if unseen {
        machine.turn_unseen(Some(b'x'))
    } else {
        machine.turn(Some(b'x'))
    }
}

// What comes of the second of two turns.
fn comes_to(rt: &impl Abort, alloc: Global, row: &Row, way: [bool; 2]) -> Result<(), NoMemory> {
    let shape = Shape {
        harts: row.harts,
        ram: SMALL,
        slice: row.slice,
        tohost: WINDOW,
    };
    let mut machine = machine_of(rt, alloc, shape, &row.words)?;
    let goes = turn(rt, &mut machine, way[0]);
    same(rt, &goes, &TurnEnd::Goes, "end of the first turn", 1);
    let end = turn(rt, &mut machine, way[1]);
    same(rt, &end, &row.end, "end of the second turn", 2);
    has_left(rt, &machine, row, way[1]);
    Ok(())
}

// What the second turn left.
fn has_left(rt: &impl Abort, machine: &Machine, row: &Row, unseen: bool) {
    let events = if unseen { 0 } else { row.events };
    same(
        rt,
        &machine.taken(),
        &row.taken,
        "bytes taken of",
        u64::from(row.slice),
    );
    same(
        rt,
        &machine.events().len(),
        &events,
        "events of",
        u64::from(row.slice),
    );
    same(
        rt,
        &machine.output(),
        &row.sent,
        "output of",
        u64::from(row.slice),
    );
}

#[test]
fn turns_without_events_come_to_the_same(rt: HostRuntime) -> Result<(), Fail> {
    for row in &ROWS {
        for &way in &WAYS {
            comes_to(&rt, rt.alloc(), row, way)?;
        }
    }
    Ok(())
}
