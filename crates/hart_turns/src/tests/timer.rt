//! The timer's interrupt: the step in which it comes.

use crate::tests::Shown::{Nothing, Stored, Wrote};
use crate::tests::{Row, commit, go, is_event, leaves, small, stands};
use crate::{Machine, NoMemory};
use hart_step::Event;
use std::alloc::Global;
use std::process::Abort;
use std::test::Fail;

// Makes the timer's interrupt ready to be taken, then stores what the first word loads into x9 to
// mtimecmp of hart 0 and waits.
static TIMER: [u32; 13] = [
    0x0000_0493, // addi x9,x0,0
    0x0000_0297, // auipc x5,0
    0x0282_8293, // addi x5,x5,0x28
    0x3052_9073, // csrrw x0,mtvec,x5
    0x0800_0393, // addi x7,x0,0x80
    0x3043_9073, // csrrw x0,mie,x7
    0x3004_6073, // csrrsi x0,mstatus,8
    0x0200_4337, // lui x6,0x2004
    0x0093_3023, // sd x9,0(x6)
    0x1050_0073, // wfi
    0x0000_006f, // jal x0,0
    0x3420_2473, // csrrs x8,mcause,x0
    0x0000_006f, // jal x0,0
];

static READY: [Row; 8] = [
    (0, 0x04, 0x0000_0297, Wrote(5, 0x8000_0004)),
    (0, 0x08, 0x0282_8293, Wrote(5, 0x8000_002c)),
    (0, 0x0c, 0x3052_9073, Nothing),
    (0, 0x10, 0x0800_0393, Wrote(7, 0x80)),
    (0, 0x14, 0x3043_9073, Nothing),
    (0, 0x18, 0x3004_6073, Nothing),
    (0, 0x1c, 0x0200_4337, Wrote(6, 0x200_4000)),
    (0, 0x20, 0x0093_3023, Stored(0x200_4000, 8, 0)),
];

// The two words after these, and the handler's first.
static WAITING: Row = (0, 0x24, 0x1050_0073, Nothing);

static WAITED: Row = (0, 0x28, 0x0000_006f, Nothing);

static HANDLED: Row = (0, 0x2c, 0x3420_2473, Wrote(8, 0x8000_0000_0000_0007));

static TAKEN: Event = Event::Interrupt { hart: 0, cause: 7 };

// That the next turn begins with a timer interrupt of hart 0 and its handler.
fn handles(rt: &impl Abort, machine: &mut Machine) {
    go(rt, machine, None);
    is_event(rt, machine, 0, TAKEN);
    is_event(rt, machine, 1, commit(&HANDLED));
}

// The machine after a turn of so many steps, where this is the program's first word.
fn timed(rt: &impl Abort, alloc: Global, first: u32, slice: u16) -> Result<Machine, NoMemory> {
    let mut words = TIMER;
    words[0] = first;
    let mut machine = small(rt, alloc, 1, slice, &words)?;
    go(rt, &mut machine, None);
    leaves(rt, &machine, usize::from(slice), b"");
    Ok(machine)
}

#[test]
fn the_timer_interrupts_the_step_where_it_is_due(rt: HostRuntime) -> Result<(), Fail> {
    let machine = timed(&rt, rt.alloc(), 0x0000_0493, 10)?; // addi x9,x0,0
    let mut i = 1usize;
    for row in &READY {
        is_event(&rt, &machine, i, commit(row));
        i = i.wrapping_add(1);
    }
    is_event(&rt, &machine, 9, TAKEN);
    Ok(())
}

#[test]
fn an_interrupt_of_the_last_step_comes_first_in_the_next_turn(rt: HostRuntime) -> Result<(), Fail> {
    let mut machine = timed(&rt, rt.alloc(), 0x0000_0493, 9)?; // addi x9,x0,0
    is_event(&rt, &machine, 8, commit(&READY[7]));
    handles(&rt, &mut machine);
    Ok(())
}

#[test]
fn an_interrupt_comes_with_the_tick_that_makes_it_due(rt: HostRuntime) -> Result<(), Fail> {
    let mut machine = timed(&rt, rt.alloc(), 0x0020_0493, 11)?; // addi x9,x0,2
    is_event(&rt, &machine, 9, commit(&WAITING));
    is_event(&rt, &machine, 10, commit(&WAITED));
    go(&rt, &mut machine, None);
    for i in 0..11usize {
        is_event(&rt, &machine, i, commit(&WAITED));
    }
    handles(&rt, &mut machine);
    stands(&rt, &machine, 0, 3);
    Ok(())
}
