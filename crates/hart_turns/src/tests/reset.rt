//! A machine at reset: its harts, its registers and its devices.

use crate::Machine;
use crate::tests::Shown::{Loaded, Wrote};
use crate::tests::steps::same;
use crate::tests::{JUMPS, Row, SMALL, go, leaves, reserves, shows, small, stands, waits};
use board_bus::Board;
use csr_file::numbers;
use guest_ram::BASE;
use hart_step::Hart;
use rv_alu::Mode;
use std::process::Abort;
use std::test::Fail;

// Registers at reset, but for mhartid (Privileged ISA, "Reset", and the choices of this board).
static AT_RESET: [(u16, u64); 36] = [
    (numbers::MSTATUS, 0xa_0000_0000),
    (numbers::MISA, 0x8000_0000_0014_1105),
    (numbers::MEDELEG, 0),
    (numbers::MIDELEG, 0),
    (numbers::MIE, 0),
    (numbers::MTVEC, 0),
    (numbers::MCOUNTEREN, 0),
    (numbers::MENVCFG, 0),
    (numbers::MCOUNTINHIBIT, 0),
    (numbers::MSCRATCH, 0),
    (numbers::MEPC, 0),
    (numbers::MCAUSE, 0),
    (numbers::MTVAL, 0),
    (numbers::MIP, 0),
    (numbers::SSTATUS, 0x2_0000_0000),
    (numbers::SIE, 0),
    (numbers::STVEC, 0),
    (numbers::SCOUNTEREN, 0),
    (numbers::SENVCFG, 0),
    (numbers::SSCRATCH, 0),
    (numbers::SEPC, 0),
    (numbers::SCAUSE, 0),
    (numbers::STVAL, 0),
    (numbers::SIP, 0),
    (numbers::SATP, 0),
    (numbers::MINSTRET, 0),
    (numbers::INSTRET, 0),
    (numbers::MVENDORID, 0),
    (numbers::MARCHID, 0),
    (numbers::MIMPID, 0),
    (numbers::MCONFIGPTR, 0),
    (numbers::MHPMEVENT_FIRST, 0),
    (numbers::MHPMCOUNTER_LAST, 0),
    (numbers::HPMCOUNTER_LAST, 0),
    (numbers::PMPCFG_FIRST, 0),
    (numbers::PMPADDR_LAST, 0),
];

// What a hart reads of a register in machine mode, where its volatile bits are 0; none where it may not.
fn csr(hart: &Hart, number: u16) -> Option<u64> {
    match hart.csrs().may(number, Mode::M, false) {
        Ok(()) => Some(hart.csrs().get(number, 0)),
        Err(_) => None,
    }
}

// A hart reads this of a register.
fn is_csr(rt: &impl Abort, hart: &Hart, number: u16, want: Option<u64>) {
    same(rt, &csr(hart, number), &want, "register", u64::from(number));
}

// That a hart is at reset.
fn look_at_hart(rt: &impl Abort, machine: &Machine, h: u8) {
    reserves(rt, machine, h, None);
    assert!(rt; h < machine.core().harts());
    let hart = machine.core().hart(h);
    same(rt, &hart.pc(), &BASE, "pc of hart", u64::from(h));
    same(rt, &hart.mode(), &Mode::M, "mode of hart", u64::from(h));
    for i in 0..32u8 {
        same(rt, &hart.x(i), &0, "value of x", u64::from(i));
    }
    for &(number, value) in &AT_RESET {
        is_csr(rt, hart, number, Some(value));
    }
    is_csr(rt, hart, numbers::MHARTID, Some(u64::from(h)));
    is_csr(rt, hart, numbers::DCSR, None);
}

// That the software interrupt and the timer of a hart are at reset.
fn look_at_timer(rt: &impl Abort, board: &Board, h: u8) {
    let h = u64::from(h);
    same(rt, &board.clint().load(4 * h, 4), &Ok(0), "msip of hart", h);
    let compare = board.clint().load(0x4000 + 8 * h, 8);
    same(rt, &compare, &Ok(u64::MAX), "mtimecmp of hart", h);
}

// That the devices of a board of so many harts are at reset.
fn look_at_board(rt: &impl Abort, board: &Board, harts: u8) {
    for h in 0..harts {
        look_at_timer(rt, board, h);
    }
    assert!(rt; board.clint().load(4 * u64::from(harts), 4).is_err());
    same(rt, &board.plic().priority(1), &0, "priority of source", 1);
    same(rt, &board.plic().priority(2), &0, "priority of source", 2);
    same(rt, &board.plic().served(), &0, "served sources of board", 0);
    same(rt, &board.console().ctrl(), &0, "control of console", 0);
    same(rt, &board.console().txaddr(), &0, "address of console", 0);
}

// That a machine of so many harts and 1024 steps is at reset.
fn look_at_machine(rt: &impl Abort, machine: &Machine, harts: u8) {
    same(
        rt,
        &machine.core().harts(),
        &harts,
        "harts of",
        u64::from(harts),
    );
    stands(rt, machine, 0, 0);
    waits(rt, machine, 0);
    leaves(rt, machine, 0, b"");
    assert!(rt; machine.running());
    same(
        rt,
        &machine.core().in_debug(),
        &None,
        "debugged hart of",
        u64::from(harts),
    );
    same(
        rt,
        &machine.core().ram().len(),
        &SMALL,
        "bytes of memory",
        0,
    );
    same(
        rt,
        &machine.core().rom().len(),
        &0,
        "bytes of boot memory",
        0,
    );
    same(
        rt,
        &machine.shape().harts,
        &harts,
        "shape of",
        u64::from(harts),
    );
    same(
        rt,
        &machine.shape().slice,
        &1024,
        "slice of",
        u64::from(harts),
    );
}

#[test]
fn a_machine_begins_at_reset(rt: HostRuntime) -> Result<(), Fail> {
    for harts in [1u8, 8] {
        let machine = small(&rt, rt.alloc(), harts, 1024, &JUMPS)?;
        for h in 0..harts {
            look_at_hart(&rt, &machine, h);
        }
        look_at_board(&rt, machine.board(), harts);
        look_at_machine(&rt, &machine, harts);
    }
    Ok(())
}

// Loads the enables and the thresholds of hart 0's two contexts.
static CONTEXTS: [u32; 7] = [
    0x0c00_2337, // lui x6,0xc002
    0x0003_2283, // lw x5,0(x6)
    0x0803_2283, // lw x5,0x80(x6)
    0x0c20_0337, // lui x6,0xc200
    0x0003_2283, // lw x5,0(x6)
    0x0c20_1337, // lui x6,0xc201
    0x0003_2283, // lw x5,0(x6)
];

static NONE_ENABLED: [Row; 7] = [
    (0, 0x00, 0x0c00_2337, Wrote(6, 0xc00_2000)),
    (0, 0x04, 0x0003_2283, Loaded(5, 0)),
    (0, 0x08, 0x0803_2283, Loaded(5, 0)),
    (0, 0x0c, 0x0c20_0337, Wrote(6, 0xc20_0000)),
    (0, 0x10, 0x0003_2283, Loaded(5, 0)),
    (0, 0x14, 0x0c20_1337, Wrote(6, 0xc20_1000)),
    (0, 0x18, 0x0003_2283, Loaded(5, 0)),
];

#[test]
fn the_interrupt_controller_begins_with_nothing_enabled(rt: HostRuntime) -> Result<(), Fail> {
    let mut machine = small(&rt, rt.alloc(), 1, 7, &CONTEXTS)?;
    go(&rt, &mut machine, None);
    shows(&rt, &machine, &NONE_ENABLED);
    Ok(())
}
