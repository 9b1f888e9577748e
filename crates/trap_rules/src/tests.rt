//! Traps by tables, reckoned by hand from the Privileged ISA: where a trap goes, what it leaves in the
//! registers, and which interrupt comes first.
use super::*;
use csr_file::CsrFile;
use csr_file::numbers::*;
use rv_alu::Mode;

/// The bits of `mstatus` that say that the registers have 64 bits.
const WIDE: u64 = 0xa_0000_0000;

const INTERRUPT: u64 = 0x8000_0000_0000_0000;
/// The interrupts in the order of the manual.
static ORDER: [u8; 6] = [11, 3, 7, 9, 1, 5];

fn write(csrs: &mut CsrFile, num: u16, v: u64) {
    if csrs.may(num, Mode::M, true).is_ok() {
        csrs.set(num, v);
    }
}

fn read(csrs: &CsrFile, num: u16) -> Option<u64> {
    match csrs.may(num, Mode::M, false) {
        Ok(()) => Some(csrs.get(num, 0)),
        Err(_) => None,
    }
}

/// A hart out of debug mode with these values.
fn hart(values: &[(u16, u64)]) -> CsrFile {
    let mut csrs = CsrFile::reset(0);
    for (num, v) in values.iter().copied() {
        write(&mut csrs, num, v);
    }
    csrs
}

/// Enters a trap where its conditions hold.
fn trap(csrs: &mut CsrFile, mode: Mode, cause: Cause, tval: u64, pc: u64) -> Option<(Mode, u64)> {
    if csrs.debug().is_some() || pc % 2 != 0 {
        return None;
    }
    match cause {
        Cause::Exception(n) => {
            if n >= 16 {
                return None;
            }
            Some(enter(csrs, mode, Cause::Exception(n), tval, pc))
        }
        Cause::Interrupt(n) => {
            if !may_take(csrs, mode, n) {
                return None;
            }
            Some(enter(csrs, mode, Cause::Interrupt(n), tval, pc))
        }
    }
}

fn return_from(csrs: &mut CsrFile, handler: Mode) -> Option<(Mode, u64)> {
    if csrs.debug().is_some() {
        return None;
    }
    match handler {
        Mode::M => Some(mret(csrs)),
        Mode::S => Some(sret(csrs)),
        Mode::U => None,
    }
}

#[test]
fn interrupts_come_in_the_order_of_the_manual(rt: HostRuntime) {
    let timer = hart(&[(MIE, 0x880), (MSTATUS, 8)]);
    for (live, want) in [(0x880, Some(11)), (0x80, Some(7)), (0, None)] {
        assert_eq!(rt; pick(&timer, Mode::M, live), want, "live {live}");
    }
    // all bound for M, and then the three of supervisor mode bound for S, which come after those for M
    let all_to_machine = hart(&[(MIE, 0xaaa), (MSTATUS, 8)]);
    let delegated = hart(&[(MIE, 0xaaa), (MIDELEG, 0x222)]);
    for (place, first) in ORDER.iter().copied().enumerate() {
        for (later, second) in ORDER.iter().copied().enumerate() {
            assert!(rt; first < 64 && second < 64);
            let live = 1 << first | 1 << second;
            let want = if place <= later { first } else { second };
            assert_eq!(rt;
                pick(&all_to_machine, Mode::M, live),
                Some(want),
                "{first} {second}"
            );
            assert_eq!(rt;
                pick(&delegated, Mode::U, live),
                Some(want),
                "{first} {second}"
            );
        }
    }
    // STI is bound for M here, and comes before SEI and SSI, which are bound for S
    let timer_first = hart(&[(MIE, 0xaaa), (MIDELEG, 0x202), (MIP, 0x222)]);
    assert_eq!(rt; pick(&timer_first, Mode::U, 0), Some(5));
    let software_first = hart(&[(MIE, 0x022), (MIDELEG, 0x222), (MIP, 0x222)]);
    assert_eq!(rt; pick(&software_first, Mode::U, 0), Some(1));
}

#[test]
fn interrupts_are_taken_in_the_modes_that_the_enables_say(rt: HostRuntime) {
    // mstatus, mideleg, and what a live SEI gives in U, S and M
    for (status, delegated, in_user, in_supervisor, in_machine) in [
        (0u64, 0u64, Some(9u8), Some(9u8), None::<u8>),
        (2, 0, Some(9), Some(9), None),
        (8, 0, Some(9), Some(9), Some(9)),
        (0, 0x200, Some(9), None, None),
        (2, 0x200, Some(9), Some(9), None),
        (8, 0x200, Some(9), None, None),
        (10, 0x200, Some(9), Some(9), None),
    ] {
        let csrs = hart(&[(MIE, 0x200), (MSTATUS, status), (MIDELEG, delegated)]);
        for (mode, want) in [
            (Mode::U, in_user),
            (Mode::S, in_supervisor),
            (Mode::M, in_machine),
        ] {
            assert_eq!(rt;
                pick(&csrs, mode, 0x200),
                want,
                "status {status} to {delegated}"
            );
            assert_eq!(rt; may_take(&csrs, mode, 9), want == Some(9));
            assert_eq!(rt; pick(&csrs, mode, 0x880), None);
        }
    }
    // in S with SIE clear, one bound for M is taken, though one bound for S is not
    let csrs = hart(&[(MIE, 0x280), (MIDELEG, 0x200)]);
    assert_eq!(rt; pick(&csrs, Mode::S, 0x280), Some(7));
    assert_eq!(rt; pick(&csrs, Mode::S, 0x200), None);
}

#[test]
fn an_interrupt_may_be_taken_by_its_own_signal_or_software_bit(rt: HostRuntime) {
    let quiet = hart(&[(MIE, 0xaaa), (MSTATUS, 8)]);
    let external = hart(&[(MIE, 0xaaa), (MSTATUS, 8), (MIP, 0x222)]);
    let software = hart(&[(MIE, 0xaaa), (MSTATUS, 8), (MIP, 0x022)]);
    let timer = hart(&[(MIE, 0xaaa), (MSTATUS, 8), (MIP, 0x020)]);
    for cause in 0..=255u8 {
        let machine = matches!(cause, 3 | 7 | 11);
        assert_eq!(rt;
            may_take(&quiet, Mode::M, cause),
            machine || cause == 9,
            "{cause}"
        );
        assert_eq!(rt;
            may_take(&external, Mode::M, cause),
            machine || cause == 9,
            "{cause}"
        );
        assert_eq!(rt;
            may_take(&software, Mode::M, cause),
            machine || cause == 9 || cause == 1,
            "{cause}"
        );
        assert_eq!(rt;
            may_take(&timer, Mode::M, cause),
            machine || cause == 9 || cause == 5,
            "{cause}"
        );
    }
}

#[test]
fn delegated_exceptions_go_to_supervisor_mode_but_not_from_machine_mode(rt: HostRuntime) {
    for number in 0..16u8 {
        for (mode, below) in [(Mode::U, true), (Mode::S, true), (Mode::M, false)] {
            // all that can be delegated, which 10, 11 and 14 cannot
            let can = !matches!(number, 10 | 11 | 14);
            for (delegation, to_supervisor) in [(0u64, false), (0xffff, below && can)] {
                let mut csrs = hart(&[(MEDELEG, delegation), (MTVEC, 0x100), (STVEC, 0x200)]);
                let want = if to_supervisor {
                    (Mode::S, 0x200)
                } else {
                    (Mode::M, 0x100)
                };
                let got = trap(&mut csrs, mode, Cause::Exception(number), 0, 0x40);
                assert_eq!(rt; got, Some(want), "exception {number}");
            }
        }
    }
}

/// One trap into machine or supervisor mode, with what it is to leave in `mstatus` and the pc.
struct Row {
    mode: Mode,
    cause: Cause,
    status: u64,
    vector: u64,
    after: u64,
    pc: u64,
}

static TO_MACHINE: [Row; 8] = [
    Row {
        mode: Mode::U,
        cause: Cause::Exception(2),
        status: 0x8,
        vector: 0x8000_1001,
        after: 0x80,
        pc: 0x8000_1000,
    },
    Row {
        mode: Mode::S,
        cause: Cause::Exception(9),
        status: 0x80,
        vector: 0x8000_1000,
        after: 0x800,
        pc: 0x8000_1000,
    },
    Row {
        mode: Mode::M,
        cause: Cause::Exception(5),
        status: 0x88,
        vector: 0x8000_1001,
        after: 0x1880,
        pc: 0x8000_1000,
    },
    Row {
        mode: Mode::M,
        cause: Cause::Interrupt(7),
        status: 0x8,
        vector: 0x8000_1001,
        after: 0x1880,
        pc: 0x8000_101c,
    },
    Row {
        mode: Mode::M,
        cause: Cause::Interrupt(7),
        status: 0x8,
        vector: 0x8000_1000,
        after: 0x1880,
        pc: 0x8000_1000,
    },
    Row {
        mode: Mode::S,
        cause: Cause::Interrupt(3),
        status: 0x2,
        vector: 0x8000_1001,
        after: 0x802,
        pc: 0x8000_100c,
    },
    Row {
        mode: Mode::U,
        cause: Cause::Interrupt(11),
        status: 0x2_1800,
        vector: 0xffff_ffff_ffff_fffd,
        after: 0x2_0000,
        pc: 0x28,
    },
    Row {
        mode: Mode::U,
        cause: Cause::Exception(12),
        status: 0x7e_01aa,
        vector: 0,
        after: 0x7e_01a2,
        pc: 0,
    },
];

static TO_SUPERVISOR: [Row; 6] = [
    Row {
        mode: Mode::U,
        cause: Cause::Interrupt(9),
        status: 0x102,
        vector: 0x8000_2001,
        after: 0x20,
        pc: 0x8000_2024,
    },
    Row {
        mode: Mode::U,
        cause: Cause::Interrupt(9),
        status: 0x100,
        vector: 0x8000_2000,
        after: 0x0,
        pc: 0x8000_2000,
    },
    Row {
        mode: Mode::S,
        cause: Cause::Interrupt(9),
        status: 0x2,
        vector: 0x8000_2001,
        after: 0x120,
        pc: 0x8000_2024,
    },
    Row {
        mode: Mode::U,
        cause: Cause::Exception(8),
        status: 0x0,
        vector: 0x8000_2001,
        after: 0x0,
        pc: 0x8000_2000,
    },
    Row {
        mode: Mode::S,
        cause: Cause::Exception(13),
        status: 0x20,
        vector: 0x8000_2000,
        after: 0x100,
        pc: 0x8000_2000,
    },
    Row {
        mode: Mode::S,
        cause: Cause::Exception(3),
        status: 0x7e_188a,
        vector: 0,
        after: 0x7e_19a8,
        pc: 0,
    },
];

fn word(cause: Cause) -> u64 {
    match cause {
        Cause::Exception(n) => u64::from(n),
        Cause::Interrupt(n) => INTERRUPT | u64::from(n),
    }
}

#[test]
fn entry_to_machine_mode_fills_the_machine_registers(rt: HostRuntime) {
    for row in &TO_MACHINE {
        let mut csrs = hart(&[(MIE, 0xaaa), (MTVEC, row.vector), (MSTATUS, row.status)]);
        let got = trap(&mut csrs, row.mode, row.cause, 0x1234, 0x8000_0006);
        assert_eq!(rt; got, Some((Mode::M, row.pc)));
        for (num, want) in [
            (MSTATUS, WIDE | row.after),
            (MEPC, 0x8000_0006),
            (MCAUSE, word(row.cause)),
            (MTVAL, 0x1234),
            (SEPC, 0),
            (SCAUSE, 0),
            (STVAL, 0),
        ] {
            assert_eq!(rt;
                read(&csrs, num),
                Some(want),
                "register {num} after status {}",
                row.status
            );
        }
    }
}

#[test]
fn entry_to_supervisor_mode_fills_the_supervisor_registers(rt: HostRuntime) {
    for row in &TO_SUPERVISOR {
        let mut csrs = hart(&[
            (MIE, 0xaaa),
            (MIDELEG, 0x222),
            (MEDELEG, 0xffff),
            (STVEC, row.vector),
            (MSTATUS, row.status),
        ]);
        let got = trap(&mut csrs, row.mode, row.cause, 0x1234, 0x8000_0006);
        assert_eq!(rt; got, Some((Mode::S, row.pc)));
        for (num, want) in [
            (MSTATUS, WIDE | row.after),
            (SEPC, 0x8000_0006),
            (SCAUSE, word(row.cause)),
            (STVAL, 0x1234),
            (MEPC, 0),
            (MCAUSE, 0),
            (MTVAL, 0),
        ] {
            assert_eq!(rt;
                read(&csrs, num),
                Some(want),
                "register {num} after status {}",
                row.status
            );
        }
    }
}

#[test]
fn returns_take_the_old_mode_and_enable_back(rt: HostRuntime) {
    for (handler, status, mode, after) in [
        (Mode::M, 0x1880, Mode::M, 0x88),
        (Mode::M, 0x2_1880, Mode::M, 0x2_0088),
        (Mode::M, 0x2_0880, Mode::S, 0x88),
        (Mode::M, 0x2_0008, Mode::U, 0x80),
        (Mode::S, 0x2_0120, Mode::S, 0x22),
        (Mode::S, 0x2, Mode::U, 0x20),
        (Mode::S, 0x2_19a2, Mode::S, 0x18a2),
    ] {
        let mut csrs = hart(&[(MSTATUS, status), (MEPC, 0x300), (SEPC, 0x400)]);
        let pc = if handler == Mode::M { 0x300 } else { 0x400 };
        let got = return_from(&mut csrs, handler);
        assert_eq!(rt; got, Some((mode, pc)), "status {status}");
        assert_eq!(rt; read(&csrs, MSTATUS), Some(WIDE | after), "status {status}");
    }
}

#[test]
fn nested_traps_return_in_turn(rt: HostRuntime) {
    let mut csrs = hart(&[
        (MSTATUS, 0xa),
        (MEDELEG, 0x100),
        (MTVEC, 0x1000),
        (STVEC, 0x2000),
    ]);
    // an environment call of U goes to S, a page fault there to M, and an illegal instruction there to M
    let first = trap(&mut csrs, Mode::U, Cause::Exception(8), 0, 0x10);
    assert_eq!(rt; first, Some((Mode::S, 0x2000)));
    assert_eq!(rt; read(&csrs, MSTATUS), Some(WIDE | 0x28));
    let second = trap(&mut csrs, Mode::S, Cause::Exception(13), 7, 0x2004);
    assert_eq!(rt; second, Some((Mode::M, 0x1000)));
    assert_eq!(rt; read(&csrs, MSTATUS), Some(WIDE | 0x8a0));
    let back = return_from(&mut csrs, Mode::M);
    assert_eq!(rt; back, Some((Mode::S, 0x2004)));
    assert_eq!(rt; read(&csrs, MSTATUS), Some(WIDE | 0xa8));
    let out = return_from(&mut csrs, Mode::S);
    assert_eq!(rt; out, Some((Mode::U, 0x10)));
    assert_eq!(rt; read(&csrs, MSTATUS), Some(WIDE | 0xaa));
}

#[test]
fn debug_mode_takes_no_interrupt_and_dret_leaves_it(rt: HostRuntime) {
    for (control, mode) in [(0, Mode::U), (1, Mode::S), (2, Mode::U), (3, Mode::M)] {
        let mut csrs = CsrFile::reset_debug(0);
        for (num, v) in [
            (MIE, 0xaaa),
            (MIP, 0x222),
            (MSTATUS, 0x2_1888),
            (DCSR, control),
            (DPC, 0x8000_0003),
        ] {
            write(&mut csrs, num, v);
        }
        assert_eq!(rt; pick(&csrs, Mode::M, 0xa88), None);
        assert!(rt; !may_take(&csrs, Mode::U, 11));
        assert!(rt; csrs.debug().is_some());
        let got = dret(&mut csrs);
        assert_eq!(rt; got, (mode, 0x8000_0002), "prv {control}");
        assert_eq!(rt; csrs.debug(), None);
        assert_eq!(rt; read(&csrs, MSTATUS), Some(WIDE | 0x2_1888));
        assert_eq!(rt; pick(&csrs, Mode::M, 0xa88), Some(11));
    }
}
