//! The table of registers as data, reckoned by hand from the register layouts of the Privileged ISA and
//! from the choices of this board.
use super::*;
use masks::*;
use numbers::*;
use rv_alu::Mode;

const ONES: u64 = 0xffff_ffff_ffff_ffff;

/// What is read in machine mode, with no live bits; None where the read is refused.
fn read(csrs: &CsrFile, num: u16) -> Option<u64> {
    match csrs.may(num, Mode::M, false) {
        Ok(()) => Some(csrs.get(num, 0)),
        Err(Illegal) => None,
    }
}

/// Writes in machine mode, and tells whether that was allowed.
fn write(csrs: &mut CsrFile, num: u16, v: u64) -> bool {
    match csrs.may(num, Mode::M, true) {
        Ok(()) => {
            csrs.set(num, v);
            true
        }
        Err(Illegal) => false,
    }
}

fn may(csrs: &CsrFile, num: u16, mode: Mode, write: bool) -> bool {
    csrs.may(num, mode, write).is_ok()
}

/// How many of the 4,096 numbers may be read in a mode.
fn readable(csrs: &CsrFile, mode: Mode) -> u16 {
    let mut count = 0u16;
    for num in 0..4096u16 {
        if may(csrs, num, mode, false) {
            count = count.saturating_add(1);
        }
    }
    count
}

/// Number, value at reset, value after all ones are written, lowest mode, and whether it may be written.
/// No counter is enabled below machine mode at reset, and volatile counters read the given word, which is 0.
static ROWS: [(u16, u64, u64, u8, bool); 44] = [
    (0x100, 0x2_0000_0000, 0x2_000c_0122, 1, true),
    (0x104, 0, 0, 1, true),
    (0x105, 0, 0xffff_ffff_ffff_fffd, 1, true),
    (0x106, 0, 7, 1, true),
    (0x10a, 0, 1, 1, true),
    (0x140, 0, ONES, 1, true),
    (0x141, 0, 0xffff_ffff_ffff_fffe, 1, true),
    (0x142, 0, ONES, 1, true),
    (0x143, 0, ONES, 1, true),
    (0x144, 0, 0, 1, true),
    (0x180, 0, 0, 1, true),
    (0x300, 0xa_0000_0000, 0xa_007e_19aa, 3, true),
    (0x301, 0x8000_0000_0014_1105, 0x8000_0000_0014_1105, 3, true),
    (0x302, 0, 0xb3ff, 3, true),
    (0x303, 0, 0x222, 3, true),
    (0x304, 0, 0xaaa, 3, true),
    (0x305, 0, 0xffff_ffff_ffff_fffd, 3, true),
    (0x306, 0, 7, 3, true),
    (0x30a, 0, 1, 3, true),
    (0x320, 0, 0, 3, true),
    (0x323, 0, 0, 3, true),
    (0x33f, 0, 0, 3, true),
    (0x340, 0, ONES, 3, true),
    (0x341, 0, 0xffff_ffff_ffff_fffe, 3, true),
    (0x342, 0, ONES, 3, true),
    (0x343, 0, ONES, 3, true),
    (0x344, 0, 0x222, 3, true),
    (0x3a0, 0, 0, 3, true),
    (0x3ae, 0, 0, 3, true),
    (0x3b0, 0, 0, 3, true),
    (0x3ef, 0, 0, 3, true),
    (0xb00, 0, 0, 3, true),
    (0xb02, 0, ONES, 3, true),
    (0xb03, 0, 0, 3, true),
    (0xb1f, 0, 0, 3, true),
    (0xc00, 0, 0, 3, false),
    (0xc01, 0, 0, 3, false),
    (0xc02, 0, 0, 3, false),
    (0xc1f, 0, 0, 3, false),
    (0xf11, 0, 0, 3, false),
    (0xf12, 0, 0, 3, false),
    (0xf13, 0, 0, 3, false),
    (0xf14, 5, 5, 3, false),
    (0xf15, 0, 0, 3, false),
];

#[test]
fn each_register_has_its_reset_value_legal_value_and_modes(rt: HostRuntime) {
    for (num, reset, ones, lowest, writable) in ROWS.iter().copied() {
        let mut csrs = CsrFile::reset(5);
        for (mode, level) in [(Mode::U, 0u8), (Mode::S, 1), (Mode::M, 3)] {
            let reaches = level >= lowest;
            assert_eq!(rt; may(&csrs, num, mode, false), reaches, "read {num}");
            assert_eq!(rt;
                may(&csrs, num, mode, true),
                reaches && writable,
                "write {num}"
            );
        }
        assert_eq!(rt; read(&csrs, num), Some(reset), "reset {num}");
        assert_eq!(rt; write(&mut csrs, num, ONES), writable, "write {num}");
        assert_eq!(rt; read(&csrs, num), Some(ones), "ones {num}");
    }
}

#[test]
fn debug_registers_are_there_in_debug_mode_alone(rt: HostRuntime) {
    for (num, reset, ones) in [
        (0x7b0u16, 0x4000_06c3u64, 0x4000_06c3u64),
        (0x7b1, 0, 0xffff_ffff_ffff_fffe),
        (0x7b2, 0, ONES),
        (0x7b3, 0, ONES),
    ] {
        let mut csrs = CsrFile::reset_debug(1);
        assert!(rt;
            may(&csrs, num, Mode::U, true),
            "debug mode counts as machine mode"
        );
        assert_eq!(rt; read(&csrs, num), Some(reset), "reset {num}");
        assert!(rt; write(&mut csrs, num, ONES));
        assert_eq!(rt; read(&csrs, num), Some(ones), "ones {num}");
        csrs.leave_debug();
        assert_eq!(rt; read(&csrs, num), None);
        assert_eq!(rt; csrs.debug(), None);
    }
    let mut csrs = CsrFile::reset_debug(1);
    assert!(rt; write(&mut csrs, DCSR, 2));
    assert!(rt; write(&mut csrs, DPC, 0x8000_0001));
    let want = DebugRegs {
        dcsr: 0x4000_06c0,
        dpc: 0x8000_0000,
        dscratch0: 0,
        dscratch1: 0,
    };
    assert_eq!(rt; csrs.debug(), Some(want));
}

#[test]
fn as_many_numbers_are_listed_as_the_table_has(rt: HostRuntime) {
    let mut csrs = CsrFile::reset(0);
    assert_eq!(rt; readable(&csrs, Mode::M), 194);
    assert_eq!(rt; readable(&csrs, Mode::S), 11);
    assert_eq!(rt; readable(&csrs, Mode::U), 0);
    assert!(rt; write(&mut csrs, MCOUNTEREN, 5));
    assert_eq!(rt; readable(&csrs, Mode::S), 13);
    assert_eq!(rt; readable(&csrs, Mode::U), 0);
    assert!(rt; write(&mut csrs, SCOUNTEREN, 3));
    assert_eq!(rt; readable(&csrs, Mode::U), 1);
    assert!(rt; may(&csrs, CYCLE, Mode::U, false));
    assert!(rt; !may(&csrs, TIME, Mode::S, false));
    assert!(rt; may(&csrs, INSTRET, Mode::S, false));
    assert_eq!(rt; readable(&CsrFile::reset_debug(0), Mode::U), 198);
    for num in [
        0x000u16, 0x003, 0x101, 0x102, 0x107, 0x145, 0x181, 0x200, 0x2ff, 0x307, 0x30b, 0x321,
        0x322, 0x345, 0x3a1, 0x3af, 0x3f0, 0x5a8, 0x680, 0x7a0, 0x7b4, 0xb01, 0xb20, 0xc20, 0xda0,
        0xf10, 0xf16, 0xfff,
    ] {
        assert_eq!(rt; read(&csrs, num), None, "{num}");
    }
}

#[test]
fn a_write_keeps_a_legal_value(rt: HostRuntime) {
    // number, what is written first, what is written then, what is read
    for (num, first, then, want) in [
        (MTVEC, 0u64, 3u64, 1u64),
        (MSTATUS, ONES, 0x1000, 0xa_0000_0000),
        (MSTATUS, ONES, 0x0800, 0xa_0000_0800),
        (
            SATP,
            0x8000_0000_0008_0001,
            0x9000_0000_0000_0000,
            0x8000_0000_0008_0001,
        ),
        (
            SATP,
            0x8000_0000_0008_0001,
            0x0fff_0000_0000_0007,
            0x0fff_0000_0000_0007,
        ),
        (MEPC, ONES, 0x8000_0003, 0x8000_0002),
        (MISA, 0, 0, 0x8000_0000_0014_1105),
        (MINSTRET, ONES, 100, 100),
    ] {
        let mut csrs = CsrFile::reset(0);
        assert!(rt; write(&mut csrs, num, first));
        assert!(rt; write(&mut csrs, num, then));
        assert_eq!(rt; read(&csrs, num), Some(want), "{num}");
    }
}

#[test]
#[tactic(auto, unfolding(crate::specs::Legal::keeps_value, crate::specs::Legal::is_kept_number, crate::specs::Legal::kept_numbers))]
fn legal_values_of_plain_calls(rt: HostRuntime) {
    assert_eq!(rt; CsrFile::legal(MSTATUS, 0, ONES), 0xa_007e_19aa);
    assert_eq!(rt; CsrFile::legal(SATP, 7, 0xf000_0000_0000_0000), 7);
    assert_eq!(rt; CsrFile::legal(DCSR, 0, 1), 0x4000_06c1);
    assert_eq!(rt; CsrFile::legal(DSCRATCH1, 0, ONES), ONES);
    assert_eq!(rt; CsrFile::legal(MIDELEG, 0, ONES), 0x222);
}

#[test]
fn views_show_and_write_their_register(rt: HostRuntime) {
    let mut csrs = CsrFile::reset(0);
    // sstatus leaves the machine fields
    assert!(rt; write(&mut csrs, MSTATUS, 0x7e_19aa));
    assert!(rt; write(&mut csrs, SSTATUS, 0));
    assert_eq!(rt; read(&csrs, MSTATUS), Some(0xa_0072_1888));
    assert!(rt; write(&mut csrs, SSTATUS, ONES));
    assert_eq!(rt; read(&csrs, MSTATUS), Some(0xa_007e_19aa));
    // sie shows and writes what is delegated
    assert!(rt; write(&mut csrs, MIDELEG, 0x202));
    assert!(rt; write(&mut csrs, MIE, 0x0a0));
    assert!(rt; write(&mut csrs, SIE, ONES));
    assert_eq!(rt; read(&csrs, MIE), Some(0x2a2));
    assert_eq!(rt; read(&csrs, SIE), Some(0x202));
    // sip writes the software interrupt alone
    assert!(rt; write(&mut csrs, SIP, ONES));
    assert_eq!(rt; read(&csrs, MIP), Some(0x002));
    assert!(rt; write(&mut csrs, MIDELEG, 0x220));
    assert!(rt; write(&mut csrs, SIP, 0));
    assert_eq!(rt; read(&csrs, MIP), Some(0x002));
    assert_eq!(rt; read(&csrs, SIP), Some(0));
}

#[test]
#[tactic(auto, unfolding(crate::specs::Numbers::is_listed, crate::specs::View::volatile_bits, crate::specs::Legal::keeps_value, crate::specs::Legal::is_kept_number, crate::specs::Legal::kept_numbers))]
fn live_bits_are_read_and_not_written_back(rt: HostRuntime) {
    let mut csrs = CsrFile::reset(0);
    csrs.set(MIDELEG, 0x222);
    csrs.set(MIP, 0x220);
    assert_eq!(rt; csrs.get(MIP, 0xa88), 0xaa8);
    assert_eq!(rt; csrs.base(MIP, 0xa88), 0x220);
    csrs.set(MIP, 0x022);
    assert_eq!(rt; csrs.get(SIP, 0x200), 0x222);
    assert_eq!(rt; csrs.base(SIP, 0x200), 0x022);
    csrs.set(MCYCLE, 41);
    assert_eq!(rt; csrs.get(MCYCLE, 7), 7);
    assert_eq!(rt; csrs.get(CYCLE, 8), 8);
    assert_eq!(rt; csrs.get(TIME, 9), 9);
    assert_eq!(rt; csrs.base(MCYCLE, 7), 7);
    assert_eq!(rt; csrs.kept(MCYCLE), 41);
    assert_eq!(rt; csrs.kept(MIP), 0x022);
    for (num, mask) in [
        (CYCLE, ONES),
        (TIME, ONES),
        (MCYCLE, ONES),
        (MIP, 0xa88),
        (SIP, 0x200),
        (INSTRET, 0),
        (MINSTRET, 0),
        (SIE, 0),
        (MSTATUS, 0),
    ] {
        assert_eq!(rt; CsrFile::is_volatile(num), mask != 0, "{num}");
        assert_eq!(rt; CsrFile::volatile_mask(num), mask, "{num}");
    }
}

#[test]
fn virtual_memory_is_trapped_from_supervisor_mode(rt: HostRuntime) {
    let mut csrs = CsrFile::reset(0);
    assert!(rt; may(&csrs, SATP, Mode::S, true));
    assert!(rt; write(&mut csrs, MSTATUS, MSTATUS_TVM));
    assert!(rt; !may(&csrs, SATP, Mode::S, false));
    assert!(rt; !may(&csrs, SATP, Mode::U, false));
    assert!(rt; may(&csrs, SATP, Mode::M, true));
    assert!(rt; may(&csrs, SSTATUS, Mode::S, true));
}

#[test]
#[tactic(auto, unfolding(crate::specs::Kept::reset_registers, crate::specs::Count::counted, crate::specs::Legal::keeps_value, crate::specs::Legal::is_kept_number, crate::specs::Legal::kept_numbers))]
fn counters_count_but_not_what_the_step_wrote(rt: HostRuntime) {
    let mut csrs = CsrFile::reset(0);
    csrs.count(true, None);
    csrs.count(false, None);
    csrs.count(true, Some(MINSTRET));
    csrs.count(true, Some(MCYCLE));
    csrs.count(true, Some(MSCRATCH));
    assert_eq!(rt; csrs.kept(MCYCLE), 4);
    assert_eq!(rt; csrs.kept(MINSTRET), 3);
}
