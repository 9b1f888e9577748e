//! Registers by tables, and when the interrupts are due.

use crate::{Clint, Refused, listed};
use std::process::Abort;
use std::test::Fail;

// A block at reset for a number of harts that a table gives.
fn block(rt: &impl Abort, harts: u8) -> Clint {
    assert!(rt; 0 < harts && harts <= 8);
    Clint::reset(harts)
}

#[test]
fn each_register_has_its_reset_value_and_keeps_its_bits(rt: HostRuntime) {
    // harts, offset, size, value at reset, value after all ones were written
    for (harts, off, size, reset, ones) in [
        (1u8, 0u64, 4u8, 0u64, 1u64),
        (1, 0x4000, 8, u64::MAX, u64::MAX),
        (1, 0xbff8, 8, 0, u64::MAX),
        (8, 0, 4, 0, 1),
        (8, 28, 4, 0, 1),
        (8, 0x4000, 8, u64::MAX, u64::MAX),
        (8, 0x4038, 8, u64::MAX, u64::MAX),
        (8, 0xbff8, 8, 0, u64::MAX),
    ] {
        let mut clint = block(&rt, harts);
        assert!(rt; listed(harts, off, size));
        assert_eq!(rt; clint.load(off, size), Ok(reset), "reset of {off}");
        assert_eq!(rt; clint.store(off, size, 0x1122_3344_5566_7788), Ok(()));
        let even = if size == 4 { 0 } else { 0x1122_3344_5566_7788 };
        assert_eq!(rt; clint.load(off, size), Ok(even), "even at {off}");
        assert_eq!(rt; clint.store(off, size, u64::MAX), Ok(()));
        assert_eq!(rt; clint.load(off, size), Ok(ones), "ones at {off}");
    }
}

#[test]
fn other_offsets_and_sizes_are_refused(rt: HostRuntime) {
    for (harts, off, size) in [
        (1u8, 0u64, 1u8),
        (1, 0, 2),
        (1, 0, 8),
        (1, 1, 4),
        (1, 4, 4),
        (1, 0x4000, 4),
        (1, 0x4004, 8),
        (1, 0x4008, 8),
        (1, 0x3ff8, 8),
        (1, 0xbff8, 4),
        (1, 0xbff0, 8),
        (1, 0xc000, 8),
        (8, 32, 4),
        (8, 0x4040, 8),
        (8, u64::MAX, 4),
        (8, u64::MAX, 8),
        (8, 0, 0),
        (8, 0, 255),
    ] {
        let mut clint = block(&rt, harts);
        assert!(rt; !listed(harts, off, size));
        assert_eq!(rt;
            clint.load(off, size),
            Err(Refused),
            "load of {size} at {off}"
        );
        assert_eq!(rt;
            clint.store(off, size, 0),
            Err(Refused),
            "store of {size} at {off}"
        );
    }
}

#[test]
fn harts_have_their_own_registers(rt: HostRuntime) {
    let mut clint = Clint::reset(3);
    for (off, size, value) in [(4u64, 4u8, 1u64), (0x4008, 8, 5), (0x4010, 8, 6)] {
        assert_eq!(rt; clint.store(off, size, value), Ok(()));
    }
    for (off, size, want) in [
        (0u64, 4u8, 0u64),
        (4, 4, 1),
        (8, 4, 0),
        (0x4000, 8, u64::MAX),
        (0x4008, 8, 5),
        (0x4010, 8, 6),
        (0xbff8, 8, 0),
    ] {
        assert_eq!(rt; clint.load(off, size), Ok(want), "at {off}");
    }
}

#[test]
fn the_timer_is_due_at_its_moment_and_from_then_on(rt: HostRuntime) -> Result<(), Fail> {
    // mtimecmp, mtime, and whether the timer of hart 1 is due
    for (compare, time, due) in [
        (0u64, 0u64, true),
        (1, 0, false),
        (1, 1, true),
        (1, 2, true),
        (u64::MAX, u64::MAX - 1, false),
        (u64::MAX, u64::MAX, true),
    ] {
        let mut clint = Clint::reset(2);
        clint.store(0x4008, 8, compare)?;
        clint.store(0xbff8, 8, time)?;
        assert_eq!(rt; clint.timer_due(1), due, "{compare} at {time}");
        assert_eq!(rt; clint.timer_due(0), time == u64::MAX, "hart 0 at {time}");
        clint.tick();
        assert_eq!(rt; clint.time(), time.wrapping_add(1));
    }
    Ok(())
}

#[test]
fn a_software_interrupt_is_due_for_its_hart_alone(rt: HostRuntime) -> Result<(), Fail> {
    let mut clint = Clint::reset(2);
    clint.store(4, 4, 3)?;
    assert!(rt; clint.soft_due(1) && !clint.soft_due(0));
    clint.store(4, 4, 2)?;
    assert!(rt; !clint.soft_due(1));
    Ok(())
}
