//! Registers by tables, claims and completions.

ghost use Rattle.std.specs.Prelude.{◌≡◌, IfOk};
ghost use Rattle.plic.specs.State.{context_count};

use crate::{Plic, Refused, listed};
use std::process::Abort;
use std::test::Fail;

const BOTH: u8 = 6;

// A controller at reset for a number of harts that a table gives.
fn controller(rt: &impl Abort, harts: u8) -> Plic {
    assert!(rt; 0 < harts && harts <= 8);
    Plic::reset(harts)
}

#[test]
fn each_register_is_zero_at_reset_and_keeps_its_bits(rt: HostRuntime) {
    // harts, offset, and the value after all ones were written
    for (harts, off, ones) in [
        (1u8, 4u64, 7u64),
        (1, 8, 7),
        (1, 0x1000, 0),
        (1, 0x2000, 6),
        (1, 0x2080, 6),
        (1, 0x20_0000, 7),
        (1, 0x20_0004, 0),
        (1, 0x20_1000, 7),
        (1, 0x20_1004, 0),
        (8, 4, 7),
        (8, 8, 7),
        (8, 0x1000, 0),
        (8, 0x2000, 6),
        (8, 0x2780, 6),
        (8, 0x20_0000, 7),
        (8, 0x20_0004, 0),
        (8, 0x20_f000, 7),
        (8, 0x20_f004, 0),
    ] {
        let mut plic = controller(&rt, harts);
        assert!(rt; harts <= 8 && listed(2 * harts, off, 4));
        assert_eq!(rt; plic.load(off, 4, 0), Ok(0), "reset of {off}");
        assert_eq!(rt; plic.store(off, 4, u64::MAX), Ok(()));
        assert_eq!(rt; plic.load(off, 4, 0), Ok(ones), "ones at {off}");
        assert_eq!(rt; plic.store(off, 4, 0xffff_ffff_0000_0000), Ok(()));
        assert_eq!(rt; plic.load(off, 4, 0), Ok(0), "high bytes at {off}");
    }
}

#[test]
fn other_offsets_and_sizes_are_refused(rt: HostRuntime) {
    for (harts, off, size) in [
        (1u8, 0u64, 4u8),
        (1, 4, 1),
        (1, 4, 2),
        (1, 4, 8),
        (1, 6, 4),
        (1, 12, 4),
        (1, 0xffc, 4),
        (1, 0x1004, 4),
        (1, 0x1000, 8),
        (1, 0x2004, 4),
        (1, 0x2100, 4),
        (1, 0x20_0000, 8),
        (1, 0x20_0008, 4),
        (1, 0x20_2000, 4),
        (1, 0x20_2004, 4),
        (8, 0x1ffc, 4),
        (8, 0x2800, 4),
        (8, 0x21_0000, 4),
        (8, 0x21_0004, 4),
        (8, u64::MAX, 4),
    ] {
        let mut plic = controller(&rt, harts);
        assert!(rt; harts <= 8 && !listed(2 * harts, off, size));
        assert_eq!(rt;
            plic.load(off, size, BOTH),
            Err(Refused),
            "load of {size} at {off}"
        );
        assert_eq!(rt;
            plic.store(off, size, 1),
            Err(Refused),
            "store of {size} at {off}"
        );
    }
}

// One hart, with these priorities of sources 1 and 2, and for context 0 this enable and this threshold.
fn set_up(one: u64, two: u64, enable: u64, threshold: u64) -> Result<Plic, Refused>
    ensures { IfOk result (λ plic. context_count plic ≡ 2) }
{
    let mut plic = Plic::reset(1);
    plic.store(4, 4, one)?;
    plic.store(8, 4, two)?;
    plic.store(0x2000, 4, enable)?;
    plic.store(0x20_0000, 4, threshold)?;
    Ok(plic)
}

#[test]
fn claims_take_the_highest_priority_and_then_the_lowest_number(
    rt: HostRuntime,
) -> Result<(), Fail> {
    // priorities, enable, threshold, levels, whether the interrupt is due, and what three claims give
    for (one, two, enable, threshold, levels, due, claims) in [
        (3u64, 3u64, 6u64, 7u64, 6u8, false, [1u32, 2, 0]),
        (3, 3, 6, 2, 6, true, [1, 2, 0]),
        (3, 3, 6, 3, 6, false, [1, 2, 0]),
        (3, 4, 6, 3, 6, true, [2, 1, 0]),
        (4, 3, 6, 3, 6, true, [1, 2, 0]),
        (0, 0, 6, 0, 6, false, [0, 0, 0]),
        (0, 1, 6, 0, 6, true, [2, 0, 0]),
        (1, 1, 2, 0, 6, true, [1, 0, 0]),
        (1, 1, 4, 0, 6, true, [2, 0, 0]),
        (1, 1, 0, 0, 6, false, [0, 0, 0]),
        (1, 1, 6, 0, 2, true, [1, 0, 0]),
        (1, 1, 6, 0, 4, true, [2, 0, 0]),
        (1, 1, 6, 0, 0xf9, false, [0, 0, 0]),
    ] {
        let mut plic = set_up(one, two, enable, threshold)?;
        assert_eq!(rt;
            plic.due(0, levels),
            due,
            "{one} {two} {enable} {threshold}"
        );
        assert!(rt; !plic.due(1, levels));
        let given = [
            plic.claim(0, levels),
            plic.claim(0, levels),
            plic.claim(0, levels),
        ];
        assert_eq!(rt; given, claims, "{one} {two} {enable} {threshold}");
    }
    Ok(())
}

#[test]
fn served_sources_are_pending_again_once_they_are_completed(rt: HostRuntime) -> Result<(), Fail> {
    let mut plic = set_up(3, 3, 6, 7)?;
    plic.store(0x2080, 4, 4)?;
    assert_eq!(rt; plic.load(0x1000, 4, BOTH), Ok(6));
    assert_eq!(rt; plic.load(0x20_0004, 4, BOTH), Ok(1));
    assert_eq!(rt; plic.load(0x1000, 4, BOTH), Ok(4));
    assert_eq!(rt; plic.load(0x20_0004, 4, BOTH), Ok(2));
    assert_eq!(rt; plic.load(0x20_0004, 4, BOTH), Ok(0));
    assert_eq!(rt; plic.served(), 6);
    // offset and value of a completion, and what is pending after it
    for (off, value, pending) in [
        (0x20_0004u64, 0u64, 0u64),
        (0x20_0004, 3, 0),
        (0x20_1004, 1, 0),
        (0x20_0004, 1, 2),
        (0x20_0004, 1, 2),
        (0x20_1004, 2, 6),
    ] {
        plic.store(off, 4, value)?;
        assert_eq!(rt; plic.load(0x1000, 4, BOTH), Ok(pending), "{value} at {off}");
    }
    assert_eq!(rt; plic.load(0x1000, 4, 2), Ok(2));
    assert_eq!(rt; plic.load(0x1000, 4, 0), Ok(0));
    Ok(())
}

#[test]
fn the_calls_read_what_stores_wrote(rt: HostRuntime) -> Result<(), Fail> {
    let plic = set_up(5, 2, 4, 3)?;
    assert_eq!(rt; (plic.priority(1), plic.priority(2)), (5, 2));
    assert_eq!(rt; (plic.enabled(0), plic.enabled(1)), (4, 0));
    assert_eq!(rt; (plic.threshold(0), plic.threshold(1)), (3, 0));
    assert_eq!(rt; plic.served(), 0);
    Ok(())
}
