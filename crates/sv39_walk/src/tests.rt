//! Walks of small page tables, with answers reckoned by hand and by a script that takes the manual's
//! steps. The root table lies at 80001000, the table below it at 80002000, the last at 80003000.

mod remembered;

use super::*;
use guest_ram::{GuestRam, PageTable};
use std::alloc::{AllocError, Global};
use std::process::Abort;
use std::test::Fail;

const SATP: u64 = 0x8000_0000_0008_0001;

// An address with the fields 1, 2 and 3, and the places of its entries.
const ADDRESS: u64 = 0x4040_3234;

const ROOT: u64 = 0x8000_1008;

const MIDDLE: u64 = 0x8000_2010;

const LAST: u64 = 0x8000_3018;

fn put(rt: &impl Abort, ram: &mut GuestRam, at: u64, entry: u64) {
    assert!(rt; at % 8 == 0 && ram.has(at, 8));
    ram.write(at, 8, entry);
}

fn supervisor(satp: u64) -> Ctx {
    Ctx {
        mode: Mode::S,
        satp,
        sum: false,
        mxr: false,
    }
}

#[test]
fn worked_rows_of_a_gigapage_and_bad_entries(rt: HostRuntime) -> Result<(), Fail> {
    let mut ram = GuestRam::new(rt.alloc(), 0x1_0000)?;
    put(&rt, &mut ram, 0x8000_2000, 0x2000_0ccf);
    for (root, satp, va, want) in [
        (0x2000_0801, SATP, 0x4000_0000, Err(WalkFault::Page)),
        (0x2000_008f, SATP, 0x4000_0000, Err(WalkFault::Page)),
        (0x2000_00c5, SATP, 0x4000_0000, Err(WalkFault::Page)),
        (0x2000_00cf, SATP, 0x40_0000_0000, Err(WalkFault::Page)),
        (0x2000_00cf, SATP, 0x4000_1234, Ok(0x8000_1234)),
        (0x2000_00cf, 1 << 63, 0x4000_1234, Err(WalkFault::Access)),
    ] {
        put(&rt, &mut ram, ROOT, root);
        let mut walker = Walker::new(rt.alloc())?;
        let mut table = PageTable::new(&ram);
        let found = walker.translate(&mut table, supervisor(satp), va, Kind::Load);
        assert_eq!(rt; found, want, "{root} at {va}");
    }
    Ok(())
}

#[test]
fn an_entry_that_was_stored_counts_at_the_next_walk(rt: HostRuntime) -> Result<(), Fail> {
    let mut ram = GuestRam::new(rt.alloc(), 0x1_0000)?;
    let mut walker = Walker::new(rt.alloc())?;
    put(&rt, &mut ram, ROOT, 0x2000_00cf);
    let first = walker.translate(
        &mut PageTable::new(&ram),
        supervisor(SATP),
        0x4000_1234,
        Kind::Load,
    );
    assert_eq!(rt; first, Ok(0x8000_1234));
    put(&rt, &mut ram, ROOT, 0x1000_00cf);
    walker.noted(ROOT, 8);
    walker.forget();
    let second = walker.translate(
        &mut PageTable::new(&ram),
        supervisor(SATP),
        0x4000_1234,
        Kind::Load,
    );
    assert_eq!(rt; second, Ok(0x4000_1234));
    Ok(())
}

/// An aligned leaf in the root, the middle and the last table: its place, where it maps `ADDRESS`, and
/// how many entries are read.
static LEVELS: [(u64, u64, u8); 3] = [
    (ROOT, 0x8040_3234, 1),
    (MIDDLE, 0x8000_3234, 2),
    (LAST, 0x8000_0234, 3),
];

/// The low bits of a leaf, and whether it permits the access of a kind in a mode, with SUM and MXR.
static LEAVES: [(u64, Mode, bool, bool, Kind, bool); 31] = [
    // G and the bits that are software's
    (0x363, Mode::S, false, false, Kind::Load, true),
    // R of a load, and MXR
    (0x43, Mode::S, false, false, Kind::Load, true),
    (0x49, Mode::S, false, false, Kind::Load, false),
    (0x49, Mode::S, false, true, Kind::Load, true),
    (0x59, Mode::U, false, false, Kind::Load, false),
    (0x59, Mode::U, false, true, Kind::Load, true),
    // W and D of a store
    (0xc7, Mode::S, false, false, Kind::Store, true),
    (0xc3, Mode::S, false, false, Kind::Store, false),
    (0x47, Mode::S, false, false, Kind::Store, false),
    (0x47, Mode::S, false, false, Kind::Load, true),
    (0x4f, Mode::S, false, false, Kind::Fetch, true),
    (0xc9, Mode::S, false, true, Kind::Store, false),
    (0xd3, Mode::U, false, false, Kind::Store, false),
    (0x57, Mode::U, false, false, Kind::Store, false),
    // X of a fetch
    (0x49, Mode::S, false, false, Kind::Fetch, true),
    (0xc7, Mode::S, false, true, Kind::Fetch, false),
    (0xd7, Mode::U, false, true, Kind::Fetch, false),
    // U in user mode
    (0xcf, Mode::U, true, true, Kind::Load, false),
    (0xcf, Mode::U, true, true, Kind::Store, false),
    (0xcf, Mode::U, true, true, Kind::Fetch, false),
    // U in supervisor mode, and SUM
    (0xdf, Mode::S, false, true, Kind::Load, false),
    (0xdf, Mode::S, false, false, Kind::Store, false),
    (0xdf, Mode::S, false, false, Kind::Fetch, false),
    (0xdf, Mode::S, true, false, Kind::Load, true),
    (0xdf, Mode::S, true, false, Kind::Store, true),
    (0xdf, Mode::S, true, true, Kind::Fetch, false),
    (0x59, Mode::S, true, false, Kind::Load, false),
    (0x59, Mode::S, true, true, Kind::Load, true),
    (0x59, Mode::S, true, true, Kind::Store, false),
    (0x57, Mode::S, true, false, Kind::Store, false),
    (0xd3, Mode::S, true, false, Kind::Store, false),
];

/// What makes a leaf with all other bits bad for every access: V, R of a writable leaf, A, and the
/// lowest and the highest reserved bit.
static CHANGES: [u64; 5] = [1, 2, 0x40, 1 << 54, 1 << 63];

/// What makes a pointer bad: A, D, U, W, and the lowest and the highest reserved bit.
static POINTER_CHANGES: [u64; 6] = [0x40, 0x80, 0x10, 4, 1 << 54, 1 << 63];

fn tables(rt: &impl Abort, alloc: Global) -> Result<GuestRam, AllocError> {
    let mut ram = GuestRam::new(alloc, 0x1_0000)?;
    put(rt, &mut ram, ROOT, 0x2000_0801);
    put(rt, &mut ram, MIDDLE, 0x2000_0c01);
    Ok(ram)
}

/// Asks whether the access goes to this address, or is a page fault, with so many entries read.
fn expect(
    rt: &impl Abort,
    alloc: Global,
    ram: &GuestRam,
    ctx: Ctx,
    kind: Kind,
    want: Option<u64>,
    reads: u8,
) -> Result<(), AllocError> {
    let mut table = PageTable::new(ram);
    let found = Walker::new(alloc)?.translate(&mut table, ctx, ADDRESS, kind);
    assert_eq!(rt; found, want.ok_or(WalkFault::Page), "{kind:?}");
    assert_eq!(rt; table.reads(), reads);
    Ok(())
}

#[test]
fn leaves_permit_by_their_bits_the_mode_sum_and_mxr_at_every_level(
    rt: HostRuntime,
) -> Result<(), Fail> {
    for (place, at, reads) in LEVELS.iter().copied() {
        let mut ram = tables(&rt, rt.alloc())?;
        for (leaf, mode, sum, mxr, kind, permitted) in LEAVES.iter().copied() {
            put(&rt, &mut ram, place, 0x2000_0000 | leaf);
            let ctx = Ctx {
                mode,
                satp: SATP,
                sum,
                mxr,
            };
            let want = if permitted { Some(at) } else { None };
            expect(&rt, rt.alloc(), &ram, ctx, kind, want, reads)?;
        }
    }
    Ok(())
}

#[test]
fn bad_leaves_permit_nothing_to_any_kind_and_mode(rt: HostRuntime) -> Result<(), Fail> {
    for (place, at, reads) in LEVELS.iter().copied() {
        let mut ram = tables(&rt, rt.alloc())?;
        for (mode, leaf) in [(Mode::S, 0x2000_00cf), (Mode::U, 0x2000_00df)] {
            let ctx = Ctx {
                mode,
                satp: SATP,
                sum: true,
                mxr: true,
            };
            for kind in [Kind::Fetch, Kind::Load, Kind::Store] {
                put(&rt, &mut ram, place, leaf);
                expect(&rt, rt.alloc(), &ram, ctx, kind, Some(at), reads)?;
                for change in CHANGES.iter().copied() {
                    put(&rt, &mut ram, place, leaf ^ change);
                    expect(&rt, rt.alloc(), &ram, ctx, kind, None, reads)?;
                }
            }
        }
    }
    Ok(())
}

#[test]
fn bad_pointers_and_pointers_at_the_last_level_lead_nowhere(rt: HostRuntime) -> Result<(), Fail> {
    for (place, _at, reads) in LEVELS.iter().copied() {
        for change in POINTER_CHANGES.iter().copied() {
            let mut ram = tables(&rt, rt.alloc())?;
            put(&rt, &mut ram, LAST, 0x2000_0001);
            expect(&rt, rt.alloc(), &ram, supervisor(SATP), Kind::Load, None, 3)?;
            put(&rt, &mut ram, place, 0x2000_0001 | change);
            expect(
                &rt,
                rt.alloc(),
                &ram,
                supervisor(SATP),
                Kind::Load,
                None,
                reads,
            )?;
        }
    }
    Ok(())
}

// The register satp, three entries with their places, an address, and what a load there is answered.
static WALKS: [(u64, [(u64, u64); 3], u64, Result<u64, WalkFault>); 22] = [
    // three levels
    (
        SATP,
        [(ROOT, 0x20000801), (MIDDLE, 0x20000c01), (LAST, 0x20001043)],
        0x40403234,
        Ok(0x80004234),
    ),
    (
        SATP,
        [(ROOT, 0x20000821), (MIDDLE, 0x20000f01), (LAST, 0x20001043)],
        0x40403234,
        Ok(0x80004234),
    ),
    // a page number of 44 bits
    (
        SATP,
        [
            (ROOT, 0x20000801),
            (MIDDLE, 0x20000c01),
            (LAST, 0x20000020001043),
        ],
        0x40403234,
        Ok(0x80000080004234),
    ),
    // superpages of 2 MiB and 1 GiB
    (
        SATP,
        [(ROOT, 0x20000801), (MIDDLE, 0x20000043), (0x80000000, 0)],
        0x40403234,
        Ok(0x80003234),
    ),
    (
        SATP,
        [(ROOT, 0x20000801), (MIDDLE, 0x20000443), (0x80000000, 0)],
        0x40403234,
        Err(WalkFault::Page),
    ),
    (
        SATP,
        [(ROOT, 0x20000801), (MIDDLE, 0x20040043), (0x80000000, 0)],
        0x40403234,
        Err(WalkFault::Page),
    ),
    (
        SATP,
        [(ROOT, 0x20000801), (MIDDLE, 0x20080043), (0x80000000, 0)],
        0x40403234,
        Ok(0x80203234),
    ),
    (
        SATP,
        [(ROOT, 0x20000043), (0x80000000, 0), (0x80000000, 0)],
        0x40403234,
        Ok(0x80403234),
    ),
    (
        SATP,
        [(ROOT, 0x20000443), (0x80000000, 0), (0x80000000, 0)],
        0x40403234,
        Err(WalkFault::Page),
    ),
    (
        SATP,
        [(ROOT, 0x20080043), (0x80000000, 0), (0x80000000, 0)],
        0x40403234,
        Err(WalkFault::Page),
    ),
    (
        SATP,
        [(ROOT, 0x10000043), (0x80000000, 0), (0x80000000, 0)],
        0x40403234,
        Ok(0x40403234),
    ),
    // a table outside memory
    (
        SATP,
        [(ROOT, 1), (0x80000000, 0), (0x80000000, 0)],
        0x40403234,
        Err(WalkFault::Access),
    ),
    (
        SATP,
        [(ROOT, 0x20000801), (MIDDLE, 0x20004001), (0x80000000, 0)],
        0x40403234,
        Err(WalkFault::Access),
    ),
    (
        SATP,
        [(ROOT, 0x20000801), (MIDDLE, 0x1fffffc01), (0x80000000, 0)],
        0x40403234,
        Err(WalkFault::Access),
    ),
    (
        0x8000000000080010,
        [(ROOT, 0x20000801), (MIDDLE, 0x20000c01), (LAST, 0x20001043)],
        0x40403234,
        Err(WalkFault::Access),
    ),
    // no entry at all
    (
        SATP,
        [(0x80000000, 0), (0x80000000, 0), (0x80000000, 0)],
        0x40403234,
        Err(WalkFault::Page),
    ),
    // the high bits
    (
        SATP,
        [(0x80001800, 0x20000043), (0x80000000, 0), (0x80000000, 0)],
        0xffffffc000001234,
        Ok(0x80001234),
    ),
    (
        SATP,
        [(0x80001800, 0x20000043), (0x80000000, 0), (0x80000000, 0)],
        0x4000001234,
        Err(WalkFault::Page),
    ),
    (
        SATP,
        [(ROOT, 0x20000043), (0x80000000, 0), (0x80000000, 0)],
        0x8000000040001234,
        Err(WalkFault::Page),
    ),
    (
        SATP,
        [(ROOT, 0x20000043), (0x80000000, 0), (0x80000000, 0)],
        0xffffff8040001234,
        Err(WalkFault::Page),
    ),
    (
        SATP,
        [(0x80001ff8, 0x20000043), (0x80000000, 0), (0x80000000, 0)],
        0xffffffffffffffff,
        Ok(0xbfffffff),
    ),
    // MODE Bare
    (
        0x80001,
        [(0x80000000, 0), (0x80000000, 0), (0x80000000, 0)],
        0x8000000040001234,
        Ok(0x8000000040001234),
    ),
];

#[test]
fn walks_follow_pointers_to_pages_and_superpages(rt: HostRuntime) -> Result<(), Fail> {
    for (satp, entries, va, want) in WALKS {
        let mut ram = GuestRam::new(rt.alloc(), 0x1_0000)?;
        for (at, entry) in entries {
            put(&rt, &mut ram, at, entry);
        }
        let mut walker = Walker::new(rt.alloc())?;
        let mut table = PageTable::new(&ram);
        let found = walker.translate(&mut table, supervisor(satp), va, Kind::Load);
        assert_eq!(rt; found, want, "{va} in {entries:?}");
    }
    Ok(())
}

#[test]
fn machine_mode_is_not_translated(rt: HostRuntime) -> Result<(), Fail> {
    let ram = GuestRam::new(rt.alloc(), 0x1_0000)?;
    for kind in [Kind::Fetch, Kind::Load, Kind::Store] {
        let mut walker = Walker::new(rt.alloc())?;
        let mut table = PageTable::new(&ram);
        let ctx = Ctx {
            mode: Mode::M,
            satp: SATP,
            sum: false,
            mxr: false,
        };
        let found = walker.translate(&mut table, ctx, u64::MAX, kind);
        assert_eq!(rt; found, Ok(u64::MAX));
        assert_eq!(rt; table.reads(), 0);
    }
    Ok(())
}

#[test]
fn laws_hold_by_their_contracts(_rt: HostRuntime) {
    one_address();
    plain_reckoning();
    agrees_kept();
}
