//! What a walker remembers, and what it answers after stores. A translation is remembered if and only if a
//! load by it reads no entry; the answers are reckoned by hand.

ghost use Rattle.guest_ram.specs.Bytes.{HasPart, IsAligned};

use super::*;
use crate::agrees_kept;
use std::fmt::Debug;
use std::marker::Model;

/// A page of its own for the page tables of another address space, and `satp` for it.
const OTHER_ROOT: u64 = 0x8000_4008;

const OTHER_SATP: u64 = 0x8000_0000_0008_0004;

/// The address and the leaf of a gigapage, which maps it to 80001234.
const VA: u64 = 0x4000_1234;

const LEAF: u64 = 0x2000_00cf;

/// Memory and a walker that is told of each store.
#[derive(Drop)]
struct Guest {
    ram: GuestRam,
    walker: Walker,
}

impl Model for Guest {
    ghost use Rattle.std.specs.Prelude.{List, ℕ};
    ghost use Rattle.sv39_walk.specs.Remembered.{Agrees};

    ghost Value = { List ℕ };

    ghost view = { λ guest. guest.ram };

    ghost invariant = { λ guest. Agrees guest.walker guest.ram };
}

impl Guest {
    fn new(alloc: Global) -> Result<Guest, AllocError> {
        let ram = GuestRam::new(alloc, 0x1_0000)?;
        let walker = Walker::new(alloc)?;
        Ok(Guest { ram, walker })
    }

    /// With `LEAF` as the entry for `VA`, which is remembered.
    fn remembering(rt: &impl Abort, alloc: Global) -> Result<Guest, AllocError> {
        let mut guest = Guest::new(alloc)?;
        guest.store(rt, ROOT, LEAF);
        guest.expect(rt, supervisor(SATP), VA, Kind::Load, Some(0x8000_1234), 1);
        Ok(guest)
    }

    fn store(&mut self, rt: &impl Abort, at: u64, entry: u64) {
        assert!(rt; at % 8 == 0 && self.ram.has(at, 8));
        self.write(at, entry);
    }

    fn write(&mut self, at: u64, entry: u64)
        requires inside { HasPart self.old at 8 }
        requires aligned { IsAligned at 8 }
    {
        agrees_kept();
        self.ram.write(at, 8, entry);
        self.walker.noted(at, 8);
    }

    /// Tells the walker of a store that leaves memory as it is.
    fn told(&mut self, at: u64, n: u64) {
        self.walker.noted(at, n);
    }

    /// Asks whether the access goes to this address, or is a page fault, with so many entries read.
    fn expect(
        &mut self,
        rt: &impl Abort,
        ctx: Ctx,
        va: u64,
        kind: Kind,
        want: Option<u64>,
        reads: u8,
    ) {
        let mut table = PageTable::new(&self.ram);
        let found = self.walker.translate(&mut table, ctx, va, kind);
        same(rt, &found.ok(), &want, "address", va);
        same(rt, &table.reads(), &reads, "reads", va);
    }

    /// Asks whether it is remembered.
    fn expect_remembered(&self, rt: &impl Abort, satp: u64, va: u64, want: bool) {
        same(rt, &self.walker.remembers(satp, va), &want, "remembers", va);
    }
}

/// Compares what is there with what should be.
fn same<T: PartialEq + Debug>(rt: &impl Abort, got: &T, want: &T, what: &str, va: u64) {
    assert_eq!(rt; *got, *want, "{what} {va}");
}

#[test]
fn a_translation_is_remembered_until_its_entry_is_stored(rt: HostRuntime) -> Result<(), Fail> {
    let mut guest = Guest::new(rt.alloc())?;
    guest.store(&rt, ROOT, LEAF);
    guest.expect_remembered(&rt, SATP, VA, false);
    guest.expect(&rt, supervisor(SATP), VA, Kind::Load, Some(0x8000_1234), 1);
    guest.expect_remembered(&rt, SATP, VA, true);
    guest.expect(&rt, supervisor(SATP), VA, Kind::Load, Some(0x8000_1234), 0);
    guest.told(ROOT, 8);
    guest.expect_remembered(&rt, SATP, VA, false);
    Ok(())
}

/// What is stored where, and what a load and a store are answered then, each with the entries that it reads.
static STORES: [(u64, u64, Option<u64>, u8, Option<u64>, u8); 6] = [
    // nothing that the walker has read
    (0x8000_3008, 0, Some(0x8000_1234), 0, Some(0x8000_1234), 0),
    // the pages beside
    (0x8000_0ff8, 0, Some(0x8000_1234), 0, Some(0x8000_1234), 0),
    (0x8000_2000, 0, Some(0x8000_1234), 0, Some(0x8000_1234), 0),
    // the page of the entry, but not the entry
    (0x8000_1000, 0, Some(0x8000_1234), 1, Some(0x8000_1234), 0),
    // a leaf without D and W
    (ROOT, 0x2000_004b, Some(0x8000_1234), 1, None, 0),
    (ROOT, 0, None, 1, None, 1),
];

#[test]
fn a_store_is_told(rt: HostRuntime) -> Result<(), Fail> {
    for &(at, entry, load, load_reads, store, store_reads) in &STORES {
        let mut guest = Guest::remembering(&rt, rt.alloc())?;
        guest.store(&rt, at, entry);
        guest.expect(&rt, supervisor(SATP), VA, Kind::Load, load, load_reads);
        guest.expect(&rt, supervisor(SATP), VA, Kind::Store, store, store_reads);
    }
    Ok(())
}

/// Low bits of the leaf, an access by mode, SUM, MXR and kind, and whether it is permitted, where a load in
/// supervisor mode under SUM and MXR has been remembered.
static USES: [(u64, Mode, bool, bool, Kind, bool); 8] = [
    (0x59, Mode::U, false, true, Kind::Load, true),
    (0x59, Mode::U, false, false, Kind::Load, false),
    (0x59, Mode::U, false, false, Kind::Fetch, true),
    (0x59, Mode::S, false, true, Kind::Load, false),
    (0x47, Mode::S, false, false, Kind::Load, true),
    (0x47, Mode::S, true, true, Kind::Store, false),
    (0x47, Mode::S, true, true, Kind::Fetch, false),
    (0x47, Mode::U, true, true, Kind::Load, false),
];

#[test]
fn permission_is_asked_at_each_use(rt: HostRuntime) -> Result<(), Fail> {
    for &(bits, mode, sum, mxr, kind, permitted) in &USES {
        let mut guest = Guest::new(rt.alloc())?;
        guest.store(&rt, ROOT, 0x2000_0000 | bits);
        guest.expect(
            &rt,
            with(Mode::S, true, true),
            VA,
            Kind::Load,
            Some(0x8000_1234),
            1,
        );
        let want = if permitted { Some(0x8000_1234) } else { None };
        guest.expect(&rt, with(mode, sum, mxr), VA, kind, want, 0);
    }
    Ok(())
}

fn with(mode: Mode, sum: bool, mxr: bool) -> Ctx {
    Ctx {
        mode,
        satp: SATP,
        sum,
        mxr,
    }
}

#[test]
fn each_root_table_has_its_own_translations(rt: HostRuntime) -> Result<(), Fail> {
    let mut guest = Guest::remembering(&rt, rt.alloc())?;
    guest.store(&rt, OTHER_ROOT, 0x1000_00cf);
    guest.expect_remembered(&rt, OTHER_SATP, VA, false);
    // the same page of another table takes the slot
    guest.expect(
        &rt,
        supervisor(OTHER_SATP),
        VA,
        Kind::Load,
        Some(0x4000_1234),
        1,
    );
    guest.expect_remembered(&rt, OTHER_SATP, VA, true);
    guest.expect_remembered(&rt, SATP, VA, false);
    guest.expect(&rt, supervisor(SATP), VA, Kind::Load, Some(0x8000_1234), 1);
    // another page of it does not
    guest.expect(
        &rt,
        supervisor(OTHER_SATP),
        VA + 0x1000,
        Kind::Load,
        Some(0x4000_2234),
        1,
    );
    guest.expect(&rt, supervisor(SATP), VA, Kind::Load, Some(0x8000_1234), 0);
    guest.expect(
        &rt,
        supervisor(OTHER_SATP),
        VA + 0x1000,
        Kind::Load,
        Some(0x4000_2234),
        0,
    );
    Ok(())
}

#[test]
fn another_address_space_identifier_is_the_same_table(rt: HostRuntime) -> Result<(), Fail> {
    let mut guest = Guest::remembering(&rt, rt.alloc())?;
    let other = SATP | 0x1234 << 44;
    guest.expect_remembered(&rt, other, VA, true);
    guest.expect(&rt, supervisor(other), VA, Kind::Load, Some(0x8000_1234), 0);
    // neither mode of these is translated
    guest.expect(
        &rt,
        supervisor(SATP & 0xfff_ffff_ffff),
        VA,
        Kind::Load,
        Some(VA),
        0,
    );
    Ok(())
}

/// Addresses, whether they are in the page of `VA`, and whether a load there takes the slot of that page.
static PAGES: [(u64, bool, bool); 5] = [
    (0x4000_1000, true, false),
    (0x4000_1fff, true, false),
    (0x4000_0fff, false, false),
    (0x4000_2000, false, false),
    (0x4004_1234, false, true),
];

#[test]
fn a_page_of_a_superpage_has_a_slot_of_its_own(rt: HostRuntime) -> Result<(), Fail> {
    for &(va, here, takes) in &PAGES {
        let mut guest = Guest::remembering(&rt, rt.alloc())?;
        guest.expect_remembered(&rt, SATP, va, here);
        let reads = if here { 0 } else { 1 };
        let want = Some(va + 0x4000_0000);
        guest.expect(&rt, supervisor(SATP), va, Kind::Load, want, reads);
        guest.expect_remembered(&rt, SATP, va, true);
        guest.expect_remembered(&rt, SATP, VA, !takes);
    }
    Ok(())
}

/// Where a way of three entries is stored to, and how many entries the next load reads.
static WAYS: [(u64, u8); 6] = [
    (ROOT, 3),
    (MIDDLE, 3),
    (LAST, 3),
    (0x8000_1ff8, 3),
    (0x8000_4000, 0),
    (0x8000_0ff8, 0),
];

#[test]
fn a_store_to_each_table_of_a_way_is_told(rt: HostRuntime) -> Result<(), Fail> {
    for &(at, reads) in &WAYS {
        let mut guest = Guest::new(rt.alloc())?;
        guest.store(&rt, ROOT, 0x2000_0801);
        guest.store(&rt, MIDDLE, 0x2000_0c01);
        guest.store(&rt, LAST, 0x2000_1043);
        guest.expect(
            &rt,
            supervisor(SATP),
            ADDRESS,
            Kind::Load,
            Some(0x8000_4234),
            3,
        );
        guest.told(at, 8);
        guest.expect_remembered(&rt, SATP, ADDRESS, reads == 0);
        guest.expect(
            &rt,
            supervisor(SATP),
            ADDRESS,
            Kind::Load,
            Some(0x8000_4234),
            reads,
        );
    }
    Ok(())
}

#[test]
fn a_store_past_eight_aligned_bytes_forgets_all(rt: HostRuntime) -> Result<(), Fail> {
    for &(at, n, kept) in &[
        (0x8000_3000, 8, true),
        (0x8000_3004, 4, true),
        (0x8000_3000, 4096, false),
        (0x8000_0ffc, 8, false),
    ] {
        let mut guest = Guest::remembering(&rt, rt.alloc())?;
        guest.told(at, n);
        guest.expect_remembered(&rt, SATP, VA, kept);
    }
    Ok(())
}

#[test]
fn what_faults_is_not_remembered(rt: HostRuntime) -> Result<(), Fail> {
    let mut guest = Guest::new(rt.alloc())?;
    guest.store(&rt, ROOT, 0x2000_004b);
    guest.expect(&rt, supervisor(SATP), VA, Kind::Store, None, 1);
    guest.expect_remembered(&rt, SATP, VA, false);
    guest.expect(&rt, supervisor(SATP), VA, Kind::Load, Some(0x8000_1234), 1);
    guest.expect(&rt, supervisor(SATP), VA, Kind::Store, None, 0);
    guest.expect_remembered(&rt, SATP, VA, true);
    Ok(())
}

#[test]
fn the_base_of_a_page_is_lent_for_what_its_leaf_permits(rt: HostRuntime) -> Result<(), Fail> {
    let guest = Guest::remembering(&rt, rt.alloc())?;
    for &(satp, mode, kind, va, want) in &[
        (SATP, Mode::S, Kind::Load, VA, Some(0x8000_1000)),
        (SATP, Mode::S, Kind::Store, 0x4000_1fff, Some(0x8000_1000)),
        (SATP, Mode::S, Kind::Fetch, VA, Some(0x8000_1000)),
        (SATP, Mode::U, Kind::Load, VA, None),
        (SATP, Mode::M, Kind::Load, VA, None),
        (SATP, Mode::S, Kind::Load, 0x4000_2234, None),
        (OTHER_SATP, Mode::S, Kind::Load, VA, None),
    ] {
        same(
            &rt,
            &guest.walker.page_base(satp, mode, kind, va),
            &want,
            "base",
            va,
        );
    }
    Ok(())
}
