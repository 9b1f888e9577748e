//! Reads and writes up to both ends of a region, and entries of page tables.

use crate::{BASE, GuestRam, PageTable};
use std::process::Abort;
use std::test::Fail;

// The bytes f0, f1 .. ff.
const PATTERN: [u8; 16] = [
    0xf0, 0xf1, 0xf2, 0xf3, 0xf4, 0xf5, 0xf6, 0xf7, 0xf8, 0xf9, 0xfa, 0xfb, 0xfc, 0xfd, 0xfe, 0xff,
];

fn read_at(rt: &impl Abort, ram: &GuestRam, at: u64, size: u8) -> u64 {
    assert!(rt; size == 1 || size == 2 || size == 4 || size == 8);
    assert!(rt; ram.has(at, u64::from(size)), "no {size} bytes at {at}");
    assert!(rt; at % u64::from(size) == 0);
    ram.read(at, size)
}

fn write_at(rt: &impl Abort, ram: &mut GuestRam, at: u64, size: u8, v: u64) {
    assert!(rt; size == 1 || size == 2 || size == 4 || size == 8);
    assert!(rt; ram.has(at, u64::from(size)), "no {size} bytes at {at}");
    assert!(rt; at % u64::from(size) == 0);
    ram.write(at, size, v);
}

fn fill(rt: &impl Abort, ram: &mut GuestRam, bytes: &[u8]) {
    assert!(rt; ram.has(BASE, bytes.len() as u64));
    ram.part_mut(BASE, bytes.len() as u64)
        .copy_from_slice(bytes);
}

fn all_of<'a>(rt: &impl Abort, ram: &'a GuestRam) -> &'a [u8] {
    assert!(rt; ram.has(BASE, ram.len()));
    ram.part(BASE, ram.len())
}

#[test]
fn a_new_region_has_its_length_and_is_zero(rt: HostRuntime) -> Result<(), Fail> {
    for len in [1u64, 2, 16, 4096, 0x10_0000] {
        assert!(rt; 0 < len && len <= 0x1000_0000);
        let ram = GuestRam::new(rt.alloc(), len)?;
        assert_eq!(rt; ram.len(), len);
        assert_eq!(rt; read_at(&rt, &ram, BASE, 1), 0, "first of {len}");
        assert_eq!(rt; read_at(&rt, &ram, BASE + (len - 1), 1), 0, "last of {len}");
    }
    let ram = GuestRam::new(rt.alloc(), 16)?;
    assert_eq!(rt; all_of(&rt, &ram), [0u8; 16].as_slice());
    Ok(())
}

#[test]
fn reads_are_little_endian_up_to_both_ends(rt: HostRuntime) -> Result<(), Fail> {
    let mut ram = GuestRam::new(rt.alloc(), 16)?;
    fill(&rt, &mut ram, &PATTERN);
    for (at, size, want) in [
        (0x8000_0000u64, 1u8, 0xf0u64),
        (0x8000_0007, 1, 0xf7),
        (0x8000_000f, 1, 0xff),
        (0x8000_0000, 2, 0xf1f0),
        (0x8000_0006, 2, 0xf7f6),
        (0x8000_000e, 2, 0xfffe),
        (0x8000_0000, 4, 0xf3f2_f1f0),
        (0x8000_0004, 4, 0xf7f6_f5f4),
        (0x8000_000c, 4, 0xfffe_fdfc),
        (0x8000_0000, 8, 0xf7f6_f5f4_f3f2_f1f0),
        (0x8000_0008, 8, 0xfffe_fdfc_fbfa_f9f8),
    ] {
        assert_eq!(rt; read_at(&rt, &ram, at, size), want, "{size} at {at}");
    }
    Ok(())
}

// The place and the size of a write of 1122334455667788 over the pattern, and all bytes after it.
static WRITES: [(u64, u8, [u8; 16]); 8] = [
    (
        0x8000_0000,
        1,
        [
            0x88, 0xf1, 0xf2, 0xf3, 0xf4, 0xf5, 0xf6, 0xf7, 0xf8, 0xf9, 0xfa, 0xfb, 0xfc, 0xfd,
            0xfe, 0xff,
        ],
    ),
    (
        0x8000_000f,
        1,
        [
            0xf0, 0xf1, 0xf2, 0xf3, 0xf4, 0xf5, 0xf6, 0xf7, 0xf8, 0xf9, 0xfa, 0xfb, 0xfc, 0xfd,
            0xfe, 0x88,
        ],
    ),
    (
        0x8000_0000,
        2,
        [
            0x88, 0x77, 0xf2, 0xf3, 0xf4, 0xf5, 0xf6, 0xf7, 0xf8, 0xf9, 0xfa, 0xfb, 0xfc, 0xfd,
            0xfe, 0xff,
        ],
    ),
    (
        0x8000_000e,
        2,
        [
            0xf0, 0xf1, 0xf2, 0xf3, 0xf4, 0xf5, 0xf6, 0xf7, 0xf8, 0xf9, 0xfa, 0xfb, 0xfc, 0xfd,
            0x88, 0x77,
        ],
    ),
    (
        0x8000_0000,
        4,
        [
            0x88, 0x77, 0x66, 0x55, 0xf4, 0xf5, 0xf6, 0xf7, 0xf8, 0xf9, 0xfa, 0xfb, 0xfc, 0xfd,
            0xfe, 0xff,
        ],
    ),
    (
        0x8000_000c,
        4,
        [
            0xf0, 0xf1, 0xf2, 0xf3, 0xf4, 0xf5, 0xf6, 0xf7, 0xf8, 0xf9, 0xfa, 0xfb, 0x88, 0x77,
            0x66, 0x55,
        ],
    ),
    (
        0x8000_0000,
        8,
        [
            0x88, 0x77, 0x66, 0x55, 0x44, 0x33, 0x22, 0x11, 0xf8, 0xf9, 0xfa, 0xfb, 0xfc, 0xfd,
            0xfe, 0xff,
        ],
    ),
    (
        0x8000_0008,
        8,
        [
            0xf0, 0xf1, 0xf2, 0xf3, 0xf4, 0xf5, 0xf6, 0xf7, 0x88, 0x77, 0x66, 0x55, 0x44, 0x33,
            0x22, 0x11,
        ],
    ),
];

#[test]
fn writes_store_the_low_bytes_and_leave_the_others(rt: HostRuntime) -> Result<(), Fail> {
    let mut ram = GuestRam::new(rt.alloc(), 16)?;
    for (at, size, want) in WRITES {
        fill(&rt, &mut ram, &PATTERN);
        write_at(&rt, &mut ram, at, size, 0x1122_3344_5566_7788);
        assert_eq!(rt; all_of(&rt, &ram), want.as_slice(), "{size} at {at}");
    }
    Ok(())
}

#[test]
fn has_knows_both_edges_and_never_wraps(rt: HostRuntime) -> Result<(), Fail> {
    let ram = GuestRam::new(rt.alloc(), 16)?;
    for (at, n, want) in [
        (0x8000_0000u64, 16u64, true),
        (0x8000_0000, 17, false),
        (0x8000_0000, 0, true),
        (0x8000_000f, 1, true),
        (0x8000_000f, 2, false),
        (0x8000_0010, 0, true),
        (0x8000_0010, 1, false),
        (0x8000_0011, 0, false),
        (0x7fff_ffff, 0, false),
        (0x7fff_ffff, 1, false),
        (0x7fff_ffff, 2, false),
        (0, 0, false),
        (0x8000_0008, u64::MAX, false),
        (0x8000_0008, 0xffff_ffff_7fff_fff8, false),
        (0x8000_0008, 0xffff_ffff_8000_0000, false),
        (u64::MAX, 0, false),
        (u64::MAX, 1, false),
        (u64::MAX, 2, false),
        (u64::MAX, 0x8000_0011, false),
    ] {
        assert_eq!(rt; ram.has(at, n), want, "{n} at {at}");
    }
    Ok(())
}

#[test]
fn parts_lend_the_bytes_of_the_region(rt: HostRuntime) -> Result<(), Fail> {
    let mut ram = GuestRam::new(rt.alloc(), 16)?;
    fill(&rt, &mut ram, &PATTERN);
    assert!(rt; ram.has(BASE + 5, 3) && ram.has(BASE + 16, 0));
    assert_eq!(rt; ram.part(BASE + 5, 3), [0xf5u8, 0xf6, 0xf7].as_slice());
    assert!(rt; ram.part(BASE + 16, 0).is_empty());
    ram.part_mut(BASE + 5, 3).copy_from_slice(&[1, 2, 3]);
    assert_eq!(rt; read_at(&rt, &ram, BASE, 8), 0x0302_01f4_f3f2_f1f0);
    assert_eq!(rt; read_at(&rt, &ram, BASE + 8, 8), 0xfffe_fdfc_fbfa_f9f8);
    Ok(())
}

#[test]
fn regions_are_given_back_and_taken_again(rt: HostRuntime) -> Result<(), Fail> {
    for round in 0..8u64 {
        let mut ram = GuestRam::new(rt.alloc(), 0x10_0000)?;
        assert_eq!(rt; read_at(&rt, &ram, BASE + 0xf_fff8, 8), 0, "round {round}");
        write_at(&rt, &mut ram, BASE + 0xf_fff8, 8, u64::MAX);
    }
    Ok(())
}

#[test]
fn page_tables_count_each_entry(rt: HostRuntime) -> Result<(), Fail> {
    let mut ram = GuestRam::new(rt.alloc(), 12)?;
    fill(&rt, &mut ram, &PATTERN[..12]);
    let mut table = PageTable::new(&ram);
    assert_eq!(rt; table.reads(), 0);
    for (at, want) in [
        (0x8000_0000u64, Some(0xf7f6_f5f4_f3f2_f1f0u64)),
        (0x8000_0008, None),
        (0x8000_0010, None),
        (0x7fff_fff8, None),
        (0, None),
        (0xffff_ffff_ffff_fff8, None),
        (0x8000_0000, Some(0xf7f6_f5f4_f3f2_f1f0)),
    ] {
        let before = table.reads();
        assert!(rt; at % 8 == 0 && before < 255);
        assert_eq!(rt; table.entry(at), want, "at {at}");
        assert_eq!(rt; table.reads(), before + 1);
    }
    assert_eq!(rt; table.reads(), 7);
    assert_eq!(rt; all_of(&rt, &ram), &PATTERN[..12]);
    Ok(())
}
