//! Files by their fields: each fault, what is laid in memory, and symbols.

mod program;

use crate::{ElfFault, ElfField, load, symbol};
use guest_ram::{BASE, GuestRam};
use program::PROGRAM;
use std::alloc::{AllocError, Global};
use std::process::Abort;
use std::test::Fail;

// The place of a field in the file, its size and its value.
type Put = (usize, usize, u64);

// A field of no bytes.
const NO: Put = (0, 0, 0);

// A file of 136 bytes: the header, one program header at 64, and 16 bytes of a segment at 120. Its
// virtual address is not its physical one.
const ONE_SEGMENT: [Put; 15] = [
    (0, 4, 0x464c_457f),
    (4, 1, 2),
    (5, 1, 1),
    (16, 2, 2),
    (18, 2, 243),
    (24, 8, 0x8000_0008),
    (32, 8, 64),
    (54, 2, 56),
    (56, 2, 1),
    (64, 4, 1),
    (72, 8, 120),
    (80, 8, 0x8000_0000),
    (88, 8, 0x8000_0010),
    (96, 8, 16),
    (104, 8, 24),
];

// A file of 528 bytes with no program header: names at 64, ten symbols at 96, of which the table
// has nine whole ones, and three section headers at 336.
const SYMBOLS: [Put; 45] = [
    (0, 4, 0x464c_457f),
    (4, 1, 2),
    (5, 1, 1),
    (16, 2, 2),
    (18, 2, 243),
    (40, 8, 336),
    (58, 2, 64),
    (60, 2, 3),
    // names: 1 tohost, 8 fromhost, 17 to, 20 end, which runs past the section's 23 bytes
    (65, 6, 0x7473_6f68_6f74),
    (72, 8, 0x7473_6f68_6d6f_7266),
    (81, 2, 0x6f74),
    (84, 3, 0x64_6e65),
    // 1: tohost, undefined
    (120, 4, 1),
    (128, 8, 0x1111),
    // 2 and 3: tohost, defined twice
    (144, 4, 1),
    (150, 2, 1),
    (152, 8, 0x8000_1000),
    (168, 4, 1),
    (174, 2, 2),
    (176, 8, 0x2222),
    // 4: end
    (192, 4, 20),
    (198, 2, 1),
    (200, 8, 0x3333),
    // 5: to, absolute
    (216, 4, 17),
    (222, 2, 0xfff1),
    (224, 8, 0x4444),
    // 6: ost, the end of tohost
    (240, 4, 4),
    (246, 2, 1),
    (248, 8, 0x5555),
    // 7: the empty name
    (264, 4, 0),
    (270, 2, 1),
    (272, 8, 0x6666),
    // 8: a name that begins past the section
    (288, 4, 24),
    (294, 2, 1),
    (296, 8, 0x7777),
    // 9: fromhost, of which the table lacks the last byte
    (312, 4, 8),
    (318, 2, 1),
    (320, 8, 0x8888),
    // section 1: the names
    (404, 4, 3),
    (424, 8, 64),
    (432, 8, 23),
    // section 2: the symbol table, whose names are in section 1
    (468, 4, 2),
    (488, 8, 96),
    (496, 8, 239),
    (504, 4, 1),
];

// Writes the low bytes of a value to its place in the file, the lowest first.
fn put(rt: &impl Abort, file: &mut [u8], field: Put) {
    let (at, size, value) = field;
    assert!(rt; at <= file.len() && size <= 8);
    assert!(rt; size <= file.len() - at);
    file[at..at + size].copy_from_slice(&value.to_le_bytes()[..size]);
}

fn put_all(rt: &impl Abort, file: &mut [u8], fields: &[Put]) {
    for field in fields {
        put(rt, file, *field);
    }
}

// The file of one segment, whose bytes are d0, d1 .. df.
fn one_segment(rt: &impl Abort) -> [u8; 136] {
    let mut file = [0; 136];
    put_all(rt, &mut file, &ONE_SEGMENT);
    put(rt, &mut file, (120, 8, 0xd7d6_d5d4_d3d2_d1d0));
    put(rt, &mut file, (128, 8, 0xdfde_dddc_dbda_d9d8));
    file
}

fn all_of<'a>(rt: &impl Abort, ram: &'a GuestRam) -> &'a [u8] {
    assert!(rt; ram.has(BASE, ram.len()));
    ram.part(BASE, ram.len())
}

// Loads a file into a new memory of this length, which is zero after a refusal.
fn load_new(
    rt: &impl Abort,
    alloc: Global,
    file: &[u8],
    len: u64,
) -> Result<(Result<u64, ElfFault>, GuestRam), AllocError> {
    assert!(rt; 0 < len && len <= 0x1000);
    let mut ram = GuestRam::new(alloc, len)?;
    let result = load(file, &mut ram);
    if result.is_err() {
        assert!(rt; all_of(rt, &ram).iter().all(|byte| *byte == 0));
    }
    Ok((result, ram))
}

// The value of a symbol in a file that loads.
fn symbol_in(
    rt: &impl Abort,
    alloc: Global,
    file: &[u8],
    name: &[u8],
) -> Result<Result<Option<u64>, ElfFault>, AllocError> {
    let mut ram = GuestRam::new(alloc, 64)?;
    match load(file, &mut ram) {
        Ok(_) => Ok(symbol(file, name)),
        Err(fault) => {
            assert!(rt; false, "refused for {fault:?}");
            Ok(Err(fault))
        }
    }
}

#[test]
fn a_cut_file_lacks_what_begins_before_its_end(rt: HostRuntime) -> Result<(), Fail> {
    let file = one_segment(&rt);
    for (from, to, want) in [
        (0usize, 4usize, Err(ElfFault::NotElf)),
        (4, 64, Err(ElfFault::Truncated(0))),
        (64, 120, Err(ElfFault::Truncated(64))),
        (120, 136, Err(ElfFault::Truncated(120))),
        (136, 137, Ok(0x8000_0008)),
    ] {
        for len in from..to {
            assert!(rt; len <= file.len());
            let (result, _ram) = load_new(&rt, rt.alloc(), &file[..len], 40)?;
            assert_eq!(rt; result, want, "of {len} bytes");
        }
    }
    Ok(())
}

const LAST: u64 = u64::MAX;

const ENTRY: Result<u64, ElfFault> = Ok(0x8000_0008);

// Two changes of the file of one segment, and what its load is answered.
static FILE_FAULTS: [(Put, Put, Result<u64, ElfFault>); 33] = [
    (NO, NO, ENTRY),
    ((0, 1, 0x7e), (4, 1, 1), Err(ElfFault::NotElf)),
    ((3, 1, 0x47), NO, Err(ElfFault::NotElf)),
    (
        (4, 1, 1),
        (5, 1, 2),
        Err(ElfFault::WrongKind(ElfField::Class)),
    ),
    (
        (5, 1, 2),
        (16, 2, 3),
        Err(ElfFault::WrongKind(ElfField::Order)),
    ),
    (
        (16, 2, 3),
        (18, 2, 62),
        Err(ElfFault::WrongKind(ElfField::Type2)),
    ),
    (
        (18, 2, 0x1f3),
        (54, 2, 55),
        Err(ElfFault::WrongKind(ElfField::Machine)),
    ),
    (
        (54, 2, 57),
        (24, 8, 1),
        Err(ElfFault::WrongKind(ElfField::Phentsize)),
    ),
    (
        (24, 8, 0x8000_0001),
        (32, 8, LAST),
        Err(ElfFault::WrongKind(ElfField::Entry)),
    ),
    ((24, 8, 6), NO, Ok(6)),
    // the table of program headers
    ((32, 8, 80), NO, ENTRY),
    ((32, 8, 81), NO, Err(ElfFault::Truncated(81))),
    ((32, 8, LAST), NO, Err(ElfFault::Truncated(LAST))),
    ((32, 8, LAST - 55), NO, Err(ElfFault::Truncated(LAST - 55))),
    ((56, 2, 2), NO, Err(ElfFault::Truncated(64))),
    ((56, 2, 0), (54, 2, 0), ENTRY),
    ((56, 2, 0), (32, 8, LAST), ENTRY),
    // the segment
    ((96, 8, 25), NO, Err(ElfFault::Shrinks(0))),
    ((96, 8, LAST), (104, 8, LAST - 1), Err(ElfFault::Shrinks(0))),
    ((96, 8, 17), NO, Err(ElfFault::Truncated(120))),
    ((72, 8, 121), (88, 8, 0), Err(ElfFault::Truncated(121))),
    ((72, 8, LAST), NO, Err(ElfFault::Truncated(LAST))),
    ((72, 8, LAST - 15), NO, Err(ElfFault::Truncated(LAST - 15))),
    ((72, 8, LAST), (96, 8, 0), ENTRY),
    ((88, 8, 0x7fff_ffff), NO, Err(ElfFault::OutsideRam(0))),
    ((88, 8, 0x8000_0011), NO, Err(ElfFault::OutsideRam(0))),
    ((104, 8, 25), NO, Err(ElfFault::OutsideRam(0))),
    ((104, 8, LAST), NO, Err(ElfFault::OutsideRam(0))),
    ((88, 8, LAST - 23), NO, Err(ElfFault::OutsideRam(0))),
    ((88, 8, 0x8000_0000), (104, 8, 40), ENTRY),
    // no segment to load, and one of no bytes
    ((64, 4, 2), (96, 8, LAST), ENTRY),
    ((64, 4, 0x101), (88, 8, 0), ENTRY),
    ((96, 8, 0), (104, 8, 0), ENTRY),
];

#[test]
fn each_fault_comes_in_the_order_of_the_checks(rt: HostRuntime) -> Result<(), Fail> {
    for (first, second, want) in FILE_FAULTS {
        let mut file = one_segment(&rt);
        put(&rt, &mut file, first);
        put(&rt, &mut file, second);
        let (result, _ram) = load_new(&rt, rt.alloc(), &file, 40)?;
        assert_eq!(rt; result, want, "{first:?} and {second:?}");
    }
    Ok(())
}

#[test]
fn a_file_of_more_than_64_mib_is_too_long(rt: HostRuntime) -> Result<(), Fail> {
    let file = vec![in rt.alloc(); 0u8; 0x400_0001]?;
    for (len, want) in [
        (0x400_0000usize, ElfFault::NotElf),
        (0x400_0001, ElfFault::TooLong(0x400_0001)),
    ] {
        assert!(rt; len <= file.len());
        let (result, _ram) = load_new(&rt, rt.alloc(), &file[..len], 40)?;
        assert_eq!(rt; result, Err(want));
    }
    Ok(())
}

#[test]
fn a_segment_stands_at_its_physical_address(rt: HostRuntime) -> Result<(), Fail> {
    let (result, ram) = load_new(&rt, rt.alloc(), &one_segment(&rt), 42)?;
    assert_eq!(rt; result, Ok(0x8000_0008));
    assert_eq!(rt;
        all_of(&rt, &ram),
        [
            0u8, 0, 0, 0, 0, 0, 0, 0, 0, 0, 0, 0, 0, 0, 0, 0, 0xd0, 0xd1, 0xd2, 0xd3, 0xd4, 0xd5,
            0xd6, 0xd7, 0xd8, 0xd9, 0xda, 0xdb, 0xdc, 0xdd, 0xde, 0xdf, 0, 0, 0, 0, 0, 0, 0, 0, 0,
            0,
        ]
        .as_slice()
    );
    Ok(())
}

// A program header: its type, offset, physical address, and lengths in the file and in memory.
type Load = [u64; 5];

// 12 bytes d0 .. db and 2 zeros at 4, and 2 bytes de, df and 4 zeros at 8.
const WIDE: Load = [1, 232, 0x8000_0004, 12, 14];

const NARROW: Load = [1, 246, 0x8000_0008, 2, 6];

fn put_load(rt: &impl Abort, file: &mut [u8], at: usize, load: Load) {
    assert!(rt; at <= 1000);
    let [kind, offset, paddr, filesz, memsz] = load;
    put_all(
        rt,
        file,
        &[
            (at, 4, kind),
            (at + 8, 8, offset),
            (at + 24, 8, paddr),
            (at + 32, 8, filesz),
            (at + 40, 8, memsz),
        ],
    );
}

// A file of three segments, of which the second is not to load, and bytes d0 .. df at 232.
fn three_segments(rt: &impl Abort, first: Load, last: Load) -> [u8; 248] {
    let mut file = [0; 248];
    put_all(rt, &mut file, &ONE_SEGMENT);
    put(rt, &mut file, (56, 2, 3));
    put(rt, &mut file, (232, 8, 0xd7d6_d5d4_d3d2_d1d0));
    put(rt, &mut file, (240, 8, 0xdfde_dddc_dbda_d9d8));
    put_load(rt, &mut file, 64, first);
    put_load(rt, &mut file, 120, [2, 232, 0x8000_0000, 16, 8]);
    put_load(rt, &mut file, 176, last);
    file
}

#[test]
fn a_later_segment_overwrites_an_earlier_one(rt: HostRuntime) -> Result<(), Fail> {
    for (first, last, want) in [
        (
            WIDE,
            NARROW,
            [
                0u8, 0, 0, 0, 0xd0, 0xd1, 0xd2, 0xd3, 0xde, 0xdf, 0, 0, 0, 0, 0xda, 0xdb, 0, 0, 0,
                0,
            ],
        ),
        // zeros alone at 8, and no bytes, far from memory
        (
            WIDE,
            [1, 999, 0x8000_0008, 0, 4],
            [
                0, 0, 0, 0, 0xd0, 0xd1, 0xd2, 0xd3, 0, 0, 0, 0, 0xd8, 0xd9, 0xda, 0xdb, 0, 0, 0, 0,
            ],
        ),
        (
            [1, 999, 0, 0, 0],
            NARROW,
            [
                0, 0, 0, 0, 0, 0, 0, 0, 0xde, 0xdf, 0, 0, 0, 0, 0, 0, 0, 0, 0, 0,
            ],
        ),
        (
            NARROW,
            WIDE,
            [
                0, 0, 0, 0, 0xd0, 0xd1, 0xd2, 0xd3, 0xd4, 0xd5, 0xd6, 0xd7, 0xd8, 0xd9, 0xda, 0xdb,
                0, 0, 0, 0,
            ],
        ),
    ] {
        let file = three_segments(&rt, first, last);
        let (result, ram) = load_new(&rt, rt.alloc(), &file, 20)?;
        assert_eq!(rt; result, Ok(0x8000_0008));
        assert_eq!(rt; all_of(&rt, &ram), want.as_slice());
    }
    Ok(())
}

#[test]
fn the_first_faulty_segment_is_named_and_none_is_laid(rt: HostRuntime) -> Result<(), Fail> {
    const SHRINKS: Load = [1, 999, 0, 7, 6];
    const CUT: Load = [1, 241, 0, 8, 8];
    const OUTSIDE: Load = [1, 232, 0x8000_0009, 8, 12];
    for (first, last, want) in [
        (WIDE, SHRINKS, ElfFault::Shrinks(2)),
        (WIDE, CUT, ElfFault::Truncated(241)),
        (WIDE, OUTSIDE, ElfFault::OutsideRam(2)),
        (OUTSIDE, SHRINKS, ElfFault::OutsideRam(0)),
        (CUT, OUTSIDE, ElfFault::Truncated(241)),
    ] {
        let file = three_segments(&rt, first, last);
        let (result, _ram) = load_new(&rt, rt.alloc(), &file, 20)?;
        assert_eq!(rt; result, Err(want));
    }
    Ok(())
}

fn symbols(rt: &impl Abort) -> [u8; 528] {
    let mut file = [0; 528];
    put_all(rt, &mut file, &SYMBOLS);
    file
}

#[test]
fn the_first_defined_symbol_of_the_name_is_found(rt: HostRuntime) -> Result<(), Fail> {
    let file = symbols(&rt);
    for (name, want) in [
        (b"tohost".as_slice(), Some(0x8000_1000u64)),
        (b"to".as_slice(), Some(0x4444)),
        (b"ost".as_slice(), Some(0x5555)),
        (b"".as_slice(), Some(0x6666)),
        (b"end".as_slice(), None),
        (b"fromhost".as_slice(), None),
        (b"tohos".as_slice(), None),
        (b"tohost\0".as_slice(), None),
        (b"t".as_slice(), None),
    ] {
        let value = symbol_in(&rt, rt.alloc(), &file, name)?;
        assert_eq!(rt; value, Ok(want), "of {name:?}");
    }
    Ok(())
}

const FOUND: Result<Option<u64>, ElfFault> = Ok(Some(0x8000_1000));

const NONE: Result<Option<u64>, ElfFault> = Ok(None);

// Two changes of the file with symbols, and what the search for `tohost` is answered.
static SYMBOL_FAULTS: [(Put, Put, Result<Option<u64>, ElfFault>); 20] = [
    (NO, NO, FOUND),
    ((40, 8, 0), (58, 2, 1), NONE),
    ((60, 2, 0), (58, 2, 1), NONE),
    (
        (58, 2, 63),
        (60, 2, 4),
        Err(ElfFault::WrongKind(ElfField::Shentsize)),
    ),
    ((60, 2, 4), NO, Err(ElfFault::Truncated(336))),
    ((40, 8, LAST), NO, Err(ElfFault::Truncated(LAST))),
    (
        (40, 8, LAST - 191),
        NO,
        Err(ElfFault::Truncated(LAST - 191)),
    ),
    // no symbol table, and an empty one first
    ((468, 4, 11), (504, 4, 3), NONE),
    ((340, 4, 2), NO, NONE),
    (
        (504, 4, 3),
        (488, 8, 528),
        Err(ElfFault::WrongKind(ElfField::Link)),
    ),
    (
        (504, 4, 0x1_0001),
        NO,
        Err(ElfFault::WrongKind(ElfField::Link)),
    ),
    // the table, then the names
    ((488, 8, 290), (424, 8, 506), Err(ElfFault::Truncated(290))),
    ((496, 8, LAST), NO, Err(ElfFault::Truncated(96))),
    ((424, 8, 506), NO, Err(ElfFault::Truncated(506))),
    ((424, 8, LAST - 22), NO, Err(ElfFault::Truncated(LAST - 22))),
    // nine symbols, of which two are too few, and names that end before the zero byte
    ((496, 8, 71), NO, NONE),
    ((496, 8, 72), NO, FOUND),
    ((432, 8, 7), NO, NONE),
    ((432, 8, 8), NO, FOUND),
    // the first one undefined too
    ((150, 2, 0), NO, Ok(Some(0x2222))),
];

#[test]
fn each_fault_of_the_symbols_comes_in_order(rt: HostRuntime) -> Result<(), Fail> {
    for (first, second, want) in SYMBOL_FAULTS {
        let mut file = symbols(&rt);
        put(&rt, &mut file, first);
        put(&rt, &mut file, second);
        let value = symbol_in(&rt, rt.alloc(), &file, b"tohost")?;
        assert_eq!(rt; value, want, "{first:?} and {second:?}");
    }
    Ok(())
}

#[test]
fn a_linked_program_is_loaded(rt: HostRuntime) -> Result<(), Fail> {
    let (result, ram) = load_new(&rt, rt.alloc(), &PROGRAM, 40)?;
    assert_eq!(rt; result, Ok(0x8000_0000));
    assert_eq!(rt;
        all_of(&rt, &ram),
        [
            0x97u8, 0x02, 0x00, 0x00, 0x93, 0x82, 0x82, 0x01, 0x13, 0x03, 0x10, 0x00, 0x23, 0xb0,
            0x62, 0x00, 0x6f, 0x00, 0x00, 0x00, 0, 0, 0, 0, 0, 0, 0, 0, 0, 0, 0, 0, 0, 0, 0, 0, 0,
            0, 0, 0,
        ]
        .as_slice()
    );
    for (name, want) in [
        (b"_start".as_slice(), Some(0x8000_0000u64)),
        (b"tohost".as_slice(), Some(0x8000_0018)),
        (b"fromhost".as_slice(), None),
        (b"".as_slice(), Some(0x8000_0000)),
    ] {
        let value = symbol_in(&rt, rt.alloc(), &PROGRAM, name)?;
        assert_eq!(rt; value, Ok(want), "of {name:?}");
    }
    Ok(())
}
