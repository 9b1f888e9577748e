//! Loading over files in memory. The configurations, programs and reports are those of the program's
//! documents; the ELF file was laid out by hand (System V ABI, 4 and 5).

use crate::test_files::Content::{Elf, Image, Text};
use crate::test_files::{File, NO_CHANGE, Put};
use crate::test_support::{Call, NOTHING, expect_call, files_before, same, streams_after};
use guest_ram::BASE;
use machine_start::{Start, StartFault, config_start, image_start};
use outside_io::{Files, OutFault};
use std::process::Abort;
use std::test::Fail;

const LARGE: &str = "{\"harts\":1,\"ram\":67108864,\"slice\":64,\"program\":\"p.elf\"}";

const SMALL: &str = "{\"harts\":1,\"ram\":65536,\"slice\":64,\"program\":\"p.elf\"}";

const EIGHT_HARTS: &str = "{\"harts\":8,\"ram\":65536,\"slice\":1024,\"program\":\"p.elf\"}";

// Harts, RAM, slice and window.
type Numbers = (u8, u64, u16, u64);

// Configurations, a change of the ELF file, and the numbers of the start.
static STARTS: [(&str, Put, Numbers); 6] = [
    (LARGE, NO_CHANGE, (1, 67_108_864, 64, 0x8000_1000)),
    // the configuration's window goes before the symbol, and its symbols are not looked at then
    (
        "{\"harts\":1,\"ram\":65536,\"slice\":5,\"program\":\"p.elf\",\"tohost\":2147487752}",
        (58, 2, 63),
        (1, 65_536, 5, 0x8000_1008),
    ),
    (
        "{\"harts\":1,\"ram\":65536,\"slice\":5,\"program\":\"p.elf\",\"tohost\":0}",
        NO_CHANGE,
        (1, 65_536, 5, 0),
    ),
    // the last word of memory
    (
        "{\"harts\":2,\"ram\":65536,\"slice\":1,\"program\":\"p.elf\"}",
        (176, 8, 0x8000_fff8),
        (2, 65_536, 1, 0x8000_fff8),
    ),
    // no such symbol, and no sections
    (EIGHT_HARTS, (137, 1, 0x54), (8, 65_536, 1024, 0)),
    (EIGHT_HARTS, (60, 2, 0), (8, 65_536, 1024, 0)),
];

// A start has these numbers, its memory these bytes at its front, and it is entered there.
fn expect_numbers(rt: &impl Abort, start: &Start, numbers: Numbers, front: &[u8], note: &str) {
    let shape = start.shape;
    let got = (shape.harts, shape.ram, shape.slice, shape.tohost);
    same(rt, &got, &numbers, "the numbers of", note);
    same(rt, &start.ram.len(), &numbers.1, "the memory of", note);
    same(rt, &start.entry, &BASE, "the entry of", note);
    assert!(rt; start.ram.has(BASE, 24));
    same(rt, &start.ram.part(BASE, 24), &front, "the front of", note);
}

// There is a start, which has these numbers.
fn expect_start(
    rt: &impl Abort,
    start: &Result<Start, StartFault>,
    numbers: Numbers,
    front: &[u8],
) {
    match start {
        Ok(start) => expect_numbers(rt, start, numbers, front, "the start"),
        Err(_) => panic!(rt; "no start of {numbers:?}"),
    }
}

// The first bytes of memory after the program was laid there.
static FRONT: [u8; 24] = [
    0x93, 0x02, 0x10, 0x00, 0x17, 0x13, 0x00, 0x00, 0x23, 0x3e, 0x53, 0xfe, 0x6f, 0, 0, 0, 0, 0, 0,
    0, 0, 0, 0, 0,
];

#[test]
fn a_configuration_and_its_program_give_the_start(rt: HostRuntime) -> Result<(), Fail> {
    for &(config, change, numbers) in &STARTS {
        let held = [("c", Text(config)), ("p.elf", Elf(change))];
        let mut files = files_before(&rt, rt.alloc(), &held)?;
        let start = config_start(rt.alloc(), &mut files, "c");
        expect_start(&rt, &start, numbers, &FRONT);
    }
    Ok(())
}

// The first bytes of memory after the flat image was laid there.
static IMAGE_FRONT: [u8; 24] = [
    0x6f, 0, 0, 0, 0, 0, 0, 0, 0, 0, 0, 0, 0, 0, 0, 0, 0, 0, 0, 0, 0, 0, 0, 0,
];

#[test]
fn a_flat_image_stands_at_the_front_of_memory(rt: HostRuntime) -> Result<(), Fail> {
    let held = [("a.bin", Image(&[0x6f], 65_536))];
    let mut files = files_before(&rt, rt.alloc(), &held)?;
    let start = image_start(rt.alloc(), &mut files, "a.bin");
    expect_start(&rt, &start, (1, 65_536, 16, 0), &IMAGE_FRONT);
    Ok(())
}

// Calls that begin with the configuration `c`, and touch no more than the files that they read.
const CONFIGURED: Call<'static> = Call {
    line: "run --config c --turns 1000 --trace t",
    input: "xy",
    left: Some("xy"),
    ..NOTHING
};

// Configurations that are refused, the status's number, and the report. There is no program that could be
// read.
static CONFIGS: [(&str, u8, &str); 16] = [
    (
        "{\"harts\":9,\"ram\":65536,\"slice\":1,\"program\":\"p\"}",
        3,
        "config out-of-range harts\n",
    ),
    (
        "{\"harts\":1,\"ram\":65536,\"slice\":1,\"program\":\"p\",\"x\":0}",
        3,
        "config unknown x\n",
    ),
    (
        "{\"harts\":1,\"ram\":65536,\"slice\":1,\"program\":\"p\",\"\":0}",
        3,
        "config unknown \n",
    ),
    (
        "{\"harts\":1,\"ram\":65536,\"slice\":1,\"program\":\"p\",\"a\\nb\":0}",
        3,
        "config unknown a\nb\n",
    ),
    (
        "{\"harts\":1,\"ram\":65537,\"slice\":1,\"program\":\"p\"}",
        3,
        "config out-of-range ram\n",
    ),
    ("[]", 3, "config wrong-kind top\n"),
    ("", 3, "config not-json\n"),
    (
        "{\"harts\":1.0,\"ram\":65536,\"slice\":1,\"program\":\"p\"}",
        3,
        "config wrong-kind harts\n",
    ),
    (
        "{\"harts\":1,\"ram\":67108864,\"program\":\"p.elf\"}",
        3,
        "config missing slice\n",
    ),
    (
        "{\"harts\":1,\"ram\":67108864,\"slice\":\"1\",\"program\":\"p.elf\"}",
        3,
        "config wrong-kind slice\n",
    ),
    (
        "{\"harts\":1,\"ram\":65536,\"slice\":1,\"program\":\"\"}",
        3,
        "config out-of-range program\n",
    ),
    // a path that holds a zero byte is an ordinary name
    (
        "{\"harts\":1,\"ram\":65536,\"slice\":1,\"program\":\"\\u0000\"}",
        7,
        "read fault files\n",
    ),
    (
        "{\"harts\":9,\"ram\":65536,\"slice\":1,\"program\":\"p.elf\"}",
        3,
        "config out-of-range harts\n",
    ),
    (
        "{\"harts\":1,\"ram\":65536,\"slice\":1,\"program\":\"p.elf\",\"x\":0}",
        3,
        "config unknown x\n",
    ),
    (
        "{\"harts\":1,\"ram\":65537,\"slice\":1,\"program\":\"p.elf\"}",
        3,
        "config out-of-range ram\n",
    ),
    (
        "{\"harts\":1.0,\"ram\":65536,\"slice\":1,\"program\":\"p.elf\"}",
        3,
        "config wrong-kind harts\n",
    ),
];

#[test]
fn a_configuration_is_refused_before_its_program_is_read(rt: HostRuntime) -> Result<(), Fail> {
    for &(config, code, report) in &CONFIGS {
        let files = [("c", Text(config))];
        let call = Call {
            files: &files,
            code,
            report,
            ..CONFIGURED
        };
        expect_call(&rt, rt.alloc(), &call)?;
    }
    Ok(())
}

// Changes of the ELF file, and how it is refused.
static PROGRAMS: [(Put, &str); 21] = [
    ((0, 1, 0), "elf not-elf\n"),
    ((4, 1, 1), "elf wrong-kind class\n"),
    ((5, 1, 2), "elf wrong-kind order\n"),
    ((16, 2, 3), "elf wrong-kind type\n"),
    ((18, 2, 62), "elf wrong-kind machine\n"),
    ((54, 2, 64), "elf wrong-kind phentsize\n"),
    ((24, 8, 0x8000_0001), "elf wrong-kind entry\n"),
    ((32, 8, 329), "elf truncated 329\n"),
    ((72, 8, 369), "elf truncated 369\n"),
    ((104, 8, 15), "elf shrinks 0\n"),
    ((88, 8, 0x7fff_ffff), "elf outside-ram 0\n"),
    ((88, 8, 0x8000_fff8), "elf outside-ram 0\n"),
    ((58, 2, 63), "elf wrong-kind shentsize\n"),
    ((40, 8, 193), "elf truncated 193\n"),
    ((360, 4, 3), "elf wrong-kind link\n"),
    ((344, 8, 337), "elf truncated 337\n"),
    ((280, 8, 377), "elf truncated 377\n"),
    ((176, 8, 0), "elf wrong-kind tohost\n"),
    ((176, 8, 0x8000_1004), "elf wrong-kind tohost\n"),
    ((176, 8, 0x7fff_fff8), "elf wrong-kind tohost\n"),
    ((176, 8, 0x8001_0000), "elf wrong-kind tohost\n"),
];

#[test]
fn a_program_is_refused_by_its_first_fault(rt: HostRuntime) -> Result<(), Fail> {
    for &(change, report) in &PROGRAMS {
        let files = [("c", Text(SMALL)), ("p.elf", Elf(change))];
        let call = Call {
            files: &files,
            code: 4,
            report,
            ..CONFIGURED
        };
        expect_call(&rt, rt.alloc(), &call)?;
    }
    Ok(())
}

// A configuration, its program, and an empty file.
const READABLE: Call<'static> = Call {
    files: &[
        ("c", Text(SMALL)),
        ("p.elf", Elf(NO_CHANGE)),
        ("empty", Text("")),
    ],
    ..NOTHING
};

const UNREAD: &str = "read fault files\n";

const NO_TURNS: &str = "done turns=0 taken=0\n";

// The words, the call of the files that fails, the status's number, and the report.
static FAILURES: [(&str, u64, u8, &str); 12] = [
    ("run --config c --turns 0", 1, 7, UNREAD),
    ("run --config c --turns 0", 2, 7, UNREAD),
    ("run --config c --turns 0", 3, 7, UNREAD),
    ("run --config c --turns 0", 4, 7, UNREAD),
    ("run --config c --turns 0", 5, 0, NO_TURNS),
    ("run --image p.elf --turns 0", 1, 7, UNREAD),
    ("run --image p.elf --turns 0", 2, 7, UNREAD),
    ("run --image p.elf --turns 0", 3, 0, NO_TURNS),
    // no byte is missing of an empty file
    ("run --image empty --turns 0", 2, 0, NO_TURNS),
    ("run --config empty --turns 0", 2, 3, "config not-json\n"),
    ("run --image none --turns 0", 9, 7, UNREAD),
    ("run --config none --turns 0", 9, 7, UNREAD),
];

#[test]
fn a_failed_read_is_answered(rt: HostRuntime) -> Result<(), Fail> {
    for &(line, number, code, report) in &FAILURES {
        let call = Call {
            line,
            fails: [number, 0, 0, 0],
            code,
            report,
            ..READABLE
        };
        expect_call(&rt, rt.alloc(), &call)?;
    }
    Ok(())
}

// Files of zeros, whose reading would fail.
static TOO_LONG: [Call<'static>; 3] = [
    Call {
        line: "run --image a --turns 0",
        files: &[("a", Image(&[], 65_537))],
        fails: [2, 0, 0, 0],
        code: 4,
        report: "elf outside-ram 0\n",
        ..NOTHING
    },
    Call {
        line: "run --config c --turns 0",
        files: &[("c", Image(&[], 65_537))],
        fails: [2, 0, 0, 0],
        code: 3,
        report: "config too-long 65537\n",
        ..NOTHING
    },
    Call {
        line: "run --config d --turns 0",
        files: &[("d", Text(SMALL)), ("p.elf", Image(&[], 67_108_865))],
        fails: [4, 0, 0, 0],
        code: 4,
        report: "elf too-long 67108865\n",
        ..NOTHING
    },
];

#[test]
fn nothing_is_read_of_a_file_that_is_too_long(rt: HostRuntime) -> Result<(), Fail> {
    for call in &TOO_LONG {
        expect_call(&rt, rt.alloc(), call)?;
    }
    Ok(())
}

// Files that say that they have ten bytes, give one at a time, and end after `[]`.
#[derive(Drop)]
struct Ending;

impl Files for Ending {
    ghost use Rattle.std.specs.Prelude.{None};

    ghost held = { λ _. None };

    ghost read_faults = { λ _. 0 };

    ghost write_faults = { λ _. 0 };

    ghost quiet = { λ _. ⊥ };

    ghost can_rise = { λ _ quiet. absurd quiet };

    fn size(&mut self, _name: &str) -> Result<u64, OutFault> {
        Ok(10)
    }

    fn read_at(&mut self, _name: &str, at: u64, buf: &mut [u8]) -> Result<usize, OutFault> {
        if buf.is_empty() || at > 1 {
            return Ok(0);
        }
        buf[0] = if at == 0 { b'[' } else { b']' };
        Ok(1)
    }

    fn start(&mut self, _name: &str) -> Result<(), OutFault> {
        Ok(())
    }

    fn append(&mut self, _name: &str, _piece: &[u8]) -> Result<(), OutFault> {
        Ok(())
    }
}

#[test]
fn a_file_that_ends_early_counts_as_what_was_read(rt: HostRuntime) -> Result<(), Fail> {
    let call = Call {
        code: 3,
        report: "config wrong-kind top\n",
        ..CONFIGURED
    };
    streams_after(&rt, rt.alloc(), &mut Ending, &call, call.line)?;
    Ok(())
}
