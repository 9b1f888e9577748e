//! Files that are cut, to each of their lengths, and boots of two harts. What comes of a boot ROM that is cut is
//! reckoned by hand from its words (boot_roms.rt): it is executed up to the first word that is not whole, or up to
//! the first load of eight bytes that are not there.

use crate::boot_roms::AFTER_PROGRAM;
use crate::test_files::Content::{Image, Program, Text};
use crate::test_files::{Content, bytes_of, program_of};
use crate::test_support::{Call, NOTHING, expect_call, expect_over};
use outside_io::MemFiles;
use std::alloc::Global;
use std::process::Abort;
use std::test::Fail;

// A call over files of which one has the first bytes alone.
fn expect_cut(
    rt: &impl Abort,
    alloc: Global,
    call: &Call<'_>,
    name: &str,
    whole: &[u8],
    len: usize,
) -> Result<(), Fail> {
    assert!(rt; len <= whole.len());
    let mut files = MemFiles::new(alloc);
    files.put(name, &whole[..len])?;
    expect_over(rt, alloc, &mut files, call)
}

// The same for each of these lengths, the last of which is not meant.
fn expect_cuts(
    rt: &impl Abort,
    alloc: Global,
    call: &Call<'_>,
    name: &str,
    whole: &[u8],
    lengths: (usize, usize),
) -> Result<(), Fail> {
    for len in lengths.0..lengths.1 {
        expect_cut(rt, alloc, call, name, whole, len)?;
    }
    Ok(())
}

// ---- programs

const CONFIG: Content = Text("{\"harts\":1,\"ram\":65536,\"slice\":1,\"program\":\"p.elf\"}");

// A letter to the console.
const LETTER: [u32; 4] = [
    0x0410_0293, // addi x5,x0,0x41
    0x1000_0337, // lui x6,0x10000
    0x0053_0023, // sb x5,0(x6)
    0x0000_006f, // jal x0,0
];

// Lengths of a file of 136 bytes (its header, a program header at 64 and a segment at 120), the status's number, the
// report, the console's bytes, and what the input has left.
type ProgramCut = ((usize, usize), u8, &'static str, &'static str, &'static str);

static PROGRAM_CUTS: [ProgramCut; 5] = [
    ((0, 4), 4, "elf not-elf\n", "", "input"),
    ((4, 64), 4, "elf truncated 0\n", "", "input"),
    ((64, 120), 4, "elf truncated 64\n", "", "input"),
    ((120, 136), 4, "elf truncated 120\n", "", "input"),
    ((136, 137), 0, "done turns=3 taken=3\n", "A", "ut"),
];

#[test]
fn a_program_that_is_cut_is_refused(rt: HostRuntime) -> Result<(), Fail> {
    let alloc = rt.alloc();
    let Some(image) = bytes_of(&rt, alloc, Image(&LETTER, 0))? else {
        return Ok(());
    };
    let program = program_of(alloc, &image)?;
    for &(lengths, code, report, console, left) in &PROGRAM_CUTS {
        let call = Call {
            line: "run --config c --turns 3",
            files: &[("c", CONFIG)],
            input: "input",
            code,
            report,
            console,
            left: Some(left),
            ..NOTHING
        };
        expect_cuts(&rt, alloc, &call, "p.elf", &program, lengths)?;
    }
    Ok(())
}

// ---- texts

const CONFIG_TEXT: &str =
    "{\"harts\":1,\"ram\":65536,\"slice\":1,\"program\":\"p.elf\",\"tohost\":0}";

const META_TEXT: &str =
    "{\"harts\":1,\"ram\":65536,\"rom\":464,\"slice\":1,\"taken\":0,\"tohost\":0,\"version\":1}";

// A text that is no JSON when its last byte is missing.
const CUT: Call<'static> = Call {
    input: "in",
    left: Some("in"),
    ..NOTHING
};

// Calls over a text that is cut, its file, and the text.
static TEXT_CUTS: [(Call<'static>, &str, &str); 4] = [
    (
        Call {
            line: "run --config c --turns 1 --trace t",
            files: &[("p.elf", Program(&LETTER))],
            code: 3,
            report: "config not-json\n",
            ..CUT
        },
        "c",
        CONFIG_TEXT,
    ),
    (
        Call {
            line: "save --config c --turns 1 --name P",
            files: &[("p.elf", Program(&LETTER))],
            code: 3,
            report: "config not-json\n",
            ..CUT
        },
        "c",
        CONFIG_TEXT,
    ),
    (
        Call {
            line: "cosim --config c",
            files: &[("p.elf", Program(&LETTER))],
            code: 3,
            report: "config not-json\n",
            ..CUT
        },
        "c",
        CONFIG_TEXT,
    ),
    (
        Call {
            line: "load --name P --turns 1 --trace t",
            files: &[
                ("P.mainram", Image(&[], 65_536)),
                ("P.bootram", Image(&AFTER_PROGRAM, 0)),
            ],
            code: 5,
            report: "checkpoint not-json\n",
            ..CUT
        },
        "P.json",
        META_TEXT,
    ),
];

#[test]
fn a_text_that_is_cut_is_no_json(rt: HostRuntime) -> Result<(), Fail> {
    for &(call, name, text) in &TEXT_CUTS {
        let lengths = (0, text.len());
        expect_cuts(&rt, rt.alloc(), &call, name, text.as_bytes(), lengths)?;
    }
    Ok(())
}

// ---- boot ROMs

const LOAD: Call<'static> = Call {
    line: "load --name P --turns 1 --trace t",
    files: &[("P.mainram", Image(&[], 65_536))],
    input: "in",
    left: Some("in"),
    ..NOTHING
};

// The boot ROM of AFTER_PROGRAM, of which so many bytes are there.
fn expect_short_rom(rt: &impl Abort, alloc: Global, rom: &[u8], len: usize) -> Result<(), Fail> {
    let report = format!(in alloc; "checkpoint length bootram want=464 have={len}\n")?;
    let call = Call {
        files: &[
            ("P.mainram", Image(&[], 65_536)),
            ("P.json", Text(META_TEXT)),
        ],
        code: 5,
        report: report.as_str(),
        ..LOAD
    };
    expect_cut(rt, alloc, &call, "P.bootram", rom, len)
}

#[test]
fn a_boot_rom_that_is_cut_has_the_wrong_length(rt: HostRuntime) -> Result<(), Fail> {
    let alloc = rt.alloc();
    let Some(rom) = bytes_of(&rt, alloc, Image(&AFTER_PROGRAM, 0))? else {
        return Ok(());
    };
    for len in 0..rom.len() {
        expect_short_rom(&rt, alloc, &rom, len)?;
    }
    Ok(())
}

// Lengths of a boot ROM, and where and with which cause it traps when the meta text says that length. The dispatch
// loads at 10010 from 10018; it leads to the block of the devices at 10020, which jumps at 100a8 to that of the hart at
// 100b0. This one loads from 101b0, and at 10100, 1011c and 10130 from the three places behind.
type RomCut = ((usize, usize), u64, u8);

static ROM_CUTS: [RomCut; 7] = [
    ((20, 32), 0x1_0010, 5),
    ((172, 176), 0x1_00b0, 1),
    ((176, 180), 0x1_00b0, 1),
    ((180, 440), 0x1_00b0, 5),
    ((440, 448), 0x1_0100, 5),
    ((448, 456), 0x1_011c, 5),
    ((456, 464), 0x1_0130, 5),
];

// Between them every word up to the first that is not whole is executed, and that one cannot be fetched.
static ROM_FRONTS: [(usize, usize); 2] = [(0, 20), (32, 172)];

// The boot ROM is cut to these lengths, of which the meta text tells, and traps.
fn expect_traps(rt: &impl Abort, alloc: Global, rom: &[u8], cut: RomCut) -> Result<(), Fail> {
    let (lengths, pc, cause) = cut;
    let report = format!(in alloc; "boot trap hart=0 pc={pc:016x} cause={cause}\n")?;
    let call = Call {
        code: 6,
        report: report.as_str(),
        ..LOAD
    };
    for len in lengths.0..lengths.1 {
        assert!(rt; len <= rom.len());
        let meta = format!(in alloc;
            "{}{len}{}",
            "{\"harts\":1,\"ram\":65536,\"rom\":",
            ",\"slice\":1,\"taken\":0,\"tohost\":0,\"version\":1}"
        )?;
        let mut files = MemFiles::new(alloc);
        files.put("P.json", meta.as_bytes())?;
        files.put("P.bootram", &rom[..len])?;
        expect_over(rt, alloc, &mut files, &call)?;
    }
    Ok(())
}

#[test]
fn a_short_boot_rom_traps_at_what_is_missing(rt: HostRuntime) -> Result<(), Fail> {
    let Some(rom) = bytes_of(&rt, rt.alloc(), Image(&AFTER_PROGRAM, 0))? else {
        return Ok(());
    };
    for &cut in &ROM_CUTS {
        expect_traps(&rt, rt.alloc(), &rom, cut)?;
    }
    Ok(())
}

// Each length between the two.
fn expect_front(
    rt: &impl Abort,
    alloc: Global,
    rom: &[u8],
    lengths: (usize, usize),
) -> Result<(), Fail> {
    for len in lengths.0..lengths.1 {
        assert!(rt; len <= 1000);
        let pc = 0x1_0000 + (len / 4 * 4) as u64;
        expect_traps(rt, alloc, rom, ((len, len + 1), pc, 1))?;
    }
    Ok(())
}

#[test]
fn a_short_boot_rom_traps_at_its_end(rt: HostRuntime) -> Result<(), Fail> {
    let Some(rom) = bytes_of(&rt, rt.alloc(), Image(&AFTER_PROGRAM, 0))? else {
        return Ok(());
    };
    for &lengths in &ROM_FRONTS {
        expect_front(&rt, rt.alloc(), &rom, lengths)?;
    }
    Ok(())
}

// The meta text of two harts and so many bytes of boot ROM.
const ONE_WORD: Content = Text(
    "{\"harts\":2,\"ram\":65536,\"rom\":4,\"slice\":1,\"taken\":0,\"tohost\":0,\"version\":1}",
);

const THREE_WORDS: Content = Text(
    "{\"harts\":2,\"ram\":65536,\"rom\":12,\"slice\":1,\"taken\":0,\"tohost\":0,\"version\":1}",
);

const FOUR_WORDS: Content = Text(
    "{\"harts\":2,\"ram\":65536,\"rom\":16,\"slice\":1,\"taken\":0,\"tohost\":0,\"version\":1}",
);

const FIVE_WORDS: Content = Text(
    "{\"harts\":2,\"ram\":65536,\"rom\":20,\"slice\":1,\"taken\":0,\"tohost\":0,\"version\":1}",
);

// jal x0,0
const WAITS: [u32; 1] = [0x0000_006f];

// Hart 0 leaves, and hart 1 waits.
const ONE_WAITS: [u32; 3] = [
    0xf140_2173, // csrrs x2,mhartid,x0
    0x0001_1063, // bne x2,x0,0
    0x7b20_0073, // dret
];

// Hart 0 leaves, and hart 1 traps.
const ONE_TRAPS: [u32; 4] = [
    0xf140_2173, // csrrs x2,mhartid,x0
    0x0001_1463, // bne x2,x0,8
    0x7b20_0073, // dret
    0x0010_0073, // ebreak
];

// Leaves with the step numbered 1,024, and with the one behind it.
const LAST_STEP: [u32; 4] = [
    0x1ff0_0113, // addi x2,x0,511
    0xfff1_0113, // addi x2,x2,-1
    0xfe01_1ee3, // bne x2,x0,-4
    0x7b20_0073, // dret
];

const ONE_STEP_MORE: [u32; 5] = [
    0x0000_0013, // addi x0,x0,0
    0x1ff0_0113, // addi x2,x0,511
    0xfff1_0113, // addi x2,x2,-1
    0xfe01_1ee3, // bne x2,x0,-4
    0x7b20_0073, // dret
];

// Meta texts and boot ROMs, the status's number, and the report.
type Boot = (Content, &'static [u32], u8, &'static str);

static BOOTS: [Boot; 5] = [
    (ONE_WORD, &WAITS, 6, "boot long hart=0\n"),
    (THREE_WORDS, &ONE_WAITS, 6, "boot long hart=1\n"),
    (
        FOUR_WORDS,
        &ONE_TRAPS,
        6,
        "boot trap hart=1 pc=000000000001000c cause=3\n",
    ),
    (FOUR_WORDS, &LAST_STEP, 0, "done turns=0 taken=0\n"),
    (FIVE_WORDS, &ONE_STEP_MORE, 6, "boot long hart=0\n"),
];

#[test]
fn two_harts_leave_debug_mode_one_after_another(rt: HostRuntime) -> Result<(), Fail> {
    for &(meta, rom, code, report) in &BOOTS {
        let files = [
            ("P.json", meta),
            ("P.mainram", Image(&[], 65_536)),
            ("P.bootram", Image(rom, 0)),
        ];
        let call = Call {
            line: "load --name P --turns 0",
            files: &files,
            code,
            report,
            ..LOAD
        };
        expect_call(&rt, rt.alloc(), &call)?;
    }
    Ok(())
}
