//! Calls that save a checkpoint, and calls that load what was saved. The words of the programs are an assembler's
//! (llvm-mc), each with its assembly beside it; what comes of them is reckoned by hand, and the boot ROM and the
//! lengths of boot ROMs by tools/boot_rom.py.

use crate::boot_roms::AFTER_PROGRAM;
use crate::test_files::Content::{Absent, Elf, Image, Program, Text, Texts};
use crate::test_files::{Content, File};
use crate::test_support::{Call, NOTHING, expect_call, expect_calls};
use std::alloc::Global;
use std::process::Abort;
use std::test::Fail;

pub(crate) const ONE_STEP: Content = Text(
    "{\"harts\":1,\"ram\":65536,\"slice\":1,\"program\":\"p.elf\"}",
);

const THREE_STEPS: Content = Text("{\"harts\":1,\"ram\":65536,\"slice\":3,\"program\":\"p.elf\"}");

const TWO_HARTS: Content = Text("{\"harts\":2,\"ram\":65536,\"slice\":1,\"program\":\"p.elf\"}");

const EIGHT_HARTS: Content = Text("{\"harts\":8,\"ram\":65536,\"slice\":1,\"program\":\"p.elf\"}");

pub(crate) const MORE_RAM: Content = Text(
    "{\"harts\":1,\"ram\":69632,\"slice\":1,\"program\":\"p.elf\"}",
);

const WINDOW: Content = Text(
    "{\"harts\":1,\"ram\":65536,\"slice\":1,\"program\":\"p.elf\",\"tohost\":2147487744}",
);

// ---- programs, and the lines of their traces

// Turns satp on over an empty page table, and lets loads and stores be those of user mode.
pub(crate) const SWITCHES: [u32; 9] = [
    0x0010_0293, // addi x5,x0,1
    0x03f2_9293, // slli x5,x5,63
    0x0008_0337, // lui x6,0x80
    0x0083_0313, // addi x6,x6,8
    0x0062_82b3, // add x5,x5,x6
    0x1802_9073, // csrrw x0,satp,x5
    0x0002_03b7, // lui x7,0x20
    0x3003_a073, // csrrs x0,mstatus,x7
    0x0000_006f, // jal x0,0
];

const SWITCHES_LINES: &str = "C 0 M 0000000080000000 00100293 x5 0000000000000001\n\
                              C 0 M 0000000080000004 03f29293 x5 8000000000000000\n\
                              C 0 M 0000000080000008 00080337 x6 0000000000080000\n\
                              C 0 M 000000008000000c 00830313 x6 0000000000080008\n\
                              C 0 M 0000000080000010 006282b3 x5 8000000000080008\n\
                              C 0 M 0000000080000014 18029073\n\
                              C 0 M 0000000080000018 000203b7 x7 0000000000020000\n\
                              C 0 M 000000008000001c 3003a073\n\
                              C 0 M 0000000080000020 0000006f\n\
                              C 0 M 0000000080000020 0000006f\n";

const TEN_JUMPS: &str = "C 0 M 0000000080000020 0000006f\n\
                         C 0 M 0000000080000020 0000006f\n\
                         C 0 M 0000000080000020 0000006f\n\
                         C 0 M 0000000080000020 0000006f\n\
                         C 0 M 0000000080000020 0000006f\n\
                         C 0 M 0000000080000020 0000006f\n\
                         C 0 M 0000000080000020 0000006f\n\
                         C 0 M 0000000080000020 0000006f\n\
                         C 0 M 0000000080000020 0000006f\n\
                         C 0 M 0000000080000020 0000006f\n";

// The lines of a hundred turns.
const HUNDRED: Content = Texts(&[
    SWITCHES_LINES,
    TEN_JUMPS,
    TEN_JUMPS,
    TEN_JUMPS,
    TEN_JUMPS,
    TEN_JUMPS,
    TEN_JUMPS,
    TEN_JUMPS,
    TEN_JUMPS,
    TEN_JUMPS,
]);

// A load where no memory and no device is.
const NOWHERE: [u32; 2] = [
    0x0001_02b7, // lui x5,0x10
    0x0002_a303, // lw x6,0(x5)
];

// Hart 0 reserves and stores at 0x80000100, and hart 1 goes to the ninth word, which does nothing.
const RESERVES: [u32; 10] = [
    0xf140_2573, // csrrs x10,mhartid,x0
    0x0000_0597, // auipc x11,0
    0x0fc5_8593, // addi x11,x11,0xfc
    0x0005_1a63, // bne x10,x0,0x14
    0x1005_a62f, // lr.w x12,(x11)
    0x18b5_a6af, // sc.w x13,x11,(x11)
    0x0005_a703, // lw x14,0(x11)
    0x0000_006f, // jal x0,0
    0x0000_0013, // addi x0,x0,0
    0x0000_006f, // jal x0,0
];

// Sends 0 where its store-conditional won, and else 1.
const TELLS: [u32; 8] = [
    0x0000_0597, // auipc x11,0
    0x1005_8593, // addi x11,x11,0x100
    0x1005_a62f, // lr.w x12,(x11)
    0x18c5_a6af, // sc.w x13,x12,(x11)
    0x0306_8693, // addi x13,x13,0x30
    0x1000_0337, // lui x6,0x10000
    0x00d3_0023, // sb x13,0(x6)
    0x0000_006f, // jal x0,0
];

// Waits for a turn, and takes a byte of the input.
const TAKES: [u32; 4] = [
    0x1000_0337, // lui x6,0x10000
    0x0000_0013, // addi x0,x0,0
    0x0003_4383, // lbu x7,0(x6)
    0x0000_006f, // jal x0,0
];

// Each hart doubles its number.
const DOUBLES: [u32; 3] = [
    0xf140_2573, // csrrs x10,mhartid,x0
    0x00a5_0533, // add x10,x10,x10
    0x0000_006f, // jal x0,0
];

// Three steps a turn: a letter in each, and each turn takes a byte of the input.
pub(crate) const ALPHABET: [u32; 5] = [
    0x0410_0293, // addi x5,x0,0x41
    0x1000_0337, // lui x6,0x10000
    0x0053_0023, // sb x5,0(x6)
    0x0012_8293, // addi x5,x5,1
    0xff9f_f06f, // jal x0,-8
];

// The third step stores the number 1 in the host window.
const ENDS: [u32; 4] = [
    0x0010_0293, // addi x5,x0,1
    0x0000_1317, // auipc x6,1
    0xfe53_3e23, // sd x5,-4(x6)
    0x0000_006f, // jal x0,0
];

// ---- meta texts

pub(crate) const META: Content = Text(
    "{\"harts\":1,\"ram\":65536,\"rom\":464,\"slice\":1,\"taken\":0,\"tohost\":0,\"version\":1}",
);

const META_AT_RESET: Content = Text(
    "{\"harts\":1,\"ram\":65536,\"rom\":424,\"slice\":1,\"taken\":0,\"tohost\":0,\"version\":1}",
);

pub(crate) const META_OF_MORE_RAM: Content = Text(
    "{\"harts\":1,\"ram\":69632,\"rom\":424,\"slice\":1,\"taken\":0,\"tohost\":0,\"version\":1}",
);

const META_OF_ONE_VALUE: Content = Text(
    "{\"harts\":1,\"ram\":65536,\"rom\":440,\"slice\":1,\"taken\":0,\"tohost\":0,\"version\":1}",
);

const META_OF_WINDOW: Content = Text(
    "{\"harts\":1,\"ram\":65536,\"rom\":440,\"slice\":1,\"taken\":0,\"tohost\":2147487744,\"version\":1}",
);

const META_OF_TWO: Content = Text(
    "{\"harts\":2,\"ram\":65536,\"rom\":744,\"slice\":1,\"taken\":0,\"tohost\":0,\"version\":1}",
);

const META_OF_EIGHT: Content = Text(
    "{\"harts\":8,\"ram\":65536,\"rom\":2528,\"slice\":1,\"taken\":0,\"tohost\":0,\"version\":1}",
);

const META_OF_TAKES: Content = Text(
    "{\"harts\":1,\"ram\":65536,\"rom\":456,\"slice\":1,\"taken\":2,\"tohost\":0,\"version\":1}",
);

pub(crate) const META_OF_ALPHABET: Content = Text(
    "{\"harts\":1,\"ram\":65536,\"rom\":456,\"slice\":3,\"taken\":2,\"tohost\":0,\"version\":1}",
);

// ---- what is saved is what goes on

pub(crate) const SAVE: Call<'static> = Call {
    line: "save --config c --turns 10 --name P",
    files: &[("c", ONE_STEP), ("p.elf", Program(&SWITCHES))],
    report: "done turns=10 taken=0\n",
    after: &[
        ("P.json", META),
        ("P.mainram", Image(&SWITCHES, 65_536)),
        ("P.bootram", Image(&AFTER_PROGRAM, 0)),
        ("c", ONE_STEP),
        ("p.elf", Program(&SWITCHES)),
        ("P", Absent),
        ("t", Absent),
    ],
    ..NOTHING
};

// What stood in the three files before.
pub(crate) const OLD_META: File = ("P.json", Text("what stood there before\n"));

pub(crate) const OLD_IMAGE: File = ("P.mainram", Text("what stood there before\n"));

pub(crate) const OLD_ROM: File = ("P.bootram", Text("what stood there before\n"));

// Two turns before the save and two after it, each of which sends a letter and reads the input.
pub(crate) const LETTERS: Call<'static> = Call {
    line: "save --config c --turns 2 --name P --more 2",
    files: &[
        ("c", THREE_STEPS),
        ("p.elf", Program(&ALPHABET)),
        OLD_META,
        OLD_IMAGE,
        OLD_ROM,
    ],
    input: "ab",
    report: FOUR_DONE,
    console: "ABCD",
    after: LETTERS_SAVED,
    ..NOTHING
};

pub(crate) const FOUR_DONE: &str = "done turns=4 taken=2\n";

pub(crate) const LETTERS_SAVED: &[File] = &[
    ("P.json", META_OF_ALPHABET),
    ("P.mainram", Image(&ALPHABET, 65_536)),
];

// Calls one after another over the same files.
static SAVES_AND_LOADS: [&[Call<'static>]; 3] = [
    // what was loaded goes on where what was saved stopped; a byte that is missing is found out
    &[
        SAVE,
        Call {
            line: "load --name P --turns 1 --trace t",
            report: "done turns=1 taken=0\n",
            after: &[
                ("t", Text("C 0 M 0000000080000020 0000006f\n")),
                ("P.json", META),
                ("P.mainram", Image(&SWITCHES, 65_536)),
                ("P.bootram", Image(&AFTER_PROGRAM, 0)),
            ],
            ..NOTHING
        },
        Call {
            line: "load --name P --turns 1",
            files: &[("P.mainram", Image(&SWITCHES, 65_535))],
            code: 5,
            report: "checkpoint length mainram want=65536 have=65535\n",
            after: &[],
            ..NOTHING
        },
    ],
    // before the first turn
    &[
        Call {
            line: "run --config c --turns 100 --trace t",
            report: "done turns=100 taken=0\n",
            after: &[("t", HUNDRED)],
            ..SAVE
        },
        Call {
            line: "save --config c --turns 0 --name P",
            report: "done turns=0 taken=0\n",
            after: &[
                ("P.json", META_AT_RESET),
                ("P.mainram", Image(&SWITCHES, 65_536)),
            ],
            ..SAVE
        },
        Call {
            line: "load --name P --turns 100 --trace u",
            report: "done turns=100 taken=0\n",
            after: &[("u", HUNDRED)],
            ..NOTHING
        },
    ],
    // before an exception
    &[
        Call {
            line: "save --config c --turns 1 --name P",
            files: &[("c", ONE_STEP), ("p.elf", Program(&NOWHERE))],
            report: "done turns=1 taken=0\n",
            after: &[("P.json", META_OF_ONE_VALUE)],
            ..NOTHING
        },
        Call {
            line: "load --name P --turns 1 --trace t",
            report: "done turns=1 taken=0\n",
            after: &[("t", Text("X 0 M 0000000080000004 5 0000000000010000\n"))],
            ..NOTHING
        },
    ],
];

// Calls one after another over the same files.
static SAVES_OF_RESERVATIONS: [&[Call<'static>]; 2] = [
    // a reservation that is held is not saved: the store-conditional fails
    &[
        Call {
            line: "save --config c --turns 5 --name S --more 2",
            files: &[("c", TWO_HARTS), ("p.elf", Program(&RESERVES))],
            report: "done turns=7 taken=0\n",
            after: &[
                ("S.json", META_OF_TWO),
                ("S.mainram", Image(&RESERVES, 65_536)),
            ],
            ..NOTHING
        },
        Call {
            line: "load --name S --turns 2 --trace t",
            report: "done turns=2 taken=0\n",
            after: &[(
                "t",
                Text(
                    "C 0 M 0000000080000014 18b5a6af x13 0000000000000001\n\
                     C 1 M 0000000080000024 0000006f\n\
                     C 0 M 0000000080000018 0005a703 x14 0000000000000000\n\
                     C 1 M 0000000080000024 0000006f\n",
                ),
            )],
            ..NOTHING
        },
    ],
    // nor does what goes on after the save hold it
    &[
        Call {
            line: "run --config c --turns 8",
            files: &[("c", ONE_STEP), ("p.elf", Program(&TELLS))],
            report: "done turns=8 taken=0\n",
            console: "0",
            ..NOTHING
        },
        Call {
            line: "save --config c --turns 3 --name P --more 5",
            report: "done turns=8 taken=0\n",
            console: "1",
            after: &[("P.json", META_OF_ONE_VALUE)],
            ..NOTHING
        },
        Call {
            line: "load --name P --turns 5",
            report: "done turns=5 taken=0\n",
            console: "1",
            ..NOTHING
        },
        Call {
            line: "save --turns 4 --more 4 --config c --name P",
            report: "done turns=8 taken=0\n",
            console: "0",
            after: &[("P.json", META_OF_ONE_VALUE)],
            ..NOTHING
        },
        Call {
            line: "load --name P --turns 4",
            report: "done turns=4 taken=0\n",
            console: "0",
            ..NOTHING
        },
    ],
];

// Calls one after another over the same files.
static SAVES_OF_DEVICES: [&[Call<'static>]; 3] = [
    // input that was taken and waits is saved
    &[
        Call {
            line: "save --config c --turns 2 --name P",
            files: &[("c", ONE_STEP), ("p.elf", Program(&TAKES))],
            input: "abcdef",
            report: "done turns=2 taken=2\n",
            after: &[("P.json", META_OF_TAKES)],
            left: Some("cdef"),
            ..NOTHING
        },
        Call {
            line: "load --name P --turns 1 --trace t",
            input: "abcdef",
            report: "done turns=1 taken=3\n",
            after: &[(
                "t",
                Text("C 0 M 0000000080000008 00034383 x7 0000000000000061 dv 0000000000000061\n"),
            )],
            left: Some("def"),
            ..NOTHING
        },
    ],
    // each hart is saved
    &[
        Call {
            line: "save --config c --turns 1 --name P --more 3",
            files: &[("c", EIGHT_HARTS), ("p.elf", Program(&DOUBLES))],
            report: "done turns=4 taken=0\n",
            after: &[("P.json", META_OF_EIGHT)],
            ..NOTHING
        },
        Call {
            line: "load --name P --turns 1 --trace t",
            report: "done turns=1 taken=0\n",
            after: &[(
                "t",
                Text(
                    "C 0 M 0000000080000004 00a50533 x10 0000000000000000\n\
                     C 1 M 0000000080000004 00a50533 x10 0000000000000002\n\
                     C 2 M 0000000080000004 00a50533 x10 0000000000000004\n\
                     C 3 M 0000000080000004 00a50533 x10 0000000000000006\n\
                     C 4 M 0000000080000004 00a50533 x10 0000000000000008\n\
                     C 5 M 0000000080000004 00a50533 x10 000000000000000a\n\
                     C 6 M 0000000080000004 00a50533 x10 000000000000000c\n\
                     C 7 M 0000000080000004 00a50533 x10 000000000000000e\n",
                ),
            )],
            ..NOTHING
        },
    ],
    // what was sent before the save is not sent again
    &[
        LETTERS,
        Call {
            line: "load --name P --turns 2",
            input: "abcd",
            report: "done turns=2 taken=4\n",
            console: "CD",
            ..NOTHING
        },
    ],
];

// Calls one after another over the same files.
static SAVES_OVER_FILES: [&[Call<'static>]; 3] = [
    // the configuration and the program are read before the checkpoint takes their place
    &[
        Call {
            line: "save --config P.json --turns 10 --name P",
            files: &[("P.json", ONE_STEP), ("p.elf", Program(&SWITCHES))],
            after: &[
                ("P.json", META),
                ("P.mainram", Image(&SWITCHES, 65_536)),
                ("P.bootram", Image(&AFTER_PROGRAM, 0)),
            ],
            ..SAVE
        },
        Call {
            line: "save --config P.json --turns 10 --name P",
            code: 3,
            report: "config unknown rom\n",
            after: &[("P.json", META)],
            ..NOTHING
        },
    ],
    &[Call {
        files: &[
            (
                "c",
                Text("{\"harts\":1,\"ram\":65536,\"slice\":1,\"program\":\"P.mainram\"}"),
            ),
            ("P.mainram", Program(&SWITCHES)),
        ],
        after: &[
            ("P.json", META),
            ("P.mainram", Image(&SWITCHES, 65_536)),
            ("P.bootram", Image(&AFTER_PROGRAM, 0)),
        ],
        ..SAVE
    }],
    // turns are counted from the load on
    &[
        Call {
            line: "save --config c --turns 2 --name P",
            files: &[("c", ONE_STEP), ("p.elf", Elf((120, 4, 0x0030_0293)))],
            report: "done turns=2 taken=0\n",
            after: &[("P.json", META_OF_WINDOW)],
            ..NOTHING
        },
        Call {
            line: "load --name P --turns 5",
            code: 10,
            report: "guest ended code=1 turn=1\n",
            ..NOTHING
        },
    ],
];

#[test]
fn a_machine_goes_on_from_what_was_saved(rt: HostRuntime) -> Result<(), Fail> {
    for &calls in &SAVES_AND_LOADS {
        expect_calls(&rt, rt.alloc(), calls)?;
    }
    Ok(())
}

#[test]
fn a_reservation_is_not_saved(rt: HostRuntime) -> Result<(), Fail> {
    for &calls in &SAVES_OF_RESERVATIONS {
        expect_calls(&rt, rt.alloc(), calls)?;
    }
    Ok(())
}

#[test]
fn input_and_harts_are_saved(rt: HostRuntime) -> Result<(), Fail> {
    for &calls in &SAVES_OF_DEVICES {
        expect_calls(&rt, rt.alloc(), calls)?;
    }
    Ok(())
}

#[test]
fn a_save_may_take_the_place_of_what_was_read(rt: HostRuntime) -> Result<(), Fail> {
    for &calls in &SAVES_OVER_FILES {
        expect_calls(&rt, rt.alloc(), calls)?;
    }
    Ok(())
}

// ---- guests that end

pub(crate) const UNTOUCHED: &[File] = &[OLD_META, OLD_IMAGE, OLD_ROM];

const SAVED_BEFORE_END: &[File] = &[("P.json", META_OF_WINDOW), ("c", WINDOW)];

// The words, the number that goes to the host window in the third turn, the status's number, the report, and the
// files after the call.
type End = (&'static str, u64, u8, &'static str, &'static [File]);

static ENDINGS: [End; 13] = [
    // a program that ends before it is saved was not saved, whatever its code
    (
        "save --config c --turns 3 --name P",
        0x0010_0293,
        10,
        "guest ended code=0 turn=3\n",
        UNTOUCHED,
    ),
    (
        "save --config c --turns 4 --name P --more 9",
        0x0010_0293,
        10,
        "guest ended code=0 turn=3\n",
        UNTOUCHED,
    ),
    (
        "save --config c --turns 1000000000 --name P",
        0x0010_0293,
        10,
        "guest ended code=0 turn=3\n",
        UNTOUCHED,
    ),
    (
        "save --config c --turns 3 --name P",
        0x0030_0293,
        10,
        "guest ended code=1 turn=3\n",
        UNTOUCHED,
    ),
    (
        "save --config c --turns 3 --name P --more 1",
        0x0020_0293,
        11,
        "bad host word=0000000000000002 turn=3\n",
        UNTOUCHED,
    ),
    // it is saved before it ends
    (
        "save --config c --turns 2 --name P",
        0x0010_0293,
        0,
        "done turns=2 taken=0\n",
        SAVED_BEFORE_END,
    ),
    (
        "save --config c --turns 2 --name P --more 0",
        0x0030_0293,
        0,
        "done turns=2 taken=0\n",
        SAVED_BEFORE_END,
    ),
    // and ends after it was saved
    (
        "save --config c --turns 2 --name P --more 1",
        0x0010_0293,
        0,
        "done turns=3 taken=0\n",
        SAVED_BEFORE_END,
    ),
    (
        "save --config c --turns 2 --name P --more 1000000000",
        0x0010_0293,
        0,
        "done turns=3 taken=0\n",
        SAVED_BEFORE_END,
    ),
    (
        "save --config c --turns 2 --name P --more 1",
        0x0030_0293,
        10,
        "guest ended code=1 turn=3\n",
        SAVED_BEFORE_END,
    ),
    (
        "save --config c --turns 2 --name P --more 9",
        0x0050_0293,
        10,
        "guest ended code=2 turn=3\n",
        SAVED_BEFORE_END,
    ),
    (
        "save --config c --turns 2 --name P --more 9",
        0x0020_0293,
        11,
        "bad host word=0000000000000002 turn=3\n",
        SAVED_BEFORE_END,
    ),
    // the number 0 ends nothing
    (
        "save --config c --turns 2 --name P --more 9",
        0x0000_0293,
        0,
        "done turns=11 taken=0\n",
        SAVED_BEFORE_END,
    ),
];

fn expect_end(rt: &impl Abort, alloc: Global, end: End) -> Result<(), Fail> {
    let (line, word, code, report, after) = end;
    let files = [
        ("c", WINDOW),
        ("p.elf", Elf((120, 4, word))),
        OLD_META,
        OLD_IMAGE,
        OLD_ROM,
    ];
    let call = Call {
        line,
        files: &files,
        code,
        report,
        after,
        ..NOTHING
    };
    expect_call(rt, alloc, &call)
}

#[test]
fn a_guest_that_ends_is_saved_before_or_not_at_all(rt: HostRuntime) -> Result<(), Fail> {
    for &end in &ENDINGS {
        expect_end(&rt, rt.alloc(), end)?;
    }
    Ok(())
}
