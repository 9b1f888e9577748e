//! Calls that load a checkpoint. The files were put together by hand: the boot ROMs are words of an assembler
//! (llvm-mc), each with its assembly beside it, the image of RAM is zeros, and what comes of them is reckoned by
//! hand from the meta text and from External Debug Support.

use crate::test_files::Content::{Absent, Bytes, Image, Text};
use crate::test_files::{Content, File};
use crate::test_support::{Call, NOTHING, expect_call};
use std::test::Fail;

const LEAVE: u32 = 0x7b20_0073; // dret

// Sends the two bytes "Hi".
const SEND: [u32; 5] = [
    0x1000_02b7, // lui x5,0x10000
    0x0480_0313, // addi x6,x0,72
    0x0062_8023, // sb x6,0(x5)
    0x0690_0313, // addi x6,x0,105
    0x0062_8023, // sb x6,0(x5)
];

const SEND_AND_LEAVE: [u32; 6] = [SEND[0], SEND[1], SEND[2], SEND[3], SEND[4], LEAVE];

const SEND_AND_TRAP: [u32; 6] = [SEND[0], SEND[1], SEND[2], SEND[3], SEND[4], 0x0010_0073]; // ebreak

// The meta text of a ROM of one word, and of six.
const ONE_WORD: Content = Text(
    "{\"harts\":1,\"ram\":65536,\"rom\":4,\"slice\":1,\"taken\":0,\"tohost\":0,\"version\":1}",
);

const SIX_WORDS: Content = Text(
    "{\"harts\":1,\"ram\":65536,\"rom\":24,\"slice\":1,\"taken\":0,\"tohost\":0,\"version\":1}",
);

const SIX_WORDS_THREE_TAKEN: Content = Text(
    "{\"harts\":1,\"ram\":65536,\"rom\":24,\"slice\":1,\"taken\":3,\"tohost\":0,\"version\":1}",
);

const ZEROS: Content = Image(&[], 65_536);

// One turn of a checkpoint, whose hart leaves debug mode for address 0. There it finds nothing to fetch.
const LEFT: Call<'static> = Call {
    line: "load --name P --turns 1 --trace t",
    files: &[
        ("P.json", ONE_WORD),
        ("P.mainram", ZEROS),
        ("P.bootram", Image(&[LEAVE], 0)),
    ],
    report: "done turns=1 taken=0\n",
    after: &[
        ("t", Text("X 0 M 0000000000000000 1 0000000000000000\n")),
        ("P.json", ONE_WORD),
        ("P.mainram", ZEROS),
        ("P.bootram", Image(&[LEAVE], 0)),
    ],
    ..NOTHING
};

// No boot and no turn: the trace's file is not made, and no input is read.
const REFUSED: Call<'static> = Call {
    line: "load --name P --turns 1 --trace t",
    input: "in",
    left: Some("in"),
    ..NOTHING
};

// Boots, and how they end.
static BOOTS: [Call<'static>; 9] = [
    LEFT,
    Call {
        line: "load --turns 0 --name P",
        report: "done turns=0 taken=0\n",
        after: &[("t", Absent)],
        ..LEFT
    },
    // no trace
    Call {
        line: "load --name P --turns 7",
        report: "done turns=7 taken=0\n",
        after: &[("t", Absent)],
        ..LEFT
    },
    // jal x0,0
    Call {
        files: &[
            ("P.json", ONE_WORD),
            ("P.mainram", ZEROS),
            ("P.bootram", Image(&[0x0000_006f], 0)),
        ],
        code: 6,
        report: "boot long hart=0\n",
        ..REFUSED
    },
    // ebreak
    Call {
        files: &[
            ("P.json", ONE_WORD),
            ("P.mainram", ZEROS),
            ("P.bootram", Image(&[0x0010_0073], 0)),
        ],
        code: 6,
        report: "boot trap hart=0 pc=0000000000010000 cause=3\n",
        ..REFUSED
    },
    // mret
    Call {
        files: &[
            ("P.json", ONE_WORD),
            ("P.mainram", ZEROS),
            ("P.bootram", Image(&[0x3020_0073], 0)),
        ],
        code: 6,
        report: "boot trap hart=0 pc=0000000000010000 cause=2\n",
        ..REFUSED
    },
    // no word at all
    Call {
        files: &[
            (
                "P.json",
                Text(
                    "{\"harts\":1,\"ram\":65536,\"rom\":0,\"slice\":1,\"taken\":0,\"tohost\":0,\"version\":1}",
                ),
            ),
            ("P.mainram", ZEROS),
            ("P.bootram", Bytes(&[])),
        ],
        code: 6,
        report: "boot trap hart=0 pc=0000000000010000 cause=1\n",
        ..REFUSED
    },
    // what a boot sent is written where it succeeded, and else it is not
    Call {
        files: &[
            ("P.json", SIX_WORDS),
            ("P.mainram", ZEROS),
            ("P.bootram", Image(&SEND_AND_LEAVE, 0)),
        ],
        console: "Hi",
        after: &[("t", Text("X 0 M 0000000000000000 1 0000000000000000\n"))],
        ..LEFT
    },
    Call {
        files: &[
            ("P.json", SIX_WORDS),
            ("P.mainram", ZEROS),
            ("P.bootram", Image(&SEND_AND_TRAP, 0)),
        ],
        code: 6,
        report: "boot trap hart=0 pc=0000000000010014 cause=3\n",
        ..REFUSED
    },
];

#[test]
fn a_boot_ends_in_debug_mode_or_a_machine_runs(rt: HostRuntime) -> Result<(), Fail> {
    for call in &BOOTS {
        expect_call(&rt, rt.alloc(), call)?;
    }
    Ok(())
}

// Bytes of the input were taken before the checkpoint: they are passed over, or all that there are.
const TAKEN: Call<'static> = Call {
    line: "load --name P --turns 0",
    files: &[
        ("P.json", SIX_WORDS_THREE_TAKEN),
        ("P.mainram", ZEROS),
        ("P.bootram", Image(&SEND_AND_LEAVE, 0)),
    ],
    input: "abcdef",
    report: "done turns=0 taken=3\n",
    console: "Hi",
    left: Some("def"),
    ..NOTHING
};

static PASSED: [Call<'static>; 5] = [
    TAKEN,
    Call {
        line: "load --name P --turns 2",
        report: "done turns=2 taken=5\n",
        left: Some("f"),
        ..TAKEN
    },
    Call {
        input: "abc",
        left: Some(""),
        ..TAKEN
    },
    Call {
        line: "load --name P --turns 2",
        input: "ab",
        report: "done turns=2 taken=3\n",
        left: Some(""),
        ..TAKEN
    },
    Call {
        line: "load --name P --turns 2",
        input: "",
        report: "done turns=2 taken=3\n",
        left: Some(""),
        ..TAKEN
    },
];

#[test]
fn the_input_that_was_taken_is_passed_over(rt: HostRuntime) -> Result<(), Fail> {
    for call in &PASSED {
        expect_call(&rt, rt.alloc(), call)?;
    }
    Ok(())
}

// The three files where one of them is missing, short or long, and the status's number and the report.
type Wrong = (&'static [File], u8, &'static str);

static WRONGS: [Wrong; 11] = [
    (&[], 7, "read fault files\n"),
    (
        &[("P.mainram", ZEROS), ("P.bootram", Image(&[LEAVE], 0))],
        7,
        "read fault files\n",
    ),
    (
        &[("P.json", ONE_WORD), ("P.bootram", Image(&[LEAVE], 0))],
        7,
        "read fault files\n",
    ),
    (
        &[("P.json", ONE_WORD), ("P.mainram", ZEROS)],
        7,
        "read fault files\n",
    ),
    (
        &[
            ("P.json", ONE_WORD),
            ("P.mainram", Image(&[], 65_535)),
            ("P.bootram", Image(&[LEAVE], 0)),
        ],
        5,
        "checkpoint length mainram want=65536 have=65535\n",
    ),
    (
        &[("P.json", ONE_WORD), ("P.mainram", Image(&[], 65_537))],
        5,
        "checkpoint length mainram want=65536 have=65537\n",
    ),
    (
        &[
            ("P.json", ONE_WORD),
            ("P.mainram", ZEROS),
            ("P.bootram", Bytes(&[])),
        ],
        5,
        "checkpoint length bootram want=4 have=0\n",
    ),
    (
        &[
            ("P.json", ONE_WORD),
            ("P.mainram", ZEROS),
            ("P.bootram", Image(&[LEAVE, LEAVE], 0)),
        ],
        5,
        "checkpoint length bootram want=4 have=8\n",
    ),
    // the image is compared first
    (
        &[
            ("P.json", ONE_WORD),
            ("P.mainram", Bytes(&[])),
            ("P.bootram", Bytes(&[])),
        ],
        5,
        "checkpoint length mainram want=65536 have=0\n",
    ),
    // and the text before both
    (&[("P.json", Text("[]"))], 5, "checkpoint wrong-kind top\n"),
    (&[("P.json", Text(""))], 5, "checkpoint not-json\n"),
];

#[test]
fn files_that_are_no_checkpoint_are_refused(rt: HostRuntime) -> Result<(), Fail> {
    for &(files, code, report) in &WRONGS {
        let call = Call {
            files,
            code,
            report,
            ..REFUSED
        };
        expect_call(&rt, rt.alloc(), &call)?;
    }
    Ok(())
}

// Meta texts that are refused, and the report. There is no image that could be read.
static TEXTS: [(&str, &str); 17] = [
    (
        "{\"ram\":65536,\"rom\":4,\"slice\":1,\"taken\":0,\"tohost\":0,\"version\":1}",
        "checkpoint missing harts\n",
    ),
    (
        "{\"harts\":1,\"rom\":4,\"slice\":1,\"taken\":0,\"tohost\":0,\"version\":1}",
        "checkpoint missing ram\n",
    ),
    (
        "{\"harts\":1,\"ram\":65536,\"slice\":1,\"taken\":0,\"tohost\":0,\"version\":1}",
        "checkpoint missing rom\n",
    ),
    (
        "{\"harts\":1,\"ram\":65536,\"rom\":4,\"taken\":0,\"tohost\":0,\"version\":1}",
        "checkpoint missing slice\n",
    ),
    (
        "{\"harts\":1,\"ram\":65536,\"rom\":4,\"slice\":1,\"tohost\":0,\"version\":1}",
        "checkpoint missing taken\n",
    ),
    (
        "{\"harts\":1,\"ram\":65536,\"rom\":4,\"slice\":1,\"taken\":0,\"version\":1}",
        "checkpoint missing tohost\n",
    ),
    (
        "{\"harts\":1,\"ram\":65536,\"rom\":4,\"slice\":1,\"taken\":0,\"tohost\":0}",
        "checkpoint missing version\n",
    ),
    (
        "{\"harts\":9,\"ram\":65536,\"rom\":4,\"slice\":1,\"taken\":0,\"tohost\":0,\"version\":1}",
        "checkpoint out-of-range harts\n",
    ),
    (
        "{\"harts\":1,\"ram\":65537,\"rom\":4,\"slice\":1,\"taken\":0,\"tohost\":0,\"version\":1}",
        "checkpoint out-of-range ram\n",
    ),
    (
        "{\"harts\":1,\"ram\":65536,\"rom\":131073,\"slice\":1,\"taken\":0,\"tohost\":0,\"version\":1}",
        "checkpoint out-of-range rom\n",
    ),
    (
        "{\"harts\":1,\"ram\":65536,\"rom\":4,\"slice\":0,\"taken\":0,\"tohost\":0,\"version\":1}",
        "checkpoint out-of-range slice\n",
    ),
    (
        "{\"harts\":1,\"ram\":65536,\"rom\":4,\"slice\":1,\"taken\":1000000000001,\"tohost\":0,\"version\":1}",
        "checkpoint out-of-range taken\n",
    ),
    (
        "{\"harts\":1,\"ram\":65536,\"rom\":4,\"slice\":1,\"taken\":0,\"tohost\":4,\"version\":1}",
        "checkpoint out-of-range tohost\n",
    ),
    (
        "{\"harts\":1,\"ram\":65536,\"rom\":4,\"slice\":1,\"taken\":0,\"tohost\":0,\"version\":2}",
        "checkpoint out-of-range version\n",
    ),
    (
        "{\"harts\":1,\"pmp\":16,\"ram\":65536,\"rom\":4,\"slice\":1,\"taken\":0,\"tohost\":0,\"version\":1}",
        "checkpoint unknown pmp\n",
    ),
    (
        "{\"harts\":1,\"program\":\"p\",\"ram\":65536,\"rom\":4,\"slice\":1,\"taken\":0,\"tohost\":0,\"version\":1}",
        "checkpoint unknown program\n",
    ),
    (
        "{\"harts\":1,\"ram\":65536,\"rom\":4,\"slice\":1,\"taken\":\"0\",\"tohost\":0,\"version\":1}",
        "checkpoint wrong-kind taken\n",
    ),
];

#[test]
fn a_meta_text_is_refused_by_its_first_fault(rt: HostRuntime) -> Result<(), Fail> {
    for &(text, report) in &TEXTS {
        let call = Call {
            files: &[("P.json", Text(text))],
            code: 5,
            report,
            ..REFUSED
        };
        expect_call(&rt, rt.alloc(), &call)?;
    }
    Ok(())
}

// A call that fails: of the files (six reads, and then the trace), of the input and of the console.
const FAILING: Call<'static> = Call {
    line: "load --name P --turns 1 --trace t",
    ..TAKEN
};

static FAILS: [Call<'static>; 11] = [
    Call {
        fails: [1, 0, 0, 0],
        code: 7,
        report: "read fault files\n",
        console: "",
        left: Some("abcdef"),
        ..FAILING
    },
    Call {
        fails: [2, 0, 0, 0],
        code: 7,
        report: "read fault files\n",
        console: "",
        left: Some("abcdef"),
        ..FAILING
    },
    Call {
        fails: [3, 0, 0, 0],
        code: 7,
        report: "read fault files\n",
        console: "",
        left: Some("abcdef"),
        ..FAILING
    },
    Call {
        fails: [4, 0, 0, 0],
        code: 7,
        report: "read fault files\n",
        console: "",
        left: Some("abcdef"),
        ..FAILING
    },
    Call {
        fails: [5, 0, 0, 0],
        code: 7,
        report: "read fault files\n",
        console: "",
        left: Some("abcdef"),
        ..FAILING
    },
    Call {
        fails: [6, 0, 0, 0],
        code: 7,
        report: "read fault files\n",
        console: "",
        left: Some("abcdef"),
        ..FAILING
    },
    // the trace's file is not made, and then its line is not written
    Call {
        fails: [7, 0, 0, 0],
        code: 8,
        report: "write fault files\n",
        ..FAILING
    },
    Call {
        fails: [8, 0, 0, 0],
        code: 8,
        report: "write fault files\n",
        after: &[("t", Bytes(&[]))],
        left: Some("ef"),
        ..FAILING
    },
    // what the boot sent was written before the input is passed over
    Call {
        fails: [0, 1, 0, 0],
        code: 7,
        report: "read fault input\n",
        left: Some("abcdef"),
        ..FAILING
    },
    Call {
        fails: [0, 2, 0, 0],
        code: 7,
        report: "read fault input\n",
        after: &[("t", Bytes(&[]))],
        ..FAILING
    },
    Call {
        fails: [0, 0, 1, 0],
        code: 8,
        report: "write fault out\n",
        console: "",
        left: Some("abcdef"),
        ..FAILING
    },
];

#[test]
fn a_call_that_fails_ends_the_load(rt: HostRuntime) -> Result<(), Fail> {
    for call in &FAILS {
        expect_call(&rt, rt.alloc(), call)?;
    }
    Ok(())
}
