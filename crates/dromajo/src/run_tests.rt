//! Calls of the whole program without a trace. The words of the programs are an assembler's (llvm-mc), each
//! with its assembly beside it, and what comes of them is reckoned by hand.

use crate::test_files::Content::{Absent, Elf, Image, Text};
use crate::test_support::{Call, NOTHING, expect_call};
use std::alloc::Global;
use std::process::Abort;
use std::test::Fail;

// A letter to the console.
const LETTER: [u32; 4] = [
    0x0410_0293, // addi x5,x0,0x41
    0x1000_0337, // lui x6,0x10000
    0x0053_0023, // sb x5,0(x6)
    0x0000_006f, // jal x0,0
];

// One turn of the image, which stays as it was.
const LETTER_ONCE: Call<'static> = Call {
    line: "run --image a.bin --turns 1",
    files: &[("a.bin", Image(&LETTER, 0)), ("c", Text(""))],
    report: "done turns=1 taken=0\n",
    console: "A",
    after: &[("a.bin", Image(&LETTER, 0)), ("t", Absent)],
    ..NOTHING
};

// Numbers of turns, the order of the words, and files that are not there or say nothing.
static LETTERS: [Call<'static>; 6] = [
    LETTER_ONCE,
    Call {
        line: "run --turns 1 --image a.bin",
        ..LETTER_ONCE
    },
    Call {
        line: "run --image a.bin --turns 0",
        report: "done turns=0 taken=0\n",
        console: "",
        ..LETTER_ONCE
    },
    Call {
        line: "run --image a.bin --turns 12345",
        report: "done turns=12345 taken=0\n",
        ..LETTER_ONCE
    },
    Call {
        line: "run --image b.bin --turns 1",
        code: 7,
        report: "read fault files\n",
        console: "",
        ..LETTER_ONCE
    },
    Call {
        line: "run --config c --turns 1",
        code: 3,
        report: "config not-json\n",
        console: "",
        ..LETTER_ONCE
    },
];

#[test]
fn an_image_sends_a_letter_in_the_first_turn(rt: HostRuntime) -> Result<(), Fail> {
    for call in &LETTERS {
        expect_call(&rt, rt.alloc(), call)?;
    }
    Ok(())
}

// Words that name no job.
static NO_JOBS: [&str; 90] = [
    "run --turns 3",
    "run --image a.bin --turns 1 --turns 2",
    "run --image a.bin --turns 01",
    "",
    "run --image a.bin",
    "run --image a.bin --config c --turns 1",
    "run --image a.bin --turns 1000000001",
    "run --image a.bin --turns 1 --trace",
    "run --image a.bin --turns 1 --trace ",
    "run --image a.bin --turns 1 --name t",
    "walk --image a.bin --turns 1",
    "--help",
    "run",
    "--version",
    "--image a --turns 1",
    "walk --image a --turns 1",
    "Run --image a --turns 1",
    "run --image a",
    "run --config c",
    "run --config c --trace t",
    "run --image a --turns 1 --turns 2",
    "run --image a --image a --turns 1",
    "run --config c --config c --turns 1",
    "run --image a --turns 1 --trace t --trace t",
    "run --image a --config c --turns 1",
    "run --config c --image a --turns 1",
    "run --image a --turns 01",
    "run --image a --turns +1",
    "run --image a --turns -1",
    "run --image a --turns 1x",
    "run --image a --turns ",
    "run --image a --turns 1000000001",
    "run --image a --turns 18446744073709551616",
    "run --image  --turns 1",
    "run --config  --turns 1",
    "run --image a --turns 1 --trace ",
    "run --image a --turns 1 --trace",
    "run --image a --turns 1 --dis d",
    "run image a --turns 1",
    "load",
    "load --name P",
    "load --turns 1",
    "load --name  --turns 1",
    "load --name P --turns 01",
    "load --name P --turns 1000000001",
    "load --name P --turns 1 --config c",
    "load --name P --turns 1 --image a.bin",
    "load --name P --name P --turns 1",
    "load --name P --turns 1 --trace ",
    "load --name P --turns 1 --more 1",
    "load --config c --turns 1",
    "run --image a.bin --turns 1 --more 1",
    "save",
    "save --config c --turns 1",
    "save --config c --name P",
    "save --turns 1 --name P",
    "save --image a.bin --turns 1 --name P",
    "save --config c --image a.bin --turns 1 --name P",
    "save --config c --turns 1 --name P --trace t",
    "save --config c --turns 1 --name P --more 1 --more 1",
    "save --config c --turns 1 --name P --name P",
    "save --config c --turns 1000000001 --name P",
    "save --config c --turns 01 --name P",
    "save --config c --turns 1 --name P --more 1000000001",
    "save --config c --turns 1 --name P --more 00",
    "save --config c --turns 1 --name P --more ",
    "save --config c --turns 1 --name P --more",
    "save --config c --turns 1 --name ",
    "save --config  --turns 1 --name P",
    "Save --config c --turns 1 --name P",
    "cosim",
    "cosim c",
    "cosim --config",
    "cosim --config ",
    "cosim --config c --turns 1",
    "cosim --config c --trace t",
    "cosim --config c --name P",
    "cosim --config c --config c",
    "cosim --image a.bin",
    "cosim --config c --image a.bin",
    "run --seed 18446744073709551616 --turns 1",
    "run --seed 1 --image a.bin --turns 1",
    "run --config c --seed 1 --turns 1",
    "run --seed 01 --turns 1",
    "run --seed  --turns 1",
    "save --seed 1 --config c --turns 1 --name P",
    "cosim --seed 1 --config c",
    "cosim --seed 1 --seed 1",
    "cosim --seed -1",
    "load --name P --seed 1 --turns 1",
];

// The first call of the files and of the output would fail.
const NO_JOB: Call<'static> = Call {
    input: "in",
    fails: [1, 0, 1, 0],
    code: 2,
    report: "usage: dromajo command --name value\n",
    console: "",
    left: Some("in"),
    ..LETTER_ONCE
};

#[test]
fn words_that_name_no_job_touch_nothing(rt: HostRuntime) -> Result<(), Fail> {
    for &line in &NO_JOBS {
        expect_call(&rt, rt.alloc(), &Call { line, ..NO_JOB })?;
    }
    Ok(())
}

// Twenty turns of a jump to itself.
const WAITS: Call<'static> = Call {
    line: "run --image a.bin --turns 20",
    files: &[("a.bin", Image(&[0x0000_006f], 0))],
    ..NOTHING
};

// The input, how many bytes of it are taken, and how many reads are made in twenty turns: after the
// sixteenth byte the queue is full, and one that was read is offered on; at the end of the input no more
// is read.
static INPUTS: [(&str, &str, u64); 4] = [
    ("", "done turns=20 taken=0\n", 1),
    ("a", "done turns=20 taken=1\n", 2),
    ("abcdefghijklmnop", "done turns=20 taken=16\n", 17),
    ("abcdefghijklmnopq", "done turns=20 taken=16\n", 17),
];

// All reads are made, none is left out, and one more would fail.
fn expect_reads(
    rt: &impl Abort,
    alloc: Global,
    input: &'static str,
    report: &'static str,
    reads: u64,
) -> Result<(), Fail> {
    let call = Call {
        input,
        report,
        ..WAITS
    };
    expect_call(rt, alloc, &call)?;
    let more = Call {
        fails: [0, reads.wrapping_add(1), 0, 0],
        left: None,
        ..call
    };
    expect_call(rt, alloc, &more)
}

#[test]
fn a_byte_is_read_where_the_last_one_was_taken(rt: HostRuntime) -> Result<(), Fail> {
    for &(input, report, reads) in &INPUTS {
        expect_reads(&rt, rt.alloc(), input, report, reads)?;
    }
    Ok(())
}

// The read of the input after so many fails, and what these did not read is left.
fn expect_failed_read(
    rt: &impl Abort,
    alloc: Global,
    input: &'static str,
    done: u64,
) -> Result<(), Fail> {
    let call = Call {
        input,
        fails: [0, done.wrapping_add(1), 0, 0],
        code: 7,
        report: "read fault input\n",
        left: input.get(done as usize..),
        ..WAITS
    };
    expect_call(rt, alloc, &call)
}

#[test]
fn each_read_of_the_input_may_fail(rt: HostRuntime) -> Result<(), Fail> {
    for &(input, _, reads) in &INPUTS {
        for done in 0..reads {
            expect_failed_read(&rt, rt.alloc(), input, done)?;
        }
    }
    Ok(())
}

// One turn of an image that has as many bytes as memory, and of one that has one more. The file is asked for
// its size, and one read asks for all bytes: a third call is to fail.
static SIZES: [Call<'static>; 2] = [
    Call {
        line: "run --image a.bin --turns 1",
        files: &[("a.bin", Image(&[0x0000_006f], 65_536))],
        fails: [3, 0, 0, 0],
        report: "done turns=1 taken=0\n",
        ..NOTHING
    },
    Call {
        line: "run --image a.bin --turns 1",
        files: &[("a.bin", Image(&[0x0000_006f], 65_537))],
        fails: [3, 0, 0, 0],
        code: 4,
        report: "elf outside-ram 0\n",
        ..NOTHING
    },
];

#[test]
fn an_image_has_at_most_the_memory(rt: HostRuntime) -> Result<(), Fail> {
    for call in &SIZES {
        expect_call(&rt, rt.alloc(), call)?;
    }
    Ok(())
}

const LARGE: &str = "{\"harts\":1,\"ram\":67108864,\"slice\":64,\"program\":\"p.elf\"}";

// A program that stores a number in the host window, which its symbol names:
//     addi x5,x0,NUMBER
//     auipc x6,1
//     sd x5,-4(x6)
//     jal x0,0
// The configuration, the number's word, the input, the status's number, the report and what the input has
// left.
type Window = (
    &'static str,
    u64,
    &'static str,
    u8,
    &'static str,
    &'static str,
);

static WINDOWS: [Window; 11] = [
    // 1
    (LARGE, 0x0010_0293, "", 0, "done turns=1 taken=0\n", ""),
    // 3
    (
        LARGE,
        0x0030_0293,
        "",
        10,
        "guest ended code=1 turn=1\n",
        "",
    ),
    // 2
    (
        LARGE,
        0x0020_0293,
        "",
        11,
        "bad host word=0000000000000002 turn=1\n",
        "",
    ),
    // the byte that was offered to the turn was read, and is not taken
    (LARGE, 0x0010_0293, "xy", 0, "done turns=1 taken=0\n", "y"),
    (
        LARGE,
        0x0030_0293,
        "xy",
        10,
        "guest ended code=1 turn=1\n",
        "y",
    ),
    (
        LARGE,
        0x0020_0293,
        "xy",
        11,
        "bad host word=0000000000000002 turn=1\n",
        "y",
    ),
    // -1
    (
        LARGE,
        0xfff0_0293,
        "xy",
        11,
        "bad host word=ffffffffffffffff turn=1\n",
        "y",
    ),
    // 0, which says nothing: all turns are made, and both bytes are taken
    (LARGE, 0x0000_0293, "xy", 0, "done turns=1000 taken=2\n", ""),
    // the window is turned off
    (
        "{\"harts\":1,\"ram\":65536,\"slice\":64,\"program\":\"p.elf\",\"tohost\":0}",
        0x0030_0293,
        "xy",
        0,
        "done turns=1000 taken=2\n",
        "",
    ),
    (
        "{\"harts\":1,\"ram\":67108864,\"program\":\"p.elf\"}",
        0x0010_0293,
        "xy",
        3,
        "config missing slice\n",
        "xy",
    ),
    (
        "{\"harts\":1,\"ram\":67108864,\"slice\":\"1\",\"program\":\"p.elf\"}",
        0x0010_0293,
        "xy",
        3,
        "config wrong-kind slice\n",
        "xy",
    ),
];

fn expect_window(rt: &impl Abort, alloc: Global, window: Window) -> Result<(), Fail> {
    let (config, word, input, code, report, left) = window;
    let files = [("c", Text(config)), ("p.elf", Elf((120, 4, word)))];
    let call = Call {
        line: "run --config c --turns 1000",
        files: &files,
        input,
        code,
        report,
        left: Some(left),
        ..NOTHING
    };
    expect_call(rt, alloc, &call)
}

#[test]
fn a_word_in_the_window_ends_the_run_and_leaves_the_offered_byte(
    rt: HostRuntime,
) -> Result<(), Fail> {
    for &window in &WINDOWS {
        expect_window(&rt, rt.alloc(), window)?;
    }
    Ok(())
}
