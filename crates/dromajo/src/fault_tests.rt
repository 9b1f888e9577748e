//! A call of the outside that fails, of each object and of each number: the status, and what the console,
//! the trace and the input hold then. The words of the programs are an assembler's (llvm-mc), and what comes
//! of them is reckoned by hand.

use crate::test_files::Content::{Absent, Image, Program, Text, Texts};
use crate::test_files::File;
use crate::test_support::{Call, Fault, NOTHING, expect_fault};
use std::test::Fail;

const FILES_UNREAD: &str = "read fault files\n";

const FILES_UNWRITTEN: &str = "write fault files\n";

const INPUT_UNREAD: &str = "read fault input\n";

const OUT_UNWRITTEN: &str = "write fault out\n";

const DONE: &str = "done turns=3 taken=2\n";

// Three steps a turn: a letter in each, and each turn takes a byte of the input.
const ALPHABET: [u32; 5] = [
    0x0410_0293, // addi x5,x0,0x41
    0x1000_0337, // lui x6,0x10000
    0x0053_0023, // sb x5,0(x6)
    0x0012_8293, // addi x5,x5,1
    0xff9f_f06f, // jal x0,-8
];

// The lines of three turns, and the letters that they send.
const TURN_A: &str = "C 0 M 0000000080000000 04100293 x5 0000000000000041\n\
                      C 0 M 0000000080000004 10000337 x6 0000000010000000\n\
                      C 0 M 0000000080000008 00530023 st 0000000010000000 1 41\n";

const TURN_B: &str = "C 0 M 000000008000000c 00128293 x5 0000000000000042\n\
                      C 0 M 0000000080000010 ff9ff06f\n\
                      C 0 M 0000000080000008 00530023 st 0000000010000000 1 42\n";

const TURN_C: &str = "C 0 M 000000008000000c 00128293 x5 0000000000000043\n\
                      C 0 M 0000000080000010 ff9ff06f\n\
                      C 0 M 0000000080000008 00530023 st 0000000010000000 1 43\n";

const CONFIG: File = (
    "c",
    Text("{\"harts\":1,\"ram\":65536,\"slice\":3,\"program\":\"p.elf\"}"),
);

// What stands in the file of the trace before it is started.
const OLD: File = ("t", Text("what stood there before\n"));

const THREE_TURNS: Call<'static> = Call {
    line: "run --config c --turns 3 --trace t",
    files: &[CONFIG, ("p.elf", Program(&ALPHABET)), OLD],
    input: "ab",
    ..NOTHING
};

// The trace was not started, and has the lines of so many turns.
const NOT_STARTED: &[File] = &[CONFIG, OLD];

const NONE: &[File] = &[CONFIG, ("t", Text(""))];

const ONE: &[File] = &[CONFIG, ("t", Text(TURN_A))];

const TWO: &[File] = &[CONFIG, ("t", Texts(&[TURN_A, TURN_B]))];

const THREE: &[File] = &[CONFIG, ("t", Texts(&[TURN_A, TURN_B, TURN_C]))];

static FAULTS: [Fault; 24] = [
    // size and bytes of the configuration, size and bytes of the program
    ([1, 0, 0, 0], 7, FILES_UNREAD, "", NOT_STARTED, "ab"),
    ([2, 0, 0, 0], 7, FILES_UNREAD, "", NOT_STARTED, "ab"),
    ([3, 0, 0, 0], 7, FILES_UNREAD, "", NOT_STARTED, "ab"),
    ([4, 0, 0, 0], 7, FILES_UNREAD, "", NOT_STARTED, "ab"),
    // the start of the trace, and the lines of each turn
    ([5, 0, 0, 0], 8, FILES_UNWRITTEN, "", NOT_STARTED, "ab"),
    ([6, 0, 0, 0], 8, FILES_UNWRITTEN, "A", NONE, "b"),
    ([7, 0, 0, 0], 8, FILES_UNWRITTEN, "AB", ONE, ""),
    ([8, 0, 0, 0], 8, FILES_UNWRITTEN, "ABC", TWO, ""),
    ([9, 0, 0, 0], 0, DONE, "ABC", THREE, ""),
    // the byte that is offered to each turn; the third read finds the end
    ([0, 1, 0, 0], 7, INPUT_UNREAD, "", NONE, "ab"),
    ([0, 2, 0, 0], 7, INPUT_UNREAD, "A", ONE, "b"),
    ([0, 3, 0, 0], 7, INPUT_UNREAD, "AB", TWO, ""),
    // the letter of each turn
    ([0, 0, 1, 0], 8, OUT_UNWRITTEN, "", NONE, "b"),
    ([0, 0, 2, 0], 8, OUT_UNWRITTEN, "A", ONE, ""),
    ([0, 0, 3, 0], 8, OUT_UNWRITTEN, "AB", TWO, ""),
    ([0, 0, 4, 0], 0, DONE, "ABC", THREE, ""),
    // the report, by itself and after each other fault: no second line is tried
    ([0, 0, 0, 1], 8, "", "ABC", THREE, ""),
    ([0, 0, 0, 2], 0, DONE, "ABC", THREE, ""),
    ([2, 0, 0, 1], 7, "", "", NOT_STARTED, "ab"),
    ([0, 2, 0, 1], 7, "", "A", ONE, "b"),
    ([0, 0, 2, 1], 8, "", "A", ONE, ""),
    // of two failing calls the first counts: in a turn the read, then the letter, then the lines
    ([7, 2, 2, 0], 7, INPUT_UNREAD, "A", ONE, "b"),
    ([7, 0, 2, 0], 8, OUT_UNWRITTEN, "A", ONE, ""),
    ([7, 4, 3, 0], 8, FILES_UNWRITTEN, "AB", ONE, ""),
];

#[test]
fn a_failing_call_leaves_the_console_and_the_lines_of_whole_turns(
    rt: HostRuntime,
) -> Result<(), Fail> {
    for &fault in &FAULTS {
        expect_fault(&rt, rt.alloc(), THREE_TURNS, fault)?;
    }
    Ok(())
}

// A letter to the console, and a jump to itself.
const LETTER: [u32; 4] = [
    0x0410_0293, // addi x5,x0,0x41
    0x1000_0337, // lui x6,0x10000
    0x0053_0023, // sb x5,0(x6)
    0x0000_006f, // jal x0,0
];

const ONE_TURN: Call<'static> = Call {
    line: "run --image a.bin --turns 1",
    files: &[("a.bin", Image(&LETTER, 0))],
    input: "ab",
    ..NOTHING
};

const UNTRACED: &[File] = &[("t", Absent)];

// Failing calls in the one turn of a flat image, without a trace.
static IMAGE_FAULTS: [Fault; 8] = [
    ([1, 0, 0, 0], 7, FILES_UNREAD, "", UNTRACED, "ab"),
    ([2, 0, 0, 0], 7, FILES_UNREAD, "", UNTRACED, "ab"),
    (
        [3, 0, 0, 0],
        0,
        "done turns=1 taken=1\n",
        "A",
        UNTRACED,
        "b",
    ),
    ([0, 1, 0, 0], 7, INPUT_UNREAD, "", UNTRACED, "ab"),
    ([0, 0, 1, 0], 8, OUT_UNWRITTEN, "", UNTRACED, "b"),
    ([0, 0, 0, 1], 8, "", "A", UNTRACED, "b"),
    ([1, 0, 0, 1], 7, "", "", UNTRACED, "ab"),
    ([0, 0, 1, 1], 8, "", "", UNTRACED, "b"),
];

#[test]
fn a_failing_call_of_an_image_is_reported(rt: HostRuntime) -> Result<(), Fail> {
    for &fault in &IMAGE_FAULTS {
        expect_fault(&rt, rt.alloc(), ONE_TURN, fault)?;
    }
    Ok(())
}

// The first turn's three steps store the number 3 in the host window.
const ENDS: [u32; 3] = [
    0x0030_0293, // addi x5,x0,3
    0x0000_1317, // auipc x6,1
    0xfe53_3e23, // sd x5,-4(x6)
];

const NINE_TURNS: Call<'static> = Call {
    line: "run --config c --turns 9 --trace t",
    files: &[
        (
            "c",
            Text(
                "{\"harts\":1,\"ram\":65536,\"slice\":3,\"program\":\"p.elf\",\"tohost\":2147487744}",
            ),
        ),
        ("p.elf", Program(&ENDS)),
    ],
    input: "ab",
    ..NOTHING
};

const EMPTY: &[File] = &[("t", Text(""))];

const ENDED: &[File] = &[(
    "t",
    Text(
        "C 0 M 0000000080000000 00300293 x5 0000000000000003\n\
         C 0 M 0000000080000004 00001317 x6 0000000080001004\n\
         C 0 M 0000000080000008 fe533e23 st 0000000080001000 8 0000000000000003\n",
    ),
)];

const END: &str = "guest ended code=1 turn=1\n";

// Failing calls in the turn that ends the run: the fault is answered, and not the end. A failing report
// leaves the end's status.
static END_FAULTS: [Fault; 5] = [
    ([0, 0, 0, 0], 10, END, "", ENDED, "b"),
    ([7, 3, 1, 0], 10, END, "", ENDED, "b"),
    ([6, 0, 0, 0], 8, FILES_UNWRITTEN, "", EMPTY, "b"),
    ([0, 1, 0, 0], 7, INPUT_UNREAD, "", EMPTY, "ab"),
    ([0, 0, 0, 1], 10, "", "", ENDED, "b"),
];

#[test]
fn a_fault_in_the_last_turn_goes_before_its_end(rt: HostRuntime) -> Result<(), Fail> {
    for &fault in &END_FAULTS {
        expect_fault(&rt, rt.alloc(), NINE_TURNS, fault)?;
    }
    Ok(())
}
