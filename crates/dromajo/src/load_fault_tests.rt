//! Calls of a load and of a seed's jobs that fail, of each object and of each number: the status, and what the trace,
//! the console and the input hold then. The words of the boot ROM and of the program are an assembler's (llvm-mc), and
//! what comes of them is reckoned by hand from the order of the calls.

use crate::test_files::Content::{Absent, Image, Text, Texts};
use crate::test_files::{Content, File};
use crate::test_support::{Call, Fault, NOTHING, expect_call, expect_fault};
use std::test::Fail;

const FILES_UNREAD: &str = "read fault files\n";

const FILES_UNWRITTEN: &str = "write fault files\n";

const INPUT_UNREAD: &str = "read fault input\n";

const OUT_UNWRITTEN: &str = "write fault out\n";

// ---- a load

// Sends "Hi", and leaves debug mode for the first byte of memory.
const HI: [u32; 9] = [
    0x1000_02b7, // lui x5,0x10000
    0x0480_0313, // addi x6,x0,72
    0x0062_8023, // sb x6,0(x5)
    0x0690_0313, // addi x6,x0,105
    0x0062_8023, // sb x6,0(x5)
    0x0010_0093, // addi x1,x0,1
    0x01f0_9093, // slli x1,x1,31
    0x7b10_9073, // csrrw x0,dpc,x1
    0x7b20_0073, // dret
];

// Three steps a turn: a letter in each, and each turn takes a byte of the input.
const ALPHABET: [u32; 5] = [
    0x0410_0293, // addi x5,x0,0x41
    0x1000_0337, // lui x6,0x10000
    0x0053_0023, // sb x5,0(x6)
    0x0012_8293, // addi x5,x5,1
    0xff9f_f06f, // jal x0,-8
];

// The lines of three turns, and the letters that they send.
const TURN_A: &str = "C 0 M 0000000080000000 04100293 x5 0000000000000041\n\
                      C 0 M 0000000080000004 10000337 x6 0000000010000000\n\
                      C 0 M 0000000080000008 00530023 st 0000000010000000 1 41\n";

const TURN_B: &str = "C 0 M 000000008000000c 00128293 x5 0000000000000042\n\
                      C 0 M 0000000080000010 ff9ff06f\n\
                      C 0 M 0000000080000008 00530023 st 0000000010000000 1 42\n";

const TURN_C: &str = "C 0 M 000000008000000c 00128293 x5 0000000000000043\n\
                      C 0 M 0000000080000010 ff9ff06f\n\
                      C 0 M 0000000080000008 00530023 st 0000000010000000 1 43\n";

const META: File = (
    "P.json",
    Text(
        "{\"harts\":1,\"ram\":65536,\"rom\":36,\"slice\":3,\"taken\":3,\"tohost\":0,\"version\":1}",
    ),
);

const RAM: File = ("P.mainram", Image(&ALPHABET, 65_536));

const ROM: File = ("P.bootram", Image(&HI, 0));

// What stands in the file of the trace before it is started.
const OLD: File = ("t", Text("what stood there before\n"));

const THREE_TURNS: Call<'static> = Call {
    line: "load --name P --turns 3 --trace t",
    files: &[META, RAM, ROM, OLD],
    input: "abcdefgh",
    ..NOTHING
};

const DONE: &str = "done turns=3 taken=6\n";

// The trace was not started, and has the lines of so many turns.
const NOT_STARTED: &[File] = &[META, RAM, ROM, OLD];

const NONE: &[File] = &[META, RAM, ROM, ("t", Text(""))];

const ONE: &[File] = &[META, RAM, ROM, ("t", Text(TURN_A))];

const TWO: &[File] = &[META, RAM, ROM, ("t", Texts(&[TURN_A, TURN_B]))];

const THREE: &[File] = &[META, RAM, ROM, ("t", Texts(&[TURN_A, TURN_B, TURN_C]))];

static LOAD_FAULTS: [Fault; 30] = [
    ([0, 0, 0, 0], 0, DONE, "HiABC", THREE, "gh"),
    // size and bytes of the meta text, of the image and of the boot ROM
    ([1, 0, 0, 0], 7, FILES_UNREAD, "", NOT_STARTED, "abcdefgh"),
    ([2, 0, 0, 0], 7, FILES_UNREAD, "", NOT_STARTED, "abcdefgh"),
    ([3, 0, 0, 0], 7, FILES_UNREAD, "", NOT_STARTED, "abcdefgh"),
    ([4, 0, 0, 0], 7, FILES_UNREAD, "", NOT_STARTED, "abcdefgh"),
    ([5, 0, 0, 0], 7, FILES_UNREAD, "", NOT_STARTED, "abcdefgh"),
    ([6, 0, 0, 0], 7, FILES_UNREAD, "", NOT_STARTED, "abcdefgh"),
    // the start of the trace, and the lines of each turn
    ([7, 0, 0, 0], 8, FILES_UNWRITTEN, "Hi", NOT_STARTED, "defgh"),
    ([8, 0, 0, 0], 8, FILES_UNWRITTEN, "HiA", NONE, "efgh"),
    ([9, 0, 0, 0], 8, FILES_UNWRITTEN, "HiAB", ONE, "fgh"),
    ([10, 0, 0, 0], 8, FILES_UNWRITTEN, "HiABC", TWO, "gh"),
    ([11, 0, 0, 0], 0, DONE, "HiABC", THREE, "gh"),
    // what is passed over, and the byte that is offered to each turn
    ([0, 1, 0, 0], 7, INPUT_UNREAD, "Hi", NOT_STARTED, "abcdefgh"),
    ([0, 2, 0, 0], 7, INPUT_UNREAD, "Hi", NONE, "defgh"),
    ([0, 3, 0, 0], 7, INPUT_UNREAD, "HiA", ONE, "efgh"),
    ([0, 4, 0, 0], 7, INPUT_UNREAD, "HiAB", TWO, "fgh"),
    // the bytes of the boot, and the letter of each turn
    ([0, 0, 1, 0], 8, OUT_UNWRITTEN, "", NOT_STARTED, "abcdefgh"),
    ([0, 0, 2, 0], 8, OUT_UNWRITTEN, "Hi", NONE, "efgh"),
    ([0, 0, 3, 0], 8, OUT_UNWRITTEN, "HiA", ONE, "fgh"),
    ([0, 0, 4, 0], 8, OUT_UNWRITTEN, "HiAB", TWO, "gh"),
    ([0, 0, 5, 0], 0, DONE, "HiABC", THREE, "gh"),
    // the report, by itself and after each other fault
    ([0, 0, 0, 1], 8, "", "HiABC", THREE, "gh"),
    ([0, 0, 0, 2], 0, DONE, "HiABC", THREE, "gh"),
    ([6, 0, 0, 1], 7, "", "", NOT_STARTED, "abcdefgh"),
    ([0, 1, 0, 1], 7, "", "Hi", NOT_STARTED, "abcdefgh"),
    ([9, 0, 0, 1], 8, "", "HiAB", ONE, "fgh"),
    // of two failing calls the first counts: the bytes of the boot, what is passed over, the trace, and in a turn the
    // read, then the letter, then the lines
    ([7, 2, 1, 0], 8, OUT_UNWRITTEN, "", NOT_STARTED, "abcdefgh"),
    ([7, 1, 2, 0], 7, INPUT_UNREAD, "Hi", NOT_STARTED, "abcdefgh"),
    ([9, 3, 3, 0], 7, INPUT_UNREAD, "HiA", ONE, "efgh"),
    ([9, 5, 3, 0], 8, OUT_UNWRITTEN, "HiA", ONE, "fgh"),
];

#[test]
fn a_failing_call_of_a_load_leaves_whole_turns(rt: HostRuntime) -> Result<(), Fail> {
    for &fault in &LOAD_FAULTS {
        expect_fault(&rt, rt.alloc(), THREE_TURNS, fault)?;
    }
    Ok(())
}

// Two pieces are passed over, of 4,096 bytes and of four.
const LONG_META: Content = Text(
    "{\"harts\":1,\"ram\":65536,\"rom\":36,\"slice\":3,\"taken\":4100,\"tohost\":0,\"version\":1}",
);

// 64 bytes, 4,096 bytes, and what is left when the first piece was passed over.
const ROW: &str = "0123456789012345678901234567890123456789012345678901234567890123";

const HALF: &[&str] = &[
    ROW, ROW, ROW, ROW, ROW, ROW, ROW, ROW, ROW, ROW, ROW, ROW, ROW, ROW, ROW, ROW, ROW, ROW, ROW,
    ROW, ROW, ROW, ROW, ROW, ROW, ROW, ROW, ROW, ROW, ROW, ROW, ROW, ROW, ROW, ROW, ROW, ROW, ROW,
    ROW, ROW, ROW, ROW, ROW, ROW, ROW, ROW, ROW, ROW, ROW, ROW, ROW, ROW, ROW, ROW, ROW, ROW, ROW,
    ROW, ROW, ROW, ROW, ROW, ROW, ROW, "abcdefgh",
];

const TWO_PIECES: Call<'static> = Call {
    line: "load --name P --turns 1 --trace t",
    files: &[("P.json", LONG_META), RAM, ROM],
    stream: HALF,
    report: "done turns=1 taken=4101\n",
    console: "HiA",
    after: &[("t", Text(TURN_A))],
    left: Some("fgh"),
    ..NOTHING
};

static PIECES: [Call<'static>; 4] = [
    TWO_PIECES,
    Call {
        fails: [0, 1, 0, 0],
        code: 7,
        report: INPUT_UNREAD,
        console: "Hi",
        after: &[("t", Absent)],
        left: Some("01234567890123456789012345678901"),
        ..TWO_PIECES
    },
    Call {
        fails: [0, 2, 0, 0],
        code: 7,
        report: INPUT_UNREAD,
        console: "Hi",
        after: &[("t", Absent)],
        left: Some("abcdefgh"),
        ..TWO_PIECES
    },
    Call {
        fails: [0, 3, 0, 0],
        code: 7,
        report: INPUT_UNREAD,
        console: "Hi",
        after: &[("t", Text(""))],
        left: Some("efgh"),
        ..TWO_PIECES
    },
];

#[test]
fn input_is_passed_over_in_pieces(rt: HostRuntime) -> Result<(), Fail> {
    for call in &PIECES {
        expect_call(&rt, rt.alloc(), call)?;
    }
    Ok(())
}

// The checkpoint is read before a trace takes the place of one of its files.
const ONE_TURN: Call<'static> = Call {
    line: "load --name P --turns 1 --trace P.json",
    files: &[META, RAM, ROM],
    input: "abcdefgh",
    report: "done turns=1 taken=4\n",
    console: "HiA",
    after: &[("P.json", Text(TURN_A)), RAM, ROM],
    left: Some("efgh"),
    ..NOTHING
};

static OVER_CHECKPOINT: [Call<'static>; 3] = [
    ONE_TURN,
    Call {
        line: "load --name P --turns 1 --trace P.mainram",
        after: &[META, ("P.mainram", Text(TURN_A)), ROM],
        ..ONE_TURN
    },
    Call {
        line: "load --name P --turns 1 --trace P.bootram",
        after: &[META, RAM, ("P.bootram", Text(TURN_A))],
        ..ONE_TURN
    },
];

#[test]
fn a_trace_may_take_the_place_of_a_checkpoint(rt: HostRuntime) -> Result<(), Fail> {
    for call in &OVER_CHECKPOINT {
        expect_call(&rt, rt.alloc(), call)?;
    }
    Ok(())
}

// ---- a seed, for which no file is read

const FIRST: &str = "C 0 M 0000000080000000 00000e17 x28 0000000080000000\n";

const SECOND: &str = "C 0 M 0000000080000004 400e0e93 x29 0000000080000400\n";

const SEEDED: Call<'static> = Call {
    line: "run --seed 0 --turns 2 --trace t",
    files: &[OLD],
    input: "abc",
    ..NOTHING
};

const SEED_DONE: &str = "done turns=2 taken=2\n";

const SEED_NONE: &[File] = &[("t", Text(""))];

const SEED_ONE: &[File] = &[("t", Text(FIRST))];

const SEED_TWO: &[File] = &[("t", Texts(&[FIRST, SECOND]))];

static SEED_FAULTS: [Fault; 9] = [
    ([1, 0, 0, 0], 8, FILES_UNWRITTEN, "", &[OLD], "abc"),
    ([2, 0, 0, 0], 8, FILES_UNWRITTEN, "", SEED_NONE, "bc"),
    ([3, 0, 0, 0], 8, FILES_UNWRITTEN, "", SEED_ONE, "c"),
    ([4, 0, 0, 0], 0, SEED_DONE, "", SEED_TWO, "c"),
    ([0, 1, 0, 0], 7, INPUT_UNREAD, "", SEED_NONE, "abc"),
    ([0, 2, 0, 0], 7, INPUT_UNREAD, "", SEED_ONE, "bc"),
    // nothing is written to the console
    ([0, 0, 1, 0], 0, SEED_DONE, "", SEED_TWO, "c"),
    ([0, 0, 0, 1], 8, "", "", SEED_TWO, "c"),
    ([1, 2, 0, 1], 8, "", "", &[OLD], "abc"),
];

#[test]
fn a_failing_call_of_a_seed_leaves_whole_turns(rt: HostRuntime) -> Result<(), Fail> {
    for &fault in &SEED_FAULTS {
        expect_fault(&rt, rt.alloc(), SEEDED, fault)?;
    }
    Ok(())
}

const OLD_META: File = ("P.json", Text("what stood there before\n"));

const OLD_RAM: File = ("P.mainram", Text("what stood there before\n"));

const OLD_ROM: File = ("P.bootram", Text("what stood there before\n"));

const UNTOUCHED: &[File] = &[OLD_META, OLD_RAM, OLD_ROM];

const SEED_SAVE: Call<'static> = Call {
    line: "save --seed 0 --turns 0 --name P",
    files: UNTOUCHED,
    input: "abc",
    ..NOTHING
};

const NO_META: File = ("P.json", Text(""));

const NO_TURNS: &str = "done turns=0 taken=0\n";

// At reset a boot ROM of one hart has 424 bytes.
const SEED_META: File = (
    "P.json",
    Text(
        "{\"harts\":1,\"ram\":65536,\"rom\":424,\"slice\":1,\"taken\":0,\"tohost\":0,\"version\":1}",
    ),
);

static SEED_SAVE_FAULTS: [Fault; 9] = [
    // the meta text's file is started, then the image is written, the boot ROM, and the meta text at last
    ([1, 0, 0, 0], 8, FILES_UNWRITTEN, "", UNTOUCHED, "abc"),
    (
        [2, 0, 0, 0],
        8,
        FILES_UNWRITTEN,
        "",
        &[NO_META, OLD_RAM, OLD_ROM],
        "abc",
    ),
    (
        [3, 0, 0, 0],
        8,
        FILES_UNWRITTEN,
        "",
        &[NO_META, ("P.mainram", Text("")), OLD_ROM],
        "abc",
    ),
    (
        [4, 0, 0, 0],
        8,
        FILES_UNWRITTEN,
        "",
        &[NO_META, OLD_ROM],
        "abc",
    ),
    (
        [5, 0, 0, 0],
        8,
        FILES_UNWRITTEN,
        "",
        &[NO_META, ("P.bootram", Text(""))],
        "abc",
    ),
    ([6, 0, 0, 0], 8, FILES_UNWRITTEN, "", &[NO_META], "abc"),
    ([7, 0, 0, 0], 0, NO_TURNS, "", &[SEED_META], "abc"),
    // no turn reads the input
    ([0, 0, 1, 0], 0, NO_TURNS, "", &[SEED_META], "abc"),
    ([0, 0, 0, 1], 8, "", "", &[SEED_META], "abc"),
];

#[test]
fn a_failing_call_of_a_seeds_save_leaves_no_meta_text(rt: HostRuntime) -> Result<(), Fail> {
    for &fault in &SEED_SAVE_FAULTS {
        expect_fault(&rt, rt.alloc(), SEED_SAVE, fault)?;
    }
    Ok(())
}
