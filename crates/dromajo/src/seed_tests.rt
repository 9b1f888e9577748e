//! Calls of the whole program with a seed. The words of the programs and what the first steps do are reckoned from
//! what a seed stands for (tools/seed_image.py).

use crate::test_files::Content::{Absent, Text};
use crate::test_support::{
    Call, NOTHING, Streams, expect_answer, expect_call, same, streams_after,
};
use outside_io::{MemFiles, OutFault};
use std::process::Abort;
use std::test::Fail;

const FIRST_STEPS: &str = "C 0 M 0000000080000000 00000e17 x28 0000000080000000
C 0 M 0000000080000004 400e0e93 x29 0000000080000400
C 0 M 0000000080000008 10000f37 x30 0000000010000000
C 0 M 000000008000000c f14020f3 x1 0000000000000000
";

// A call with a seed reads no file: where no trace is named, the first call of the files would fail.
static CALLS: [Call<'static>; 3] = [
    Call {
        line: "run --seed 0 --turns 4 --trace t",
        report: "done turns=4 taken=0\n",
        after: &[("t", Text(FIRST_STEPS))],
        ..NOTHING
    },
    Call {
        line: "run --seed 18446744073709551615 --turns 0",
        fails: [1, 0, 0, 0],
        report: "done turns=0 taken=0\n",
        ..NOTHING
    },
    Call {
        line: "cosim --seed 18446744073709551615",
        fails: [1, 0, 0, 0],
        report: "passed records=0\n",
        after: &[("t", Absent)],
        ..NOTHING
    },
];

#[test]
fn a_seed_takes_the_place_of_files(rt: HostRuntime) -> Result<(), Fail> {
    for call in &CALLS {
        expect_call(&rt, rt.alloc(), call)?;
    }
    Ok(())
}

// A run of eight harts, two steps each in a turn, and the judge of its trace.
const TRACED: Call<'static> = Call {
    line: "run --seed 15 --turns 2 --trace t",
    report: "done turns=2 taken=0\n",
    ..NOTHING
};

const JUDGED: Call<'static> = Call {
    line: "cosim --seed 15",
    report: "passed records=32\n",
    ..NOTHING
};

// The input has the bytes of a file.
fn give_file(streams: &mut Streams, files: &MemFiles, name: &str) -> Result<(), OutFault> {
    match files.bytes(name) {
        Some(bytes) => streams.give(bytes),
        None => Ok(()),
    }
}

#[test]
fn the_trace_of_a_seed_passes(rt: HostRuntime) -> Result<(), Fail> {
    let alloc = rt.alloc();
    let mut files = MemFiles::new(alloc);
    let _ = streams_after(&rt, alloc, &mut files, &TRACED, "a seed")?;
    let mut streams = Streams::before(alloc, &JUDGED)?;
    give_file(&mut streams, &files, "t")?;
    expect_answer(&rt, alloc, &mut files, &mut streams, &JUDGED, "a seed")
}

// A run of six turns, one of its first three, and what follows a save after these.
static PARTS: [Call<'static>; 4] = [
    Call {
        line: "run --seed 7 --turns 6 --trace t",
        report: "done turns=6 taken=0\n",
        ..NOTHING
    },
    Call {
        line: "run --seed 7 --turns 3 --trace s",
        report: "done turns=3 taken=0\n",
        ..NOTHING
    },
    Call {
        line: "save --seed 7 --turns 3 --name P",
        report: "done turns=3 taken=0\n",
        ..NOTHING
    },
    Call {
        line: "load --name P --turns 3 --trace u",
        report: "done turns=3 taken=0\n",
        ..NOTHING
    },
];

// One file is two others one after the other.
fn joins(rt: &impl Abort, files: &MemFiles) {
    match (files.bytes("t"), files.bytes("s"), files.bytes("u")) {
        (Some(whole), Some(front), Some(rest)) => {
            same(
                rt,
                &whole.strip_prefix(front),
                &Some(rest),
                "the rest of",
                "t",
            );
        }
        _ => panic!(rt; "a trace is missing"),
    }
}

#[test]
fn a_seed_is_saved_and_goes_on(rt: HostRuntime) -> Result<(), Fail> {
    let alloc = rt.alloc();
    let mut files = MemFiles::new(alloc);
    for call in &PARTS {
        let _ = streams_after(&rt, alloc, &mut files, call, call.line)?;
    }
    joins(&rt, &files);
    Ok(())
}
