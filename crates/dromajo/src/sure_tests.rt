//! The whole program over objects that never fail. The words of the program are an assembler's (llvm-mc), and
//! what comes of it is reckoned by hand.

use crate::test_files::Content::Image;
use crate::test_files::bytes_of;
use crate::test_support::{same, words_of};
use crate::top::dromajo;
use outside_io::{SureFiles, SureSink, SureSource};
use std::alloc::Global;
use std::process::Abort;
use std::test::Fail;

// A letter to the console.
const LETTER: [u32; 4] = [
    0x0410_0293, // addi x5,x0,0x41
    0x1000_0337, // lui x6,0x10000
    0x0053_0023, // sb x5,0(x6)
    0x0000_006f, // jal x0,0
];

// A call over an image of that program and an input of two bytes: its line, the status's number, the report, the
// console's bytes, and the trace.
type Run = (
    &'static str,
    u8,
    &'static str,
    &'static str,
    Option<&'static str>,
);

// The sixteen steps of a turn over memory that is all zero: its first word is no instruction, and the trap leads to
// address 0, where no memory is, again and again.
const TRAPS: &str = "X 0 M 0000000080000000 2 0000000000000000\n\
               X 0 M 0000000000000000 1 0000000000000000\n\
               X 0 M 0000000000000000 1 0000000000000000\n\
               X 0 M 0000000000000000 1 0000000000000000\n\
               X 0 M 0000000000000000 1 0000000000000000\n\
               X 0 M 0000000000000000 1 0000000000000000\n\
               X 0 M 0000000000000000 1 0000000000000000\n\
               X 0 M 0000000000000000 1 0000000000000000\n\
               X 0 M 0000000000000000 1 0000000000000000\n\
               X 0 M 0000000000000000 1 0000000000000000\n\
               X 0 M 0000000000000000 1 0000000000000000\n\
               X 0 M 0000000000000000 1 0000000000000000\n\
               X 0 M 0000000000000000 1 0000000000000000\n\
               X 0 M 0000000000000000 1 0000000000000000\n\
               X 0 M 0000000000000000 1 0000000000000000\n\
               X 0 M 0000000000000000 1 0000000000000000\n";

// A file that is not there is read as an empty one.
static RUNS: [Run; 4] = [
    (
        "run --image a.bin --turns 3",
        0,
        "done turns=3 taken=2\n",
        "A",
        None,
    ),
    (
        "run --image none --turns 1 --trace t",
        0,
        "done turns=1 taken=1\n",
        "",
        Some(TRAPS),
    ),
    (
        "run --config none --turns 1",
        3,
        "config not-json\n",
        "",
        None,
    ),
    (
        "run --image a.bin",
        2,
        "usage: dromajo command --name value\n",
        "",
        None,
    ),
];

fn expect_run(rt: &impl Abort, alloc: Global, run: &Run) -> Result<(), Fail> {
    let &(line, code, report, console, trace) = run;
    let mut files = SureFiles::new(alloc);
    if let Some(image) = bytes_of(rt, alloc, Image(&LETTER, 0))? {
        files.put("a.bin", &image)?;
    }
    let mut input = SureSource::new(alloc);
    input.give(b"ab")?;
    let (mut out, mut told) = (SureSink::new(alloc), SureSink::new(alloc));
    let words = words_of(alloc, line)?;
    let status = dromajo(alloc, &words, &mut files, &mut input, &mut out, &mut told);
    same(rt, &status.code(), &code, "the status of", line);
    let (reported, sent) = (told.bytes(), out.bytes());
    same(rt, &reported, &report.as_bytes(), "the report of", line);
    same(rt, &sent, &console.as_bytes(), "the console of", line);
    let (traced, want) = (files.bytes("t"), trace.map(str::as_bytes));
    same(rt, &traced, &want, "the trace of", line);
    Ok(())
}

#[test]
fn objects_that_never_fail_serve_the_whole_program(rt: HostRuntime) -> Result<(), Fail> {
    for run in &RUNS {
        expect_run(&rt, rt.alloc(), run)?;
    }
    Ok(())
}
