//! Streams of one line, and of the front of one, and calls of a judge that fail. What is reported of them is
//! reckoned by hand.

use crate::cosim_tests::{ONE_HART, TWO_HARTS};
use crate::test_files::Content::Program;
use crate::test_files::{Content, File};
use crate::test_support::{
    Call, Fault, NOTHING, Streams, expect_answer, expect_call, expect_fault, files_before,
};
use std::alloc::Global;
use std::process::Abort;
use std::test::Fail;

// jal x0,0
const WAITS: File = ("p.elf", Program(&[0x0000_006f]));

// ---- lines

// Sixteen bytes.
const LETTERS: &str = "CCCCCCCCCCCCCCCC";

// A line of 256 bytes that has not ended, and of 255 that the end of the stream ends.
const LONG: &[&str] = &[
    LETTERS, LETTERS, LETTERS, LETTERS, LETTERS, LETTERS, LETTERS, LETTERS, LETTERS, LETTERS,
    LETTERS, LETTERS, LETTERS, LETTERS, LETTERS, LETTERS,
];

const ALMOST_LONG: &[&str] = &[
    LETTERS,
    LETTERS,
    LETTERS,
    LETTERS,
    LETTERS,
    LETTERS,
    LETTERS,
    LETTERS,
    LETTERS,
    LETTERS,
    LETTERS,
    LETTERS,
    LETTERS,
    LETTERS,
    LETTERS,
    "CCCCCCCCCCCCCCC",
];

// Streams whose first line is no record, the call of the input that would fail, and the report. The line of 256 bytes
// is refused with the first read.
static BAD_LINES: [(&[&str], u64, &str); 24] = [
    (
        &["C 0 M 0000000080000000 f1402573 x0 0000000000000000\n"],
        2,
        "bad line record=0 column=33\n",
    ),
    (
        &["C 0 M 000000008000000A 00000013\n"],
        2,
        "bad line record=0 column=21\n",
    ),
    (
        &["X 0 M 0000000080000000 16 0000000000000000\n"],
        2,
        "bad line record=0 column=24\n",
    ),
    (&["I 0 07\n"], 2, "bad line record=0 column=5\n"),
    (LONG, 2, "bad line record=0 column=1\n"),
    (ALMOST_LONG, 3, "bad line record=0 column=1\n"),
    // letters that begin no line, and lines of other numbers of parts
    (
        &["c 0 M 0000000080000000 0000006f\n"],
        2,
        "bad line record=0 column=0\n",
    ),
    (
        &[" C 0 M 0000000080000000 0000006f\n"],
        2,
        "bad line record=0 column=0\n",
    ),
    (
        &["\nC 0 M 0000000080000000 0000006f\n"],
        2,
        "bad line record=0 column=0\n",
    ),
    (
        &["C 8 M 0000000080000000 0000006f\n"],
        2,
        "bad line record=0 column=2\n",
    ),
    (
        &["C 0 H 0000000080000000 0000006f\n"],
        2,
        "bad line record=0 column=4\n",
    ),
    (
        &["C 0 m 0000000080000000 0000006f\n"],
        2,
        "bad line record=0 column=4\n",
    ),
    (
        &["C 0 M 0x00000080000000 0000006f\n"],
        2,
        "bad line record=0 column=7\n",
    ),
    (
        &["C 0 M 0000000080000000 0000006f0\n"],
        2,
        "bad line record=0 column=31\n",
    ),
    (
        &["C 0 M 0000000080000000 0000006f \n"],
        2,
        "bad line record=0 column=32\n",
    ),
    (
        &["C 0 M 0000000080000000 0000006f\t\n"],
        2,
        "bad line record=0 column=31\n",
    ),
    // parts that are unknown, in another order, or of another length
    (
        &["C 0 M 0000000080000000 0000006f x32 0000000000000000\n"],
        2,
        "bad line record=0 column=34\n",
    ),
    (
        &["C 0 M 0000000080000000 0000006f x01 0000000000000000\n"],
        2,
        "bad line record=0 column=33\n",
    ),
    (
        &["C 0 M 0000000080000000 0000006f st 0000000080000000 3 000000\n"],
        2,
        "bad line record=0 column=52\n",
    ),
    (
        &["C 0 M 0000000080000000 0000006f st 0000000080000000 2 00000000\n"],
        2,
        "bad line record=0 column=58\n",
    ),
    (
        &["C 0 M 0000000080000000 0000006f dv 0000000000000000 st 0000000080000000 1 00\n"],
        2,
        "bad line record=0 column=52\n",
    ),
    // a zero byte, a byte above 127, and a carriage return
    (&["I 0 7\0\n"], 2, "bad line record=0 column=5\n"),
    (&["I 0 7é\n"], 2, "bad line record=0 column=5\n"),
    (&["I 0 7\r\n"], 2, "bad line record=0 column=5\n"),
];

// Nothing of the first line is judged, whatever the machine.
fn expect_bad_lines(rt: &impl Abort, alloc: Global, config: Content) -> Result<(), Fail> {
    for &(stream, fails, report) in &BAD_LINES {
        let files = [("c", config), WAITS];
        let call = Call {
            line: "cosim --config c",
            files: &files,
            stream,
            fails: [0, fails, 0, 0],
            code: 12,
            report,
            left: None,
            ..NOTHING
        };
        expect_call(rt, alloc, &call)?;
    }
    Ok(())
}

#[test]
fn a_line_that_is_no_record_is_named_by_its_column(rt: HostRuntime) -> Result<(), Fail> {
    expect_bad_lines(&rt, rt.alloc(), ONE_HART)?;
    expect_bad_lines(&rt, rt.alloc(), TWO_HARTS)
}

// Lines of which no front is a record.
static WHOLE: [&str; 4] = [
    "C 0 M 0000000080000000 0000006f",
    "X 0 M 0000000080000000 5 0000000000010000",
    "I 0 7",
    "H 0101000000000041",
];

// The first bytes of a line, and how they end.
fn expect_front(
    rt: &impl Abort,
    alloc: Global,
    line: &str,
    len: usize,
    end: &str,
) -> Result<(), Fail> {
    let bytes = line.as_bytes();
    assert!(rt; len <= bytes.len());
    let report = format!(in alloc; "bad line record=0 column={len}\n")?;
    let call = Call {
        line: "cosim --config c",
        code: 12,
        report: report.as_str(),
        ..NOTHING
    };
    let mut files = files_before(rt, alloc, &[("c", ONE_HART), WAITS])?;
    let mut streams = Streams::before(alloc, &call)?;
    streams.give(&bytes[..len])?;
    streams.give(end.as_bytes())?;
    expect_answer(rt, alloc, &mut files, &mut streams, &call, line)
}

// Each front of a line, ended by a newline and by the end of the stream.
fn expect_fronts(rt: &impl Abort, alloc: Global, line: &str) -> Result<(), Fail> {
    for len in 1..line.len() {
        expect_front(rt, alloc, line, len, "")?;
        expect_front(rt, alloc, line, len, "\n")?;
    }
    expect_front(rt, alloc, line, 0, "\n")
}

#[test]
fn a_front_of_a_line_is_bad_at_its_end(rt: HostRuntime) -> Result<(), Fail> {
    for line in &WHOLE {
        expect_fronts(&rt, rt.alloc(), line)?;
    }
    Ok(())
}

// ---- calls that fail

const RECORD: &str = "C 0 M 0000000080000000 0000006f\n";

const JUDGE: Call<'static> = Call {
    line: "cosim --config c",
    files: &[("c", ONE_HART), WAITS],
    input: RECORD,
    ..NOTHING
};

const FILES_UNREAD: &str = "read fault files\n";

const INPUT_UNREAD: &str = "read fault input\n";

const PASSED: &str = "passed records=1\n";

static FAULTS: [Fault; 16] = [
    ([0, 0, 0, 0], 0, PASSED, "", &[], ""),
    // size and bytes of the configuration, size and bytes of the program
    ([1, 0, 0, 0], 7, FILES_UNREAD, "", &[], RECORD),
    ([2, 0, 0, 0], 7, FILES_UNREAD, "", &[], RECORD),
    ([3, 0, 0, 0], 7, FILES_UNREAD, "", &[], RECORD),
    ([4, 0, 0, 0], 7, FILES_UNREAD, "", &[], RECORD),
    ([5, 0, 0, 0], 0, PASSED, "", &[], ""),
    // the record, and the end of the stream
    ([0, 1, 0, 0], 7, INPUT_UNREAD, "", &[], RECORD),
    ([0, 2, 0, 0], 7, INPUT_UNREAD, "", &[], ""),
    // nothing is written to the console
    ([0, 0, 1, 0], 0, PASSED, "", &[], ""),
    // the report, by itself and after each other fault
    ([0, 0, 0, 1], 8, "", "", &[], ""),
    ([0, 0, 0, 2], 0, PASSED, "", &[], ""),
    ([1, 0, 0, 1], 7, "", "", &[], RECORD),
    ([0, 1, 0, 1], 7, "", "", &[], RECORD),
    ([0, 2, 0, 1], 7, "", "", &[], ""),
    // of two failing calls the first counts
    ([4, 2, 1, 0], 7, FILES_UNREAD, "", &[], RECORD),
    ([5, 2, 1, 1], 7, "", "", &[], ""),
];

#[test]
fn a_failing_call_of_a_judge_is_reported(rt: HostRuntime) -> Result<(), Fail> {
    for &fault in &FAULTS {
        expect_fault(&rt, rt.alloc(), JUDGE, fault)?;
    }
    Ok(())
}
