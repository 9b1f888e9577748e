//! Streams in pieces, the lines that are judged, and the limit of records.

use crate::tests::{FAILED, Lines, MANY, RESERVED, RESERVES, judge_of, same};
use crate::{Field, Verdict};
use Verdict::{BadLine, Disallowed, Passing, TooMany};
use std::alloc::{AllocError, Global};
use std::process::Abort;

/// The lines of a stream, each with its newline, but for the last one.
fn stream_of(alloc: Global, lines: Lines) -> Result<Vec<u8>, AllocError> {
    let mut stream = Vec::new(alloc);
    for &line in lines {
        if !stream.is_empty() {
            stream.push(b'\n')?;
        }
        stream.extend_from_slice(line.as_bytes())?;
    }
    Ok(stream)
}

/// Compares the verdict on a stream that comes in pieces of `size` bytes, and that at its end. After the end
/// nothing is taken.
fn judges_pieces(
    rt: &impl Abort,
    alloc: Global,
    stream: &[u8],
    size: usize,
    want: (Verdict, Verdict),
) -> Result<(), AllocError> {
    let mut judge = judge_of(rt, alloc, RESERVES, MANY)?;
    let mut verdict = Passing(0);
    let mut rest = stream;
    for _ in 0..stream.len() {
        let (piece, later) = rest.split_at(size.min(rest.len()));
        verdict = judge.feed(piece);
        rest = later;
    }
    let number = size as u64;
    same(rt, &verdict, &want.0, "in pieces of", number);
    same(rt, &judge.finish(), &want.1, "at the end of", number);
    same(rt, &judge.feed(stream), &want.1, "after the end of", number);
    same(rt, &judge.finish(), &want.1, "twice at the end of", number);
    Ok(())
}

/// Compares the same verdicts on a stream that comes in two pieces.
fn judges_cut(
    rt: &impl Abort,
    alloc: Global,
    stream: &[u8],
    cut: usize,
    want: (Verdict, Verdict),
) -> Result<(), AllocError> {
    let mut judge = judge_of(rt, alloc, RESERVES, MANY)?;
    let (front, rest) = stream.split_at(cut.min(stream.len()));
    judge.feed(front);
    let number = cut as u64;
    same(rt, &judge.feed(rest), &want.0, "cut at", number);
    same(rt, &judge.finish(), &want.1, "at the end, cut at", number);
    Ok(())
}

/// Compares the verdicts on a stream in pieces of several sizes, and cut in two at each place.
fn judges_all(
    rt: &impl Abort,
    alloc: Global,
    lines: Lines,
    want: (Verdict, Verdict),
) -> Result<(), AllocError> {
    let stream = stream_of(alloc, lines)?;
    for &size in &[1, 2, 7, 4096] {
        judges_pieces(rt, alloc, &stream, size, want)?;
    }
    for cut in 0..=stream.len() {
        judges_cut(rt, alloc, &stream, cut, want)?;
    }
    Ok(())
}

/// A record with another value than its step's, before one that would be refused too.
static DIFFERS: [&str; 4] = [
    "C 0 M 0000000080000000 f1402573 x10 0000000000000000",
    "C 1 M 0000000080000000 f1402573 x10 0000000000000001",
    "C 0 M 0000000080000004 00000597 x11 0000000080000005",
    "I 0 7",
];

/// A line that is no record's, before one that is not allowed.
static BROKEN: [&str; 3] = [
    "C 0 M 0000000080000000 f1402573 x10 0000000000000000",
    "C 8",
    "I 0 7",
];

#[test]
fn no_cut_of_a_stream_changes_its_verdict(rt: HostRuntime) -> Result<(), AllocError> {
    judges_all(&rt, rt.alloc(), &RESERVED, (Passing(13), Passing(14)))?;
    judges_all(&rt, rt.alloc(), &FAILED, (Passing(12), Passing(13)))?;
    let differs = Disallowed {
        n: 2,
        field: Field::Value,
        allowed: Some(0x8000_0004),
        given: Some(0x8000_0005),
    };
    judges_all(&rt, rt.alloc(), &DIFFERS, (differs, differs))?;
    let bad = BadLine { n: 1, column: 2 };
    judges_all(&rt, rt.alloc(), &BROKEN, (bad, bad))
}

const FIRST: &str = "C 0 M 0000000080000000 f1402573 x10 0000000000000000";

const SECOND: &str = "C 1 M 0000000080000000 f1402573 x10 0000000000000001";

/// A stream by its parts, the limit of records, and the verdicts so far and at the end.
type Row = ([&'static str; 4], u64, Verdict, Verdict);

static ROWS: [Row; 20] = [
    // the empty stream, empty lines
    (["", "", "", ""], MANY, Passing(0), Passing(0)),
    (
        ["\n", "", "", ""],
        MANY,
        BadLine { n: 0, column: 0 },
        BadLine { n: 0, column: 0 },
    ),
    (
        [FIRST, "\n", "\n", ""],
        MANY,
        BadLine { n: 1, column: 0 },
        BadLine { n: 1, column: 0 },
    ),
    // a last line without a newline
    ([FIRST, "", "", ""], MANY, Passing(0), Passing(1)),
    ([FIRST, "\n", "", ""], MANY, Passing(1), Passing(1)),
    ([FIRST, "\n", SECOND, ""], MANY, Passing(1), Passing(2)),
    (
        ["C 8", "", "", ""],
        MANY,
        Passing(0),
        BadLine { n: 0, column: 2 },
    ),
    (
        ["C 8", "\n", FIRST, "\n"],
        MANY,
        BadLine { n: 0, column: 2 },
        BadLine { n: 0, column: 2 },
    ),
    // a carriage return
    (
        [FIRST, "\r\n", "", ""],
        MANY,
        BadLine { n: 0, column: 52 },
        BadLine { n: 0, column: 52 },
    ),
    (
        [FIRST, "\n", SECOND, "\r"],
        MANY,
        Passing(1),
        BadLine { n: 1, column: 52 },
    ),
    // as many records as may pass, and what follows them
    ([FIRST, "\n", SECOND, "\n"], 2, Passing(2), Passing(2)),
    ([FIRST, "\n", SECOND, ""], 2, Passing(1), Passing(2)),
    ([FIRST, "\n", SECOND, "\n\n"], 2, TooMany(2), TooMany(2)),
    ([FIRST, "\n", SECOND, "\nC"], 2, TooMany(2), TooMany(2)),
    (
        [
            FIRST,
            "\n",
            SECOND,
            "\nC 0 M 0000000080000004 00000597 x11 0000000080000004\n",
        ],
        2,
        TooMany(2),
        TooMany(2),
    ),
    ([FIRST, "\n", "C 8", "\n"], 1, TooMany(1), TooMany(1)),
    (
        [FIRST, "\nI 0 7\n", "", ""],
        2,
        Disallowed {
            n: 1,
            field: Field::Cause,
            allowed: None,
            given: Some(7),
        },
        Disallowed {
            n: 1,
            field: Field::Cause,
            allowed: None,
            given: Some(7),
        },
    ),
    (["", "", "", ""], 0, Passing(0), Passing(0)),
    (["C", "", "", ""], 0, TooMany(0), TooMany(0)),
    (["", "\n", "", ""], 0, TooMany(0), TooMany(0)),
];

/// Compares the verdicts on a stream that comes in four parts, and in bytes.
fn judges_row(rt: &impl Abort, alloc: Global, row: Row, number: u64) -> Result<(), AllocError> {
    let (parts, most, so_far, at_end) = row;
    let mut judge = judge_of(rt, alloc, RESERVES, most)?;
    let mut bytewise = judge_of(rt, alloc, RESERVES, most)?;
    let mut verdict = Passing(0);
    let mut verdict_of_bytes = Passing(0);
    for &part in &parts {
        verdict = judge.feed(part.as_bytes());
        for &b in part.as_bytes() {
            verdict_of_bytes = bytewise.feed(&[b]);
        }
    }
    same(rt, &verdict, &so_far, "stream", number);
    same(rt, &verdict_of_bytes, &so_far, "bytes of stream", number);
    same(rt, &judge.finish(), &at_end, "end of stream", number);
    same(rt, &bytewise.finish(), &at_end, "end of bytes", number);
    Ok(())
}

#[test]
fn lines_are_judged_when_they_end(rt: HostRuntime) -> Result<(), AllocError> {
    let mut number = 0u64;
    for &row in &ROWS {
        judges_row(&rt, rt.alloc(), row, number)?;
        number = number.wrapping_add(1);
    }
    Ok(())
}

/// A record's line, and then so many letters that the whole has `length` bytes, in pieces of `size`.
fn feeds_long(
    rt: &impl Abort,
    alloc: Global,
    length: usize,
    size: usize,
    want: (Verdict, Verdict),
) -> Result<(), AllocError> {
    let mut line = Vec::new(alloc);
    line.extend_from_slice(FIRST.as_bytes())?;
    for _ in line.len()..length {
        line.push(b'z')?;
    }
    judges_pieces(rt, alloc, &line, size, want)?;
    line.push(b'\n')?;
    judges_pieces(rt, alloc, &line, size, (want.1, want.1))
}

/// Lines that are too long, by their bytes before the newline: from 256 on they are judged without one. Each
/// stops to be a record's after the 52 bytes of one.
static LONG: [(usize, Verdict); 7] = [
    (254, Passing(0)),
    (255, Passing(0)),
    (256, BadLine { n: 0, column: 52 }),
    (257, BadLine { n: 0, column: 52 }),
    (258, BadLine { n: 0, column: 52 }),
    (259, BadLine { n: 0, column: 52 }),
    (260, BadLine { n: 0, column: 52 }),
];

fn feeds_in_sizes(rt: &impl Abort, alloc: Global, row: (usize, Verdict)) -> Result<(), AllocError> {
    let bad = BadLine { n: 0, column: 52 };
    for &size in &[1, 7, 4096] {
        feeds_long(rt, alloc, row.0, size, (row.1, bad))?;
    }
    Ok(())
}

#[test]
fn a_line_of_256_bytes_is_judged_without_its_newline(rt: HostRuntime) -> Result<(), AllocError> {
    for &row in &LONG {
        feeds_in_sizes(&rt, rt.alloc(), row)?;
    }
    Ok(())
}
