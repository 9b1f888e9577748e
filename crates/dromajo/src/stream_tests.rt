//! Calls that judge a commit stream: how far it is read, in which pieces, and what comes where a read fails.

use crate::cosim_tests::{INTERRUPTED, ONE_HART, RESERVES, TWO_HARTS};
use crate::test_files::Content::{Program, Text};
use crate::test_files::File;
use crate::test_support::{Call, NOTHING, expect_call, files_before, same, words_of};
use crate::top::dromajo;
use outside_io::{MemSink, OutFault, Source};
use std::alloc::Global;
use std::process::Abort;
use std::test::Fail;

const CONFIG: File = (
    "c",
    Text("{\"harts\":1,\"ram\":65536,\"slice\":1,\"program\":\"p.elf\"}"),
);

// jal x0,0
const WAITS: File = ("p.elf", Program(&[0x0000_006f]));

// A record of a jump to itself has 32 bytes, and sixteen of them have 512.
const RECORD: &str = "C 0 M 0000000080000000 0000006f\n";

const SIXTEEN: &str = "C 0 M 0000000080000000 0000006f\n\
                       C 0 M 0000000080000000 0000006f\n\
                       C 0 M 0000000080000000 0000006f\n\
                       C 0 M 0000000080000000 0000006f\n\
                       C 0 M 0000000080000000 0000006f\n\
                       C 0 M 0000000080000000 0000006f\n\
                       C 0 M 0000000080000000 0000006f\n\
                       C 0 M 0000000080000000 0000006f\n\
                       C 0 M 0000000080000000 0000006f\n\
                       C 0 M 0000000080000000 0000006f\n\
                       C 0 M 0000000080000000 0000006f\n\
                       C 0 M 0000000080000000 0000006f\n\
                       C 0 M 0000000080000000 0000006f\n\
                       C 0 M 0000000080000000 0000006f\n\
                       C 0 M 0000000080000000 0000006f\n\
                       C 0 M 0000000080000000 0000006f\n";

// One piece of the stream, as it is read, and two.
const PIECE: &[&str] = &[
    SIXTEEN, SIXTEEN, SIXTEEN, SIXTEEN, SIXTEEN, SIXTEEN, SIXTEEN, SIXTEEN,
];

const TWO_PIECES: &[&str] = &[
    SIXTEEN, SIXTEEN, SIXTEEN, SIXTEEN, SIXTEEN, SIXTEEN, SIXTEEN, SIXTEEN, SIXTEEN, SIXTEEN,
    SIXTEEN, SIXTEEN, SIXTEEN, SIXTEEN, SIXTEEN, SIXTEEN,
];

// More follows the pieces.
const PIECE_AND_MORE: &[&str] = &[
    SIXTEEN, SIXTEEN, SIXTEEN, SIXTEEN, SIXTEEN, SIXTEEN, SIXTEEN, SIXTEEN, "more\n",
];

const TWO_PIECES_AND_MORE: &[&str] = &[
    SIXTEEN, SIXTEEN, SIXTEEN, SIXTEEN, SIXTEEN, SIXTEEN, SIXTEEN, SIXTEEN, SIXTEEN, SIXTEEN,
    SIXTEEN, SIXTEEN, SIXTEEN, SIXTEEN, SIXTEEN, SIXTEEN, "more\n",
];

// The first record is not allowed, and of the last one six bytes are behind the first piece.
const REFUSED: &[&str] = &[
    "I 0 7\n", SIXTEEN, SIXTEEN, SIXTEEN, SIXTEEN, SIXTEEN, SIXTEEN, SIXTEEN, SIXTEEN,
];

// A line that does not end, of 256 bytes; behind 32 of them it is no front of a record.
const SPACES: &str = "                                ";

const LONG_LINE: &[&str] = &[
    "C 0 M 0000000080000000 0000006f ",
    SPACES,
    SPACES,
    SPACES,
    SPACES,
    SPACES,
    SPACES,
    SPACES,
];

// A stream, the calls that fail, the status's number, the report, and what the input has left: none where its next
// read is the one that fails.
type Read = (
    &'static [&'static str],
    [u64; 4],
    u8,
    &'static str,
    Option<&'static str>,
);

const UNREAD: &str = "read fault input\n";

const DISAGREE: &str = "disagree record=0 field=cause allowed=none given=0000000000000007\n";

static READS: [Read; 27] = [
    // a stream is read to its end
    (&[], [0, 0, 0, 0], 0, "passed records=0\n", Some("")),
    (&[], [0, 1, 0, 0], 7, UNREAD, Some("")),
    (&[], [0, 2, 0, 0], 0, "passed records=0\n", None),
    (PIECE, [0, 0, 0, 0], 0, "passed records=128\n", Some("")),
    (PIECE, [0, 1, 0, 0], 7, UNREAD, Some(RECORD)),
    (PIECE, [0, 2, 0, 0], 7, UNREAD, Some("")),
    (PIECE, [0, 3, 0, 0], 0, "passed records=128\n", None),
    (
        TWO_PIECES,
        [0, 0, 0, 0],
        0,
        "passed records=256\n",
        Some(""),
    ),
    (TWO_PIECES, [0, 4, 0, 0], 0, "passed records=256\n", None),
    // a read that fails takes nothing
    (PIECE_AND_MORE, [0, 2, 0, 0], 7, UNREAD, Some("more\n")),
    (TWO_PIECES_AND_MORE, [0, 3, 0, 0], 7, UNREAD, Some("more\n")),
    (
        TWO_PIECES_AND_MORE,
        [0, 4, 0, 0],
        12,
        "bad line record=256 column=0\n",
        None,
    ),
    // nothing is read behind the piece that decides
    (REFUSED, [0, 0, 0, 0], 1, DISAGREE, Some("0006f\n")),
    (REFUSED, [0, 2, 0, 0], 1, DISAGREE, None),
    (
        REFUSED,
        [0, 1, 0, 0],
        7,
        UNREAD,
        Some("I 0 7\nC 0 M 0000000080000000 000"),
    ),
    (
        LONG_LINE,
        [0, 2, 0, 0],
        12,
        "bad line record=0 column=32\n",
        None,
    ),
    // a line without its newline is judged at the end of the stream
    (&["I 0 7"], [0, 0, 0, 0], 1, DISAGREE, Some("")),
    (&["I 0 7"], [0, 2, 0, 0], 7, UNREAD, Some("")),
    (&["I 0 7"], [0, 3, 0, 0], 1, DISAGREE, None),
    (&["I 0 7\n"], [0, 2, 0, 0], 1, DISAGREE, None),
    // the console is not written
    (PIECE, [0, 0, 1, 0], 0, "passed records=128\n", Some("")),
    // the report takes the place of a stream that passed alone
    (PIECE, [0, 0, 0, 1], 8, "", Some("")),
    (REFUSED, [0, 0, 0, 1], 1, "", Some("0006f\n")),
    (TWO_PIECES_AND_MORE, [0, 0, 0, 1], 12, "", Some("")),
    (PIECE_AND_MORE, [0, 2, 0, 1], 7, "", Some("more\n")),
    // nothing is read before the configuration and the program
    (&["I 0 7"], [2, 1, 0, 0], 7, "read fault files\n", None),
    (&["I 0 7"], [4, 1, 0, 0], 7, "read fault files\n", None),
];

#[test]
fn a_stream_is_read_until_it_is_decided(rt: HostRuntime) -> Result<(), Fail> {
    for &(stream, fails, code, report, left) in &READS {
        let call = Call {
            line: "cosim --config c",
            files: &[CONFIG, WAITS],
            stream,
            fails,
            code,
            report,
            left,
            ..NOTHING
        };
        expect_call(&rt, rt.alloc(), &call)?;
    }
    Ok(())
}

// A source that gives one byte at a time.
#[derive(Drop)]
struct Bytewise<'a> {
    bytes: &'a [u8],
    at: usize,
}

impl<'a> Source for Bytewise<'a> {
    ghost use Rattle.std.specs.Prelude.{None};

    ghost left = { λ _. None };

    ghost faults = { λ _. 0 };

    ghost quiet = { λ _. ⊥ };

    ghost can_rise = { λ _ quiet. absurd quiet };

    fn read(&mut self, buf: &mut [u8]) -> Result<usize, OutFault> {
        let Some(&b) = self.bytes.get(self.at) else {
            return Ok(0);
        };
        if buf.is_empty() {
            return Ok(0);
        }
        buf[0] = b;
        self.at = self.at.wrapping_add(1);
        Ok(1)
    }
}

// Streams that come byte by byte, the status's number, and the report.
static BYTEWISE: [(&str, u8, &str); 5] = [
    ("", 0, "passed records=0\n"),
    (SIXTEEN, 0, "passed records=16\n"),
    (
        "C 0 M 0000000080000000 0000006f\nC 0 M 0000000080000000 0000006f",
        0,
        "passed records=2\n",
    ),
    (
        "C 0 M 0000000080000000 0000006f\nI 0 7",
        1,
        "disagree record=1 field=cause allowed=none given=0000000000000007\n",
    ),
    (
        "C 0 M 0000000080000000 0000006f\nC 8\n",
        12,
        "bad line record=1 column=2\n",
    ),
];

// What is reported of a stream that comes byte by byte.
fn expect_bytewise(
    rt: &impl Abort,
    alloc: Global,
    stream: &str,
    code: u8,
    report: &str,
) -> Result<(), Fail> {
    let mut files = files_before(rt, alloc, &[CONFIG, WAITS])?;
    let words = words_of(alloc, "cosim --config c")?;
    let mut input = Bytewise {
        bytes: stream.as_bytes(),
        at: 0,
    };
    let mut out = MemSink::new(alloc);
    let mut line = MemSink::new(alloc);
    let status = dromajo(alloc, &words, &mut files, &mut input, &mut out, &mut line);
    same(rt, &status.code(), &code, "the status of", stream);
    same(
        rt,
        &line.bytes(),
        &report.as_bytes(),
        "the report of",
        stream,
    );
    Ok(())
}

#[test]
fn a_stream_may_come_byte_by_byte(rt: HostRuntime) -> Result<(), Fail> {
    for &(stream, code, report) in &BYTEWISE {
        expect_bytewise(&rt, rt.alloc(), stream, code, report)?;
    }
    Ok(())
}

// ---- other streams

const RESERVING: Call<'static> = Call {
    line: "cosim --config c",
    files: &[("c", TWO_HARTS), ("p.elf", Program(&RESERVES))],
    ..NOTHING
};

// Streams of other records that pass.
static PASSING: [Call<'static>; 5] = [
    Call {
        report: "passed records=0\n",
        ..RESERVING
    },
    // the last newline is missing
    Call {
        stream: &["C 0 M 0000000080000000 f1402573 x10 0000000000000000"],
        report: "passed records=1\n",
        ..RESERVING
    },
    // the harts need not take turns
    Call {
        stream: &[
            "C 1 M 0000000080000000 f1402573 x10 0000000000000001\n",
            "C 1 M 0000000080000004 00000597 x11 0000000080000004\n",
            "C 0 M 0000000080000000 f1402573 x10 0000000000000000\n",
        ],
        report: "passed records=3\n",
        ..RESERVING
    },
    // an interrupt need not come
    Call {
        files: &[("c", ONE_HART), ("p.elf", Program(&INTERRUPTED))],
        stream: &[
            "C 0 M 0000000080000000 08000293 x5 0000000000000080\n",
            "C 0 M 0000000080000004 3042a073\n",
            "C 0 M 0000000080000008 30046073\n",
            "C 0 M 000000008000000c 0000006f\n",
        ],
        report: "passed records=4\n",
        ..RESERVING
    },
    // a store-conditional may fail
    Call {
        stream: &[
            "C 0 M 0000000080000000 f1402573 x10 0000000000000000\n",
            "C 0 M 0000000080000004 00000597 x11 0000000080000004\n",
            "C 0 M 0000000080000008 0fc58593 x11 0000000080000100\n",
            "C 0 M 000000008000000c 00051a63\n",
            "C 0 M 0000000080000010 1005a62f x12 0000000000000000\n",
            "C 0 M 0000000080000014 18b5a6af x13 0000000000000001\n",
            "C 0 M 0000000080000018 0005a703 x14 0000000000000000\n",
        ],
        report: "passed records=7\n",
        ..RESERVING
    },
];

#[test]
fn a_stream_of_allowed_records_passes(rt: HostRuntime) -> Result<(), Fail> {
    for call in &PASSING {
        expect_call(&rt, rt.alloc(), call)?;
    }
    Ok(())
}
