//! A call of the whole program over files, input, output and report in memory, and what comes of it.

use crate::test_files::{Content, File, bytes_of};
use crate::top::dromajo;
use outside_io::{Files, MemFiles, MemSink, MemSource, OutFault, Sink, Source};
use std::alloc::{AllocError, Global};
use std::fmt::Debug;
use std::process::Abort;
use std::test::Fail;

// Compares what is there with what should be; the two texts say where. Each `assert_eq!` costs the check
// seconds, a call of this one hardly any.
pub(crate) fn same<T: PartialEq + Debug>(
    rt: &impl Abort,
    got: &T,
    want: &T,
    what: &str,
    note: &str,
) {
    assert_eq!(rt; *got, *want, "{what} {note}");
}

// The words of a line, which stand apart by one space.
pub(crate) fn words_of(alloc: Global, line: &str) -> Result<Vec<String>, AllocError> {
    let mut words = Vec::new(alloc);
    if !line.is_empty() {
        for word in line.split(' ') {
            words.push(String::from_str(alloc, word)?)?;
        }
    }
    Ok(words)
}

// A call, what is outside before it, and what comes of it.
#[derive(Clone, Copy)]
pub(crate) struct Call<'a> {
    // The words of the command line.
    pub(crate) line: &'static str,
    // The files and the input before the call, and the numbers of the calls of the files, the input, the
    // output and the report that fail, 0 for none.
    pub(crate) files: &'a [File],
    pub(crate) input: &'static str,
    // Texts that follow those of the input.
    pub(crate) stream: &'static [&'static str],
    pub(crate) fails: [u64; 4],
    // The number of the status, the report and the console's bytes.
    pub(crate) code: u8,
    pub(crate) report: &'a str,
    pub(crate) console: &'static str,
    // Files after the call, and what the input has left: none where its next read is the one that fails.
    pub(crate) after: &'static [File],
    pub(crate) left: Option<&'static str>,
}

// No words, and nothing outside. No call writes the file `t` but one that says so.
pub(crate) const NOTHING: Call<'static> = Call {
    line: "",
    files: &[],
    input: "",
    stream: &[],
    fails: [0, 0, 0, 0],
    code: 0,
    report: "",
    console: "",
    after: &[("t", Content::Absent)],
    left: Some(""),
};

// The input, the console and the report.
#[derive(Drop)]
pub(crate) struct Streams {
    input: MemSource,
    out: MemSink,
    report: MemSink,
}

// The input of a call.
fn input_before(alloc: Global, call: &Call<'_>) -> Result<MemSource, OutFault> {
    let mut input = MemSource::new(alloc);
    input.give(call.input.as_bytes())?;
    for text in call.stream {
        input.give(text.as_bytes())?;
    }
    input.fail_at(call.fails[1])?;
    Ok(input)
}

impl Streams {
    pub(crate) fn before(alloc: Global, call: &Call<'_>) -> Result<Streams, OutFault> {
        let input = input_before(alloc, call)?;
        let mut out = MemSink::new(alloc);
        out.fail_at(call.fails[2])?;
        let mut report = MemSink::new(alloc);
        report.fail_at(call.fails[3])?;
        Ok(Streams { input, out, report })
    }

    // The input has these bytes too.
    pub(crate) fn give(&mut self, bytes: &[u8]) -> Result<(), OutFault> {
        self.input.give(bytes)
    }

    // The console's bytes.
    pub(crate) fn sent(&self) -> &[u8] {
        self.out.bytes()
    }
}

// Makes the call of a line over files and streams: answers the number of its status.
pub(crate) fn call_over<F: Files>(
    alloc: Global,
    line: &str,
    files: &mut F,
    streams: &mut Streams,
) -> Result<u8, AllocError> {
    let words = words_of(alloc, line)?;
    let Streams { input, out, report } = streams;
    Ok(dromajo(alloc, &words, files, input, out, report).code())
}

// Makes a call over files and streams, and compares its status, the report and the console's bytes.
pub(crate) fn expect_answer<F: Files>(
    rt: &impl Abort,
    alloc: Global,
    files: &mut F,
    streams: &mut Streams,
    call: &Call<'_>,
    note: &str,
) -> Result<(), Fail> {
    let code = call_over(alloc, call.line, files, streams)?;
    same(rt, &code, &call.code, "the status of", note);
    let (line, sent) = (streams.report.bytes(), streams.out.bytes());
    same(rt, &line, &call.report.as_bytes(), "the report of", note);
    same(rt, &sent, &call.console.as_bytes(), "the console of", note);
    Ok(())
}

// The same, over streams as they are before the call: answers what is left of them.
pub(crate) fn streams_after<F: Files>(
    rt: &impl Abort,
    alloc: Global,
    files: &mut F,
    call: &Call<'_>,
    note: &str,
) -> Result<Streams, Fail> {
    let mut streams = Streams::before(alloc, call)?;
    expect_answer(rt, alloc, files, &mut streams, call, note)?;
    Ok(streams)
}

// Puts files to those of memory, in the place of what was there.
fn put_files(
    rt: &impl Abort,
    alloc: Global,
    files: &mut MemFiles,
    all: &[File],
) -> Result<(), Fail> {
    for &(name, content) in all {
        if let Some(bytes) = bytes_of(rt, alloc, content)? {
            files.put(name, &bytes)?;
        }
    }
    Ok(())
}

// The files of memory before a call.
pub(crate) fn files_before(rt: &impl Abort, alloc: Global, all: &[File]) -> Result<MemFiles, Fail> {
    let mut files = MemFiles::new(alloc);
    put_files(rt, alloc, &mut files, all)?;
    Ok(files)
}

// A file after a call.
fn expect_file(
    rt: &impl Abort,
    alloc: Global,
    files: &MemFiles,
    file: File,
    note: &str,
) -> Result<(), AllocError> {
    let (name, content) = file;
    match (files.bytes(name), bytes_of(rt, alloc, content)?) {
        (Some(bytes), Some(want)) => same(rt, &bytes, &want.as_slice(), name, note),
        (None, None) => {}
        _ => panic!(rt; "{name} after {note}"),
    }
    Ok(())
}

// What the input has left.
fn expect_left(rt: &impl Abort, input: &mut MemSource, left: Option<&str>, note: &str) {
    let mut buf = [0u8; 32];
    match (input.read(&mut buf), left) {
        (Ok(count), Some(left)) => {
            same(rt, &&buf[..count], &left.as_bytes(), "the input of", note);
        }
        (Err(OutFault::Failed), None) => {}
        _ => panic!(rt; "the next read of {note}"),
    }
}

// The report got one call: the next one is the second, which is to fail.
fn expect_one_report(rt: &impl Abort, report: &mut MemSink, note: &str) {
    let _ = report.fail_at(2);
    let again = report.write(b"");
    same(
        rt,
        &again,
        &Err(OutFault::Failed),
        "a second report of",
        note,
    );
}

// Puts the files of a call to those that are there, makes the call over them, and compares what comes of it.
pub(crate) fn expect_over(
    rt: &impl Abort,
    alloc: Global,
    files: &mut MemFiles,
    call: &Call<'_>,
) -> Result<(), Fail> {
    let note = format!(in alloc; "{} failing at {:?}", call.line, call.fails)?;
    put_files(rt, alloc, files, call.files)?;
    files.fail_at(call.fails[0])?;
    let mut streams = streams_after(rt, alloc, files, call, &note)?;
    for &file in call.after {
        expect_file(rt, alloc, files, file, &note)?;
    }
    expect_left(rt, &mut streams.input, call.left, &note);
    expect_one_report(rt, &mut streams.report, &note);
    Ok(())
}

// Makes a call, and compares what comes of it.
pub(crate) fn expect_call(rt: &impl Abort, alloc: Global, call: &Call<'_>) -> Result<(), Fail> {
    expect_over(rt, alloc, &mut MemFiles::new(alloc), call)
}

// Makes calls one after another over the same files, each with its own files put there before it, and compares
// what comes of each.
pub(crate) fn expect_calls(rt: &impl Abort, alloc: Global, calls: &[Call<'_>]) -> Result<(), Fail> {
    let mut files = MemFiles::new(alloc);
    for call in calls {
        expect_over(rt, alloc, &mut files, call)?;
    }
    Ok(())
}

// The calls of the files, the input, the output and the report that fail, the status's number, the report,
// the console's bytes, the files after the call, and what the input has left.
pub(crate) type Fault = (
    [u64; 4],
    u8,
    &'static str,
    &'static str,
    &'static [File],
    &'static str,
);

// What a failing call leaves.
pub(crate) fn expect_fault(
    rt: &impl Abort,
    alloc: Global,
    call: Call<'static>,
    fault: Fault,
) -> Result<(), Fail> {
    let (fails, code, report, console, after, left) = fault;
    let call = Call {
        fails,
        code,
        report,
        console,
        after,
        left: Some(left),
        ..call
    };
    expect_call(rt, alloc, &call)
}
