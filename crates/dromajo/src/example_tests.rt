//! The flat images of examples/ through the top call, over objects in memory. What the console is to get
//! was written by hand from what the programs are to do, as examples/*.out. Their traces are judged, and
//! their runs are saved and loaded.

use crate::example_images::{HELLO, PAGES, TIMER, TRAPS};
use crate::test_files::Content::Bytes;
use crate::test_files::program_of;
use crate::test_support::{
    Call, NOTHING, Streams, call_over, expect_answer, expect_call, files_before, same,
    streams_after,
};
use outside_io::{Files, MemFiles};
use std::alloc::{AllocError, Global};
use std::process::Abort;
use std::test::Fail;

const IMAGE: Call<'static> = Call {
    line: "run --image a.bin --turns 200",
    report: "done turns=200 taken=0\n",
    ..NOTHING
};

static EXAMPLES: [Call<'static>; 5] = [
    // calls, loops, products and divisions
    Call {
        files: &[("a.bin", Bytes(&HELLO))],
        console: "sum -4000000004294907704, 20! = 2432902008176640000 = -1000000007 * -2432901991 + 146326063\n",
        ..IMAGE
    },
    // traps are counted in the mode that takes them
    Call {
        files: &[("a.bin", Bytes(&TRAPS))],
        console: "machine mode: calls from user mode 13\n\
                  machine mode: calls from supervisor mode 6\n\
                  machine mode: breakpoints 0\n\
                  supervisor mode: breakpoints 6\n",
        ..IMAGE
    },
    // page faults of each kind show their address
    Call {
        files: &[("a.bin", Bytes(&PAGES))],
        console: "supervisor mode under Sv39\n\
                  cause 12 address 00000000400012bc\n\
                  cause 13 address 0000000080001235\n\
                  cause 15 address 0000000040001010\n\
                  user mode read 42\n",
        ..IMAGE
    },
    // the timer and the input interrupt
    Call {
        files: &[("a.bin", Bytes(&TIMER))],
        console: "tick 1\ntick 2\ntick 3\ntick 4\ntick 5\nend\n",
        ..IMAGE
    },
    Call {
        files: &[("a.bin", Bytes(&TIMER))],
        input: "hello\n",
        report: "done turns=200 taken=6\n",
        console: "hello\ntick 1\ntick 2\ntick 3\ntick 4\ntick 5\nend\n",
        ..IMAGE
    },
];

#[test]
fn each_example_prints_its_lines(rt: HostRuntime) -> Result<(), Fail> {
    for call in &EXAMPLES {
        expect_call(&rt, rt.alloc(), call)?;
    }
    Ok(())
}

// A configuration of the board that flat images run on.
const BOARD: &str = "{\"harts\":1,\"ram\":65536,\"slice\":16,\"program\":\"p.elf\"}";

// What a file holds.
fn held(
    rt: &impl Abort,
    alloc: Global,
    files: &MemFiles,
    name: &str,
) -> Result<Vec<u8>, AllocError> {
    match files.bytes(name) {
        Some(bytes) => Vec::from_slice(alloc, bytes),
        None => panic!(rt; "no file {name}"),
    }
}

// The files after an example's run, whose trace is `t`; and its image is the program of a configuration too.
fn files_traced(rt: &impl Abort, alloc: Global, example: &Call<'static>) -> Result<MemFiles, Fail> {
    let run = Call {
        line: "run --image a.bin --turns 200 --trace t",
        ..*example
    };
    let mut files = files_before(rt, alloc, run.files)?;
    streams_after(rt, alloc, &mut files, &run, run.line)?;
    let image = held(rt, alloc, &files, "a.bin")?;
    files.put("c", BOARD.as_bytes())?;
    files.put("p.elf", &program_of(alloc, &image)?)?;
    Ok(files)
}

// Two hundred turns of sixteen steps.
const JUDGES: Call<'static> = Call {
    line: "cosim --config c",
    report: "passed records=3200\n",
    ..NOTHING
};

// The trace of an example's run passes as a stream.
fn expect_passing(rt: &impl Abort, alloc: Global, example: &Call<'static>) -> Result<(), Fail> {
    let mut files = files_traced(rt, alloc, example)?;
    let trace = held(rt, alloc, &files, "t")?;
    let mut streams = Streams::before(alloc, &JUDGES)?;
    streams.give(&trace)?;
    expect_answer(
        rt,
        alloc,
        &mut files,
        &mut streams,
        &JUDGES,
        example.console,
    )
}

#[test]
fn the_trace_of_a_run_passes(rt: HostRuntime) -> Result<(), Fail> {
    for example in &EXAMPLES {
        expect_passing(&rt, rt.alloc(), example)?;
    }
    Ok(())
}

// A run in two parts: the turns before a save, and those after the load.
static PARTS: [(&str, &str); 4] = [
    (
        "save --config c --turns 0 --name P",
        "load --name P --turns 200 --trace u",
    ),
    (
        "save --config c --turns 9 --name P",
        "load --name P --turns 191 --trace u",
    ),
    (
        "save --config c --turns 70 --name P",
        "load --name P --turns 130 --trace u",
    ),
    (
        "save --config c --turns 131 --name P",
        "load --name P --turns 69 --trace u",
    ),
];

// Makes the call of a line with an example's input: answers what it sends.
fn sent_by(
    rt: &impl Abort,
    alloc: Global,
    line: &str,
    files: &mut MemFiles,
    example: &Call<'static>,
) -> Result<Vec<u8>, Fail> {
    let mut streams = Streams::before(alloc, example)?;
    let code = call_over(alloc, line, files, &mut streams)?;
    same(rt, &code, &0, "the status of", line);
    Ok(Vec::from_slice(alloc, streams.sent())?)
}

// The trace `u` ends the trace `t`.
fn expect_tail(
    rt: &impl Abort,
    alloc: Global,
    files: &MemFiles,
    note: &str,
) -> Result<(), AllocError> {
    let whole = held(rt, alloc, files, "t")?;
    let rest = held(rt, alloc, files, "u")?;
    same(rt, &whole.ends_with(&rest), &true, "the trace of", note);
    Ok(())
}

// An example's run in two parts sends what the whole run sends, and the trace of the second part ends that of the
// whole.
fn expect_parts(
    rt: &impl Abort,
    alloc: Global,
    example: &Call<'static>,
    save: &str,
    load: &str,
) -> Result<(), Fail> {
    let mut files = files_traced(rt, alloc, example)?;
    let mut sent = sent_by(rt, alloc, save, &mut files, example)?;
    let rest = sent_by(rt, alloc, load, &mut files, example)?;
    sent.extend_from_slice(&rest)?;
    let console = example.console.as_bytes();
    same(rt, &sent.as_slice(), &console, "the console of", save);
    expect_tail(rt, alloc, &files, load)?;
    Ok(())
}

#[test]
fn a_run_goes_on_after_a_save_and_a_load(rt: HostRuntime) -> Result<(), Fail> {
    for example in &EXAMPLES {
        for &(save, load) in &PARTS {
            expect_parts(&rt, rt.alloc(), example, save, load)?;
        }
    }
    Ok(())
}
