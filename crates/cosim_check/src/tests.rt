//! Programs, the traces that they leave, and what the tests of a judge share. The words are those of an
//! assembler (llvm-mc), each with its assembly beside it; traces and verdicts are reckoned by hand from the
//! manuals.

ghost use Rattle.std.specs.Prelude.{IsTrue};
ghost use Rattle.cosim_check.specs.Standing.{HasWindow};

mod records;
mod streams;

use crate::{Judge, Verdict};
use guest_ram::{BASE, GuestRam};
use hart_step::Core;
use std::alloc::{AllocError, Global};
use std::fmt::Debug;
use std::process::Abort;

/// Compares what is there with what should be; words and a number say where. Each `assert_eq!` costs the
/// check seconds, a call of this one hardly any.
pub(crate) fn same<T: PartialEq + Debug>(
    rt: &impl Abort,
    got: &T,
    want: &T,
    what: &str,
    number: u64,
) {
    assert_eq!(rt; *got, *want, "{what} {number}");
}

/// The address of the host window, where a program has one.
pub(crate) const WINDOW: u64 = 0x8000_1000;

/// More records than a test has.
pub(crate) const MANY: u64 = 1_000_000_000;

/// How many harts there are, the address of the host window, and the words from the first byte of memory on.
pub(crate) type Program = (u8, u64, &'static [u32]);

/// The lines of a stream, without their newlines.
pub(crate) type Lines = &'static [&'static str];

fn put_words(ram: &mut GuestRam, words: &[u32]) {
    let mut at = BASE;
    for &word in words {
        if at % 4 == 0 && ram.has(at, 4) {
            ram.write(at, 4, u64::from(word));
        }
        at = at.wrapping_add(4);
    }
}

fn is_window(tohost: u64, ram: &GuestRam) -> bool
    ensures { IsTrue result → HasWindow tohost ram.now }
{
    tohost == 0 || (tohost % 8 == 0 && ram.has(tohost, 8))
}

/// A judge that begins with a program at reset.
pub(crate) fn judge_of(
    rt: &impl Abort,
    alloc: Global,
    program: Program,
    most: u64,
) -> Result<Judge, AllocError> {
    let (harts, tohost, words) = program;
    let mut ram = GuestRam::new(alloc, 0x1_0000)?;
    put_words(&mut ram, words);
    assert!(rt; 0 < harts && harts <= 8);
    let core = Core::new(alloc, harts, ram, BASE)?;
    assert!(rt; is_window(tohost, core.ram()) && core.in_debug().is_none());
    Ok(Judge::new(core, tohost, most))
}

/// Feeds a line and its newline.
pub(crate) fn feed_line(judge: &mut Judge, line: &str) -> Verdict {
    judge.feed(line.as_bytes());
    judge.feed(b"\n")
}

/// Feeds the first `count` lines; all of them pass.
pub(crate) fn feed_lines(rt: &impl Abort, judge: &mut Judge, lines: Lines, count: u64) {
    let mut fed = 0u64;
    for &line in lines {
        if fed < count {
            let verdict = feed_line(judge, line);
            fed = fed.wrapping_add(1);
            same(rt, &verdict, &Verdict::Passing(fed), "record", fed);
        }
    }
}

/// Every line of a trace passes.
pub(crate) fn passes(
    rt: &impl Abort,
    alloc: Global,
    program: Program,
    lines: Lines,
) -> Result<(), AllocError> {
    let mut judge = judge_of(rt, alloc, program, MANY)?;
    feed_lines(rt, &mut judge, lines, MANY);
    Ok(())
}

/// Two harts: hart 0 reserves a word of memory and stores it, hart 1 does nothing.
pub(crate) static RESERVES: Program = (
    2,
    0,
    &[
        0xf140_2573, // csrrs x10,mhartid,x0
        0x0000_0597, // auipc x11,0
        0x0fc5_8593, // addi x11,x11,252
        0x0005_1a63, // bne x10,x0,20
        0x1005_a62f, // lr.w x12,(x11)
        0x18b5_a6af, // sc.w x13,x11,(x11)
        0x0005_a703, // lw x14,0(x11)
        0x0000_006f, // jal x0,0
        0x0000_0013, // addi x0,x0,0
        0x0000_006f, // jal x0,0
    ],
);

pub(crate) static RESERVED: [&str; 14] = [
    "C 0 M 0000000080000000 f1402573 x10 0000000000000000",
    "C 1 M 0000000080000000 f1402573 x10 0000000000000001",
    "C 0 M 0000000080000004 00000597 x11 0000000080000004",
    "C 1 M 0000000080000004 00000597 x11 0000000080000004",
    "C 0 M 0000000080000008 0fc58593 x11 0000000080000100",
    "C 1 M 0000000080000008 0fc58593 x11 0000000080000100",
    "C 0 M 000000008000000c 00051a63",
    "C 1 M 000000008000000c 00051a63",
    "C 0 M 0000000080000010 1005a62f x12 0000000000000000",
    "C 1 M 0000000080000020 00000013",
    "C 0 M 0000000080000014 18b5a6af x13 0000000000000000 st 0000000080000100 4 80000100",
    "C 1 M 0000000080000024 0000006f",
    "C 0 M 0000000080000018 0005a703 x14 ffffffff80000100",
    "C 1 M 0000000080000024 0000006f",
];

/// The same with a store-conditional that failed.
pub(crate) static FAILED: [&str; 13] = [
    "C 0 M 0000000080000000 f1402573 x10 0000000000000000",
    "C 1 M 0000000080000000 f1402573 x10 0000000000000001",
    "C 0 M 0000000080000004 00000597 x11 0000000080000004",
    "C 1 M 0000000080000004 00000597 x11 0000000080000004",
    "C 0 M 0000000080000008 0fc58593 x11 0000000080000100",
    "C 1 M 0000000080000008 0fc58593 x11 0000000080000100",
    "C 0 M 000000008000000c 00051a63",
    "C 1 M 000000008000000c 00051a63",
    "C 0 M 0000000080000010 1005a62f x12 0000000000000000",
    "C 1 M 0000000080000020 00000013",
    "C 0 M 0000000080000014 18b5a6af x13 0000000000000001",
    "C 1 M 0000000080000024 0000006f",
    "C 0 M 0000000080000018 0005a703 x14 0000000000000000",
];
