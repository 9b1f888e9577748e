//! Which records are allowed, and the field that is named of those that are not.

use crate::Field::{
    Cause, Device, Hart, Host, Insn, Kind, Mode, Pc, Rd, StoreAt, StoreSize, StoreValue, Tval,
    Value, Volatile,
};
use crate::tests::{
    FAILED, Lines, MANY, Program, RESERVED, RESERVES, WINDOW, feed_line, feed_lines, judge_of,
    passes, same,
};
use crate::{Field, Verdict};
use std::alloc::{AllocError, Global};
use std::process::Abort;

/// How many lines of the trace come before it, a line, and the field that is named with the allowed value
/// and the line's own.
type Refusal = (u64, &'static str, Field, Option<u64>, Option<u64>);

/// After so many lines of a trace, the line is refused; then nothing is taken any more.
fn refuses(
    rt: &impl Abort,
    alloc: Global,
    program: Program,
    lines: Lines,
    refusal: Refusal,
) -> Result<(), AllocError> {
    let (n, line, field, allowed, given) = refusal;
    let want = Verdict::Disallowed {
        n,
        field,
        allowed,
        given,
    };
    let mut judge = judge_of(rt, alloc, program, MANY)?;
    feed_lines(rt, &mut judge, lines, n);
    same(rt, &feed_line(&mut judge, line), &want, line, n);
    same(rt, &feed_line(&mut judge, line), &want, "after", n);
    same(rt, &judge.finish(), &want, "at the end after", n);
    Ok(())
}

/// One hart: a register, a device, a counter, a store and an exception.
static SHOWS: Program = (
    1,
    0,
    &[
        0x1000_02b7, // lui x5,0x10000
        0x0042_a303, // lw x6,4(x5)
        0xc000_2373, // csrrs x6,cycle,x0
        0x0000_1397, // auipc x7,1
        0x0053_a223, // sw x5,4(x7)
        0x0000_0073, // ecall
    ],
);

static SHOWN: [&str; 7] = [
    "C 0 M 0000000080000000 100002b7 x5 0000000010000000",
    "C 0 M 0000000080000004 0042a303 x6 0000000000000103 dv 0000000000000103",
    "C 0 M 0000000080000008 c0002373 x6 0000000000000007 vl 0000000000000007",
    "C 0 M 000000008000000c 00001397 x7 000000008000100c",
    "C 0 M 0000000080000010 0053a223 st 0000000080001010 4 10000000",
    "X 0 M 0000000080000014 11 0000000000000000",
    "X 0 M 0000000000000000 1 0000000000000000",
];

/// Each field, where it is the first that differs; where two differ, the first is named.
static FIELDS: [Refusal; 40] = [
    // a commit with a register
    (
        0,
        "C 1 M 0000000080000000 100002b7 x5 0000000010000000",
        Hart,
        None,
        Some(1),
    ),
    (0, "C 7 S 0000000080000002 100002b6", Hart, None, Some(7)),
    (
        0,
        "X 0 M 0000000080000000 2 0000000000000000",
        Kind,
        Some(0),
        Some(1),
    ),
    (
        0,
        "X 1 M 0000000080000000 2 0000000000000000",
        Hart,
        None,
        Some(1),
    ),
    (
        0,
        "C 0 S 0000000080000000 100002b7 x5 0000000010000000",
        Mode,
        Some(3),
        Some(1),
    ),
    (
        0,
        "C 0 U 0000000080000004 100002b7 x5 0000000010000000",
        Mode,
        Some(3),
        Some(0),
    ),
    (
        0,
        "C 0 D 0000000080000000 100002b7 x5 0000000010000000",
        Mode,
        Some(3),
        Some(4),
    ),
    (
        0,
        "C 0 M 0000000080000002 100002b7 x5 0000000010000000",
        Pc,
        Some(0x8000_0000),
        Some(0x8000_0002),
    ),
    (
        0,
        "C 0 M 0000000080000002 100002b6 x5 0000000010000000",
        Pc,
        Some(0x8000_0000),
        Some(0x8000_0002),
    ),
    (
        0,
        "C 0 M 0000000080000000 100002b6 x5 0000000010000000",
        Insn,
        Some(0x1000_02b7),
        Some(0x1000_02b6),
    ),
    (
        0,
        "C 0 M 0000000080000000 100002b6 x6 0000000010000000",
        Insn,
        Some(0x1000_02b7),
        Some(0x1000_02b6),
    ),
    (
        0,
        "C 0 M 0000000080000000 100002b7 x6 0000000010000000",
        Rd,
        Some(5),
        Some(6),
    ),
    (
        0,
        "C 0 M 0000000080000000 100002b7 x6 0000000010000001",
        Rd,
        Some(5),
        Some(6),
    ),
    (0, "C 0 M 0000000080000000 100002b7", Rd, Some(5), None),
    (
        0,
        "C 0 M 0000000080000000 100002b7 x5 0000000010000001",
        Value,
        Some(0x1000_0000),
        Some(0x1000_0001),
    ),
    (
        0,
        "C 0 M 0000000080000000 100002b7 x5 0000000010000000 st 0000000080001010 1 00",
        StoreAt,
        None,
        Some(0x8000_1010),
    ),
    (
        0,
        "C 0 M 0000000080000000 100002b7 x5 0000000010000001 st 0000000080001010 1 00",
        Value,
        Some(0x1000_0000),
        Some(0x1000_0001),
    ),
    (
        0,
        "C 0 M 0000000080000000 100002b7 x5 0000000010000000 dv 0000000000000000",
        Device,
        None,
        Some(0),
    ),
    (
        0,
        "C 0 M 0000000080000000 100002b7 x5 0000000010000000 vl 0000000000000000",
        Volatile,
        None,
        Some(0),
    ),
    (
        0,
        "C 0 M 0000000080000000 100002b7 x5 0000000010000000 dv 0000000000000001 vl 0000000000000002",
        Device,
        None,
        Some(1),
    ),
    // a device's answer: a missing one is 0, and a long one is cut to four bytes
    (
        1,
        "C 0 M 0000000080000004 0042a303 x6 0000000000000000",
        Device,
        Some(0),
        None,
    ),
    (
        1,
        "C 0 M 0000000080000004 0042a303 x6 0000000000000103",
        Value,
        Some(0),
        Some(0x103),
    ),
    (
        1,
        "C 0 M 0000000080000004 0042a303 x6 0000000000000103 dv 0000000100000103",
        Device,
        Some(0x103),
        Some(0x1_0000_0103),
    ),
    (
        1,
        "C 0 M 0000000080000004 0042a303 x6 0000000080000000 dv 0000000080000000",
        Value,
        Some(0xffff_ffff_8000_0000),
        Some(0x8000_0000),
    ),
    (
        1,
        "C 0 M 0000000080000004 0042a303 x6 0000000000000000 vl 0000000000000000",
        Device,
        Some(0),
        None,
    ),
    // a volatile register: a missing answer is 0
    (
        2,
        "C 0 M 0000000080000008 c0002373 x6 0000000000000000",
        Volatile,
        Some(0),
        None,
    ),
    (
        2,
        "C 0 M 0000000080000008 c0002373 x6 0000000000000008 vl 0000000000000007",
        Value,
        Some(7),
        Some(8),
    ),
    (
        2,
        "C 0 M 0000000080000008 c0002373 x6 0000000000000007 dv 0000000000000007",
        Value,
        Some(0),
        Some(7),
    ),
    // a store
    (
        4,
        "C 0 M 0000000080000010 0053a223",
        StoreAt,
        Some(0x8000_1010),
        None,
    ),
    (
        4,
        "C 0 M 0000000080000010 0053a223 st 0000000080001014 2 1000",
        StoreAt,
        Some(0x8000_1010),
        Some(0x8000_1014),
    ),
    (
        4,
        "C 0 M 0000000080000010 0053a223 st 0000000080001010 2 1000",
        StoreSize,
        Some(4),
        Some(2),
    ),
    (
        4,
        "C 0 M 0000000080000010 0053a223 st 0000000080001010 4 10000001",
        StoreValue,
        Some(0x1000_0000),
        Some(0x1000_0001),
    ),
    (
        4,
        "C 0 M 0000000080000010 0053a223 x5 0000000010000000 st 0000000080001010 4 10000000",
        Rd,
        None,
        Some(5),
    ),
    // an exception
    (5, "C 0 M 0000000080000014 00000073", Kind, Some(1), Some(0)),
    (
        5,
        "X 0 U 0000000080000014 11 0000000000000000",
        Mode,
        Some(3),
        Some(0),
    ),
    (
        5,
        "X 0 M 0000000080000010 11 0000000000000000",
        Pc,
        Some(0x8000_0014),
        Some(0x8000_0010),
    ),
    (
        5,
        "X 0 M 0000000080000014 8 0000000000000001",
        Cause,
        Some(11),
        Some(8),
    ),
    (
        5,
        "X 0 M 0000000080000014 11 0000000000000001",
        Tval,
        Some(0),
        Some(1),
    ),
    (
        5,
        "X 2 M 0000000080000014 11 0000000000000000",
        Hart,
        None,
        Some(2),
    ),
    (
        6,
        "X 0 M 0000000000000000 1 0000000000000002",
        Tval,
        Some(0),
        Some(2),
    ),
];

#[test]
fn the_first_field_that_differs_is_named(rt: HostRuntime) -> Result<(), AllocError> {
    passes(&rt, rt.alloc(), SHOWS, &SHOWN)?;
    for &refusal in &FIELDS {
        refuses(&rt, rt.alloc(), SHOWS, &SHOWN, refusal)?;
    }
    Ok(())
}

/// The same two harts, but hart 1 stores a byte among the eight that hart 0 reserved.
static STEALS: Program = (
    2,
    0,
    &[
        0xf140_2573, // csrrs x10,mhartid,x0
        0x0000_0597, // auipc x11,0
        0x0fc5_8593, // addi x11,x11,252
        0x0005_1a63, // bne x10,x0,20
        0x1005_a62f, // lr.w x12,(x11)
        0x18b5_a6af, // sc.w x13,x11,(x11)
        0x0005_a703, // lw x14,0(x11)
        0x0000_006f, // jal x0,0
        0x00b5_83a3, // sb x11,7(x11)
        0x0000_006f, // jal x0,0
    ],
);

static STOLEN: [&str; 14] = [
    "C 0 M 0000000080000000 f1402573 x10 0000000000000000",
    "C 1 M 0000000080000000 f1402573 x10 0000000000000001",
    "C 0 M 0000000080000004 00000597 x11 0000000080000004",
    "C 1 M 0000000080000004 00000597 x11 0000000080000004",
    "C 0 M 0000000080000008 0fc58593 x11 0000000080000100",
    "C 1 M 0000000080000008 0fc58593 x11 0000000080000100",
    "C 0 M 000000008000000c 00051a63",
    "C 1 M 000000008000000c 00051a63",
    "C 0 M 0000000080000010 1005a62f x12 0000000000000000",
    "C 1 M 0000000080000020 00b583a3 st 0000000080000107 1 00",
    "C 0 M 0000000080000014 18b5a6af x13 0000000000000001",
    "C 1 M 0000000080000024 0000006f",
    "C 0 M 0000000080000018 0005a703 x14 0000000000000000",
    "C 1 M 0000000080000024 0000006f",
];

/// What is loaded after a store-conditional that failed.
static LOADED: Refusal = (
    12,
    "C 0 M 0000000080000018 0005a703 x14 ffffffff80000100",
    Value,
    Some(0),
    Some(0xffff_ffff_8000_0100),
);

/// A store-conditional that wins without a reservation.
static WINS: Refusal = (
    10,
    "C 0 M 0000000080000014 18b5a6af x13 0000000000000000 st 0000000080000100 4 80000100",
    Value,
    Some(1),
    Some(0),
);

/// A store-conditional that wins and says otherwise.
static WINS_AND_FAILS: Refusal = (
    10,
    "C 0 M 0000000080000014 18b5a6af x13 0000000000000001 st 0000000080000100 4 80000100",
    Value,
    Some(0),
    Some(1),
);

/// A store-conditional that stores another word.
static STORES: Refusal = (
    10,
    "C 0 M 0000000080000014 18b5a6af x13 0000000000000000 st 0000000080000100 4 80000101",
    StoreValue,
    Some(0x8000_0100),
    Some(0x8000_0101),
);

#[test]
fn a_store_conditional_may_fail_and_wins_only_with_a_reservation(
    rt: HostRuntime,
) -> Result<(), AllocError> {
    passes(&rt, rt.alloc(), RESERVES, &RESERVED)?;
    passes(&rt, rt.alloc(), RESERVES, &FAILED)?;
    passes(&rt, rt.alloc(), STEALS, &STOLEN)?;
    refuses(&rt, rt.alloc(), RESERVES, &FAILED, LOADED)?;
    refuses(&rt, rt.alloc(), STEALS, &STOLEN, WINS)?;
    refuses(&rt, rt.alloc(), RESERVES, &RESERVED, WINS_AND_FAILS)?;
    refuses(&rt, rt.alloc(), RESERVES, &RESERVED, STORES)
}

/// One hart, whose software interrupt of machine mode is enabled.
static ENABLES: Program = (
    1,
    0,
    &[
        0x3044_6073, // csrrsi x0,mie,8
        0x3004_6073, // csrrsi x0,mstatus,8
        0x0000_006f, // jal x0,0
    ],
);

static ENABLED: [&str; 5] = [
    "C 0 M 0000000080000000 30446073",
    "C 0 M 0000000080000004 30046073",
    "C 0 M 0000000080000008 0000006f",
    "I 0 3",
    "X 0 M 0000000000000000 1 0000000000000000",
];

/// Before `mie` and MIE are set, before MIE is, of another cause, of a hart that is not there, and once more
/// in the handler, where MIE is clear.
static NOT_ENABLED: [Refusal; 7] = [
    (0, "I 0 3", Cause, None, Some(3)),
    (1, "I 0 3", Cause, None, Some(3)),
    (2, "I 0 7", Cause, None, Some(7)),
    (2, "I 0 0", Cause, None, Some(0)),
    (2, "I 1 3", Hart, None, Some(1)),
    (2, "I 7 7", Hart, None, Some(7)),
    (4, "I 0 3", Cause, None, Some(3)),
];

/// One hart, which sets MIE alone.
static OPENS: Program = (
    1,
    0,
    &[
        0x3004_6073, // csrrsi x0,mstatus,8
        0x0000_006f, // jal x0,0
    ],
);

static OPENED: [&str; 1] = ["C 0 M 0000000080000000 30046073"];

/// One hart, which enables the software interrupt of supervisor mode and makes it pending.
static SETS: Program = (
    1,
    0,
    &[
        0x3041_6073, // csrrsi x0,mie,2
        0x3441_6073, // csrrsi x0,mip,2
        0x3004_6073, // csrrsi x0,mstatus,8
        0x0000_006f, // jal x0,0
    ],
);

static SET: [&str; 4] = [
    "C 0 M 0000000080000000 30416073",
    "C 0 M 0000000080000004 34416073 vl 0000000000000000",
    "C 0 M 0000000080000008 30046073",
    "I 0 1",
];

/// The same, delegated to supervisor mode: machine mode never takes it.
static DELEGATES: Program = (
    1,
    0,
    &[
        0x3031_6073, // csrrsi x0,mideleg,2
        0x3041_6073, // csrrsi x0,mie,2
        0x3441_6073, // csrrsi x0,mip,2
        0x3004_6073, // csrrsi x0,mstatus,8
        0x0000_006f, // jal x0,0
    ],
);

static DELEGATED: [&str; 4] = [
    "C 0 M 0000000080000000 30316073",
    "C 0 M 0000000080000004 30416073",
    "C 0 M 0000000080000008 34416073 vl 0000000000000000",
    "C 0 M 000000008000000c 30046073",
];

#[test]
fn an_interrupt_passes_where_it_may_be_taken(rt: HostRuntime) -> Result<(), AllocError> {
    passes(&rt, rt.alloc(), ENABLES, &ENABLED)?;
    passes(&rt, rt.alloc(), SETS, &SET)?;
    for &refusal in &NOT_ENABLED {
        refuses(&rt, rt.alloc(), ENABLES, &ENABLED, refusal)?;
    }
    let closed: Refusal = (0, "I 0 7", Cause, None, Some(7));
    refuses(&rt, rt.alloc(), RESERVES, &[], closed)?;
    let away: Refusal = (0, "I 3 7", Hart, None, Some(3));
    refuses(&rt, rt.alloc(), RESERVES, &[], away)?;
    let masked: Refusal = (1, "I 0 7", Cause, None, Some(7));
    refuses(&rt, rt.alloc(), OPENS, &OPENED, masked)?;
    let delegated: Refusal = (4, "I 0 1", Cause, None, Some(1));
    refuses(&rt, rt.alloc(), DELEGATES, &DELEGATED, delegated)
}

/// The words that send `A` through the host window; then hart 0 reserves the window before it stores there.
static SENDING: [u32; 8] = [
    0x1010_0293, // addi x5,x0,0x101
    0x0302_9293, // slli x5,x5,48
    0x0412_e293, // ori x5,x5,0x41
    0x0000_1317, // auipc x6,1
    0xff43_0313, // addi x6,x6,-12
    0x1003_33af, // lr.d x7,(x6)
    0x0053_3023, // sd x5,0(x6)
    0x1853_342f, // sc.d x8,x5,(x6)
];

static SENT: [&str; 9] = [
    "C 0 M 0000000080000000 10100293 x5 0000000000000101",
    "C 0 M 0000000080000004 03029293 x5 0101000000000000",
    "C 0 M 0000000080000008 0412e293 x5 0101000000000041",
    "C 0 M 000000008000000c 00001317 x6 000000008000100c",
    "C 0 M 0000000080000010 ff430313 x6 0000000080001000",
    "C 0 M 0000000080000014 100333af x7 0000000000000000",
    "C 0 M 0000000080000018 00533023 st 0000000080001000 8 0101000000000041",
    "H 0101000000000041",
    "C 0 M 000000008000001c 1853342f x8 0000000000000001",
];

/// The trace of a host that does not look at its window.
static UNSENT: [&str; 8] = [
    "C 0 M 0000000080000000 10100293 x5 0000000000000101",
    "C 0 M 0000000080000004 03029293 x5 0101000000000000",
    "C 0 M 0000000080000008 0412e293 x5 0101000000000041",
    "C 0 M 000000008000000c 00001317 x6 000000008000100c",
    "C 0 M 0000000080000010 ff430313 x6 0000000080001000",
    "C 0 M 0000000080000014 100333af x7 0000000000000000",
    "C 0 M 0000000080000018 00533023 st 0000000080001000 8 0101000000000041",
    "C 0 M 000000008000001c 1853342f x8 0000000000000000 st 0000000080001000 8 0101000000000041",
];

/// Before the word stands in the window, another word, a second time, and a store-conditional that wins
/// though the host took the reservation when it cleared the window.
static NOT_SENT: [Refusal; 5] = [
    (
        6,
        "H 0101000000000041",
        Host,
        None,
        Some(0x0101_0000_0000_0041),
    ),
    (
        7,
        "H 0101000000000042",
        Host,
        Some(0x0101_0000_0000_0041),
        Some(0x0101_0000_0000_0042),
    ),
    (
        7,
        "H 0000000000000000",
        Host,
        Some(0x0101_0000_0000_0041),
        Some(0),
    ),
    (
        8,
        "H 0101000000000041",
        Host,
        None,
        Some(0x0101_0000_0000_0041),
    ),
    (
        8,
        "C 0 M 000000008000001c 1853342f x8 0000000000000000 st 0000000080001000 8 0101000000000041",
        Value,
        Some(1),
        Some(0),
    ),
];

/// A word that ends the program, and one that no host understands.
static ENDS: Program = (
    1,
    WINDOW,
    &[
        0x0030_0293, // addi x5,x0,3
        0x0000_1317, // auipc x6,1
        0xfe53_3e23, // sd x5,-4(x6)
        0x0020_0293, // addi x5,x0,2
        0xfe53_3e23, // sd x5,-4(x6)
    ],
);

static ENDED: [&str; 5] = [
    "C 0 M 0000000080000000 00300293 x5 0000000000000003",
    "C 0 M 0000000080000004 00001317 x6 0000000080001004",
    "C 0 M 0000000080000008 fe533e23 st 0000000080001000 8 0000000000000003",
    "C 0 M 000000008000000c 00200293 x5 0000000000000002",
    "C 0 M 0000000080000010 fe533e23 st 0000000080001000 8 0000000000000002",
];

#[test]
fn the_host_takes_what_its_window_sends(rt: HostRuntime) -> Result<(), AllocError> {
    let sends: Program = (1, WINDOW, &SENDING);
    let unseen: Program = (1, 0, &SENDING);
    passes(&rt, rt.alloc(), sends, &SENT)?;
    passes(&rt, rt.alloc(), sends, &UNSENT)?;
    passes(&rt, rt.alloc(), unseen, &UNSENT)?;
    for &refusal in &NOT_SENT {
        refuses(&rt, rt.alloc(), sends, &SENT, refusal)?;
    }
    let word = Some(0x0101_0000_0000_0041);
    let off: Refusal = (7, "H 0101000000000041", Host, None, word);
    refuses(&rt, rt.alloc(), unseen, &UNSENT, off)?;
    let end: Refusal = (3, "H 0000000000000003", Host, None, Some(3));
    refuses(&rt, rt.alloc(), ENDS, &ENDED, end)?;
    let bad: Refusal = (5, "H 0000000000000002", Host, None, Some(2));
    refuses(&rt, rt.alloc(), ENDS, &ENDED, bad)
}
