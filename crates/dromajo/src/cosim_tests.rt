//! Calls that judge a commit stream. The words of the programs are an assembler's (llvm-mc), each with its assembly
//! beside it, and the records and what is reported of them are reckoned by hand.

use crate::test_files::Content;
use crate::test_files::Content::{Program, Text};
use crate::test_support::{Call, NOTHING, Streams, expect_answer, files_before};
use outside_io::OutFault;
use std::alloc::Global;
use std::process::Abort;
use std::test::Fail;

pub(crate) const ONE_HART: Content = Text(
    "{\"harts\":1,\"ram\":65536,\"slice\":1,\"program\":\"p.elf\"}",
);

pub(crate) const TWO_HARTS: Content = Text(
    "{\"harts\":2,\"ram\":65536,\"slice\":1,\"program\":\"p.elf\"}",
);

const WINDOW: Content = Text(
    "{\"harts\":1,\"ram\":65536,\"slice\":5,\"program\":\"p.elf\",\"tohost\":2147487744}",
);

// ---- programs

// Hart 0 reserves and stores at 0x80000100, and hart 1 goes to the ninth word, which does nothing.
pub(crate) const RESERVES: [u32; 10] = [
    0xf140_2573, // csrrs x10,mhartid,x0
    0x0000_0597, // auipc x11,0
    0x0fc5_8593, // addi x11,x11,0xfc
    0x0005_1a63, // bne x10,x0,0x14
    0x1005_a62f, // lr.w x12,(x11)
    0x18b5_a6af, // sc.w x13,x11,(x11)
    0x0005_a703, // lw x14,0(x11)
    0x0000_006f, // jal x0,0
    0x0000_0013, // addi x0,x0,0
    0x0000_006f, // jal x0,0
];

// The same, and the ninth word stores into the reserved bytes.
const DISTURBS: [u32; 10] = [
    0xf140_2573, // csrrs x10,mhartid,x0
    0x0000_0597, // auipc x11,0
    0x0fc5_8593, // addi x11,x11,0xfc
    0x0005_1a63, // bne x10,x0,0x14
    0x1005_a62f, // lr.w x12,(x11)
    0x18b5_a6af, // sc.w x13,x11,(x11)
    0x0005_a703, // lw x14,0(x11)
    0x0000_006f, // jal x0,0
    0x00b5_83a3, // sb x11,7(x11)
    0x0000_006f, // jal x0,0
];

// A load where no memory and no device is.
const NOWHERE: [u32; 2] = [
    0x0001_02b7, // lui x5,0x10
    0x0002_a303, // lw x6,0(x5)
];

// A word that sends a letter through the host window.
const SENDS: [u32; 6] = [
    0x1010_0293, // addi x5,x0,0x101
    0x0302_9293, // slli x5,x5,0x30
    0x0412_e293, // ori x5,x5,0x41
    0x0000_1317, // auipc x6,1
    0xfe53_3a23, // sd x5,-12(x6)
    0x0000_006f, // jal x0,0
];

// A byte of the console's queue, and the counter of steps: whatever they are.
const ASKS: [u32; 4] = [
    0x1000_0337, // lui x6,0x10000
    0x0003_4383, // lbu x7,0(x6)
    0xc000_24f3, // csrrs x9,cycle,x0
    0x0000_006f, // jal x0,0
];

// The timer may interrupt after the third step, and only it.
pub(crate) const INTERRUPTED: [u32; 4] = [
    0x0800_0293, // addi x5,x0,0x80
    0x3042_a073, // csrrs x0,mie,x5
    0x3004_6073, // csrrsi x0,mstatus,8
    0x0000_006f, // jal x0,0
];

// Interrupts are enabled, and none of them is.
const ENABLES: [u32; 2] = [
    0x3004_6073, // csrrsi x0,mstatus,8
    0x0000_006f, // jal x0,0
];

// ---- what is reported of a stream

// The number of a record, what stands in its place, the status's number, and the report.
type Change = (usize, &'static str, u8, &'static str);

// A configuration, its program, and the records of a run.
struct Judged {
    config: Content,
    program: &'static [u32],
    records: &'static [&'static str],
}

static RESERVES_RUN: Judged = Judged {
    config: TWO_HARTS,
    program: &RESERVES,
    records: &[
        "C 0 M 0000000080000000 f1402573 x10 0000000000000000\n",
        "C 1 M 0000000080000000 f1402573 x10 0000000000000001\n",
        "C 0 M 0000000080000004 00000597 x11 0000000080000004\n",
        "C 1 M 0000000080000004 00000597 x11 0000000080000004\n",
        "C 0 M 0000000080000008 0fc58593 x11 0000000080000100\n",
        "C 1 M 0000000080000008 0fc58593 x11 0000000080000100\n",
        "C 0 M 000000008000000c 00051a63\n",
        "C 1 M 000000008000000c 00051a63\n",
        "C 0 M 0000000080000010 1005a62f x12 0000000000000000\n",
        "C 1 M 0000000080000020 00000013\n",
        "C 0 M 0000000080000014 18b5a6af x13 0000000000000000 st 0000000080000100 4 80000100\n",
        "C 1 M 0000000080000024 0000006f\n",
        "C 0 M 0000000080000018 0005a703 x14 ffffffff80000100\n",
        "C 1 M 0000000080000024 0000006f\n",
    ],
};

static RESERVES_CHANGES: [Change; 21] = [
    // all are allowed, and the last newline may be missing
    (
        13,
        "C 1 M 0000000080000024 0000006f",
        0,
        "passed records=14\n",
    ),
    // each field of a commit: the store-conditional
    (
        10,
        "C 2 M 0000000080000014 18b5a6af x13 0000000000000000 st 0000000080000100 4 80000100\n",
        1,
        "disagree record=10 field=hart allowed=none given=0000000000000002\n",
    ),
    (
        10,
        "C 7 M 0000000080000014 18b5a6af x13 0000000000000000 st 0000000080000100 4 80000100\n",
        1,
        "disagree record=10 field=hart allowed=none given=0000000000000007\n",
    ),
    (
        10,
        "C 1 M 0000000080000014 18b5a6af x13 0000000000000000 st 0000000080000100 4 80000100\n",
        1,
        "disagree record=10 field=pc allowed=0000000080000024 given=0000000080000014\n",
    ),
    (
        10,
        "X 0 M 0000000080000014 5 0000000000000000\n",
        1,
        "disagree record=10 field=kind allowed=0000000000000000 given=0000000000000001\n",
    ),
    (
        10,
        "C 0 U 0000000080000014 18b5a6af x13 0000000000000000 st 0000000080000100 4 80000100\n",
        1,
        "disagree record=10 field=mode allowed=0000000000000003 given=0000000000000000\n",
    ),
    (
        10,
        "C 0 S 0000000080000014 18b5a6af x13 0000000000000000 st 0000000080000100 4 80000100\n",
        1,
        "disagree record=10 field=mode allowed=0000000000000003 given=0000000000000001\n",
    ),
    (
        10,
        "C 0 D 0000000080000014 18b5a6af x13 0000000000000000 st 0000000080000100 4 80000100\n",
        1,
        "disagree record=10 field=mode allowed=0000000000000003 given=0000000000000004\n",
    ),
    (
        10,
        "C 0 M 0000000080000015 18b5a6af x13 0000000000000000 st 0000000080000100 4 80000100\n",
        1,
        "disagree record=10 field=pc allowed=0000000080000014 given=0000000080000015\n",
    ),
    (
        10,
        "C 0 M 8000000080000014 18b5a6af x13 0000000000000000 st 0000000080000100 4 80000100\n",
        1,
        "disagree record=10 field=pc allowed=0000000080000014 given=8000000080000014\n",
    ),
    (
        10,
        "C 0 M 0000000080000014 18b5a6ae x13 0000000000000000 st 0000000080000100 4 80000100\n",
        1,
        "disagree record=10 field=insn allowed=0000000018b5a6af given=0000000018b5a6ae\n",
    ),
    (
        10,
        "C 0 M 0000000080000014 18b5a6af x12 0000000000000000 st 0000000080000100 4 80000100\n",
        1,
        "disagree record=10 field=rd allowed=000000000000000d given=000000000000000c\n",
    ),
    (
        10,
        "C 0 M 0000000080000014 18b5a6af st 0000000080000100 4 80000100\n",
        1,
        "disagree record=10 field=rd allowed=000000000000000d given=none\n",
    ),
    (
        10,
        "C 0 M 0000000080000014 18b5a6af x13 0000000000000001 st 0000000080000100 4 80000100\n",
        1,
        "disagree record=10 field=value allowed=0000000000000000 given=0000000000000001\n",
    ),
    (
        10,
        "C 0 M 0000000080000014 18b5a6af x13 0000000000000000 st 0000000080000104 4 80000100\n",
        1,
        "disagree record=10 field=store-at allowed=0000000080000100 given=0000000080000104\n",
    ),
    (
        10,
        "C 0 M 0000000080000014 18b5a6af x13 0000000000000000 st 0000000080000100 8 0000000080000100\n",
        1,
        "disagree record=10 field=store-size allowed=0000000000000004 given=0000000000000008\n",
    ),
    (
        10,
        "C 0 M 0000000080000014 18b5a6af x13 0000000000000000 st 0000000080000100 4 80000101\n",
        1,
        "disagree record=10 field=store-value allowed=0000000080000100 given=0000000080000101\n",
    ),
    (
        10,
        "C 0 M 0000000080000014 18b5a6af x13 0000000000000000 st 0000000080000100 4 80000100 dv 0000000000000000\n",
        1,
        "disagree record=10 field=device allowed=none given=0000000000000000\n",
    ),
    (
        10,
        "C 0 M 0000000080000014 18b5a6af x13 0000000000000000 st 0000000080000100 4 80000100 vl 0000000000000001\n",
        1,
        "disagree record=10 field=volatile allowed=none given=0000000000000001\n",
    ),
    (
        10,
        "C 0 M 0000000080000014 18b5a6af x13 0000000000000000 st 0000000080000100 4 80000100 dv 0000000000000002 vl 0000000000000001\n",
        1,
        "disagree record=10 field=device allowed=none given=0000000000000002\n",
    ),
    // of two fields that differ the first counts
    (
        10,
        "C 0 M 0000000080000015 18b5a6ae x13 0000000000000000 st 0000000080000100 4 80000100\n",
        1,
        "disagree record=10 field=pc allowed=0000000080000014 given=0000000080000015\n",
    ),
];

static RESERVES_MORE_CHANGES: [Change; 21] = [
    (
        10,
        "C 0 M 0000000080000014 18b5a6af x12 0000000000000000 st 0000000080000100 4 80000101\n",
        1,
        "disagree record=10 field=rd allowed=000000000000000d given=000000000000000c\n",
    ),
    // it may fail: what it did not store is missed by the load after it
    (
        10,
        "C 0 M 0000000080000014 18b5a6af x13 0000000000000001\n",
        1,
        "disagree record=12 field=value allowed=0000000000000000 given=ffffffff80000100\n",
    ),
    // where it fails its register gets 1
    (
        10,
        "C 0 M 0000000080000014 18b5a6af x13 0000000000000000\n",
        1,
        "disagree record=10 field=value allowed=0000000000000001 given=0000000000000000\n",
    ),
    // records of other places
    (
        2,
        "C 0 M 0000000080000004 00000597 x11 0000000080000005\n",
        1,
        "disagree record=2 field=value allowed=0000000080000004 given=0000000080000005\n",
    ),
    (
        6,
        "C 0 M 000000008000000c 00051a63 x1 0000000000000000\n",
        1,
        "disagree record=6 field=rd allowed=none given=0000000000000001\n",
    ),
    (
        6,
        "C 0 M 000000008000000c 00051a63 st 0000000080000100 4 80000100\n",
        1,
        "disagree record=6 field=store-at allowed=none given=0000000080000100\n",
    ),
    (
        13,
        "C 1 M 0000000080000028 0000006f\n",
        1,
        "disagree record=13 field=pc allowed=0000000080000024 given=0000000080000028\n",
    ),
    (
        1,
        "C 0 M 0000000080000000 f1402573 x10 0000000000000000\n",
        1,
        "disagree record=1 field=pc allowed=0000000080000004 given=0000000080000000\n",
    ),
    // words of the host
    (
        0,
        "H 0101000000000041\n",
        1,
        "disagree record=0 field=host allowed=none given=0101000000000041\n",
    ),
    // interrupts
    (
        0,
        "I 0 7\n",
        1,
        "disagree record=0 field=cause allowed=none given=0000000000000007\n",
    ),
    (
        0,
        "I 3 7\n",
        1,
        "disagree record=0 field=hart allowed=none given=0000000000000003\n",
    ),
    // lines that are no record
    (0, "\n", 12, "bad line record=0 column=0\n"),
    (3, "\n", 12, "bad line record=3 column=0\n"),
    (0, "C 8\n", 12, "bad line record=0 column=2\n"),
    (0, "c 0\n", 12, "bad line record=0 column=0\n"),
    (
        0,
        "C 0 M 0000000080000000 f1402573 x10 0000000000000000\r\n",
        12,
        "bad line record=0 column=52\n",
    ),
    (
        0,
        "C 0 M 000000008000000A f1402573 x10 0000000000000000\n",
        12,
        "bad line record=0 column=21\n",
    ),
    (
        0,
        "C 0 M 0000000080000000 f1402573 x0 0000000000000000\n",
        12,
        "bad line record=0 column=33\n",
    ),
    (
        0,
        "C 0 M 0000000080000000 f1402573 x32 0000000000000000\n",
        12,
        "bad line record=0 column=34\n",
    ),
    (
        0,
        "C 0 M 0000000080000000 f1402573 x10 0000000000000000 \n",
        12,
        "bad line record=0 column=53\n",
    ),
    (
        0,
        "C 0 M 0000000080000000  f1402573\n",
        12,
        "bad line record=0 column=23\n",
    ),
];

static DISTURBS_RUN: Judged = Judged {
    config: TWO_HARTS,
    program: &DISTURBS,
    records: &[
        "C 0 M 0000000080000000 f1402573 x10 0000000000000000\n",
        "C 1 M 0000000080000000 f1402573 x10 0000000000000001\n",
        "C 0 M 0000000080000004 00000597 x11 0000000080000004\n",
        "C 1 M 0000000080000004 00000597 x11 0000000080000004\n",
        "C 0 M 0000000080000008 0fc58593 x11 0000000080000100\n",
        "C 1 M 0000000080000008 0fc58593 x11 0000000080000100\n",
        "C 0 M 000000008000000c 00051a63\n",
        "C 1 M 000000008000000c 00051a63\n",
        "C 0 M 0000000080000010 1005a62f x12 0000000000000000\n",
        "C 1 M 0000000080000020 00b583a3 st 0000000080000107 1 00\n",
        "C 0 M 0000000080000014 18b5a6af x13 0000000000000001\n",
        "C 1 M 0000000080000024 0000006f\n",
        "C 0 M 0000000080000018 0005a703 x14 0000000000000000\n",
        "C 1 M 0000000080000024 0000006f\n",
    ],
};

static DISTURBS_CHANGES: [Change; 5] = [
    // all are allowed, and the last newline may be missing
    (
        13,
        "C 1 M 0000000080000024 0000006f",
        0,
        "passed records=14\n",
    ),
    // without its reservation it must fail
    (
        10,
        "C 0 M 0000000080000014 18b5a6af x13 0000000000000000 st 0000000080000100 4 80000100\n",
        1,
        "disagree record=10 field=value allowed=0000000000000001 given=0000000000000000\n",
    ),
    // the store that takes the reservation
    (
        9,
        "C 1 M 0000000080000020 00b583a3 st 0000000080000107 1 01\n",
        1,
        "disagree record=9 field=store-value allowed=0000000000000000 given=0000000000000001\n",
    ),
    (
        9,
        "C 1 M 0000000080000020 00b583a3\n",
        1,
        "disagree record=9 field=store-at allowed=0000000080000107 given=none\n",
    ),
    (
        9,
        "C 1 M 0000000080000020 00000013\n",
        1,
        "disagree record=9 field=insn allowed=0000000000b583a3 given=0000000000000013\n",
    ),
];

static NOWHERE_RUN: Judged = Judged {
    config: ONE_HART,
    program: &NOWHERE,
    records: &[
        "C 0 M 0000000080000000 000102b7 x5 0000000000010000\n",
        "X 0 M 0000000080000004 5 0000000000010000\n",
        "X 0 M 0000000000000000 1 0000000000000000\n",
    ],
};

static NOWHERE_CHANGES: [Change; 9] = [
    // all are allowed, and the last newline may be missing
    (
        2,
        "X 0 M 0000000000000000 1 0000000000000000",
        0,
        "passed records=3\n",
    ),
    // each field of an exception
    (
        1,
        "X 1 M 0000000080000004 5 0000000000010000\n",
        1,
        "disagree record=1 field=hart allowed=none given=0000000000000001\n",
    ),
    (
        1,
        "C 0 M 0000000080000004 0002a303 x6 0000000000000000\n",
        1,
        "disagree record=1 field=kind allowed=0000000000000001 given=0000000000000000\n",
    ),
    (
        1,
        "X 0 U 0000000080000004 5 0000000000010000\n",
        1,
        "disagree record=1 field=mode allowed=0000000000000003 given=0000000000000000\n",
    ),
    (
        1,
        "X 0 M 0000000080000000 5 0000000000010000\n",
        1,
        "disagree record=1 field=pc allowed=0000000080000004 given=0000000080000000\n",
    ),
    (
        1,
        "X 0 M 0000000080000004 13 0000000000010000\n",
        1,
        "disagree record=1 field=cause allowed=0000000000000005 given=000000000000000d\n",
    ),
    (
        1,
        "X 0 M 0000000080000004 5 0000000000010004\n",
        1,
        "disagree record=1 field=tval allowed=0000000000010000 given=0000000000010004\n",
    ),
    (
        0,
        "X 0 M 0000000080000000 2 00000000000102b7\n",
        1,
        "disagree record=0 field=kind allowed=0000000000000000 given=0000000000000001\n",
    ),
    // lines that are no record
    (
        1,
        "X 0 M 0000000080000004 16 0000000000010000\n",
        12,
        "bad line record=1 column=24\n",
    ),
];

static SENDS_RUN: Judged = Judged {
    config: WINDOW,
    program: &SENDS,
    records: &[
        "C 0 M 0000000080000000 10100293 x5 0000000000000101\n",
        "C 0 M 0000000080000004 03029293 x5 0101000000000000\n",
        "C 0 M 0000000080000008 0412e293 x5 0101000000000041\n",
        "C 0 M 000000008000000c 00001317 x6 000000008000100c\n",
        "C 0 M 0000000080000010 fe533a23 st 0000000080001000 8 0101000000000041\n",
        "H 0101000000000041\n",
    ],
};

static SENDS_CHANGES: [Change; 5] = [
    // all are allowed, and the last newline may be missing
    (5, "H 0101000000000041", 0, "passed records=6\n"),
    // words of the host
    (
        5,
        "H 0101000000000042\n",
        1,
        "disagree record=5 field=host allowed=0101000000000041 given=0101000000000042\n",
    ),
    (
        5,
        "H 0000000000000001\n",
        1,
        "disagree record=5 field=host allowed=0101000000000041 given=0000000000000001\n",
    ),
    (
        4,
        "H 0101000000000041\n",
        1,
        "disagree record=4 field=host allowed=none given=0101000000000041\n",
    ),
    // lines that are no record
    (
        5,
        "H 101000000000041\n",
        12,
        "bad line record=5 column=17\n",
    ),
];

static ASKS_RUN: Judged = Judged {
    config: ONE_HART,
    program: &ASKS,
    records: &[
        "C 0 M 0000000080000000 10000337 x6 0000000010000000\n",
        "C 0 M 0000000080000004 00034383 x7 0000000000000061 dv 0000000000000061\n",
        "C 0 M 0000000080000008 c00024f3 x9 0000000000001234 vl 0000000000001234\n",
        "C 0 M 000000008000000c 0000006f\n",
    ],
};

static ASKS_CHANGES: [Change; 7] = [
    // all are allowed, and the last newline may be missing
    (
        3,
        "C 0 M 000000008000000c 0000006f",
        0,
        "passed records=4\n",
    ),
    // what a device and a volatile register give is cut to its size, and 0 where it is missing
    (
        1,
        "C 0 M 0000000080000004 00034383 x7 0000000000000062 dv 0000000000000061\n",
        1,
        "disagree record=1 field=value allowed=0000000000000061 given=0000000000000062\n",
    ),
    (
        1,
        "C 0 M 0000000080000004 00034383 x7 0000000000000061 dv 0000000000000161\n",
        1,
        "disagree record=1 field=device allowed=0000000000000061 given=0000000000000161\n",
    ),
    (
        1,
        "C 0 M 0000000080000004 00034383 x7 0000000000000061\n",
        1,
        "disagree record=1 field=value allowed=0000000000000000 given=0000000000000061\n",
    ),
    (
        1,
        "C 0 M 0000000080000004 00034383 x7 0000000000000000\n",
        1,
        "disagree record=1 field=device allowed=0000000000000000 given=none\n",
    ),
    (
        2,
        "C 0 M 0000000080000008 c00024f3 x9 0000000000000003 vl 0000000000000004\n",
        1,
        "disagree record=2 field=value allowed=0000000000000004 given=0000000000000003\n",
    ),
    (
        2,
        "C 0 M 0000000080000008 c00024f3 x9 0000000000000000\n",
        1,
        "disagree record=2 field=volatile allowed=0000000000000000 given=none\n",
    ),
];

static INTERRUPTED_RUN: Judged = Judged {
    config: ONE_HART,
    program: &INTERRUPTED,
    records: &[
        "C 0 M 0000000080000000 08000293 x5 0000000000000080\n",
        "C 0 M 0000000080000004 3042a073\n",
        "C 0 M 0000000080000008 30046073\n",
        "I 0 7\n",
        "X 0 M 0000000000000000 1 0000000000000000\n",
    ],
};

static INTERRUPTED_CHANGES: [Change; 4] = [
    // all are allowed, and the last newline may be missing
    (
        4,
        "X 0 M 0000000000000000 1 0000000000000000",
        0,
        "passed records=5\n",
    ),
    // interrupts
    (
        3,
        "I 0 11\n",
        1,
        "disagree record=3 field=cause allowed=none given=000000000000000b\n",
    ),
    (
        2,
        "I 0 7\n",
        1,
        "disagree record=2 field=cause allowed=none given=0000000000000007\n",
    ),
    (
        3,
        "C 0 M 000000008000000c 0000006f\n",
        1,
        "disagree record=4 field=kind allowed=0000000000000000 given=0000000000000001\n",
    ),
];

static ENABLES_RUN: Judged = Judged {
    config: ONE_HART,
    program: &ENABLES,
    records: &[
        "C 0 M 0000000080000000 30046073\n",
        "C 0 M 0000000080000004 0000006f\n",
    ],
};

static ENABLES_CHANGES: [Change; 2] = [
    // all are allowed, and the last newline may be missing
    (
        1,
        "C 0 M 0000000080000004 0000006f",
        0,
        "passed records=2\n",
    ),
    // interrupts
    (
        1,
        "I 0 7\n",
        1,
        "disagree record=1 field=cause allowed=none given=0000000000000007\n",
    ),
];

// The input has these records, and another in the place of one of them.
fn give_changed(
    streams: &mut Streams,
    records: &[&str],
    at: usize,
    record: &str,
) -> Result<(), OutFault> {
    let mut n: usize = 0;
    for &text in records {
        let given = if n == at { record } else { text };
        streams.give(given.as_bytes())?;
        n = n.wrapping_add(1);
    }
    Ok(())
}

// What is reported where one record is changed.
fn expect_change(
    rt: &impl Abort,
    alloc: Global,
    judged: &Judged,
    change: Change,
) -> Result<(), Fail> {
    let (at, record, code, report) = change;
    let call = Call {
        line: "cosim --config c",
        code,
        report,
        ..NOTHING
    };
    let all = [("c", judged.config), ("p.elf", Program(judged.program))];
    let mut files = files_before(rt, alloc, &all)?;
    let mut streams = Streams::before(alloc, &call)?;
    give_changed(&mut streams, judged.records, at, record)?;
    expect_answer(rt, alloc, &mut files, &mut streams, &call, record)
}

#[test]
fn records_with_a_reservation_are_judged(rt: HostRuntime) -> Result<(), Fail> {
    for &change in &RESERVES_CHANGES {
        expect_change(&rt, rt.alloc(), &RESERVES_RUN, change)?;
    }
    Ok(())
}

#[test]
fn records_with_a_reservation_and_lines_of_no_record_are_judged(
    rt: HostRuntime,
) -> Result<(), Fail> {
    for &change in &RESERVES_MORE_CHANGES {
        expect_change(&rt, rt.alloc(), &RESERVES_RUN, change)?;
    }
    Ok(())
}

#[test]
fn records_of_a_store_into_a_reservation_are_judged(rt: HostRuntime) -> Result<(), Fail> {
    for &change in &DISTURBS_CHANGES {
        expect_change(&rt, rt.alloc(), &DISTURBS_RUN, change)?;
    }
    Ok(())
}

#[test]
fn records_of_an_exception_are_judged(rt: HostRuntime) -> Result<(), Fail> {
    for &change in &NOWHERE_CHANGES {
        expect_change(&rt, rt.alloc(), &NOWHERE_RUN, change)?;
    }
    Ok(())
}

#[test]
fn records_of_a_host_word_are_judged(rt: HostRuntime) -> Result<(), Fail> {
    for &change in &SENDS_CHANGES {
        expect_change(&rt, rt.alloc(), &SENDS_RUN, change)?;
    }
    Ok(())
}

#[test]
fn records_of_a_device_are_judged(rt: HostRuntime) -> Result<(), Fail> {
    for &change in &ASKS_CHANGES {
        expect_change(&rt, rt.alloc(), &ASKS_RUN, change)?;
    }
    Ok(())
}

#[test]
fn records_of_an_interrupt_are_judged(rt: HostRuntime) -> Result<(), Fail> {
    for &change in &INTERRUPTED_CHANGES {
        expect_change(&rt, rt.alloc(), &INTERRUPTED_RUN, change)?;
    }
    Ok(())
}

#[test]
fn records_of_an_interrupt_that_is_not_enabled_are_judged(rt: HostRuntime) -> Result<(), Fail> {
    for &change in &ENABLES_CHANGES {
        expect_change(&rt, rt.alloc(), &ENABLES_RUN, change)?;
    }
    Ok(())
}
