//! Lines that were made outside, each with its event, and lines that stop to be one, with the column
//! that tools/record_columns.py reckons from a list of all shapes of lines.

use crate::{LineBuf, LineFault, one_spelling, read, write};
use hart_step::{Event, Priv, Put};

static SPELLINGS: [(&str, Event); 44] = [
    (
        "X 0 M 0000000080000000 2 0000000000000000",
        Event::Exception {
            hart: 0,
            mode: Priv::M,
            pc: 0x8000_0000,
            cause: 2,
            tval: 0,
        },
    ),
    (
        "X 0 M 0000000000000000 1 0000000000000000",
        Event::Exception {
            hart: 0,
            mode: Priv::M,
            pc: 0,
            cause: 1,
            tval: 0,
        },
    ),
    (
        "X 0 S 0000000040000ffe 12 0000000040001000",
        Event::Exception {
            hart: 0,
            mode: Priv::S,
            pc: 0x4000_0ffe,
            cause: 12,
            tval: 0x4000_1000,
        },
    ),
    (
        "X 0 M 0000000080000004 5 0000000000010000",
        Event::Exception {
            hart: 0,
            mode: Priv::M,
            pc: 0x8000_0004,
            cause: 5,
            tval: 0x0001_0000,
        },
    ),
    (
        "X 0 U 0000000080000000 1 0000000080000000",
        Event::Exception {
            hart: 0,
            mode: Priv::U,
            pc: 0x8000_0000,
            cause: 1,
            tval: 0x8000_0000,
        },
    ),
    (
        "X 0 M 0000000080000018 5 0000000080001000",
        Event::Exception {
            hart: 0,
            mode: Priv::M,
            pc: 0x8000_0018,
            cause: 5,
            tval: 0x8000_1000,
        },
    ),
    (
        "X 7 D ffffffffffffffff 15 ffffffffffffffff",
        Event::Exception {
            hart: 7,
            mode: Priv::D,
            pc: 0xffff_ffff_ffff_ffff,
            cause: 15,
            tval: 0xffff_ffff_ffff_ffff,
        },
    ),
    (
        "C 0 M 0000000080000010 1005a62f x12 0000000000000000",
        Event::Commit {
            hart: 0,
            mode: Priv::M,
            pc: 0x8000_0010,
            insn: 0x1005_a62f,
            rd: Some((12, 0)),
            st: None,
            dv: None,
            vl: None,
        },
    ),
    (
        "C 1 M 0000000080000020 00000013",
        Event::Commit {
            hart: 1,
            mode: Priv::M,
            pc: 0x8000_0020,
            insn: 0x13,
            rd: None,
            st: None,
            dv: None,
            vl: None,
        },
    ),
    (
        "C 1 M 0000000080000024 0000006f",
        Event::Commit {
            hart: 1,
            mode: Priv::M,
            pc: 0x8000_0024,
            insn: 0x6f,
            rd: None,
            st: None,
            dv: None,
            vl: None,
        },
    ),
    (
        "C 0 M 0000000080000014 18b5a6af x13 0000000000000000 st 0000000080000100 4 80000100",
        Event::Commit {
            hart: 0,
            mode: Priv::M,
            pc: 0x8000_0014,
            insn: 0x18b5_a6af,
            rd: Some((13, 0)),
            st: Some(Put {
                at: 0x8000_0100,
                size: 4,
                value: 0x8000_0100,
            }),
            dv: None,
            vl: None,
        },
    ),
    (
        "C 0 M 0000000080000018 0005a703 x14 ffffffff80000100",
        Event::Commit {
            hart: 0,
            mode: Priv::M,
            pc: 0x8000_0018,
            insn: 0x0005_a703,
            rd: Some((14, 0xffff_ffff_8000_0100)),
            st: None,
            dv: None,
            vl: None,
        },
    ),
    (
        "C 1 M 0000000080000020 00b583a3 st 0000000080000107 1 00",
        Event::Commit {
            hart: 1,
            mode: Priv::M,
            pc: 0x8000_0020,
            insn: 0x00b5_83a3,
            rd: None,
            st: Some(Put {
                at: 0x8000_0107,
                size: 1,
                value: 0,
            }),
            dv: None,
            vl: None,
        },
    ),
    (
        "C 0 M 0000000080000014 18b5a6af x13 0000000000000001",
        Event::Commit {
            hart: 0,
            mode: Priv::M,
            pc: 0x8000_0014,
            insn: 0x18b5_a6af,
            rd: Some((13, 1)),
            st: None,
            dv: None,
            vl: None,
        },
    ),
    (
        "C 0 M 0000000080000018 0005a703 x14 0000000000000000",
        Event::Commit {
            hart: 0,
            mode: Priv::M,
            pc: 0x8000_0018,
            insn: 0x0005_a703,
            rd: Some((14, 0)),
            st: None,
            dv: None,
            vl: None,
        },
    ),
    (
        "C 0 M 0000000080000000 30046073",
        Event::Commit {
            hart: 0,
            mode: Priv::M,
            pc: 0x8000_0000,
            insn: 0x3004_6073,
            rd: None,
            st: None,
            dv: None,
            vl: None,
        },
    ),
    (
        "C 0 M 0000000080000000 00000e17 x28 0000000080000000",
        Event::Commit {
            hart: 0,
            mode: Priv::M,
            pc: 0x8000_0000,
            insn: 0xe17,
            rd: Some((28, 0x8000_0000)),
            st: None,
            dv: None,
            vl: None,
        },
    ),
    (
        "C 0 M 0000000080000004 400e0e93 x29 0000000080000400",
        Event::Commit {
            hart: 0,
            mode: Priv::M,
            pc: 0x8000_0004,
            insn: 0x400e_0e93,
            rd: Some((29, 0x8000_0400)),
            st: None,
            dv: None,
            vl: None,
        },
    ),
    (
        "C 0 M 0000000080000008 10000f37 x30 0000000010000000",
        Event::Commit {
            hart: 0,
            mode: Priv::M,
            pc: 0x8000_0008,
            insn: 0x1000_0f37,
            rd: Some((30, 0x1000_0000)),
            st: None,
            dv: None,
            vl: None,
        },
    ),
    (
        "C 0 M 000000008000000c f14020f3 x1 0000000000000000",
        Event::Commit {
            hart: 0,
            mode: Priv::M,
            pc: 0x8000_000c,
            insn: 0xf140_20f3,
            rd: Some((1, 0)),
            st: None,
            dv: None,
            vl: None,
        },
    ),
    (
        "C 0 D 0000000000010000 00000097 x1 0000000000010000",
        Event::Commit {
            hart: 0,
            mode: Priv::D,
            pc: 0x0001_0000,
            insn: 0x97,
            rd: Some((1, 0x0001_0000)),
            st: None,
            dv: None,
            vl: None,
        },
    ),
    (
        "C 0 D 0000000000010004 f1402173 x2 0000000000000000",
        Event::Commit {
            hart: 0,
            mode: Priv::D,
            pc: 0x0001_0004,
            insn: 0xf140_2173,
            rd: Some((2, 0)),
            st: None,
            dv: None,
            vl: None,
        },
    ),
    (
        "C 0 M 0000000080000010 fe533a23 st 0000000080001000 8 0101000000000041",
        Event::Commit {
            hart: 0,
            mode: Priv::M,
            pc: 0x8000_0010,
            insn: 0xfe53_3a23,
            rd: None,
            st: Some(Put {
                at: 0x8000_1000,
                size: 8,
                value: 0x0101_0000_0000_0041,
            }),
            dv: None,
            vl: None,
        },
    ),
    (
        "C 0 S 0000000080000000 00b59023 st 0000000080000100 2 0123",
        Event::Commit {
            hart: 0,
            mode: Priv::S,
            pc: 0x8000_0000,
            insn: 0x00b5_9023,
            rd: None,
            st: Some(Put {
                at: 0x8000_0100,
                size: 2,
                value: 0x123,
            }),
            dv: None,
            vl: None,
        },
    ),
    (
        "C 0 M 0000000080000000 00054583 x11 0000000000000041 dv 0000000000000041",
        Event::Commit {
            hart: 0,
            mode: Priv::M,
            pc: 0x8000_0000,
            insn: 0x0005_4583,
            rd: Some((11, 0x41)),
            st: None,
            dv: Some(0x41),
            vl: None,
        },
    ),
    (
        "C 0 U 0000000080000000 c01025f3 x11 0000000000000100 vl 0000000000000100",
        Event::Commit {
            hart: 0,
            mode: Priv::U,
            pc: 0x8000_0000,
            insn: 0xc010_25f3,
            rd: Some((11, 0x100)),
            st: None,
            dv: None,
            vl: Some(0x100),
        },
    ),
    (
        "C 7 D ffffffffffffffff ffffffff x31 ffffffffffffffff st ffffffffffffffff 8 ffffffffffffffff dv ffffffffffffffff vl ffffffffffffffff",
        Event::Commit {
            hart: 7,
            mode: Priv::D,
            pc: 0xffff_ffff_ffff_ffff,
            insn: 0xffff_ffff,
            rd: Some((31, 0xffff_ffff_ffff_ffff)),
            st: Some(Put {
                at: 0xffff_ffff_ffff_ffff,
                size: 8,
                value: 0xffff_ffff_ffff_ffff,
            }),
            dv: Some(0xffff_ffff_ffff_ffff),
            vl: Some(0xffff_ffff_ffff_ffff),
        },
    ),
    (
        "C 0 M 0000000080000000 f1402573 x10 0000000000000000",
        Event::Commit {
            hart: 0,
            mode: Priv::M,
            pc: 0x8000_0000,
            insn: 0xf140_2573,
            rd: Some((10, 0)),
            st: None,
            dv: None,
            vl: None,
        },
    ),
    (
        "C 1 M 0000000080000000 f1402573 x10 0000000000000001",
        Event::Commit {
            hart: 1,
            mode: Priv::M,
            pc: 0x8000_0000,
            insn: 0xf140_2573,
            rd: Some((10, 0x1)),
            st: None,
            dv: None,
            vl: None,
        },
    ),
    (
        "C 0 M 0000000080000004 00000597 x11 0000000080000004",
        Event::Commit {
            hart: 0,
            mode: Priv::M,
            pc: 0x8000_0004,
            insn: 0x597,
            rd: Some((11, 0x8000_0004)),
            st: None,
            dv: None,
            vl: None,
        },
    ),
    (
        "C 1 M 0000000080000004 00000597 x11 0000000080000004",
        Event::Commit {
            hart: 1,
            mode: Priv::M,
            pc: 0x8000_0004,
            insn: 0x597,
            rd: Some((11, 0x8000_0004)),
            st: None,
            dv: None,
            vl: None,
        },
    ),
    (
        "C 0 M 0000000080000008 0fc58593 x11 0000000080000100",
        Event::Commit {
            hart: 0,
            mode: Priv::M,
            pc: 0x8000_0008,
            insn: 0x0fc5_8593,
            rd: Some((11, 0x8000_0100)),
            st: None,
            dv: None,
            vl: None,
        },
    ),
    (
        "C 1 M 0000000080000008 0fc58593 x11 0000000080000100",
        Event::Commit {
            hart: 1,
            mode: Priv::M,
            pc: 0x8000_0008,
            insn: 0x0fc5_8593,
            rd: Some((11, 0x8000_0100)),
            st: None,
            dv: None,
            vl: None,
        },
    ),
    (
        "C 0 M 000000008000000c 00051a63",
        Event::Commit {
            hart: 0,
            mode: Priv::M,
            pc: 0x8000_000c,
            insn: 0x0005_1a63,
            rd: None,
            st: None,
            dv: None,
            vl: None,
        },
    ),
    (
        "C 1 M 000000008000000c 00051a63",
        Event::Commit {
            hart: 1,
            mode: Priv::M,
            pc: 0x8000_000c,
            insn: 0x0005_1a63,
            rd: None,
            st: None,
            dv: None,
            vl: None,
        },
    ),
    (
        "C 0 M 0000000080000000 10100293 x5 0000000000000101",
        Event::Commit {
            hart: 0,
            mode: Priv::M,
            pc: 0x8000_0000,
            insn: 0x1010_0293,
            rd: Some((5, 0x101)),
            st: None,
            dv: None,
            vl: None,
        },
    ),
    (
        "C 0 M 0000000080000004 03029293 x5 0101000000000000",
        Event::Commit {
            hart: 0,
            mode: Priv::M,
            pc: 0x8000_0004,
            insn: 0x0302_9293,
            rd: Some((5, 0x0101_0000_0000_0000)),
            st: None,
            dv: None,
            vl: None,
        },
    ),
    (
        "C 0 M 0000000080000008 0412e293 x5 0101000000000041",
        Event::Commit {
            hart: 0,
            mode: Priv::M,
            pc: 0x8000_0008,
            insn: 0x0412_e293,
            rd: Some((5, 0x0101_0000_0000_0041)),
            st: None,
            dv: None,
            vl: None,
        },
    ),
    (
        "C 0 M 000000008000000c 00001317 x6 000000008000100c",
        Event::Commit {
            hart: 0,
            mode: Priv::M,
            pc: 0x8000_000c,
            insn: 0x1317,
            rd: Some((6, 0x8000_100c)),
            st: None,
            dv: None,
            vl: None,
        },
    ),
    ("I 0 0", Event::Interrupt { hart: 0, cause: 0 }),
    ("I 0 7", Event::Interrupt { hart: 0, cause: 7 }),
    ("I 3 11", Event::Interrupt { hart: 3, cause: 11 }),
    (
        "H 0101000000000041",
        Event::Host {
            word: 0x0101_0000_0000_0041,
        },
    ),
    ("H 0000000000000000", Event::Host { word: 0 }),
];

static MISSES: [(&str, u16); 61] = [
    ("", 0),
    ("C", 1),
    ("C 8", 2),
    ("C  0 M", 2),
    ("c 0 M", 0),
    ("Z", 0),
    ("C 0 H", 4),
    ("C 0 m 0000000080000000", 4),
    ("C 0 M 80000000", 14),
    ("C 0 M 000000008000000A 00000013", 21),
    ("C 0 M 0000000080000000 0013", 27),
    ("C 0 M 0000000080000000 0013 x1", 27),
    ("C 0 M 0000000080000000 000000013", 31),
    ("C 0 M 0000000080000000 00000013 ", 32),
    ("C 0 M 0000000080000000  00000013", 23),
    ("C 0 M 0000000080000000 00000013  x1", 32),
    ("C 0 M 0000000080000000 00000013 y1", 32),
    ("C 0 M 0000000080000000 f1402573 x0 0000000000000000", 33),
    ("C 0 M 0000000080000000 f1402573 x01 0000000000000000", 33),
    ("C 0 M 0000000080000000 f1402573 x32 0000000000000000", 34),
    ("C 0 M 0000000080000000 f1402573 x40 0000000000000000", 34),
    ("C 0 M 0000000080000000 f1402573 x111 0000000000000000", 35),
    ("C 0 M 0000000080000000 f1402573 x3", 34),
    ("C 0 M 0000000080000000 f1402573 x10 000000000000000F", 51),
    (
        "C 0 M 0000000080000000 f1402573 x10 0000000000000000 x11 0000000000000000",
        53,
    ),
    (
        "C 0 M 0000000080000000 00b583a3 st 0000000080000100 3 000000",
        52,
    ),
    (
        "C 0 M 0000000080000000 00b583a3 st 0000000080000100 16 00",
        53,
    ),
    (
        "C 0 M 0000000080000000 00b583a3 st 0000000080000100 1 000",
        56,
    ),
    (
        "C 0 M 0000000080000000 00b583a3 st 0000000080000100 2 012",
        57,
    ),
    (
        "C 0 M 0000000080000000 00b583a3 st 0000000080000100 2 00000123",
        58,
    ),
    (
        "C 0 M 0000000080000000 00b583a3 st 0000000080000100 8 00000123 dv 0000000000000000",
        62,
    ),
    (
        "C 0 M 0000000080000000 00b583a3 st 0000000080000100 1 00 x1 0000000000000000",
        57,
    ),
    (
        "C 0 M 0000000080000000 0005a703 dv 0000000000000041 st 0000000080000100 1 00",
        52,
    ),
    (
        "C 0 M 0000000080000000 0005a703 dv 0000000000000041 x14 0000000000000041",
        52,
    ),
    (
        "C 0 M 0000000080000000 0005a703 vl 0000000000000041 dv 0000000000000041",
        51,
    ),
    ("C 0 M 0000000080000000 0005a703 vl 0000000000000041 ", 51),
    ("C 0 M 0000000080000000 0005a703 st", 34),
    ("C 0 M 0000000080000000 0005a703 dw 0000000000000041", 33),
    ("X 0 M 0000000080000000", 22),
    ("X 0 M 0000000080000000 1", 24),
    ("X 0 M 0000000080000000 00 0000000000000000", 24),
    ("X 0 M 0000000080000000 16 0000000000000000", 24),
    ("X 0 M 0000000080000000 20 0000000000000000", 24),
    ("X 0 M 0000000080000000 2 0000000000000000 ", 41),
    ("X 0 M 0000000080000000 2  0000000000000000", 25),
    ("I", 1),
    ("I 8 7", 2),
    ("I 0", 3),
    ("I 0 ", 4),
    ("I 0 07", 5),
    ("I 0 7 ", 5),
    ("I 0 16", 5),
    ("I 0 100", 6),
    ("I 0 -1", 4),
    ("H", 1),
    ("H 010100000000004", 17),
    ("H 0101000000000041 ", 18),
    ("H 0101000000000041 st", 18),
    ("H 010100000000004G", 17),
    ("h 0101000000000041", 0),
    (" H 0101000000000041", 0),
];

#[test]
fn each_event_is_written_and_read_as_its_line(rt: HostRuntime) {
    let mut buf = LineBuf::new();
    assert_eq!(rt; buf.bytes().len(), 0);
    for (line, event) in &SPELLINGS {
        let bytes = line.as_bytes();
        assert!(rt; bytes.len() <= 131);
        let found = read(bytes);
        assert_eq!(rt; found, Ok(*event), "at {line}");
        if let Ok(event) = found {
            write(&event, &mut buf);
        }
        assert_eq!(rt; buf.bytes(), bytes, "at {line}");
    }
}

#[test]
fn a_line_that_is_no_spelling_has_its_column(rt: HostRuntime) {
    for (line, column) in &MISSES {
        let bytes = line.as_bytes();
        assert!(rt; bytes.len() <= 255);
        assert_eq!(rt;
            read(bytes),
            Err(LineFault { column: *column }),
            "at {line}"
        );
    }
    assert_eq!(rt; read(&[b'C'; 256]), Err(LineFault { column: 1 }));
    assert_eq!(rt; read(b"I 0 7\n"), Err(LineFault { column: 5 }));
    one_spelling();
}

#[test]
fn a_line_takes_255_bytes(rt: HostRuntime) {
    let mut buf = LineBuf::new();
    for place in 0..257 {
        let taken = buf.push(b'C');
        assert_eq!(rt; taken, place < 255, "at {place}");
    }
    assert_eq!(rt; buf.bytes(), [b'C'; 255].as_slice());
    buf.clear();
    assert_eq!(rt; buf.bytes().len(), 0);
}
