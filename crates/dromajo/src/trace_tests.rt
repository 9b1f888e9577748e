//! Calls of the whole program with a trace. The words of the programs are an assembler's (llvm-mc), each with
//! its assembly beside it, and the lines are reckoned by hand.

use crate::test_files::Content::{Absent, Image, Program, Text};
use crate::test_files::{File, bytes_of};
use crate::test_support::{Call, NOTHING, expect_call, same, streams_after};
use outside_io::DirFiles;
use std::fs;
use std::test::Fail;

const ONE_STEP: &str = "{\"harts\":1,\"ram\":65536,\"slice\":1,\"program\":\"p.elf\"}";

const TWO_HARTS: &str = "{\"harts\":2,\"ram\":65536,\"slice\":1,\"program\":\"p.elf\"}";

const WINDOW: &str =
    "{\"harts\":1,\"ram\":65536,\"slice\":5,\"program\":\"p.elf\",\"tohost\":2147487744}";

// Hart 0 reserves and stores at 0x80000100, and hart 1 goes to the ninth word, which does nothing.
const RESERVES: [u32; 10] = [
    0xf140_2573, // csrrs x10,mhartid,x0
    0x0000_0597, // auipc x11,0
    0x0fc5_8593, // addi x11,x11,0xfc
    0x0005_1a63, // bne x10,x0,0x14
    0x1005_a62f, // lr.w x12,(x11)
    0x18b5_a6af, // sc.w x13,x11,(x11)
    0x0005_a703, // lw x14,0(x11)
    0x0000_006f, // jal x0,0
    0x0000_0013, // addi x0,x0,0
    0x0000_006f, // jal x0,0
];

// The same, and the ninth word stores into the reserved bytes.
const DISTURBS: [u32; 10] = [
    0xf140_2573, // csrrs x10,mhartid,x0
    0x0000_0597, // auipc x11,0
    0x0fc5_8593, // addi x11,x11,0xfc
    0x0005_1a63, // bne x10,x0,0x14
    0x1005_a62f, // lr.w x12,(x11)
    0x18b5_a6af, // sc.w x13,x11,(x11)
    0x0005_a703, // lw x14,0(x11)
    0x0000_006f, // jal x0,0
    0x00b5_83a3, // sb x11,7(x11)
    0x0000_006f, // jal x0,0
];

// A load where no memory and no device is.
const NOWHERE: [u32; 2] = [
    0x0001_02b7, // lui x5,0x10
    0x0002_a303, // lw x6,0(x5)
];

// A word that sends a letter through the host window.
const SENDS: [u32; 6] = [
    0x1010_0293, // addi x5,x0,0x101
    0x0302_9293, // slli x5,x5,0x30
    0x0412_e293, // ori x5,x5,0x41
    0x0000_1317, // auipc x6,1
    0xfe53_3a23, // sd x5,-12(x6)
    0x0000_006f, // jal x0,0
];

// What stands in the file of the trace before it is started.
const OLD: File = ("t", Text("what stood there before\n"));

const NOWHERE_LINES: &str = "C 0 M 0000000080000000 000102b7 x5 0000000000010000\n\
                             X 0 M 0000000080000004 5 0000000000010000\n";

static TRACED: [Call<'static>; 8] = [
    Call {
        line: "run --config c --turns 7 --trace t",
        files: &[("c", Text(TWO_HARTS)), ("p.elf", Program(&RESERVES)), OLD],
        report: "done turns=7 taken=0\n",
        after: &[
            ("c", Text(TWO_HARTS)),
            (
                "t",
                Text(
                    "C 0 M 0000000080000000 f1402573 x10 0000000000000000\n\
         C 1 M 0000000080000000 f1402573 x10 0000000000000001\n\
         C 0 M 0000000080000004 00000597 x11 0000000080000004\n\
         C 1 M 0000000080000004 00000597 x11 0000000080000004\n\
         C 0 M 0000000080000008 0fc58593 x11 0000000080000100\n\
         C 1 M 0000000080000008 0fc58593 x11 0000000080000100\n\
         C 0 M 000000008000000c 00051a63\n\
         C 1 M 000000008000000c 00051a63\n\
         C 0 M 0000000080000010 1005a62f x12 0000000000000000\n\
         C 1 M 0000000080000020 00000013\n\
         C 0 M 0000000080000014 18b5a6af x13 0000000000000000 st 0000000080000100 4 80000100\n\
         C 1 M 0000000080000024 0000006f\n\
         C 0 M 0000000080000018 0005a703 x14 ffffffff80000100\n\
         C 1 M 0000000080000024 0000006f\n",
                ),
            ),
        ],
        ..NOTHING
    },
    Call {
        line: "run --config c --turns 7 --trace t",
        files: &[("c", Text(TWO_HARTS)), ("p.elf", Program(&DISTURBS)), OLD],
        report: "done turns=7 taken=0\n",
        after: &[
            ("c", Text(TWO_HARTS)),
            (
                "t",
                Text(
                    "C 0 M 0000000080000000 f1402573 x10 0000000000000000\n\
         C 1 M 0000000080000000 f1402573 x10 0000000000000001\n\
         C 0 M 0000000080000004 00000597 x11 0000000080000004\n\
         C 1 M 0000000080000004 00000597 x11 0000000080000004\n\
         C 0 M 0000000080000008 0fc58593 x11 0000000080000100\n\
         C 1 M 0000000080000008 0fc58593 x11 0000000080000100\n\
         C 0 M 000000008000000c 00051a63\n\
         C 1 M 000000008000000c 00051a63\n\
         C 0 M 0000000080000010 1005a62f x12 0000000000000000\n\
         C 1 M 0000000080000020 00b583a3 st 0000000080000107 1 00\n\
         C 0 M 0000000080000014 18b5a6af x13 0000000000000001\n\
         C 1 M 0000000080000024 0000006f\n\
         C 0 M 0000000080000018 0005a703 x14 0000000000000000\n\
         C 1 M 0000000080000024 0000006f\n",
                ),
            ),
        ],
        ..NOTHING
    },
    Call {
        line: "run --config c --turns 2 --trace t",
        files: &[("c", Text(ONE_STEP)), ("p.elf", Program(&NOWHERE)), OLD],
        report: "done turns=2 taken=0\n",
        after: &[("c", Text(ONE_STEP)), ("t", Text(NOWHERE_LINES))],
        ..NOTHING
    },
    Call {
        line: "run --config c --turns 1 --trace t",
        files: &[("c", Text(WINDOW)), ("p.elf", Program(&SENDS)), OLD],
        report: "done turns=1 taken=0\n",
        console: "A",
        after: &[
            ("c", Text(WINDOW)),
            (
                "t",
                Text(
                    "C 0 M 0000000080000000 10100293 x5 0000000000000101\n\
         C 0 M 0000000080000004 03029293 x5 0101000000000000\n\
         C 0 M 0000000080000008 0412e293 x5 0101000000000041\n\
         C 0 M 000000008000000c 00001317 x6 000000008000100c\n\
         C 0 M 0000000080000010 fe533a23 st 0000000080001000 8 0101000000000041\n\
         H 0101000000000041\n",
                ),
            ),
        ],
        ..NOTHING
    },
    // the empty image: the word of zeros is no instruction, and the handler at 0 is no memory
    Call {
        line: "run --image a.bin --turns 1 --trace t",
        files: &[("a.bin", Image(&[], 0)), OLD],
        report: "done turns=1 taken=0\n",
        after: &[(
            "t",
            Text(
                "X 0 M 0000000080000000 2 0000000000000000\n\
         X 0 M 0000000000000000 1 0000000000000000\n\
         X 0 M 0000000000000000 1 0000000000000000\n\
         X 0 M 0000000000000000 1 0000000000000000\n\
         X 0 M 0000000000000000 1 0000000000000000\n\
         X 0 M 0000000000000000 1 0000000000000000\n\
         X 0 M 0000000000000000 1 0000000000000000\n\
         X 0 M 0000000000000000 1 0000000000000000\n\
         X 0 M 0000000000000000 1 0000000000000000\n\
         X 0 M 0000000000000000 1 0000000000000000\n\
         X 0 M 0000000000000000 1 0000000000000000\n\
         X 0 M 0000000000000000 1 0000000000000000\n\
         X 0 M 0000000000000000 1 0000000000000000\n\
         X 0 M 0000000000000000 1 0000000000000000\n\
         X 0 M 0000000000000000 1 0000000000000000\n\
         X 0 M 0000000000000000 1 0000000000000000\n",
            ),
        )],
        ..NOTHING
    },
    // the configuration is read before a trace takes its place
    Call {
        line: "run --config c --turns 1 --trace c",
        files: &[("c", Text(ONE_STEP)), ("p.elf", Program(&NOWHERE))],
        report: "done turns=1 taken=0\n",
        after: &[
            (
                "c",
                Text("C 0 M 0000000080000000 000102b7 x5 0000000000010000\n"),
            ),
            ("t", Absent),
        ],
        ..NOTHING
    },
    // and so are the program and the image
    Call {
        line: "run --config c --turns 2 --trace p.elf",
        files: &[("c", Text(ONE_STEP)), ("p.elf", Program(&NOWHERE))],
        report: "done turns=2 taken=0\n",
        after: &[("c", Text(ONE_STEP)), ("p.elf", Text(NOWHERE_LINES))],
        ..NOTHING
    },
    Call {
        line: "run --image a.bin --turns 0 --trace a.bin",
        files: &[("a.bin", Image(&NOWHERE, 0))],
        report: "done turns=0 taken=0\n",
        after: &[("a.bin", Text(""))],
        ..NOTHING
    },
];

#[test]
fn each_step_has_its_line(rt: HostRuntime) -> Result<(), Fail> {
    for call in &TRACED {
        expect_call(&rt, rt.alloc(), call)?;
    }
    Ok(())
}

// Calls over the file system: the second trace and the second checkpoint are in a folder that is not there.
static PATHS: [Call<'static>; 5] = [
    Call {
        line: "run --config c --turns 2 --trace t",
        report: "done turns=2 taken=0\n",
        ..NOTHING
    },
    Call {
        line: "run --config c --turns 2 --trace absent/t",
        code: 8,
        report: "write fault files\n",
        ..NOTHING
    },
    Call {
        line: "save --config c --turns 1 --name P",
        report: "done turns=1 taken=0\n",
        ..NOTHING
    },
    Call {
        line: "save --config c --turns 1 --name absent/P",
        code: 8,
        report: "write fault files\n",
        ..NOTHING
    },
    Call {
        line: "load --name P --turns 1 --trace u",
        report: "done turns=1 taken=0\n",
        ..NOTHING
    },
];

// What the files hold after these calls.
static WRITTEN: [(&str, &str); 3] = [
    ("t", NOWHERE_LINES),
    ("u", "X 0 M 0000000080000004 5 0000000000010000\n"),
    (
        "P.json",
        "{\"harts\":1,\"ram\":65536,\"rom\":440,\"slice\":1,\"taken\":0,\"tohost\":0,\"version\":1}",
    ),
];

#[test]
fn files_are_written_to_the_file_system(rt: HostRuntime) -> Result<(), Fail> {
    fs::write(&rt, "c", ONE_STEP)?;
    if let Some(program) = bytes_of(&rt, rt.alloc(), Program(&NOWHERE))? {
        fs::write(&rt, "p.elf", program.as_slice())?;
    }
    for call in &PATHS {
        let mut files = DirFiles::new(&rt);
        streams_after(&rt, rt.alloc(), &mut files, call, call.line)?;
    }
    for &(name, text) in &WRITTEN {
        let got = fs::read_to_string(&rt, name)?;
        same(&rt, &got.as_str(), &text, name, "in the file system");
    }
    for name in ["c", "p.elf", "t", "u", "P.json", "P.mainram", "P.bootram"] {
        fs::remove_file(&rt, name)?;
    }
    Ok(())
}
