//! The job of the words, the numbers of the statuses and the report's texts, as the program's documents
//! put them.

use crate::report::report_line;
use crate::status::{Status, Tally, Which};
use crate::test_support::{same, words_of};
use cosim_check::Field;
use elf_load::{ElfFault, ElfField};
use job_words::{Begin, Job, Work, named_job};
use sim_config::{ConfigFault, Key};
use std::alloc::{AllocError, Global};
use std::process::Abort;

// A job's beginning, its turns, the file of its trace or the checkpoint that it saves, and the turns after a save.
type Parts<'a> = (Begin<'a>, Option<u64>, Option<&'a str>, Option<u64>);

// Words, and the job that they name.
static JOBS: [(&str, Parts<'static>); 19] = [
    (
        "run --image a.bin --turns 1",
        (Begin::Image("a.bin"), Some(1), None, None),
    ),
    (
        "run --turns 1 --image a.bin",
        (Begin::Image("a.bin"), Some(1), None, None),
    ),
    (
        "run --config c --turns 0",
        (Begin::Config("c"), Some(0), None, None),
    ),
    (
        "run --config c --turns 7 --trace t",
        (Begin::Config("c"), Some(7), Some("t"), None),
    ),
    (
        "run --trace t --turns 1000000000 --config c",
        (Begin::Config("c"), Some(1_000_000_000), Some("t"), None),
    ),
    (
        "run --trace e --image e --turns 12345",
        (Begin::Image("e"), Some(12_345), Some("e"), None),
    ),
    (
        "run --image --image --turns 1",
        (Begin::Image("--image"), Some(1), None, None),
    ),
    (
        "load --name P --turns 3 --trace t",
        (Begin::Checkpoint("P"), Some(3), Some("t"), None),
    ),
    (
        "load --turns 0 --name --name",
        (Begin::Checkpoint("--name"), Some(0), None, None),
    ),
    (
        "save --config c --turns 10 --name P",
        (Begin::Config("c"), Some(10), Some("P"), Some(0)),
    ),
    (
        "save --more 2 --name P --turns 0 --config c",
        (Begin::Config("c"), Some(0), Some("P"), Some(2)),
    ),
    (
        "save --turns 1000000000 --config c --more 1000000000 --name c",
        (
            Begin::Config("c"),
            Some(1_000_000_000),
            Some("c"),
            Some(1_000_000_000),
        ),
    ),
    (
        "save --name --more --more 3 --config --name --turns 4",
        (Begin::Config("--name"), Some(4), Some("--more"), Some(3)),
    ),
    ("cosim --config c", (Begin::Config("c"), None, None, None)),
    (
        "run --turns 2 --seed 18446744073709551615",
        (Begin::Seed(18_446_744_073_709_551_615), Some(2), None, None),
    ),
    (
        "run --seed 0 --trace t --turns 1",
        (Begin::Seed(0), Some(1), Some("t"), None),
    ),
    (
        "save --seed 15 --name P --turns 3",
        (Begin::Seed(15), Some(3), Some("P"), Some(0)),
    ),
    ("cosim --seed 7", (Begin::Seed(7), None, None, None)),
    (
        "cosim --config --config",
        (Begin::Config("--config"), None, None, None),
    ),
];

fn parts<'a>(job: &Job<'a>) -> Parts<'a> {
    match &job.work {
        Work::Turns { turns, logs } => (job.begin, Some(*turns), logs.trace(), None),
        Work::Save { turns, name, more } => (job.begin, Some(*turns), Some(*name), Some(*more)),
        Work::Judge => (job.begin, None, None, None),
    }
}

// The words of a line name a job of these parts.
fn expect_job(
    rt: &impl Abort,
    alloc: Global,
    line: &str,
    want: Parts<'_>,
) -> Result<(), AllocError> {
    let words = words_of(alloc, line)?;
    let found = named_job(&words);
    let got = found.as_ref().map(parts);
    same(rt, &got, &Some(want), "the job of", line);
    Ok(())
}

#[test]
fn words_name_their_job(rt: HostRuntime) -> Result<(), AllocError> {
    for &(line, want) in &JOBS {
        expect_job(&rt, rt.alloc(), line, want)?;
    }
    Ok(())
}

// The keys as they are spelled.
static KEYS: [(Key, &str); 9] = [
    (Key::Top, "top"),
    (Key::Harts, "harts"),
    (Key::Ram, "ram"),
    (Key::Rom, "rom"),
    (Key::Slice, "slice"),
    (Key::Program, "program"),
    (Key::Taken, "taken"),
    (Key::Tohost, "tohost"),
    (Key::Version, "version"),
];

// Why a program is refused, and how that is reported.
static ELF_FAULTS: [(ElfFault, &str); 15] = [
    (ElfFault::NotElf, "elf not-elf"),
    (ElfFault::WrongKind(ElfField::Class), "elf wrong-kind class"),
    (ElfFault::WrongKind(ElfField::Order), "elf wrong-kind order"),
    (ElfFault::WrongKind(ElfField::Type2), "elf wrong-kind type"),
    (
        ElfFault::WrongKind(ElfField::Machine),
        "elf wrong-kind machine",
    ),
    (
        ElfFault::WrongKind(ElfField::Phentsize),
        "elf wrong-kind phentsize",
    ),
    (ElfFault::WrongKind(ElfField::Entry), "elf wrong-kind entry"),
    (
        ElfFault::WrongKind(ElfField::Shentsize),
        "elf wrong-kind shentsize",
    ),
    (ElfFault::WrongKind(ElfField::Link), "elf wrong-kind link"),
    (
        ElfFault::WrongKind(ElfField::Tohost),
        "elf wrong-kind tohost",
    ),
    (ElfFault::Truncated(64), "elf truncated 64"),
    (ElfFault::OutsideRam(0), "elf outside-ram 0"),
    (ElfFault::OutsideRam(65_535), "elf outside-ram 65535"),
    (ElfFault::Shrinks(3), "elf shrinks 3"),
    (ElfFault::TooLong(67_108_865), "elf too-long 67108865"),
];

// The status has this number and this line, after what was counted.
fn expect_after(
    rt: &impl Abort,
    alloc: Global,
    tally: Tally,
    status: Status,
    code: u8,
    text: &str,
) -> Result<(), AllocError> {
    same(rt, &status.code(), &code, "the status of", text);
    let line = report_line(alloc, &status, tally)?;
    let report = line.as_str().strip_suffix('\n');
    same(rt, &report, &Some(text), "the report of", text);
    Ok(())
}

// The same, after 12 turns that took 17 bytes.
fn expect(
    rt: &impl Abort,
    alloc: Global,
    status: Status,
    code: u8,
    text: &str,
) -> Result<(), AllocError> {
    let tally = Tally::Turned {
        turns: 12,
        taken: 17,
    };
    expect_after(rt, alloc, tally, status, code, text)
}

// The same, where the text has a name after it.
fn expect_named(
    rt: &impl Abort,
    alloc: Global,
    status: Status,
    code: u8,
    text: &str,
    name: &str,
) -> Result<(), AllocError> {
    let line = format!(in alloc; "{text} {name}")?;
    expect(rt, alloc, status, code, line.as_str())
}

// The faults of a key.
fn expect_key(rt: &impl Abort, alloc: Global, key: Key, name: &str) -> Result<(), AllocError> {
    let status = Status::BadConfig(ConfigFault::Missing(key));
    expect_named(rt, alloc, status, 3, "config missing", name)?;
    let status = Status::BadConfig(ConfigFault::WrongKind(key));
    expect_named(rt, alloc, status, 3, "config wrong-kind", name)?;
    let status = Status::BadConfig(ConfigFault::OutOfRange(key));
    expect_named(rt, alloc, status, 3, "config out-of-range", name)
}

#[test]
fn a_refused_file_is_reported_by_its_fault(rt: HostRuntime) -> Result<(), AllocError> {
    for &(key, name) in &KEYS {
        expect_key(&rt, rt.alloc(), key, name)?;
    }
    for &(fault, text) in &ELF_FAULTS {
        expect(&rt, rt.alloc(), Status::BadElf(fault), 4, text)?;
    }
    Ok(())
}

// Numbers of codes, turns and host words, and the end of a guest and of a run that are reported by them.
static ENDS: [(u64, u64, &str, &str); 3] = [
    (
        1,
        12,
        "guest ended code=1 turn=12",
        "bad host word=0000000000000001 turn=12",
    ),
    (
        2,
        1,
        "guest ended code=2 turn=1",
        "bad host word=0000000000000002 turn=1",
    ),
    (
        0xfedc_ba98_7654_3210,
        1_000_000_000,
        "guest ended code=18364758544493064720 turn=1000000000",
        "bad host word=fedcba9876543210 turn=1000000000",
    ),
];

#[test]
fn an_end_is_reported_by_its_numbers(rt: HostRuntime) -> Result<(), AllocError> {
    let alloc = rt.alloc();
    for &(n, turn, ended, bad) in &ENDS {
        expect(&rt, alloc, Status::GuestEnded { code: n, turn }, 10, ended)?;
        expect(&rt, alloc, Status::BadHostWord { word: n, turn }, 11, bad)?;
    }
    Ok(())
}

#[test]
fn other_statuses_have_their_number_and_line(rt: HostRuntime) -> Result<(), AllocError> {
    let alloc = rt.alloc();
    expect(&rt, alloc, Status::Done, 0, "done turns=12 taken=17")?;
    let usage = "usage: dromajo command --name value";
    expect(&rt, alloc, Status::Usage, 2, usage)?;
    let not_json = Status::BadConfig(ConfigFault::NotJson);
    expect(&rt, alloc, not_json, 3, "config not-json")?;
    let too_long = Status::BadConfig(ConfigFault::TooLong(65_537));
    expect(&rt, alloc, too_long, 3, "config too-long 65537")?;
    expect(&rt, alloc, Status::NoMemory, 9, "no memory")
}

// The fields of a record as they are spelled.
static FIELDS: [(Field, &str); 15] = [
    (Field::Hart, "hart"),
    (Field::Kind, "kind"),
    (Field::Mode, "mode"),
    (Field::Pc, "pc"),
    (Field::Insn, "insn"),
    (Field::Rd, "rd"),
    (Field::Value, "value"),
    (Field::StoreAt, "store-at"),
    (Field::StoreSize, "store-size"),
    (Field::StoreValue, "store-value"),
    (Field::Device, "device"),
    (Field::Volatile, "volatile"),
    (Field::Cause, "cause"),
    (Field::Tval, "tval"),
    (Field::Host, "host"),
];

// The first field that differs, in a record that has it.
fn expect_field(
    rt: &impl Abort,
    alloc: Global,
    field: Field,
    name: &str,
) -> Result<(), AllocError> {
    let status = Status::Disagree {
        n: 999_999_999,
        field,
        allowed: None,
        given: Some(0xfedc_ba98_7654_3210),
    };
    let text = format!(in alloc;
        "disagree record=999999999 field={name} allowed=none given=fedcba9876543210"
    )?;
    expect(rt, alloc, status, 1, text.as_str())
}

#[test]
fn a_record_is_reported_by_its_field(rt: HostRuntime) -> Result<(), AllocError> {
    for &(field, name) in &FIELDS {
        expect_field(&rt, rt.alloc(), field, name)?;
    }
    Ok(())
}

#[test]
fn a_stream_is_reported_by_its_verdict(rt: HostRuntime) -> Result<(), AllocError> {
    let alloc = rt.alloc();
    let (n, field) = (0, Field::Rd);
    let disagree = Status::Disagree {
        n,
        field,
        allowed: Some(13),
        given: None,
    };
    let text = "disagree record=0 field=rd allowed=000000000000000d given=none";
    expect(&rt, alloc, disagree, 1, text)?;
    let bad = Status::BadLine { n: 5, column: 255 };
    expect(&rt, alloc, bad, 12, "bad line record=5 column=255")?;
    let many = Status::TooMany(1_000_000_000);
    expect(&rt, alloc, many, 14, "too many records=1000000000")?;
    let passed = "passed records=14";
    expect_after(&rt, alloc, Tally::Judged(14), Status::Done, 0, passed)
}

// The objects outside.
static OBJECTS: [(Which, &str); 4] = [
    (Which::Files, "files"),
    (Which::Input, "input"),
    (Which::Out, "out"),
    (Which::Report, "report"),
];

#[test]
fn a_fault_is_reported_by_its_object(rt: HostRuntime) -> Result<(), AllocError> {
    let alloc = rt.alloc();
    for &(which, name) in &OBJECTS {
        expect_named(&rt, alloc, Status::ReadFault(which), 7, "read fault", name)?;
        expect_named(
            &rt,
            alloc,
            Status::WriteFault(which),
            8,
            "write fault",
            name,
        )?;
    }
    Ok(())
}
