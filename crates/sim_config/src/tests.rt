//! Each public call, on texts whose values and faults were worked out by hand from the table of keys.

use crate::{ConfigFault, Meta, Shape, meta_text, read_config, read_meta};
use std::alloc::Global;
use std::process::Abort;
use std::test::Fail;

// A row has the values of the first four keys, then further members, and after the mark the answer.
const CONFIGURATIONS: &str = "
1 65536 1 \"p.elf\" > Ok(Config { harts: 1, ram: 65536, slice: 1, program: Name { text: \"p.elf\" }, tohost: None })
1 65536 1 \"p\" ,\"tohost\":0 > Ok(Config { harts: 1, ram: 65536, slice: 1, program: Name { text: \"p\" }, tohost: Some(0) })
1 65536 5 \"p\" ,\"tohost\":2147487744 > Ok(Config { harts: 1, ram: 65536, slice: 5, program: Name { text: \"p\" }, tohost: Some(2147487744) })
1 268435456 1024 \"\\u0061\" ,\"tohost\":2147483648 > Ok(Config { harts: 1, ram: 268435456, slice: 1024, program: Name { text: \"a\" }, tohost: Some(2147483648) })
1 65536 1 \"p\" ,\"tohost\":2147549176 > Ok(Config { harts: 1, ram: 65536, slice: 1, program: Name { text: \"p\" }, tohost: Some(2147549176) })
9 65537 1 2 ,\"harts\":1,\"ram\":69632,\"program\":\"q\" > Ok(Config { harts: 1, ram: 69632, slice: 1, program: Name { text: \"q\" }, tohost: None })
2 65536 1 \"p.elf\" > Ok(Config { harts: 2, ram: 65536, slice: 1, program: Name { text: \"p.elf\" }, tohost: None })
8 65536 1 \"p\" > Ok(Config { harts: 8, ram: 65536, slice: 1, program: Name { text: \"p\" }, tohost: None })
0 65536 1 \"p\" > Err(OutOfRange(Harts))
9 65536 1 \"p\" > Err(OutOfRange(Harts))
1.0 65536 1 \"p\" > Err(WrongKind(Harts))
1e0 65536 1 \"p\" > Err(WrongKind(Harts))
-1 65536 1 \"p\" > Err(WrongKind(Harts))
-0 65536 1 \"p\" > Err(WrongKind(Harts))
\"1\" 65536 1 \"p\" > Err(WrongKind(Harts))
true 65536 1 \"p\" > Err(WrongKind(Harts))
[1] 65536 1 \"p\" > Err(WrongKind(Harts))
18446744073709551615 65536 1 \"p\" > Err(OutOfRange(Harts))
18446744073709551616 65536 1 \"p\" > Err(WrongKind(Harts))
01 65536 1 \"p\" > Err(NotJson)
+1 65536 1 \"p\" > Err(NotJson)
1e400 65536 1 \"p\" > Err(NotJson)
1 61440 1 \"p\" > Err(OutOfRange(Ram))
1 65535 1 \"p\" > Err(OutOfRange(Ram))
1 65537 1 \"p\" > Err(OutOfRange(Ram))
1 268439552 1 \"p\" > Err(OutOfRange(Ram))
1 {} 1 \"p\" > Err(WrongKind(Ram))
1 65536 0 \"p\" > Err(OutOfRange(Slice))
1 65536 1025 \"p\" > Err(OutOfRange(Slice))
1 65536 \"1\" \"p\" > Err(WrongKind(Slice))
1 65536 1 \"\" > Err(OutOfRange(Program))
1 65536 1 1 > Err(WrongKind(Program))
1 65536 1 null > Err(WrongKind(Program))
1 65536 1 \"p\" ,\"tohost\":8 > Err(OutOfRange(Tohost))
1 65536 1 \"p\" ,\"tohost\":2147483640 > Err(OutOfRange(Tohost))
1 65536 1 \"p\" ,\"tohost\":2147483652 > Err(OutOfRange(Tohost))
1 65536 1 \"p\" ,\"tohost\":2147549184 > Err(OutOfRange(Tohost))
1 65536 1 \"p\" ,\"tohost\":18446744073709551608 > Err(OutOfRange(Tohost))
1 65536 1 \"p\" ,\"tohost\":null > Err(WrongKind(Tohost))
1 65536 1 \"p\" ,\"harts\":9 > Err(OutOfRange(Harts))
true 1 0 \"\" ,\"tohost\":1 > Err(WrongKind(Harts))
1 1 true \"\" ,\"tohost\":1 > Err(OutOfRange(Ram))
1 65536 1 \"\" ,\"tohost\":1 > Err(OutOfRange(Program))
1 65536 1 \"\" ,\"rom\":0 > Err(Unknown(Name { text: \"rom\" }))
1 65536 1 \"p\" ,\"x\":0 > Err(Unknown(Name { text: \"x\" }))
";

// A row has a text and its answer.
const OTHER_CONFIGURATIONS: &str = "
 > Err(NotJson)
{\"harts\":1,} > Err(NotJson)
{} {} > Err(NotJson)
[] > Err(WrongKind(Top))
1 > Err(WrongKind(Top))
\"harts\" > Err(WrongKind(Top))
{} > Err(Missing(Harts))
{\"harts\":1} > Err(Missing(Ram))
{\"harts\":1,\"ram\":65536,\"program\":\"p\"} > Err(Missing(Slice))
{\"harts\":1,\"ram\":65536,\"slice\":1,\"tohost\":1} > Err(Missing(Program))
{\"\":1} > Err(Unknown(Name { text: \"\" }))
{\"z\":1,\"harts\":1,\"b\":1,\"\\u0061a\":1,\"ab\":1} > Err(Unknown(Name { text: \"aa\" }))
{\"version\":1,\"taken\":0,\"rom\":0,\"top\":1} > Err(Unknown(Name { text: \"rom\" }))
{\"harts \":1,\"Harts\":1} > Err(Unknown(Name { text: \"Harts\" }))
";

// A row has the values of the keys in the order of their bytes, and the answer.
const META_TEXTS: &str = "
1 65536 0 1 0 0 1 > Ok(Meta { shape: Shape { harts: 1, ram: 65536, slice: 1, tohost: 0 }, rom: 0, taken: 0, version: 1 })
8 268435456 131072 1024 1000000000000 2147483648 1 > Ok(Meta { shape: Shape { harts: 8, ram: 268435456, slice: 1024, tohost: 2147483648 }, rom: 131072, taken: 1000000000000, version: 1 })
0 65536 0 1 0 0 1 > Err(OutOfRange(Harts))
9 65536 0 1 0 0 1 > Err(OutOfRange(Harts))
[] 65536 0 1 0 0 1 > Err(WrongKind(Harts))
1 65540 0 1 0 0 1 > Err(OutOfRange(Ram))
1 268439552 0 1 0 0 1 > Err(OutOfRange(Ram))
1 1.5 0 1 0 0 1 > Err(WrongKind(Ram))
1 65536 131073 1 0 0 1 > Err(OutOfRange(Rom))
1 65536 -1 1 0 0 1 > Err(WrongKind(Rom))
1 65536 0 0 0 0 1 > Err(OutOfRange(Slice))
1 65536 0 1025 0 0 1 > Err(OutOfRange(Slice))
1 65536 0 \"1\" 0 0 1 > Err(WrongKind(Slice))
1 65536 0 1 1000000000001 0 1 > Err(OutOfRange(Taken))
1 65536 0 1 false 0 1 > Err(WrongKind(Taken))
1 65536 0 1 0 4 1 > Err(OutOfRange(Tohost))
1 65536 0 1 0 2147549184 1 > Err(OutOfRange(Tohost))
1 65536 0 1 0 null 1 > Err(WrongKind(Tohost))
1 65536 0 1 0 0 0 > Err(OutOfRange(Version))
1 65536 0 1 0 0 2 > Err(OutOfRange(Version))
1 65536 0 1 0 0 \"1\" > Err(WrongKind(Version))
1 65536 9999999 1 true 0 2 > Err(OutOfRange(Rom))
1 65536 9999999 1 true 1 2 > Err(OutOfRange(Tohost))
1 65536 0 1 true 0 2 > Err(WrongKind(Taken))
1 65536 0 1 0 0 1,\"ram\":0 > Err(OutOfRange(Ram))
1 65536 0 1 0 0 1,\"program\":\"p\" > Err(Unknown(Name { text: \"program\" }))
";

// A row has a text and its answer.
const OTHER_META_TEXTS: &str = "
{\"ram\":65536,\"rom\":0,\"slice\":1,\"taken\":0,\"tohost\":0,\"version\":1} > Err(Missing(Harts))
{\"harts\":1,\"rom\":0,\"slice\":1,\"taken\":0,\"tohost\":0,\"version\":1} > Err(Missing(Ram))
{\"harts\":1,\"ram\":65536,\"slice\":1,\"taken\":0,\"tohost\":0,\"version\":1} > Err(Missing(Rom))
{\"harts\":1,\"ram\":65536,\"rom\":0,\"taken\":0,\"tohost\":0,\"version\":1} > Err(Missing(Slice))
{\"harts\":1,\"ram\":65536,\"rom\":0,\"slice\":1,\"tohost\":0,\"version\":1} > Err(Missing(Taken))
{\"harts\":1,\"ram\":65536,\"slice\":1,\"version\":1} > Err(Missing(Tohost))
{\"harts\":1,\"ram\":65536,\"rom\":0,\"slice\":1,\"taken\":0,\"tohost\":0} > Err(Missing(Version))
[{}] > Err(WrongKind(Top))
";

const CONFIG_PARTS: [&str; 5] = [
    "{\"harts\":",
    ",\"ram\":",
    ",\"slice\":",
    ",\"program\":",
    "",
];

const META_PARTS: [&str; 7] = [
    "{\"harts\":",
    ",\"ram\":",
    ",\"rom\":",
    ",\"slice\":",
    ",\"taken\":",
    ",\"tohost\":",
    ",\"version\":",
];

// The parts, each with its value, and a closing brace.
fn joined(alloc: Global, parts: &[&str], values: &str) -> Result<String, Fail> {
    let mut text = String::new(alloc);
    for (part, value) in parts.iter().zip(values.split(' ')) {
        text.push_str(part)?;
        text.push_str(value)?;
    }
    text.push_str("}")?;
    Ok(text)
}

fn expect_config(rt: &impl Abort, alloc: Global, text: &str, want: &str) -> Result<(), Fail> {
    let answer = read_config(alloc, text.as_bytes());
    let told = format!(in alloc; "{answer:?}")?;
    assert_eq!(rt; told.as_str(), want, "{text}");
    Ok(())
}

fn expect_meta(rt: &impl Abort, alloc: Global, text: &str, want: &str) -> Result<(), Fail> {
    let answer = read_meta(alloc, text.as_bytes());
    let told = format!(in alloc; "{answer:?}")?;
    assert_eq!(rt; told.as_str(), want, "{text}");
    Ok(())
}

#[test]
fn configurations_have_values_or_a_fault(rt: HostRuntime) -> Result<(), Fail> {
    for row in CONFIGURATIONS.lines() {
        let Some((values, want)) = row.split_once(" > ") else {
            assert!(rt; row.is_empty(), "{row}");
            continue;
        };
        let text = joined(rt.alloc(), &CONFIG_PARTS, values)?;
        expect_config(&rt, rt.alloc(), text.as_str(), want)?;
    }
    for row in OTHER_CONFIGURATIONS.lines() {
        let Some((text, want)) = row.split_once(" > ") else {
            assert!(rt; row.is_empty(), "{row}");
            continue;
        };
        expect_config(&rt, rt.alloc(), text, want)?;
    }
    Ok(())
}

#[test]
fn meta_texts_have_values_or_a_fault(rt: HostRuntime) -> Result<(), Fail> {
    for row in META_TEXTS.lines() {
        let Some((values, want)) = row.split_once(" > ") else {
            assert!(rt; row.is_empty(), "{row}");
            continue;
        };
        let text = joined(rt.alloc(), &META_PARTS, values)?;
        expect_meta(&rt, rt.alloc(), text.as_str(), want)?;
    }
    for row in OTHER_META_TEXTS.lines() {
        let Some((text, want)) = row.split_once(" > ") else {
            assert!(rt; row.is_empty(), "{row}");
            continue;
        };
        expect_meta(&rt, rt.alloc(), text, want)?;
    }
    Ok(())
}

#[test]
fn bytes_that_are_no_text_are_no_json(rt: HostRuntime) {
    let alone = read_config(rt.alloc(), b"{\"\xff\":1}");
    assert_eq!(rt; alone, Err(ConfigFault::NotJson));
    let half_a_pair = read_meta(rt.alloc(), b"{\"\xed\xa0\x80\":1}");
    assert_eq!(rt; half_a_pair, Err(ConfigFault::NotJson));
}

// A configuration that has so many bytes.
fn expect_length(rt: &impl Abort, alloc: Global, length: usize, want: &str) -> Result<(), Fail> {
    let mut text = joined(alloc, &CONFIG_PARTS, "1 65536 1 \"p\"")?;
    for _ in text.len()..length {
        text.push(' ')?;
    }
    assert_eq!(rt; text.len(), length);
    expect_config(rt, alloc, text.as_str(), want)
}

// An object round so many arrays.
fn expect_depth(rt: &impl Abort, alloc: Global, arrays: usize, want: &str) -> Result<(), Fail> {
    let mut text = String::from_str(alloc, "{\"x\":")?;
    for _ in 0..arrays {
        text.push('[')?;
    }
    for _ in 0..arrays {
        text.push(']')?;
    }
    text.push('}')?;
    expect_config(rt, alloc, text.as_str(), want)
}

#[test]
fn texts_have_a_limit_of_length_and_depth(rt: HostRuntime) -> Result<(), Fail> {
    let values =
        "Ok(Config { harts: 1, ram: 65536, slice: 1, program: Name { text: \"p\" }, tohost: None })";
    expect_length(&rt, rt.alloc(), 65_536, values)?;
    expect_length(&rt, rt.alloc(), 65_537, "Err(TooLong(65537))")?;
    expect_depth(&rt, rt.alloc(), 126, "Err(Unknown(Name { text: \"x\" }))")?;
    expect_depth(&rt, rt.alloc(), 127, "Err(NotJson)")
}

// The values are written as this text, which reads back, and no front of it is a text.
fn expect_written(rt: &impl Abort, alloc: Global, meta: Meta, want: &str) -> Result<(), Fail> {
    assert_eq!(rt; meta.version, 1);
    let text = meta_text(alloc, &meta)?;
    assert_eq!(rt; text.as_slice(), want.as_bytes());
    assert_eq!(rt; read_meta(alloc, &text), Ok(meta));
    for end in 0..text.len() {
        assert_eq!(rt;
            read_meta(alloc, &text[..end]),
            Err(ConfigFault::NotJson),
            "{end}"
        );
    }
    Ok(())
}

fn meta(harts: u8, ram: u64, rom: u64, slice: u16, taken: u64, tohost: u64) -> Meta {
    let shape = Shape {
        harts,
        ram,
        slice,
        tohost,
    };
    Meta {
        shape,
        rom,
        taken,
        version: 1,
    }
}

#[test]
fn a_meta_text_is_written_and_reads_back(rt: HostRuntime) -> Result<(), Fail> {
    expect_written(
        &rt,
        rt.alloc(),
        meta(1, 65_536, 1_000, 1, 0, 0),
        "{\"harts\":1,\"ram\":65536,\"rom\":1000,\"slice\":1,\"taken\":0,\"tohost\":0,\"version\":1}",
    )?;
    expect_written(
        &rt,
        rt.alloc(),
        meta(
            8,
            268_435_456,
            131_072,
            1_024,
            1_000_000_000_000,
            0x8fff_fff8,
        ),
        "{\"harts\":8,\"ram\":268435456,\"rom\":131072,\"slice\":1024,\"taken\":1000000000000,\"tohost\":2415919096,\"version\":1}",
    )
}
