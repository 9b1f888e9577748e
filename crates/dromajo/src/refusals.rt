//! Why a configuration, a program or a checkpoint is refused, as the report has it.

ghost use Rattle.std.specs.Prelude.{◌≡◌, IfOk, string_bytes};
ghost use Rattle.dromajo.specs.Report.{checkpoint_text, config_text, elf_field_name, elf_text, key_name, part_name, text_fault};

use elf_load::{ElfFault, ElfField};
use image_saver::{LoadFault, Part};
use sim_config::{ConfigFault, Key};
use std::alloc::{AllocError, Global};

/// The name of a field of an ELF file.
fn elf_field_name(field: ElfField) -> &'static str
    ensures { result.now ≡ elf_field_name field }
{
    match field {
        ElfField::Class => "class",
        ElfField::Order => "order",
        ElfField::Type2 => "type",
        ElfField::Machine => "machine",
        ElfField::Phentsize => "phentsize",
        ElfField::Entry => "entry",
        ElfField::Shentsize => "shentsize",
        ElfField::Link => "link",
        ElfField::Tohost => "tohost",
    }
}

/// Why a program is refused.
pub(crate) fn elf_text(alloc: Global, fault: ElfFault) -> Result<String, AllocError>
    ensures { IfOk result (λ text. string_bytes text ≡ elf_text fault) }
{
    match fault {
        ElfFault::NotElf => String::from_str(alloc, "elf not-elf"),
        ElfFault::WrongKind(field) => {
            let name = elf_field_name(field);
            format!(in alloc; "elf wrong-kind {name}")
        }
        ElfFault::Truncated(offset) => format!(in alloc; "elf truncated {offset}"),
        ElfFault::OutsideRam(segment) => format!(in alloc; "elf outside-ram {segment}"),
        ElfFault::Shrinks(segment) => format!(in alloc; "elf shrinks {segment}"),
        ElfFault::TooLong(len) => format!(in alloc; "elf too-long {len}"),
    }
}

/// A key as it is spelled, and `top` for the value as a whole.
fn key_name(key: Key) -> &'static str
    ensures { result.now ≡ key_name key }
{
    match key {
        Key::Top => "top",
        Key::Harts => "harts",
        Key::Ram => "ram",
        Key::Rom => "rom",
        Key::Slice => "slice",
        Key::Program => "program",
        Key::Taken => "taken",
        Key::Tohost => "tohost",
        Key::Version => "version",
    }
}

/// The fault of a configuration or of a meta text.
fn text_fault(alloc: Global, fault: &ConfigFault) -> Result<String, AllocError>
    ensures { IfOk result (λ text. string_bytes text ≡ text_fault fault.now) }
{
    match fault {
        ConfigFault::NotJson => String::from_str(alloc, "not-json"),
        ConfigFault::Missing(key) => {
            let name = key_name(*key);
            format!(in alloc; "missing {name}")
        }
        ConfigFault::Unknown(key) => {
            let name = key.as_str();
            format!(in alloc; "unknown {name}")
        }
        ConfigFault::WrongKind(key) => {
            let name = key_name(*key);
            format!(in alloc; "wrong-kind {name}")
        }
        ConfigFault::OutOfRange(key) => {
            let name = key_name(*key);
            format!(in alloc; "out-of-range {name}")
        }
        ConfigFault::TooLong(len) => format!(in alloc; "too-long {len}"),
        ConfigFault::NoMemory => String::from_str(alloc, "no memory"),
    }
}

/// Why a configuration is refused.
pub(crate) fn config_text(alloc: Global, fault: &ConfigFault) -> Result<String, AllocError>
    ensures { IfOk result (λ text. string_bytes text ≡ config_text fault.now) }
{
    let mut text = String::from_str(alloc, "config ")?;
    let fault = text_fault(alloc, fault)?;
    text.push_str(fault.as_str())?;
    Ok(text)
}

fn part_name(part: Part) -> &'static str
    ensures { result.now ≡ part_name part }
{
    match part {
        Part::Mainram => "mainram",
        Part::Bootram => "bootram",
    }
}

/// Why a checkpoint is refused.
pub(crate) fn checkpoint_text(alloc: Global, fault: &LoadFault) -> Result<String, AllocError>
    ensures { IfOk result (λ text. string_bytes text ≡ checkpoint_text fault.now) }
{
    match fault {
        LoadFault::Meta(fault) => {
            let mut text = String::from_str(alloc, "checkpoint ")?;
            let fault = text_fault(alloc, fault)?;
            text.push_str(fault.as_str())?;
            Ok(text)
        }
        LoadFault::Length { part, want, have } => {
            let name = part_name(*part);
            format!(in alloc; "checkpoint length {name} want={want} have={have}")
        }
        LoadFault::Failed => String::from_str(alloc, "read fault files"),
        LoadFault::NoMemory => String::from_str(alloc, "no memory"),
    }
}
