//! Reading the two texts.

ghost use Rattle.std.specs.Prelude.{◌≡◌, ◌≢◌, ◌<◌, ℕ, List, Some, None, IfOk, IfErr, OnOk, IsErrOf, length};
ghost use Rattle.serde_json.specs.Find.{as_object};
ghost use Rattle.serde_json.specs.View.{view};
ghost use Rattle.sim_config.specs.declared.fault.ConfigFault.TheVariants.{NoMemory};
ghost use Rattle.sim_config.specs.Faults.{IsLeastUnlisted};
ghost use Rattle.sim_config.specs.Ranges.{IsConfig, IsMeta};
ghost use Rattle.sim_config.specs.Reading.{config_of, meta_of, members_of, text_fault, text_members, reading, object_fault, longest_text};

use crate::fault::ConfigFault;
use crate::keys::{Form, Key};
use crate::members::{first_unlisted, keys_fault, number_at, number_in, text_in};
use crate::name::Name;
use crate::values::{Config, Meta, Shape};
use serde_json::Value;
use std::alloc::Global;

/// A text has at most so many bytes.
pub const LONGEST_TEXT: u64 = 65_536;

/// The value that the text is.
fn parse(alloc: Global, text: &[u8]) -> Result<Value, ConfigFault>
    ensures ok { IfOk result (λ value. reading text.now ≡ Some (view value)) }
    ensures err { IfErr result (λ fault. fault ≢ NoMemory → (fault ≡ ConfigFault.NotJson) × (reading text.now ≡ None)) }
{
    match Value::from_slice(alloc, text) {
        Ok(value) => Ok(value),
        Err(error) if error.is_memory() => Err(ConfigFault::NoMemory),
        Err(_) => Err(ConfigFault::NotJson),
    }
}

/// Refuses a value that has a fault.
fn check(alloc: Global, form: Form, value: &Value) -> Result<(), ConfigFault>
    ensures ok { OnOk result (object_fault form (as_object (view value.now)) ≡ None) }
    ensures err { IfErr result (λ fault. fault ≢ NoMemory → object_fault form (as_object (view value.now)) ≡ Some fault) }
    ensures least { IfErr result (λ fault. (name : List ℕ) → fault ≡ ConfigFault.Unknown name → IsLeastUnlisted form (members_of (view value.now)) name) }
{
    let Some(members) = value.as_object() else {
        return Err(ConfigFault::WrongKind(Key::Top));
    };
    if let Some(name) = first_unlisted(form, members) {
        return Err(ConfigFault::Unknown(Name::copied(alloc, name.as_str())?));
    }
    match keys_fault(form, value) {
        Some(fault) => Err(fault),
        None => Ok(()),
    }
}

/// The value that the text is, which has no fault.
fn read_checked(alloc: Global, form: Form, text: &[u8]) -> Result<Value, ConfigFault>
    ensures none { OnOk result (text_fault form text.now ≡ None) }
    ensures members { IfOk result (λ value. text_members text.now ≡ members_of (view value)) }
    ensures err { IfErr result (λ fault. fault ≢ NoMemory → text_fault form text.now ≡ Some fault) }
    ensures least { IfErr result (λ fault. (name : List ℕ) → fault ≡ ConfigFault.Unknown name → IsLeastUnlisted form (text_members text.now) name) }
    ensures long { longest_text < length text.now → IsErrOf result (ConfigFault.TooLong (length text.now)) }
{
    if text.len() as u64 > LONGEST_TEXT {
        return Err(ConfigFault::TooLong(text.len() as u64));
    }
    let value = parse(alloc, text)?;
    check(alloc, form, &value)?;
    Ok(value)
}

/// Reads a configuration, which is JSON (RFC 8259): its values, or its first fault.
pub fn read_config(alloc: Global, text: &[u8]) -> Result<Config, ConfigFault>
    ensures ok { IfOk result (λ config. config_of text.now ≡ Ok config) }
    ensures err { IfErr result (λ fault. fault ≢ NoMemory → config_of text.now ≡ Err fault) }
    ensures least { IfErr result (λ fault. (name : List ℕ) → fault ≡ ConfigFault.Unknown name → IsLeastUnlisted Form.Configuration (text_members text.now) name) }
    ensures ranges { IfOk result IsConfig }
    ensures long { longest_text < length text.now → IsErrOf result (ConfigFault.TooLong (length text.now)) }
{
    let value = read_checked(alloc, Form::Configuration, text)?;
    Ok(Config {
        harts: number_in(&value, Key::Harts) as u8,
        ram: number_in(&value, Key::Ram),
        slice: number_in(&value, Key::Slice) as u16,
        program: Name::copied(alloc, text_in(&value, Key::Program))?,
        tohost: number_at(&value, Key::Tohost),
    })
}

/// Reads a meta text, which is JSON (RFC 8259): its values, or its first fault.
pub fn read_meta(alloc: Global, text: &[u8]) -> Result<Meta, ConfigFault>
    ensures ok { IfOk result (λ meta. meta_of text.now ≡ Ok meta) }
    ensures err { IfErr result (λ fault. fault ≢ NoMemory → meta_of text.now ≡ Err fault) }
    ensures least { IfErr result (λ fault. (name : List ℕ) → fault ≡ ConfigFault.Unknown name → IsLeastUnlisted Form.MetaText (text_members text.now) name) }
    ensures ranges { IfOk result IsMeta }
    ensures long { longest_text < length text.now → IsErrOf result (ConfigFault.TooLong (length text.now)) }
{
    let value = read_checked(alloc, Form::MetaText, text)?;
    Ok(Meta {
        shape: Shape {
            harts: number_in(&value, Key::Harts) as u8,
            ram: number_in(&value, Key::Ram),
            slice: number_in(&value, Key::Slice) as u16,
            tohost: number_in(&value, Key::Tohost),
        },
        rom: number_in(&value, Key::Rom),
        taken: number_in(&value, Key::Taken),
        version: number_in(&value, Key::Version),
    })
}
