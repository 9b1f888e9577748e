//! What stands at the keys of an object, and the first fault of it.

ghost use Rattle.std.specs.Prelude.{◌≡◌, option_map, string_bytes, IfSome};
ghost use Rattle.rv_alu.specs.Bits.{is_between};
ghost use Rattle.serde_json.specs.View.{view, members_view};
ghost use Rattle.sim_config.specs.Faults as faults;
ghost use Rattle.sim_config.specs.Keys.{key_order};
ghost use Rattle.sim_config.specs.Reading.{members_of};

use crate::fault::ConfigFault;
use crate::keys::{Form, Key, Kind, ORDER, Rule, is_listed};
use guest_ram::is_in_ram;
use serde_json::{Map, Value};

/// What stands at the key.
fn value_at(value: &Value, key: Key) -> Option<&Value>
    ensures { option_map (λ found. view found.now) result ≡ faults.value_at key (members_of (view value.now)) }
{
    value.get(key.name())
}

/// The number at the key, where a number stands there.
pub(crate) fn number_at(value: &Value, key: Key) -> Option<u64>
    ensures { result ≡ faults.number_at key (members_of (view value.now)) }
{
    value_at(value, key).and_then(Value::as_u64)
}

/// That number, and 0 where there is none.
pub(crate) fn number_in(value: &Value, key: Key) -> u64
    ensures { result ≡ faults.number_in key (members_of (view value.now)) }
{
    number_at(value, key).unwrap_or(0)
}

/// The text at the key, and the empty one where there is none.
pub(crate) fn text_in(value: &Value, key: Key) -> &str
    ensures { result.now ≡ faults.text_in key (members_of (view value.now)) }
{
    match value_at(value, key).and_then(Value::as_str) {
        Some(text) => text,
        None => "",
    }
}

/// Whether the number is from `least` to `most`.
fn is_between(least: u64, most: u64, n: u64) -> bool
    ensures { result ≡ is_between least most n }
{
    least <= n && n <= most
}

/// Whether the number is from `least` to `most`, and a multiple of 4,096.
fn is_pages(least: u64, most: u64, n: u64) -> bool
    ensures { result ≡ faults.is_pages least most n }
{
    is_between(least, most, n) && n % 4_096 == 0
}

/// Whether the number is 0, or a multiple of 8 whose 8 bytes lie in RAM of `ram` bytes.
fn is_window(ram: u64, n: u64) -> bool
    ensures { result ≡ faults.is_window ram n }
{
    n == 0 || (n % 8 == 0 && is_in_ram(ram, n, 8))
}

/// The fault of a value that has the wrong kind, is in its range, or is not.
fn range_fault(key: Key, in_range: Option<bool>) -> Option<ConfigFault>
    ensures { result ≡ faults.range_fault key in_range }
{
    match in_range {
        None => Some(ConfigFault::WrongKind(key)),
        Some(true) => None,
        Some(false) => Some(ConfigFault::OutOfRange(key)),
    }
}

/// The fault of a value that stands at the key, where RAM has `ram` bytes.
fn value_fault(key: Key, kind: Kind, ram: u64, found: &Value) -> Option<ConfigFault>
    ensures { result ≡ faults.value_fault key kind ram (view found.now) }
{
    let in_range = match kind {
        Kind::Number(least, most) => found.as_u64().map(|n| is_between(least, most, n)),
        Kind::Pages(least, most) => found.as_u64().map(|n| is_pages(least, most, n)),
        Kind::Window => found.as_u64().map(|n| is_window(ram, n)),
        Kind::Text => found.as_str().map(|text| !text.is_empty()),
    };
    range_fault(key, in_range)
}

/// The fault of what stands at the key, or of its absence.
fn key_fault(form: Form, value: &Value, key: Key) -> Option<ConfigFault>
    ensures { result ≡ faults.key_fault form (members_of (view value.now)) key }
{
    let ram = number_in(value, Key::Ram);
    match (key.rule(form), value_at(value, key)) {
        (Rule::Required(kind) | Rule::Optional(kind), Some(found)) => {
            value_fault(key, kind, ram, found)
        }
        (Rule::Required(_), None) => Some(ConfigFault::Missing(key)),
        (Rule::Optional(_), None) | (Rule::Unlisted, _) => None,
    }
}

/// The first fault of the keys.
pub(crate) fn keys_fault(form: Form, value: &Value) -> Option<ConfigFault>
    ensures { result ≡ faults.keys_fault form (members_of (view value.now)) key_order }
{
    for key in ORDER {
        if let Some(fault) = key_fault(form, value, key) {
            return Some(fault);
        }
    }
    None
}

/// The first key that is not listed.
pub(crate) fn first_unlisted(form: Form, members: &Map<String, Value>) -> Option<&String>
    ensures first { option_map (λ name. string_bytes name.now) result ≡ faults.first_unlisted form (members_view members.now.entries) }
    ensures least { IfSome result (λ name. faults.IsLeastUnlisted form (members_view members.now.entries) (string_bytes name.now)) }
{
    members.keys().find(|name| !is_listed(form, name.as_str()))
}
