//! The first record of a stream that is not allowed, as the report has it.

ghost use Rattle.std.specs.Prelude.{◌≡◌, ◌++◌, IfOk, OnOk, string_bytes};
ghost use Rattle.dromajo.specs.Report.{disagree_text, record_field_name, value_text};

use crate::report::push_hex;
use cosim_check::Field;
use std::alloc::{AllocError, Global};

/// The name of a field of a record.
fn record_field_name(field: Field) -> &'static str
    ensures { result.now ≡ record_field_name field }
{
    match field {
        Field::Hart => "hart",
        Field::Kind => "kind",
        Field::Mode => "mode",
        Field::Pc => "pc",
        Field::Insn => "insn",
        Field::Rd => "rd",
        Field::Value => "value",
        Field::StoreAt => "store-at",
        Field::StoreSize => "store-size",
        Field::StoreValue => "store-value",
        Field::Device => "device",
        Field::Volatile => "volatile",
        Field::Cause => "cause",
        Field::Tval => "tval",
        Field::Host => "host",
    }
}

/// Appends a value of a field, or `none` where it has none.
fn push_value(text: &mut String, value: Option<u64>) -> Result<(), AllocError>
    ensures { OnOk result (string_bytes text.new ≡ string_bytes text.old ++ value_text value) }
{
    match value {
        Some(value) => push_hex(text, 16, value),
        None => text.push_str("none"),
    }
}

/// Record `n` is not allowed: the first field that differs, with the value that is allowed and the
/// record's own.
pub(crate) fn disagree_text(
    alloc: Global,
    n: u64,
    field: Field,
    allowed: Option<u64>,
    given: Option<u64>,
) -> Result<String, AllocError>
    ensures { IfOk result (λ text. string_bytes text ≡ disagree_text n field allowed given) }
{
    let name = record_field_name(field);
    let mut text = format!(in alloc; "disagree record={n} field={name} allowed=")?;
    push_value(&mut text, allowed)?;
    text.push_str(" given=")?;
    push_value(&mut text, given)?;
    Ok(text)
}
