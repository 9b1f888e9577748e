//! The fields of a record.

ghost use Rattle.std.specs.Prelude.{◌≡◌};
ghost use Rattle.cosim_check.specs.Fields.{differs_in, exception_value, first_difference, host_value, interrupt_value, mode_number, value_of};

use crate::verdict::Field;
use hart_step::{Event, Priv};

/// The fields in the order in which they are compared.
const FIELDS: [Field; 15] = [
    Field::Hart,
    Field::Kind,
    Field::Mode,
    Field::Pc,
    Field::Insn,
    Field::Rd,
    Field::Value,
    Field::StoreAt,
    Field::StoreSize,
    Field::StoreValue,
    Field::Device,
    Field::Volatile,
    Field::Cause,
    Field::Tval,
    Field::Host,
];

fn mode_number(mode: Priv) -> u64
    ensures { result ≡ mode_number mode }
{
    match mode {
        Priv::U => 0,
        Priv::S => 1,
        Priv::M => 3,
        Priv::D => 4,
    }
}

fn exception_value(field: Field, hart: u8, mode: Priv, pc: u64, cause: u8, tval: u64) -> Option<u64>
    ensures { result ≡ exception_value field hart mode pc cause tval }
{
    match field {
        Field::Hart => Some(u64::from(hart)),
        Field::Kind => Some(1),
        Field::Mode => Some(mode_number(mode)),
        Field::Pc => Some(pc),
        Field::Cause => Some(u64::from(cause)),
        Field::Tval => Some(tval),
        _ => None,
    }
}

fn interrupt_value(field: Field, hart: u8, cause: u8) -> Option<u64>
    ensures { result ≡ interrupt_value field hart cause }
{
    match field {
        Field::Hart => Some(u64::from(hart)),
        Field::Kind => Some(2),
        Field::Cause => Some(u64::from(cause)),
        _ => None,
    }
}

fn host_value(field: Field, word: u64) -> Option<u64>
    ensures { result ≡ host_value field word }
{
    match field {
        Field::Kind => Some(3),
        Field::Host => Some(word),
        _ => None,
    }
}

/// The value of a field in a record.
pub(crate) fn value_of(field: Field, e: &Event) -> Option<u64>
    ensures { result ≡ value_of field e.now }
{
    match *e {
        Event::Commit {
            hart,
            mode,
            pc,
            insn,
            rd,
            st,
            dv,
            vl,
        } => match field {
            Field::Hart => Some(u64::from(hart)),
            Field::Kind => Some(0),
            Field::Mode => Some(mode_number(mode)),
            Field::Pc => Some(pc),
            Field::Insn => Some(u64::from(insn)),
            Field::Rd => rd.map(|rd| u64::from(rd.0)),
            Field::Value => rd.map(|rd| rd.1),
            Field::StoreAt => st.map(|st| st.at),
            Field::StoreSize => st.map(|st| u64::from(st.size)),
            Field::StoreValue => st.map(|st| st.value),
            Field::Device => dv,
            Field::Volatile => vl,
            _ => None,
        },
        Event::Exception {
            hart,
            mode,
            pc,
            cause,
            tval,
        } => exception_value(field, hart, mode, pc, cause, tval),
        Event::Interrupt { hart, cause } => interrupt_value(field, hart, cause),
        Event::Host { word } => host_value(field, word),
    }
}

fn differs(field: Field, allowed: &Event, given: &Event) -> bool
    ensures { result ≡ differs_in allowed.now given.now field }
{
    value_of(field, allowed) != value_of(field, given)
}

/// The first field in which a record differs from the allowed one.
#[tactic(auto, unfolding(crate::specs::Fields::first_difference))]
pub(crate) fn first_difference(allowed: &Event, given: &Event) -> Option<Field>
    ensures { result ≡ first_difference allowed.now given.now }
{
    FIELDS
        .iter()
        .copied()
        .find(|field| differs(*field, allowed, given))
}
