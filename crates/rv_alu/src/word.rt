//! Numbers of 32 bits, which the W forms and the 4-byte atomic operations work on.

ghost use Rattle.std.specs.Prelude.{◌≡◌, ◌%◌, ◌^◌};
ghost use Rattle.rv_alu.specs.Arithmetic.{amo_at, quotient, remainder, sign_extended, unsigned_quotient, unsigned_remainder};

use super::AmoOp;

/// The low 32 bits of a register.
pub(crate) fn low_word(v: u64) -> u32
    ensures { result ≡ v % 2 ^ 32 }
{
    (v & 0xffff_ffff) as u32
}

/// A 32-bit result with its sign, as 64 bits.
pub(crate) fn extended_word(v: u32) -> u64
    ensures { result ≡ sign_extended v 32 }
{
    i64::from(v.cast_signed()).cast_unsigned()
}

/// The signed quotient of 32 bits, rounded toward zero: all ones where `b` is zero, and the least
/// number where that is divided by -1.
pub(crate) fn divide_word(a: u32, b: u32) -> u32
    ensures { result ≡ quotient 32 a b }
{
    if b == 0 {
        u32::MAX
    } else {
        a.cast_signed()
            .wrapping_div(b.cast_signed())
            .cast_unsigned()
    }
}

/// The signed remainder of 32 bits, with the dividend's sign: `a` where `b` is zero.
pub(crate) fn remain_word(a: u32, b: u32) -> u32
    ensures { result ≡ remainder 32 a b }
{
    if b == 0 {
        a
    } else {
        a.cast_signed()
            .wrapping_rem(b.cast_signed())
            .cast_unsigned()
    }
}

/// The unsigned quotient of 32 bits: all ones where `b` is zero.
pub(crate) fn divide_unsigned_word(a: u32, b: u32) -> u32
    ensures { result ≡ unsigned_quotient 32 a b }
{
    if b == 0 { u32::MAX } else { a / b }
}

/// The unsigned remainder of 32 bits: `a` where `b` is zero.
pub(crate) fn remain_unsigned_word(a: u32, b: u32) -> u32
    ensures { result ≡ unsigned_remainder a b }
{
    if b == 0 { a } else { a % b }
}

/// What is stored in 4 bytes.
pub(crate) fn amo_word(op: AmoOp, old: u32, b: u32) -> u32
    ensures { result ≡ amo_at op 32 old b }
{
    match op {
        AmoOp::Swap => b,
        AmoOp::Add => old.wrapping_add(b),
        AmoOp::Xor => old ^ b,
        AmoOp::And => old & b,
        AmoOp::Or => old | b,
        AmoOp::Min => if b.cast_signed() < old.cast_signed() {
            b
        } else {
            old
        },
        AmoOp::Max => if old.cast_signed() < b.cast_signed() {
            b
        } else {
            old
        },
        AmoOp::Minu => if b < old { b } else { old },
        AmoOp::Maxu => if old < b { b } else { old },
    }
}
