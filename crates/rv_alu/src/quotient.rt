//! Quotients and remainders, which are defined at a divisor of zero too.

ghost use Rattle.std.specs.Prelude.{◌≡◌};
ghost use Rattle.rv_alu.specs.Arithmetic.{quotient, remainder, unsigned_quotient, unsigned_remainder};

/// The signed quotient of 64 bits, rounded toward zero: all ones where `b` is zero, and the least
/// number where that is divided by -1.
pub(crate) fn divide(a: u64, b: u64) -> u64
    ensures { result ≡ quotient 64 a b }
{
    if b == 0 {
        u64::MAX
    } else {
        a.cast_signed()
            .wrapping_div(b.cast_signed())
            .cast_unsigned()
    }
}

/// The signed remainder of 64 bits, with the dividend's sign: `a` where `b` is zero.
pub(crate) fn remain(a: u64, b: u64) -> u64
    ensures { result ≡ remainder 64 a b }
{
    if b == 0 {
        a
    } else {
        a.cast_signed()
            .wrapping_rem(b.cast_signed())
            .cast_unsigned()
    }
}

/// The unsigned quotient of 64 bits: all ones where `b` is zero.
pub(crate) fn divide_unsigned(a: u64, b: u64) -> u64
    ensures { result ≡ unsigned_quotient 64 a b }
{
    if b == 0 { u64::MAX } else { a / b }
}

/// The unsigned remainder of 64 bits: `a` where `b` is zero.
pub(crate) fn remain_unsigned(a: u64, b: u64) -> u64
    ensures { result ≡ unsigned_remainder a b }
{
    if b == 0 { a } else { a % b }
}
