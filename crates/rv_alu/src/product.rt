//! The high words of whole products.

ghost use Rattle.std.specs.Prelude.{◌≡◌, ◌*◌, ◌^◌, ◌*ℤ◌, pos};
ghost use Rattle.rv_alu.specs.Arithmetic.{floor_div, modulo};

/// The bits from place 64 up of a whole product.
fn high_word(product: i128) -> u64
    ensures { result ≡ modulo 64 (floor_div product (2 ^ 64)) }
{
    ((product >> 64) as i64).cast_unsigned()
}

/// The high word of the product of two signed numbers.
pub(crate) fn high_signed(a: i64, b: i64) -> u64
    ensures { result ≡ modulo 64 (floor_div (a *ℤ b) (2 ^ 64)) }
{
    high_word(i128::from(a) * i128::from(b))
}

/// The high word of the product of a signed and an unsigned number.
pub(crate) fn high_mixed(a: i64, b: u64) -> u64
    ensures { result ≡ modulo 64 (floor_div (a *ℤ pos b) (2 ^ 64)) }
{
    high_word(i128::from(a) * i128::from(b))
}

/// The high word of the product of two unsigned numbers.
pub(crate) fn high_unsigned(a: u64, b: u64) -> u64
    ensures { result ≡ modulo 64 (floor_div (pos a *ℤ pos b) (2 ^ 64)) }
{
    ((u128::from(a) * u128::from(b)) >> 64) as u64
}
