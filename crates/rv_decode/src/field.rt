//! The fields of a 32-bit instruction word.

ghost use Rattle.std.specs.Prelude.{◌≡◌};
ghost use Rattle.rv_decode.specs.Immediates.{csr_of, immediate_b, immediate_i, immediate_j, immediate_s, immediate_u, rd_of, rs1_of, rs2_of, shamt_of, uimm_of, word_shamt_of};

/// The destination register.
pub(crate) fn rd(w: u32) -> u8
    ensures { result ≡ rd_of w }
{
    ((w >> 7) & 0x1f) as u8
}

/// The first source register.
pub(crate) fn rs1(w: u32) -> u8
    ensures { result ≡ rs1_of w }
{
    ((w >> 15) & 0x1f) as u8
}

/// The second source register.
pub(crate) fn rs2(w: u32) -> u8
    ensures { result ≡ rs2_of w }
{
    ((w >> 20) & 0x1f) as u8
}

/// The amount of a shift by 0 to 63.
pub(crate) fn shamt(w: u32) -> u8
    ensures { result ≡ shamt_of w }
{
    ((w >> 20) & 0x3f) as u8
}

/// The amount of a shift by 0 to 31.
pub(crate) fn word_shamt(w: u32) -> u8
    ensures { result ≡ word_shamt_of w }
{
    ((w >> 20) & 0x1f) as u8
}

/// The number of a control and status register.
pub(crate) fn csr(w: u32) -> u16
    ensures { result ≡ csr_of w }
{
    ((w >> 20) & 0xfff) as u16
}

/// The unsigned immediate of the CSR instructions.
pub(crate) fn uimm(w: u32) -> u8
    ensures { result ≡ uimm_of w }
{
    ((w >> 15) & 0x1f) as u8
}

/// The immediate of loads and of operations with an immediate.
pub(crate) fn immediate_i(w: u32) -> i64
    ensures { result ≡ immediate_i w }
{
    i64::from(w.cast_signed() >> 20)
}

/// The offset of a store.
pub(crate) fn immediate_s(w: u32) -> i64
    ensures { result ≡ immediate_s w }
{
    i64::from(((w & 0xfe00_0000).cast_signed() >> 20) + ((w >> 7) & 0x1f) as i32)
}

/// The offset of a branch, which is even.
pub(crate) fn immediate_b(w: u32) -> i64
    ensures { result ≡ immediate_b w }
{
    let low = (((w >> 7) & 1) << 11) + (((w >> 25) & 0x3f) << 5) + (((w >> 8) & 0xf) << 1);
    i64::from(low) - i64::from(w >> 31) * 0x1000
}

/// The upper immediate, a multiple of 4096.
pub(crate) fn immediate_u(w: u32) -> i64
    ensures { result ≡ immediate_u w }
{
    i64::from((w & 0xffff_f000).cast_signed())
}

/// The offset of a jump, which is even.
pub(crate) fn immediate_j(w: u32) -> i64
    ensures { result ≡ immediate_j w }
{
    let low = (((w >> 12) & 0xff) << 12) + (((w >> 20) & 1) << 11) + (((w >> 21) & 0x3ff) << 1);
    i64::from(low) - i64::from(w >> 31) * 0x10_0000
}
