//! The arithmetic of the integer instructions of RV64, bits and bytes of words, and the privilege modes:
//! plain calls on 64-bit words that allocate nothing and refuse nothing. What each gives is defined over
//! whole numbers in `specs/Arithmetic.antt`, `specs/Bits.antt` and `specs/Modes.antt`.
#![tactic(auto)]

mod product;
mod quotient;
#[cfg(test)]
mod tests;
mod word;

ghost use Rattle.std.specs.Prelude.{◌≡◌, ◌+◌, ◌%◌, ◌^◌, ◌<◌, ◌≤◌, ◌⊎◌};
ghost use Rattle.rv_alu.specs.Arithmetic.{alu_of, amo_at, amo_value_of, bits_of, is_taken, mul_div_of, sign_extended};
ghost use Rattle.rv_alu.specs.Bits.{has_bit, low_bytes};
ghost use Rattle.rv_alu.specs.Modes.{mode_of};

use product::{high_mixed, high_signed, high_unsigned};
use quotient::{divide, divide_unsigned, remain, remain_unsigned};
use word::{
    amo_word, divide_unsigned_word, divide_word, extended_word, low_word, remain_unsigned_word,
    remain_word,
};

/// A privilege mode, with its number in the `MPP` and `prv` fields (Privileged ISA, "Privilege Levels").
#[derive(Clone, Copy, PartialEq, Eq, Debug)]
pub enum Mode {
    /// User mode.
    U = 0,
    /// Supervisor mode.
    S = 1,
    /// Machine mode.
    M = 3,
}

/// An operation on two registers, or on a register and an immediate (Unprivileged ISA, "Integer
/// Computational Instructions" of RV32I and RV64I). Names that end in `w` work on 32 bits.
#[derive(Clone, Copy)]
pub enum BinOp {
    Add,
    Sub,
    Sll,
    Slt,
    Sltu,
    Xor,
    Srl,
    Sra,
    Or,
    And,
    Addw,
    Subw,
    Sllw,
    Srlw,
    Sraw,
}

/// A multiplication or division (Unprivileged ISA, "M" extension).
#[derive(Clone, Copy)]
pub enum MulOp {
    Mul,
    Mulh,
    Mulhsu,
    Mulhu,
    Div,
    Divu,
    Rem,
    Remu,
    Mulw,
    Divw,
    Divuw,
    Remw,
    Remuw,
}

/// What an atomic memory operation stores (Unprivileged ISA, "A" extension, "Atomic Memory Operations").
#[derive(Clone, Copy)]
pub enum AmoOp {
    Swap,
    Add,
    Xor,
    And,
    Or,
    Min,
    Max,
    Minu,
    Maxu,
}

/// The condition of a branch (Unprivileged ISA, "Conditional Branches").
#[derive(Clone, Copy)]
pub enum CondOp {
    Eq,
    Ne,
    Lt,
    Ge,
    Ltu,
    Geu,
}

/// The `n` bits of `w` from place `lo` up, moved down to place 0.
pub fn bits(w: u64, lo: u8, n: u8) -> u64
    requires { lo + n ≤ 64 }
    ensures { result ≡ bits_of w lo n }
{
    if n == 0 {
        return 0;
    }
    (w >> lo) & (u64::MAX >> (64 - n))
}

/// Whether bit `n` of the word is 1.
pub fn has_bit(w: u64, n: u8) -> bool
    requires { n < 64 }
    ensures { result ≡ has_bit w n }
{
    w >> n & 1 == 1
}

/// The number that the low `size` bytes of a value hold.
pub fn low_bytes(size: u8, value: u64) -> u64
    ensures value { result ≡ low_bytes size value }
    ensures fits { result < 256 ^ size }
{
    if size < 8 {
        bits(value, 0, 8 * size)
    } else {
        value
    }
}

/// The mode of a number in the fields MPP and prv, which never keep 2.
pub fn mode_of(number: u64) -> Mode
    ensures { result ≡ mode_of number }
{
    match number {
        3 => Mode::M,
        1 => Mode::S,
        _ => Mode::U,
    }
}

/// The low `n` bits of `v`, with the sign that they have as a two's-complement number, as 64 bits.
pub fn sext(v: u64, n: u8) -> u64
    requires at_least_one { 1 ≤ n }
    requires at_most_64 { n ≤ 64 }
    ensures { result ≡ sign_extended v n }
{
    let low = bits(v, 0, n);
    let half = 1u64 << (n - 1);
    if low < half {
        low
    } else {
        low.wrapping_sub(half).wrapping_sub(half)
    }
}

/// The value of an operation on the registers' values `a` and `b`. Shifts take the low 6 bits of `b`,
/// and the W forms the low 5.
pub fn alu(op: BinOp, a: u64, b: u64) -> u64
    ensures { result ≡ alu_of op a b }
{
    match op {
        BinOp::Add => a.wrapping_add(b),
        BinOp::Sub => a.wrapping_sub(b),
        BinOp::Sll => a << (b % 64),
        BinOp::Slt => u64::from(a.cast_signed() < b.cast_signed()),
        BinOp::Sltu => u64::from(a < b),
        BinOp::Xor => a ^ b,
        BinOp::Srl => a >> (b % 64),
        BinOp::Sra => (a.cast_signed() >> (b % 64)).cast_unsigned(),
        BinOp::Or => a | b,
        BinOp::And => a & b,
        BinOp::Addw => extended_word(low_word(a).wrapping_add(low_word(b))),
        BinOp::Subw => extended_word(low_word(a).wrapping_sub(low_word(b))),
        BinOp::Sllw => extended_word(low_word(a) << (b % 32)),
        BinOp::Srlw => extended_word(low_word(a) >> (b % 32)),
        BinOp::Sraw => extended_word((low_word(a).cast_signed() >> (b % 32)).cast_unsigned()),
    }
}

/// The value of a multiplication or division of the registers' values `a` and `b`. A quotient by zero
/// is all ones, and a remainder by zero is the dividend; the least signed number divided by -1 gives
/// itself with remainder 0. The W forms work on the low 32 bits and extend the sign of the result.
pub fn mul_div(op: MulOp, a: u64, b: u64) -> u64
    ensures { result ≡ mul_div_of op a b }
{
    match op {
        MulOp::Mul => a.wrapping_mul(b),
        MulOp::Mulh => high_signed(a.cast_signed(), b.cast_signed()),
        MulOp::Mulhsu => high_mixed(a.cast_signed(), b),
        MulOp::Mulhu => high_unsigned(a, b),
        MulOp::Div => divide(a, b),
        MulOp::Divu => divide_unsigned(a, b),
        MulOp::Rem => remain(a, b),
        MulOp::Remu => remain_unsigned(a, b),
        MulOp::Mulw => extended_word(low_word(a).wrapping_mul(low_word(b))),
        MulOp::Divw => extended_word(divide_word(low_word(a), low_word(b))),
        MulOp::Divuw => extended_word(divide_unsigned_word(low_word(a), low_word(b))),
        MulOp::Remw => extended_word(remain_word(low_word(a), low_word(b))),
        MulOp::Remuw => extended_word(remain_unsigned_word(low_word(a), low_word(b))),
    }
}

/// The value that an atomic memory operation stores in `size` bytes, 4 or 8, where `old` was there
/// and `b` is the operand: the low `size` bytes of both count, and the rest of the result is zero.
pub fn amo_value(op: AmoOp, size: u8, old: u64, b: u64) -> u64
    requires { (size ≡ 4) ⊎ (size ≡ 8) }
    ensures { result ≡ amo_value_of op size old b }
{
    if size == 8 {
        amo_double(op, old, b)
    } else {
        u64::from(amo_word(op, low_word(old), low_word(b)))
    }
}

/// What is stored in 8 bytes.
fn amo_double(op: AmoOp, old: u64, b: u64) -> u64
    ensures { result ≡ amo_at op 64 old b }
{
    match op {
        AmoOp::Swap => b,
        AmoOp::Add => old.wrapping_add(b),
        AmoOp::Xor => old ^ b,
        AmoOp::And => old & b,
        AmoOp::Or => old | b,
        AmoOp::Min => if b.cast_signed() < old.cast_signed() {
            b
        } else {
            old
        },
        AmoOp::Max => if old.cast_signed() < b.cast_signed() {
            b
        } else {
            old
        },
        AmoOp::Minu => if b < old { b } else { old },
        AmoOp::Maxu => if old < b { b } else { old },
    }
}

/// Whether a branch on the registers' values `a` and `b` is taken. `Lt` and `Ge` compare signed
/// numbers, `Ltu` and `Geu` unsigned ones.
pub fn branch(op: CondOp, a: u64, b: u64) -> bool
    ensures { result ≡ is_taken op a b }
{
    match op {
        CondOp::Eq => a == b,
        CondOp::Ne => a != b,
        CondOp::Lt => a.cast_signed() < b.cast_signed(),
        CondOp::Ge => a.cast_signed() >= b.cast_signed(),
        CondOp::Ltu => a < b,
        CondOp::Geu => a >= b,
    }
}
