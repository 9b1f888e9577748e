//! The words of the instructions of a boot ROM. Each is a sum of its fields.

ghost use Rattle.std.specs.Prelude.{◌≡◌, ◌^◌, ◌<◌, ◌≤◌, pos};
ghost use Rattle.rv_alu.specs.Arithmetic.{modulo};
ghost use Rattle.rv_decode.specs.Encode.{encoded, word_long, word_r};
ghost use Rattle.rv_decode.specs.Ranges.{IsSigned};
ghost use Rattle.rv_decode.specs.declared.Insn.{Insn};
ghost use Rattle.rom_gen.specs.Items.{load_insn, store_insn};
ghost use Rattle.rom_gen.specs.Wants.{high_part, low_part};
ghost use Rattle.rom_gen.specs.Writing.{load_value, store_value};

/// The size of an access to a device register.
#[derive(Clone, Copy)]
pub(crate) enum Width {
    /// One byte.
    Byte,
    /// Four bytes.
    Word,
    /// Eight bytes.
    Double,
}

/// A word with fields at bits 7, 15 and 20.
#[tactic(auto, unfolding(rv_decode::specs::Encode::word_r))]
fn word(value: u32, rd: u32, rs1: u32, top: u32) -> u32
    requires value { value ≤ 28799 }
    requires rd { rd < 32 }
    requires rs1 { rs1 < 32 }
    requires top { top < 4096 }
    ensures { result ≡ word_r value rd rs1 top }
{
    value + rd * 128 + rs1 * 32_768 + top * 1_048_576
}

/// A word with fields at bits 7 and 12.
#[tactic(auto, unfolding(rv_decode::specs::Encode::word_long))]
fn long_word(value: u32, rd: u32, top: u32) -> u32
    requires value { value < 128 }
    requires rd { rd < 32 }
    requires top { top < 1048576 }
    ensures { result ≡ word_long value rd top }
{
    value + rd * 128 + top * 4096
}

/// `addi rd, x0, v`, for the low twelve bits of a value.
#[tactic(auto, using(crate::proofs::Fields::small_word_is))]
pub(crate) fn small(rd: u32, v: u64) -> u32
    requires rd { rd < 32 }
    ensures { result ≡ encoded (Insn.Addi rd 0 (low_part v)) }
{
    word(0x13, rd, 0, (v % 4096) as u32)
}

/// `addiw rd, rd, v`, for the low twelve bits of a value.
#[tactic(auto, using(crate::proofs::Fields::low_word_is))]
pub(crate) fn low(rd: u32, v: u64) -> u32
    requires rd { rd < 32 }
    ensures { result ≡ encoded (Insn.Addiw rd rd (low_part v)) }
{
    word(0x1b, rd, rd, (v % 4096) as u32)
}

/// `lui rd, v`, for what `addiw` adds the low twelve bits of a value to, which are a signed number.
#[tactic(auto, using(crate::proofs::Fields::high_word_is, crate::proofs::Fields::wrapped))]
pub(crate) fn high(rd: u32, v: u64) -> u32
    requires rd { rd < 32 }
    ensures { result ≡ encoded (Insn.Lui rd (high_part v)) }
{
    long_word(0x37, rd, (v.wrapping_add(2048) / 4096 % 1_048_576) as u32)
}

/// `lui rd, v`, for an address whose low twelve bits are 0.
#[tactic(auto, using(crate::proofs::Fields::aim_is))]
pub(crate) fn upper(rd: u32, v: u32) -> u32
    requires rd { rd < 32 }
    requires v { v < 2 ^ 31 }
    ensures { result ≡ encoded (Insn.Lui rd (pos v)) }
{
    long_word(0x37, rd, v / 4096)
}

/// `ld rd, off(x1)`.
#[tactic(auto, unfolding(rv_decode::specs::Encode::encoded))]
pub(crate) fn pooled(rd: u32, off: u32) -> u32
    requires rd { rd < 32 }
    requires off { off < 2048 }
    ensures { result ≡ encoded (Insn.Ld rd 1 (pos off)) }
{
    word(0x3003, rd, 1, off)
}

/// `csrrw x0, number, rs1`.
#[tactic(auto, unfolding(rv_decode::specs::Encode::encoded))]
pub(crate) fn csr(number: u32, rs1: u32) -> u32
    requires number { number < 4096 }
    requires rs1 { rs1 < 32 }
    ensures { result ≡ encoded (Insn.Csrrw 0 rs1 number) }
{
    word(0x1073, 0, rs1, number)
}

/// `csrrwi x0, number, v`.
#[tactic(auto, unfolding(rv_decode::specs::Encode::encoded))]
pub(crate) fn csr_small(number: u32, v: u32) -> u32
    requires number { number < 4096 }
    requires v { v < 32 }
    ensures { result ≡ encoded (Insn.Csrrwi 0 v number) }
{
    word(0x5073, 0, v, number)
}

/// The immediate of an offset, of twelve bits.
fn field(off: i64) -> u32
    requires { IsSigned 12 off }
    ensures value { result ≡ modulo 12 off }
    ensures range { result < 4096 }
{
    (off.cast_unsigned() % 4096) as u32
}

/// The fixed bits of a store.
fn store_bits(width: Width) -> u32
    ensures value { result ≡ store_value width }
    ensures range { result ≤ 28799 }
{
    match width {
        Width::Byte => 0x23,
        Width::Word => 0x2023,
        Width::Double => 0x3023,
    }
}

/// The fixed bits of a load.
fn load_bits(width: Width) -> u32
    ensures value { result ≡ load_value width }
    ensures range { result ≤ 28799 }
{
    match width {
        Width::Byte => 0x4003,
        Width::Word => 0x2003,
        Width::Double => 0x3003,
    }
}

/// A store of x`r` at an offset from x`by`.
#[tactic(auto, using(crate::proofs::Fields::store_is))]
pub(crate) fn store(width: Width, by: u32, r: u32, off: i64) -> u32
    requires by { by < 32 }
    requires r { r < 32 }
    requires off { IsSigned 12 off }
    ensures { result ≡ encoded (store_insn width by r off) }
{
    let field = field(off);
    word(store_bits(width), field % 32, by, r + field / 32 % 128 * 32)
}

/// A load of x`r` at an offset from x`by`.
#[tactic(auto, using(crate::proofs::Fields::load_is))]
pub(crate) fn load(width: Width, r: u32, by: u32, off: i64) -> u32
    requires by { by < 32 }
    requires r { r < 32 }
    requires off { IsSigned 12 off }
    ensures { result ≡ encoded (load_insn width r by off) }
{
    let field = field(off);
    word(load_bits(width), r, by, field)
}

/// `jalr x0, 0(x1)`.
#[tactic(auto, unfolding(rv_decode::specs::Encode::encoded))]
pub(crate) fn go() -> u32
    ensures { result ≡ encoded (Insn.Jalr 0 1 (pos 0)) }
{
    word(0x67, 0, 1, 0)
}

/// `dret`.
#[tactic(auto, unfolding(rv_decode::specs::Encode::encoded))]
pub(crate) fn dret() -> u32
    ensures { result ≡ encoded Insn.Dret }
{
    0x7b20_0073
}

/// `addi x0, x0, 0`, which does nothing.
#[tactic(auto, unfolding(rv_decode::specs::Encode::encoded, rv_decode::specs::Encode::word_r))]
pub(crate) fn nop() -> u32
    ensures { result ≡ encoded (Insn.Addi 0 0 (pos 0)) }
{
    0x13
}
