//! The words of the instructions of a seed's program. Each is a sum of its fields.

ghost use Rattle.std.specs.Prelude.{◌≡◌, ◌+◌, ◌*◌, ◌<◌, ◌≤◌, neg_ℤ, pos};
ghost use Rattle.csr_file.specs.Numbers.{csr_mhartid};
ghost use Rattle.rv_decode.specs.Encode.{encoded, word_r};
ghost use Rattle.rv_decode.specs.declared.Insn.{Insn};
ghost use Rattle.seed_start.specs.Seed.{drawn, drawn_insn, register};

/// A word with fields at bits 7, 15 and 20.
#[tactic(auto, unfolding(rv_decode::specs::Encode::word_r))]
fn word(value: u32, rd: u32, rs1: u32, top: u32) -> u32
    requires value { value ≤ 28799 }
    requires rd { rd < 32 }
    requires rs1 { rs1 < 32 }
    requires top { top < 4096 }
    ensures { result ≡ word_r value rd rs1 top }
{
    value + rd * 128 + rs1 * 32_768 + top * 1_048_576
}

/// `auipc x28, 0`.
#[tactic(auto, unfolding(rv_decode::specs::Encode::encoded, rv_decode::specs::Encode::word_long))]
pub(crate) fn program_address() -> u32
    ensures { result ≡ encoded (Insn.Auipc 28 (pos 0)) }
{
    0x0000_0e17
}

/// `lui x30, 0x10000`.
#[tactic(auto, unfolding(rv_decode::specs::Encode::encoded, rv_decode::specs::Encode::word_long))]
pub(crate) fn console_address() -> u32
    ensures { result ≡ encoded (Insn.Lui 30 (pos 0x10000000)) }
{
    0x1000_0f37
}

/// `csrrs x1, mhartid, x0`.
#[tactic(auto, unfolding(rv_decode::specs::Encode::encoded))]
pub(crate) fn hart_number() -> u32
    ensures { result ≡ encoded (Insn.Csrrs 1 0 csr_mhartid) }
{
    word(0x2073, 1, 0, 0xf14)
}

/// `jal x0, -800`.
#[tactic(auto, unfolding(rv_decode::specs::Encode::encoded, rv_decode::specs::Encode::word_long))]
pub(crate) fn back() -> u32
    ensures { result ≡ encoded (Insn.Jal 0 (neg_ℤ (pos 800))) }
{
    0xce1f_f06f
}

/// `addi rd, rs1, v`.
#[tactic(auto, unfolding(rv_decode::specs::Encode::encoded))]
pub(crate) fn addi(rd: u32, rs1: u32, v: u32) -> u32
    requires rd { rd < 32 }
    requires rs1 { rs1 < 32 }
    requires v { v < 2048 }
    ensures { result ≡ encoded (Insn.Addi rd rs1 (pos v)) }
{
    word(0x13, rd, rs1, v)
}

/// `add rd, rs1, rs2`.
#[tactic(auto, unfolding(rv_decode::specs::Encode::encoded))]
fn add(rd: u32, rs1: u32, rs2: u32) -> u32
    requires rd { rd < 32 }
    requires rs1 { rs1 < 32 }
    requires rs2 { rs2 < 32 }
    ensures { result ≡ encoded (Insn.Add rd rs1 rs2) }
{
    word(0x33, rd, rs1, rs2)
}

/// `xor rd, rs1, rs2`.
#[tactic(auto, unfolding(rv_decode::specs::Encode::encoded))]
fn xor(rd: u32, rs1: u32, rs2: u32) -> u32
    requires rd { rd < 32 }
    requires rs1 { rs1 < 32 }
    requires rs2 { rs2 < 32 }
    ensures { result ≡ encoded (Insn.Xor rd rs1 rs2) }
{
    word(0x4033, rd, rs1, rs2)
}

/// `mul rd, rs1, rs2`.
#[tactic(auto, using(crate::proofs::Fields::multiplying_word))]
fn mul(rd: u32, rs1: u32, rs2: u32) -> u32
    requires rd { rd < 32 }
    requires rs1 { rs1 < 32 }
    requires rs2 { rs2 < 32 }
    ensures { result ≡ encoded (Insn.Mul rd rs1 rs2) }
{
    word(0x33, rd, rs1, rs2 + 32)
}

/// `amoadd.d rd, rs2, (x29)`.
#[tactic(auto, unfolding(rv_decode::specs::Encode::encoded))]
fn amoadd(rd: u32, rs2: u32) -> u32
    requires rd { rd < 32 }
    requires rs2 { rs2 < 32 }
    ensures { result ≡ encoded (Insn.AmoaddD rd 29 rs2) }
{
    word(0x302f, rd, 29, rs2)
}

/// `ld rd, 8j(x29)`.
#[tactic(auto, unfolding(rv_decode::specs::Encode::encoded))]
fn ld(rd: u32, j: u32) -> u32
    requires rd { rd < 32 }
    requires j { j < 128 }
    ensures { result ≡ encoded (Insn.Ld rd 29 (pos (8 * j))) }
{
    word(0x3003, rd, 29, 8 * j)
}

/// `sd rs2, 8j(x29)`.
#[tactic(auto, using(crate::proofs::Fields::storing_word))]
fn sd(rs2: u32, j: u32) -> u32
    requires rs2 { rs2 < 32 }
    requires j { j < 128 }
    ensures { result ≡ encoded (Insn.Sd 29 rs2 (pos (8 * j))) }
{
    word(0x3023, 8 * j % 32, 29, rs2 + 8 * j / 32 * 32)
}

/// `sb rs2, 0(x30)`.
#[tactic(auto, unfolding(rv_decode::specs::Encode::encoded))]
fn sb(rs2: u32) -> u32
    requires rs2 { rs2 < 32 }
    ensures { result ≡ encoded (Insn.Sb 30 rs2 (pos 0)) }
{
    word(0x23, 0, 30, rs2)
}

/// One of the registers x1 to x15, by the bits of a number from a place up.
fn register(s: u64, place: u8) -> u32
    requires { place < 64 }
    ensures value { result ≡ register s place }
    ensures most { result < 32 }
{
    1 + ((s >> place) % 15) as u32
}

/// The word of the instruction that is drawn at a number of the generator.
pub(crate) fn drawn_word(s: u64) -> u32
    ensures { result ≡ encoded (drawn_insn s) }
{
    let (a, b, c) = (register(s, 8), register(s, 16), register(s, 24));
    let j = ((s >> 40) % 128) as u32;
    match (s >> 32) % 8 {
        0 => add(c, a, b),
        1 => xor(c, a, b),
        2 => mul(c, a, b),
        3 => addi(c, a, j),
        4 => sd(a, j),
        5 => ld(c, j),
        6 => amoadd(c, b),
        _ => sb(a),
    }
}
