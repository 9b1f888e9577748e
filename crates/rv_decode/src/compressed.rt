//! Expanding a 16-bit compressed word: by its quadrant and funct3, then by the further fixed bits, in
//! the order of the table.

ghost use Rattle.std.specs.Prelude.{◌≡◌, ◌+◌, ◌*◌, ◌/◌, ◌%◌, ◌<◌, IfSome, bit_and};
ghost use Rattle.rv_decode.specs.Compressed.{expanded, forms_at, word_decoded};
ghost use Rattle.rv_decode.specs.Ranges.{IsInRange};
ghost use Rattle.rv_decode.specs.Words.{decoded_by};

use crate::Insn;
use crate::compressed_field::{
    addi4spn_immediate, addi16sp_immediate, branch_immediate, far_rd, far_rs2, jump_immediate,
    ldsp_immediate, load_double_immediate, load_word_immediate, lwsp_immediate, near_rd, near_rs1,
    near_rs2, sdsp_immediate, shift_amount, short_immediate, swsp_immediate, upper_immediate,
};

/// `c.addi4spn`.
#[tactic(auto, unfolding(crate::specs::Compressed::forms))]
fn addi4spn(c: u32) -> Option<Insn>
    requires { bit_and c 0xe003 ≡ 0x0 }
    ensures form { result ≡ decoded_by (forms_at 0x0) c }
    ensures in_range { IfSome result IsInRange }
{
    if c & 0x1fe0 == 0 {
        None
    } else {
        let (rd, imm) = (near_rd(c), addi4spn_immediate(c));
        Some(Insn::Addi { rd, rs1: 2, imm })
    }
}

/// `c.lw`.
#[tactic(auto, unfolding(crate::specs::Compressed::forms))]
fn lw(c: u32) -> Option<Insn>
    requires { bit_and c 0xe003 ≡ 0x4000 }
    ensures form { result ≡ decoded_by (forms_at 0x4000) c }
    ensures in_range { IfSome result IsInRange }
{
    let (rd, rs1, imm) = (near_rd(c), near_rs1(c), load_word_immediate(c));
    Some(Insn::Lw { rd, rs1, imm })
}

/// `c.ld`.
#[tactic(auto, unfolding(crate::specs::Compressed::forms))]
fn ld(c: u32) -> Option<Insn>
    requires { bit_and c 0xe003 ≡ 0x6000 }
    ensures form { result ≡ decoded_by (forms_at 0x6000) c }
    ensures in_range { IfSome result IsInRange }
{
    let (rd, rs1, imm) = (near_rd(c), near_rs1(c), load_double_immediate(c));
    Some(Insn::Ld { rd, rs1, imm })
}

/// `c.sw`.
#[tactic(auto, unfolding(crate::specs::Compressed::forms))]
fn sw(c: u32) -> Option<Insn>
    requires { bit_and c 0xe003 ≡ 0xc000 }
    ensures form { result ≡ decoded_by (forms_at 0xc000) c }
    ensures in_range { IfSome result IsInRange }
{
    let (rs1, rs2, imm) = (near_rs1(c), near_rs2(c), load_word_immediate(c));
    Some(Insn::Sw { rs1, rs2, imm })
}

/// `c.sd`.
#[tactic(auto, unfolding(crate::specs::Compressed::forms))]
fn sd(c: u32) -> Option<Insn>
    requires { bit_and c 0xe003 ≡ 0xe000 }
    ensures form { result ≡ decoded_by (forms_at 0xe000) c }
    ensures in_range { IfSome result IsInRange }
{
    let (rs1, rs2, imm) = (near_rs1(c), near_rs2(c), load_double_immediate(c));
    Some(Insn::Sd { rs1, rs2, imm })
}

/// `c.addi`.
#[tactic(auto, unfolding(crate::specs::Compressed::forms))]
fn addi(c: u32) -> Option<Insn>
    requires { bit_and c 0xe003 ≡ 0x1 }
    ensures form { result ≡ decoded_by (forms_at 0x1) c }
    ensures in_range { IfSome result IsInRange }
{
    let (rd, imm) = (far_rd(c), short_immediate(c));
    Some(Insn::Addi { rd, rs1: rd, imm })
}

/// `c.addiw`.
#[tactic(auto, unfolding(crate::specs::Compressed::forms))]
fn addiw(c: u32) -> Option<Insn>
    requires { bit_and c 0xe003 ≡ 0x2001 }
    ensures form { result ≡ decoded_by (forms_at 0x2001) c }
    ensures in_range { IfSome result IsInRange }
{
    if c & 0xf80 == 0 {
        None
    } else {
        let (rd, imm) = (far_rd(c), short_immediate(c));
        Some(Insn::Addiw { rd, rs1: rd, imm })
    }
}

/// `c.li`.
#[tactic(auto, unfolding(crate::specs::Compressed::forms))]
fn li(c: u32) -> Option<Insn>
    requires { bit_and c 0xe003 ≡ 0x4001 }
    ensures form { result ≡ decoded_by (forms_at 0x4001) c }
    ensures in_range { IfSome result IsInRange }
{
    let (rd, imm) = (far_rd(c), short_immediate(c));
    Some(Insn::Addi { rd, rs1: 0, imm })
}

/// `c.addi16sp`, or `c.lui` with another register than x2.
#[tactic(auto, unfolding(crate::specs::Compressed::forms))]
fn addi16sp_or_lui(c: u32) -> Option<Insn>
    requires { bit_and c 0xe003 ≡ 0x6001 }
    ensures form { result ≡ decoded_by (forms_at 0x6001) c }
    ensures in_range { IfSome result IsInRange }
{
    if c & 0x107c == 0 {
        None
    } else if c & 0xef83 == 0x6101 {
        let imm = addi16sp_immediate(c);
        Some(Insn::Addi { rd: 2, rs1: 2, imm })
    } else {
        let (rd, imm) = (far_rd(c), upper_immediate(c));
        Some(Insn::Lui { rd, imm })
    }
}

/// Shifts, `c.andi` and the operations on two near registers.
#[tactic(auto, unfolding(crate::specs::Compressed::forms))]
fn arithmetic(c: u32) -> Option<Insn>
    requires { bit_and c 0xe003 ≡ 0x8001 }
    ensures form { result ≡ decoded_by (forms_at 0x8001) c }
    ensures in_range { IfSome result IsInRange }
{
    let (rd, rs2) = (near_rs1(c), near_rs2(c));
    let (shamt, imm) = (shift_amount(c), short_immediate(c));
    match c & 0xec03 {
        0x8001 => Some(Insn::Srli { rd, rs1: rd, shamt }),
        0x8401 => Some(Insn::Srai { rd, rs1: rd, shamt }),
        0x8801 => Some(Insn::Andi { rd, rs1: rd, imm }),
        _ => match c & 0xfc63 {
            0x8c01 => Some(Insn::Sub { rd, rs1: rd, rs2 }),
            0x8c21 => Some(Insn::Xor { rd, rs1: rd, rs2 }),
            0x8c41 => Some(Insn::Or { rd, rs1: rd, rs2 }),
            0x8c61 => Some(Insn::And { rd, rs1: rd, rs2 }),
            0x9c01 => Some(Insn::Subw { rd, rs1: rd, rs2 }),
            0x9c21 => Some(Insn::Addw { rd, rs1: rd, rs2 }),
            _ => None,
        },
    }
}

/// `c.j`.
#[tactic(auto, unfolding(crate::specs::Compressed::forms))]
fn j(c: u32) -> Option<Insn>
    requires { bit_and c 0xe003 ≡ 0xa001 }
    ensures form { result ≡ decoded_by (forms_at 0xa001) c }
    ensures in_range { IfSome result IsInRange }
{
    let imm = jump_immediate(c);
    Some(Insn::Jal { rd: 0, imm })
}

/// `c.beqz`.
#[tactic(auto, unfolding(crate::specs::Compressed::forms))]
fn beqz(c: u32) -> Option<Insn>
    requires { bit_and c 0xe003 ≡ 0xc001 }
    ensures form { result ≡ decoded_by (forms_at 0xc001) c }
    ensures in_range { IfSome result IsInRange }
{
    let (rs1, imm) = (near_rs1(c), branch_immediate(c));
    Some(Insn::Beq { rs1, rs2: 0, imm })
}

/// `c.bnez`.
#[tactic(auto, unfolding(crate::specs::Compressed::forms))]
fn bnez(c: u32) -> Option<Insn>
    requires { bit_and c 0xe003 ≡ 0xe001 }
    ensures form { result ≡ decoded_by (forms_at 0xe001) c }
    ensures in_range { IfSome result IsInRange }
{
    let (rs1, imm) = (near_rs1(c), branch_immediate(c));
    Some(Insn::Bne { rs1, rs2: 0, imm })
}

/// `c.slli`.
#[tactic(auto, unfolding(crate::specs::Compressed::forms))]
fn slli(c: u32) -> Option<Insn>
    requires { bit_and c 0xe003 ≡ 0x2 }
    ensures form { result ≡ decoded_by (forms_at 0x2) c }
    ensures in_range { IfSome result IsInRange }
{
    let (rd, shamt) = (far_rd(c), shift_amount(c));
    Some(Insn::Slli { rd, rs1: rd, shamt })
}

/// `c.lwsp`.
#[tactic(auto, unfolding(crate::specs::Compressed::forms))]
fn lwsp(c: u32) -> Option<Insn>
    requires { bit_and c 0xe003 ≡ 0x4002 }
    ensures form { result ≡ decoded_by (forms_at 0x4002) c }
    ensures in_range { IfSome result IsInRange }
{
    if c & 0xf80 == 0 {
        None
    } else {
        let (rd, imm) = (far_rd(c), lwsp_immediate(c));
        Some(Insn::Lw { rd, rs1: 2, imm })
    }
}

/// `c.ldsp`.
#[tactic(auto, unfolding(crate::specs::Compressed::forms))]
fn ldsp(c: u32) -> Option<Insn>
    requires { bit_and c 0xe003 ≡ 0x6002 }
    ensures form { result ≡ decoded_by (forms_at 0x6002) c }
    ensures in_range { IfSome result IsInRange }
{
    if c & 0xf80 == 0 {
        None
    } else {
        let (rd, imm) = (far_rd(c), ldsp_immediate(c));
        Some(Insn::Ld { rd, rs1: 2, imm })
    }
}

/// Jumps to a register, `c.mv`, `c.add` and `c.ebreak`.
#[tactic(auto, unfolding(crate::specs::Compressed::forms))]
fn registers(c: u32) -> Option<Insn>
    requires { bit_and c 0xe003 ≡ 0x8002 }
    ensures form { result ≡ decoded_by (forms_at 0x8002) c }
    ensures in_range { IfSome result IsInRange }
{
    let (rd, rs2) = (far_rd(c), far_rs2(c));
    let rs1 = rd;
    if c & 0xf07f == 0x8002 && c & 0xf80 != 0 {
        Some(Insn::Jalr { rd: 0, rs1, imm: 0 })
    } else if c & 0xf003 == 0x8002 && c & 0x7c != 0 {
        Some(Insn::Add { rd, rs1: 0, rs2 })
    } else if c & 0xffff == 0x9002 {
        Some(Insn::Ebreak)
    } else if c & 0xf07f == 0x9002 && c & 0xf80 != 0 {
        Some(Insn::Jalr { rd: 1, rs1, imm: 0 })
    } else if c & 0xf003 == 0x9002 && c & 0x7c != 0 {
        Some(Insn::Add { rd, rs1, rs2 })
    } else {
        None
    }
}

/// `c.swsp`.
#[tactic(auto, unfolding(crate::specs::Compressed::forms))]
fn swsp(c: u32) -> Option<Insn>
    requires { bit_and c 0xe003 ≡ 0xc002 }
    ensures form { result ≡ decoded_by (forms_at 0xc002) c }
    ensures in_range { IfSome result IsInRange }
{
    let (rs2, imm) = (far_rs2(c), swsp_immediate(c));
    Some(Insn::Sw { rs1: 2, rs2, imm })
}

/// `c.sdsp`.
#[tactic(auto, unfolding(crate::specs::Compressed::forms))]
fn sdsp(c: u32) -> Option<Insn>
    requires { bit_and c 0xe003 ≡ 0xe002 }
    ensures form { result ≡ decoded_by (forms_at 0xe002) c }
    ensures in_range { IfSome result IsInRange }
{
    let (rs2, imm) = (far_rs2(c), sdsp_immediate(c));
    Some(Insn::Sd { rs1: 2, rs2, imm })
}

/// A word's quadrant and funct3 as one number, the quadrant above: the word, turned by three places, has
/// them side by side, and of such small numbers the compiler makes a table of jumps.
#[inline(always)]
fn quadrant_and_funct3(c: u32) -> u16
    requires { c < 0x1_0000 }
    ensures key { bit_and c 0xe003 ≡ result % 8 * 0x2000 + result / 8 }
    ensures below { result < 32 }
{
    let c = c as u16;
    ((c << 3) + (c >> 13)) % 32
}

/// The instruction that a 16-bit word stands for, or `None` where no form of the table matches it: the
/// reserved and the floating-point forms, and each word whose two low bits are 11. It is what `decode`
/// gives for the 32-bit word of the same instruction.
#[inline(always)]
pub fn expand(c: u16) -> Option<Insn>
    ensures form { result ≡ expanded c }
    ensures word { result ≡ word_decoded c }
    ensures in_range { IfSome result IsInRange }
{
    let c = u32::from(c);
    match quadrant_and_funct3(c) {
        0b00_000 => addi4spn(c),
        0b00_010 => lw(c),
        0b00_011 => ld(c),
        0b00_110 => sw(c),
        0b00_111 => sd(c),
        0b01_000 => addi(c),
        0b01_001 => addiw(c),
        0b01_010 => li(c),
        0b01_011 => addi16sp_or_lui(c),
        0b01_100 => arithmetic(c),
        0b01_101 => j(c),
        0b01_110 => beqz(c),
        0b01_111 => bnez(c),
        0b10_000 => slli(c),
        0b10_010 => lwsp(c),
        0b10_011 => ldsp(c),
        0b10_100 => registers(c),
        0b10_110 => swsp(c),
        0b10_111 => sdsp(c),
        _ => None,
    }
}
