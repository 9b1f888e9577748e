//! Decoding a 32-bit instruction word: by its opcode, then by funct3 and the further fixed bits, in the
//! order of the table.

ghost use Rattle.std.specs.Prelude.{◌≡◌, ◌++◌, IfSome};
ghost use Rattle.rv_decode.specs.Ranges.{IsInRange};
ghost use Rattle.rv_decode.specs.Words.{decoded, decoded_by, upper_rows, jump_rows, jump_register_rows, branch_rows, load_rows, store_rows, immediate_rows, word_immediate_rows, shift_rows, word_shift_rows, register_rows, word_register_rows, product_rows, word_product_rows, fence_rows, csr_rows, csr_immediate_rows, system_rows, sfence_rows, reserve_rows, atomic_word_rows, atomic_double_rows};

use crate::Insn;
use crate::field::{
    csr, immediate_b, immediate_i, immediate_j, immediate_s, immediate_u, rd, rs1, rs2, shamt,
    uimm, word_shamt,
};

/// A conditional branch.
fn branch_of(w: u32) -> Option<Insn>
    ensures row { result ≡ decoded_by (branch_rows) w }
    ensures in_range { IfSome result IsInRange }
{
    let (rs1, rs2, imm) = (rs1(w), rs2(w), immediate_b(w));
    match w & 0x707f {
        0x63 => Some(Insn::Beq { rs1, rs2, imm }),
        0x1063 => Some(Insn::Bne { rs1, rs2, imm }),
        0x4063 => Some(Insn::Blt { rs1, rs2, imm }),
        0x5063 => Some(Insn::Bge { rs1, rs2, imm }),
        0x6063 => Some(Insn::Bltu { rs1, rs2, imm }),
        0x7063 => Some(Insn::Bgeu { rs1, rs2, imm }),
        _ => None,
    }
}

/// A load.
fn load_of(w: u32) -> Option<Insn>
    ensures row { result ≡ decoded_by (load_rows) w }
    ensures in_range { IfSome result IsInRange }
{
    let (rd, rs1, imm) = (rd(w), rs1(w), immediate_i(w));
    match w & 0x707f {
        0x3 => Some(Insn::Lb { rd, rs1, imm }),
        0x1003 => Some(Insn::Lh { rd, rs1, imm }),
        0x2003 => Some(Insn::Lw { rd, rs1, imm }),
        0x3003 => Some(Insn::Ld { rd, rs1, imm }),
        0x4003 => Some(Insn::Lbu { rd, rs1, imm }),
        0x5003 => Some(Insn::Lhu { rd, rs1, imm }),
        0x6003 => Some(Insn::Lwu { rd, rs1, imm }),
        _ => None,
    }
}

/// A store.
fn store_of(w: u32) -> Option<Insn>
    ensures row { result ≡ decoded_by (store_rows) w }
    ensures in_range { IfSome result IsInRange }
{
    let (rs1, rs2, imm) = (rs1(w), rs2(w), immediate_s(w));
    match w & 0x707f {
        0x23 => Some(Insn::Sb { rs1, rs2, imm }),
        0x1023 => Some(Insn::Sh { rs1, rs2, imm }),
        0x2023 => Some(Insn::Sw { rs1, rs2, imm }),
        0x3023 => Some(Insn::Sd { rs1, rs2, imm }),
        _ => None,
    }
}

/// An operation on a register and an immediate.
fn immediate_of(w: u32) -> Option<Insn>
    ensures row { result ≡ decoded_by (immediate_rows ++ shift_rows) w }
    ensures in_range { IfSome result IsInRange }
{
    let (rd, rs1, shamt, imm) = (rd(w), rs1(w), shamt(w), immediate_i(w));
    match w & 0x707f {
        0x13 => Some(Insn::Addi { rd, rs1, imm }),
        0x2013 => Some(Insn::Slti { rd, rs1, imm }),
        0x3013 => Some(Insn::Sltiu { rd, rs1, imm }),
        0x4013 => Some(Insn::Xori { rd, rs1, imm }),
        0x6013 => Some(Insn::Ori { rd, rs1, imm }),
        0x7013 => Some(Insn::Andi { rd, rs1, imm }),
        _ => match w & 0xfc00_707f {
            0x1013 => Some(Insn::Slli { rd, rs1, shamt }),
            0x5013 => Some(Insn::Srli { rd, rs1, shamt }),
            0x4000_5013 => Some(Insn::Srai { rd, rs1, shamt }),
            _ => None,
        },
    }
}

/// A 32-bit operation on a register and an immediate.
fn word_immediate_of(w: u32) -> Option<Insn>
    ensures row { result ≡ decoded_by (word_immediate_rows ++ word_shift_rows) w }
    ensures in_range { IfSome result IsInRange }
{
    let (rd, rs1, shamt, imm) = (rd(w), rs1(w), word_shamt(w), immediate_i(w));
    match w & 0x707f {
        0x1b => Some(Insn::Addiw { rd, rs1, imm }),
        _ => match w & 0xfe00_707f {
            0x101b => Some(Insn::Slliw { rd, rs1, shamt }),
            0x501b => Some(Insn::Srliw { rd, rs1, shamt }),
            0x4000_501b => Some(Insn::Sraiw { rd, rs1, shamt }),
            _ => None,
        },
    }
}

/// An operation on two registers. It is inlined, since a call that answers an instruction by memory would keep
/// what is decoded there in memory too.
#[inline(always)]
fn register_of(w: u32) -> Option<Insn>
    ensures row { result ≡ decoded_by (register_rows ++ product_rows) w }
    ensures in_range { IfSome result IsInRange }
{
    let (rd, rs1, rs2) = (rd(w), rs1(w), rs2(w));
    match w & 0xfe00_707f {
        0x33 => Some(Insn::Add { rd, rs1, rs2 }),
        0x4000_0033 => Some(Insn::Sub { rd, rs1, rs2 }),
        0x1033 => Some(Insn::Sll { rd, rs1, rs2 }),
        0x2033 => Some(Insn::Slt { rd, rs1, rs2 }),
        0x3033 => Some(Insn::Sltu { rd, rs1, rs2 }),
        0x4033 => Some(Insn::Xor { rd, rs1, rs2 }),
        0x5033 => Some(Insn::Srl { rd, rs1, rs2 }),
        0x4000_5033 => Some(Insn::Sra { rd, rs1, rs2 }),
        0x6033 => Some(Insn::Or { rd, rs1, rs2 }),
        0x7033 => Some(Insn::And { rd, rs1, rs2 }),
        0x200_0033 => Some(Insn::Mul { rd, rs1, rs2 }),
        0x200_1033 => Some(Insn::Mulh { rd, rs1, rs2 }),
        0x200_2033 => Some(Insn::Mulhsu { rd, rs1, rs2 }),
        0x200_3033 => Some(Insn::Mulhu { rd, rs1, rs2 }),
        0x200_4033 => Some(Insn::Div { rd, rs1, rs2 }),
        0x200_5033 => Some(Insn::Divu { rd, rs1, rs2 }),
        0x200_6033 => Some(Insn::Rem { rd, rs1, rs2 }),
        0x200_7033 => Some(Insn::Remu { rd, rs1, rs2 }),
        _ => None,
    }
}

/// A 32-bit operation on two registers.
fn word_register_of(w: u32) -> Option<Insn>
    ensures row { result ≡ decoded_by (word_register_rows ++ word_product_rows) w }
    ensures in_range { IfSome result IsInRange }
{
    let (rd, rs1, rs2) = (rd(w), rs1(w), rs2(w));
    match w & 0xfe00_707f {
        0x3b => Some(Insn::Addw { rd, rs1, rs2 }),
        0x4000_003b => Some(Insn::Subw { rd, rs1, rs2 }),
        0x103b => Some(Insn::Sllw { rd, rs1, rs2 }),
        0x503b => Some(Insn::Srlw { rd, rs1, rs2 }),
        0x4000_503b => Some(Insn::Sraw { rd, rs1, rs2 }),
        0x200_003b => Some(Insn::Mulw { rd, rs1, rs2 }),
        0x200_403b => Some(Insn::Divw { rd, rs1, rs2 }),
        0x200_503b => Some(Insn::Divuw { rd, rs1, rs2 }),
        0x200_603b => Some(Insn::Remw { rd, rs1, rs2 }),
        0x200_703b => Some(Insn::Remuw { rd, rs1, rs2 }),
        _ => None,
    }
}

/// A fence.
fn fence_of(w: u32) -> Option<Insn>
    ensures row { result ≡ decoded_by (fence_rows) w }
    ensures in_range { IfSome result IsInRange }
{
    match w & 0x707f {
        0xf => Some(Insn::Fence),
        0x100f => Some(Insn::FenceI),
        _ => None,
    }
}

/// A system instruction.
#[inline(always)]
fn system_of(w: u32) -> Option<Insn>
    ensures row { result ≡ decoded_by (csr_rows ++ csr_immediate_rows ++ system_rows ++ sfence_rows) w }
    ensures in_range { IfSome result IsInRange }
{
    system_rows_of(w)
}

/// The same, in a call. The place of what it answers is in the function above alone, so that what is decoded
/// elsewhere stays in registers.
#[inline(never)]
fn system_rows_of(w: u32) -> Option<Insn>
    ensures row { result ≡ decoded_by (csr_rows ++ csr_immediate_rows ++ system_rows ++ sfence_rows) w }
    ensures in_range { IfSome result IsInRange }
{
    let (rd, rs1, rs2, uimm, csr) = (rd(w), rs1(w), rs2(w), uimm(w), csr(w));
    match w & 0x707f {
        0x1073 => Some(Insn::Csrrw { rd, rs1, csr }),
        0x2073 => Some(Insn::Csrrs { rd, rs1, csr }),
        0x3073 => Some(Insn::Csrrc { rd, rs1, csr }),
        0x5073 => Some(Insn::Csrrwi { rd, uimm, csr }),
        0x6073 => Some(Insn::Csrrsi { rd, uimm, csr }),
        0x7073 => Some(Insn::Csrrci { rd, uimm, csr }),
        _ => match w & 0xffff_ffff {
            0x73 => Some(Insn::Ecall),
            0x10_0073 => Some(Insn::Ebreak),
            0x1020_0073 => Some(Insn::Sret),
            0x3020_0073 => Some(Insn::Mret),
            0x1050_0073 => Some(Insn::Wfi),
            0x7b20_0073 => Some(Insn::Dret),
            _ => match w & 0xfe00_7fff {
                0x1200_0073 => Some(Insn::SfenceVma { rs1, rs2 }),
                _ => None,
            },
        },
    }
}

/// An atomic memory instruction.
#[inline(always)]
fn atomic_of(w: u32) -> Option<Insn>
    ensures row { result ≡ decoded_by (reserve_rows ++ atomic_word_rows ++ atomic_double_rows) w }
    ensures in_range { IfSome result IsInRange }
{
    atomic_rows_of(w)
}

/// The same, in a call, as with a system instruction.
#[inline(never)]
fn atomic_rows_of(w: u32) -> Option<Insn>
    ensures row { result ≡ decoded_by (reserve_rows ++ atomic_word_rows ++ atomic_double_rows) w }
    ensures in_range { IfSome result IsInRange }
{
    let (rd, rs1, rs2) = (rd(w), rs1(w), rs2(w));
    match w & 0xf9f0_707f {
        0x1000_202f => Some(Insn::LrW { rd, rs1 }),
        0x1000_302f => Some(Insn::LrD { rd, rs1 }),
        _ => match w & 0xf800_707f {
            0x1800_202f => Some(Insn::ScW { rd, rs1, rs2 }),
            0x800_202f => Some(Insn::AmoswapW { rd, rs1, rs2 }),
            0x202f => Some(Insn::AmoaddW { rd, rs1, rs2 }),
            0x2000_202f => Some(Insn::AmoxorW { rd, rs1, rs2 }),
            0x6000_202f => Some(Insn::AmoandW { rd, rs1, rs2 }),
            0x4000_202f => Some(Insn::AmoorW { rd, rs1, rs2 }),
            0x8000_202f => Some(Insn::AmominW { rd, rs1, rs2 }),
            0xa000_202f => Some(Insn::AmomaxW { rd, rs1, rs2 }),
            0xc000_202f => Some(Insn::AmominuW { rd, rs1, rs2 }),
            0xe000_202f => Some(Insn::AmomaxuW { rd, rs1, rs2 }),
            0x1800_302f => Some(Insn::ScD { rd, rs1, rs2 }),
            0x800_302f => Some(Insn::AmoswapD { rd, rs1, rs2 }),
            0x302f => Some(Insn::AmoaddD { rd, rs1, rs2 }),
            0x2000_302f => Some(Insn::AmoxorD { rd, rs1, rs2 }),
            0x6000_302f => Some(Insn::AmoandD { rd, rs1, rs2 }),
            0x4000_302f => Some(Insn::AmoorD { rd, rs1, rs2 }),
            0x8000_302f => Some(Insn::AmominD { rd, rs1, rs2 }),
            0xa000_302f => Some(Insn::AmomaxD { rd, rs1, rs2 }),
            0xc000_302f => Some(Insn::AmominuD { rd, rs1, rs2 }),
            0xe000_302f => Some(Insn::AmomaxuD { rd, rs1, rs2 }),
            _ => None,
        },
    }
}

/// A jump to a register.
fn jump_register_of(w: u32) -> Option<Insn>
    ensures row { result ≡ decoded_by (jump_register_rows) w }
    ensures in_range { IfSome result IsInRange }
{
    let (rd, rs1, imm) = (rd(w), rs1(w), immediate_i(w));
    match w & 0x707f {
        0x67 => Some(Insn::Jalr { rd, rs1, imm }),
        _ => None,
    }
}

/// The instruction that a 32-bit word stands for, or `None` where no row of the table matches it.
#[inline(always)]
pub fn decode(w: u32) -> Option<Insn>
    ensures row { result ≡ decoded w }
    ensures in_range { IfSome result IsInRange }
{
    match w & 0x7f {
        0x37 => Some(Insn::Lui {
            rd: rd(w),
            imm: immediate_u(w),
        }),
        0x17 => Some(Insn::Auipc {
            rd: rd(w),
            imm: immediate_u(w),
        }),
        0x6f => Some(Insn::Jal {
            rd: rd(w),
            imm: immediate_j(w),
        }),
        0x63 => branch_of(w),
        0x3 => load_of(w),
        0x23 => store_of(w),
        0x13 => immediate_of(w),
        0x1b => word_immediate_of(w),
        0x33 => register_of(w),
        0x3b => word_register_of(w),
        0xf => fence_of(w),
        0x73 => system_of(w),
        0x2f => atomic_of(w),
        0x67 => jump_register_of(w),
        _ => None,
    }
}
