//! What each instruction does.

ghost use Rattle.std.specs.Prelude.{◌≡◌, ◌%◌, ◌≤◌, IfOk};
ghost use Rattle.rv_decode.specs.Ranges.{IsInRange};
ghost use Rattle.hart_step.specs.Answers.{given_by};
ghost use Rattle.hart_step.specs.Clauses.{Keeps};
ghost use Rattle.hart_step.specs.Effects.{Leaves, effect};
ghost use Rattle.hart_step.specs.Events.{IsDone};
ghost use Rattle.hart_step.specs.Harts.{IsFitHart};

use crate::access::{Extension, Site, load, store};
use crate::answers::Answers;
use crate::arithmetic::{compute, compute_immediate, compute_shift, multiply, word_of, write};
use crate::atomic::{load_reserved, store_conditional, update};
use crate::control::{branch_to, following, jump, jump_register, offset, pass};
use crate::done::Done;
use crate::exception::Exception;
use crate::hart::Hart;
use crate::memory::Memory;
use crate::shows::Shows;
use crate::system::{return_debug, return_machine, return_supervisor};
use crate::zicsr::{clear_csr, set_csr, write_csr};
use rv_alu::{AmoOp, BinOp, CondOp, MulOp};
use rv_decode::Insn;

/// Carries out the instruction at a site on its hart and memory, or answers the exception that it
/// raises; then nothing has changed. Each kind `S` of places has an `execute` of its own, which then has one
/// caller, and so is inlined there.
#[tactic(auto, unfolding(crate::specs::Effects::effect))]
#[inline(always)]
pub(crate) fn execute<A: Answers, S: Shows>(
    site: Site,
    insn: Insn,
    hart: &mut Hart,
    memory: &mut Memory,
    answers: &mut A,
) -> Result<Done, Exception>
    requires ready { A.ready answers.old site.hart }
    requires range { IsInRange insn }
    requires harts { site.harts ≤ 8 }
    requires length { site.len % 2 ≡ 0 }
    requires fit { IsFitHart hart.old }
    ensures leaves { Leaves A.after answers.old answers.new site.hart hart.old hart.new memory.old memory.new result
        (effect (record {
          given = given_by (A.says answers.old site.hart) hart.old;
          harts = site.harts;
          word = site.word;
          len = site.len;
        }) insn hart.old memory.old) }
    ensures formed { IfOk result IsDone }
    ensures keeps { Keeps hart.old hart.new memory.old memory.new }
{
    let next = following(hart, site.len);
    match insn {
        Insn::Lui { rd, imm } => write(hart, rd, word_of(imm), next),
        Insn::Auipc { rd, imm } => {
            let value = offset(hart.pc, imm);
            write(hart, rd, value, next)
        }
        Insn::Jal { rd, imm } => jump(hart, rd, imm, next),
        Insn::Jalr { rd, rs1, imm } => jump_register(hart, rd, rs1, imm, next),
        Insn::Beq { rs1, rs2, imm } => branch_to(hart, CondOp::Eq, rs1, rs2, imm, site.len),
        Insn::Bne { rs1, rs2, imm } => branch_to(hart, CondOp::Ne, rs1, rs2, imm, site.len),
        Insn::Blt { rs1, rs2, imm } => branch_to(hart, CondOp::Lt, rs1, rs2, imm, site.len),
        Insn::Bge { rs1, rs2, imm } => branch_to(hart, CondOp::Ge, rs1, rs2, imm, site.len),
        Insn::Bltu { rs1, rs2, imm } => branch_to(hart, CondOp::Ltu, rs1, rs2, imm, site.len),
        Insn::Bgeu { rs1, rs2, imm } => branch_to(hart, CondOp::Geu, rs1, rs2, imm, site.len),
        Insn::Lb { rd, rs1, imm } => {
            let va = offset(hart.x(rs1), imm);
            load(site, hart, memory, answers, 1, Extension::Signed, va, rd)
        }
        Insn::Lh { rd, rs1, imm } => {
            let va = offset(hart.x(rs1), imm);
            load(site, hart, memory, answers, 2, Extension::Signed, va, rd)
        }
        Insn::Lw { rd, rs1, imm } => {
            let va = offset(hart.x(rs1), imm);
            load(site, hart, memory, answers, 4, Extension::Signed, va, rd)
        }
        Insn::Ld { rd, rs1, imm } => {
            let va = offset(hart.x(rs1), imm);
            load(site, hart, memory, answers, 8, Extension::Signed, va, rd)
        }
        Insn::Lbu { rd, rs1, imm } => {
            let va = offset(hart.x(rs1), imm);
            load(site, hart, memory, answers, 1, Extension::Unsigned, va, rd)
        }
        Insn::Lhu { rd, rs1, imm } => {
            let va = offset(hart.x(rs1), imm);
            load(site, hart, memory, answers, 2, Extension::Unsigned, va, rd)
        }
        Insn::Lwu { rd, rs1, imm } => {
            let va = offset(hart.x(rs1), imm);
            load(site, hart, memory, answers, 4, Extension::Unsigned, va, rd)
        }
        Insn::Sb { rs1, rs2, imm } => {
            let va = offset(hart.x(rs1), imm);
            let value = hart.x(rs2);
            store(site, hart, memory, answers, 1, va, value)
        }
        Insn::Sh { rs1, rs2, imm } => {
            let va = offset(hart.x(rs1), imm);
            let value = hart.x(rs2);
            store(site, hart, memory, answers, 2, va, value)
        }
        Insn::Sw { rs1, rs2, imm } => {
            let va = offset(hart.x(rs1), imm);
            let value = hart.x(rs2);
            store(site, hart, memory, answers, 4, va, value)
        }
        Insn::Sd { rs1, rs2, imm } => {
            let va = offset(hart.x(rs1), imm);
            let value = hart.x(rs2);
            store(site, hart, memory, answers, 8, va, value)
        }
        Insn::Addi { rd, rs1, imm } => compute_immediate(hart, BinOp::Add, rd, rs1, imm, next),
        Insn::Slti { rd, rs1, imm } => compute_immediate(hart, BinOp::Slt, rd, rs1, imm, next),
        Insn::Sltiu { rd, rs1, imm } => compute_immediate(hart, BinOp::Sltu, rd, rs1, imm, next),
        Insn::Xori { rd, rs1, imm } => compute_immediate(hart, BinOp::Xor, rd, rs1, imm, next),
        Insn::Ori { rd, rs1, imm } => compute_immediate(hart, BinOp::Or, rd, rs1, imm, next),
        Insn::Andi { rd, rs1, imm } => compute_immediate(hart, BinOp::And, rd, rs1, imm, next),
        Insn::Addiw { rd, rs1, imm } => compute_immediate(hart, BinOp::Addw, rd, rs1, imm, next),
        Insn::Slli { rd, rs1, shamt } => compute_shift(hart, BinOp::Sll, rd, rs1, shamt, next),
        Insn::Srli { rd, rs1, shamt } => compute_shift(hart, BinOp::Srl, rd, rs1, shamt, next),
        Insn::Srai { rd, rs1, shamt } => compute_shift(hart, BinOp::Sra, rd, rs1, shamt, next),
        Insn::Slliw { rd, rs1, shamt } => compute_shift(hart, BinOp::Sllw, rd, rs1, shamt, next),
        Insn::Srliw { rd, rs1, shamt } => compute_shift(hart, BinOp::Srlw, rd, rs1, shamt, next),
        Insn::Sraiw { rd, rs1, shamt } => compute_shift(hart, BinOp::Sraw, rd, rs1, shamt, next),
        Insn::Add { rd, rs1, rs2 } => compute(hart, BinOp::Add, rd, rs1, rs2, next),
        Insn::Sub { rd, rs1, rs2 } => compute(hart, BinOp::Sub, rd, rs1, rs2, next),
        Insn::Sll { rd, rs1, rs2 } => compute(hart, BinOp::Sll, rd, rs1, rs2, next),
        Insn::Slt { rd, rs1, rs2 } => compute(hart, BinOp::Slt, rd, rs1, rs2, next),
        Insn::Sltu { rd, rs1, rs2 } => compute(hart, BinOp::Sltu, rd, rs1, rs2, next),
        Insn::Xor { rd, rs1, rs2 } => compute(hart, BinOp::Xor, rd, rs1, rs2, next),
        Insn::Srl { rd, rs1, rs2 } => compute(hart, BinOp::Srl, rd, rs1, rs2, next),
        Insn::Sra { rd, rs1, rs2 } => compute(hart, BinOp::Sra, rd, rs1, rs2, next),
        Insn::Or { rd, rs1, rs2 } => compute(hart, BinOp::Or, rd, rs1, rs2, next),
        Insn::And { rd, rs1, rs2 } => compute(hart, BinOp::And, rd, rs1, rs2, next),
        Insn::Addw { rd, rs1, rs2 } => compute(hart, BinOp::Addw, rd, rs1, rs2, next),
        Insn::Subw { rd, rs1, rs2 } => compute(hart, BinOp::Subw, rd, rs1, rs2, next),
        Insn::Sllw { rd, rs1, rs2 } => compute(hart, BinOp::Sllw, rd, rs1, rs2, next),
        Insn::Srlw { rd, rs1, rs2 } => compute(hart, BinOp::Srlw, rd, rs1, rs2, next),
        Insn::Sraw { rd, rs1, rs2 } => compute(hart, BinOp::Sraw, rd, rs1, rs2, next),
        Insn::Mul { rd, rs1, rs2 } => multiply(hart, MulOp::Mul, rd, rs1, rs2, next),
        Insn::Mulh { rd, rs1, rs2 } => multiply(hart, MulOp::Mulh, rd, rs1, rs2, next),
        Insn::Mulhsu { rd, rs1, rs2 } => multiply(hart, MulOp::Mulhsu, rd, rs1, rs2, next),
        Insn::Mulhu { rd, rs1, rs2 } => multiply(hart, MulOp::Mulhu, rd, rs1, rs2, next),
        Insn::Div { rd, rs1, rs2 } => multiply(hart, MulOp::Div, rd, rs1, rs2, next),
        Insn::Divu { rd, rs1, rs2 } => multiply(hart, MulOp::Divu, rd, rs1, rs2, next),
        Insn::Rem { rd, rs1, rs2 } => multiply(hart, MulOp::Rem, rd, rs1, rs2, next),
        Insn::Remu { rd, rs1, rs2 } => multiply(hart, MulOp::Remu, rd, rs1, rs2, next),
        Insn::Mulw { rd, rs1, rs2 } => multiply(hart, MulOp::Mulw, rd, rs1, rs2, next),
        Insn::Divw { rd, rs1, rs2 } => multiply(hart, MulOp::Divw, rd, rs1, rs2, next),
        Insn::Divuw { rd, rs1, rs2 } => multiply(hart, MulOp::Divuw, rd, rs1, rs2, next),
        Insn::Remw { rd, rs1, rs2 } => multiply(hart, MulOp::Remw, rd, rs1, rs2, next),
        Insn::Remuw { rd, rs1, rs2 } => multiply(hart, MulOp::Remuw, rd, rs1, rs2, next),
        Insn::Fence | Insn::FenceI => pass(hart, next),
        Insn::Csrrw { rd, rs1, csr } => {
            let value = hart.x(rs1);
            write_csr(site, hart, answers, rd, csr, value)
        }
        Insn::Csrrs { rd, rs1, csr } => {
            let value = hart.x(rs1);
            set_csr(site, hart, answers, rd, csr, rs1 != 0, value)
        }
        Insn::Csrrc { rd, rs1, csr } => {
            let value = hart.x(rs1);
            clear_csr(site, hart, answers, rd, csr, rs1 != 0, value)
        }
        Insn::Csrrwi { rd, uimm, csr } => {
            write_csr(site, hart, answers, rd, csr, u64::from(uimm))
        }
        Insn::Csrrsi { rd, uimm, csr } => {
            set_csr(site, hart, answers, rd, csr, uimm != 0, u64::from(uimm))
        }
        Insn::Csrrci { rd, uimm, csr } => {
            clear_csr(site, hart, answers, rd, csr, uimm != 0, u64::from(uimm))
        }
        Insn::Ecall => Err(Exception::call(hart.acting_mode())),
        Insn::Ebreak => Err(Exception::breakpoint(hart.pc)),
        Insn::Sret => {
            if hart.may_return_supervisor() {
                return_supervisor(hart)
            } else {
                Err(Exception::illegal(site.word))
            }
        }
        Insn::Mret => {
            if hart.may_return_machine() {
                return_machine(hart)
            } else {
                Err(Exception::illegal(site.word))
            }
        }
        Insn::Wfi => {
            if hart.may_wait() {
                pass(hart, next)
            } else {
                Err(Exception::illegal(site.word))
            }
        }
        Insn::Dret => {
            if hart.is_in_debug() {
                return_debug(hart)
            } else {
                Err(Exception::illegal(site.word))
            }
        }
        Insn::SfenceVma { .. } => {
            if hart.may_fence_translation() {
                pass(hart, next)
            } else {
                Err(Exception::illegal(site.word))
            }
        }
        Insn::LrW { rd, rs1 } => load_reserved(site, hart, memory, 4, rd, rs1),
        Insn::LrD { rd, rs1 } => load_reserved(site, hart, memory, 8, rd, rs1),
        Insn::ScW { rd, rs1, rs2 } => {
            store_conditional(site, hart, memory, answers, 4, rd, rs1, rs2)
        }
        Insn::AmoswapW { rd, rs1, rs2 } => {
            update(site, hart, memory, AmoOp::Swap, 4, rd, rs1, rs2)
        }
        Insn::AmoaddW { rd, rs1, rs2 } => {
            update(site, hart, memory, AmoOp::Add, 4, rd, rs1, rs2)
        }
        Insn::AmoxorW { rd, rs1, rs2 } => {
            update(site, hart, memory, AmoOp::Xor, 4, rd, rs1, rs2)
        }
        Insn::AmoandW { rd, rs1, rs2 } => {
            update(site, hart, memory, AmoOp::And, 4, rd, rs1, rs2)
        }
        Insn::AmoorW { rd, rs1, rs2 } => { update(site, hart, memory, AmoOp::Or, 4, rd, rs1, rs2) }
        Insn::AmominW { rd, rs1, rs2 } => {
            update(site, hart, memory, AmoOp::Min, 4, rd, rs1, rs2)
        }
        Insn::AmomaxW { rd, rs1, rs2 } => {
            update(site, hart, memory, AmoOp::Max, 4, rd, rs1, rs2)
        }
        Insn::AmominuW { rd, rs1, rs2 } => {
            update(site, hart, memory, AmoOp::Minu, 4, rd, rs1, rs2)
        }
        Insn::AmomaxuW { rd, rs1, rs2 } => {
            update(site, hart, memory, AmoOp::Maxu, 4, rd, rs1, rs2)
        }
        Insn::ScD { rd, rs1, rs2 } => {
            store_conditional(site, hart, memory, answers, 8, rd, rs1, rs2)
        }
        Insn::AmoswapD { rd, rs1, rs2 } => {
            update(site, hart, memory, AmoOp::Swap, 8, rd, rs1, rs2)
        }
        Insn::AmoaddD { rd, rs1, rs2 } => {
            update(site, hart, memory, AmoOp::Add, 8, rd, rs1, rs2)
        }
        Insn::AmoxorD { rd, rs1, rs2 } => {
            update(site, hart, memory, AmoOp::Xor, 8, rd, rs1, rs2)
        }
        Insn::AmoandD { rd, rs1, rs2 } => {
            update(site, hart, memory, AmoOp::And, 8, rd, rs1, rs2)
        }
        Insn::AmoorD { rd, rs1, rs2 } => { update(site, hart, memory, AmoOp::Or, 8, rd, rs1, rs2) }
        Insn::AmominD { rd, rs1, rs2 } => {
            update(site, hart, memory, AmoOp::Min, 8, rd, rs1, rs2)
        }
        Insn::AmomaxD { rd, rs1, rs2 } => {
            update(site, hart, memory, AmoOp::Max, 8, rd, rs1, rs2)
        }
        Insn::AmominuD { rd, rs1, rs2 } => {
            update(site, hart, memory, AmoOp::Minu, 8, rd, rs1, rs2)
        }
        Insn::AmomaxuD { rd, rs1, rs2 } => {
            update(site, hart, memory, AmoOp::Maxu, 8, rd, rs1, rs2)
        }
    }
}
