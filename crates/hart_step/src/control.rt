//! Where the pc goes.

ghost use Rattle.std.specs.Prelude.{◌≡◌, ◌%◌, ◌<◌};
ghost use Rattle.rv_alu.specs.Arithmetic.{modulo};
ghost use Rattle.hart_step.specs.Harts.{IsFitHart, register};
ghost use Rattle.hart_step.specs.Clauses.{CarriesOut};
ghost use Rattle.hart_step.specs.Effects.{at_pc, even_part, next_of, offset_by, pc_after, shows_nothing, shows_write, with_write};

use crate::arithmetic::write;
use crate::done::{Done, Written};
use crate::exception::Exception;
use crate::hart::Hart;
use rv_alu::{CondOp, branch};

/// An address and an offset, modulo 2^64.
#[tactic(auto, using(crate::proofs::Parity::even_offset))]
#[inline(always)]
pub(crate) fn offset(at: u64, imm: i64) -> u64
    ensures at { result ≡ offset_by at imm }
    ensures even { at % 2 ≡ 0 → modulo 1 imm ≡ 0 → result % 2 ≡ 0 }
{
    at.wrapping_add_signed(imm)
}

/// The address of the instruction after one of `len` bytes.
#[inline(always)]
pub(crate) fn following(hart: &Hart, len: u8) -> u64
    requires fit { IsFitHart hart.now }
    requires length { len % 2 ≡ 0 }
    ensures at { result ≡ pc_after hart.now len }
    ensures even { result % 2 ≡ 0 }
{
    hart.pc.wrapping_add(u64::from(len))
}

/// Moves the pc, and does nothing else.
#[inline(always)]
pub(crate) fn pass(hart: &mut Hart, next: u64) -> Result<Done, Exception>
    requires fit { IsFitHart hart.old }
    requires even { next % 2 ≡ 0 }
    ensures { CarriesOut hart.old hart.new result (at_pc hart.old next) shows_nothing }
{
    hart.pc = next;
    Ok(Done::plain(Written::none()))
}

/// Jumps to an offset from the pc, with the link in a register.
#[inline(always)]
pub(crate) fn jump(hart: &mut Hart, rd: u8, imm: i64, next: u64) -> Result<Done, Exception>
    requires register { rd < 32 }
    requires offset { modulo 1 imm ≡ 0 }
    requires fit { IsFitHart hart.old }
    requires even { next % 2 ≡ 0 }
    ensures { CarriesOut hart.old hart.new result
        (with_write hart.old rd next (offset_by hart.old.pc imm))
        (shows_write rd next) }
{
    let target = offset(hart.pc, imm);
    write(hart, rd, next, target)
}

/// Jumps to an offset from a register, with the link in a register.
#[inline(always)]
pub(crate) fn jump_register(
    hart: &mut Hart,
    rd: u8,
    rs1: u8,
    imm: i64,
    next: u64,
) -> Result<Done, Exception>
    requires rd { rd < 32 }
    requires rs1 { rs1 < 32 }
    requires fit { IsFitHart hart.old }
    requires even { next % 2 ≡ 0 }
    ensures { CarriesOut hart.old hart.new result
        (with_write hart.old rd next (even_part (offset_by (register hart.old rs1) imm)))
        (shows_write rd next) }
{
    let target = offset(hart.x(rs1), imm);
    write(hart, rd, next, target - target % 2)
}

/// Goes to an offset from the pc where a condition holds for two registers.
#[inline(always)]
pub(crate) fn branch_to(
    hart: &mut Hart,
    op: CondOp,
    rs1: u8,
    rs2: u8,
    imm: i64,
    len: u8,
) -> Result<Done, Exception>
    requires rs1 { rs1 < 32 }
    requires rs2 { rs2 < 32 }
    requires offset { modulo 1 imm ≡ 0 }
    requires fit { IsFitHart hart.old }
    requires length { len % 2 ≡ 0 }
    ensures { CarriesOut hart.old hart.new result
        (at_pc hart.old (next_of op len rs1 rs2 imm hart.old))
        shows_nothing }
{
    let next = if branch(op, hart.x(rs1), hart.x(rs2)) {
        offset(hart.pc, imm)
    } else {
        following(hart, len)
    };
    pass(hart, next)
}
