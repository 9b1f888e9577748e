//! Instructions that write a register.

ghost use Rattle.std.specs.Prelude.{◌≡◌, ◌%◌, ◌<◌};
ghost use Rattle.rv_alu.specs.Arithmetic.{alu_of, modulo, mul_div_of};
ghost use Rattle.hart_step.specs.Clauses.{CarriesOut};
ghost use Rattle.hart_step.specs.Harts.{IsFitHart, register, shown_register, StaysFit};
ghost use Rattle.hart_step.specs.Effects.{shows_write, with_write};
ghost use Rattle.hart_step.specs.Events.{IsWritten};

use crate::done::{Done, Written};
use crate::exception::Exception;
use crate::hart::Hart;
use rv_alu::{BinOp, MulOp, alu, mul_div};

/// A signed number as a 64-bit word.
#[inline(always)]
pub(crate) fn word_of(imm: i64) -> u64
    ensures { result ≡ modulo 64 imm }
{
    imm.cast_unsigned()
}

/// Writes a register, and moves the pc. Answers what is shown of the register.
#[inline(always)]
pub(crate) fn put_register(hart: &mut Hart, rd: u8, value: u64, next: u64) -> Written
    requires register { rd < 32 }
    requires fit { IsFitHart hart.old }
    requires even { next % 2 ≡ 0 }
    ensures hart { hart.new ≡ with_write hart.old rd value next }
    ensures shown { result ≡ shown_register rd value }
    ensures range { IsWritten result }
    ensures fit { StaysFit hart.old hart.new }
{
    let shown = hart.write(rd, value);
    hart.pc = next;
    shown
}

/// Writes a register, and moves the pc, which is all that is shown.
#[inline(always)]
pub(crate) fn write(hart: &mut Hart, rd: u8, value: u64, next: u64) -> Result<Done, Exception>
    requires register { rd < 32 }
    requires fit { IsFitHart hart.old }
    requires even { next % 2 ≡ 0 }
    ensures { CarriesOut hart.old hart.new result (with_write hart.old rd value next) (shows_write rd value) }
{
    let shown = put_register(hart, rd, value, next);
    Ok(Done::plain(shown))
}

/// Writes the value of an operation on a register and an immediate.
#[inline(always)]
pub(crate) fn compute_immediate(
    hart: &mut Hart,
    op: BinOp,
    rd: u8,
    rs1: u8,
    imm: i64,
    next: u64,
) -> Result<Done, Exception>
    requires rd { rd < 32 }
    requires rs1 { rs1 < 32 }
    requires fit { IsFitHart hart.old }
    requires even { next % 2 ≡ 0 }
    ensures { CarriesOut hart.old hart.new result
        (with_write hart.old rd (alu_of op (register hart.old rs1) (modulo 64 imm)) next)
        (shows_write rd (alu_of op (register hart.old rs1) (modulo 64 imm))) }
{
    let value = alu(op, hart.x(rs1), word_of(imm));
    write(hart, rd, value, next)
}

/// Writes the value of a shift of a register by an amount.
#[inline(always)]
pub(crate) fn compute_shift(
    hart: &mut Hart,
    op: BinOp,
    rd: u8,
    rs1: u8,
    shamt: u8,
    next: u64,
) -> Result<Done, Exception>
    requires rd { rd < 32 }
    requires rs1 { rs1 < 32 }
    requires fit { IsFitHart hart.old }
    requires even { next % 2 ≡ 0 }
    ensures { CarriesOut hart.old hart.new result
        (with_write hart.old rd (alu_of op (register hart.old rs1) shamt) next)
        (shows_write rd (alu_of op (register hart.old rs1) shamt)) }
{
    let value = alu(op, hart.x(rs1), u64::from(shamt));
    write(hart, rd, value, next)
}

/// Writes the value of an operation on two registers.
#[inline(always)]
pub(crate) fn compute(
    hart: &mut Hart,
    op: BinOp,
    rd: u8,
    rs1: u8,
    rs2: u8,
    next: u64,
) -> Result<Done, Exception>
    requires rd { rd < 32 }
    requires rs1 { rs1 < 32 }
    requires rs2 { rs2 < 32 }
    requires fit { IsFitHart hart.old }
    requires even { next % 2 ≡ 0 }
    ensures { CarriesOut hart.old hart.new result
        (with_write hart.old rd (alu_of op (register hart.old rs1) (register hart.old rs2)) next)
        (shows_write rd (alu_of op (register hart.old rs1) (register hart.old rs2))) }
{
    let value = alu(op, hart.x(rs1), hart.x(rs2));
    write(hart, rd, value, next)
}

/// Writes a product, quotient or remainder of two registers.
#[inline(always)]
pub(crate) fn multiply(
    hart: &mut Hart,
    op: MulOp,
    rd: u8,
    rs1: u8,
    rs2: u8,
    next: u64,
) -> Result<Done, Exception>
    requires rd { rd < 32 }
    requires rs1 { rs1 < 32 }
    requires rs2 { rs2 < 32 }
    requires fit { IsFitHart hart.old }
    requires even { next % 2 ≡ 0 }
    ensures { CarriesOut hart.old hart.new result
        (with_write hart.old rd (mul_div_of op (register hart.old rs1) (register hart.old rs2)) next)
        (shows_write rd (mul_div_of op (register hart.old rs1) (register hart.old rs2))) }
{
    let value = mul_div(op, hart.x(rs1), hart.x(rs2));
    write(hart, rd, value, next)
}
