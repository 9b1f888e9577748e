//! Atomic memory operations.

ghost use Rattle.std.specs.Prelude.{◌≡◌, ◌⊎◌, ◌%◌, ◌<◌, IfOk};
ghost use Rattle.guest_ram.specs.Bytes.{IsSize};
ghost use Rattle.hart_step.specs.Answers.{given_by};
ghost use Rattle.hart_step.specs.Clauses.{Keeps};
ghost use Rattle.hart_step.specs.Effects.{Leaves, LeavesUntouched, has_reserved, reserved_at, reserves, stores_conditionally, updates};
ghost use Rattle.hart_step.specs.Events.{IsDone};
ghost use Rattle.hart_step.specs.Harts.{IsFitHart};

use crate::access::{Extension, Site, extended, stored};
use crate::answers::Answers;
use crate::arithmetic::{put_register, write};
use crate::control::following;
use crate::done::Done;
use crate::exception::Exception;
use crate::hart::Hart;
use crate::memory::Memory;
use rv_alu::{AmoOp, amo_value};
use sv39_walk::Kind;

/// The first of the eight aligned bytes that hold an address.
#[inline(always)]
fn reserved_at(at: u64) -> u64
    ensures value { result ≡ reserved_at at }
    ensures aligned { result % 8 ≡ 0 }
{
    at - at % 8
}

/// Whether a hart's reservation is of the eight bytes that hold an address.
#[inline(always)]
fn has_reserved(hart: &Hart, at: u64) -> bool
    ensures { result ≡ has_reserved hart.now.reservation at }
{
    match hart.reservation {
        None => false,
        Some(reserved) => reserved == reserved_at(at),
    }
}

/// Loads `size` bytes from the address in x`rs1` into x`rd`, and reserves them.
#[inline(always)]
pub(crate) fn load_reserved(
    site: Site,
    hart: &mut Hart,
    memory: &mut Memory,
    size: u8,
    rd: u8,
    rs1: u8,
) -> Result<Done, Exception>
    requires rd { rd < 32 }
    requires rs1 { rs1 < 32 }
    requires size { IsSize size }
    requires length { site.len % 2 ≡ 0 }
    requires fit { IsFitHart hart.old }
    ensures leaves { LeavesUntouched hart.old hart.new memory.old memory.new result
        (reserves size site.len rd rs1 hart.old memory.old) }
    ensures formed { IfOk result IsDone }
    ensures keeps { Keeps hart.old hart.new memory.old memory.new }
{
    let next = following(hart, site.len);
    let at = memory.ram_address(hart, Kind::Load, size, hart.x(rs1))?;
    let value = extended(Extension::Signed, size, memory.read(at, size));
    hart.reservation = Some(reserved_at(at));
    write(hart, rd, value, next)
}

/// Stores the low `size` bytes of x`rs2` at the address in x`rs1` where the hart has reserved them and
/// may win, and says in x`rd` whether it did.
#[inline(always)]
pub(crate) fn store_conditional<A: Answers>(
    site: Site,
    hart: &mut Hart,
    memory: &mut Memory,
    answers: &mut A,
    size: u8,
    rd: u8,
    rs1: u8,
    rs2: u8,
) -> Result<Done, Exception>
    requires ready { A.ready answers.old site.hart }
    requires rd { rd < 32 }
    requires rs1 { rs1 < 32 }
    requires rs2 { rs2 < 32 }
    requires size { IsSize size }
    requires length { site.len % 2 ≡ 0 }
    requires fit { IsFitHart hart.old }
    ensures leaves { Leaves A.after answers.old answers.new site.hart hart.old hart.new memory.old memory.new result
        (stores_conditionally (given_by (A.says answers.old site.hart) hart.old)
        size site.len rd rs1 rs2 hart.old memory.old) }
    ensures formed { IfOk result IsDone }
    ensures keeps { Keeps hart.old hart.new memory.old memory.new }
{
    let next = following(hart, site.len);
    let (address, value) = (hart.x(rs1), hart.x(rs2));
    let at = memory.ram_address(hart, Kind::Store, size, address)?;
    let wins = has_reserved(hart, at) && answers.sc_may_win(site.hart);
    hart.reservation = None;
    if !wins {
        return write(hart, rd, 1, next);
    }
    memory.write(at, size, value);
    let shown = put_register(hart, rd, 0, next);
    Ok(stored(shown, at, size, value))
}

/// The body of [`update`], which stands once for all its instructions.
#[inline(never)]
fn update_bytes(
    site: Site,
    hart: &mut Hart,
    memory: &mut Memory,
    op: AmoOp,
    size: u8,
    rd: u8,
    rs1: u8,
    rs2: u8,
) -> Result<Done, Exception>
    requires rd { rd < 32 }
    requires rs1 { rs1 < 32 }
    requires rs2 { rs2 < 32 }
    requires size { (size ≡ 4) ⊎ (size ≡ 8) }
    requires length { site.len % 2 ≡ 0 }
    requires fit { IsFitHart hart.old }
    ensures leaves { LeavesUntouched hart.old hart.new memory.old memory.new result
        (updates op size site.len rd rs1 rs2 hart.old memory.old) }
    ensures formed { IfOk result IsDone }
    ensures keeps { Keeps hart.old hart.new memory.old memory.new }
{
    let next = following(hart, site.len);
    let at = memory.ram_address(hart, Kind::Store, size, hart.x(rs1))?;
    let value = hart.x(rs2);
    let old = memory.read(at, size);
    let new = amo_value(op, size, old, value);
    memory.write(at, size, new);
    let shown = put_register(hart, rd, extended(Extension::Signed, size, old), next);
    Ok(stored(shown, at, size, new))
}

/// Loads `size` bytes from the address in x`rs1` into x`rd`, and stores the value of an operation on
/// them and x`rs2` there.
#[inline(always)]
pub(crate) fn update(
    site: Site,
    hart: &mut Hart,
    memory: &mut Memory,
    op: AmoOp,
    size: u8,
    rd: u8,
    rs1: u8,
    rs2: u8,
) -> Result<Done, Exception>
    requires rd { rd < 32 }
    requires rs1 { rs1 < 32 }
    requires rs2 { rs2 < 32 }
    requires size { (size ≡ 4) ⊎ (size ≡ 8) }
    requires length { site.len % 2 ≡ 0 }
    requires fit { IsFitHart hart.old }
    ensures leaves { LeavesUntouched hart.old hart.new memory.old memory.new result
        (updates op size site.len rd rs1 rs2 hart.old memory.old) }
    ensures formed { IfOk result IsDone }
    ensures keeps { Keeps hart.old hart.new memory.old memory.new }
{
    update_bytes(site, hart, memory, op, size, rd, rs1, rs2)
}
