//! Loads and stores.

ghost use Rattle.std.specs.Prelude.{◌≡◌, ◌%◌, ◌<◌, ◌≤◌, IfOk};
ghost use Rattle.guest_ram.specs.Bytes.{IsSize};
ghost use Rattle.hart_step.specs.Answers.{given_by};
ghost use Rattle.hart_step.specs.Clauses.{Keeps};
ghost use Rattle.hart_step.specs.Effects.{Leaves, extended_by, loads_at, shows_store, stores_at};
ghost use Rattle.hart_step.specs.Events.{IsDone, IsWritten};
ghost use Rattle.hart_step.specs.Harts.{IsFitHart};

use crate::answers::Answers;
use crate::arithmetic::{put_register, write};
use crate::control::following;
use crate::done::{Done, Stored, Written};
use crate::exception::Exception;
use crate::hart::Hart;
use crate::memory::Memory;
use board_bus::listed;
use rv_alu::{low_bytes, sext};
use sv39_walk::Kind;

/// Where an instruction stands: the number of its hart, how many harts the board has, and the word
/// and its length in bytes.
#[derive(Clone, Copy)]
pub(crate) struct Site {
    pub(crate) hart: u8,
    pub(crate) harts: u8,
    pub(crate) word: u32,
    pub(crate) len: u8,
}

/// What stands above the loaded bytes in a register.
#[derive(Clone, Copy)]
pub(crate) enum Extension {
    /// Their sign.
    Signed,
    /// Zeros.
    Unsigned,
}

/// A number of `size` loaded bytes as the value of a register.
#[inline(always)]
pub(crate) fn extended(extension: Extension, size: u8, value: u64) -> u64
    requires { IsSize size }
    ensures { result ≡ extended_by extension size value }
{
    match extension {
        Extension::Signed => sext(value, 8 * size),
        Extension::Unsigned => value,
    }
}

/// The body of [`load`], which stands once for all its instructions, so that what it asks first, the page that
/// the walker remembers, makes none of their arms longer.
#[inline(never)]
fn load_bytes<A: Answers>(
    site: Site,
    hart: &mut Hart,
    memory: &mut Memory,
    answers: &mut A,
    size: u8,
    extension: Extension,
    va: u64,
    rd: u8,
) -> Result<Done, Exception>
    requires ready { A.ready answers.old site.hart }
    requires register { rd < 32 }
    requires size { IsSize size }
    requires harts { site.harts ≤ 8 }
    requires length { site.len % 2 ≡ 0 }
    requires fit { IsFitHart hart.old }
    ensures leaves { Leaves A.after answers.old answers.new site.hart hart.old hart.new memory.old memory.new result
        (loads_at (given_by (A.says answers.old site.hart) hart.old)
        site.harts size extension site.len rd va hart.old memory.old) }
    ensures formed { IfOk result IsDone }
    ensures keeps { Keeps hart.old hart.new memory.old memory.new }
{
    let next = following(hart, site.len);
    if let Some(at) = memory.near(hart, Kind::Load, size, va) {
        let value = extended(extension, size, memory.read(at, size));
        return write(hart, rd, value, next);
    }
    let at = memory.data_address(hart, Kind::Load, size, va)?;
    if memory.holds(at, size) {
        let value = extended(extension, size, memory.read(at, size));
        return write(hart, rd, value, next);
    }
    if listed(site.harts, at, size) {
        let word = answers.device_load(site.hart, at, size);
        let shown = put_register(hart, rd, extended(extension, size, word), next);
        return Ok(Done::answered(shown, word));
    }
    if hart.is_in_debug() && memory.rom_holds(at, size) {
        let value = extended(extension, size, memory.rom_read(at, size));
        return write(hart, rd, value, next);
    }
    Err(Exception::access(Kind::Load, va))
}

/// Loads `size` bytes at `va` into register x`rd`.
#[inline(always)]
pub(crate) fn load<A: Answers>(
    site: Site,
    hart: &mut Hart,
    memory: &mut Memory,
    answers: &mut A,
    size: u8,
    extension: Extension,
    va: u64,
    rd: u8,
) -> Result<Done, Exception>
    requires ready { A.ready answers.old site.hart }
    requires register { rd < 32 }
    requires size { IsSize size }
    requires harts { site.harts ≤ 8 }
    requires length { site.len % 2 ≡ 0 }
    requires fit { IsFitHart hart.old }
    ensures leaves { Leaves A.after answers.old answers.new site.hart hart.old hart.new memory.old memory.new result
        (loads_at (given_by (A.says answers.old site.hart) hart.old)
        site.harts size extension site.len rd va hart.old memory.old) }
    ensures formed { IfOk result IsDone }
    ensures keeps { Keeps hart.old hart.new memory.old memory.new }
{
    if memory.is_direct(hart, size, va) {
        let next = following(hart, site.len);
        let value = extended(extension, size, memory.read(va, size));
        return write(hart, rd, value, next);
    }
    load_bytes(site, hart, memory, answers, size, extension, va, rd)
}

/// What is shown of a store of the low `size` bytes of a value, by an instruction that shows this register
/// too.
#[inline(always)]
pub(crate) fn stored(rd: Written, at: u64, size: u8, value: u64) -> Done
    requires size { IsSize size }
    requires register { IsWritten rd }
    ensures shown { result ≡ record (shows_store at size value) { rd = rd } }
    ensures formed { IsDone result }
{
    Done::stored(rd, Stored::new(at, size, low_bytes(size, value)))
}

/// The body of [`store`], which stands once for all its instructions.
#[inline(never)]
fn store_bytes<A: Answers>(
    site: Site,
    hart: &mut Hart,
    memory: &mut Memory,
    answers: &mut A,
    size: u8,
    va: u64,
    value: u64,
) -> Result<Done, Exception>
    requires ready { A.ready answers.old site.hart }
    requires size { IsSize size }
    requires harts { site.harts ≤ 8 }
    requires length { site.len % 2 ≡ 0 }
    requires fit { IsFitHart hart.old }
    ensures leaves { Leaves A.after answers.old answers.new site.hart hart.old hart.new memory.old memory.new result
        (stores_at site.harts size value site.len va hart.old memory.old) }
    ensures formed { IfOk result IsDone }
    ensures keeps { Keeps hart.old hart.new memory.old memory.new }
{
    let next = following(hart, site.len);
    if let Some(at) = memory.near(hart, Kind::Store, size, va) {
        memory.write(at, size, value);
        hart.pc = next;
        return Ok(stored(Written::none(), at, size, value));
    }
    let at = memory.data_address(hart, Kind::Store, size, va)?;
    if memory.holds(at, size) {
        memory.write(at, size, value);
        hart.pc = next;
        return Ok(stored(Written::none(), at, size, value));
    }
    if listed(site.harts, at, size) {
        answers.device_store(site.hart, at, size, low_bytes(size, value), memory.ram());
        hart.pc = next;
        return Ok(stored(Written::none(), at, size, value));
    }
    Err(Exception::access(Kind::Store, va))
}

/// Stores the low `size` bytes of a value at `va`.
#[inline(always)]
pub(crate) fn store<A: Answers>(
    site: Site,
    hart: &mut Hart,
    memory: &mut Memory,
    answers: &mut A,
    size: u8,
    va: u64,
    value: u64,
) -> Result<Done, Exception>
    requires ready { A.ready answers.old site.hart }
    requires size { IsSize size }
    requires harts { site.harts ≤ 8 }
    requires length { site.len % 2 ≡ 0 }
    requires fit { IsFitHart hart.old }
    ensures leaves { Leaves A.after answers.old answers.new site.hart hart.old hart.new memory.old memory.new result
        (stores_at site.harts size value site.len va hart.old memory.old) }
    ensures formed { IfOk result IsDone }
    ensures keeps { Keeps hart.old hart.new memory.old memory.new }
{
    if memory.is_direct(hart, size, va) {
        memory.write(va, size, value);
        hart.pc = following(hart, site.len);
        return Ok(stored(Written::none(), va, size, value));
    }
    store_bytes(site, hart, memory, answers, size, va, value)
}
