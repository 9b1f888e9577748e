//! The block that puts the devices back.

ghost use Rattle.std.specs.Prelude.{◌≡◌, ◌+◌, ◌*◌, ◌%◌, ◌<◌, ◌≤◌, [], IfOk, OnOk, length, slice_index};
ghost use Rattle.clint.specs.State.{hart_count};
ghost use Rattle.plic.specs.State.{context_count};
ghost use Rattle.board_bus.specs.Board.{hart_count as board_harts};
ghost use Rattle.rom_gen.specs.DeviceBlock.{compare_deeds, context_deeds, device_deeds, marks_deeds, queue_deeds, soft_deeds};
ghost use Rattle.rom_gen.specs.Executed.{IsBlockAddress, RestoresDevices};
ghost use Rattle.rom_gen.specs.Rom.{device_bytes, device_size};
ghost use Rattle.rom_gen.specs.Writing.{Dealt, offset_of};

use crate::rom::NoMemory;
use crate::words::{Width, go};
use crate::writer::Writer;
use board_bus::Board;
use clint::Clint;
use console::Console;
use plic::Plic;
use std::alloc::Global;

/// The block of the boot ROM that puts the devices of a board for so many harts back, and goes on at the
/// address `next`, a multiple of 8 in the ROM's range. It begins at `at`; the code is relative to x1, which
/// has that address, so the same bytes serve at every other.
///
/// # Errors
///
/// `NoMemory` where the allocator has no room for the bytes.
pub fn device_stub(
    alloc: Global,
    board: &Board,
    harts: u8,
    at: u64,
    next: u64,
) -> Result<Vec<u8>, NoMemory>
    requires harts { harts ≡ board_harts board.now }
    requires next { IsBlockAddress next }
    ensures bytes { IfOk result (λ v. v.items ≡ device_bytes board.now next) }
    ensures size { IfOk result (λ v. length v.items ≡ device_size board.now) }
    ensures aligned { IfOk result (λ v. length v.items % 8 ≡ 0) }
    ensures short { IfOk result (λ v. length v.items ≤ 1616) }
    ensures executed { IfOk result (λ v. RestoresDevices board.now at next v.items) }
{
    board.see_fit();
    device_block(alloc, board, harts, next)
}

/// The bytes of that block.
pub(crate) fn device_block(
    alloc: Global,
    board: &Board,
    harts: u8,
    next: u64,
) -> Result<Vec<u8>, NoMemory>
    requires { harts ≡ board_harts board.now }
    ensures { IfOk result (λ v. v.items ≡ device_bytes board.now next) }
{
    board.see_fit();
    let mut draft = Writer::new(alloc, 0);
    draft.devices(board, harts)?;
    draft.far(next)?;
    let mut writer = Writer::new(alloc, draft.pool_place());
    writer.devices(board, harts)?;
    writer.far(next)?;
    writer.end(go())
}

impl Writer {
    /// The contexts of the interrupt controller: enable bits and threshold of each.
    fn contexts(&mut self, plic: &Plic, count: u8) -> Result<(), NoMemory>
        requires count { count ≤ context_count plic.now }
        requires few { count ≤ 16 }
        requires room { offset_of self.old + 16 * count ≤ 2048 }
        ensures code { OnOk result (Dealt self.old self.new (context_deeds count 0 plic.now.enable plic.now.threshold [])) }
        ensures room { OnOk result (offset_of self.new ≤ offset_of self.old + 16 * count) }
    {
        plic.see_fit();
        for c in 0..count {
            let place = u32::from(c);
            self.save_up(Width::Word, u64::from(plic.enabled(c)), 4, 128 * place)?;
            self.aim(5, 0xc20_0000 + 4096 * place)?;
            self.save_up(Width::Word, u64::from(plic.threshold(c)), 5, 0)?;
        }
        Ok(())
    }

    /// The bytes that wait, from the front; in loop mode they enter the queue.
    fn queue(&mut self, console: &Console) -> Result<(), NoMemory>
        requires room { offset_of self.old + 128 ≤ 2048 }
        ensures code { OnOk result (Dealt self.old self.new (queue_deeds console.now.queue [])) }
        ensures room { OnOk result (offset_of self.new ≤ offset_of self.old + 128) }
    {
        console.see_fit();
        for i in 0..console.waiting() {
            self.save_up(Width::Byte, u64::from(console.byte(i)), 2, 0)?;
        }
        Ok(())
    }

    /// The software interrupts of the harts.
    fn soft(&mut self, clint: &Clint, harts: u8) -> Result<(), NoMemory>
        requires harts { harts ≤ hart_count clint.now }
        requires few { harts ≤ 8 }
        requires room { offset_of self.old + 8 * harts ≤ 2048 }
        ensures code { OnOk result (Dealt self.old self.new (soft_deeds harts 0 clint.now.msip [])) }
        ensures room { OnOk result (offset_of self.new ≤ offset_of self.old + 8 * harts) }
    {
        for h in 0..harts {
            self.save_up(Width::Word, soft_bit(clint, h), 5, 4 * u32::from(h))?;
        }
        Ok(())
    }

    /// The times at which the timer interrupts of the harts are due.
    fn compares(&mut self, clint: &Clint, harts: u8) -> Result<(), NoMemory>
        requires harts { harts ≤ hart_count clint.now }
        requires few { harts ≤ 8 }
        requires room { offset_of self.old + 8 * harts ≤ 2048 }
        ensures code { OnOk result (Dealt self.old self.new (compare_deeds harts 0 clint.now.mtimecmp [])) }
        ensures room { OnOk result (offset_of self.new ≤ offset_of self.old + 8 * harts) }
    {
        for h in 0..harts {
            self.save_up(Width::Double, compare(clint, h), 7, 8 * u32::from(h))?;
        }
        Ok(())
    }

    /// The base registers, and the served marks, which claims alone set: with both sources at priority 1
    /// and the console's two interrupts on, context 0 enables the sources that are to be served and claims
    /// twice. The byte that raised the input's interrupt is taken out again.
    fn marks(&mut self, served: u8) -> Result<(), NoMemory>
        requires room { offset_of self.old + 32 ≤ 2048 }
        ensures code { OnOk result (Dealt self.old self.new (marks_deeds served [])) }
        ensures room { OnOk result (offset_of self.new ≤ offset_of self.old + 32) }
    {
        self.aim(2, 0x1000_0000)?;
        self.aim(3, 0xc00_0000)?;
        self.aim(4, 0xc00_2000)?;
        self.aim(5, 0xc20_0000)?;
        self.save_up(Width::Word, 1, 3, 4)?;
        self.again(Width::Word, 1, 3, 8)?;
        self.save_up(Width::Word, u64::from(served), 4, 0)?;
        self.save_up(Width::Word, 7, 2, 8)?;
        self.save_up(Width::Byte, 0, 2, 0)?;
        self.read(Width::Word, 5, 4)?;
        self.read(Width::Word, 5, 4)?;
        self.read(Width::Byte, 2, 0)
    }

    /// Puts the devices of a board for so many harts back.
    fn devices(&mut self, board: &Board, harts: u8) -> Result<(), NoMemory>
        requires harts { harts ≡ board_harts board.now }
        requires room { offset_of self.old + 584 ≤ 2048 }
        ensures { OnOk result (Dealt self.old self.new (device_deeds board.now)) }
    {
        board.see_fit();
        let time = board.time();
        let console = board.console();
        let plic = board.plic();
        let clint = board.clint();
        self.marks(plic.served())?;
        self.queue(console)?;
        self.save_up(Width::Word, u64::from(plic.priority(1)), 3, 4)?;
        self.save_up(Width::Word, u64::from(plic.priority(2)), 3, 8)?;
        self.contexts(plic, 2 * harts)?;
        self.save_up(Width::Word, u64::from(console.ctrl()), 2, 8)?;
        self.save_up(Width::Double, console.txaddr(), 2, 16)?;
        self.aim(5, 0x200_0000)?;
        self.soft(clint, harts)?;
        self.aim(7, 0x200_4000)?;
        self.compares(clint, harts)?;
        self.aim(5, 0x200_c000)?;
        self.save(Width::Double, time, 5, -8)
    }
}

/// The software interrupt of a hart, as its register has it.
#[tactic(auto, using(crate::proofs::Dealings::bit_is))]
fn soft_bit(clint: &Clint, h: u8) -> u64
    requires { h < hart_count clint.now }
    ensures { result ≡ slice_index clint.now.msip h }
{
    clint.see_fit();
    if clint.soft_due(h) { 1 } else { 0 }
}

/// The time at which the timer interrupt of a hart is due.
#[tactic(auto, using(crate::proofs::Dealings::compare_loaded))]
fn compare(clint: &Clint, h: u8) -> u64
    requires { h < hart_count clint.now }
    ensures { result ≡ slice_index clint.now.mtimecmp h }
{
    clint.see_fit();
    match clint.load(0x4000 + 8 * u64::from(h), 8) {
        Ok(v) => v,
        Err(_) => 0,
    }
}
