//! The whole boot ROM.

ghost use Rattle.std.specs.Prelude.{◌≡◌, ◌+◌, ◌*◌, ◌<◌, ◌≤◌, ◌==◌, IfOk, IsTrue, if◌then◌else◌, length};
ghost use Rattle.board_bus.specs.Board.{hart_count};
ghost use Rattle.hart_step.specs.Memory.{most_rom, rom_base};
ghost use Rattle.hart_turns.specs.Machine.{is_running};
ghost use Rattle.rom_gen.specs.Executed.{Restores};
ghost use Rattle.rom_gen.specs.Rom.{device_size, rom_bytes};

use crate::device_block::device_block;
use crate::entry::dispatch;
use crate::hart_block::hart_block;
use board_bus::Board;
use hart_step::Core;
use hart_turns::Machine;
use std::alloc::{AllocError, Global};
use std::marker::Model;

/// The allocator has no room for the bytes.
pub type NoMemory = AllocError;

/// A boot ROM. Contracts see it as its bytes.
#[derive(Drop)]
pub struct Rom {
    bytes: Vec<u8>,
}

impl Model for Rom {
    ghost use Rattle.std.specs.Prelude.{ℕ, List};

    ghost Value = { List ℕ };

    ghost view = { λ rom. rom.bytes.items };
}

impl Rom {
    /// The bytes, of which the first stands at the address 0x10000.
    pub fn bytes(&self) -> &[u8]
        ensures { result.now ≡ self.now }
    {
        &self.bytes
    }

    /// The same, as a vector.
    pub fn into_bytes(self) -> Vec<u8>
        ensures { result.items ≡ self }
    {
        self.bytes
    }
}

/// The boot ROM of a running machine: a machine at reset in debug mode that has its shape, its memory
/// and this ROM becomes the machine by executing it, without its reservations, and sends nothing.
///
/// # Errors
///
/// `NoMemory` where the allocator has no room for the bytes.
pub fn rom_of(alloc: Global, m: &Machine) -> Result<Rom, NoMemory>
    requires running { IsTrue (is_running m.now.machine) }
    ensures room { IfOk result (λ rom. length rom ≤ most_rom) }
    ensures bytes { IfOk result (λ rom. rom ≡ rom_bytes m.now.machine.board m.now.machine.core.harts) }
    ensures restores { IfOk result (λ rom. Restores m.now.machine rom) }
{
    m.see_fit();
    let bytes = bytes_of(alloc, m.core(), m.board(), m.shape().harts)?;
    Ok(Rom { bytes })
}

/// The bytes of the ROM that puts these harts and devices back.
fn bytes_of(alloc: Global, core: &Core, board: &Board, harts: u8) -> Result<Vec<u8>, NoMemory>
    requires harts { harts ≡ length core.now.harts }
    requires devices { harts ≡ hart_count board.now }
    ensures { IfOk result (λ v. v.items ≡ rom_bytes board.now core.now.harts) }
{
    core.see_fit();
    let first = 0x1_0018 + 8 * u64::from(harts) + u64::from(device_length(alloc, board, harts)?);
    let device = device_block(alloc, board, harts, first)?;
    let mut starts = Vec::new(alloc);
    let mut blocks = Vec::new(alloc);
    for h in 0..harts {
        starts.push(start_of(h, harts, first, blocks.as_slice().len() as u32))?;
        let block = hart_block(alloc, core.hart(h))?;
        blocks.extend_from_slice(&block)?;
    }
    let mut rom = dispatch(alloc, &starts)?;
    rom.extend_from_slice(&device)?;
    rom.extend_from_slice(&blocks)?;
    Ok(rom)
}

/// Where hart `h` goes on from the dispatch: hart 0 at the block of the devices, and each other at its
/// own block, so many bytes behind the first one.
fn start_of(h: u8, harts: u8, first: u64, before: u32) -> u64
    requires first { first ≤ 100000 }
    requires before { before ≤ 10000 }
    ensures { result ≡ (if h == 0 then rom_base + (24 + 8 * harts) else first + before) }
{
    if h == 0 {
        0x1_0018 + 8 * u64::from(harts)
    } else {
        first + u64::from(before)
    }
}

/// How long the block of the devices is, wherever it goes on.
#[tactic(auto, using(crate::proofs::RomParts::device_length, crate::proofs::RomParts::device_small))]
fn device_length(alloc: Global, board: &Board, harts: u8) -> Result<u32, NoMemory>
    requires harts { harts ≡ hart_count board.now }
    ensures size { IfOk result (λ n. n ≡ device_size board.now) }
    ensures small { IfOk result (λ n. n ≤ 1616) }
{
    board.see_fit();
    let draft = device_block(alloc, board, harts, 0)?;
    Ok(draft.len() as u32)
}
