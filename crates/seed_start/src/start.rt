//! The start of the machine that a seed stands for.

ghost use Rattle.std.specs.Prelude.{◌≡◌, IfOk};
ghost use Rattle.machine_start.specs.Start.{IsStart};
ghost use Rattle.seed_start.specs.Seed.{start_of_seed};

use crate::program::image;
use guest_ram::{BASE, GuestRam};
use machine_start::Start;
use sim_config::Shape;
use std::alloc::{AllocError, Global};

/// The allocator has no room for the machine's memory.
pub type NoMemory = AllocError;

/// The length of the memory.
const RAM: u64 = 0x1_0000;

/// The machine that a seed stands for, with its program: 1 + `seed` mod 8 harts, 1 + `seed` / 8 mod 16 steps
/// in a turn, 65,536 bytes of memory, and no host window.
///
/// # Errors
///
/// `NoMemory` where the allocator has no room for the memory.
pub fn seed_start(alloc: Global, seed: u64) -> Result<Start, NoMemory>
    ensures start { IfOk result (λ start. start ≡ start_of_seed seed) }
    ensures fit { IfOk result IsStart }
{
    let image = image(alloc, seed)?;
    let mut ram = GuestRam::new(alloc, RAM)?;
    ram.part_mut(BASE, image.len() as u64)
        .copy_from_slice(&image);
    Ok(Start {
        shape: Shape {
            harts: 1 + (seed % 8) as u8,
            ram: RAM,
            slice: 1 + (seed / 8 % 16) as u16,
            tohost: 0,
        },
        ram,
        entry: BASE,
    })
}
