//! The start of a flat image.

ghost use Rattle.std.specs.Prelude.{◌≡◌, ◌≤◌, Err, IfErr, IfOk, IfSome, Ok, length};
ghost use Rattle.outside_io.specs.Content.{IsHeld};
ghost use Rattle.machine_start.specs.Quiet.{StartsQuietly};
ghost use Rattle.machine_start.specs.Reading.{OnlyReads};
ghost use Rattle.machine_start.specs.Refusal.{StartIsRefused};
ghost use Rattle.machine_start.specs.Start.{IsStart, flat_ram, flat_start, start_from_image};

use crate::fault::StartFault;
use crate::reading::{Contents, read_file};
use crate::start::Start;
use elf_load::ElfFault;
use guest_ram::{BASE, GuestRam};
use outside_io::Files;
use sim_config::Shape;
use std::alloc::{AllocError, Global};

/// The length of the memory under a flat image, and of the longest image.
const FLAT_RAM: u64 = 0x1_0000;

/// The start of an image's bytes: one hart, and the bytes from the first of the memory on.
fn flat_start(alloc: Global, image: &[u8]) -> Result<Start, AllocError>
    requires { length image.now ≤ flat_ram }
    ensures { IfOk result (λ start. start ≡ flat_start image.now) }
{
    let mut ram = GuestRam::new(alloc, FLAT_RAM)?;
    ram.part_mut(BASE, image.len() as u64)
        .copy_from_slice(image);
    Ok(Start {
        shape: Shape {
            harts: 1,
            ram: FLAT_RAM,
            slice: 16,
            tohost: 0,
        },
        ram,
        entry: BASE,
    })
}

/// Reads a flat image, and answers its start: one hart, whose first instruction is the first byte of the
/// memory. An image of more than 65,536 bytes is refused.
pub fn image_start<F: Files>(alloc: Global, files: &mut F, name: &str) -> Result<Start, StartFault>
    ensures start { IfOk result (λ start. IfSome (F.held files.old) (λ held.
        start_from_image held name.now ≡ Ok start)) }
    ensures refused { IfErr result (λ fault. StartIsRefused fault
        (IfSome (F.held files.old) (λ held. start_from_image held name.now ≡ Err fault))
        (F.read_faults files.old) (F.read_faults files.new)) }
    ensures fit { IfOk result IsStart }
    ensures leaves { OnlyReads F.held F.read_faults F.write_faults files.old files.new result }
    ensures calm { F.quiet files.old → IsHeld (F.held files.old) name.now → StartsQuietly (F.quiet files.new) result }
{
    match read_file(alloc, files, name, FLAT_RAM)? {
        Contents::Bytes(image) => Ok(flat_start(alloc, &image)?),
        Contents::TooLong(_) => Err(StartFault::Elf(ElfFault::OutsideRam(0))),
    }
}
