//! Saving a checkpoint.

ghost use Rattle.std.specs.Prelude.{◌≡◌, ◌≤◌, ◌∷◌, [], IfOk, IsSome, OnOk, length, string_bytes};
ghost use Rattle.outside_io.specs.Content.{IsHeld};
ghost use Rattle.outside_acts.specs.Acts.{Append, Start};
ghost use Rattle.hart_step.specs.Memory.{most_rom};
ghost use Rattle.image_saver.specs.Saving.{SavesQuietly, Writes, file_acts, save_acts};

use crate::fault::{Part, SaveFault};
use crate::names::{meta_file, part_file};
use guest_ram::{BASE, GuestRam};
use hart_turns::Machine;
use outside_io::Files;
use sim_config::{Meta, meta_text};
use std::alloc::Global;

/// The longest piece of RAM that is added to its file at once.
const LONGEST_PIECE: u64 = 65_536;

/// Starts a file.
fn start<F: Files>(files: &mut F, file: &str) -> Result<(), SaveFault>
    ensures writes { Writes F.held F.read_faults F.write_faults (Start file.now ∷ []) files.old files.new result }
    ensures there { OnOk result (IsSome (F.held files.old) → IsHeld (F.held files.new) file.now) }
    ensures calm { F.quiet files.old → SavesQuietly (F.quiet files.new) result }
{
    Ok(files.start(file)?)
}

/// Adds bytes to a file.
fn append<F: Files>(files: &mut F, file: &str, piece: &[u8]) -> Result<(), SaveFault>
    ensures writes { Writes F.held F.read_faults F.write_faults (Append file.now piece.now ∷ []) files.old files.new result }
    ensures calm { F.quiet files.old → IsHeld (F.held files.old) file.now → SavesQuietly (F.quiet files.new) result }
{
    Ok(files.append(file, piece)?)
}

/// Makes a file with these bytes.
fn write_file<F: Files>(files: &mut F, name: &str, bytes: &[u8]) -> Result<(), SaveFault>
    ensures writes { Writes F.held F.read_faults F.write_faults (Start name.now ∷ Append name.now bytes.now ∷ [])
        files.old files.new result }
    ensures calm { F.quiet files.old → IsSome (F.held files.old) → SavesQuietly (F.quiet files.new) result }
{
    start(files, name)?;
    append(files, name, bytes)
}

/// Makes a file with the bytes of memory, which go to it in pieces.
fn write_ram<F: Files>(files: &mut F, file: &str, ram: &GuestRam) -> Result<(), SaveFault>
    ensures writes { Writes F.held F.read_faults F.write_faults (Start file.now ∷ Append file.now ram.now ∷ [])
        files.old files.new result }
    ensures calm { F.quiet files.old → IsSome (F.held files.old) → SavesQuietly (F.quiet files.new) result }
{
    start(files, file)?;
    let len = ram.len();
    let mut done = 0;
    while done < len {
        let size = (len - done).min(LONGEST_PIECE);
        files.append(file, ram.part(BASE + done, size))?;
        done += size;
    }
    Ok(())
}

/// Writes the three files of a checkpoint: the meta text, which is written last, the image of RAM and
/// the boot ROM.
fn write_files<F: Files>(
    files: &mut F,
    meta: &str,
    mainram: &str,
    bootram: &str,
    ram: &GuestRam,
    rom: &[u8],
    text: &[u8],
) -> Result<(), SaveFault>
    ensures writes { Writes F.held F.read_faults F.write_faults
        (file_acts meta.now mainram.now bootram.now ram.now rom.now text.now) files.old files.new result }
    ensures calm { F.quiet files.old → IsSome (F.held files.old) → SavesQuietly (F.quiet files.new) result }
{
    start(files, meta)?;
    write_ram(files, mainram, ram)?;
    write_file(files, bootram, rom)?;
    append(files, meta, text)
}

/// Saves a machine and the boot ROM that puts it back, of at most 131,072 bytes, under a name: the
/// file of the meta text is started, then the image of RAM and the ROM are written, and the meta text
/// comes last.
///
/// # Errors
///
/// `Failed` where a write failed, and `NoMemory`. The acts before one of them were done then, and perhaps a part
/// of that one.
pub fn save<F: Files>(
    alloc: Global,
    machine: &Machine,
    rom: &[u8],
    files: &mut F,
    name: &str,
) -> Result<(), SaveFault>
    requires room { length rom.now ≤ most_rom }
    ensures writes { Writes F.held F.read_faults F.write_faults (save_acts name.now machine.now.machine rom.now)
        files.old files.new result }
    ensures calm { F.quiet files.old → IsSome (F.held files.old) → SavesQuietly (F.quiet files.new) result }
{
    let meta = Meta {
        shape: machine.shape(),
        rom: rom.len() as u64,
        taken: machine.taken(),
        version: 1,
    };
    let text = meta_text(alloc, &meta)?;
    let meta_name = meta_file(alloc, name)?;
    let mainram = part_file(alloc, name, Part::Mainram)?;
    let bootram = part_file(alloc, name, Part::Bootram)?;
    write_files(
        files,
        meta_name.as_str(),
        mainram.as_str(),
        bootram.as_str(),
        machine.core().ram(),
        rom,
        &text,
    )
}
