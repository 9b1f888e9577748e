//! Loading a checkpoint.

ghost use Rattle.std.specs.Prelude.{◌≡◌, ◌<◌, ◌≤◌, Err, IfErr, IfOk, IfSome, Ok, OnOk, length, take};
ghost use Rattle.guest_ram.specs.Bytes.{most_bytes};
ghost use Rattle.outside_io.specs.Content.{IsHeld, file_of};
ghost use Rattle.sim_config.specs.Ranges.{IsMeta};
ghost use Rattle.sim_config.specs.Reading.{meta_of};
ghost use Rattle.machine_start.specs.Reading.{OnlyReads};
ghost use Rattle.image_saver.specs.Checkpoint.{IsCheckpoint, checkpoint_of, meta_file, of_length, part_file, seen, with_meta};
ghost use Rattle.image_saver.specs.Quiet.{HoldsCheckpoint, LoadsQuietly};
ghost use Rattle.image_saver.specs.Refusal.{IsOfPart, IsOfText, IsOfValues, LoadIsRefused};

use crate::fault::{LoadFault, Part};
use crate::names::{meta_file, part_file};
use guest_ram::{BASE, GuestRam};
use machine_start::{Contents, fill, read_file};
use outside_io::Files;
use sim_config::{ConfigFault, LONGEST_TEXT, Meta, read_meta};
use std::alloc::Global;

/// What the three files of a checkpoint hold.
#[derive(Drop)]
pub struct Loaded {
    /// What the meta text says.
    pub meta: Meta,
    /// The image of RAM.
    pub ram: GuestRam,
    /// The boot ROM.
    pub rom: Vec<u8>,
}

/// Reads a meta text. One of more than 65,536 bytes is refused.
fn load_meta<F: Files>(alloc: Global, files: &mut F, name: &str) -> Result<Meta, LoadFault>
    ensures meta { IfOk result (λ meta. IfSome (F.held files.old) (λ held.
        meta_of (file_of held (meta_file name.now)) ≡ Ok meta)) }
    ensures refused { IfErr result (λ fault. LoadIsRefused fault
        (IfSome (F.held files.old) (λ held. with_meta (meta_of (file_of held (meta_file name.now))) ≡ Err fault))
        (F.read_faults files.old) (F.read_faults files.new)) }
    ensures lengths { IfErr result IsOfText }
    ensures ranges { IfOk result IsMeta }
    ensures leaves { OnlyReads F.held F.read_faults F.write_faults files.old files.new result }
    ensures calm { F.quiet files.old → IsHeld (F.held files.old) (meta_file name.now) → LoadsQuietly (F.quiet files.new) result }
{
    let file = meta_file(alloc, name)?;
    match read_file(alloc, files, file.as_str(), LONGEST_TEXT)? {
        Contents::Bytes(text) => Ok(read_meta(alloc, &text)?),
        Contents::TooLong(len) => Err(LoadFault::Meta(ConfigFault::TooLong(len))),
    }
}

/// Refuses a part whose file has another length than the meta text says.
fn check_length<F: Files>(files: &mut F, file: &str, part: Part, want: u64) -> Result<(), LoadFault>
    ensures length { OnOk result (IfSome (F.held files.old) (λ held. length (file_of held file.now) ≡ want)) }
    ensures refused { IfErr result (λ fault. LoadIsRefused fault
        (IfSome (F.held files.old) (λ held. of_length part want (file_of held file.now) ≡ Err fault))
        (F.read_faults files.old) (F.read_faults files.new)) }
    ensures lengths { IfErr result (IsOfPart part want) }
    ensures leaves { OnlyReads F.held F.read_faults F.write_faults files.old files.new result }
    ensures calm { F.quiet files.old → IsHeld (F.held files.old) file.now → LoadsQuietly (F.quiet files.new) result }
{
    let have = files.size(file)?;
    if have == want {
        Ok(())
    } else {
        Err(LoadFault::Length { part, want, have })
    }
}

/// Reads a part into a buffer that has its length.
fn load_part<F: Files>(
    files: &mut F,
    file: &str,
    part: Part,
    buf: &mut [u8],
) -> Result<(), LoadFault>
    ensures bytes { OnOk result (IfSome (F.held files.old) (λ held.
        buf.new ≡ take (length buf.old) (file_of held file.now))) }
    ensures refused { IfErr result (λ fault. LoadIsRefused fault
        (IfSome (F.held files.old) (λ held. length (file_of held file.now) ≡ length buf.old → ⊥))
        (F.read_faults files.old) (F.read_faults files.new)) }
    ensures lengths { IfErr result (IsOfPart part (length buf.old)) }
    ensures leaves { OnlyReads F.held F.read_faults F.write_faults files.old files.new result }
    ensures calm { F.quiet files.old → IsHeld (F.held files.old) file.now → LoadsQuietly (F.quiet files.new) result }
{
    let want = buf.len();
    let have = fill(files, file, buf)?;
    if have == want {
        Ok(())
    } else {
        Err(LoadFault::Length {
            part,
            want: want as u64,
            have: have as u64,
        })
    }
}

/// Reads the image of RAM, of so many bytes.
fn load_image<F: Files>(
    alloc: Global,
    files: &mut F,
    name: &str,
    len: u64,
) -> Result<GuestRam, LoadFault>
    requires some { 0 < len }
    requires most { len ≤ most_bytes }
    ensures image { IfOk result (λ ram. IfSome (F.held files.old) (λ held.
        of_length Part.Mainram len (file_of held (part_file Part.Mainram name.now)) ≡ Ok ram)) }
    ensures refused { IfErr result (λ fault. LoadIsRefused fault
        (IfSome (F.held files.old) (λ held. of_length Part.Mainram len (file_of held (part_file Part.Mainram name.now)) ≡ Err fault))
        (F.read_faults files.old) (F.read_faults files.new)) }
    ensures lengths { IfErr result (IsOfPart Part.Mainram len) }
    ensures length { IfOk result (λ ram. length ram ≡ len) }
    ensures leaves { OnlyReads F.held F.read_faults F.write_faults files.old files.new result }
    ensures calm { F.quiet files.old → IsHeld (F.held files.old) (part_file Part.Mainram name.now) →
        LoadsQuietly (F.quiet files.new) result }
{
    let file = part_file(alloc, name, Part::Mainram)?;
    check_length(files, file.as_str(), Part::Mainram, len)?;
    let mut ram = GuestRam::new(alloc, len)?;
    load_part(files, file.as_str(), Part::Mainram, ram.part_mut(BASE, len))?;
    Ok(ram)
}

/// Reads the boot ROM, of so many bytes.
fn load_rom<F: Files>(
    alloc: Global,
    files: &mut F,
    name: &str,
    len: u64,
) -> Result<Vec<u8>, LoadFault>
    ensures rom { IfOk result (λ rom. IfSome (F.held files.old) (λ held.
        of_length Part.Bootram len (file_of held (part_file Part.Bootram name.now)) ≡ Ok rom.items)) }
    ensures refused { IfErr result (λ fault. LoadIsRefused fault
        (IfSome (F.held files.old) (λ held. of_length Part.Bootram len (file_of held (part_file Part.Bootram name.now)) ≡ Err fault))
        (F.read_faults files.old) (F.read_faults files.new)) }
    ensures lengths { IfErr result (IsOfPart Part.Bootram len) }
    ensures length { IfOk result (λ rom. length rom.items ≡ len) }
    ensures leaves { OnlyReads F.held F.read_faults F.write_faults files.old files.new result }
    ensures calm { F.quiet files.old → IsHeld (F.held files.old) (part_file Part.Bootram name.now) →
        LoadsQuietly (F.quiet files.new) result }
{
    let file = part_file(alloc, name, Part::Bootram)?;
    check_length(files, file.as_str(), Part::Bootram, len)?;
    let mut rom = vec![in alloc; 0u8; len as usize]?;
    load_part(files, file.as_str(), Part::Bootram, rom.as_mut_slice())?;
    Ok(rom)
}

/// Loads the checkpoint of a name: the meta text is read and checked, then the image of RAM, then the
/// boot ROM, each of which has as many bytes as the meta text says.
///
/// # Errors
///
/// `Meta` and `Length` exactly where the files have this fault first, `Failed` where a read failed, and
/// `NoMemory`.
pub fn load<F: Files>(alloc: Global, files: &mut F, name: &str) -> Result<Loaded, LoadFault>
    ensures loaded { IfOk result (λ loaded. IfSome (F.held files.old) (λ held.
        checkpoint_of held name.now ≡ Ok (seen loaded))) }
    ensures refused { IfErr result (λ fault. LoadIsRefused fault
        (IfSome (F.held files.old) (λ held. checkpoint_of held name.now ≡ Err fault))
        (F.read_faults files.old) (F.read_faults files.new)) }
    ensures lengths { IfErr result IsOfValues }
    ensures fit { IfOk result (λ loaded. IsCheckpoint (seen loaded)) }
    ensures leaves { OnlyReads F.held F.read_faults F.write_faults files.old files.new result }
    ensures calm { F.quiet files.old → HoldsCheckpoint (F.held files.old) name.now →
        LoadsQuietly (F.quiet files.new) result }
{
    let meta = load_meta(alloc, files, name)?;
    let ram = load_image(alloc, files, name, meta.shape.ram)?;
    let rom = load_rom(alloc, files, name, meta.rom)?;
    Ok(Loaded { meta, ram, rom })
}
