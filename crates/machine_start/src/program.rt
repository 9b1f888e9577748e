//! The start of the program that a configuration names.

ghost use Rattle.std.specs.Prelude.{◌≡◌, ℕ, Err, IfErr, IfOk, IfSome, IsErrOf, Ok, Some, length};
ghost use Rattle.outside_io.specs.Content.{IsHeld, file_of};
ghost use Rattle.sim_config.specs.Ranges.{IsConfig};
ghost use Rattle.elf_load.specs.Loading.{HasHeader};
ghost use Rattle.machine_start.specs.Quiet.{StartsQuietly};
ghost use Rattle.machine_start.specs.Reading.{OnlyReads};
ghost use Rattle.machine_start.specs.Refusal.{StartIsRefused};
ghost use Rattle.machine_start.specs.Start.{IsStart, start_of_program, symbol_window, window_of};

use crate::fault::StartFault;
use crate::reading::{Contents, read_file};
use crate::start::Start;
use elf_load::{ElfFault, ElfField, LONGEST_FILE, load, symbol};
use guest_ram::GuestRam;
use outside_io::Files;
use sim_config::{Config, Shape};
use std::alloc::Global;

/// The host window at a symbol's value, which has to be a multiple of 8 whose 8 bytes lie in memory.
fn symbol_window(ram: &GuestRam, at: u64) -> Result<u64, ElfFault>
    ensures { result ≡ symbol_window (length ram.now) (Ok (Some at)) }
{
    if at % 8 == 0 && ram.has(at, 8) {
        Ok(at)
    } else {
        Err(ElfFault::WrongKind(ElfField::Tohost))
    }
}

/// The host window of a program: the configuration's, and else that of the file's symbol `tohost`; 0 where
/// there is neither.
fn window(config: &Config, file: &[u8], ram: &GuestRam) -> Result<u64, ElfFault>
    requires { HasHeader file.now }
    ensures { result ≡ window_of config.now.tohost (length ram.now) file.now }
{
    if let Some(tohost) = config.tohost {
        return Ok(tohost);
    }
    match symbol(file, b"tohost")? {
        Some(at) => symbol_window(ram, at),
        None => Ok(0),
    }
}

/// The start of an ELF file on the machine of a configuration.
fn program_start(alloc: Global, config: &Config, file: &[u8]) -> Result<Start, StartFault>
    requires { IsConfig config.now }
    ensures start { IfOk result (λ start. start_of_program config.now file.now ≡ Ok start) }
    ensures refused { IfErr result (λ fault. (count : ℕ) →
        StartIsRefused fault (start_of_program config.now file.now ≡ Err fault) count count) }
    ensures fit { IfOk result IsStart }
    ensures never_unread { IsErrOf result StartFault.Unread → ⊥ }
{
    let mut ram = GuestRam::new(alloc, config.ram)?;
    let entry = load(file, &mut ram)?;
    let tohost = window(config, file, &ram)?;
    Ok(Start {
        shape: Shape {
            harts: config.harts,
            ram: config.ram,
            slice: config.slice,
            tohost,
        },
        ram,
        entry,
    })
}

/// Reads an ELF file for the machine of a configuration. One of more than 67,108,864 bytes is refused.
pub(crate) fn load_program<F: Files>(
    alloc: Global,
    files: &mut F,
    config: &Config,
) -> Result<Start, StartFault>
    requires { IsConfig config.now }
    ensures start { IfOk result (λ start. IfSome (F.held files.old) (λ held.
        start_of_program config.now (file_of held config.now.program) ≡ Ok start)) }
    ensures refused { IfErr result (λ fault. StartIsRefused fault
        (IfSome (F.held files.old) (λ held.
        start_of_program config.now (file_of held config.now.program) ≡ Err fault))
        (F.read_faults files.old) (F.read_faults files.new)) }
    ensures fit { IfOk result IsStart }
    ensures leaves { OnlyReads F.held F.read_faults F.write_faults files.old files.new result }
    ensures calm { F.quiet files.old → IsHeld (F.held files.old) config.now.program →
        StartsQuietly (F.quiet files.new) result }
{
    match read_file(alloc, files, config.program.as_str(), LONGEST_FILE)? {
        Contents::Bytes(file) => program_start(alloc, config, &file),
        Contents::TooLong(len) => Err(StartFault::Elf(ElfFault::TooLong(len))),
    }
}
