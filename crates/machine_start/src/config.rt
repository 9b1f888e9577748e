//! The start of a configuration and its program.

ghost use Rattle.std.specs.Prelude.{◌≡◌, Err, IfErr, IfOk, IfSome, Ok};
ghost use Rattle.outside_io.specs.Content.{IsHeld, file_of};
ghost use Rattle.sim_config.specs.Ranges.{IsConfig};
ghost use Rattle.sim_config.specs.Reading.{config_of};
ghost use Rattle.machine_start.specs.Quiet.{HoldsConfig, StartsQuietly};
ghost use Rattle.machine_start.specs.Reading.{OnlyReads};
ghost use Rattle.machine_start.specs.Refusal.{StartIsRefused};
ghost use Rattle.machine_start.specs.Start.{IsStart, start_of_config};

use crate::fault::StartFault;
use crate::program::load_program;
use crate::reading::{Contents, read_file};
use crate::start::Start;
use outside_io::Files;
use sim_config::{Config, ConfigFault, LONGEST_TEXT, read_config};
use std::alloc::Global;

/// Reads a configuration. One of more than 65,536 bytes is refused.
fn load_config<F: Files>(alloc: Global, files: &mut F, name: &str) -> Result<Config, StartFault>
    ensures config { IfOk result (λ config. IfSome (F.held files.old) (λ held.
        config_of (file_of held name.now) ≡ Ok config)) }
    ensures refused { IfErr result (λ fault. StartIsRefused fault
        (IfSome (F.held files.old) (λ held. start_of_config held name.now ≡ Err fault))
        (F.read_faults files.old) (F.read_faults files.new)) }
    ensures ranges { IfOk result IsConfig }
    ensures leaves { OnlyReads F.held F.read_faults F.write_faults files.old files.new result }
    ensures calm { F.quiet files.old → IsHeld (F.held files.old) name.now → StartsQuietly (F.quiet files.new) result }
{
    match read_file(alloc, files, name, LONGEST_TEXT)? {
        Contents::Bytes(text) => Ok(read_config(alloc, &text)?),
        Contents::TooLong(len) => Err(StartFault::Config(ConfigFault::TooLong(len))),
    }
}

/// Reads a configuration and the ELF program that it names, and answers their start. The configuration
/// is read and checked before its program is read.
#[tactic(auto, using(crate::proofs::Quiets::program_held))]
pub fn config_start<F: Files>(alloc: Global, files: &mut F, name: &str) -> Result<Start, StartFault>
    ensures start { IfOk result (λ start. IfSome (F.held files.old) (λ held.
        start_of_config held name.now ≡ Ok start)) }
    ensures refused { IfErr result (λ fault. StartIsRefused fault
        (IfSome (F.held files.old) (λ held. start_of_config held name.now ≡ Err fault))
        (F.read_faults files.old) (F.read_faults files.new)) }
    ensures fit { IfOk result IsStart }
    ensures leaves { OnlyReads F.held F.read_faults F.write_faults files.old files.new result }
    ensures calm { F.quiet files.old → HoldsConfig (F.held files.old) name.now →
        StartsQuietly (F.quiet files.new) result }
{
    let config = load_config(alloc, files, name)?;
    load_program(alloc, files, &config)
}
