//! Saving the machine, over all that is outside.

ghost use Rattle.std.specs.Prelude.{◌≡◌, ◌≤◌, IfErr, IfOk, IsSome, IsTrue, OnOk, length};
ghost use Rattle.outside_acts.specs.Calls.{Caused, Does, GoesQuietly, Only, Stops};
ghost use Rattle.outside_acts.specs.World.{Writing};
ghost use Rattle.hart_step.specs.Fit.{AreBytes};
ghost use Rattle.hart_step.specs.Memory.{most_rom};
ghost use Rattle.hart_turns.specs.Machine.{is_running};
ghost use Rattle.image_saver.specs.Saving.{save_acts, save_stop};
ghost use Rattle.checkpoint_run.specs.Reaching.{SaveWasCut, WasSaved};
ghost use Rattle.checkpoint_run.specs.Saving.{IsRomOf};

use hart_turns::Machine;
use image_saver::{SaveFault, save};
use outside_acts::{Objects, Outside, Stop};
use outside_io::{Files, Sink, Source};
use rom_gen::{Rom, rom_of};
use std::alloc::Global;

/// All that is outside of a run that saves.
pub trait SavesOutside: Outside {
    /// Saves a machine and the boot ROM beside it as the checkpoint of this name. Over quiet objects it lacks
    /// memory at the most.
    ///
    /// # Errors
    ///
    /// `Files` where a write failed, and `NoMemory`. The acts before one of them were done
    /// then, and perhaps a part of that one.
    fn save(&mut self, alloc: Global, machine: &Machine, rom: &[u8], name: &str) -> Result<(), Stop>
        requires room { length rom.now ≤ most_rom }
        ensures done { OnOk result
            (Does (save_acts name.now machine.now.machine rom.now) (Self.world self.old) (Self.world self.new)) }
        ensures cut { IfErr result (λ stop.
            Stops stop (save_acts name.now machine.now.machine rom.now) (Self.world self.old) (Self.world self.new)) }
        ensures cause { Caused (Only Writing) result (Self.world self.old) (Self.world self.new) }
        ensures calm { Self.quiet self.old → IsSome (Self.world self.old).held → GoesQuietly (Self.quiet self.new) result };
}

/// The stop of a save that failed.
fn stop_of(fault: SaveFault) -> Stop
    ensures { result ≡ save_stop fault }
{
    match fault {
        SaveFault::Failed => Stop::Files,
        SaveFault::NoMemory => Stop::NoMemory,
    }
}

impl<'f, 'i, 'o, F: Files, I: Source, O: Sink> SavesOutside for Objects<'f, 'i, 'o, F, I, O> {
    fn save(
        &mut self,
        alloc: Global,
        machine: &Machine,
        rom: &[u8],
        name: &str,
    ) -> Result<(), Stop> {
        match save(alloc, machine, rom, self.files, name) {
            Ok(()) => Ok(()),
            Err(fault) => Err(stop_of(fault)),
        }
    }
}

/// Every byte is below 256.
fn see_bytes(bytes: &[u8])
    ensures { AreBytes bytes.now }
{}

/// The boot ROM of a running machine.
fn rom_for(alloc: Global, machine: &Machine) -> Result<Rom, Stop>
    requires { IsTrue (is_running machine.now.machine) }
    ensures rom { IfOk result (IsRomOf machine.now.machine) }
    ensures starved { IfErr result (λ stop. stop ≡ Stop.NoMemory) }
{
    match rom_of(alloc, machine) {
        Ok(rom) => {
            see_bytes(rom.bytes());
            Ok(rom)
        }
        Err(_) => Err(Stop::NoMemory),
    }
}

/// Saves a running machine with a boot ROM that restores it.
///
/// # Errors
///
/// `Files` where a write failed, and `NoMemory`, before the first write or later.
pub(crate) fn save_machine<W: SavesOutside>(
    alloc: Global,
    machine: &Machine,
    name: &str,
    outside: &mut W,
) -> Result<(), Stop>
    requires { IsTrue (is_running machine.now.machine) }
    ensures saved { OnOk result (WasSaved name.now machine.now.machine (W.Outside.world outside.old) (W.Outside.world outside.new)) }
    ensures cut { IfErr result (λ stop.
        SaveWasCut stop name.now machine.now.machine (W.Outside.world outside.old) (W.Outside.world outside.new)) }
    ensures cause { Caused (Only Writing) result (W.Outside.world outside.old) (W.Outside.world outside.new) }
    ensures calm { W.Outside.quiet outside.old → IsSome (W.Outside.world outside.old).held →
        GoesQuietly (W.Outside.quiet outside.new) result }
{
    machine.see_fit();
    let rom = match rom_for(alloc, machine) {
        Ok(rom) => rom,
        Err(stop) => return Err(stop),
    };
    outside.save(alloc, machine, rom.bytes(), name)
}
