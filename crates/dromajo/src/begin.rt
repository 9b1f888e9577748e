//! Where a machine begins.

ghost use Rattle.std.specs.Prelude.{◌≡◌, ◌≤◌, [], Err, IfErr, IfOk, IfSome, IsTrue, Ok};
ghost use Rattle.hart_turns.specs.Machine.{is_running};
ghost use Rattle.outside_io.specs.Content.{Held};
ghost use Rattle.outside_acts.specs.World.{Reading};
ghost use Rattle.job_words.specs.Job.{FromCheckpoint, FromConfig, FromImage, FromSeed};
ghost use Rattle.job_words.specs.Seen.{begin_seen};
ghost use Rattle.machine_start.specs.Reading.{OnlyReads};
ghost use Rattle.machine_start.specs.Start.{IsStart};
ghost use Rattle.dromajo.specs.Classes.{IsFault};
ghost use Rattle.dromajo.specs.Jobs.{HoldsBegin, begin_uses, begun, machine_of};
ghost use Rattle.dromajo.specs.Works.{BeginsQuietly, IsReset, IsUnbegun, IsUnused, begun_with};

use crate::status::{Status, load_status, start_status};
use hart_turns::{Machine, NoMemory};
use image_saver::{Loaded, load};
use job_words::Begin;
use machine_start::{Start, config_start, image_start};
use outside_io::Files;
use seed_start::seed_start;
use std::alloc::Global;

/// The machine of a start, at reset.
fn at_reset(alloc: Global, start: Start) -> Result<Machine, NoMemory>
    requires { IsStart start }
    ensures machine { IfOk result (λ machine.
        machine ≡ record { machine = machine_of start; console = []; events = [] }) }
    ensures unused { IfOk result IsUnused }
    ensures running { IfOk result (λ machine. IsTrue (is_running machine.machine)) }
{
    Machine::reset(alloc, start.shape, start.ram, start.entry)
}

/// Makes the machine of a configuration and its program.
fn begin_config<F: Files>(alloc: Global, name: &str, files: &mut F) -> Result<Machine, Status>
    ensures machine { IfOk result (λ machine. IfSome (F.held files.old) (λ held.
        begun held (FromConfig name.now) ≡ Ok (begun_with machine))) }
    ensures refused { IfErr result (λ status. IsUnbegun status
        (IfSome (F.held files.old) (λ held. begun held (FromConfig name.now) ≡ Err status))
        (F.read_faults files.old) (F.read_faults files.new)) }
    ensures taken { IfOk result (λ machine. machine.machine.taken ≤ 1_000_000_000_000) }
    ensures running { IfOk result (λ machine. IsTrue (is_running machine.machine)) }
    ensures unused { IfOk result IsUnused }
    ensures leaves { OnlyReads F.held F.read_faults F.write_faults files.old files.new result }
    ensures calm { F.quiet files.old → HoldsBegin (F.held files.old) (FromConfig name.now) →
        BeginsQuietly (F.quiet files.new) result }
{
    let start = match config_start(alloc, files, name) {
        Ok(start) => start,
        Err(fault) => return Err(start_status(fault)),
    };
    match at_reset(alloc, start) {
        Ok(machine) => Ok(machine),
        Err(_) => Err(Status::NoMemory),
    }
}

/// Makes the machine of a flat image.
fn begin_image<F: Files>(alloc: Global, name: &str, files: &mut F) -> Result<Machine, Status>
    ensures machine { IfOk result (λ machine. IfSome (F.held files.old) (λ held.
        begun held (FromImage name.now) ≡ Ok (begun_with machine))) }
    ensures refused { IfErr result (λ status. IsUnbegun status
        (IfSome (F.held files.old) (λ held. begun held (FromImage name.now) ≡ Err status))
        (F.read_faults files.old) (F.read_faults files.new)) }
    ensures taken { IfOk result (λ machine. machine.machine.taken ≤ 1_000_000_000_000) }
    ensures running { IfOk result (λ machine. IsTrue (is_running machine.machine)) }
    ensures unused { IfOk result IsUnused }
    ensures leaves { OnlyReads F.held F.read_faults F.write_faults files.old files.new result }
    ensures calm { F.quiet files.old → HoldsBegin (F.held files.old) (FromImage name.now) →
        BeginsQuietly (F.quiet files.new) result }
{
    let start = match image_start(alloc, files, name) {
        Ok(start) => start,
        Err(fault) => return Err(start_status(fault)),
    };
    match at_reset(alloc, start) {
        Ok(machine) => Ok(machine),
        Err(_) => Err(Status::NoMemory),
    }
}

/// Makes the machine that a seed stands for. No file is read.
fn begin_seed(alloc: Global, seed: u64) -> Result<Machine, NoMemory>
    ensures machine { IfOk result (λ machine. (held : Held) → begun held (FromSeed seed) ≡ Ok (begun_with machine)) }
    ensures taken { IfOk result (λ machine. machine.machine.taken ≤ 1_000_000_000_000) }
    ensures running { IfOk result (λ machine. IsTrue (is_running machine.machine)) }
    ensures unused { IfOk result IsUnused }
{
    at_reset(alloc, seed_start(alloc, seed)?)
}

/// Makes the machine of a checkpoint, by executing its boot ROM.
fn begin_checkpoint<F: Files>(alloc: Global, name: &str, files: &mut F) -> Result<Machine, Status>
    ensures machine { IfOk result (λ machine. IfSome (F.held files.old) (λ held.
        begun held (FromCheckpoint name.now) ≡ Ok (begun_with machine))) }
    ensures refused { IfErr result (λ status. IsUnbegun status
        (IfSome (F.held files.old) (λ held. begun held (FromCheckpoint name.now) ≡ Err status))
        (F.read_faults files.old) (F.read_faults files.new)) }
    ensures taken { IfOk result (λ machine. machine.machine.taken ≤ 1_000_000_000_000) }
    ensures running { IfOk result (λ machine. IsTrue (is_running machine.machine)) }
    ensures leaves { OnlyReads F.held F.read_faults F.write_faults files.old files.new result }
    ensures calm { F.quiet files.old → HoldsBegin (F.held files.old) (FromCheckpoint name.now) →
        BeginsQuietly (F.quiet files.new) result }
{
    let Loaded { meta, ram, rom } = match load(alloc, files, name) {
        Ok(loaded) => loaded,
        Err(fault) => return Err(load_status(fault)),
    };
    let mut machine = match Machine::reset_debug(alloc, meta.shape, ram, rom, meta.taken) {
        Ok(machine) => machine,
        Err(_) => return Err(Status::NoMemory),
    };
    match machine.boot() {
        Ok(_) => Ok(machine),
        Err(fault) => Err(Status::BootFault(fault)),
    }
}

/// Makes the machine of a beginning: files are read, and none is written. The bytes that a boot sent are
/// the machine's console bytes.
pub(crate) fn begin<F: Files>(
    alloc: Global,
    begin: Begin<'_>,
    files: &mut F,
) -> Result<Machine, Status>
    ensures machine { IfOk result (λ machine. IfSome (F.held files.old) (λ held.
        begun held (begin_seen begin.entry) ≡ Ok (begun_with machine))) }
    ensures refused { IfErr result (λ status. IsUnbegun status
        (IfSome (F.held files.old) (λ held. begun held (begin_seen begin.entry) ≡ Err status))
        (F.read_faults files.old) (F.read_faults files.new)) }
    ensures taken { IfOk result (λ machine. machine.machine.taken ≤ 1_000_000_000_000) }
    ensures running { IfOk result (λ machine. IsTrue (is_running machine.machine)) }
    ensures reset { IfOk result (IsReset (begin_seen begin.entry)) }
    ensures uses { IfErr result (λ status. IsFault status → begin_uses (begin_seen begin.entry) Reading) }
    ensures leaves { OnlyReads F.held F.read_faults F.write_faults files.old files.new result }
    ensures calm { F.quiet files.old → HoldsBegin (F.held files.old) (begin_seen begin.entry) →
        BeginsQuietly (F.quiet files.new) result }
{
    match begin {
        Begin::Config(name) => begin_config(alloc, name, files),
        Begin::Image(name) => begin_image(alloc, name, files),
        Begin::Seed(seed) => match begin_seed(alloc, seed) {
            Ok(machine) => Ok(machine),
            Err(_) => Err(Status::NoMemory),
        },
        Begin::Checkpoint(name) => begin_checkpoint(alloc, name, files),
    }
}
