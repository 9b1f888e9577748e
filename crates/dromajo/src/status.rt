//! How a call ended.

ghost use Rattle.std.specs.Prelude.{◌≡◌};
ghost use Rattle.std.specs.Process.{exit_status};
ghost use Rattle.dromajo.specs.Classes.{load_status, start_status, stop_status};
ghost use Rattle.dromajo.specs.Codes.{code_of};

use cosim_check::Field;
use elf_load::ElfFault;
use hart_turns::BootFault;
use image_saver::LoadFault;
use machine_start::StartFault;
use outside_acts::Stop;
use sim_config::ConfigFault;
use std::process::ExitCode;

/// The object that failed.
#[derive(Clone, Copy, PartialEq, Eq, Debug)]
pub enum Which {
    /// The files that the words and the configuration name.
    Files,
    /// The console's input, and in `cosim` the commit stream.
    Input,
    /// The console's output.
    Out,
    /// The report.
    Report,
}

/// How a call ended. Each status has a number, with which the program ends.
#[derive(PartialEq, Eq, Debug, Drop)]
pub enum Status {
    /// 0: the job was done; a guest that ended with code 0 is done too, and so is a stream that was read to
    /// its end and whose records passed.
    Done,
    /// 1: record `n` of the stream, counted from 0, is not allowed: this is the first field that differs,
    /// with the value that is allowed and the record's own.
    Disagree {
        n: u64,
        field: Field,
        allowed: Option<u64>,
        given: Option<u64>,
    },
    /// 2: the words name no job.
    Usage,
    /// 3: the configuration is refused. It never carries `ConfigFault::NoMemory`.
    BadConfig(ConfigFault),
    /// 4: the program is refused; a flat image that is too long is `OutsideRam(0)`.
    BadElf(ElfFault),
    /// 5: the checkpoint is refused: its meta text, or a length. It never carries `LoadFault::Failed`, nor
    /// want of memory.
    BadCheckpoint(LoadFault),
    /// 6: the checkpoint's boot ROM did not lead its harts out of debug mode.
    BootFault(BootFault),
    /// 7: a read failed.
    ReadFault(Which),
    /// 8: a write failed.
    WriteFault(Which),
    /// 9: there was no memory.
    NoMemory,
    /// 10: the guest ended the run with this code, in this turn of the call, counted from 1. The code is not
    /// 0, unless the guest was to be saved and ended before.
    GuestEnded {
        code: u64,
        turn: u64,
    },
    /// 11: the guest sent the host a word that no host serves, in this turn of the call, counted from 1.
    BadHostWord {
        word: u64,
        turn: u64,
    },
    /// 12: line `n` of the stream, counted from 0, is no record's: `column` is the length of its longest
    /// front that is the front of one.
    BadLine {
        n: u64,
        column: u16,
    },
    /// 14: so many records of the stream passed, which is as many as may, and more follows.
    TooMany(u64),
}

/// What a job counted, for its report.
#[derive(Clone, Copy, PartialEq, Eq, Debug)]
pub enum Tally {
    /// The turns made in the call, and the input bytes that its machine has taken.
    Turned { turns: u64, taken: u64 },
    /// The records that passed.
    Judged(u64),
}

impl Status {
    /// The status's number.
    pub fn code(&self) -> u8
        ensures { result ≡ code_of self.now }
    {
        match self {
            Status::Done => 0,
            Status::Disagree { .. } => 1,
            Status::Usage => 2,
            Status::BadConfig(_) => 3,
            Status::BadElf(_) => 4,
            Status::BadCheckpoint(_) => 5,
            Status::BootFault(_) => 6,
            Status::ReadFault(_) => 7,
            Status::WriteFault(_) => 8,
            Status::NoMemory => 9,
            Status::GuestEnded { .. } => 10,
            Status::BadHostWord { .. } => 11,
            Status::BadLine { .. } => 12,
            Status::TooMany(_) => 14,
        }
    }

    /// The exit code of the program, which is the status's number.
    pub(crate) fn exit_code(&self) -> ExitCode
        ensures { exit_status result ≡ code_of self.now }
    {
        ExitCode::from(self.code())
    }
}

/// The status of a machine that could not be made of its files.
pub(crate) fn start_status(fault: StartFault) -> Status
    ensures { result ≡ start_status fault }
{
    match fault {
        StartFault::Config(fault) => Status::BadConfig(fault),
        StartFault::Elf(fault) => Status::BadElf(fault),
        StartFault::Unread => Status::ReadFault(Which::Files),
        StartFault::NoMemory => Status::NoMemory,
    }
}

/// The status of a checkpoint that could not be loaded.
pub(crate) fn load_status(fault: LoadFault) -> Status
    ensures { result ≡ load_status fault }
{
    match fault {
        LoadFault::Failed => Status::ReadFault(Which::Files),
        LoadFault::NoMemory => Status::NoMemory,
        fault => Status::BadCheckpoint(fault),
    }
}

/// The status of a stop.
pub(crate) fn stop_status(stop: Stop) -> Status
    ensures { result ≡ stop_status stop }
{
    match stop {
        Stop::Input => Status::ReadFault(Which::Input),
        Stop::Out => Status::WriteFault(Which::Out),
        Stop::Files => Status::WriteFault(Which::Files),
        Stop::NoMemory => Status::NoMemory,
    }
}
