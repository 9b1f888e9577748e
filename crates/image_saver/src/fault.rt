//! Why a checkpoint is not loaded, or not saved.

use outside_io::OutFault;
use sim_config::ConfigFault;
use std::alloc::AllocError;

/// A part of a checkpoint whose length its meta text says.
#[derive(Clone, Copy, PartialEq, Eq, Debug)]
pub enum Part {
    /// The image of RAM.
    Mainram,
    /// The boot ROM.
    Bootram,
}

/// Why a checkpoint is not loaded.
#[derive(PartialEq, Eq, Debug, Drop)]
pub enum LoadFault {
    /// A read failed.
    Failed,
    /// The meta text is refused. It never carries `ConfigFault::NoMemory`.
    Meta(ConfigFault),
    /// A part has not as many bytes as the meta text says: the file has another length, or its bytes
    /// ended early.
    Length { part: Part, want: u64, have: u64 },
    /// There was no memory.
    NoMemory,
}

impl From<AllocError> for LoadFault {
    ghost use Rattle.std.specs.Prelude.{◌≡◌};
    ghost use Rattle.image_saver.specs.declared.fault.LoadFault.TheVariants.{NoMemory};

    ghost from_gives = { λ _ fault. fault ≡ NoMemory };

    fn from(_refused: AllocError) -> LoadFault {
        LoadFault::NoMemory
    }
}

impl From<ConfigFault> for LoadFault {
    ghost use Rattle.std.specs.Prelude.{◌≡◌};
    ghost use Rattle.image_saver.specs.Refusal.{meta_refusal};

    ghost from_gives = { λ meta fault. fault ≡ meta_refusal meta };

    fn from(meta: ConfigFault) -> LoadFault {
        match meta {
            ConfigFault::NoMemory => LoadFault::NoMemory,
            meta => LoadFault::Meta(meta),
        }
    }
}

impl From<OutFault> for LoadFault {
    ghost use Rattle.std.specs.Prelude.{◌≡◌};
    ghost use Rattle.image_saver.specs.Refusal.{load_read_refusal};

    ghost from_gives = { λ read fault. fault ≡ load_read_refusal read };

    fn from(read: OutFault) -> LoadFault {
        match read {
            OutFault::Failed => LoadFault::Failed,
            OutFault::NoMemory => LoadFault::NoMemory,
        }
    }
}

/// Why a checkpoint is not saved.
#[derive(Clone, Copy, PartialEq, Eq, Debug)]
pub enum SaveFault {
    /// A file could not be started or added to.
    Failed,
    /// There was no memory.
    NoMemory,
}

impl From<AllocError> for SaveFault {
    ghost use Rattle.std.specs.Prelude.{◌≡◌};
    ghost use Rattle.image_saver.specs.declared.fault.SaveFault.TheVariants.{NoMemory};

    ghost from_gives = { λ _ fault. fault ≡ NoMemory };

    fn from(_refused: AllocError) -> SaveFault {
        SaveFault::NoMemory
    }
}

impl From<OutFault> for SaveFault {
    ghost use Rattle.std.specs.Prelude.{◌≡◌};
    ghost use Rattle.image_saver.specs.Saving.{write_refusal};

    ghost from_gives = { λ write fault. fault ≡ write_refusal write };

    fn from(write: OutFault) -> SaveFault {
        match write {
            OutFault::Failed => SaveFault::Failed,
            OutFault::NoMemory => SaveFault::NoMemory,
        }
    }
}
