//! Why there is no start.

use elf_load::ElfFault;
use outside_io::OutFault;
use sim_config::ConfigFault;
use std::alloc::AllocError;

/// Why there is no start.
#[derive(PartialEq, Eq, Debug, Drop)]
pub enum StartFault {
    /// The configuration is refused. It never carries `ConfigFault::NoMemory`.
    Config(ConfigFault),
    /// The program is refused; a flat image that is too long is `OutsideRam(0)`.
    Elf(ElfFault),
    /// A read failed.
    Unread,
    /// There was no memory.
    NoMemory,
}

impl From<AllocError> for StartFault {
    ghost use Rattle.std.specs.Prelude.{◌≡◌};
    ghost use Rattle.machine_start.specs.declared.fault.StartFault.TheVariants.{NoMemory};

    ghost from_gives = { λ _ fault. fault ≡ NoMemory };

    fn from(_refused: AllocError) -> StartFault {
        StartFault::NoMemory
    }
}

impl From<ElfFault> for StartFault {
    ghost use Rattle.std.specs.Prelude.{◌≡◌};
    ghost use Rattle.machine_start.specs.declared.fault.StartFault.TheVariants.{Elf};

    ghost from_gives = { λ elf fault. fault ≡ Elf elf };

    fn from(elf: ElfFault) -> StartFault {
        StartFault::Elf(elf)
    }
}

impl From<ConfigFault> for StartFault {
    ghost use Rattle.std.specs.Prelude.{◌≡◌};
    ghost use Rattle.machine_start.specs.Refusal.{config_refusal};

    ghost from_gives = { λ config fault. fault ≡ config_refusal config };

    fn from(config: ConfigFault) -> StartFault {
        match config {
            ConfigFault::NoMemory => StartFault::NoMemory,
            config => StartFault::Config(config),
        }
    }
}

impl From<OutFault> for StartFault {
    ghost use Rattle.std.specs.Prelude.{◌≡◌};
    ghost use Rattle.machine_start.specs.Refusal.{start_read_refusal};

    ghost from_gives = { λ read fault. fault ≡ start_read_refusal read };

    fn from(read: OutFault) -> StartFault {
        match read {
            OutFault::Failed => StartFault::Unread,
            OutFault::NoMemory => StartFault::NoMemory,
        }
    }
}
