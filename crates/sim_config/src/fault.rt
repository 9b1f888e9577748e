//! Why a text is refused.

use crate::keys::Key;
use crate::name::Name;
use std::alloc::AllocError;

/// Why a configuration or a meta text is refused. A text with several faults has the first one: too
/// long, no JSON, no object, an unknown key, and then the faults of the keys in the order `harts`,
/// `ram`, `slice`, `program`, `tohost`, `rom`, `taken`, `version`.
#[derive(Debug, PartialEq, Eq, Drop)]
pub enum ConfigFault {
    /// The text is no UTF-8, is no JSON, or nests deeper than 127.
    NotJson,
    /// A required key is not there.
    Missing(Key),
    /// A key is not listed. This is the first such key in the order of the bytes.
    Unknown(Name),
    /// What stands at the key is no number from 0 to 2^64 - 1, or no text. For the value as a whole:
    /// it is no object.
    WrongKind(Key),
    /// The number or text at the key is not in its range.
    OutOfRange(Key),
    /// The text has more than 65,536 bytes: so many.
    TooLong(u64),
    /// There was no memory. It may come for any text that is not too long.
    NoMemory,
}

impl From<AllocError> for ConfigFault {
    ghost use Rattle.std.specs.Prelude.{◌≡◌};
    ghost use Rattle.sim_config.specs.declared.fault.ConfigFault.TheVariants.{NoMemory};

    ghost from_gives = { λ _ fault. fault ≡ NoMemory };

    fn from(_refused: AllocError) -> ConfigFault {
        ConfigFault::NoMemory
    }
}
