//! The values at reset.
#![tactic(auto, unfolding(crate::specs::Kept::kept_from, crate::specs::Kept::debug_from, crate::specs::Kept::reset_registers, crate::specs::Kept::reset_debug_registers, crate::specs::Legal::reset_value))]

ghost use Rattle.std.specs.Prelude.{◌≡◌, Some};
ghost use Rattle.csr_file.specs.Kept.{reset_debug_registers, reset_registers};
ghost use Rattle.csr_file.specs.Legal.{reset_value};

use crate::masks::{DCSR_FIXED, MSTATUS_XLEN};
use crate::registers::{DebugRegs, KeptRegs, Registers};

impl Registers {
    /// The registers of a hart at reset.
    pub(crate) fn reset(hart: u8) -> Registers
        ensures { result ≡ reset_registers hart }
    {
        Registers {
            hart,
            kept: KeptRegs {
                mstatus: MSTATUS_XLEN,
                ..KeptRegs::default()
            },
            debug: None,
        }
    }

    /// The registers of a hart that comes out of reset in debug mode.
    pub(crate) fn reset_debug(hart: u8) -> Registers
        ensures { result ≡ record (reset_registers hart) { debug = Some reset_debug_registers } }
    {
        let debug = DebugRegs {
            dcsr: DCSR_FIXED + 3,
            dpc: 0,
            dscratch0: 0,
            dscratch1: 0,
        };
        Registers {
            debug: Some(debug),
            ..Registers::reset(hart)
        }
    }
}
