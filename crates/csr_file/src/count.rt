//! The counters.
#![tactic(auto, unfolding(crate::specs::Count::counted))]

ghost use Rattle.std.specs.Prelude.{◌≡◌};
ghost use Rattle.csr_file.specs.Count.{counted};

use crate::numbers::{MCYCLE, MINSTRET};
use crate::registers::Registers;

impl Registers {
    /// Counts a step that retired an instruction or not, and that wrote the register `wrote`.
    pub(crate) fn count(&mut self, retired: bool, wrote: Option<u16>)
        ensures { self.new ≡ counted retired wrote self.old }
    {
        if wrote != Some(MCYCLE) {
            self.kept.mcycle = self.kept.mcycle.wrapping_add(1);
        }
        if retired && wrote != Some(MINSTRET) {
            self.kept.minstret = self.kept.minstret.wrapping_add(1);
        }
    }
}
