//! The control bits.

ghost use Rattle.std.specs.Prelude.{◌≡◌, ◌∷◌, ◌%◌, [], ⊤, codes};

use bitflags::{Flag, Flags, bitflag_items};

/// The bits of the register ctrl.
#[derive(Clone, Copy)]
pub struct Control(u32);

bitflag_items! {
    impl Control: u32 {
        const INPUT = 1;
        const OUTPUT = 2;
        const LOOP = 4;
    }
}

impl Flags for Control {
    type Bits = u32;

    ghost exact = { ⊤ };

    ghost table = { (codes "INPUT", 1) ∷ (codes "OUTPUT", 2) ∷ (codes "LOOP", 4) ∷ [] };

    ghost set_of = { λ control. control.0 };

    fn flags<'a>() -> &'a [Flag<Control>] {
        Control::FLAGS
    }

    fn bits(&self) -> u32 {
        self.0
    }

    fn from_bits_retain(bits: u32) -> Control {
        Control(bits)
    }
}

impl Control {
    /// The control bits that the register keeps of a number: the low three.
    pub(crate) fn of(word: u64) -> Control
        ensures { result.0 ≡ word % 8 }
    {
        Control((word % 8) as u32)
    }
}
