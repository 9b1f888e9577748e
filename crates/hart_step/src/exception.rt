//! The exceptions of instructions.

ghost use Rattle.std.specs.Prelude.{◌≡◌, ◌<◌};
ghost use Rattle.hart_step.specs.Effects.{cause_of_call};
ghost use Rattle.hart_step.specs.Memory.{access_cause, exception, misaligned_cause, walk_exception};

use rv_alu::Mode;
use std::marker::Model;
use sv39_walk::{Kind, WalkFault};

/// Why an instruction is not carried out: the number of the cause, which is below 16, and the trap
/// value (Privileged ISA, "Machine Cause Register", "Machine Trap Value Register").
#[derive(Drop)]
pub(crate) struct Exception {
    cause: u8,
    tval: u64,
}

impl Model for Exception {
    ghost use Rattle.std.specs.Prelude.{◌<◌};
    ghost use Rattle.hart_step.specs.Memory.{Exception as Seen};

    ghost Value = { Seen };

    ghost view = { λ e. record { cause = e.cause; tval = e.tval } };

    ghost invariant = { λ e. e.cause < 16 };
}

impl Exception {
    /// The cause and the trap value.
    #[inline(always)]
    pub(crate) fn parts(&self) -> (u8, u64)
        ensures cause { result.0 ≡ self.now.cause }
        ensures tval { result.1 ≡ self.now.tval }
        ensures small { result.0 < 16 }
    {
        (self.cause, self.tval)
    }

    /// An environment call from a mode.
    #[inline(always)]
    pub(crate) fn call(mode: Mode) -> Exception
        ensures { result ≡ exception (cause_of_call mode) 0 }
    {
        let cause = match mode {
            Mode::U => 8,
            Mode::S => 9,
            Mode::M => 11,
        };
        Exception { cause, tval: 0 }
    }

    /// A breakpoint at a pc.
    #[inline(always)]
    pub(crate) fn breakpoint(pc: u64) -> Exception
        ensures { result ≡ exception 3 pc }
    {
        Exception { cause: 3, tval: pc }
    }

    /// An illegal instruction, by its word.
    #[inline(always)]
    pub(crate) fn illegal(word: u32) -> Exception
        ensures { result ≡ exception 2 word }
    {
        Exception {
            cause: 2,
            tval: u64::from(word),
        }
    }

    /// An access to an address that is not naturally aligned.
    #[inline(always)]
    pub(crate) fn misaligned(kind: Kind, va: u64) -> Exception
        ensures { result ≡ exception (misaligned_cause kind) va }
    {
        let cause = match kind {
            Kind::Fetch => 0,
            Kind::Load => 4,
            Kind::Store => 6,
        };
        Exception { cause, tval: va }
    }

    /// An access to an address that nothing answers.
    #[inline(always)]
    pub(crate) fn access(kind: Kind, va: u64) -> Exception
        ensures { result ≡ exception (access_cause kind) va }
    {
        let cause = match kind {
            Kind::Fetch => 1,
            Kind::Load => 5,
            Kind::Store => 7,
        };
        Exception { cause, tval: va }
    }

    /// An access to an address whose translation fails.
    #[inline(always)]
    pub(crate) fn walk(kind: Kind, va: u64, fault: WalkFault) -> Exception
        ensures { result ≡ walk_exception kind va fault }
    {
        match fault {
            WalkFault::Access => Exception::access(kind, va),
            WalkFault::Page => {
                let cause = match kind {
                    Kind::Fetch => 12,
                    Kind::Load => 13,
                    Kind::Store => 15,
                };
                Exception { cause, tval: va }
            }
        }
    }
}
