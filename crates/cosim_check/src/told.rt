//! What a judge answers the steps that it makes again.

ghost use Rattle.std.specs.Prelude.{◌≡◌, ◌<◌, IsTrue, Some, None, false, length};
ghost use Rattle.trap_rules.specs.Interrupt.{may_be_taken};
ghost use Rattle.hart_step.specs.Harts.{hart_of};
ghost use Rattle.hart_step.specs.Step.{step};
ghost use Rattle.hart_step.specs.Told.{told};

use csr_file::CsrFile;
use guest_ram::GuestRam;
use hart_step::{Answers, Core, Event};
use rv_alu::{Mode, low_bytes};
use trap_rules::may_take;

/// The answers that a record shows. A device access changes nothing, since a judge has no devices.
#[derive(Clone, Copy)]
struct Told {
    interrupt: Option<u8>,
    device: u64,
    volatile: u64,
    wins: bool,
}

impl Answers for Told {
    ghost use Rattle.std.specs.Prelude.{⊤};
    ghost use Rattle.cosim_check.specs.Answering.{record_says};

    ghost ready = { λ t h. ⊤ };

    ghost says = { λ t h. record_says t };

    ghost after = { λ t h ram access. t };

    #[inline(always)]
    fn interrupt(&mut self, _hart: u8, csrs: &CsrFile, mode: Mode) -> Option<u8> {
        match self.interrupt {
            Some(cause) => {
                if may_take(csrs, mode, cause) {
                    Some(cause)
                } else {
                    None
                }
            }
            None => None,
        }
    }

    #[inline(never)]
    fn device_load(&mut self, _hart: u8, _at: u64, size: u8) -> u64 {
        low_bytes(size, self.device)
    }

    #[inline(always)]
    fn device_store(&mut self, _hart: u8, _at: u64, _size: u8, _value: u64, _ram: &GuestRam) {}

    #[tactic(auto, using(csr_file::proofs::LegalLaws::and_twice))]
    #[inline(never)]
    fn volatile(&mut self, _hart: u8, num: u16, _csrs: &CsrFile) -> u64 {
        self.volatile & CsrFile::volatile_mask(num)
    }

    #[inline(always)]
    fn sc_may_win(&mut self, _hart: u8) -> bool {
        self.wins
    }
}

/// Makes a step without an interrupt, by these answers, and writes what it shows into `shown`.
#[inline(always)]
pub(crate) fn take_step(
    core: &mut Core,
    h: u8,
    device: u64,
    volatile: u64,
    wins: bool,
    shown: &mut Event,
)
    requires { h < length core.old.harts }
    ensures event { shown.new ≡ (step (told None device volatile wins) core.old h).event }
    ensures core { core.new ≡ (step (told None device volatile wins) core.old h).core }
    ensures harts { length core.new.harts ≡ length core.old.harts }
    ensures ram { length core.new.ram ≡ length core.old.ram }
{
    let mut told = Told {
        interrupt: None,
        device,
        volatile,
        wins,
    };
    core.step_into(h, &mut told, shown);
}

/// Makes the step that takes an interrupt, which may be taken.
pub(crate) fn take_interrupt(core: &mut Core, h: u8, cause: u8, shown: &mut Event)
    requires hart { h < length core.old.harts }
    requires may { IsTrue (may_be_taken (hart_of core.old h).csrs (hart_of core.old h).mode cause) }
    ensures core { core.new ≡ (step (told (Some cause) 0 0 false) core.old h).core }
    ensures harts { length core.new.harts ≡ length core.old.harts }
    ensures ram { length core.new.ram ≡ length core.old.ram }
{
    let mut told = Told {
        interrupt: Some(cause),
        device: 0,
        volatile: 0,
        wins: false,
    };
    core.step_into(h, &mut told, shown);
}
