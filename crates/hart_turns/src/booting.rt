//! A machine within a boot.

ghost use Rattle.std.specs.Prelude.{◌≡◌, ◌+◌, ◌*◌, ◌<◌, ◌≤◌, length};
ghost use Rattle.board_bus.specs.Board.{hart_count};
ghost use Rattle.hart_step.specs.Harts.{hart_of, is_in_debug};
ghost use Rattle.hart_step.specs.Events.{exception_of};
ghost use Rattle.hart_turns.specs.Boot.{boot_hart, boot_harts, boot_step, most_steps, step_exception};
ghost use Rattle.hart_turns.specs.Kept.{HasBootRoom, KeepsForm, booting_of};

use crate::events::Kept;
use crate::stepping::Stepping;
use hart_step::{Core, Event};

/// The most steps of a hart in one boot.
pub(crate) const MOST_STEPS: u32 = 1024;

/// Why a boot ended before every hart had left debug mode.
#[derive(Clone, Copy, PartialEq, Eq, Debug)]
pub enum BootFault {
    /// A step of this hart met an exception.
    Trap {
        /// The hart's number.
        hart: u8,
        /// The pc of the step.
        pc: u64,
        /// The number of the exception.
        cause: u8,
    },
    /// This hart is still in debug mode after 1,024 of its steps.
    Long {
        /// The hart's number.
        hart: u8,
    },
}

impl Stepping {
    /// One boot step of hart `h`, which answers the pc and the cause of the exception that it met.
    ///
    /// It is made by the call that makes those of a turn, so that the step stands once in the program: a
    /// second place of its own would keep decoding and execution from being inlined in the first.
    #[tactic(auto, unfolding(crate::specs::Turn::one_step, crate::specs::Turn::hart_steps))]
    fn boot_step(&mut self, h: u8) -> Option<(u64, u8)>
        requires hart { h < length self.old.core.harts }
        requires devices { hart_count self.old.outside.board ≡ length self.old.core.harts }
        requires room { HasBootRoom self.old 1 }
        ensures exception { result ≡ step_exception h (booting_of self.old 0) }
        ensures step { booting_of self.new 1 ≡ boot_step h (booting_of self.old 0) }
        ensures form { KeepsForm self.old self.new }
        ensures sent { length self.new.outside.output.bytes ≤ length self.old.outside.output.bytes + 256 }
    {
        self.events.clear();
        self.hart_steps::<Kept>(h, 1);
        exception(&self.events.as_slice()[0])
    }

    /// Hart `h`, which is in debug mode, steps until it leaves it. The steps are added to a count.
    fn boot_hart(&mut self, h: u8, steps: &mut u32) -> Option<BootFault>
        requires hart { h < length self.old.core.harts }
        requires devices { hart_count self.old.outside.board ≡ length self.old.core.harts }
        requires room { HasBootRoom self.old most_steps }
        requires count { steps.old ≤ 1_000_000 }
        ensures fault { result ≡ (boot_hart most_steps h (booting_of self.old steps.old)).fault }
        ensures left { booting_of self.new steps.new ≡ (boot_hart most_steps h (booting_of self.old steps.old)).left }
        ensures form { KeepsForm self.old self.new }
        ensures sent { length self.new.outside.output.bytes ≤ length self.old.outside.output.bytes + 256 * most_steps }
        ensures bounded { steps.new ≤ steps.old + most_steps }
    {
        for _ in 0..MOST_STEPS {
            let exception = self.boot_step(h);
            *steps += 1;
            if let Some((pc, cause)) = exception {
                return Some(BootFault::Trap { hart: h, pc, cause });
            }
            if !is_in_debug(&self.core, h) {
                return None;
            }
        }
        Some(BootFault::Long { hart: h })
    }

    /// The first harts, in order of number, each of which steps until it leaves debug mode.
    pub(crate) fn boot(&mut self, harts: u8, steps: &mut u32) -> Option<BootFault>
        requires harts { harts ≤ length self.old.core.harts }
        requires devices { hart_count self.old.outside.board ≡ length self.old.core.harts }
        requires room { HasBootRoom self.old (harts * most_steps) }
        requires count { steps.old + harts * most_steps ≤ 1_000_000 }
        ensures fault { result ≡ (boot_harts harts (booting_of self.old steps.old)).fault }
        ensures left { booting_of self.new steps.new ≡ (boot_harts harts (booting_of self.old steps.old)).left }
        ensures form { KeepsForm self.old self.new }
    {
        for h in 0..harts {
            if is_in_debug(&self.core, h) {
                if let Some(fault) = self.boot_hart(h, steps) {
                    return Some(fault);
                }
            }
        }
        None
    }
}

/// The pc and the cause of an exception.
fn exception(event: &Event) -> Option<(u64, u8)>
    ensures { result ≡ exception_of event.now }
{
    match event {
        Event::Exception { pc, cause, .. } => Some((*pc, *cause)),
        Event::Commit { .. } => None,
        Event::Interrupt { .. } => None,
        Event::Host { .. } => None,
    }
}

/// Whether hart `h` is in debug mode.
fn is_in_debug(core: &Core, h: u8) -> bool
    requires { h < length core.now.harts }
    ensures { result ≡ is_in_debug (hart_of core.now h) }
{
    core.hart(h).csrs().debug().is_some()
}
