//! One step of a hart.

ghost use Rattle.std.specs.Prelude.{◌≡◌, ◌<◌, ◌≤◌, IsFalse, IsNone};
ghost use Rattle.trap_rules.specs.Interrupt.{MayCome};
ghost use Rattle.hart_step.specs.Answers.{given_by};
ghost use Rattle.hart_step.specs.Clauses.{Keeps};
ghost use Rattle.hart_step.specs.declared.event.Event.{Event as EventOf};
ghost use Rattle.hart_step.specs.Events.{IsEvent};
ghost use Rattle.hart_step.specs.Harts.{IsFitHart, StaysFit};
ghost use Rattle.hart_step.specs.Step.{StepLeaves, carried_out, enters, first_of, hart_step, instruction_step, or_raises, retired, traps};

use crate::access::Site;
use crate::answers::Answers;
use crate::event::{Priv, Put};
use crate::exception::Exception;
use crate::execute::execute;
use crate::fetch::{Decoded, decode_parcels, fetch};
use crate::hart::Hart;
use crate::memory::Memory;
use crate::shows::Shows;
use trap_rules::{Cause, enter};

/// Enters a trap, which the step is counted as.
#[tactic(auto, using(crate::proofs::Outside::counted_outside, crate::proofs::Numbers::counted_number, crate::proofs::Numbers::entered_number))]
#[inline(never)]
fn enter_trap(hart: &mut Hart, cause: Cause, tval: u64)
    requires outside_debug { IsNone hart.old.csrs.debug }
    requires may_come { MayCome hart.old.csrs hart.old.mode cause }
    requires fit { IsFitHart hart.old }
    ensures hart { hart.new ≡ enters cause tval hart.old }
    ensures fit { StaysFit hart.old hart.new }
{
    let (mode, pc) = enter(&mut hart.csrs, hart.mode, cause, tval, hart.pc);
    hart.csrs.count(false, None);
    hart.mode = mode;
    hart.pc = pc;
}

/// Takes an exception of the instruction at `pc`, which was begun with the privilege `mode`: enters its
/// trap, but in debug mode nothing changes.
#[inline(always)]
fn take_exception<S: Shows>(
    h: u8,
    hart: &mut Hart,
    mode: Priv,
    pc: u64,
    exception: &Exception,
    place: &mut S,
)
    requires number { h < 8 }
    requires fit { IsFitHart hart.old }
    ensures hart { hart.new ≡ traps exception.now hart.old }
    ensures shown { S.shows place.new (EventOf.Exception h mode pc exception.now.cause exception.now.tval) }
    ensures formed { IsEvent (EventOf.Exception h mode pc exception.now.cause exception.now.tval) }
    ensures fit { StaysFit hart.old hart.new }
{
    let (cause, tval) = exception.parts();
    if !hart.is_in_debug() {
        enter_trap(hart, Cause::Exception(cause), tval);
    }
    place.exception(h, mode, pc, cause, tval);
}

/// Counts an instruction that was carried out, where its step began out of debug mode.
#[tactic(auto, using(crate::proofs::Outside::counted_outside, crate::proofs::Numbers::counted_number))]
#[inline(always)]
fn retire(hart: &mut Hart, was_in_debug: bool, wrote: Option<u16>)
    requires counts { IsFalse was_in_debug → IsNone hart.old.csrs.debug }
    requires fit { IsFitHart hart.old }
    ensures hart { hart.new ≡ retired was_in_debug wrote hart.old }
    ensures fit { StaysFit hart.old hart.new }
{
    if !was_in_debug {
        hart.csrs.count(true, wrote);
    }
}

/// Carries out the instruction that two fetched parcels begin with, and answers what it stored.
#[inline(always)]
fn carry_out<A: Answers, S: Shows>(
    h: u8,
    harts: u8,
    parcels: u32,
    hart: &mut Hart,
    memory: &mut Memory,
    answers: &mut A,
    place: &mut S,
) -> Option<Put>
    requires ready { A.ready answers.old h }
    requires number { h < 8 }
    requires harts { harts ≤ 8 }
    requires fit { IsFitHart hart.old }
    ensures leaves { StepLeaves A.after answers.old answers.new h hart.new memory.new (S.shows place.new) result
        (or_raises h hart.old memory.old (carried_out
        (given_by (A.says answers.old h) hart.old)
        harts h hart.old memory.old (first_of parcels))) }
    ensures keeps { Keeps hart.old hart.new memory.old memory.new }
{
    let pc = hart.pc;
    let mode = hart.privilege();
    let was_in_debug = hart.is_in_debug();
    let Decoded { word, len, insn } = decode_parcels(parcels);
    let Some(insn) = insn else {
        let exception = Exception::illegal(word);
        take_exception(h, hart, mode, pc, &exception, place);
        return None;
    };
    let site = Site {
        hart: h,
        harts,
        word,
        len,
    };
    match execute::<A, S>(site, insn, hart, memory, answers) {
        Ok(done) => {
            let (wrote, stored) = done.show(place, h, mode, pc, word);
            retire(hart, was_in_debug, wrote);
            stored
        }
        Err(exception) => {
            take_exception(h, hart, mode, pc, &exception, place);
            None
        }
    }
}

/// Fetches one instruction of hart number `h`, on a board of `harts` harts, carries it out, and answers what
/// it stored.
#[inline(always)]
fn run_instruction<A: Answers, S: Shows>(
    h: u8,
    harts: u8,
    hart: &mut Hart,
    memory: &mut Memory,
    answers: &mut A,
    place: &mut S,
) -> Option<Put>
    requires ready { A.ready answers.old h }
    requires number { h < 8 }
    requires harts { harts ≤ 8 }
    requires fit { IsFitHart hart.old }
    ensures leaves { StepLeaves A.after answers.old answers.new h hart.new memory.new (S.shows place.new) result
        (instruction_step (given_by (A.says answers.old h) hart.old)
        harts h hart.old memory.old) }
    ensures keeps { Keeps hart.old hart.new memory.old memory.new }
{
    match fetch(hart, memory) {
        Ok(parcels) => carry_out(h, harts, parcels, hart, memory, answers, place),
        Err(exception) => {
            let pc = hart.pc;
            let mode = hart.privilege();
            take_exception(h, hart, mode, pc, &exception, place);
            None
        }
    }
}

/// Takes one step of hart number `h`, on a board of `harts` harts: the interrupt that is given, or else
/// one instruction. Answers what was stored.
#[tactic(auto, using(crate::proofs::Causes::taken_small, crate::proofs::Outside::taken_outside), unfolding(crate::specs::Step::hart_step))]
#[inline(always)]
pub(crate) fn step_hart<A: Answers, S: Shows>(
    h: u8,
    harts: u8,
    hart: &mut Hart,
    memory: &mut Memory,
    answers: &mut A,
    place: &mut S,
) -> Option<Put>
    requires ready { A.ready answers.old h }
    requires number { h < 8 }
    requires harts { harts ≤ 8 }
    requires fit { IsFitHart hart.old }
    ensures leaves { StepLeaves A.after answers.old answers.new h hart.new memory.new (S.shows place.new) result
        (hart_step (given_by (A.says answers.old h) hart.old)
        harts h hart.old memory.old) }
    ensures keeps { Keeps hart.old hart.new memory.old memory.new }
{
    match answers.interrupt(h, &hart.csrs, hart.mode) {
        Some(cause) => {
            enter_trap(hart, Cause::Interrupt(cause), 0);
            place.interrupt(h, cause);
            None
        }
        None => run_instruction(h, harts, hart, memory, answers, place),
    }
}
