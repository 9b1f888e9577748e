//! Privileged instructions.

ghost use Rattle.std.specs.Prelude.{IsTrue};
ghost use Rattle.trap_rules.specs.Return.{debug_returned, machine_returned, resumed_mode, resumed_pc, supervisor_returned};
ghost use Rattle.trap_rules.specs.Status.{machine_previous, supervisor_previous};
ghost use Rattle.hart_step.specs.Clauses.{CarriesOut};
ghost use Rattle.hart_step.specs.Effects.{may_return_machine, may_return_supervisor, resumed, shows_nothing};
ghost use Rattle.hart_step.specs.Harts.{is_in_debug, IsFitHart};

use crate::control::pass;
use crate::done::Done;
use crate::exception::Exception;
use crate::hart::Hart;
use trap_rules::{dret, mret, sret};

/// Returns from a trap in machine mode.
#[tactic(auto, using(crate::proofs::Numbers::machine_returned_number))]
#[inline(always)]
pub(crate) fn return_machine(hart: &mut Hart) -> Result<Done, Exception>
    requires legal { IsTrue (may_return_machine hart.old) }
    requires fit { IsFitHart hart.old }
    ensures { CarriesOut hart.old hart.new result
        (resumed (machine_returned hart.old.csrs) (machine_previous hart.old.csrs.kept.mstatus) hart.old.csrs.kept.mepc hart.old)
        shows_nothing }
{
    let (mode, pc) = mret(&mut hart.csrs);
    hart.mode = mode;
    pass(hart, pc)
}

/// Returns from a trap in supervisor mode.
#[tactic(auto, using(crate::proofs::Numbers::supervisor_returned_number))]
#[inline(always)]
pub(crate) fn return_supervisor(hart: &mut Hart) -> Result<Done, Exception>
    requires legal { IsTrue (may_return_supervisor hart.old) }
    requires fit { IsFitHart hart.old }
    ensures { CarriesOut hart.old hart.new result
        (resumed (supervisor_returned hart.old.csrs) (supervisor_previous hart.old.csrs.kept.mstatus) hart.old.csrs.kept.sepc hart.old)
        shows_nothing }
{
    let (mode, pc) = sret(&mut hart.csrs);
    hart.mode = mode;
    pass(hart, pc)
}

/// Leaves debug mode.
#[tactic(auto, using(crate::proofs::Numbers::debug_returned_number))]
#[inline(always)]
pub(crate) fn return_debug(hart: &mut Hart) -> Result<Done, Exception>
    requires legal { IsTrue (is_in_debug hart.old) }
    requires fit { IsFitHart hart.old }
    ensures { CarriesOut hart.old hart.new result
        (resumed (debug_returned hart.old.csrs) (resumed_mode hart.old.csrs.debug) (resumed_pc hart.old.csrs.debug) hart.old)
        shows_nothing }
{
    let (mode, pc) = dret(&mut hart.csrs);
    hart.mode = mode;
    pass(hart, pc)
}
