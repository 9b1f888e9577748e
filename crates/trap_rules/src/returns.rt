//! The returns from traps and from debug mode.
#![tactic(auto, unfolding(crate::specs::Return::machine_returned, crate::specs::Return::supervisor_returned, crate::specs::Return::debug_returned))]

ghost use Rattle.std.specs.Prelude.{◌≡◌, ◌%◌, IsNone, IsSome};
ghost use Rattle.trap_rules.specs.Status.{machine_previous, supervisor_previous};
ghost use Rattle.trap_rules.specs.Return.{debug_returned, machine_returned, resumed_mode, resumed_pc, supervisor_returned};

use crate::registers::{mepc, mstatus, sepc, set_mstatus};
use crate::status::{
    machine_previous, machine_unstacked, supervisor_previous, supervisor_unstacked,
};
use csr_file::CsrFile;
use rv_alu::{Mode, mode_of};

/// Returns from a trap in machine mode: gives the mode in MPP and the pc in `mepc`, and takes the old
/// interrupt enable back (Privileged ISA, "Trap-Return Instructions"). The hart is not in debug mode.
pub fn mret(csrs: &mut CsrFile) -> (Mode, u64)
    requires { IsNone csrs.old.debug }
    ensures registers { csrs.new ≡ machine_returned csrs.old }
    ensures outside_debug { IsNone csrs.new.debug }
    ensures mode { result.0 ≡ machine_previous csrs.old.kept.mstatus }
    ensures pc { result.1 ≡ csrs.old.kept.mepc }
    ensures even { result.1 % 2 ≡ 0 }
{
    let status = mstatus(csrs);
    let pc = mepc(csrs);
    set_mstatus(csrs, machine_unstacked(status));
    (machine_previous(status), pc)
}

/// Returns from a trap in supervisor mode: gives the mode in SPP and the pc in `sepc`, and takes the old
/// interrupt enable back (Privileged ISA, "Trap-Return Instructions"). The hart is not in debug mode.
pub fn sret(csrs: &mut CsrFile) -> (Mode, u64)
    requires { IsNone csrs.old.debug }
    ensures registers { csrs.new ≡ supervisor_returned csrs.old }
    ensures outside_debug { IsNone csrs.new.debug }
    ensures mode { result.0 ≡ supervisor_previous csrs.old.kept.mstatus }
    ensures pc { result.1 ≡ csrs.old.kept.sepc }
    ensures even { result.1 % 2 ≡ 0 }
{
    let status = mstatus(csrs);
    let pc = sepc(csrs);
    set_mstatus(csrs, supervisor_unstacked(status));
    (supervisor_previous(status), pc)
}

/// Leaves debug mode: removes the debug registers, and gives the mode in prv of `dcsr` and the pc in `dpc`
/// (External Debug Support, "Debug Mode"). The hart is in debug mode.
pub fn dret(csrs: &mut CsrFile) -> (Mode, u64)
    requires { IsSome csrs.old.debug }
    ensures registers { csrs.new ≡ debug_returned csrs.old }
    ensures mode { result.0 ≡ resumed_mode csrs.old.debug }
    ensures pc { result.1 ≡ resumed_pc csrs.old.debug }
    ensures even { result.1 % 2 ≡ 0 }
{
    let resumed = match csrs.debug() {
        Some(debug) => (mode_of(debug.dcsr % 4), debug.dpc),
        None => unreachable!(),
    };
    csrs.leave_debug();
    resumed
}
