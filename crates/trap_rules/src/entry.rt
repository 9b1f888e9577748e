//! Entry to a trap.
#![tactic(auto, unfolding(crate::specs::Entry::machine_entered, crate::specs::Entry::supervisor_entered, crate::specs::Entry::entered))]

ghost use Rattle.std.specs.Prelude.{◌≡◌, ◌%◌, IsNone};
ghost use Rattle.trap_rules.specs.Entry.{cause_word, entered, goes_to_supervisor, handler, handler_pc, handling_mode, machine_entered, supervisor_entered};
ghost use Rattle.trap_rules.specs.Interrupt.{MayCome};
ghost use Rattle.trap_rules.specs.Return.{return_mode, return_pc};

use crate::Cause;
use crate::registers::{
    medeleg, mideleg, mstatus, mtvec, set_mcause, set_mepc, set_mstatus, set_mtval, set_scause,
    set_sepc, set_stval, stvec,
};
use crate::status::{machine_stacked, supervisor_stacked};
use csr_file::CsrFile;
use rv_alu::{Mode, has_bit};

/// Bit 63 of a cause register, which says that the cause is an interrupt.
const INTERRUPT: u64 = 0x8000_0000_0000_0000;

/// Whether the trap goes to supervisor mode.
fn goes_to_supervisor(csrs: &CsrFile, mode: Mode, cause: Cause) -> bool
    requires { MayCome csrs.now mode cause }
    ensures { result ≡ goes_to_supervisor csrs.now mode cause }
{
    let delegated = match cause {
        Cause::Exception(n) => has_bit(medeleg(csrs), n),
        Cause::Interrupt(n) => has_bit(mideleg(csrs), n),
    };
    mode != Mode::M && delegated
}

/// The word that a cause register gets.
fn cause_word(cause: Cause) -> u64
    ensures { result ≡ cause_word cause }
{
    match cause {
        Cause::Exception(n) => u64::from(n),
        Cause::Interrupt(n) => INTERRUPT + u64::from(n),
    }
}

/// The address of the handler, by the value of a trap vector.
fn handler(vector: u64, cause: Cause) -> u64
    ensures value { result ≡ handler vector cause }
    ensures even { result % 2 ≡ 0 }
{
    let base = vector - vector % 4;
    match cause {
        Cause::Exception(_) => base,
        Cause::Interrupt(n) => if vector % 4 == 1 {
            base.wrapping_add(4 * u64::from(n))
        } else {
            base
        },
    }
}

/// Entry to machine mode.
fn enter_machine(csrs: &mut CsrFile, mode: Mode, cause: Cause, tval: u64, pc: u64)
    ensures { csrs.new ≡ machine_entered mode cause tval pc csrs.old }
{
    let status = machine_stacked(mode, mstatus(csrs));
    set_mstatus(csrs, status);
    set_mepc(csrs, pc);
    set_mcause(csrs, cause_word(cause));
    set_mtval(csrs, tval);
}

/// Entry to supervisor mode.
fn enter_supervisor(csrs: &mut CsrFile, mode: Mode, cause: Cause, tval: u64, pc: u64)
    ensures { csrs.new ≡ supervisor_entered mode cause tval pc csrs.old }
{
    let status = supervisor_stacked(mode, mstatus(csrs));
    set_mstatus(csrs, status);
    set_sepc(csrs, pc);
    set_scause(csrs, cause_word(cause));
    set_stval(csrs, tval);
}

/// Enters the trap that comes in `mode` at `pc`: writes the trap registers, with `tval` as the trap value,
/// and gives the mode and the pc of the handler (Privileged ISA, "Machine Trap Delegation Registers",
/// "Machine Trap-Vector Base-Address Register"). The hart is not in debug mode, `pc` is even, an exception
/// has a number below 16, and an interrupt is one that may be taken.
pub fn enter(csrs: &mut CsrFile, mode: Mode, cause: Cause, tval: u64, pc: u64) -> (Mode, u64)
    requires outside_debug { IsNone csrs.old.debug }
    requires may_come { MayCome csrs.old mode cause }
    requires even_pc { pc % 2 ≡ 0 }
    ensures registers { csrs.new ≡ entered mode cause tval pc csrs.old }
    ensures outside_debug { IsNone csrs.new.debug }
    ensures mode { result.0 ≡ handling_mode csrs.old mode cause }
    ensures pc { result.1 ≡ handler_pc csrs.old mode cause }
    ensures even { result.1 % 2 ≡ 0 }
    // a return from the handler goes back to where the trap came
    ensures return_mode { return_mode result.0 csrs.new ≡ mode }
    ensures return_pc { return_pc result.0 csrs.new ≡ pc }
{
    if goes_to_supervisor(csrs, mode, cause) {
        let pc_of_handler = handler(stvec(csrs), cause);
        enter_supervisor(csrs, mode, cause, tval, pc);
        (Mode::S, pc_of_handler)
    } else {
        let pc_of_handler = handler(mtvec(csrs), cause);
        enter_machine(csrs, mode, cause, tval, pc);
        (Mode::M, pc_of_handler)
    }
}
