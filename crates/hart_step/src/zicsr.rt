//! Instructions that read and write control and status registers.

ghost use Rattle.std.specs.Prelude.{◌≡◌, ◌&&◌, ◌%◌, ◌<◌, IsTrue, IsFalse, IfOk, Some, None, if◌then◌else◌};
ghost use Rattle.csr_file.specs.Access.{is_present, may_access};
ghost use Rattle.csr_file.specs.Numbers.{is_read_only};
ghost use Rattle.csr_file.specs.View.{IsGiven, is_volatile_number};
ghost use Rattle.hart_step.specs.Answers.{given_by};
ghost use Rattle.hart_step.specs.Effects.{LeavesCsr, accesses, clears_csr, given_word, sets_csr, with_csr, writes_csr};
ghost use Rattle.hart_step.specs.Events.{IsDone};
ghost use Rattle.hart_step.specs.Harts.{IsFitHart, StaysFit};

use crate::access::Site;
use crate::answers::Answers;
use crate::arithmetic::put_register;
use crate::control::following;
use crate::done::Done;
use crate::exception::Exception;
use crate::hart::Hart;
use csr_file::CsrFile;

/// Whether the hart may access register `csr` now, by reading it, or also by writing it.
#[inline(never)]
fn may_access(hart: &Hart, csr: u16, writes: bool) -> bool
    ensures allowed { result ≡ may_access hart.now.csrs hart.now.mode csr writes }
    ensures present { IsTrue result → IsTrue (is_present hart.now.csrs csr) }
    ensures writable { IsTrue result → IsTrue writes → IsFalse (is_read_only csr) }
{
    hart.csrs.may(csr, hart.mode, writes).is_ok()
}

/// The word that register `csr` reads as, where it is volatile and read, else 0.
#[inline(never)]
fn given_word<A: Answers>(site: Site, hart: &Hart, answers: &mut A, reads: bool, csr: u16) -> u64
    requires ready { A.ready answers.old site.hart }
    ensures word { result ≡ given_word
        (given_by (A.says answers.old site.hart) hart.now) reads csr }
    ensures within { IsGiven csr result }
    ensures same { answers.new ≡ answers.old }
{
    if reads && CsrFile::is_volatile(csr) {
        answers.volatile(site.hart, csr, &hart.csrs)
    } else {
        0
    }
}

/// The word that an event shows of a register that was read.
#[inline(always)]
fn shown_word(reads: bool, csr: u16, seen: u64) -> Option<u64>
    ensures { result ≡ (if reads && is_volatile_number csr then Some seen else None) }
{
    if reads && CsrFile::is_volatile(csr) {
        Some(seen)
    } else {
        None
    }
}

/// What a register access reads and writes.
#[derive(Clone, Copy)]
struct Wanted {
    csr: u16,
    /// Whether it is read.
    reads: bool,
    /// Whether it is written.
    writes: bool,
    /// The word that it reads as where it is volatile.
    seen: u64,
    /// The value that is written.
    value: u64,
}

/// Writes a value to register `csr` where that is wanted.
#[tactic(auto, using(crate::proofs::Outside::written_outside, crate::proofs::Numbers::written_number))]
#[inline(never)]
fn put(hart: &mut Hart, writes: bool, csr: u16, value: u64)
    requires present { IsTrue (is_present hart.old.csrs csr) }
    requires writable { IsTrue writes → IsFalse (is_read_only csr) }
    requires fit { IsFitHart hart.old }
    ensures hart { hart.new ≡ record hart.old { csrs = with_csr writes csr value hart.old.csrs } }
    ensures fit { StaysFit hart.old hart.new }
{
    if writes {
        hart.csrs.set(csr, value);
    }
}

/// Reads a register into x`rd`, and writes it where that is wanted.
#[tactic(auto, using(crate::proofs::Outside::stays_on))]
#[inline(always)]
fn access(site: Site, hart: &mut Hart, rd: u8, wanted: Wanted) -> Result<Done, Exception>
    requires register { rd < 32 }
    requires length { site.len % 2 ≡ 0 }
    requires allowed { IsTrue (may_access hart.old.csrs hart.old.mode wanted.csr wanted.writes) }
    requires present { IsTrue (is_present hart.old.csrs wanted.csr) }
    requires writable { IsTrue wanted.writes → IsFalse (is_read_only wanted.csr) }
    requires within { IsGiven wanted.csr wanted.seen }
    requires fit { IsFitHart hart.old }
    ensures leaves { LeavesCsr hart.old hart.new result
        (accesses site.len site.word rd wanted.csr wanted.reads wanted.writes wanted.seen wanted.value hart.old) }
    ensures formed { IfOk result IsDone }
    ensures fit { StaysFit hart.old hart.new }
{
    let next = following(hart, site.len);
    let old = hart.csrs.get(wanted.csr, wanted.seen);
    put(hart, wanted.writes, wanted.csr, wanted.value);
    let shown = put_register(hart, rd, old, next);
    let seen = shown_word(wanted.reads, wanted.csr, wanted.seen);
    let wrote = if wanted.writes {
        Some(wanted.csr)
    } else {
        None
    };
    Ok(Done::accessed(shown, seen, wrote))
}

/// Writes a value to register `csr`, and reads the old one where x`rd` is not x0.
#[inline(always)]
pub(crate) fn write_csr<A: Answers>(
    site: Site,
    hart: &mut Hart,
    answers: &mut A,
    rd: u8,
    csr: u16,
    value: u64,
) -> Result<Done, Exception>
    requires ready { A.ready answers.old site.hart }
    requires register { rd < 32 }
    requires length { site.len % 2 ≡ 0 }
    requires fit { IsFitHart hart.old }
    ensures leaves { LeavesCsr hart.old hart.new result (writes_csr
        (given_by (A.says answers.old site.hart) hart.old)
        site.len site.word rd csr value hart.old) }
    ensures formed { IfOk result IsDone }
    ensures same { answers.new ≡ answers.old }
    ensures fit { StaysFit hart.old hart.new }
{
    if !may_access(hart, csr, true) {
        return Err(Exception::illegal(site.word));
    }
    let reads = rd != 0;
    let seen = given_word(site, hart, answers, reads, csr);
    let wanted = Wanted {
        csr,
        reads,
        writes: true,
        seen,
        value,
    };
    access(site, hart, rd, wanted)
}

/// Reads register `csr` into x`rd`, and sets the bits of a value in it where it is to be written.
#[inline(always)]
pub(crate) fn set_csr<A: Answers>(
    site: Site,
    hart: &mut Hart,
    answers: &mut A,
    rd: u8,
    csr: u16,
    writes: bool,
    value: u64,
) -> Result<Done, Exception>
    requires ready { A.ready answers.old site.hart }
    requires register { rd < 32 }
    requires length { site.len % 2 ≡ 0 }
    requires fit { IsFitHart hart.old }
    ensures leaves { LeavesCsr hart.old hart.new result (sets_csr
        (given_by (A.says answers.old site.hart) hart.old)
        site.len site.word rd csr writes value hart.old) }
    ensures formed { IfOk result IsDone }
    ensures same { answers.new ≡ answers.old }
    ensures fit { StaysFit hart.old hart.new }
{
    if !may_access(hart, csr, writes) {
        return Err(Exception::illegal(site.word));
    }
    let seen = given_word(site, hart, answers, true, csr);
    let wanted = Wanted {
        csr,
        reads: true,
        writes,
        seen,
        value: hart.csrs.base(csr, seen) | value,
    };
    access(site, hart, rd, wanted)
}

/// Reads register `csr` into x`rd`, and clears the bits of a value in it where it is to be written.
#[inline(always)]
pub(crate) fn clear_csr<A: Answers>(
    site: Site,
    hart: &mut Hart,
    answers: &mut A,
    rd: u8,
    csr: u16,
    writes: bool,
    value: u64,
) -> Result<Done, Exception>
    requires ready { A.ready answers.old site.hart }
    requires register { rd < 32 }
    requires length { site.len % 2 ≡ 0 }
    requires fit { IsFitHart hart.old }
    ensures leaves { LeavesCsr hart.old hart.new result (clears_csr
        (given_by (A.says answers.old site.hart) hart.old)
        site.len site.word rd csr writes value hart.old) }
    ensures formed { IfOk result IsDone }
    ensures same { answers.new ≡ answers.old }
    ensures fit { StaysFit hart.old hart.new }
{
    if !may_access(hart, csr, writes) {
        return Err(Exception::illegal(site.word));
    }
    let seen = given_word(site, hart, answers, true, csr);
    let wanted = Wanted {
        csr,
        reads: true,
        writes,
        seen,
        value: hart.csrs.base(csr, seen) & !value,
    };
    access(site, hart, rd, wanted)
}
