//! One record.

ghost use Rattle.std.specs.Prelude.{◌≡◌, ◌≢◌, IsNone, None, length, nat_lt, if◌then◌else◌, Some};
ghost use Rattle.hart_step.specs.declared.event.Event.TheVariants.{Host, Interrupt};
ghost use Rattle.hart_step.specs.Step.{host_cleared, step};
ghost use Rattle.hart_step.specs.Told.{told};
ghost use Rattle.cosim_check.specs.Records.{core_past, difference, fault_of, host_takes, no_hart, not_taken};
ghost use Rattle.cosim_check.specs.Standing.{HasWindow};

use crate::fields::{first_difference, value_of};
use crate::same::is_same_commit;
use crate::told::{take_interrupt, take_step};
use crate::verdict::Field;
use board_bus::{HostSays, host_word};
use hart_step::{Core, Event};
use trap_rules::may_take;

/// What is wrong with a record: a field, its allowed value, and the record's own.
#[derive(Clone, Copy)]
pub(crate) struct Fault {
    pub(crate) field: Field,
    pub(crate) allowed: Option<u64>,
    pub(crate) given: Option<u64>,
}

/// What is wrong with a record, where a step shows this.
#[tactic(auto, using(crate::proofs::Itself::no_difference))]
#[inline(always)]
fn difference(shown: &Event, e: &Event) -> Option<Fault>
    ensures { result ≡ difference shown.now e.now }
{
    if is_same_commit(shown, e) {
        return None;
    }
    match first_difference(shown, e) {
        Some(field) => Some(Fault {
            field,
            allowed: value_of(field, shown),
            given: value_of(field, e),
        }),
        None => None,
    }
}

fn no_hart(h: u8) -> Fault
    ensures { result ≡ no_hart h }
{
    Fault {
        field: Field::Hart,
        allowed: None,
        given: Some(u64::from(h)),
    }
}

fn not_taken(cause: u8) -> Fault
    ensures { result ≡ not_taken cause }
{
    Fault {
        field: Field::Cause,
        allowed: None,
        given: Some(u64::from(cause)),
    }
}

/// Judges the record of an instruction, by the step that is told these answers.
#[inline(always)]
fn judge_step(
    core: &mut Core,
    h: u8,
    device: u64,
    volatile: u64,
    wins: bool,
    e: &Event,
    shown: &mut Event,
) -> Option<Fault>
    ensures fault { result ≡ (if nat_lt h (length core.old.harts)
        then difference (step (told None device volatile wins) core.old h).event e.now
        else Some (no_hart h)) }
    ensures past { IsNone result → core.new ≡ (step (told None device volatile wins) core.old h).core }
    ensures ram { length core.new.ram ≡ length core.old.ram }
{
    if h >= core.harts() {
        return Some(no_hart(h));
    }
    take_step(core, h, device, volatile, wins, shown);
    difference(shown, e)
}

/// Judges an interrupt.
#[tactic(auto, unfolding(crate::specs::Records::fault_of))]
fn judge_interrupt(
    core: &mut Core,
    tohost: u64,
    h: u8,
    cause: u8,
    shown: &mut Event,
) -> Option<Fault>
    ensures fault { result ≡ fault_of core.old tohost (Interrupt h cause) }
    ensures past { IsNone result → core.new ≡ core_past core.old tohost (Interrupt h cause) }
    ensures ram { length core.new.ram ≡ length core.old.ram }
{
    if h >= core.harts() {
        return Some(no_hart(h));
    }
    let hart = core.hart(h);
    if !may_take(hart.csrs(), hart.mode(), cause) {
        return Some(not_taken(cause));
    }
    take_interrupt(core, h, cause, shown);
    None
}

/// The word that the host takes out of its window.
#[tactic(auto, unfolding(board_bus::specs::Window::host_says))]
fn host_takes(core: &Core, tohost: u64) -> Option<u64>
    requires { HasWindow tohost core.now.ram }
    ensures { result ≡ host_takes core.now tohost }
{
    if tohost == 0 {
        return None;
    }
    match host_word(tohost, core.ram()) {
        HostSays::Nothing => None,
        HostSays::End(_) => None,
        HostSays::Send(_) => Some(core.ram().read(tohost, 8)),
        HostSays::Bad(_) => None,
    }
}

/// Clears the host window, where there is one.
fn clear_window(core: &mut Core, tohost: u64)
    requires window { HasWindow tohost core.old.ram }
    ensures cleared { tohost ≢ 0 → core.new ≡ host_cleared core.old tohost }
    ensures ram { length core.new.ram ≡ length core.old.ram }
{
    if tohost != 0 {
        core.host_clear(tohost);
    }
}

/// Judges a word of the host.
#[tactic(auto, using(crate::proofs::Itself::sent_on), unfolding(crate::specs::Records::fault_of))]
fn judge_host(core: &mut Core, tohost: u64, word: u64) -> Option<Fault>
    requires window { HasWindow tohost core.old.ram }
    ensures fault { result ≡ fault_of core.old tohost (Host word) }
    ensures past { IsNone result → core.new ≡ core_past core.old tohost (Host word) }
    ensures ram { length core.new.ram ≡ length core.old.ram }
{
    let allowed = host_takes(core, tohost);
    if allowed == Some(word) {
        clear_window(core, tohost);
        return None;
    }
    Some(Fault {
        field: Field::Host,
        allowed,
        given: Some(word),
    })
}

/// Judges a record, and moves the core past it where it is allowed. After a refused one the core may
/// be any of as much memory: nothing looks at it again.
#[tactic(auto, unfolding(crate::specs::Records::fault_of))]
pub(crate) fn judge_record(
    core: &mut Core,
    tohost: u64,
    e: &Event,
    shown: &mut Event,
) -> Option<Fault>
    requires window { HasWindow tohost core.old.ram }
    ensures fault { result ≡ fault_of core.old tohost e.now }
    ensures past { IsNone result → core.new ≡ core_past core.old tohost e.now }
    ensures ram { length core.new.ram ≡ length core.old.ram }
{
    match e {
        Event::Commit {
            hart,
            st,
            dv,
            vl,
            ..
        } => judge_step(
            core,
            *hart,
            dv.unwrap_or(0),
            vl.unwrap_or(0),
            st.is_some(),
            e,
            shown,
        ),
        Event::Exception { hart, .. } => judge_step(core, *hart, 0, 0, false, e, shown),
        Event::Interrupt { hart, cause } => judge_interrupt(core, tohost, *hart, *cause, shown),
        Event::Host { word } => judge_host(core, tohost, *word),
    }
}
