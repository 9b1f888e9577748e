//! The run.

ghost use Rattle.std.specs.Prelude.{◌≡◌, ◌≤◌, ◌+◌, IfErr, IfOk, IsSome, IsTrue};
ghost use Rattle.hart_turns.specs.Machine.{is_running};
ghost use Rattle.outside_acts.specs.Acts.{DidCut};
ghost use Rattle.outside_acts.specs.Calls.{Caused, GoesQuietly};
ghost use Rattle.turn_runs.specs.Reaching.{IsRun, OverInput};
ghost use Rattle.turn_runs.specs.Run.{no_logs, run as run_of};
ghost use Rattle.checkpoint_run.specs.Reaching.{IsSaveRun, StopsAnywhere, save_uses};

use crate::saving::{SavesOutside, save_machine};
use hart_turns::{Machine, TurnEnd};
use job_words::Logs;
use outside_acts::{Outside, Stop};
use std::alloc::Global;
use turn_runs::{Feed, Ran, has_ended, run};

/// What a run made that may save.
#[derive(Drop)]
pub struct SaveRan {
    /// The turns in all.
    pub made: u64,
    /// How the last of them ended.
    pub end: TurnEnd,
    /// Whether the machine was saved.
    pub saved: bool,
}

/// Makes so many turns, and logs none.
fn run_unlogged<W: Outside>(
    alloc: Global,
    machine: &mut Machine,
    feed: &mut Feed,
    turns: u64,
    outside: &mut W,
) -> Result<Ran, Stop>
    requires { machine.old.machine.taken + turns ≤ 2_000_000_000_000 }
    ensures ran { IfOk result (λ ran. OverInput machine.old.machine feed.old (W.world outside.old) (λ bytes from.
        IsRun bytes from (run_of no_logs bytes machine.old.machine turns) machine.new.machine ran.made ran.end
        feed.new (W.world outside.old) (W.world outside.new))) }
    ensures cut { IfErr result (λ stop. OverInput machine.old.machine feed.old (W.world outside.old) (λ bytes from.
        DidCut stop bytes from (run_of no_logs bytes machine.old.machine turns).acts
        (W.world outside.old) (W.world outside.new))) }
    ensures few { IfOk result (λ ran. ran.made ≤ turns) }
    ensures takes_few { machine.new.machine.taken ≤ machine.old.machine.taken + turns }
    ensures running { IsTrue (is_running machine.old.machine) → IsTrue (is_running machine.new.machine) }
    ensures cause { Caused save_uses result (W.world outside.old) (W.world outside.new) }
    ensures calm { W.quiet outside.old → GoesQuietly (W.quiet outside.new) result }
{
    run(alloc, machine, feed, turns, &Logs::new(None), outside)
}

/// Makes so many turns, and where none of them ends the run, saves the running machine under a name with a boot
/// ROM that restores it, drops its reservations, and makes so many turns more. The machine may have made turns
/// before: `feed` keeps the place of its input.
///
/// # Errors
///
/// What failed: the input, the console or a file of the checkpoint; or `NoMemory`. The machine is running then too,
/// and has taken at most as many bytes of the input as turns were asked for.
pub fn save_run<W: SavesOutside>(
    alloc: Global,
    machine: &mut Machine,
    feed: &mut Feed,
    turns: u64,
    name: &str,
    more: u64,
    outside: &mut W,
) -> Result<SaveRan, Stop>
    requires running { IsTrue (is_running machine.old.machine) }
    requires taken { machine.old.machine.taken + turns ≤ 1_000_000_000_000 }
    requires most { turns ≤ 1_000_000_000 }
    requires most_more { more ≤ 1_000_000_000 }
    ensures ran { IfOk result (λ ran. OverInput machine.old.machine feed.old (W.Outside.world outside.old) (λ bytes from.
        IsSaveRun bytes from name.now machine.old.machine turns more machine.new.machine ran.made ran.end ran.saved
        feed.new (W.Outside.world outside.old) (W.Outside.world outside.new))) }
    ensures cut { IfErr result (λ stop. OverInput machine.old.machine feed.old (W.Outside.world outside.old) (λ bytes from.
        StopsAnywhere stop bytes from name.now machine.old.machine turns more
        (W.Outside.world outside.old) (W.Outside.world outside.new))) }
    ensures takes_few { machine.new.machine.taken ≤ machine.old.machine.taken + turns + more }
    ensures running { IsTrue (is_running machine.new.machine) }
    ensures cause { Caused save_uses result (W.Outside.world outside.old) (W.Outside.world outside.new) }
    ensures calm { W.Outside.quiet outside.old → IsSome (W.Outside.world outside.old).held →
        GoesQuietly (W.Outside.quiet outside.new) result }
{
    let first = match run_unlogged(alloc, machine, feed, turns, outside) {
        Ok(first) => first,
        Err(stop) => return Err(stop),
    };
    if has_ended(first.end) {
        return Ok(SaveRan {
            made: first.made,
            end: first.end,
            saved: false,
        });
    }
    match save_machine(alloc, machine, name, outside) {
        Ok(()) => {}
        Err(stop) => return Err(stop),
    }
    machine.clear_reservations();
    match run_unlogged(alloc, machine, feed, more, outside) {
        Ok(second) => Ok(SaveRan {
            made: first.made + second.made,
            end: second.end,
            saved: true,
        }),
        Err(stop) => Err(stop),
    }
}
