//! What is done with a machine.

ghost use Rattle.std.specs.Prelude.{◌≡◌, ◌≤◌, IfErr, IfOk, IsSome, IsTrue};
ghost use Rattle.hart_turns.specs.Machine.{is_running};
ghost use Rattle.job_words.specs.Seen.{MakesFewTurns, work_seen};
ghost use Rattle.outside_acts.specs.Acts.{DidCut};
ghost use Rattle.outside_acts.specs.Calls.{Caused, GoesQuietly};
ghost use Rattle.turn_runs.specs.Resuming.{HasResumed, resume_acts, resume_uses};
ghost use Rattle.dromajo.specs.Classes.{Ended, class_of};
ghost use Rattle.dromajo.specs.Jobs.{work_uses};
ghost use Rattle.dromajo.specs.Works.{BeginsWell, BegunEnds, BegunStops, OverLeft, begun_with};

mod judging;
mod saving;
mod turns;

use crate::status::{Status, Tally};
use checkpoint_run::SavesOutside;
use hart_turns::Machine;
use job_words::Work;
use judging::judge_stream;
use outside_acts::{Outside, Stop};
use saving::save_turns;
use std::alloc::Global;
use turn_runs::{Feed, resume};
use turns::make_turns;

/// How a job ended, before its report, and what it counted.
#[derive(Drop)]
pub(crate) struct JobEnding {
    pub(crate) status: Status,
    pub(crate) tally: Tally,
}

/// A machine takes up its run: what its boot sent goes to the console, and of the input it passes over what it
/// had taken. Answers the place of its input.
fn take_up<W: Outside>(machine: &Machine, outside: &mut W) -> Result<Feed, Stop>
    ensures resumed { IfOk result (λ feed. OverLeft (W.world outside.old) (λ input.
        HasResumed input machine.now.console machine.now.machine.taken feed
        (W.world outside.old) (W.world outside.new))) }
    ensures cut { IfErr result (λ stop. OverLeft (W.world outside.old) (λ input.
        DidCut stop input 0 (resume_acts machine.now.console machine.now.machine.taken)
        (W.world outside.old) (W.world outside.new))) }
    ensures cause { Caused resume_uses result (W.world outside.old) (W.world outside.new) }
    ensures calm { W.quiet outside.old → GoesQuietly (W.quiet outside.new) result }
{
    let mut feed = Feed::new();
    match resume(machine, &mut feed, outside) {
        Ok(()) => Ok(feed),
        Err(stop) => Err(stop),
    }
}

/// Does a work with a machine that was begun, of whose input nothing was read yet.
pub(crate) fn do_work<W: SavesOutside>(
    alloc: Global,
    work: &Work<'_>,
    machine: Machine,
    outside: &mut W,
) -> Result<JobEnding, Stop>
    requires few { MakesFewTurns work.now }
    requires well { BeginsWell (work_seen work.now) machine }
    requires running { IsTrue (is_running machine.machine) }
    requires taken { machine.machine.taken ≤ 1_000_000_000_000 }
    ensures done { IfOk result (λ finished. OverLeft (W.world outside.old) (λ input.
        BegunEnds (work_seen work.now) (begun_with machine) finished input
        (W.world outside.old) (W.world outside.new))) }
    ensures cut { IfErr result (λ stop. OverLeft (W.world outside.old) (λ input.
        BegunStops stop (work_seen work.now) (begun_with machine) input
        (W.world outside.old) (W.world outside.new))) }
    ensures ended { IfOk result (λ finished. class_of finished.status ≡ Ended) }
    ensures cause { Caused (work_uses (work_seen work.now)) result (W.world outside.old) (W.world outside.new) }
    ensures calm { W.quiet outside.old → IsSome (W.world outside.old).held → GoesQuietly (W.quiet outside.new) result }
{
    match work {
        Work::Turns { turns, logs } => make_turns(alloc, machine, *turns, logs, outside),
        Work::Save { turns, name, more } => {
            save_turns(alloc, machine, *turns, name, *more, outside)
        }
        Work::Judge => judge_stream(machine, outside),
    }
}
