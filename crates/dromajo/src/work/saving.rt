//! Turns, a checkpoint, and more turns.

ghost use Rattle.std.specs.Prelude.{◌≡◌, ◌≤◌, IfErr, IfOk, IsSome, IsTrue, if◌then◌else◌};
ghost use Rattle.checkpoint_run.specs.Reaching.{save_uses};
ghost use Rattle.hart_turns.specs.Machine.{is_running};
ghost use Rattle.job_words.specs.Job.{Save};
ghost use Rattle.outside_acts.specs.Calls.{Caused, GoesQuietly};
ghost use Rattle.dromajo.specs.Classes.{Ended, class_of};
ghost use Rattle.dromajo.specs.Jobs.{end_status, unsaved_status};
ghost use Rattle.dromajo.specs.Works.{BegunEnds, BegunStops, IsUnused, OverLeft, begun_with};

use crate::status::{Status, Tally};
use crate::work::turns::status_at;
use crate::work::{JobEnding, take_up};
use checkpoint_run::{SaveRan, SavesOutside, save_run};
use hart_turns::{Machine, TurnEnd};
use outside_acts::Stop;
use std::alloc::Global;

/// The status of a run whose last turn, of this number, ended so before the machine was saved.
fn unsaved_status(end: TurnEnd, turn: u64) -> Status
    ensures value { result ≡ unsaved_status end turn }
    ensures class { class_of result ≡ Ended }
{
    match end {
        TurnEnd::Ended(code) => Status::GuestEnded { code, turn },
        end => status_at(end, turn),
    }
}

/// The status of a run that may have saved.
fn save_status(ran: &SaveRan) -> Status
    ensures value { result ≡ (if ran.now.saved then end_status ran.now.end ran.now.made
        else unsaved_status ran.now.end ran.now.made) }
    ensures class { class_of result ≡ Ended }
{
    if ran.saved {
        status_at(ran.end, ran.made)
    } else {
        unsaved_status(ran.end, ran.made)
    }
}

/// Takes up the run of a machine that has made no turn, makes so many turns, saves it under this name where none of
/// them ended the run, and lets it go on without its reservations for so many turns more.
pub(crate) fn save_turns<W: SavesOutside>(
    alloc: Global,
    mut machine: Machine,
    turns: u64,
    name: &str,
    more: u64,
    outside: &mut W,
) -> Result<JobEnding, Stop>
    requires unused { IsUnused machine }
    requires running { IsTrue (is_running machine.machine) }
    requires most { turns ≤ 1_000_000_000 }
    requires most_more { more ≤ 1_000_000_000 }
    ensures done { IfOk result (λ finished. OverLeft (W.world outside.old) (λ input.
        BegunEnds (Save turns name.now more) (begun_with machine) finished input
        (W.world outside.old) (W.world outside.new))) }
    ensures cut { IfErr result (λ stop. OverLeft (W.world outside.old) (λ input.
        BegunStops stop (Save turns name.now more) (begun_with machine) input
        (W.world outside.old) (W.world outside.new))) }
    ensures ended { IfOk result (λ finished. class_of finished.status ≡ Ended) }
    ensures cause { Caused save_uses result (W.world outside.old) (W.world outside.new) }
    ensures calm { W.quiet outside.old → IsSome (W.world outside.old).held → GoesQuietly (W.quiet outside.new) result }
{
    let mut feed = match take_up(&machine, outside) {
        Ok(feed) => feed,
        Err(stop) => return Err(stop),
    };
    let ran = match save_run(alloc, &mut machine, &mut feed, turns, name, more, outside) {
        Ok(ran) => ran,
        Err(stop) => return Err(stop),
    };
    Ok(JobEnding {
        status: save_status(&ran),
        tally: Tally::Turned {
            turns: ran.made,
            taken: machine.taken(),
        },
    })
}
