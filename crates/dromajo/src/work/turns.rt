//! Turns, which are logged.

ghost use Rattle.std.specs.Prelude.{◌≡◌, ◌≤◌, IfErr, IfOk, IsSome, OnOk};
ghost use Rattle.job_words.specs.Job.{Turns};
ghost use Rattle.outside_acts.specs.Calls.{Caused, Does, GoesQuietly, Stops};
ghost use Rattle.turn_runs.specs.Reaching.{HoldsLogs, log_uses};
ghost use Rattle.dromajo.specs.Classes.{Ended, class_of};
ghost use Rattle.dromajo.specs.Jobs.{end_status, start_acts};
ghost use Rattle.dromajo.specs.Works.{BegunEnds, BegunStops, OverLeft, begun_with};

use crate::status::{Status, Tally};
use crate::work::{JobEnding, take_up};
use hart_turns::{Machine, TurnEnd};
use job_words::Logs;
use outside_acts::{Outside, Stop};
use std::alloc::Global;
use turn_runs::run;

/// The status of a run whose last turn, of this number, ended so.
pub(crate) fn status_at(end: TurnEnd, turn: u64) -> Status
    ensures value { result ≡ end_status end turn }
    ensures class { class_of result ≡ Ended }
{
    match end {
        TurnEnd::Goes => Status::Done,
        TurnEnd::Ended(0) => Status::Done,
        TurnEnd::Ended(code) => Status::GuestEnded { code, turn },
        TurnEnd::BadHost(word) => Status::BadHostWord { word, turn },
    }
}

/// Makes the files of the logs, and empties them.
fn start_logs<W: Outside>(logs: &Logs<'_>, outside: &mut W) -> Result<(), Stop>
    ensures done { OnOk result (Does (start_acts logs.now) (W.world outside.old) (W.world outside.new)) }
    ensures cut { IfErr result (λ stop. Stops stop (start_acts logs.now) (W.world outside.old) (W.world outside.new)) }
    ensures cause { Caused (log_uses logs.now) result (W.world outside.old) (W.world outside.new) }
    ensures there { OnOk result (IsSome (W.world outside.old).held → HoldsLogs logs.now (W.world outside.new)) }
    ensures calm { W.quiet outside.old → GoesQuietly (W.quiet outside.new) result }
{
    match logs.trace() {
        Some(name) => outside.start(name),
        None => Ok(()),
    }
}

/// Takes up the run of a machine, and makes so many turns, or as many as there are to the first that ends the run,
/// and logs them.
pub(crate) fn make_turns<W: Outside>(
    alloc: Global,
    mut machine: Machine,
    turns: u64,
    logs: &Logs<'_>,
    outside: &mut W,
) -> Result<JobEnding, Stop>
    requires taken { machine.machine.taken ≤ 1_000_000_000_000 }
    requires most { turns ≤ 1_000_000_000 }
    ensures done { IfOk result (λ finished. OverLeft (W.world outside.old) (λ input.
        BegunEnds (Turns turns logs.now) (begun_with machine) finished input
        (W.world outside.old) (W.world outside.new))) }
    ensures cut { IfErr result (λ stop. OverLeft (W.world outside.old) (λ input.
        BegunStops stop (Turns turns logs.now) (begun_with machine) input
        (W.world outside.old) (W.world outside.new))) }
    ensures ended { IfOk result (λ finished. class_of finished.status ≡ Ended) }
    ensures cause { Caused (log_uses logs.now) result (W.world outside.old) (W.world outside.new) }
    ensures calm { W.quiet outside.old → IsSome (W.world outside.old).held → GoesQuietly (W.quiet outside.new) result }
{
    let mut feed = match take_up(&machine, outside) {
        Ok(feed) => feed,
        Err(stop) => return Err(stop),
    };
    match start_logs(logs, outside) {
        Ok(()) => {}
        Err(stop) => return Err(stop),
    }
    let ran = match run(alloc, &mut machine, &mut feed, turns, logs, outside) {
        Ok(ran) => ran,
        Err(stop) => return Err(stop),
    };
    Ok(JobEnding {
        status: status_at(ran.end, ran.made),
        tally: Tally::Turned {
            turns: ran.made,
            taken: machine.taken(),
        },
    })
}
