//! The judging of a stream.

ghost use Rattle.std.specs.Prelude.{◌≡◌, IfErr, IfOk, IsTrue};
ghost use Rattle.cosim_check.specs.Verdicts.{number};
ghost use Rattle.hart_turns.specs.Machine.{is_running};
ghost use Rattle.job_words.specs.Job.{Judge};
ghost use Rattle.outside_acts.specs.Calls.{Caused, GoesQuietly, Only};
ghost use Rattle.outside_acts.specs.World.{TheInput};
ghost use Rattle.dromajo.specs.Classes.{Ended, class_of};
ghost use Rattle.dromajo.specs.Jobs.{verdict_status};
ghost use Rattle.dromajo.specs.Works.{BegunEnds, BegunStops, IsUnused, OverLeft, begun_with};

use crate::status::{Status, Tally};
use crate::work::JobEnding;
use cosim_check::Verdict;
use hart_turns::Machine;
use outside_acts::{Outside, Stop};
use stream_judge::judge_input;

/// How a stream ended on which this is the verdict.
fn judged(verdict: Verdict) -> JobEnding
    ensures status { result.status ≡ verdict_status verdict }
    ensures tally { result.tally ≡ Tally.Judged (number verdict) }
    ensures class { class_of result.status ≡ Ended }
{
    match verdict {
        Verdict::Passing(n) => JobEnding {
            status: Status::Done,
            tally: Tally::Judged(n),
        },
        Verdict::Disallowed {
            n,
            field,
            allowed,
            given,
        } => JobEnding {
            status: Status::Disagree {
                n,
                field,
                allowed,
                given,
            },
            tally: Tally::Judged(n),
        },
        Verdict::BadLine { n, column } => JobEnding {
            status: Status::BadLine { n, column },
            tally: Tally::Judged(n),
        },
        Verdict::TooMany(most) => JobEnding {
            status: Status::TooMany(most),
            tally: Tally::Judged(most),
        },
    }
}

/// Judges the input as the commit stream of another core, from this machine on.
pub(crate) fn judge_stream<W: Outside>(machine: Machine, outside: &mut W) -> Result<JobEnding, Stop>
    requires unused { IsUnused machine }
    requires running { IsTrue (is_running machine.machine) }
    ensures done { IfOk result (λ finished. OverLeft (W.world outside.old) (λ input.
        BegunEnds Judge (begun_with machine) finished input (W.world outside.old) (W.world outside.new))) }
    ensures cut { IfErr result (λ stop. OverLeft (W.world outside.old) (λ input.
        BegunStops stop Judge (begun_with machine) input (W.world outside.old) (W.world outside.new))) }
    ensures ended { IfOk result (λ finished. class_of finished.status ≡ Ended) }
    ensures cause { Caused (Only TheInput) result (W.world outside.old) (W.world outside.new) }
    ensures calm { W.quiet outside.old → GoesQuietly (W.quiet outside.new) result }
{
    machine.see_fit();
    let tohost = machine.shape().tohost;
    match judge_input(machine.into_core(), tohost, outside) {
        Ok(verdict) => Ok(judged(verdict)),
        Err(stop) => Err(stop),
    }
}
