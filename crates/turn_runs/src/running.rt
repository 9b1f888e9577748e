//! A run of a machine.

ghost use Rattle.std.specs.Prelude.{◌≡◌, ◌≢◌, ◌≤◌, ◌+◌, IfErr, IfOk, IsFalse, IsTrue};
ghost use Rattle.hart_turns.specs.declared.machine.TurnEnd.TheVariants.{Goes};
ghost use Rattle.hart_turns.specs.Machine.{is_running};
ghost use Rattle.outside_acts.specs.Acts.{DidCut};
ghost use Rattle.outside_acts.specs.Calls.{Caused, GoesQuietly};
ghost use Rattle.turn_runs.specs.Reaching.{HasTurned, HoldsLogs, IsRun, OverInput, log_uses};
ghost use Rattle.turn_runs.specs.Run.{run as run_of};

use crate::feed::Feed;
use crate::turns::run_turn;
use hart_turns::{Machine, TurnEnd};
use job_words::Logs;
use outside_acts::{Outside, Stop};
use std::alloc::Global;

/// What a run made.
#[derive(Drop)]
pub struct Ran {
    /// The turns.
    pub made: u64,
    /// How the last of them ended.
    pub end: TurnEnd,
}

/// Whether a turn ended the run.
pub fn has_ended(end: TurnEnd) -> bool
    ensures ended { IsTrue result → end ≢ Goes }
    ensures goes { IsFalse result → end ≡ Goes }
{
    match end {
        TurnEnd::Goes => false,
        TurnEnd::Ended(_) => true,
        TurnEnd::BadHost(_) => true,
    }
}

/// Makes so many turns, or as many as there are to the first that ends, and sends the console bytes and logs the
/// events of each. The machine may have made turns before: `feed` keeps the place of its input.
///
/// # Errors
///
/// What failed: the input, the console or the file of a log; or `NoMemory`. The machine stands after a whole turn, whose
/// bytes and events may not have been written, or not all.
pub fn run<W: Outside>(
    alloc: Global,
    machine: &mut Machine,
    feed: &mut Feed,
    turns: u64,
    logs: &Logs<'_>,
    outside: &mut W,
) -> Result<Ran, Stop>
    requires { machine.old.machine.taken + turns ≤ 2_000_000_000_000 }
    ensures ran { IfOk result (λ ran. OverInput machine.old.machine feed.old (W.world outside.old) (λ bytes from.
        IsRun bytes from (run_of logs.now bytes machine.old.machine turns) machine.new.machine ran.made ran.end
        feed.new (W.world outside.old) (W.world outside.new))) }
    ensures cut { IfErr result (λ stop. OverInput machine.old.machine feed.old (W.world outside.old) (λ bytes from.
        DidCut stop bytes from (run_of logs.now bytes machine.old.machine turns).acts
        (W.world outside.old) (W.world outside.new))) }
    ensures turned { IfErr result (λ stop. OverInput machine.old.machine feed.old (W.world outside.old) (λ bytes from.
        HasTurned logs.now bytes machine.old.machine turns machine.new.machine)) }
    ensures few { IfOk result (λ ran. ran.made ≤ turns) }
    ensures takes_few { machine.new.machine.taken ≤ machine.old.machine.taken + turns }
    ensures running { IsTrue (is_running machine.old.machine) → IsTrue (is_running machine.new.machine) }
    ensures cause { Caused (log_uses logs.now) result (W.world outside.old) (W.world outside.new) }
    ensures calm { W.quiet outside.old → HoldsLogs logs.now (W.world outside.old) →
        GoesQuietly (W.quiet outside.new) result }
{
    let mut text = Vec::new(alloc);
    for made in 0..turns {
        let end = match run_turn(machine, feed, logs, &mut text, outside) {
            Ok(end) => end,
            Err(stop) => return Err(stop),
        };
        if has_ended(end) {
            return Ok(Ran {
                made: made + 1,
                end,
            });
        }
    }
    Ok(Ran {
        made: turns,
        end: TurnEnd::Goes,
    })
}
