//! One turn of a run: the input, the steps, the console and the logs.

ghost use Rattle.std.specs.Prelude.{◌≡◌, ◌<◌, ◌≤◌, ◌+◌, ◌++◌, ◌∷◌, [], All, IfErr, IfOk, IsTrue, OnOk};
ghost use Rattle.hart_step.specs.Events.{IsEvent};
ghost use Rattle.hart_turns.specs.Machine.{is_running};
ghost use Rattle.hart_turns.specs.Turn.{turned};
ghost use Rattle.outside_acts.specs.Acts.{DidCut, ReadTo};
ghost use Rattle.outside_acts.specs.Calls.{Caused, Does, GoesQuietly, Only, Stops};
ghost use Rattle.outside_acts.specs.World.{Console, TheInput};
ghost use Rattle.turn_runs.specs.Reaching.{HoldsLogs, IsShown, IsTurned, MayHaveTurned, OverInput, log_uses};
ghost use Rattle.turn_runs.specs.Run.{log_acts, send_acts, trace_lines, turn_acts, turn_on};

use crate::feed::Feed;
use commit_log::{LineBuf, write};
use hart_step::Event;
use hart_turns::{Machine, TurnEnd};
use job_words::Logs;
use outside_acts::{Outside, Stop};
use std::alloc::AllocError;

/// Makes a turn that is offered a byte, or none. Its events are kept where they are logged.
fn turn(machine: &mut Machine, offered: Option<u8>, logs: &Logs<'_>) -> TurnEnd
    requires { machine.old.machine.taken < 2_000_000_000_000 }
    ensures end { result ≡ (turned machine.old.machine offered).end }
    ensures machine { machine.new.machine ≡ (turned machine.old.machine offered).machine }
    ensures console { machine.new.console ≡ (turned machine.old.machine offered).console }
    ensures logged { log_acts logs.now machine.new.events
        ≡ log_acts logs.now (turned machine.old.machine offered).events }
    ensures grows { machine.old.machine.taken ≤ machine.new.machine.taken }
    ensures at_most_one { machine.new.machine.taken ≤ machine.old.machine.taken + 1 }
{
    match logs.trace() {
        Some(_) => machine.turn(offered),
        None => machine.turn_unseen(offered),
    }
}

/// Reads the byte that is offered, and makes the turn.
fn make_turn<W: Outside>(
    machine: &mut Machine,
    feed: &mut Feed,
    logs: &Logs<'_>,
    outside: &mut W,
) -> Result<TurnEnd, Stop>
    requires { machine.old.machine.taken < 2_000_000_000_000 }
    ensures turned { IfOk result (λ end. OverInput machine.old.machine feed.old (W.world outside.old) (λ bytes from.
        IsTurned logs.now bytes from machine.old.machine machine.new end
        feed.new (W.world outside.old) (W.world outside.new))) }
    ensures cut { IfErr result (λ stop. OverInput machine.old.machine feed.old (W.world outside.old) (λ bytes from.
        DidCut stop bytes from (ReadTo (machine.old.machine.taken + 1) ∷ [])
        (W.world outside.old) (W.world outside.new))) }
    ensures unmoved { IfErr result (λ stop. machine.new.machine ≡ machine.old.machine) }
    ensures cause { Caused (Only TheInput) result (W.world outside.old) (W.world outside.new) }
    ensures calm { W.quiet outside.old → GoesQuietly (W.quiet outside.new) result }
    ensures takes_one { machine.new.machine.taken ≤ machine.old.machine.taken + 1 }
    ensures running { IsTrue (is_running machine.old.machine) → IsTrue (is_running machine.new.machine) }
{
    match feed.fill(outside) {
        Ok(()) => {}
        Err(stop) => return Err(stop),
    }
    machine.see_fit();
    let before = machine.taken();
    let end = turn(machine, feed.byte, logs);
    feed.offered(machine.taken() != before);
    Ok(end)
}

/// Sends the console bytes of the last turn, where there are any.
pub(crate) fn show<W: Outside>(machine: &Machine, outside: &mut W) -> Result<(), Stop>
    ensures whole { OnOk result (Does (send_acts machine.now.console) (W.world outside.old) (W.world outside.new)) }
    ensures cut { IfErr result (λ stop.
        Stops stop (send_acts machine.now.console) (W.world outside.old) (W.world outside.new)) }
    ensures cause { Caused (Only Console) result (W.world outside.old) (W.world outside.new) }
    ensures calm { W.quiet outside.old → GoesQuietly (W.quiet outside.new) result }
{
    if machine.output().is_empty() {
        return Ok(());
    }
    outside.send(machine.output())
}

/// Appends the lines of events to a text.
fn push_lines(text: &mut Vec<u8>, events: &[Event]) -> Result<(), AllocError>
    requires { All IsEvent events.now }
    ensures { OnOk result (text.new.items ≡ text.old.items ++ trace_lines events.now) }
{
    let mut line = LineBuf::new();
    for event in events {
        write(event, &mut line);
        text.extend_from_slice(line.bytes())?;
        text.push(b'\n')?;
    }
    Ok(())
}

/// Appends the lines of the last turn to the trace, where there is one. `text` is a buffer that is used again in each
/// turn.
fn log<W: Outside>(
    machine: &Machine,
    logs: &Logs<'_>,
    text: &mut Vec<u8>,
    outside: &mut W,
) -> Result<(), Stop>
    ensures whole { OnOk result
        (Does (log_acts logs.now machine.now.events) (W.world outside.old) (W.world outside.new)) }
    ensures cut { IfErr result (λ stop.
        Stops stop (log_acts logs.now machine.now.events) (W.world outside.old) (W.world outside.new)) }
    ensures cause { Caused (log_uses logs.now) result (W.world outside.old) (W.world outside.new) }
    ensures calm { W.quiet outside.old → HoldsLogs logs.now (W.world outside.old) →
        GoesQuietly (W.quiet outside.new) result }
{
    let Some(name) = logs.trace() else {
        return Ok(());
    };
    text.clear();
    match push_lines(text, machine.events()) {
        Ok(()) => {}
        Err(_) => return Err(Stop::NoMemory),
    }
    outside.append(name, text.as_slice())
}

/// One turn of a run: reads the byte that is offered, makes the turn, sends its console bytes and logs its events.
pub(crate) fn run_turn<W: Outside>(
    machine: &mut Machine,
    feed: &mut Feed,
    logs: &Logs<'_>,
    text: &mut Vec<u8>,
    outside: &mut W,
) -> Result<TurnEnd, Stop>
    requires { machine.old.machine.taken < 2_000_000_000_000 }
    ensures shown { IfOk result (λ end. OverInput machine.old.machine feed.old (W.world outside.old) (λ bytes from.
        IsShown logs.now bytes from machine.old.machine machine.new.machine end
        feed.new (W.world outside.old) (W.world outside.new))) }
    ensures cut { IfErr result (λ stop. OverInput machine.old.machine feed.old (W.world outside.old) (λ bytes from.
        DidCut stop bytes from (turn_acts logs.now machine.old.machine (turn_on bytes machine.old.machine))
        (W.world outside.old) (W.world outside.new))) }
    ensures whole { IfErr result (λ stop. OverInput machine.old.machine feed.old (W.world outside.old) (λ bytes from.
        MayHaveTurned bytes machine.old.machine machine.new.machine)) }
    ensures cause { Caused (log_uses logs.now) result (W.world outside.old) (W.world outside.new) }
    ensures calm { W.quiet outside.old → HoldsLogs logs.now (W.world outside.old) →
        GoesQuietly (W.quiet outside.new) result }
    ensures takes_one { machine.new.machine.taken ≤ machine.old.machine.taken + 1 }
    ensures running { IsTrue (is_running machine.old.machine) → IsTrue (is_running machine.new.machine) }
{
    let end = match make_turn(machine, feed, logs, outside) {
        Ok(end) => end,
        Err(stop) => return Err(stop),
    };
    match show(machine, outside) {
        Ok(()) => {}
        Err(stop) => return Err(stop),
    }
    match log(machine, logs, text, outside) {
        Ok(()) => Ok(end),
        Err(stop) => Err(stop),
    }
}
