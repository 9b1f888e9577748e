//! Laws across crates. Each record that a machine leaves in a turn is allowed, after those before it, by a core
//! that covers the machine's, and these records lead that core to one that covers the machine's after the turn.
//! So it is with the records of a run, and a judge that begins with such a core passes the bytes of its trace.
#![tactic(auto)]

ghost use Rattle.trace_law.specs.Passing.{StepsPass, TurnsPass};
ghost use Rattle.trace_law.specs.Runs.{RunsPass, TraceIsEvents};
ghost use Rattle.trace_law.specs.Traces.{EventsSpelled, TracesPass};

/// The events of the steps of a hart are allowed, one after another.
pub fn steps_pass()
    ensures { StepsPass }
{}

/// The events of a turn are allowed, one after another.
pub fn turns_pass()
    ensures { TurnsPass }
{}

/// The events of a run are allowed, one after another.
pub fn runs_pass()
    ensures { RunsPass }
{}

/// The trace of a run holds the lines of its events.
pub fn trace_is_events()
    ensures { TraceIsEvents }
{}

/// Each event of a run of a well-formed machine has a spelling.
pub fn events_are_spelled()
    ensures { EventsSpelled }
{}

/// The trace of a run passes: a judge that begins with a core which covers the machine's finds no fault in
/// its bytes.
pub fn trace_passes()
    ensures { TracesPass }
{}
