//! Jobs: where a machine begins, and what is done with it.

ghost use Rattle.std.specs.Prelude.{◌≡◌};
ghost use Rattle.std.specs.Option.{option_copied};

use std::marker::Model;

/// Where a machine begins, by the name of a file or of a checkpoint, or by a seed.
#[derive(Clone, Copy, PartialEq, Eq, Debug)]
pub enum Begin<'a> {
    /// At a configuration and its program.
    Config(&'a str),
    /// At a flat image.
    Image(&'a str),
    /// At the machine and program that a seed stands for.
    Seed(u64),
    /// At a checkpoint, whose boot ROM is executed.
    Checkpoint(&'a str),
}

/// The files that a run logs to.
///
/// Contracts see them as the definitions' `Logs`: the names alone.
#[derive(Debug, Drop)]
pub struct Logs<'a> {
    trace: Option<&'a str>,
}

impl<'a> Model for Logs<'a> {
    ghost use Rattle.std.specs.Option.{option_copied};
    ghost use Rattle.job_words.specs.Job.{Logs as LogNames};

    ghost Value = { LogNames };

    ghost view = { λ a. record { trace = option_copied a.trace } };
}

impl<'a> Logs<'a> {
    /// The trace goes to the file of this name, if one is given.
    pub fn new(trace: Option<&'a str>) -> Logs<'a>
        ensures { result.trace ≡ option_copied trace.entry }
    {
        Logs { trace }
    }

    /// The name of the trace's file.
    pub fn trace(&self) -> Option<&'a str>
        ensures { option_copied result ≡ self.now.trace }
    {
        self.trace
    }
}

/// What is done with the machine.
#[derive(Debug, Drop)]
pub enum Work<'a> {
    /// It makes so many turns.
    Turns {
        /// How many turns.
        turns: u64,
        /// The files that the turns are logged to.
        logs: Logs<'a>,
    },
    /// It makes so many turns, is saved as a checkpoint, and goes on.
    Save {
        /// How many turns come before the save.
        turns: u64,
        /// The checkpoint's name.
        name: &'a str,
        /// How many turns follow the save.
        more: u64,
    },
    /// The input is judged as the commit stream of another core.
    Judge,
}

/// What the program is asked to do.
#[derive(Debug, Drop)]
pub struct Job<'a> {
    /// Where the machine begins.
    pub begin: Begin<'a>,
    /// What is done with it.
    pub work: Work<'a>,
}
