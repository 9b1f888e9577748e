//! The words of the command line as a job: where a machine begins, and what is done with it.
//!
//! A command is a row of data: its word, the names that may follow it, and its job by their values.
//! One walk over the pairs of name and value serves all rows. A new command adds a row to the
//! definitions (`rows` of specs/CommandLine.antt), a function here (rows.rt), and its name in
//! `named_job`.
#![tactic(auto)]

mod jobs;
mod laws;
mod rows;
mod values;
mod walk;

pub use jobs::{Begin, Job, Logs, Work};
pub use laws::{finds_given, judges_no_turns, saves_at_the_end};
pub use rows::named_job;
pub use values::MOST_TURNS;
