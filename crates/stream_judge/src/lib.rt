//! The judge of a commit stream that comes as the input of a job: the stream is read in pieces and judged as it
//! comes, until a verdict other than `Passing` is found, or to its end.
//!
//! `specs/Judging.antt` says which verdict that is, and how far the stream was read.
#![tactic(auto)]

mod judging;

pub use judging::{MOST_RECORDS, judge_input};
