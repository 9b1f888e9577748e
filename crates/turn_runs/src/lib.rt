//! A run of a machine over all that is outside: turn after turn, each is offered the next byte of the input, its
//! console bytes are sent, and its events are logged.
//!
//! `specs/Run.antt` defines what a run does to the outside as a list of acts. [`run`] did all of them, or, where it
//! stopped, a front of them; [`cut_in_turn`] says that this is k whole turns and a part of the next one, and
//! [`input_cuts_are_least`] which k it is where the input failed.
#![tactic(auto)]

mod feed;
mod laws;
mod resuming;
mod running;
mod turns;

pub use feed::Feed;
pub use laws::{cut_in_turn, input_cuts_are_least, windowless_runs_go_on};
pub use resuming::resume;
pub use running::{Ran, has_ended, run};
