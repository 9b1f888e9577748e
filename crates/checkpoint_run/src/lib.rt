//! A run of a machine that saves a checkpoint on its way, over all that is outside.
//!
//! [`save_run`] makes so many turns; where none of them ends the run, it saves the machine with a boot ROM that
//! restores it, drops the machine's reservations and makes so many turns more. `specs/Saving.antt` defines what
//! such a run does to the outside, and `specs/Laws.antt` what follows from that: the files that it writes restore
//! exactly the machine that goes on, and what a cut leaves of them.
#![tactic(auto)]

mod laws;
mod running;
mod saving;

pub use laws::{
    after_is_whole, early_cuts_are_cuts, logs_change_nothing, more_equal, runs_keep, save_cases,
    save_places, saved_is_restored, unsaved_places,
};
pub use running::{SaveRan, save_run};
pub use saving::SavesOutside;
