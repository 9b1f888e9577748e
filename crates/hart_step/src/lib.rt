//! One step of a hart: fetch, decode and carry out one instruction of RV64IMAC in machine, supervisor or user
//! mode, or take a trap, over a core of several harts that share one memory. `specs/Step.antt` defines the
//! step, and [`Core::step`] is that step.
#![tactic(auto)]

mod access;
mod answers;
mod arithmetic;
mod atomic;
mod control;
mod cores;
mod done;
mod event;
mod exception;
mod execute;
mod fetch;
mod fit;
mod hart;
mod laws;
mod memory;
mod mode;
mod registers;
mod shows;
mod stepping;
mod system;
mod zicsr;

pub use answers::Answers;
pub use cores::{Core, NoMemory};
pub use event::{Event, Priv, Put};
pub use hart::Hart;
pub use laws::{
    changes_stay_fit, effects_follow, events_show_stores, reset_is_fit, steps_follow,
    steps_stay_fit,
};
