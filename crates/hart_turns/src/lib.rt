//! The whole machine, turn by turn: the harts, their memory and their devices. `specs/Turn.antt` defines
//! a turn, and [`Machine::turn`] is that turn, [`Machine::turn_unseen`] the same without its events;
//! `specs/Boot.antt` defines how a machine executes a boot ROM, and [`Machine::boot`] is that boot.
#![tactic(auto)]

mod booting;
mod events;
mod laws;
mod machine;
mod registers;
mod stepping;
mod surroundings;
#[cfg(test)]
mod tests;

pub use booting::BootFault;
pub use laws::{
    board_is_allowed, board_steps_stay_fit, boots_are_lowest, boots_end_debug, machines_stay_fit,
};
pub use machine::{Machine, NoMemory, TurnEnd};
