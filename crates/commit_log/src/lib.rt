//! The lines of a commit log: each event of the machine has one line, which is written and read
//! here. `specs/Spelling.antt` defines the line of an event. Nothing here takes memory.
#![tactic(auto)]

ghost use Rattle.std.specs.Prelude.{◌≡◌, ◌≢◌, ◌≤◌, length};
ghost use Rattle.std.specs.List.{All};
ghost use Rattle.hart_step.specs.declared.event.Event.{Event};
ghost use Rattle.hart_step.specs.Events.{IsEvent};
ghost use Rattle.commit_log.specs.Spelling.{IsSpellable, line};

mod commit;
mod line_buf;
mod pairs;
mod parts;
mod reader;
#[cfg(test)]
mod tests;
mod values;
mod writer;

pub use line_buf::{LineBuf, hex_digit};
pub use reader::{LineFault, read};
pub use writer::write;

/// A law of lines: no two events have the same line, and a line has no newline (code 10) and at most
/// 131 bytes.
pub fn one_spelling()
    ensures one { (a b : Event) → IsSpellable a → IsSpellable b → line a ≡ line b → a ≡ b }
    ensures clean { (e : Event) → IsEvent e → All (λ c. c ≢ 10) (line e) }
    ensures short { (e : Event) → IsEvent e → length (line e) ≤ 131 }
{}
