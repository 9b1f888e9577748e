//! The event of a line.

ghost use Rattle.std.specs.Prelude.{◌≡◌, ◌^◌, ◌<◌, length, IfErr, IfOk};
ghost use Rattle.hart_step.specs.declared.event.Event.{Event as Record};
ghost use Rattle.commit_log.specs.Column.{IsColumn};
ghost use Rattle.commit_log.specs.Reading.{event_of, exception_of, host_of, interrupt_of};
ghost use Rattle.commit_log.specs.Spelling.{IsSpellable, line as line_of};

use crate::commit::read_commit;
use crate::parts::{at_end, past, read_hart, read_number, read_place, read_word};
use hart_step::Event;

/// A line that is no spelling: `column` is the length in bytes of its longest front that is the
/// front of some spelling.
#[derive(Clone, Copy, PartialEq, Eq, Debug)]
pub struct LineFault {
    pub column: u16,
}

/// Reads an exception, after its letter.
#[tactic(auto, unfolding(crate::specs::Reading::exception_of))]
fn read_exception(line: &[u8]) -> Result<Event, usize>
    ensures { result ≡ exception_of line.now }
{
    let (place, rest) = read_place(line)?;
    let rest = past(rest, b' ')?;
    let (cause, rest) = read_number(rest, 0, 15)?;
    let (tval, rest) = read_word(rest, 16)?;
    let event = Event::Exception {
        hart: place.hart,
        mode: place.mode,
        pc: place.pc,
        cause,
        tval,
    };
    at_end(event, rest)
}

/// Reads an interrupt, after its letter.
#[tactic(auto, unfolding(crate::specs::Reading::interrupt_of))]
fn read_interrupt(line: &[u8]) -> Result<Event, usize>
    ensures { result ≡ interrupt_of line.now }
{
    let rest = past(line, b' ')?;
    let (hart, rest) = read_hart(rest)?;
    let rest = past(rest, b' ')?;
    let (cause, rest) = read_number(rest, 0, 15)?;
    at_end(Event::Interrupt { hart, cause }, rest)
}

/// Reads a record of the host, with its letter.
#[tactic(auto, unfolding(crate::specs::Reading::host_of))]
fn read_host(line: &[u8]) -> Result<Event, usize>
    ensures { result ≡ host_of line.now }
{
    let rest = past(line, b'H')?;
    let (word, rest) = read_word(rest, 16)?;
    at_end(Event::Host { word }, rest)
}

#[tactic(auto, unfolding(crate::specs::Reading::event_of, crate::specs::Reading::choice))]
fn read_event(line: &[u8]) -> Result<Event, usize>
    ensures { result ≡ event_of line.now }
{
    match line {
        [b'C', rest @ ..] => read_commit(rest),
        [b'X', rest @ ..] => read_exception(rest),
        [b'I', rest @ ..] => read_interrupt(rest),
        _ => read_host(line),
    }
}

/// Reads the line of a record, without its newline.
///
/// # Errors
///
/// `LineFault` exactly where the line is the line of no event, with the column where it stops to be
/// the front of one.
pub fn read(line: &[u8]) -> Result<Event, LineFault>
    requires { length line.now < 2 ^ 16 }
    // What is read is spelled so.
    ensures found { IfOk result (λ e. IsSpellable e × (line.now ≡ line_of e)) }
    // What is spelled so is read.
    ensures only { (e : Record) → IsSpellable e → line.now ≡ line_of e → result ≡ Ok e }
    ensures column { IfErr result (λ fault. IsColumn line.now fault.column) }
{
    match read_event(line) {
        Ok(event) => Ok(event),
        Err(left) => Err(LineFault {
            column: (line.len() - left) as u16,
        }),
    }
}
