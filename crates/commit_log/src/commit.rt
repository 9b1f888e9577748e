//! A commit record: what an instruction wrote, stored and was told, up to the end of the line.

ghost use Rattle.std.specs.Prelude.{◌≡◌};
ghost use Rattle.commit_log.specs.Reading.{answer_of, answer_or_later, commit_of, nothing, register_of, register_or_later, store_of, store_or_later, unless_end, volatile_of};

use crate::parts::{at_end, past, read_number, read_place, read_size, read_word};
use hart_step::{Event, Put};

/// The parts of a commit that may be absent.
#[derive(Clone, Copy)]
pub(crate) struct Shown {
    pub(crate) rd: Option<(u8, u64)>,
    pub(crate) st: Option<Put>,
    pub(crate) dv: Option<u64>,
    pub(crate) vl: Option<u64>,
}

const NOTHING: Shown = Shown {
    rd: None,
    st: None,
    dv: None,
    vl: None,
};

/// Reads what a volatile register read as, up to the end.
#[tactic(auto, unfolding(crate::specs::Reading::volatile_of))]
fn read_volatile(line: &[u8]) -> Result<Shown, usize>
    ensures { result ≡ volatile_of line.now }
{
    let rest = past(line, b'v')?;
    let rest = past(rest, b'l')?;
    let (value, rest) = read_word(rest, 16)?;
    at_end(
        Shown {
            vl: Some(value),
            ..NOTHING
        },
        rest,
    )
}

#[tactic(auto, unfolding(crate::specs::Reading::unless_end))]
fn past_answer(line: &[u8]) -> Result<Shown, usize>
    ensures { result ≡ unless_end nothing volatile_of line.now }
{
    if line.is_empty() {
        return Ok(NOTHING);
    }
    read_volatile(past(line, b' ')?)
}

/// Reads what a device answered, from the second letter on, and the parts after it.
#[tactic(auto, unfolding(crate::specs::Reading::answer_of))]
fn read_answer(line: &[u8]) -> Result<Shown, usize>
    ensures { result ≡ answer_of line.now }
{
    let rest = past(line, b'v')?;
    let (value, rest) = read_word(rest, 16)?;
    let shown = past_answer(rest)?;
    Ok(Shown {
        dv: Some(value),
        ..shown
    })
}

#[tactic(auto, unfolding(crate::specs::Reading::answer_or_later, crate::specs::Reading::choice))]
fn read_answer_or_later(line: &[u8]) -> Result<Shown, usize>
    ensures { result ≡ answer_or_later line.now }
{
    match line {
        [b'd', rest @ ..] => read_answer(rest),
        _ => read_volatile(line),
    }
}

#[tactic(auto, unfolding(crate::specs::Reading::unless_end))]
fn past_store(line: &[u8]) -> Result<Shown, usize>
    ensures { result ≡ unless_end nothing answer_or_later line.now }
{
    if line.is_empty() {
        return Ok(NOTHING);
    }
    read_answer_or_later(past(line, b' ')?)
}

/// Reads a store, from the second letter on, and the parts after it.
#[tactic(auto, unfolding(crate::specs::Reading::store_of))]
fn read_store(line: &[u8]) -> Result<Shown, usize>
    ensures { result ≡ store_of line.now }
{
    let rest = past(line, b't')?;
    let (at, rest) = read_word(rest, 16)?;
    let rest = past(rest, b' ')?;
    let (size, rest) = read_size(rest)?;
    let (value, rest) = read_word(rest, 2 * size)?;
    let shown = past_store(rest)?;
    Ok(Shown {
        st: Some(Put { at, size, value }),
        ..shown
    })
}

#[tactic(auto, unfolding(crate::specs::Reading::store_or_later, crate::specs::Reading::choice))]
fn read_store_or_later(line: &[u8]) -> Result<Shown, usize>
    ensures { result ≡ store_or_later line.now }
{
    match line {
        [b's', rest @ ..] => read_store(rest),
        _ => read_answer_or_later(line),
    }
}

#[tactic(auto, unfolding(crate::specs::Reading::unless_end))]
fn past_register(line: &[u8]) -> Result<Shown, usize>
    ensures { result ≡ unless_end nothing store_or_later line.now }
{
    if line.is_empty() {
        return Ok(NOTHING);
    }
    read_store_or_later(past(line, b' ')?)
}

/// Reads a register and its value, from the number on, and the parts after them.
#[tactic(auto, unfolding(crate::specs::Reading::register_of))]
fn read_register(line: &[u8]) -> Result<Shown, usize>
    ensures { result ≡ register_of line.now }
{
    let (register, rest) = read_number(line, 1, 31)?;
    let (value, rest) = read_word(rest, 16)?;
    let shown = past_register(rest)?;
    Ok(Shown {
        rd: Some((register, value)),
        ..shown
    })
}

#[tactic(auto, unfolding(crate::specs::Reading::register_or_later, crate::specs::Reading::choice))]
fn read_register_or_later(line: &[u8]) -> Result<Shown, usize>
    ensures { result ≡ register_or_later line.now }
{
    match line {
        [b'x', rest @ ..] => read_register(rest),
        _ => read_store_or_later(line),
    }
}

#[tactic(auto, unfolding(crate::specs::Reading::unless_end))]
fn past_instruction(line: &[u8]) -> Result<Shown, usize>
    ensures { result ≡ unless_end nothing register_or_later line.now }
{
    if line.is_empty() {
        return Ok(NOTHING);
    }
    read_register_or_later(past(line, b' ')?)
}

/// Reads a commit record, after its letter.
#[tactic(auto, unfolding(crate::specs::Reading::commit_of))]
pub(crate) fn read_commit(line: &[u8]) -> Result<Event, usize>
    ensures { result ≡ commit_of line.now }
{
    let (place, rest) = read_place(line)?;
    let (insn, rest) = read_word(rest, 8)?;
    let shown = past_instruction(rest)?;
    Ok(Event::Commit {
        hart: place.hart,
        mode: place.mode,
        pc: place.pc,
        insn: insn as u32,
        rd: shown.rd,
        st: shown.st,
        dv: shown.dv,
        vl: shown.vl,
    })
}
