//! The parts of a line, read from the front of what is left of it. An error is the number of bytes
//! that are left where reading stops.

ghost use Rattle.std.specs.Prelude.{◌≡◌, ◌*◌, ◌^◌, ◌<◌, ◌≤◌, IfOk};
ghost use Rattle.commit_log.specs.Reading.{at_end, digits_of, first_value, Gives, hart_value, hex_value, mode_value, number_of, one, past, place_of, size_value, with_second, word_of};

use crate::values::number_in_front;
use hart_step::Priv;

/// The hart, the mode and the pc of a record.
#[derive(Clone, Copy)]
pub(crate) struct Place {
    pub(crate) hart: u8,
    pub(crate) mode: Priv,
    pub(crate) pc: u64,
}

/// Reads this character.
#[tactic(auto, unfolding(crate::specs::Reading::past))]
pub(crate) fn past(line: &[u8], letter: u8) -> Result<&[u8], usize>
    ensures { Gives (λ rest. rest.now) result (past letter line.now) }
{
    match line {
        [c, rest @ ..] if *c == letter => Ok(rest),
        _ => Err(line.len()),
    }
}

/// Nothing may follow what was read.
#[tactic(auto, unfolding(crate::specs::Reading::at_end))]
pub(crate) fn at_end<A: Copy>(read: A, line: &[u8]) -> Result<A, usize>
    ensures { result ≡ at_end read line.now }
{
    if line.is_empty() {
        Ok(read)
    } else {
        Err(line.len())
    }
}

#[tactic(auto, unfolding(crate::specs::Reading::one))]
pub(crate) fn read_hart(line: &[u8]) -> Result<(u8, &[u8]), usize>
    ensures { Gives (λ x. (x.0, x.1.now)) result (one hart_value line.now) }
{
    match line {
        [c @ b'0'..=b'7', rest @ ..] => Ok((*c - b'0', rest)),
        _ => Err(line.len()),
    }
}

#[tactic(auto, unfolding(crate::specs::Reading::one))]
fn read_mode(line: &[u8]) -> Result<(Priv, &[u8]), usize>
    ensures { Gives (λ x. (x.0, x.1.now)) result (one mode_value line.now) }
{
    match line {
        [b'U', rest @ ..] => Ok((Priv::U, rest)),
        [b'S', rest @ ..] => Ok((Priv::S, rest)),
        [b'M', rest @ ..] => Ok((Priv::M, rest)),
        [b'D', rest @ ..] => Ok((Priv::D, rest)),
        _ => Err(line.len()),
    }
}

/// The number of bytes of a store.
#[tactic(auto, unfolding(crate::specs::Reading::one))]
pub(crate) fn read_size(line: &[u8]) -> Result<(u8, &[u8]), usize>
    ensures value { Gives (λ x. (x.0, x.1.now)) result (one size_value line.now) }
    ensures most { IfOk result (λ x. x.0 ≤ 8) }
{
    match line {
        [b'1', rest @ ..] => Ok((1, rest)),
        [b'2', rest @ ..] => Ok((2, rest)),
        [b'4', rest @ ..] => Ok((4, rest)),
        [b'8', rest @ ..] => Ok((8, rest)),
        _ => Err(line.len()),
    }
}

#[tactic(auto, unfolding(crate::specs::Reading::one))]
fn read_hex_digit(line: &[u8]) -> Result<(u8, &[u8]), usize>
    ensures value { Gives (λ x. (x.0, x.1.now)) result (one hex_value line.now) }
    ensures below { IfOk result (λ x. x.0 < 16) }
{
    match line {
        [c @ b'0'..=b'9', rest @ ..] => Ok((*c - b'0', rest)),
        [c @ b'a'..=b'f', rest @ ..] => Ok((*c - b'a' + 10, rest)),
        _ => Err(line.len()),
    }
}

/// Reads a number of `count` hexadecimal digits, and finds where it ends too soon.
#[cold]
#[inline(never)]
fn read_digits(line: &[u8], count: u8) -> Result<(u64, &[u8]), usize>
    requires { count ≤ 16 }
    ensures value { Gives (λ x. (x.0, x.1.now)) result (digits_of count 0 line.now) }
    ensures below { IfOk result (λ x. x.0 < 2 ^ (4 * count)) }
{
    let mut value: u64 = 0;
    let mut rest = line;
    'digits: for _ in 0..count {
        let (digit, after) = match read_hex_digit(rest) {
            Ok(x) => x,
            Err(left) => return Err(left),
        };
        value = 16 * value + u64::from(digit);
        rest = after;
    }
    Ok((value, rest))
}

/// Reads a space and a number of `count` hexadecimal digits.
#[tactic(auto, unfolding(crate::specs::Reading::word_of))]
#[inline(always)]
pub(crate) fn read_word(line: &[u8], count: u8) -> Result<(u64, &[u8]), usize>
    requires { count ≤ 16 }
    ensures value { Gives (λ x. (x.0, x.1.now)) result (word_of count line.now) }
    ensures below { IfOk result (λ x. x.0 < 2 ^ (4 * count)) }
{
    let rest = past(line, b' ')?;
    if rest.len() >= usize::from(count) {
        if let Some(value) = number_in_front(rest, count) {
            return Ok((value, &rest[usize::from(count)..]));
        }
    }
    read_digits(rest, count)
}

/// The first digit of a decimal number that is at least `low`.
#[tactic(auto, unfolding(crate::specs::Reading::one))]
fn read_first_digit(line: &[u8], low: u8) -> Result<(u8, &[u8]), usize>
    requires { low ≤ 9 }
    ensures value { Gives (λ x. (x.0, x.1.now)) result (one (first_value low) line.now) }
    ensures below { IfOk result (λ x. x.0 < 10) }
{
    match line {
        [c @ b'0'..=b'9', rest @ ..] if *c >= b'0' + low => Ok((*c - b'0', rest)),
        _ => Err(line.len()),
    }
}

/// The number that begins with this digit, and has a second one where it is at most `high` then.
#[tactic(auto, unfolding(crate::specs::Reading::with_second))]
fn with_second(line: &[u8], first: u8, high: u8) -> (u8, &[u8])
    requires { first < 10 }
    ensures { (result.0, result.1.now) ≡ with_second first high line.now }
{
    match line {
        [c @ b'0'..=b'9', rest @ ..] if first > 0 && 10 * first + (*c - b'0') <= high => {
            (10 * first + (*c - b'0'), rest)
        }
        _ => (first, line),
    }
}

/// Reads a decimal number from `low` to `high`, with no leading zero.
#[tactic(auto, unfolding(crate::specs::Reading::number_of))]
pub(crate) fn read_number(line: &[u8], low: u8, high: u8) -> Result<(u8, &[u8]), usize>
    requires { low ≤ 9 }
    ensures { Gives (λ x. (x.0, x.1.now)) result (number_of low high line.now) }
{
    let (first, rest) = read_first_digit(line, low)?;
    Ok(with_second(rest, first, high))
}

/// Reads the hart, the mode and the pc, each after a space.
#[tactic(auto, unfolding(crate::specs::Reading::place_of))]
#[inline(always)]
pub(crate) fn read_place(line: &[u8]) -> Result<(Place, &[u8]), usize>
    ensures { Gives (λ x. (x.0, x.1.now)) result (place_of line.now) }
{
    let rest = past(line, b' ')?;
    let (hart, rest) = read_hart(rest)?;
    let rest = past(rest, b' ')?;
    let (mode, rest) = read_mode(rest)?;
    let (pc, rest) = read_word(rest, 16)?;
    Ok((Place { hart, mode, pc }, rest))
}
