//! A number in hexadecimal digits, read with no choice at a digit.

ghost use Rattle.std.specs.Prelude.{◌≡◌, ◌*◌, ◌^◌, ◌<◌, ◌≤◌, drop, length, IfSome, Ok, Some};
ghost use Rattle.commit_log.specs.Reading.{digits_of, hex_value};

/// Stands for a character that is no digit. Eight digits make a number below it, and a sum of which
/// it is a part is not below it.
const NONE: u64 = 1 << 32;

/// The value of each character as a digit.
static VALUES: [u64; 256] = [
    NONE, NONE, NONE, NONE, NONE, NONE, NONE, NONE, NONE, NONE, NONE, NONE, NONE, NONE, NONE, NONE,
    NONE, NONE, NONE, NONE, NONE, NONE, NONE, NONE, NONE, NONE, NONE, NONE, NONE, NONE, NONE, NONE,
    NONE, NONE, NONE, NONE, NONE, NONE, NONE, NONE, NONE, NONE, NONE, NONE, NONE, NONE, NONE, NONE,
    0, 1, 2, 3, 4, 5, 6, 7, 8, 9, NONE, NONE, NONE, NONE, NONE, NONE, NONE, NONE, NONE, NONE, NONE,
    NONE, NONE, NONE, NONE, NONE, NONE, NONE, NONE, NONE, NONE, NONE, NONE, NONE, NONE, NONE, NONE,
    NONE, NONE, NONE, NONE, NONE, NONE, NONE, NONE, NONE, NONE, NONE, NONE, 10, 11, 12, 13, 14, 15,
    NONE, NONE, NONE, NONE, NONE, NONE, NONE, NONE, NONE, NONE, NONE, NONE, NONE, NONE, NONE, NONE,
    NONE, NONE, NONE, NONE, NONE, NONE, NONE, NONE, NONE, NONE, NONE, NONE, NONE, NONE, NONE, NONE,
    NONE, NONE, NONE, NONE, NONE, NONE, NONE, NONE, NONE, NONE, NONE, NONE, NONE, NONE, NONE, NONE,
    NONE, NONE, NONE, NONE, NONE, NONE, NONE, NONE, NONE, NONE, NONE, NONE, NONE, NONE, NONE, NONE,
    NONE, NONE, NONE, NONE, NONE, NONE, NONE, NONE, NONE, NONE, NONE, NONE, NONE, NONE, NONE, NONE,
    NONE, NONE, NONE, NONE, NONE, NONE, NONE, NONE, NONE, NONE, NONE, NONE, NONE, NONE, NONE, NONE,
    NONE, NONE, NONE, NONE, NONE, NONE, NONE, NONE, NONE, NONE, NONE, NONE, NONE, NONE, NONE, NONE,
    NONE, NONE, NONE, NONE, NONE, NONE, NONE, NONE, NONE, NONE, NONE, NONE, NONE, NONE, NONE, NONE,
    NONE, NONE, NONE, NONE, NONE, NONE, NONE, NONE, NONE, NONE, NONE, NONE, NONE, NONE, NONE, NONE,
    NONE, NONE, NONE, NONE, NONE, NONE, NONE, NONE, NONE,
];

/// The value of a digit, which is below `NONE`, and `NONE` for another character.
#[inline(always)]
fn value_of(c: u8) -> u64
    ensures value { result < 2 ^ 32 → hex_value c ≡ Some result }
    ensures most { result ≤ 2 ^ 32 }
{
    VALUES[usize::from(c)]
}

/// The number in the first `count` characters, where all are digits. `None` says nothing of them.
#[inline(always)]
fn short_in_front(line: &[u8], count: u8) -> Option<u64>
    requires { (count ≤ 8) × (count ≤ length line.now) }
    ensures value { IfSome result (λ value. digits_of count 0 line.now ≡ Ok (value, drop count line.now)) }
    ensures below { IfSome result (λ value. value < 2 ^ (4 * count)) }
{
    let mut value: u64 = 0;
    for i in 0..usize::from(count) {
        value = 16 * value + value_of(line[i]);
    }
    if value < NONE { Some(value) } else { None }
}

/// The number in the first `count` characters, where all are digits. `None` says nothing of them.
#[inline(always)]
pub(crate) fn number_in_front(line: &[u8], count: u8) -> Option<u64>
    requires { (count ≤ 16) × (count ≤ length line.now) }
    ensures value { IfSome result (λ value. digits_of count 0 line.now ≡ Ok (value, drop count line.now)) }
    ensures below { IfSome result (λ value. value < 2 ^ (4 * count)) }
{
    if count <= 8 {
        return short_in_front(line, count);
    }
    let high = short_in_front(line, 8)?;
    let low = short_in_front(&line[8..], count - 8)?;
    Some((high << (4 * (count - 8))) + low)
}
