//! The values of the pairs: numbers and file names.

ghost use Rattle.std.specs.Prelude.{◌≡◌, ◌<◌, ◌==◌, ◌&&◌, IfSome, ◌≤◌, length, nat_lt, slice_index};
ghost use Rattle.std.specs.Char.{is_ascii_digit};
ghost use Rattle.std.specs.List.{list_all};
ghost use Rattle.std.specs.Option.{option_copied};
ghost use Rattle.job_words.specs.CommandLine.{is_number, name_in, number_in};

/// The most turns that one call may make.
pub const MOST_TURNS: u64 = 1_000_000_000;

/// The greatest seed.
pub(crate) const MOST_SEED: u64 = u64::MAX;

/// Whether each byte is a decimal digit.
fn all_digits(bytes: &[u8]) -> bool
    ensures { result ≡ list_all is_ascii_digit bytes.now }
{
    bytes.iter().all(|digit| digit.is_ascii_digit())
}

/// Whether a zero stands before other bytes.
fn has_leading_zero(bytes: &[u8]) -> bool
    requires { 0 < length bytes.now }
    ensures { result ≡ (slice_index bytes.now 0 == 48 && nat_lt 1 (length bytes.now)) }
{
    bytes[0] == b'0' && bytes.len() > 1
}

/// Whether a text is decimal digits without a sign and without a leading zero.
fn is_number(text: &str) -> bool
    ensures { result ≡ is_number text.now }
{
    let bytes = text.as_bytes();
    if bytes.is_empty() {
        return false;
    }
    if has_leading_zero(bytes) {
        return false;
    }
    all_digits(bytes)
}

/// The number that a text spells, where it is at most `most`.
#[tactic(auto, unfolding(crate::specs::CommandLine::number_in))]
pub(crate) fn number(text: &str, most: u64) -> Option<u64>
    ensures value { result ≡ number_in most text.now }
    ensures within { IfSome result (λ n. n ≤ most) }
{
    if !is_number(text) {
        return None;
    }
    let Ok(value) = text.parse::<u64>() else {
        return None;
    };
    if value <= most { Some(value) } else { None }
}

/// The text, where it may be a file name: none where it is empty.
pub(crate) fn file_name(text: &str) -> Option<&str>
    ensures { option_copied result ≡ name_in text.now }
{
    if text.is_empty() { None } else { Some(text) }
}
