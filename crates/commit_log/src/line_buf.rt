//! The buffer of one line, and the parts of lines that are written into it.

ghost use Rattle.std.specs.Prelude.{◌≡◌, ◌+◌, ◌*◌, ◌<◌, ◌≤◌, ◌∷◌, ◌++◌, [], length, nat_lt, if◌then◌else◌};
ghost use Rattle.commit_log.specs.Spelling.{hex_digit, number, word};

use crate::pairs::write_pairs;
use std::marker::Model;

/// A line without its newline, of at most 255 bytes.
///
/// Contracts see it as the list of its bytes.
#[derive(Drop)]
pub struct LineBuf {
    bytes: [u8; 255],
    len: usize,
}

impl Model for LineBuf {
    ghost use Rattle.std.specs.Prelude.{ℕ, ◌≤◌, List, take};

    ghost Value = { List ℕ };

    ghost view = { λ buf. take buf.len buf.bytes };

    ghost invariant = { λ buf. buf.len ≤ 255 };
}

impl LineBuf {
    /// An empty line.
    pub fn new() -> LineBuf
        ensures { result ≡ [] }
    {
        LineBuf {
            bytes: [0; 255],
            len: 0,
        }
    }

    /// The bytes of the line.
    pub fn bytes(&self) -> &[u8]
        ensures value { result.now ≡ self.now }
        ensures short { length result.now ≤ 255 }
    {
        &self.bytes[..self.len]
    }

    /// Leaves an empty line.
    pub fn clear(&mut self)
        ensures { self.new ≡ [] }
    {
        self.len = 0;
    }

    /// Appends a byte; false exactly where 255 bytes stand, and then nothing changes.
    pub fn push(&mut self, b: u8) -> bool
        ensures room { result ≡ nat_lt (length self.old) 255 }
        ensures value { self.new ≡ (if nat_lt (length self.old) 255 then self.old ++ b ∷ [] else self.old) }
    {
        if self.len < 255 {
            self.put(b);
            true
        } else {
            false
        }
    }

    /// Appends a character.
    #[inline(always)]
    pub(crate) fn put(&mut self, c: u8)
        requires { length self.old + 1 ≤ 255 }
        ensures value { self.new ≡ self.old ++ c ∷ [] }
        ensures length { length self.new ≡ length self.old + 1 }
    {
        self.bytes[self.len] = c;
        self.len += 1;
    }

    /// Appends characters.
    #[inline(always)]
    pub(crate) fn put_all(&mut self, chars: &[u8])
        requires { length self.old + length chars.now ≤ 255 }
        ensures value { self.new ≡ self.old ++ chars.now }
        ensures length { length self.new ≡ length self.old + length chars.now }
    {
        let end = self.len + chars.len();
        self.bytes[self.len..end].copy_from_slice(chars);
        self.len = end;
    }

    /// Appends a space and the hexadecimal digits of the `count` lowest bytes of a number.
    #[tactic(auto, unfolding(crate::specs::Spelling::word))]
    #[inline(always)]
    pub(crate) fn put_word(&mut self, count: u8, value: u64)
        requires bytes { count ≤ 8 }
        requires room { length self.old + (2 * count + 1) ≤ 255 }
        ensures value { self.new ≡ self.old ++ word (2 * count) value }
        ensures length { length self.new ≡ length self.old + (2 * count + 1) }
    {
        let start = self.len;
        self.bytes[start] = b' ';
        write_pairs(&mut self.bytes, start + 1, count, value);
        self.len = start + 1 + 2 * usize::from(count);
    }

    /// Appends a decimal number below 100.
    #[tactic(auto, unfolding(crate::specs::Spelling::number))]
    pub(crate) fn put_number(&mut self, n: u8)
        requires small { n < 100 }
        requires room { length self.old + 2 ≤ 255 }
        ensures value { self.new ≡ self.old ++ number n }
        ensures length { length self.new ≤ length self.old + 2 }
    {
        if n >= 10 {
            self.put(b'0' + n / 10);
        }
        self.put(b'0' + n % 10);
    }
}

/// A lower-case hexadecimal digit.
pub fn hex_digit(digit: u64) -> u8
    requires { digit < 16 }
    ensures value { result ≡ hex_digit digit }
    ensures ascii { result < 128 }
{
    if digit < 10 {
        b'0' + digit as u8
    } else {
        b'a' + (digit as u8 - 10)
    }
}
