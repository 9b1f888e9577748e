//! The two hexadecimal digits of a byte.

ghost use Rattle.std.specs.Prelude.{◌≡◌, ◌+◌, ◌*◌, ◌/◌, ◌%◌, ◌<◌, ◌≤◌, ◌∷◌, ◌++◌, [], length, take};
ghost use Rattle.commit_log.specs.Spelling.{hex, hex_digit};

/// The digits of a byte `b` stand at `2 * b`.
static PAIRS: [u8; 512] = *b"\
    000102030405060708090a0b0c0d0e0f\
    101112131415161718191a1b1c1d1e1f\
    202122232425262728292a2b2c2d2e2f\
    303132333435363738393a3b3c3d3e3f\
    404142434445464748494a4b4c4d4e4f\
    505152535455565758595a5b5c5d5e5f\
    606162636465666768696a6b6c6d6e6f\
    707172737475767778797a7b7c7d7e7f\
    808182838485868788898a8b8c8d8e8f\
    909192939495969798999a9b9c9d9e9f\
    a0a1a2a3a4a5a6a7a8a9aaabacadaeaf\
    b0b1b2b3b4b5b6b7b8b9babbbcbdbebf\
    c0c1c2c3c4c5c6c7c8c9cacbcccdcecf\
    d0d1d2d3d4d5d6d7d8d9dadbdcdddedf\
    e0e1e2e3e4e5e6e7e8e9eaebecedeeef\
    f0f1f2f3f4f5f6f7f8f9fafbfcfdfeff";

/// Writes the two digits of a byte after the first `at` bytes.
#[inline(always)]
fn write_pair(byte: u64, bytes: &mut [u8], at: usize)
    requires { (byte < 256) × (at + 2 ≤ length bytes.old) }
    ensures written { take (at + 2) bytes.new ≡ take at bytes.old ++ hex_digit (byte / 16) ∷ hex_digit (byte % 16) ∷ [] }
    ensures length { length bytes.new ≡ length bytes.old }
{
    let from = byte as usize * 2;
    bytes[at] = PAIRS[from];
    bytes[at + 1] = PAIRS[from + 1];
}

/// Writes the digits of the `count` lowest bytes of a number after the first `start` bytes.
#[inline(always)]
pub(crate) fn write_pairs(bytes: &mut [u8], start: usize, count: u8, value: u64)
    requires { (count ≤ 8) × (start + 2 * count ≤ length bytes.old) }
    ensures written { take (start + 2 * count) bytes.new ≡ take start bytes.old ++ hex (2 * count) value }
    ensures length { length bytes.new ≡ length bytes.old }
{
    let mut at = start;
    for place in (0..count).rev() {
        write_pair((value >> (8 * place)) % 256, bytes, at);
        at += 2;
    }
}
