//! Where the registers stand.
#![tactic(auto, unfolding(crate::specs::Layout::word_at))]

ghost use Rattle.std.specs.Prelude.{◌≡◌, IfSome, OnSome};
ghost use Rattle.plic.specs.Layout.{IsOfContext, is_listed, register_at, word_at};

use device_rows::row_at;

/// A register of the controller; the number is that of a source or of a context.
#[derive(Clone, Copy)]
pub(crate) enum Register {
    Priority(u8),
    Pending,
    Enable(u8),
    Threshold(u8),
    Claim(u8),
}

/// The register at offset `off` of a controller for this many contexts.
fn word_at(contexts: u8, off: u64) -> Option<Register>
    ensures value { result ≡ word_at contexts off }
    ensures inside { IfSome result (IsOfContext contexts) }
{
    if off < 0x1000 {
        Some(Register::Priority(row_at(4, 4, 2, off)? + 1))
    } else if off == 0x1000 {
        Some(Register::Pending)
    } else if off < 0x20_0000 {
        Some(Register::Enable(row_at(0x2000, 0x80, contexts, off)?))
    } else if off % 0x1000 == 4 {
        Some(Register::Claim(row_at(0x20_0004, 0x1000, contexts, off)?))
    } else {
        Some(Register::Threshold(row_at(0x20_0000, 0x1000, contexts, off)?))
    }
}

/// The register of `size` bytes at that offset.
pub(crate) fn register_at(contexts: u8, off: u64, size: u8) -> Option<Register>
    ensures value { result ≡ register_at contexts off size }
    ensures inside { IfSome result (IsOfContext contexts) }
    ensures size { OnSome result (size ≡ 4) }
{
    if size == 4 {
        word_at(contexts, off)
    } else {
        None
    }
}

/// Whether a controller for this many contexts, two for each hart, has a register of `size` bytes at
/// offset `off`.
pub fn listed(contexts: u8, off: u64, size: u8) -> bool
    ensures { result ≡ is_listed contexts off size }
{
    register_at(contexts, off, size).is_some()
}
