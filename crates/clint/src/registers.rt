//! Where the registers stand.
#![tactic(auto, unfolding(crate::specs::Layout::register_at))]

ghost use Rattle.std.specs.Prelude.{◌≡◌, IfSome};
ghost use Rattle.clint.specs.Layout.{IsOfHart, is_listed, register_at, size_of};

use device_rows::row_at;

/// A register of the block; the number is that of a hart.
#[derive(Clone, Copy)]
pub(crate) enum Register {
    Msip(u8),
    Mtimecmp(u8),
    Mtime,
}

/// The register of `size` bytes at offset `off` of a block for this many harts.
pub(crate) fn register_at(harts: u8, off: u64, size: u8) -> Option<Register>
    ensures value { result ≡ register_at harts off size }
    ensures inside { IfSome result (IsOfHart harts) }
    ensures size { IfSome result (λ register. size_of register ≡ size) }
{
    match size {
        4 => Some(Register::Msip(row_at(0, 4, harts, off)?)),
        8 if off == 0xbff8 => Some(Register::Mtime),
        8 => Some(Register::Mtimecmp(row_at(0x4000, 8, harts, off)?)),
        _ => None,
    }
}

/// Whether a block for this many harts has a register of `size` bytes at offset `off`.
pub fn listed(harts: u8, off: u64, size: u8) -> bool
    ensures { result ≡ is_listed harts off size }
{
    register_at(harts, off, size).is_some()
}
