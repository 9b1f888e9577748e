//! Where the registers stand.
#![tactic(auto, unfolding(crate::specs::Layout::register_at))]

ghost use Rattle.std.specs.Prelude.{◌≡◌, IfSome};
ghost use Rattle.console.specs.Layout.{is_listed, register_at, size_of};

/// A register of the console.
#[derive(Clone, Copy)]
pub(crate) enum Register {
    Data,
    Status,
    Ctrl,
    TxAddr,
    TxLen,
}

/// The register of `size` bytes at offset `off`.
pub(crate) fn register_at(off: u64, size: u8) -> Option<Register>
    ensures value { result ≡ register_at off size }
    ensures size { IfSome result (λ register. size_of register ≡ size) }
{
    match (off, size) {
        (0, 1) => Some(Register::Data),
        (4, 4) => Some(Register::Status),
        (8, 4) => Some(Register::Ctrl),
        (0x10, 8) => Some(Register::TxAddr),
        (0x18, 4) => Some(Register::TxLen),
        _ => None,
    }
}

/// Whether the console has a register of `size` bytes at offset `off`.
pub fn listed(off: u64, size: u8) -> bool
    ensures { result ≡ is_listed off size }
{
    register_at(off, size).is_some()
}
