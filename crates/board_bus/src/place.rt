//! Where the devices stand.
#![tactic(auto, unfolding(crate::specs::Listed::place_of, crate::specs::Listed::is_listed))]

ghost use Rattle.std.specs.Prelude.{◌≡◌, ◌<◌, ◌≤◌, ◌*◌, ◌^◌};
ghost use Rattle.board_bus.specs.Listed.{is_listed, is_listed_in, is_within, place_of};

/// The block in which an address lies; the number is the offset from its first address.
#[derive(Clone, Copy)]
pub(crate) enum Place {
    Clint(u64),
    Plic(u64),
    Console(u64),
    Nowhere,
}

/// The first address and the length of each block.
const CLINT: (u64, u64) = (0x200_0000, 0x1_0000);

const PLIC: (u64, u64) = (0xc00_0000, 0x400_0000);

const CONSOLE: (u64, u64) = (0x1000_0000, 0x1000);

/// Whether an address lies in a block of this first address and length.
fn is_within(base: u64, length: u64, at: u64) -> bool
    requires base { base < 2 ^ 32 }
    requires length { length < 2 ^ 32 }
    ensures { result ≡ is_within base length at }
{
    base <= at && at < base + length
}

/// The block in which a physical address lies.
pub(crate) fn place_of(at: u64) -> Place
    ensures { result ≡ place_of at }
{
    if is_within(CLINT.0, CLINT.1, at) {
        Place::Clint(at - CLINT.0)
    } else if is_within(PLIC.0, PLIC.1, at) {
        Place::Plic(at - PLIC.0)
    } else if is_within(CONSOLE.0, CONSOLE.1, at) {
        Place::Console(at - CONSOLE.0)
    } else {
        Place::Nowhere
    }
}

impl Place {
    /// Whether a device of a board of this many harts has a register of `size` bytes here.
    fn is_listed(self, harts: u8, size: u8) -> bool
        requires { harts ≤ 8 }
        ensures { result ≡ is_listed_in harts size self }
    {
        match self {
            Place::Clint(off) => clint::listed(harts, off, size),
            Place::Plic(off) => plic::listed(2 * harts, off, size),
            Place::Console(off) => console::listed(off, size),
            Place::Nowhere => false,
        }
    }
}

/// Whether a board of this many harts, 1 to 8, has a device register of `size` bytes at the physical
/// address `at`.
pub fn listed(harts: u8, at: u64, size: u8) -> bool
    requires { harts ≤ 8 }
    ensures { result ≡ is_listed harts at size }
{
    place_of(at).is_listed(harts, size)
}
