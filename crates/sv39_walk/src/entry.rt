//! A page-table entry and its bits.

ghost use Rattle.std.specs.Prelude.{◌≡◌, ◌∷◌, ◌+◌, ◌*◌, ◌%◌, ◌^◌, ◌<◌, ◌≤◌, ◌&&◌, [], ⊤, codes, IsTrue};
ghost use Rattle.sv39_walk.specs.Slots.{IsOpen};
ghost use Rattle.rv_alu.specs.Bits.{has_bit};
ghost use Rattle.sv39_walk.specs.Entry.{address_in, is_aligned, is_leaf, is_pointer, is_well_formed, page_of, permits, permits_kind, permits_mode, supervisor_may};

use crate::{Ctx, Kind};
use bitflags::{Flag, Flags, bitflag_items};
use rv_alu::{Mode, bits};

/// A page-table entry: the set of its low bits, with the page number and the reserved bits above them
/// (Privileged ISA, "Sv39: Page-Based 39-bit Virtual-Memory System").
#[derive(Clone, Copy)]
pub struct Entry(u64);

bitflag_items! {
    impl Entry: u64 {
        const VALID = 1;
        const READ = 2;
        const WRITE = 4;
        const EXECUTE = 8;
        const USER = 16;
        const GLOBAL = 32;
        const ACCESSED = 64;
        const DIRTY = 128;
    }
}

impl Flags for Entry {
    type Bits = u64;

    ghost exact = { ⊤ };

    ghost table = { (codes "VALID", 1) ∷ (codes "READ", 2) ∷ (codes "WRITE", 4) ∷ (codes "EXECUTE", 8)
        ∷ (codes "USER", 16) ∷ (codes "GLOBAL", 32) ∷ (codes "ACCESSED", 64) ∷ (codes "DIRTY", 128) ∷ [] };

    ghost set_of = { λ entry. entry.0 };

    fn flags<'a>() -> &'a [Flag<Entry>] {
        Entry::FLAGS
    }

    fn bits(&self) -> u64 {
        self.0
    }

    fn from_bits_retain(bits: u64) -> Entry {
        Entry(bits)
    }
}

impl Entry {
    /// The entry that a number of 64 bits is.
    pub fn of(word: u64) -> Entry
        ensures { result.0 ≡ word }
    {
        Entry(word)
    }

    /// Its number.
    pub fn word(self) -> u64
        ensures { result ≡ self.0 }
    {
        self.0
    }

    fn is_valid(self) -> bool
        ensures { result ≡ has_bit self.0 0 }
    {
        self.contains(Entry::VALID)
    }

    #[tactic(auto, using(crate::proofs::Bits::read_bit))]
    fn is_readable(self) -> bool
        ensures { result ≡ has_bit self.0 1 }
    {
        self.contains(Entry::READ)
    }

    #[tactic(auto, using(crate::proofs::Bits::write_bit))]
    fn is_writable(self) -> bool
        ensures { result ≡ has_bit self.0 2 }
    {
        self.contains(Entry::WRITE)
    }

    #[tactic(auto, using(crate::proofs::Bits::execute_bit))]
    fn is_executable(self) -> bool
        ensures { result ≡ has_bit self.0 3 }
    {
        self.contains(Entry::EXECUTE)
    }

    #[tactic(auto, using(crate::proofs::Bits::user_bit))]
    fn is_user(self) -> bool
        ensures { result ≡ has_bit self.0 4 }
    {
        self.contains(Entry::USER)
    }

    #[tactic(auto, using(crate::proofs::Bits::accessed_bit))]
    fn is_accessed(self) -> bool
        ensures { result ≡ has_bit self.0 6 }
    {
        self.contains(Entry::ACCESSED)
    }

    #[tactic(auto, using(crate::proofs::Bits::dirty_bit))]
    fn is_dirty(self) -> bool
        ensures { result ≡ has_bit self.0 7 }
    {
        self.contains(Entry::DIRTY)
    }

    /// V set, no W without R, and the reserved high bits clear.
    fn is_well_formed(self) -> bool
        ensures { result ≡ is_well_formed self.0 }
    {
        self.is_valid() && (self.is_readable() || !self.is_writable()) && bits(self.0, 54, 10) == 0
    }

    /// Whether it points to a table.
    pub fn is_pointer(self) -> bool
        ensures { result ≡ is_pointer self.0 }
    {
        self.is_well_formed()
            && !self.is_readable()
            && !self.is_writable()
            && !self.is_executable()
            && !self.is_accessed()
            && !self.is_dirty()
            && !self.is_user()
    }

    fn is_leaf(self) -> bool
        ensures { result ≡ is_leaf self.0 }
    {
        self.is_well_formed() && (self.is_readable() || self.is_executable())
    }

    fn permits_kind(self, ctx: Ctx, kind: Kind) -> bool
        ensures { result ≡ permits_kind ctx.mxr kind self.0 }
    {
        match kind {
            Kind::Load => self.is_readable() || (ctx.mxr && self.is_executable()),
            Kind::Store => self.is_writable() && self.is_dirty(),
            Kind::Fetch => self.is_executable(),
        }
    }

    fn permits_mode(self, ctx: Ctx, kind: Kind) -> bool
        ensures { result ≡ permits_mode ctx.mode ctx.sum kind self.0 }
    {
        match ctx.mode {
            Mode::U => self.is_user(),
            Mode::S => !self.is_user() || supervisor_may(ctx, kind),
            Mode::M => true,
        }
    }

    /// Whether it is a leaf, at this level, that permits the access.
    pub fn permits(self, ctx: Ctx, kind: Kind, level: u8) -> bool
        requires { level ≤ 2 }
        ensures { result ≡ permits ctx.mode ctx.sum ctx.mxr kind level self.0 }
    {
        self.is_leaf()
            && bits(self.0, 10, 9 * level) == 0
            && self.is_accessed()
            && self.permits_kind(ctx, kind)
            && self.permits_mode(ctx, kind)
    }

    /// Whether it permits the access by its own bits, whatever SUM and MXR say.
    #[inline(always)]
    pub(crate) fn is_open(self, mode: Mode, kind: Kind) -> bool
        ensures { IsTrue result → IsOpen mode kind self.0 }
    {
        let user = match mode {
            Mode::U => self.is_user(),
            Mode::S => !self.is_user(),
            Mode::M => false,
        };
        user && match kind {
            Kind::Fetch => self.is_executable(),
            Kind::Load => self.is_readable(),
            Kind::Store => self.is_dirty() && self.is_writable(),
        }
    }

    /// The physical page number.
    pub fn page(self) -> u64
        ensures page { result ≡ page_of self.0 }
        ensures small { result < 2 ^ 44 }
    {
        bits(self.0, 10, 44)
    }

    /// The address to which it maps `va`, as a leaf at this level.
    pub fn address(self, level: u8, va: u64) -> u64
        requires { level ≤ 2 }
        ensures address { result ≡ address_in level self.0 va }
        ensures place { result % 4096 ≡ va % 4096 }
    {
        self.page() * 4096 + bits(va, 0, 12 + 9 * level)
    }
}

/// Whether supervisor mode may do this to a page of user mode.
fn supervisor_may(ctx: Ctx, kind: Kind) -> bool
    ensures { result ≡ supervisor_may ctx.sum kind }
{
    match kind {
        Kind::Load => ctx.sum,
        Kind::Store => ctx.sum,
        Kind::Fetch => false,
    }
}
