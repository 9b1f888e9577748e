//! The slots in which a walker remembers translations, and its marks of pages.

ghost use Rattle.std.specs.Prelude.{◌≡◌, ◌↔◌, All, IsTrue, length, replicate};
ghost use Rattle.sv39_walk.specs.Slots.{Holds};
ghost use Rattle.sv39_walk.specs.Walk.{root_of};

use crate::walk::Found;
use rv_alu::bits;

/// How many translations are remembered.
pub(crate) const SLOTS: usize = 64;

/// How many pages RAM has at the most.
pub(crate) const PAGES: usize = 65536;

/// A translation that is remembered: `satp`, which is 0 in a free slot, the page number, the physical
/// address of the page, and where the walk ended.
#[derive(Clone, Copy)]
pub(crate) struct Slot {
    pub(crate) satp: u64,
    pub(crate) page: u64,
    pub(crate) base: u64,
    pub(crate) found: Found,
}

impl Slot {
    /// Whether it holds the translation of a page by the root table of `satp`, whose other fields do not
    /// count.
    #[inline(always)]
    pub(crate) fn holds(&self, satp: u64, page: u64) -> bool
        ensures { IsTrue result ↔ Holds self.now (root_of satp) page }
    {
        self.satp != 0 && self.page == page && bits(self.satp, 0, 44) == bits(satp, 0, 44)
    }
}

/// A slot that is free.
fn free_slot() -> Slot
    ensures { result.satp ≡ 0 }
{
    Slot {
        satp: 0,
        page: 0,
        base: 0,
        found: Found {
            leaf: 0,
            first: 0,
            second: 0,
            third: 0,
            count: 0,
        },
    }
}

/// Slots that are all the same.
fn same_slots(slot: Slot) -> [Slot; SLOTS]
    ensures { result ≡ replicate 64 slot }
{
    [slot; SLOTS]
}

/// Slots that are free.
#[tactic(auto, using(crate::proofs::Known::all_free))]
pub(crate) fn free_slots() -> [Slot; SLOTS]
    ensures free { All (λ s. s.satp ≡ 0) result }
    ensures length { length result ≡ 64 }
{
    same_slots(free_slot())
}

/// No page is marked.
pub(crate) fn no_marks() -> [bool; PAGES]
    ensures { length result ≡ 65536 }
{
    [false; PAGES]
}
