//! The walker, and what it remembers.

ghost use Rattle.std.specs.Prelude.{◌≡◌, ◌+◌, ◌-◌, ◌/◌, ◌%◌, ◌^◌, ◌≤◌, ◌<◌, ◌↔◌, ℕ, Bool, List, [], Err, IfOk, IfSome, IsFalse, IsTrue};
ghost use Rattle.rv_alu.specs.declared.Mode.{Mode as ModeOf};
ghost use Rattle.sv39_walk.specs.declared.Kind.{Kind as KindOf};
ghost use Rattle.sv39_walk.specs.declared.WalkFault.{WalkFault as Fault};
ghost use Rattle.sv39_walk.specs.Found.{known_by};
ghost use Rattle.sv39_walk.specs.Plain.{arrived, translated, walked};
ghost use Rattle.sv39_walk.specs.Remembered.{Agrees, DiffersOnlyIn, IsPartOf, IsRemembered, IsUntouched, IsWalked};
ghost use Rattle.sv39_walk.specs.Slots.{HasNoneNear, IsPlace, LeadsTo};
ghost use Rattle.sv39_walk.specs.Walk.{Faults, Maps, is_bare, is_canonical, is_untranslated, root_of};

use crate::entry::Entry;
use crate::slots::{PAGES, SLOTS, Slot, free_slots, no_marks};
use crate::walk::{Found, arrive, is_canonical, is_untranslated, walk};
use crate::{Ctx, Kind, WalkFault};
use guest_ram::PageTable;
use rv_alu::Mode;
use std::alloc::{AllocError, Global};
use std::marker::Model;

/// The allocator has no room for what the walker remembers.
pub type NoMemory = AllocError;

/// A walker of page tables.
///
/// Contracts see it as the list of the translations that it remembers.
#[derive(Drop)]
pub struct Walker {
    slots: [Slot; SLOTS],
    // for each page of RAM, whether an entry of a translation in the slots was read there
    tables: [bool; PAGES],
}

impl Model for Walker {
    ghost use Rattle.std.specs.Prelude.{◌≡◌, List, length};
    ghost use Rattle.sv39_walk.specs.Remembered.{Remembered};
    ghost use Rattle.sv39_walk.specs.Slots.{AreKept, known_in};

    ghost Value = { List Remembered };

    ghost view = { λ w. known_in w.slots };

    ghost invariant = { λ w. (length w.tables ≡ 65536) × (length w.slots ≡ 64)
        × AreKept w.tables w.slots };
}

impl Walker {
    /// A walker that remembers nothing.
    #[tactic(auto, using(crate::proofs::Known::none_known))]
    fn empty() -> Walker
        ensures { result ≡ [] }
    {
        Walker {
            slots: free_slots(),
            tables: no_marks(),
        }
    }

    /// A walker that remembers nothing.
    pub fn new(alloc: Global) -> Result<Walker, NoMemory>
        ensures empty { IfOk result (λ walker. walker ≡ []) }
        ensures agrees { IfOk result (λ walker. (ram : List ℕ) → Agrees walker ram) }
    {
        let _ = alloc;
        Ok(Walker::empty())
    }

    /// The physical address of an access to `va`, by the page tables in memory as they are now
    /// (Privileged ISA, "Virtual Address Translation Process").
    ///
    /// At most 3 entries are read, and none where the translation is remembered. Memory stays as it is.
    /// Answers the fault where `va` is mapped nowhere, or not for this access.
    pub fn translate(
        &mut self,
        table: &mut PageTable<'_>,
        ctx: Ctx,
        va: u64,
        kind: Kind,
    ) -> Result<u64, WalkFault>
        requires room { table.old.reads ≤ 252 }
        requires agreed { Agrees self.old table.old.ram }
        ensures mapped { (pa : ℕ) → (result ≡ Ok pa)
            ↔ Maps table.old.ram ctx.satp ctx.mode ctx.sum ctx.mxr kind va pa }
        ensures faulted { (fault : Fault) → (result ≡ Err fault)
            ↔ Faults table.old.ram ctx.satp ctx.mode ctx.sum ctx.mxr kind va fault }
        ensures reckoned { result
            ≡ translated table.old.ram ctx.satp ctx.mode ctx.sum ctx.mxr kind va }
        // an access goes to the same place in its page
        ensures place { IfOk result (λ pa. pa % 4096 ≡ va % 4096) }
        ensures memory { table.new.ram ≡ table.old.ram }
        ensures counted { table.old.reads ≤ table.new.reads }
        ensures few { table.new.reads ≤ table.old.reads + 3 }
        ensures agrees { Agrees self.new table.new.ram }
        // what was answered by the page tables is remembered
        ensures remembered { IsFalse (is_untranslated ctx.satp ctx.mode)
            → IfOk result (λ pa. IsRemembered self.new (root_of ctx.satp) (va / 4096)) }
        // what is remembered is not read again
        ensures unread { IsRemembered self.old (root_of ctx.satp) (va / 4096)
            → table.new.reads ≡ table.old.reads }
    {
        self.answer(table, ctx, va, kind)
    }

    /// The same, by what is remembered or by the page tables.
    #[tactic(auto, unfolding(crate::specs::Plain::translated))]
    #[inline(always)]
    fn answer(
        &mut self,
        table: &mut PageTable<'_>,
        ctx: Ctx,
        va: u64,
        kind: Kind,
    ) -> Result<u64, WalkFault>
        requires room { table.old.reads ≤ 252 }
        requires agreed { Agrees self.old table.old.ram }
        ensures reckoned { result
            ≡ translated table.old.ram ctx.satp ctx.mode ctx.sum ctx.mxr kind va }
        ensures place { IfOk result (λ pa. pa % 4096 ≡ va % 4096) }
        ensures memory { table.new.ram ≡ table.old.ram }
        ensures counted { table.old.reads ≤ table.new.reads }
        ensures few { table.new.reads ≤ table.old.reads + 3 }
        ensures agrees { Agrees self.new table.new.ram }
        ensures remembered { IsFalse (is_untranslated ctx.satp ctx.mode)
            → IfOk result (λ pa. IsRemembered self.new (root_of ctx.satp) (va / 4096)) }
        ensures unread { IsRemembered self.old (root_of ctx.satp) (va / 4096)
            → table.new.reads ≡ table.old.reads }
    {
        if is_untranslated(ctx) {
            return Ok(va);
        }
        if !is_canonical(va) {
            return Err(WalkFault::Page);
        }
        if self.remembers(ctx.satp, va) {
            let found = self.recalled(ctx.satp, va);
            return arrive(Entry::of(found.leaf), ctx, va, kind, 3 - found.count);
        }
        self.translate_anew(table, ctx, va, kind)
    }

    /// Whether a translation is remembered for the root table of `satp` and the page of `va`. The other
    /// fields of `satp` do not count.
    #[inline(always)]
    pub fn remembers(&self, satp: u64, va: u64) -> bool
        ensures { IsTrue result ↔ IsRemembered self.now (root_of satp) (va / 4096) }
    {
        let page = va >> 12;
        self.slots[page as usize % SLOTS].holds(satp, page)
    }

    /// Where the walk of a remembered translation ended.
    #[inline(always)]
    fn recalled(&self, satp: u64, va: u64) -> Found
        requires remembered { IsRemembered self.now (root_of satp) (va / 4096) }
        ensures count { (1 ≤ result.count) × (result.count ≤ 3) }
        ensures walked { (ram : List ℕ) → Agrees self.now ram
            → (mode : ModeOf) (sum mxr : Bool) (kind : KindOf)
            → walked ram mode sum mxr kind va 3 (root_of satp)
            ≡ arrived mode sum mxr kind va (3 - result.count) result.leaf }
    {
        self.slots[(va >> 12) as usize % SLOTS].found
    }

    /// Walks the page tables, and remembers a walk that arrives.
    #[inline(never)]
    fn translate_anew(
        &mut self,
        table: &mut PageTable<'_>,
        ctx: Ctx,
        va: u64,
        kind: Kind,
    ) -> Result<u64, WalkFault>
        requires room { table.old.reads ≤ 252 }
        requires agreed { Agrees self.old table.old.ram }
        requires translated { IsFalse (is_bare ctx.satp) }
        requires canonical { IsTrue (is_canonical va) }
        ensures reckoned { result
            ≡ walked table.old.ram ctx.mode ctx.sum ctx.mxr kind va 3 (root_of ctx.satp) }
        ensures place { IfOk result (λ pa. pa % 4096 ≡ va % 4096) }
        ensures memory { table.new.ram ≡ table.old.ram }
        ensures counted { table.old.reads ≤ table.new.reads }
        ensures few { table.new.reads ≤ table.old.reads + 3 }
        ensures agrees { Agrees self.new table.new.ram }
        ensures remembered { IfOk result (λ pa. IsRemembered self.new (root_of ctx.satp) (va / 4096)) }
    {
        let found = match walk(table, ctx.satp, va) {
            Ok(found) => found,
            Err(fault) => return Err(fault),
        };
        let entry = Entry::of(found.leaf);
        let level = 3 - found.count;
        if !entry.permits(ctx, kind, level) {
            return Err(WalkFault::Page);
        }
        let pa = entry.address(level, va);
        self.remember(ctx.satp, va, pa, found);
        Ok(pa)
    }

    /// Remembers a walk for `va` that arrived at `pa`, and marks the pages of its entries.
    fn remember(&mut self, satp: u64, va: u64, pa: u64, found: Found)
        requires count { (1 ≤ found.count) × (found.count ≤ 3) }
        requires aligned { (found.first % 8 ≡ 0) × (found.second % 8 ≡ 0) × (found.third % 8 ≡ 0) }
        requires leads { IsPlace satp va pa found.leaf (3 - found.count) }
        ensures agrees { (ram : List ℕ) → Agrees self.old ram
            → IsWalked ram (known_by satp (va / 4096) found) → Agrees self.new ram }
        ensures remembered { IsRemembered self.new (root_of satp) (va / 4096) }
    {
        let page = va >> 12;
        self.tables[(found.first >> 12) as usize % PAGES] = true;
        self.tables[(found.second >> 12) as usize % PAGES] = true;
        self.tables[(found.third >> 12) as usize % PAGES] = true;
        self.slots[page as usize % SLOTS] = Slot {
            satp,
            page,
            base: pa - pa % 4096,
            found,
        };
    }

    /// The physical address of the page of `va`, where its translation is remembered for this `satp` and
    /// permits the access whatever SUM and MXR say. It is that of every address in the page.
    #[inline(always)]
    pub fn page_base(&self, satp: u64, mode: Mode, kind: Kind, va: u64) -> Option<u64>
        ensures leads { (ram : List ℕ) → Agrees self.now ram
            → IfSome result (λ base. LeadsTo ram satp mode kind va base) }
        ensures page { IfSome result (λ base. (base % 4096 ≡ 0) × (base < 2 ^ 63)) }
    {
        let page = va >> 12;
        let slot = self.slots[page as usize % SLOTS];
        if slot.satp == satp
            && slot.page == page
            && slot.satp != 0
            && Entry::of(slot.found.leaf).is_open(mode, kind)
        {
            Some(slot.base)
        } else {
            None
        }
    }

    /// Tells the walker of a store to the `n` bytes from `at`.
    ///
    /// It forgets all that it remembers where it has read an entry in the page of these bytes, and
    /// wherever they do not lie within eight aligned ones.
    #[tactic(auto, using(crate::proofs::Marks::kept_whole))]
    #[inline(always)]
    pub fn noted(&mut self, at: u64, n: u64)
        ensures kept { IsPartOf self.old self.new }
        ensures untouched { IsUntouched at n self.new }
        ensures agrees { (before after : List ℕ) → Agrees self.old before
            → DiffersOnlyIn at n before after → Agrees self.new after }
    {
        if n > 8 || at % 8 + n > 8 || self.has_read(at) {
            self.forget();
        }
    }

    /// Whether the page of an address is marked: where it is not, no remembered translation has an entry
    /// there.
    #[inline(always)]
    fn has_read(&self, at: u64) -> bool
        ensures { IsFalse result → HasNoneNear at self.now }
    {
        self.tables[(at >> 12) as usize % PAGES]
    }

    /// Forgets all that it remembers.
    #[inline(never)]
    pub fn forget(&mut self)
        ensures empty { self.new ≡ [] }
        ensures agrees { (ram : List ℕ) → Agrees self.new ram }
    {
        *self = Walker::empty();
    }
}
