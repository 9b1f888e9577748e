//! The reading of page tables.

ghost use Rattle.std.specs.Prelude.{◌≡◌, ◌+◌, ◌%◌, ◌^◌, ◌≤◌, ◌<◌, Bool, Err, IfErr, IfOk};
ghost use Rattle.guest_ram.specs.Bytes.{HasPart, IsAligned};
ghost use Rattle.rv_alu.specs.declared.Mode.{Mode as ModeOf};
ghost use Rattle.sv39_walk.specs.declared.Kind.{Kind as KindOf};
ghost use Rattle.sv39_walk.specs.declared.WalkFault.TheVariants.{Access};
ghost use Rattle.sv39_walk.specs.Found.{IsFound};
ghost use Rattle.sv39_walk.specs.Plain.{arrived, walked};
ghost use Rattle.sv39_walk.specs.Walk.{entry_address, entry_at, is_canonical, is_untranslated, root_of};

use crate::entry::Entry;
use crate::{Ctx, Kind, WalkFault};
use guest_ram::PageTable;
use rv_alu::{Mode, bits};

/// The end of a walk at an entry that is no pointer: that entry, and the addresses of the `count` entries on
/// the way to it, of which the last one is its own. Others have the address of the first.
#[derive(Clone, Copy)]
pub(crate) struct Found {
    pub(crate) leaf: u64,
    pub(crate) first: u64,
    pub(crate) second: u64,
    pub(crate) third: u64,
    pub(crate) count: u8,
}

/// Whether the address stays as it is.
pub(crate) fn is_untranslated(ctx: Ctx) -> bool
    ensures { result ≡ is_untranslated ctx.satp ctx.mode }
{
    match ctx.mode {
        Mode::M => true,
        Mode::S => bits(ctx.satp, 60, 4) == 0,
        Mode::U => bits(ctx.satp, 60, 4) == 0,
    }
}

/// Whether the high bits are all equal.
pub(crate) fn is_canonical(va: u64) -> bool
    ensures { result ≡ is_canonical va }
{
    let high = bits(va, 39, 25);
    if bits(va, 38, 1) == 1 {
        high == (1 << 25) - 1
    } else {
        high == 0
    }
}

/// The address of the entry for `va` in the table in this page.
fn entry_address(va: u64, level: u8, page: u64) -> u64
    requires level { level ≤ 2 }
    requires page { page < 2 ^ 44 }
    ensures address { result ≡ entry_address va level page }
    ensures aligned { IsAligned result 8 }
{
    page * 4096 + 8 * bits(va, 12 + 9 * level, 9)
}

/// Reads the entry at an address.
#[inline(always)]
fn read(table: &mut PageTable<'_>, at: u64) -> Result<Entry, WalkFault>
    requires aligned { IsAligned at 8 }
    requires room { table.old.reads < 255 }
    ensures counted { table.new ≡ record { ram = table.old.ram; reads = table.old.reads + 1 } }
    ensures there { IfOk result (λ entry. HasPart table.old.ram at 8
        × (entry.0 ≡ entry_at table.old.ram at)) }
    ensures outside { IfErr result (λ fault. (HasPart table.old.ram at 8 → ⊥) × (fault ≡ Access)) }
{
    match table.entry(at) {
        Some(word) => Ok(Entry::of(word)),
        None => Err(WalkFault::Access),
    }
}

/// Walks the page tables from the root to the entry that is no pointer. Answers the fault where there is
/// none.
#[tactic(auto, using(crate::proofs::Found::one_entry, crate::proofs::Found::two_entries, crate::proofs::Found::three_entries, crate::proofs::Found::no_first, crate::proofs::Found::no_second, crate::proofs::Found::no_third, crate::proofs::Found::no_leaf))]
pub(crate) fn walk(table: &mut PageTable<'_>, satp: u64, va: u64) -> Result<Found, WalkFault>
    requires { table.old.reads ≤ 252 }
    ensures found { IfOk result (λ found. IsFound table.old.ram satp va found) }
    ensures stopped { IfErr result (λ fault. (mode : ModeOf) (sum mxr : Bool) (kind : KindOf)
        → walked table.old.ram mode sum mxr kind va 3 (root_of satp) ≡ Err fault) }
    ensures memory { table.new.ram ≡ table.old.ram }
    ensures counted { table.old.reads ≤ table.new.reads }
    ensures few { table.new.reads ≤ table.old.reads + 3 }
{
    let first = entry_address(va, 2, bits(satp, 0, 44));
    let top = read(table, first)?;
    if !top.is_pointer() {
        return Ok(Found {
            leaf: top.word(),
            first,
            second: first,
            third: first,
            count: 1,
        });
    }
    let second = entry_address(va, 1, top.page());
    let middle = read(table, second)?;
    if !middle.is_pointer() {
        return Ok(Found {
            leaf: middle.word(),
            first,
            second,
            third: first,
            count: 2,
        });
    }
    let third = entry_address(va, 0, middle.page());
    let Ok(low) = read(table, third) else {
        return Err(WalkFault::Access);
    };
    if low.is_pointer() {
        return Err(WalkFault::Page);
    }
    Ok(Found {
        leaf: low.word(),
        first,
        second,
        third,
        count: 3,
    })
}

/// What a walk gives that ends at this entry.
pub(crate) fn arrive(
    entry: Entry,
    ctx: Ctx,
    va: u64,
    kind: Kind,
    level: u8,
) -> Result<u64, WalkFault>
    requires { level ≤ 2 }
    ensures arrived { result ≡ arrived ctx.mode ctx.sum ctx.mxr kind va level entry.0 }
    ensures place { IfOk result (λ pa. pa % 4096 ≡ va % 4096) }
{
    if !entry.permits(ctx, kind, level) {
        return Err(WalkFault::Page);
    }
    Ok(entry.address(level, va))
}
