//! Memory as the harts of a core reach it.

ghost use Rattle.std.specs.Prelude.{ℕ, IfSome, ◌/◌, ◌≡◌, ◌==◌, ◌+◌, ◌%◌, ◌^◌, ◌<◌, ◌*◌, IfOk, IsTrue, Ok, length, ◌≤◌, []};
ghost use Rattle.byteorder.specs.Endian.{little_bytes};
ghost use Rattle.guest_ram.specs.Bytes.{IsSize, has_part, number_at, with_part};
ghost use Rattle.hart_step.specs.Clauses.{Locates, Translates};
ghost use Rattle.hart_step.specs.Fit.{AreBytes};
ghost use Rattle.hart_step.specs.Memory.{acting_mode, data_address, most_rom, physical, ram_address, rom_holds, rom_number};
ghost use Rattle.sv39_walk.specs.Remembered.{Agrees};
ghost use Rattle.sv39_walk.specs.declared.Kind.TheVariants.{Fetch, Load, Store};

use crate::exception::Exception;
use crate::fit::see_bytes;
use crate::hart::Hart;
use crate::registers::satp;
use byteorder::{ByteOrder, LittleEndian};
use csr_file::masks::{MSTATUS_MPRV, MSTATUS_MXR, MSTATUS_SUM};
use guest_ram::{BASE, GuestRam, PageTable};
use rv_alu::Mode;
use std::marker::Model;
use sv39_walk::{Ctx, Kind, Walker, agrees_kept};
use trap_rules::{has_any, mstatus};

/// The physical address of the first byte of the boot ROM.
pub(crate) const ROM_BASE: u64 = 0x1_0000;

/// The RAM, the boot ROM, and the walker of the page tables in RAM.
///
/// Contracts see it as a `MemoryState`: the bytes of both.
#[derive(Drop)]
pub(crate) struct Memory {
    ram: GuestRam,
    // from how many addresses on RAM holds eight bytes
    eights: u64,
    rom: Vec<u8>,
    walker: Walker,
}

impl Model for Memory {
    ghost use Rattle.std.specs.Prelude.{◌≡◌, ◌-◌, ◌≤◌, length};
    ghost use Rattle.sv39_walk.specs.Remembered.{Agrees};
    ghost use Rattle.hart_step.specs.Memory.{MemoryState, most_rom};

    ghost Value = { MemoryState };

    ghost view = { λ memory. record { ram = memory.ram; rom = memory.rom.items } };

    ghost invariant = { λ memory. Agrees memory.walker memory.ram × (length memory.rom.items ≤ most_rom)
        × (memory.eights ≡ length memory.ram - 7) };
}

impl Memory {
    /// This RAM and ROM, with a walker that has remembered nothing yet.
    pub(crate) fn new(ram: GuestRam, rom: Vec<u8>, walker: Walker) -> Memory
        requires agreed { Agrees walker ram }
        requires small { length rom.items ≤ most_rom }
        ensures ram { result.ram ≡ ram }
        ensures rom { result.rom ≡ rom.items }
    {
        let eights = ram.len().saturating_sub(7);
        Memory {
            ram,
            eights,
            rom,
            walker,
        }
    }

    /// The RAM.
    #[inline(always)]
    pub(crate) fn ram(&self) -> &GuestRam
        ensures { result.now ≡ self.now.ram }
    {
        &self.ram
    }

    /// The boot ROM.
    pub(crate) fn rom(&self) -> &[u8]
        ensures { result.now ≡ self.now.rom }
    {
        self.rom.as_slice()
    }

    /// The walker.
    pub(crate) fn walker(&self) -> &Walker
        ensures { Agrees result.now self.now.ram }
    {
        &self.walker
    }

    /// The bytes of the RAM are bytes.
    pub(crate) fn see_bytes(&self)
        ensures { AreBytes self.now.ram }
    {
        see_bytes(self.ram.part(BASE, self.ram.len()));
    }

    /// Empties the boot ROM.
    pub(crate) fn empty_rom(&mut self)
        ensures { self.new ≡ record self.old { rom = [] } }
    {
        self.rom.clear();
    }

    /// The physical address of an access to `va` in a mode. Machine mode has no translation.
    #[inline(always)]
    #[tactic(auto, unfolding(sv39_walk::specs::Plain::translated))]
    pub(crate) fn physical(
        &mut self,
        hart: &Hart,
        mode: Mode,
        kind: Kind,
        va: u64,
    ) -> Result<u64, Exception>
        ensures { Translates va self.old self.new result (physical mode kind hart.now self.old.ram va) }
    {
        match mode {
            Mode::M => Ok(va),
            Mode::S | Mode::U => self.translated(hart, mode, kind, va),
        }
    }

    /// The physical address of an access to `va` in a mode, by the walker.
    #[inline(always)]
    fn translated(&mut self, hart: &Hart, mode: Mode, kind: Kind, va: u64) -> Result<u64, Exception>
        ensures { Translates va self.old self.new result (physical mode kind hart.now self.old.ram va) }
    {
        let status = mstatus(&hart.csrs);
        let ctx = Ctx {
            mode,
            satp: satp(&hart.csrs),
            sum: has_any(status, MSTATUS_SUM),
            mxr: has_any(status, MSTATUS_MXR),
        };
        let mut table = PageTable::new(&self.ram);
        match self.walker.translate(&mut table, ctx, va, kind) {
            Ok(at) => Ok(at),
            Err(fault) => Err(Exception::walk(kind, va, fault)),
        }
    }

    /// The physical address of a data access of `size` bytes at `va`.
    #[inline(always)]
    pub(crate) fn data_address(
        &mut self,
        hart: &Hart,
        kind: Kind,
        size: u8,
        va: u64,
    ) -> Result<u64, Exception>
        requires { IsSize size }
        ensures { Locates size self.old self.new result (data_address kind size hart.now self.old.ram va) }
    {
        if !is_aligned(va, size) {
            return Err(Exception::misaligned(kind, va));
        }
        self.physical(hart, hart.data_mode(), kind, va)
    }

    /// Whether a data access of `size` bytes at `va` is aligned, needs no translation and lies in RAM, and not
    /// at its end, as nearly all do in machine mode.
    #[inline(always)]
    #[tactic(auto, unfolding(sv39_walk::specs::Plain::translated))]
    pub(crate) fn is_direct(&self, hart: &Hart, size: u8, va: u64) -> bool
        requires { IsSize size }
        ensures load { IsTrue result → data_address Load size hart.now self.now.ram va ≡ Ok va }
        ensures store { IsTrue result → data_address Store size hart.now self.now.ram va ≡ Ok va }
        ensures aligned { IsTrue result → va % size ≡ 0 }
        ensures inside { IsTrue result → IsTrue (has_part self.now.ram va size) }
    {
        let in_machine_mode = hart.mode == Mode::M && !has_any(mstatus(&hart.csrs), MSTATUS_MPRV);
        is_aligned(va, size) && in_machine_mode && self.has_eight(va, size)
    }

    /// The physical address of the page of `va`, where the walker remembers it for the accesses of this kind
    /// that the hart makes in its own mode.
    #[inline(always)]
    fn page_base(&self, hart: &Hart, kind: Kind, va: u64) -> Option<u64>
        ensures leads { IfSome result (λ base. (other : ℕ) → other / 4096 ≡ va / 4096
            → physical hart.now.mode kind hart.now self.now.ram other ≡ Ok (base + other % 4096)) }
        ensures page { IfSome result (λ base. (base % 4096 ≡ 0) × (base < 2 ^ 63)) }
    {
        self.walker.page_base(satp(&hart.csrs), hart.mode, kind, va)
    }

    /// Where a data access of `size` bytes at `va` goes that is aligned and made in the hart's own mode, where
    /// the walker remembers the page and RAM holds eight bytes there.
    #[inline(always)]
    pub(crate) fn near(&self, hart: &Hart, kind: Kind, size: u8, va: u64) -> Option<u64>
        requires { IsSize size }
        ensures address { IfSome result (λ at. data_address kind size hart.now self.now.ram va ≡ Ok at) }
        ensures aligned { IfSome result (λ at. at % size ≡ 0) }
        ensures inside { IfSome result (λ at. IsTrue (has_part self.now.ram at size)) }
    {
        if !is_aligned(va, size) {
            return None;
        }
        if hart.is_in_debug() {
            return None;
        }
        if has_any(mstatus(&hart.csrs), MSTATUS_MPRV) {
            return None;
        }
        let base = self.page_base(hart, kind, va)?;
        let at = base + va % 4096;
        if self.has_eight(at, size) {
            Some(at)
        } else {
            None
        }
    }

    /// Where the two parcels at the hart's pc stand, where one page has both, the walker remembers it and RAM
    /// holds eight bytes there.
    #[inline(always)]
    pub(crate) fn pc_place(&self, hart: &Hart) -> Option<u64>
        ensures first { IfSome result (λ at. physical (acting_mode hart.now) Fetch hart.now self.now.ram hart.now.pc ≡ Ok at) }
        ensures next { IfSome result (λ at. physical (acting_mode hart.now) Fetch hart.now self.now.ram ((hart.now.pc + 2) % 2 ^ 64) ≡ Ok (at + 2)) }
        ensures even { hart.now.pc % 2 ≡ 0 → IfSome result (λ at. at % 2 ≡ 0) }
        ensures inside { IfSome result (λ at. IsTrue (has_part self.now.ram at 4)) }
    {
        if hart.is_in_debug() {
            return None;
        }
        if hart.pc % 4096 > 4092 {
            return None;
        }
        let base = self.page_base(hart, Kind::Fetch, hart.pc)?;
        let at = base + hart.pc % 4096;
        if self.has_eight(at, 4) {
            Some(at)
        } else {
            None
        }
    }

    /// The physical address of an access of `size` bytes that RAM alone answers.
    #[inline(never)]
    pub(crate) fn ram_address(
        &mut self,
        hart: &Hart,
        kind: Kind,
        size: u8,
        va: u64,
    ) -> Result<u64, Exception>
        requires { IsSize size }
        ensures locates { Locates size self.old self.new result (ram_address kind size hart.now self.old.ram va) }
        ensures inside { IfOk result (λ at. IsTrue (has_part self.old.ram at size)) }
    {
        let at = self.data_address(hart, kind, size, va)?;
        if self.ram.has(at, u64::from(size)) {
            Ok(at)
        } else {
            Err(Exception::access(kind, va))
        }
    }

    /// Whether the `size` bytes from `at` all lie in RAM.
    #[inline(always)]
    pub(crate) fn holds(&self, at: u64, size: u8) -> bool
        ensures { result ≡ has_part self.now.ram at size }
    {
        self.ram.has(at, u64::from(size))
    }

    /// Whether eight bytes from `at` lie in RAM, of which the first `size` are wanted. That is one comparison;
    /// at the end of RAM it says no where `holds` may say yes.
    #[inline(always)]
    pub(crate) fn has_eight(&self, at: u64, size: u8) -> bool
        requires { size ≤ 8 }
        ensures { IsTrue result → IsTrue (has_part self.now.ram at size) }
    {
        // nothing is made of them: no RAM reaches the end of 64 bits
        let (_wanted, _bounded) = (size, self.ram.len());
        at.wrapping_sub(BASE) < self.eights
    }

    /// The number in the `size` bytes from `at` in RAM.
    #[inline(always)]
    pub(crate) fn read(&self, at: u64, size: u8) -> u64
        requires size { IsSize size }
        requires inside { IsTrue (has_part self.now.ram at size) }
        requires aligned { at % size ≡ 0 }
        ensures number { result ≡ number_at self.now.ram at size }
        ensures fits { result < 256 ^ size }
    {
        self.ram.read(at, size)
    }

    /// The two 16-bit parcels from `at` in RAM, the first one in the low half.
    #[tactic(auto, using(crate::proofs::Parcels::two_parcels))]
    #[inline(always)]
    pub(crate) fn parcels(&self, at: u64) -> u32
        requires even { at % 2 ≡ 0 }
        requires inside { IsTrue (has_part self.now.ram at 4) }
        ensures parcels { result ≡ number_at self.now.ram at 2 + 0x10000 * number_at self.now.ram (at + 2) 2 }
        ensures fits { number_at self.now.ram at 2 < 0x10000 }
        ensures next { IsTrue (has_part self.now.ram ((at + 2) % 2 ^ 64) 2) × ((at + 2) % 2 ^ 64 ≡ at + 2) }
    {
        // nothing is made of it: it shows that the parcel fits
        let _first = self.ram.read(at, 2);
        let _bounded = self.ram.len();
        LittleEndian::read_u32(self.ram.part(at, 4))
    }

    /// Stores the low `size` bytes of `value` in RAM, and tells the walker.
    #[inline(always)]
    pub(crate) fn write(&mut self, at: u64, size: u8, value: u64)
        requires size { IsSize size }
        requires inside { IsTrue (has_part self.old.ram at size) }
        requires aligned { at % size ≡ 0 }
        ensures stored { self.new ≡ record self.old { ram = with_part self.old.ram at (little_bytes size value) } }
        ensures length { length self.new.ram ≡ length self.old.ram }
        ensures rom { self.new.rom ≡ self.old.rom }
    {
        agrees_kept();
        self.ram.write(at, size, value);
        self.walker.noted(at, u64::from(size));
    }

    /// Whether the `size` bytes from `at` all lie in the ROM.
    #[inline(never)]
    pub(crate) fn rom_holds(&self, at: u64, size: u8) -> bool
        ensures { result ≡ rom_holds self.now.rom at size }
    {
        at >= ROM_BASE
            && at - ROM_BASE <= self.rom.len() as u64
            && u64::from(size) <= self.rom.len() as u64 - (at - ROM_BASE)
    }

    /// The number in the `size` bytes from `at` in the ROM.
    #[inline(never)]
    pub(crate) fn rom_read(&self, at: u64, size: u8) -> u64
        requires size { IsSize size }
        requires inside { IsTrue (rom_holds self.now.rom at size) }
        ensures number { result ≡ rom_number self.now.rom at size }
        ensures fits { result < 256 ^ size }
    {
        let start = (at - ROM_BASE) as usize;
        let bytes = &self.rom[start..start + size as usize];
        match size {
            1 => u64::from(bytes[0]),
            2 => u64::from(LittleEndian::read_u16(bytes)),
            4 => u64::from(LittleEndian::read_u32(bytes)),
            _ => LittleEndian::read_u64(bytes),
        }
    }
}

/// Whether an address is a multiple of an access's size.
#[inline(always)]
fn is_aligned(va: u64, size: u8) -> bool
    requires { IsSize size }
    ensures { result ≡ (va % size == 0) }
{
    match size {
        1 => true,
        2 => va % 2 == 0,
        4 => va % 4 == 0,
        _ => va % 8 == 0,
    }
}
