//! The single accesses of the block of the devices. The address that is reached stands in no word, so the
//! clauses here have 0 in its place.

ghost use Rattle.std.specs.Prelude.{◌≡◌, ◌+◌, ◌^◌, ◌<◌, ◌≤◌, ◌∷◌, [], OnOk, pos};
ghost use Rattle.rv_decode.specs.Ranges.{IsSigned};
ghost use Rattle.rom_gen.specs.Deeds.{Aim, Again, Read, Save, deed_items, deed_values};
ghost use Rattle.rom_gen.specs.Items.{all_insns};
ghost use Rattle.rom_gen.specs.Rom.{far_insns};
ghost use Rattle.rom_gen.specs.Writing.{Adds, Dealt, offset_of};

use crate::rom::NoMemory;
use crate::words::{Width, high, load, low, store, upper};
use crate::writer::Writer;

impl Writer {
    /// A base register gets an address.
    pub(crate) fn aim(&mut self, r: u32, v: u32) -> Result<(), NoMemory>
        requires r { r < 32 }
        requires v { v < 2 ^ 31 }
        ensures { OnOk result (Dealt self.old self.new (Aim r v ∷ [])) }
    {
        self.push(upper(r, v))
    }

    /// A value goes to a device register, through x6 where it is not 0.
    pub(crate) fn save(&mut self, width: Width, v: u64, by: u32, off: i64) -> Result<(), NoMemory>
        requires by { by < 32 }
        requires off { IsSigned 12 off }
        requires room { offset_of self.old < 2048 }
        ensures { OnOk result (Adds self.old self.new (all_insns (deed_items (offset_of self.old) (Save width v by off 0))) (deed_values (Save width v by off 0))) }
    {
        if v == 0 {
            self.push(store(width, by, 0, off))
        } else {
            self.put(6, v)?;
            self.push(store(width, by, 6, off))
        }
    }

    /// What x6 has, the value `v`, goes to a device register.
    pub(crate) fn again(&mut self, width: Width, v: u64, by: u32, off: i64) -> Result<(), NoMemory>
        requires by { by < 32 }
        requires off { IsSigned 12 off }
        ensures { OnOk result (Dealt self.old self.new (Again width v by off 0 ∷ [])) }
    {
        self.push(store(width, by, 6, off))
    }

    /// x6 gets what a device register has.
    pub(crate) fn read(&mut self, width: Width, by: u32, off: i64) -> Result<(), NoMemory>
        requires by { by < 32 }
        requires off { IsSigned 12 off }
        ensures { OnOk result (Dealt self.old self.new (Read width by off 0 ∷ [])) }
    {
        self.push(load(width, 6, by, off))
    }

    /// A value goes to a device register at an offset that is not negative.
    pub(crate) fn save_up(
        &mut self,
        width: Width,
        v: u64,
        by: u32,
        off: u32,
    ) -> Result<(), NoMemory>
        requires by { by < 32 }
        requires off { off < 2048 }
        requires room { offset_of self.old < 2048 }
        ensures code { OnOk result (Adds self.old self.new (all_insns (deed_items (offset_of self.old) (Save width v by (pos off) 0))) (deed_values (Save width v by (pos off) 0))) }
        ensures room { OnOk result (offset_of self.new ≤ offset_of self.old + 8) }
    {
        self.save(width, v, by, i64::from(off))
    }

    /// x1 gets the address of a place of the ROM, in two words.
    #[tactic(auto, using(crate::proofs::Dealings::far_adds))]
    pub(crate) fn far(&mut self, v: u64) -> Result<(), NoMemory>
        ensures { OnOk result (Adds self.old self.new (far_insns v) []) }
    {
        self.push(high(1, v))?;
        self.push(low(1, v))
    }
}
