//! A writer of a block: its code, and the values of its pool.

ghost use Rattle.std.specs.Prelude.{◌≡◌, ◌+◌, ◌*◌, ◌/◌, ◌<◌, ◌≤◌, ◌++◌, [], IfOk, OnOk, length};
ghost use Rattle.byteorder.specs.Endian.{little_bytes};
ghost use Rattle.rom_gen.specs.Items.{code};
ghost use Rattle.rom_gen.specs.Rom.{padding, rounded};
ghost use Rattle.rom_gen.specs.Wants.{is_short, is_small, put_insns, put_values};
ghost use Rattle.rom_gen.specs.Writing.{Adds, offset_of};

use crate::rom::NoMemory;
use crate::words::{high, low, nop, pooled, small};
use byteorder::{ByteOrder, LittleEndian};
use std::alloc::Global;

/// A block that is written: its code, the values of its pool, and the offset at which the pool will
/// stand behind the code.
#[derive(Drop)]
pub(crate) struct Writer {
    code: Vec<u8>,
    pool: Vec<u8>,
    place: u32,
}

/// Adds the four bytes of a word.
pub(crate) fn push_word(out: &mut Vec<u8>, word: u32) -> Result<(), NoMemory>
    ensures { OnOk result (out.new.items ≡ out.old.items ++ little_bytes 4 word) }
{
    let mut bytes = [0u8; 4];
    LittleEndian::write_u32(&mut bytes, word);
    out.extend_from_slice(&bytes)
}

/// Adds the eight bytes of a value.
pub(crate) fn push_value(out: &mut Vec<u8>, v: u64) -> Result<(), NoMemory>
    ensures { OnOk result (out.new.items ≡ out.old.items ++ little_bytes 8 v) }
{
    let mut bytes = [0u8; 8];
    LittleEndian::write_u64(&mut bytes, v);
    out.extend_from_slice(&bytes)
}

/// Whether a value, as a signed number, has twelve bits.
#[tactic(auto, unfolding(crate::specs::Wants::is_small))]
fn fits_small(v: u64) -> bool
    ensures { result ≡ is_small v }
{
    v < 2048 || 0xffff_ffff_ffff_f800 <= v
}

/// Whether a value, as a signed number, has 32 bits.
#[tactic(auto, unfolding(crate::specs::Wants::is_short))]
fn fits_short(v: u64) -> bool
    ensures { result ≡ is_short v }
{
    v < 0x8000_0000 || 0xffff_ffff_8000_0000 <= v
}

impl Writer {
    /// Nothing is written yet, and the pool will stand at this offset.
    pub(crate) fn new(alloc: Global, place: u32) -> Writer
        ensures code { result.code.items ≡ [] }
        ensures pool { result.pool.items ≡ [] }
        ensures place { result.place ≡ place }
    {
        Writer {
            code: Vec::new(alloc),
            pool: Vec::new(alloc),
            place,
        }
    }

    /// Where the pool stands behind this code and one more instruction.
    pub(crate) fn pool_place(&self) -> u32
        requires { length self.now.code.items ≤ 2000 }
        ensures { result ≡ 4 * rounded (length self.now.code.items / 4 + 1) }
    {
        let words = self.code.len() as u32 / 4 + 1;
        4 * (words + words % 2)
    }

    /// The bytes of the block: the code, one more instruction, a word that does nothing where there
    /// would be an odd number, and the pool.
    pub(crate) fn end(mut self, last: u32) -> Result<Vec<u8>, NoMemory>
        requires { length self.code.items ≤ 2000 }
        ensures { IfOk result (λ v. v.items ≡ (self.code.items ++ little_bytes 4 last) ++ (code (padding (length self.code.items / 4 + 1)) ++ self.pool.items)) }
    {
        let words = self.code.len() / 4 + 1;
        self.push(last)?;
        if words % 2 == 1 {
            self.push(nop())?;
        }
        self.code.extend_from_slice(&self.pool)?;
        Ok(self.code)
    }

    /// Adds an instruction's word.
    pub(crate) fn push(&mut self, insn: u32) -> Result<(), NoMemory>
        ensures code { OnOk result (self.new.code.items ≡ self.old.code.items ++ little_bytes 4 insn) }
        ensures pool { self.new.pool ≡ self.old.pool }
        ensures place { self.new.place ≡ self.old.place }
    {
        push_word(&mut self.code, insn)
    }

    /// Adds a value to the pool.
    fn keep(&mut self, v: u64) -> Result<(), NoMemory>
        ensures pool { OnOk result (self.new.pool.items ≡ self.old.pool.items ++ little_bytes 8 v) }
        ensures code { self.new.code ≡ self.old.code }
        ensures place { self.new.place ≡ self.old.place }
    {
        push_value(&mut self.pool, v)
    }

    /// Puts a value into a register.
    pub(crate) fn put(&mut self, r: u32, v: u64) -> Result<(), NoMemory>
        requires r { r < 32 }
        requires room { offset_of self.old < 2048 }
        ensures { OnOk result (Adds self.old self.new (put_insns (offset_of self.old) r v) (put_values v)) }
    {
        if fits_small(v) {
            self.push(small(r, v))
        } else if fits_short(v) {
            self.push(high(r, v))?;
            self.push(low(r, v))
        } else {
            let off = self.place + self.pool.len() as u32;
            self.push(pooled(r, off))?;
            self.keep(v)
        }
    }
}
