//! The fetch of one instruction's parcels, and its decoding.

ghost use Rattle.std.specs.Prelude.{◌≡◌, ◌%◌, ◌<◌, IfOk, IfSome, IsTrue, Ok};
ghost use Rattle.guest_ram.specs.Bytes.{has_part, number_at};
ghost use Rattle.rv_alu.specs.declared.Mode.TheVariants.{M};
ghost use Rattle.rv_decode.specs.Ranges.{IsInRange};
ghost use Rattle.hart_step.specs.Harts.{IsFitHart};
ghost use Rattle.hart_step.specs.Memory.{acting_mode, physical};
ghost use Rattle.sv39_walk.specs.declared.Kind.TheVariants.{Fetch};
ghost use Rattle.hart_step.specs.Step.{begun_by, decoded, fetched, first_of, parcel};

use crate::exception::Exception;
use crate::hart::Hart;
use crate::memory::Memory;
use rv_alu::Mode;
use rv_decode::{Insn, decode, expand};
use sv39_walk::Kind;

/// An instruction's word, a 16-bit one with zeros above, and its length in bytes, with what it stands for:
/// none where the word stands for no instruction.
pub(crate) struct Decoded {
    pub(crate) word: u32,
    pub(crate) len: u8,
    pub(crate) insn: Option<Insn>,
}

/// Fetches the 16-bit parcel at `va`.
#[inline(always)]
fn parcel(hart: &Hart, memory: &mut Memory, va: u64) -> Result<u64, Exception>
    requires { va % 2 ≡ 0 }
    ensures parcel { result ≡ parcel hart.now memory.old va }
    ensures fits { IfOk result (λ low. low < 0x10000) }
    ensures same { memory.new ≡ memory.old }
{
    let at = memory.physical(hart, hart.acting_mode(), Kind::Fetch, va)?;
    if memory.holds(at, 2) {
        return Ok(memory.read(at, 2));
    }
    if hart.is_in_debug() && memory.rom_holds(at, 2) {
        return Ok(memory.rom_read(at, 2));
    }
    Err(Exception::access(Kind::Fetch, va))
}

/// Fetches the two parcels at the hart's pc, the first one in the low half; where that is an instruction of
/// its own, what stands above it means nothing. Both are read at once where RAM holds them and the place of
/// the first one's page is at hand: in machine mode, which has no translation, and where the walker
/// remembers the page.
#[inline(always)]
pub(crate) fn fetch(hart: &Hart, memory: &mut Memory) -> Result<u32, Exception>
    requires { IsFitHart hart.now }
    ensures word { begun_by result ≡ fetched hart.now memory.old }
    ensures same { memory.new ≡ memory.old }
{
    if hart.mode == Mode::M && memory.has_eight(hart.pc, 4) {
        let parcels = memory.parcels(hart.pc);
        see_parcel(hart, memory, hart.pc);
        see_parcel(hart, memory, hart.pc.wrapping_add(2));
        return Ok(parcels);
    }
    if let Some(at) = memory.pc_place(hart) {
        let parcels = memory.parcels(at);
        see_parcel_at(hart, memory, hart.pc, at);
        see_parcel_at(hart, memory, hart.pc.wrapping_add(2), at + 2);
        return Ok(parcels);
    }
    fetch_slowly(hart, memory)
}

/// A parcel that RAM holds where its address leads is fetched.
#[inline(always)]
fn see_parcel_at(hart: &Hart, memory: &Memory, va: u64, at: u64)
    requires leads { physical (acting_mode hart.now) Fetch hart.now memory.now.ram va ≡ Ok at }
    requires inside { IsTrue (has_part memory.now.ram at 2) }
    ensures { parcel hart.now memory.now va ≡ Ok (number_at memory.now.ram at 2) }
{}

/// Fetches the same in any mode. The place of what the call answers is in this function alone, so that it is
/// not made where the call is not.
#[inline(always)]
fn fetch_slowly(hart: &Hart, memory: &mut Memory) -> Result<u32, Exception>
    requires { IsFitHart hart.now }
    ensures word { begun_by result ≡ fetched hart.now memory.old }
    ensures same { memory.new ≡ memory.old }
{
    fetch_by_parcel(hart, memory)
}

/// Machine mode fetches a parcel that RAM holds.
#[tactic(auto, unfolding(sv39_walk::specs::Plain::translated))]
#[inline(always)]
fn see_parcel(hart: &Hart, memory: &Memory, at: u64)
    requires machine { acting_mode hart.now ≡ M }
    requires inside { IsTrue (has_part memory.now.ram at 2) }
    ensures { parcel hart.now memory.now at ≡ Ok (number_at memory.now.ram at 2) }
{}

/// Fetches the same, parcel by parcel.
#[inline(never)]
fn fetch_by_parcel(hart: &Hart, memory: &mut Memory) -> Result<u32, Exception>
    requires { IsFitHart hart.now }
    ensures word { begun_by result ≡ fetched hart.now memory.old }
    ensures same { memory.new ≡ memory.old }
{
    let low = parcel(hart, memory, hart.pc)?;
    if low % 4 != 3 {
        return Ok(low as u32);
    }
    let high = parcel(hart, memory, hart.pc.wrapping_add(2))?;
    Ok((low + 0x1_0000 * high) as u32)
}

/// The instruction that begins with two parcels.
#[inline(always)]
pub(crate) fn decode_parcels(parcels: u32) -> Decoded
    ensures word { result.word ≡ (first_of parcels).word }
    ensures len { result.len ≡ (first_of parcels).len }
    ensures row { result.insn ≡ decoded result.word result.len }
    ensures in_range { IfSome result.insn IsInRange }
    ensures even { result.len % 2 ≡ 0 }
{
    if parcels % 4 == 3 {
        Decoded {
            word: parcels,
            len: 4,
            insn: decode(parcels),
        }
    } else {
        let word = parcels % 0x1_0000;
        Decoded {
            word,
            len: 2,
            insn: expand(word as u16),
        }
    }
}
