//! A core of several harts over one memory.

ghost use Rattle.std.specs.Prelude.{◌≡◌, ◌%◌, ◌<◌, ◌≤◌, ◌&&◌, not, if◌then◌else◌, [], All, IfOk, IfSome, length, map, position, slice_index_or, slice_set};
ghost use Rattle.std.specs.List.{list_any};
ghost use Rattle.guest_ram.specs.Bytes.{HasPart};
ghost use Rattle.hart_step.specs.Clauses.{CoreLeaves, step_by};
ghost use Rattle.hart_step.specs.DebugReset.{debug_core};
ghost use Rattle.hart_step.specs.Fit.{IsFit, IsWellFormed};
ghost use Rattle.hart_step.specs.Harts.{hart_of, is_in_debug, lowest_in_debug, reset_core, reset_hart};
ghost use Rattle.hart_step.specs.Memory.{most_rom};
ghost use Rattle.sv39_walk.specs.Remembered.{Agrees};
ghost use Rattle.hart_step.specs.Step.{after_store, host_cleared, unreserved, unreserved_hart, without_reservation};

use crate::answers::Answers;
use crate::event::{Event, Put};
use crate::fit::{see_bytes, see_hart};
use crate::hart::Hart;
use crate::memory::Memory;
use crate::shows::{Shows, Unseen};
use crate::stepping::step_hart;
use guest_ram::GuestRam;
use std::alloc::{AllocError, Global};
use std::marker::Model;
use sv39_walk::Walker;

/// The allocator has no room for the harts.
pub type NoMemory = AllocError;

/// One to eight harts over one memory. Contracts see it as a `CoreState`: the list of harts, the
/// memory's bytes and the boot ROM, which is empty out of a boot.
#[derive(Drop)]
pub struct Core {
    harts: Vec<Hart>,
    memory: Memory,
}

impl Model for Core {
    ghost use Rattle.hart_step.specs.Fit.{IsKept};
    ghost use Rattle.hart_step.specs.Harts.{CoreState};

    ghost Value = { CoreState };

    ghost view = { λ core. record { harts = core.harts.items; ram = core.memory.ram; rom = core.memory.rom } };

    ghost invariant = { λ core. IsKept (record { harts = core.harts.items; ram = core.memory.ram; rom = core.memory.rom }) };
}

impl Core {
    /// All harts at reset over this memory, with the entry as their pc. `harts` is 1 to 8, and
    /// `entry` is even.
    ///
    /// # Errors
    ///
    /// `NoMemory` where the allocator has no room for the harts.
    #[tactic(auto, using(crate::proofs::Lists::reset_length))]
    pub fn new(alloc: Global, harts: u8, ram: GuestRam, entry: u64) -> Result<Core, NoMemory>
        requires some { 0 < harts }
        requires most { harts ≤ 8 }
        requires even { entry % 2 ≡ 0 }
        ensures core { IfOk result (λ core. core ≡ reset_core harts ram entry) }
        ensures count { IfOk result (λ core. length core.harts ≡ harts) }
    {
        let mut list = Vec::new(alloc);
        for h in 0..harts {
            let hart = Hart::at_reset(h, entry);
            see_hart(&hart);
            list.push(hart)?;
        }
        let walker = Walker::new(alloc)?;
        let memory = Memory::new(ram, Vec::new(alloc), walker);
        Ok(Core {
            harts: list,
            memory,
        })
    }

    /// All harts at reset in debug mode over this memory, where they begin to execute this boot ROM:
    /// in M mode at its first byte, 0x10000, with the debug registers beside those at reset, every
    /// register x 0 and no reservation. `harts` is 1 to 8, and the ROM has at most 131,072 bytes.
    ///
    /// # Errors
    ///
    /// `NoMemory` where the allocator has no room for the harts.
    #[tactic(auto, using(crate::proofs::DebugResets::debug_length))]
    pub fn new_debug(
        alloc: Global,
        harts: u8,
        ram: GuestRam,
        rom: Vec<u8>,
    ) -> Result<Core, NoMemory>
        requires some { 0 < harts }
        requires most { harts ≤ 8 }
        requires room { length rom.items ≤ most_rom }
        ensures core { IfOk result (λ core. core ≡ debug_core harts ram rom.items) }
        ensures count { IfOk result (λ core. length core.harts ≡ harts) }
    {
        let mut list = Vec::new(alloc);
        for h in 0..harts {
            let hart = Hart::at_debug_reset(h);
            see_hart(&hart);
            list.push(hart)?;
        }
        let walker = Walker::new(alloc)?;
        Ok(Core {
            harts: list,
            memory: Memory::new(ram, rom, walker),
        })
    }

    /// The walker of the page tables, with the translations that it remembers of this memory.
    pub fn walker(&self) -> &Walker
        ensures { Agrees result.now self.now.ram }
    {
        self.memory.walker()
    }

    /// How many harts there are.
    pub fn harts(&self) -> u8
        ensures count { result ≡ length self.now.harts }
        ensures some { 0 < result }
        ensures most { result ≤ 8 }
    {
        self.harts.len() as u8
    }

    /// The core is well formed.
    pub fn see_fit(&self)
        ensures { IsFit self.now }
    {
        see_bytes(self.memory.rom());
        self.memory.see_bytes();
    }

    /// The memory.
    pub fn ram(&self) -> &GuestRam
        ensures { result.now ≡ self.now.ram }
    {
        self.memory.ram()
    }

    /// The boot ROM, which is empty out of a boot.
    pub fn rom(&self) -> &[u8]
        ensures { result.now ≡ self.now.rom }
    {
        self.memory.rom()
    }

    /// Hart `h`, which is below the number of harts.
    pub fn hart(&self, h: u8) -> &Hart
        requires { h < length self.now.harts }
        ensures { result.now ≡ hart_of self.now h }
    {
        &self.harts[h as usize]
    }

    /// The lowest hart in debug mode, and none where no hart is in it.
    pub fn in_debug(&self) -> Option<u8>
        ensures { result ≡ lowest_in_debug self.now }
    {
        match first_in_debug(&self.harts) {
            Some(h) => Some(h as u8),
            None => None,
        }
    }

    /// The first of the eight bytes that hart `h` has reserved.
    pub fn reservation(&self, h: u8) -> Option<u64>
        requires { h < length self.now.harts }
        ensures { result ≡ (hart_of self.now h).reservation }
    {
        self.harts[h as usize].reservation
    }

    /// Stores 8 zero bytes in memory as a device does: every reservation that they touch is lost. `at`
    /// is a multiple of 8 whose 8 bytes lie in memory.
    pub fn host_clear(&mut self, at: u64)
        requires aligned { at % 8 ≡ 0 }
        requires inside { HasPart self.old.ram at 8 }
        ensures core { self.new ≡ host_cleared self.old at }
        ensures harts { length self.new.harts ≡ length self.old.harts }
        ensures ram { length self.new.ram ≡ length self.old.ram }
    {
        self.memory.write(at, 8, 0);
        lose_touched(&mut self.harts, at, 8);
    }

    /// Drops every reservation.
    pub fn clear_reservations(&mut self)
        ensures core { self.new ≡ unreserved self.old }
        ensures harts { length self.new.harts ≡ length self.old.harts }
    {
        drop_reservations(&mut self.harts);
    }

    /// Takes one step of hart `h`, and answers what it did.
    #[inline(always)]
    pub fn step<A: Answers>(&mut self, h: u8, answers: &mut A) -> Event
        requires hart { h < length self.old.harts }
        requires ready { A.ready answers.old h }
        ensures { CoreLeaves A.after answers.old answers.new h self.old self.new result
            (step_by (A.says answers.old h) self.old h) }
    {
        let mut event = Event::Host { word: 0 };
        self.step_into(h, answers, &mut event);
        event
    }

    /// Takes one step of hart `h`, and writes what it did in the place of another event.
    #[inline(always)]
    pub fn step_into<A: Answers>(&mut self, h: u8, answers: &mut A, event: &mut Event)
        requires hart { h < length self.old.harts }
        requires ready { A.ready answers.old h }
        ensures { CoreLeaves A.after answers.old answers.new h self.old self.new event.new
            (step_by (A.says answers.old h) self.old h) }
    {
        self.step_over(h, answers, event);
    }

    /// Takes one step of hart `h`, and shows nothing of it.
    #[inline(always)]
    pub fn step_unseen<A: Answers>(&mut self, h: u8, answers: &mut A)
        requires hart { h < length self.old.harts }
        requires ready { A.ready answers.old h }
        ensures { CoreLeaves A.after answers.old answers.new h self.old self.new (step_by (A.says answers.old h) self.old h).event
            (step_by (A.says answers.old h) self.old h) }
    {
        self.step_over(h, answers, &mut Unseen {});
    }

    /// Takes one step of hart `h`, and shows it in a place.
    #[inline(always)]
    fn step_over<A: Answers, S: Shows>(&mut self, h: u8, answers: &mut A, place: &mut S)
        requires hart { h < length self.old.harts }
        requires ready { A.ready answers.old h }
        ensures shown { S.shows place.new (step_by (A.says answers.old h) self.old h).event }
        ensures leaves { CoreLeaves A.after answers.old answers.new h self.old self.new (step_by (A.says answers.old h) self.old h).event
            (step_by (A.says answers.old h) self.old h) }
    {
        let count = self.harts();
        let hart = &mut self.harts[h as usize];
        let was_in_debug = hart.is_in_debug();
        let stored = step_hart(h, count, hart, &mut self.memory, answers, place);
        see_hart(hart);
        let left_debug = has_left_debug(was_in_debug, hart);
        lose_reservations(&mut self.harts, h, stored);
        close_rom(&mut self.memory, left_debug, &self.harts);
    }
}

/// Whether a hart has left debug mode.
#[inline(always)]
fn has_left_debug(was_in_debug: bool, hart: &Hart) -> bool
    ensures { result ≡ (was_in_debug && not (is_in_debug hart.now)) }
{
    was_in_debug && !hart.is_in_debug()
}

/// The place of the first hart in debug mode.
fn first_in_debug(harts: &[Hart]) -> Option<usize>
    ensures place { result ≡ position is_in_debug harts.now }
    ensures within { IfSome result (λ h. h < length harts.now) }
{
    harts.iter().position(|hart| hart.is_in_debug())
}

/// Whether some hart is in debug mode.
fn is_any_in_debug(harts: &[Hart]) -> bool
    ensures { result ≡ list_any is_in_debug harts.now }
{
    harts.iter().any(|hart| hart.is_in_debug())
}

/// Empties the ROM where a hart has left debug mode and none is in it any more.
#[inline(always)]
fn close_rom(memory: &mut Memory, left_debug: bool, harts: &[Hart])
    ensures { memory.new ≡ record memory.old {
      rom =
          if left_debug && not (list_any is_in_debug harts.now) then [] else memory.old.rom;
    } }
{
    if left_debug && !is_any_in_debug(harts) {
        memory.empty_rom();
    }
}

/// Drops the reservations of all harts but hart `h` that something stored touches.
#[inline(always)]
fn lose_reservations(harts: &mut Vec<Hart>, h: u8, put: Option<Put>)
    requires hart { h < length harts.old.items }
    requires fit { All IsWellFormed harts.old.items }
    ensures harts { harts.new.items ≡ slice_set (after_store put harts.old.items) h (slice_index_or harts.old.items h (reset_hart 0 0)) }
    ensures fit { All IsWellFormed harts.new.items }
{
    let Some(put) = put else {
        return;
    };
    let own = harts[h as usize].reservation;
    lose_touched(harts, put.at, put.size);
    harts[h as usize].reservation = own;
}

/// Drops the reservations of harts that the `size` bytes from `at` touch.
fn lose_touched(harts: &mut Vec<Hart>, at: u64, size: u8)
    requires fit { All IsWellFormed harts.old.items }
    ensures harts { harts.new.items ≡ map (without_reservation at size) harts.old.items }
    ensures count { length harts.new.items ≡ length harts.old.items }
    ensures fit { All IsWellFormed harts.new.items }
{
    lose_all(harts.as_mut_slice(), at, size);
}

/// Drops the reservations of all harts.
fn drop_reservations(harts: &mut Vec<Hart>)
    requires fit { All IsWellFormed harts.old.items }
    ensures harts { harts.new.items ≡ map unreserved_hart harts.old.items }
    ensures count { length harts.new.items ≡ length harts.old.items }
    ensures fit { All IsWellFormed harts.new.items }
{
    drop_all(harts.as_mut_slice());
}

/// The same in a slice.
fn lose_all(harts: &mut [Hart], at: u64, size: u8)
    requires fit { All IsWellFormed harts.old }
    ensures harts { harts.new ≡ map (without_reservation at size) harts.old }
    ensures count { length harts.new ≡ length harts.old }
    ensures fit { All IsWellFormed harts.new }
{
    for hart in harts.iter_mut() {
        hart.lose(at, size);
    }
}

/// The same in a slice.
fn drop_all(harts: &mut [Hart])
    requires fit { All IsWellFormed harts.old }
    ensures harts { harts.new ≡ map unreserved_hart harts.old }
    ensures count { length harts.new ≡ length harts.old }
    ensures fit { All IsWellFormed harts.new }
{
    for hart in harts.iter_mut() {
        hart.reservation = None;
    }
}
