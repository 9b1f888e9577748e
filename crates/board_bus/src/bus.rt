//! The devices and their calls.

ghost use Rattle.std.specs.Prelude.{◌≡◌, ◌<◌, ◌≤◌, ◌^◌, ◌++◌, ◌*◌, ◌+◌, IfOk, bit_and, is_ok, length, nat_lt};
ghost use Rattle.std.specs.Result.{result_ok};
ghost use Rattle.clint.specs.State as clint;
ghost use Rattle.console.specs.State.{levels_of, queue_room};
ghost use Rattle.console.specs.Output.{spare_of};
ghost use Rattle.console.specs.Access.{most_sent};
ghost use Rattle.board_bus.specs.Board.{IsFit, after_load, after_load_in, driven_bits, entered, hart_count, live, loaded, loaded_in, reset_board, sent, sent_in, signal, stored, stored_in, ticked};
ghost use Rattle.board_bus.specs.Listed.{is_listed, is_listed_in};

use crate::place::{Place, place_of};
use clint::Clint;
use console::{Console, OutBuf};
use guest_ram::GuestRam;
use plic::Plic;
use std::marker::Model;

/// An access to no device register: none with this address and size is listed.
#[derive(Clone, Copy, PartialEq, Eq, Debug)]
pub struct Refused;

/// All devices of a board of 1 to 8 harts.
///
/// Contracts see them as the values of their registers, `BoardState`, which are well formed (`IsFit`).
#[derive(Drop)]
pub(crate) struct Devices {
    clint: Clint,
    plic: Plic,
    console: Console,
}

impl Model for Devices {
    ghost use Rattle.std.specs.Prelude.{◌≡◌, ◌≤◌, ◌*◌};
    ghost use Rattle.clint.specs.State.{hart_count};
    ghost use Rattle.plic.specs.State.{context_count};
    ghost use Rattle.board_bus.specs.Board.{BoardState};

    ghost Value = { BoardState };

    ghost view = { λ b. record { clint = b.clint; plic = b.plic; console = b.console } };

    ghost invariant = { λ b. (hart_count b.clint ≤ 8) × (context_count b.plic ≡ 2 * hart_count b.clint) };
}

impl Devices {
    /// All devices at reset, for this many harts: 1 to 8.
    #[tactic(auto, unfolding(crate::specs::Board::reset_board))]
    pub(crate) fn new(harts: u8) -> Devices
        requires some { 0 < harts }
        requires most { harts ≤ 8 }
        ensures value { result ≡ reset_board harts }
        ensures harts { hart_count result ≡ harts }
    {
        Devices {
            clint: Clint::reset(harts),
            plic: Plic::reset(harts),
            console: Console::reset(),
        }
    }

    /// The devices are well formed.
    pub(crate) fn see_fit(&self)
        ensures { IsFit self.now }
    {
        self.clint.see_fit();
        self.plic.see_fit();
        self.console.see_fit();
    }

    /// The value of the device register of `size` bytes at the physical address `at`. Reading some
    /// registers changes them.
    ///
    /// # Errors
    ///
    /// `Refused` exactly where no register with this address and size is listed; then nothing changes.
    #[tactic(auto, unfolding(crate::specs::Listed::is_listed, crate::specs::Board::loaded, crate::specs::Board::after_load))]
    pub(crate) fn load(&mut self, at: u64, size: u8) -> Result<u64, Refused>
        ensures listed { is_ok result ≡ is_listed (hart_count self.old) at size }
        ensures value { result_ok result ≡ loaded self.old at size }
        ensures left { self.new ≡ after_load self.old at size }
        ensures fits { IfOk result (λ v. v < 256 ^ size) }
        ensures harts { hart_count self.new ≡ hart_count self.old }
    {
        self.load_in(place_of(at), size)
    }

    /// Writes the low `size` bytes of `value` to the device register of `size` bytes at the physical
    /// address `at`. What the console sends, out of guest memory too, is appended to `out`.
    ///
    /// # Errors
    ///
    /// `Refused` exactly where no register with this address and size is listed; then nothing changes.
    #[tactic(auto, unfolding(crate::specs::Listed::is_listed, crate::specs::Board::stored, crate::specs::Board::sent))]
    pub(crate) fn store(
        &mut self,
        at: u64,
        size: u8,
        value: u64,
        ram: &GuestRam,
        out: &mut OutBuf,
    ) -> Result<(), Refused>
        requires { most_sent ≤ spare_of out.old }
        ensures listed { is_ok result ≡ is_listed (hart_count self.old) at size }
        ensures kept { self.new ≡ stored self.old at size value }
        ensures sent { out.new ≡ record out.old { bytes = out.old.bytes ++ sent ram.now self.old at size value } }
        ensures harts { hart_count self.new ≡ hart_count self.old }
    {
        self.store_in(place_of(at), size, value, ram, out)
    }

    /// The bits of `mip` that the devices drive for hart `h`: 3 (software), 7 (timer), 9 (external, S
    /// mode) and 11 (external, M mode).
    #[tactic(auto, unfolding(crate::specs::Board::live))]
    pub(crate) fn gathered(&self, h: u8) -> u64
        requires { h < hart_count self.now }
        ensures value { result ≡ live self.now h }
        ensures volatile { bit_and result driven_bits ≡ result }
    {
        let levels = self.console.levels();
        signals(
            self.clint.soft_due(h),
            self.clint.timer_due(h),
            self.plic.due(2 * h + 1, levels),
            self.plic.due(2 * h, levels),
        )
    }

    /// The timer.
    pub(crate) fn time(&self) -> u64
        ensures { result ≡ self.now.clint.mtime }
    {
        self.clint.time()
    }

    /// One tick of the timer, which counts modulo 2^64.
    pub(crate) fn tick(&mut self)
        ensures board { self.new ≡ ticked self.old }
        ensures harts { hart_count self.new ≡ hart_count self.old }
    {
        self.clint.tick();
    }

    /// Takes an input byte into the console's queue. False exactly where 16 bytes wait; then nothing
    /// changes.
    pub(crate) fn push_input(&mut self, b: u8) -> bool
        ensures taken { result ≡ nat_lt (length self.old.console.queue) queue_room }
        ensures board { self.new ≡ entered self.old b }
        ensures harts { hart_count self.new ≡ hart_count self.old }
    {
        self.console.push_input(b)
    }

    /// The core-local interruptor.
    pub(crate) fn clint(&self) -> &Clint
        ensures { result.now ≡ self.now.clint }
    {
        &self.clint
    }

    /// The interrupt controller.
    pub(crate) fn plic(&self) -> &Plic
        ensures { result.now ≡ self.now.plic }
    {
        &self.plic
    }

    /// The console.
    pub(crate) fn console(&self) -> &Console
        ensures { result.now ≡ self.now.console }
    {
        &self.console
    }

    // Loads from a block.
    fn load_in(&mut self, place: Place, size: u8) -> Result<u64, Refused>
        ensures listed { is_ok result ≡ is_listed_in (hart_count self.old) size place }
        ensures value { result_ok result ≡ loaded_in self.old size place }
        ensures left { self.new ≡ after_load_in self.old size place }
        ensures fits { IfOk result (λ v. v < 256 ^ size) }
        ensures harts { hart_count self.new ≡ hart_count self.old }
    {
        match place {
            Place::Clint(off) => self.load_clint(off, size),
            Place::Plic(off) => self.load_plic(off, size),
            Place::Console(off) => self.load_console(off, size),
            Place::Nowhere => Err(Refused),
        }
    }

    // Loads from the core-local interruptor.
    fn load_clint(&self, off: u64, size: u8) -> Result<u64, Refused>
        ensures listed { is_ok result ≡ is_listed_in (hart_count self.now) size (Place.Clint off) }
        ensures value { result_ok result ≡ loaded_in self.now size (Place.Clint off) }
        ensures fits { IfOk result (λ v. v < 256 ^ size) }
    {
        match self.clint.load(off, size) {
            Ok(v) => Ok(v),
            Err(_) => Err(Refused),
        }
    }

    // Loads from the interrupt controller.
    fn load_plic(&mut self, off: u64, size: u8) -> Result<u64, Refused>
        ensures listed { is_ok result ≡ is_listed_in (hart_count self.old) size (Place.Plic off) }
        ensures value { result_ok result ≡ loaded_in self.old size (Place.Plic off) }
        ensures left { self.new ≡ after_load_in self.old size (Place.Plic off) }
        ensures fits { IfOk result (λ v. v < 256 ^ size) }
    {
        let levels = self.console.levels();
        match self.plic.load(off, size, levels) {
            Ok(v) => Ok(v),
            Err(_) => Err(Refused),
        }
    }

    // Loads from the console.
    fn load_console(&mut self, off: u64, size: u8) -> Result<u64, Refused>
        ensures listed { is_ok result ≡ is_listed_in (hart_count self.old) size (Place.Console off) }
        ensures value { result_ok result ≡ loaded_in self.old size (Place.Console off) }
        ensures left { self.new ≡ after_load_in self.old size (Place.Console off) }
        ensures fits { IfOk result (λ v. v < 256 ^ size) }
    {
        match self.console.load(off, size) {
            Ok(v) => Ok(v),
            Err(_) => Err(Refused),
        }
    }

    // Stores to a block.
    fn store_in(
        &mut self,
        place: Place,
        size: u8,
        value: u64,
        ram: &GuestRam,
        out: &mut OutBuf,
    ) -> Result<(), Refused>
        requires { most_sent ≤ spare_of out.old }
        ensures listed { is_ok result ≡ is_listed_in (hart_count self.old) size place }
        ensures kept { self.new ≡ stored_in self.old size value place }
        ensures sent { out.new ≡ record out.old { bytes = out.old.bytes ++ sent_in ram.now self.old size value place } }
        ensures harts { hart_count self.new ≡ hart_count self.old }
    {
        match place {
            Place::Clint(off) => self.store_clint(off, size, value),
            Place::Plic(off) => self.store_plic(off, size, value),
            Place::Console(off) => self.store_console(off, size, value, ram, out),
            Place::Nowhere => Err(Refused),
        }
    }

    // Stores to the core-local interruptor.
    fn store_clint(&mut self, off: u64, size: u8, value: u64) -> Result<(), Refused>
        ensures listed { is_ok result ≡ is_listed_in (hart_count self.old) size (Place.Clint off) }
        ensures kept { self.new ≡ stored_in self.old size value (Place.Clint off) }
        ensures harts { hart_count self.new ≡ hart_count self.old }
    {
        match self.clint.store(off, size, value) {
            Ok(()) => Ok(()),
            Err(_) => Err(Refused),
        }
    }

    // Stores to the interrupt controller.
    fn store_plic(&mut self, off: u64, size: u8, value: u64) -> Result<(), Refused>
        ensures listed { is_ok result ≡ is_listed_in (hart_count self.old) size (Place.Plic off) }
        ensures kept { self.new ≡ stored_in self.old size value (Place.Plic off) }
    {
        match self.plic.store(off, size, value) {
            Ok(()) => Ok(()),
            Err(_) => Err(Refused),
        }
    }

    // Stores to the console.
    fn store_console(
        &mut self,
        off: u64,
        size: u8,
        value: u64,
        ram: &GuestRam,
        out: &mut OutBuf,
    ) -> Result<(), Refused>
        requires { most_sent ≤ spare_of out.old }
        ensures listed { is_ok result ≡ is_listed_in (hart_count self.old) size (Place.Console off) }
        ensures kept { self.new ≡ stored_in self.old size value (Place.Console off) }
        ensures sent { out.new ≡ record out.old { bytes = out.old.bytes ++ sent_in ram.now self.old size value (Place.Console off) } }
    {
        match self.console.store(off, size, value, ram, out) {
            Ok(()) => Ok(()),
            Err(_) => Err(Refused),
        }
    }
}

/// The word of the interrupts that are due: bits 3, 7, 9 and 11.
fn signals(software: bool, timer: bool, supervisor: bool, machine: bool) -> u64
    ensures value { result ≡ signal 3 software + signal 7 timer + signal 9 supervisor + signal 11 machine }
    ensures volatile { bit_and result driven_bits ≡ result }
{
    signal(3, software) + signal(7, timer) + signal(9, supervisor) + signal(11, machine)
}

/// Bit `n` alone where that interrupt is due, and else no bit.
fn signal(n: u8, due: bool) -> u64
    requires { n < 16 }
    ensures value { result ≡ signal n due }
    ensures small { result < 2 ^ 16 }
{
    if due { 1 << n } else { 0 }
}
