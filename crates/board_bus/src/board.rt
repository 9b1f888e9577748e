//! The board: its devices, with the signals that they drive kept until one of them changes.

ghost use Rattle.std.specs.Prelude.{◌≡◌, ◌<◌, ◌≤◌, ◌^◌, ◌++◌, IfOk, bit_and, is_ok, length, nat_lt};
ghost use Rattle.std.specs.Result.{result_ok};
ghost use Rattle.console.specs.State.{queue_room};
ghost use Rattle.console.specs.Output.{spare_of};
ghost use Rattle.console.specs.Access.{most_sent};
ghost use Rattle.board_bus.specs.Board.{IsFit, after_load, driven_bits, entered, hart_count, live, loaded, reset_board, sent, stored, ticked};
ghost use Rattle.board_bus.specs.Listed.{is_listed};
ghost use Rattle.board_bus.specs.Signals.{AreSignals};

use crate::bus::{Devices, Refused};
use crate::laws::drives_four_bits;
use clint::Clint;
use console::{Console, OutBuf};
use guest_ram::GuestRam;
use plic::Plic;
use std::marker::Model;

/// All devices of a board of 1 to 8 harts.
///
/// Contracts see it as the values of their registers, `BoardState`, which are well formed (`IsFit`).
#[derive(Drop)]
pub struct Board {
    devices: Devices,
    harts: u8,
    signals: [u64; 8],
}

impl Model for Board {
    ghost use Rattle.std.specs.Prelude.{◌≡◌, ◌≤◌};
    ghost use Rattle.board_bus.specs.Board.{BoardState, hart_count};
    ghost use Rattle.board_bus.specs.Signals.{AreSignals};

    ghost Value = { BoardState };

    ghost view = { λ b. b.devices };

    ghost invariant = { λ b. (b.harts ≤ 8) × (b.harts ≡ hart_count b.devices) × AreSignals b.devices b.signals b.harts };
}

/// The signals of the first harts.
#[tactic(auto, using(crate::proofs::Kept::one_more))]
fn signals_of(devices: &Devices, harts: u8) -> [u64; 8]
    requires most { harts ≤ 8 }
    requires harts { harts ≡ hart_count devices.now }
    ensures { AreSignals devices.now result harts }
{
    let mut signals = [0u64; 8];
    for h in 0..harts {
        signals[h as usize] = devices.gathered(h);
    }
    signals
}

impl Board {
    /// All devices at reset, for this many harts: 1 to 8.
    pub fn new(harts: u8) -> Board
        requires some { 0 < harts }
        requires most { harts ≤ 8 }
        ensures value { result ≡ reset_board harts }
        ensures harts { hart_count result ≡ harts }
    {
        let devices = Devices::new(harts);
        let signals = signals_of(&devices, harts);
        Board {
            devices,
            harts,
            signals,
        }
    }

    /// The devices are well formed.
    pub fn see_fit(&self)
        ensures { IsFit self.now }
    {
        self.devices.see_fit();
    }

    /// The value of the device register of `size` bytes at the physical address `at`. Reading some
    /// registers changes them.
    ///
    /// # Errors
    ///
    /// `Refused` exactly where no register with this address and size is listed; then nothing changes.
    pub fn load(&mut self, at: u64, size: u8) -> Result<u64, Refused>
        ensures listed { is_ok result ≡ is_listed (hart_count self.old) at size }
        ensures value { result_ok result ≡ loaded self.old at size }
        ensures left { self.new ≡ after_load self.old at size }
        ensures fits { IfOk result (λ v. v < 256 ^ size) }
        ensures harts { hart_count self.new ≡ hart_count self.old }
    {
        let answer = self.devices.load(at, size);
        self.signals = signals_of(&self.devices, self.harts);
        answer
    }

    /// Writes the low `size` bytes of `value` to the device register of `size` bytes at the physical
    /// address `at`. What the console sends, out of guest memory too, is appended to `out`.
    ///
    /// # Errors
    ///
    /// `Refused` exactly where no register with this address and size is listed; then nothing changes.
    pub fn store(
        &mut self,
        at: u64,
        size: u8,
        value: u64,
        ram: &GuestRam,
        out: &mut OutBuf,
    ) -> Result<(), Refused>
        requires { most_sent ≤ spare_of out.old }
        ensures listed { is_ok result ≡ is_listed (hart_count self.old) at size }
        ensures kept { self.new ≡ stored self.old at size value }
        ensures sent { out.new ≡ record out.old { bytes = out.old.bytes ++ sent ram.now self.old at size value } }
        ensures harts { hart_count self.new ≡ hart_count self.old }
    {
        let answer = self.devices.store(at, size, value, ram, out);
        self.signals = signals_of(&self.devices, self.harts);
        answer
    }

    /// The bits of `mip` that the devices drive for hart `h`: 3 (software), 7 (timer), 9 (external, S
    /// mode) and 11 (external, M mode).
    #[inline(always)]
    pub fn live(&self, h: u8) -> u64
        requires { h < hart_count self.now }
        ensures value { result ≡ live self.now h }
        ensures volatile { bit_and result driven_bits ≡ result }
    {
        drives_four_bits();
        self.signals[h as usize]
    }

    /// The timer.
    pub fn time(&self) -> u64
        ensures { result ≡ self.now.clint.mtime }
    {
        self.devices.time()
    }

    /// One tick of the timer, which counts modulo 2^64.
    pub fn tick(&mut self)
        ensures board { self.new ≡ ticked self.old }
        ensures harts { hart_count self.new ≡ hart_count self.old }
    {
        self.devices.tick();
        self.signals = signals_of(&self.devices, self.harts);
    }

    /// Takes an input byte into the console's queue. False exactly where 16 bytes wait; then nothing
    /// changes.
    pub fn push_input(&mut self, b: u8) -> bool
        ensures taken { result ≡ nat_lt (length self.old.console.queue) queue_room }
        ensures board { self.new ≡ entered self.old b }
        ensures harts { hart_count self.new ≡ hart_count self.old }
    {
        let taken = self.devices.push_input(b);
        self.signals = signals_of(&self.devices, self.harts);
        taken
    }

    /// The core-local interruptor.
    pub fn clint(&self) -> &Clint
        ensures { result.now ≡ self.now.clint }
    {
        self.devices.clint()
    }

    /// The interrupt controller.
    pub fn plic(&self) -> &Plic
        ensures { result.now ≡ self.now.plic }
    {
        self.devices.plic()
    }

    /// The console.
    pub fn console(&self) -> &Console
        ensures { result.now ≡ self.now.console }
    {
        self.devices.console()
    }
}
