//! The block and its calls.

ghost use Rattle.std.specs.Prelude.{◌≡◌, ◌<◌, ◌≤◌, ◌^◌, IfOk, is_ok};
ghost use Rattle.std.specs.Result.{result_ok};
ghost use Rattle.clint.specs.State.{IsFit, hart_count, is_soft_due, is_timer_due, reset_registers, ticked};
ghost use Rattle.clint.specs.Layout.{IsOfHart, is_listed, size_of};
ghost use Rattle.clint.specs.Access.{loaded, stored, value_of, written};

use crate::registers::{Register, register_at};
use rv_alu::low_bytes;
use std::marker::Model;

/// An access to no register: none with this offset and size is listed.
#[derive(Clone, Copy, PartialEq, Eq, Debug)]
pub struct Refused;

/// The timer and the software interrupts of 1 to 8 harts.
///
/// Contracts see it as the values of its registers, `ClintRegisters`, which are well formed (`IsFit`).
#[derive(Drop)]
pub struct Clint {
    harts: u8,
    msip: [u64; 8],
    mtimecmp: [u64; 8],
    mtime: u64,
}

impl Model for Clint {
    ghost use Rattle.std.specs.Prelude.{◌<◌, ◌≤◌, ◌^◌, All, take};
    ghost use Rattle.clint.specs.State.{ClintRegisters};

    ghost Value = { ClintRegisters };

    ghost view = { λ c. record { msip = take c.harts c.msip; mtimecmp = take c.harts c.mtimecmp; mtime = c.mtime } };

    ghost invariant = { λ c. (0 < c.harts) × (c.harts ≤ 8) × All (λ x. x ≤ 1) c.msip × All (λ x. x < 2 ^ 64) c.mtimecmp × (c.mtime < 2 ^ 64) };
}

impl Clint {
    /// The block at reset, for this many harts: 1 to 8.
    pub fn reset(harts: u8) -> Clint
        requires some { 0 < harts }
        requires most { harts ≤ 8 }
        ensures value { result ≡ reset_registers harts }
        ensures harts { hart_count result ≡ harts }
    {
        Clint {
            harts,
            msip: [0; 8],
            mtimecmp: [u64::MAX; 8],
            mtime: 0,
        }
    }

    /// The registers are well formed.
    pub fn see_fit(&self)
        ensures { IsFit self.now }
    {
        let _mtime = self.mtime;
    }

    /// The value of the register of `size` bytes at offset `off`.
    ///
    /// # Errors
    ///
    /// `Refused` exactly where no register with this offset and size is listed.
    #[tactic(auto, unfolding(crate::specs::Access::loaded))]
    pub fn load(&self, off: u64, size: u8) -> Result<u64, Refused>
        ensures listed { is_ok result ≡ is_listed (hart_count self.now) off size }
        ensures value { result_ok result ≡ loaded self.now off size }
        ensures fits { IfOk result (λ v. v < 256 ^ size) }
    {
        match register_at(self.harts, off, size) {
            Some(register) => Ok(self.value_of(register)),
            None => Err(Refused),
        }
    }

    /// Writes the low `size` bytes of `value` to the register of `size` bytes at offset `off`.
    ///
    /// # Errors
    ///
    /// `Refused` exactly where no register with this offset and size is listed; then nothing changes.
    #[tactic(auto, unfolding(crate::specs::Access::stored))]
    pub fn store(&mut self, off: u64, size: u8, value: u64) -> Result<(), Refused>
        ensures listed { is_ok result ≡ is_listed (hart_count self.old) off size }
        ensures kept { self.new ≡ stored self.old off size value }
        ensures harts { hart_count self.new ≡ hart_count self.old }
    {
        match register_at(self.harts, off, size) {
            Some(register) => {
                self.write(register, low_bytes(size, value));
                Ok(())
            }
            None => Err(Refused),
        }
    }

    // The value of a register.
    fn value_of(&self, register: Register) -> u64
        requires { IsOfHart (hart_count self.now) register }
        ensures value { result ≡ value_of self.now register }
        ensures fits { result < 256 ^ size_of register }
    {
        match register {
            Register::Msip(h) => self.msip[h as usize],
            Register::Mtimecmp(h) => self.mtimecmp[h as usize],
            Register::Mtime => self.time(),
        }
    }

    // Writes `v` to a register.
    fn write(&mut self, register: Register, v: u64)
        requires { IsOfHart (hart_count self.old) register }
        ensures value { self.new ≡ written self.old v register }
        ensures harts { hart_count self.new ≡ hart_count self.old }
    {
        match register {
            Register::Msip(h) => self.msip[h as usize] = v % 2,
            Register::Mtimecmp(h) => self.mtimecmp[h as usize] = v,
            Register::Mtime => self.mtime = v,
        }
    }

    /// One tick of the timer: `mtime` counts modulo 2^64.
    pub fn tick(&mut self)
        ensures { self.new ≡ ticked self.old }
    {
        self.mtime = self.mtime.wrapping_add(1);
    }

    /// The timer, `mtime`.
    pub fn time(&self) -> u64
        ensures { result ≡ self.now.mtime }
    {
        self.mtime
    }

    /// Whether the timer interrupt of hart `h` is due: `mtime` is at least its `mtimecmp`.
    pub fn timer_due(&self, h: u8) -> bool
        requires { h < hart_count self.now }
        ensures { result ≡ is_timer_due self.now h }
    {
        self.mtime >= self.mtimecmp[usize::from(h)]
    }

    /// Whether the software interrupt of hart `h` is due: bit 0 of its `msip` is set.
    pub fn soft_due(&self, h: u8) -> bool
        requires { h < hart_count self.now }
        ensures { result ≡ is_soft_due self.now h }
    {
        self.msip[usize::from(h)] == 1
    }
}
