//! The console and its calls.

ghost use Rattle.std.specs.Prelude.{◌≡◌, ◌<◌, ◌≤◌, ◌^◌, ◌++◌, IfOk, is_ok, length, drop, slice_index, nat_lt};
ghost use Rattle.std.specs.Result.{result_ok};
ghost use Rattle.console.specs.State.{IsFit, entered, has_flag, input_flag, is_waiting, levels_of, loop_flag, output_flag, queue_room, reset_registers};
ghost use Rattle.console.specs.Output.{spare_of};
ghost use Rattle.console.specs.Layout.{is_listed, size_of};
ghost use Rattle.console.specs.Access.{after_load, after_reading, loaded, most_sent, sent, sent_by, sent_from, stored, value_of, written};
ghost use Rattle.guest_ram.specs.Bytes.{part_of};

use crate::control::Control;
use crate::output::OutBuf;
use crate::registers::{Register, register_at};
use bitflags::Flags;
use guest_ram::GuestRam;
use rv_alu::low_bytes;
use std::marker::Model;

/// An access to no register: none with this offset and size is listed.
#[derive(Clone, Copy, PartialEq, Eq, Debug)]
pub struct Refused;

/// The greatest length of one send out of guest memory, in bytes.
const MOST_SENT: u64 = 256;

/// The console, with a queue of at most 16 input bytes.
///
/// Contracts see it as the bytes that wait and the values of its registers, `ConsoleRegisters`, which are
/// well formed (`IsFit`).
#[derive(Drop)]
pub struct Console {
    bytes: [u8; 16],
    count: usize,
    ctrl: Control,
    txaddr: u64,
}

impl Model for Console {
    ghost use Rattle.std.specs.Prelude.{◌<◌, ◌≤◌, ◌^◌, All, take};
    ghost use Rattle.console.specs.State.{ConsoleRegisters};

    ghost Value = { ConsoleRegisters };

    ghost view = { λ c. record { queue = take c.count c.bytes; ctrl = c.ctrl.0; txaddr = c.txaddr } };

    ghost invariant = { λ c. (c.count ≤ 16) × All (λ b. b < 256) c.bytes × (c.ctrl.0 ≤ 7) × (c.txaddr < 2 ^ 64) };
}

impl Console {
    /// The console at reset: no byte waits, and ctrl and txaddr are 0.
    pub fn reset() -> Console
        ensures { result ≡ reset_registers }
    {
        Console {
            bytes: [0; 16],
            count: 0,
            ctrl: Control::of(0),
            txaddr: 0,
        }
    }

    /// The registers are well formed.
    pub fn see_fit(&self)
        ensures { IsFit self.now }
    {
        let _count = self.count;
    }

    /// The value of the register of `size` bytes at offset `off`. Reading data takes the first byte that
    /// waits.
    ///
    /// # Errors
    ///
    /// `Refused` exactly where no register with this offset and size is listed; then nothing changes.
    #[tactic(auto, unfolding(crate::specs::Access::loaded, crate::specs::Access::after_load))]
    pub fn load(&mut self, off: u64, size: u8) -> Result<u64, Refused>
        ensures listed { is_ok result ≡ is_listed off size }
        ensures value { result_ok result ≡ loaded self.old off size }
        ensures left { self.new ≡ after_load self.old off size }
        ensures fits { IfOk result (λ v. v < 256 ^ size) }
    {
        match register_at(off, size) {
            Some(register) => Ok(self.read(register)),
            None => Err(Refused),
        }
    }

    /// Writes the low `size` bytes of `value` to the register of `size` bytes at offset `off`. A byte
    /// written to data goes out, and a length of at most 256 written to txlen sends as many bytes of guest
    /// memory from txaddr on, where all of them lie there. Under loop nothing goes out, and a byte written
    /// to data comes in.
    ///
    /// # Errors
    ///
    /// `Refused` exactly where no register with this offset and size is listed; then nothing changes.
    #[tactic(auto, unfolding(crate::specs::Access::stored, crate::specs::Access::sent))]
    pub fn store(
        &mut self,
        off: u64,
        size: u8,
        value: u64,
        ram: &GuestRam,
        out: &mut OutBuf,
    ) -> Result<(), Refused>
        requires { most_sent ≤ spare_of out.old }
        ensures listed { is_ok result ≡ is_listed off size }
        ensures kept { self.new ≡ stored self.old off size value }
        ensures sent { out.new ≡ record out.old { bytes = out.old.bytes ++ sent ram.now self.old off size value } }
    {
        match register_at(off, size) {
            Some(register) => {
                let low = low_bytes(size, value);
                self.send(register, low, ram, out);
                self.write(register, low);
                Ok(())
            }
            None => Err(Refused),
        }
    }

    /// Takes an input byte into the queue. False exactly where the queue is full; then nothing changes.
    pub fn push_input(&mut self, b: u8) -> bool
        ensures taken { result ≡ nat_lt (length self.old.queue) queue_room }
        ensures queue { self.new ≡ entered self.old b }
    {
        if self.count < 16 {
            self.bytes[self.count] = b;
            self.count += 1;
            true
        } else {
            false
        }
    }

    /// The levels of the two interrupt sources: bit 1 is set where a byte waits and ctrl enables input, and
    /// bit 2 where ctrl enables output.
    pub fn levels(&self) -> u8
        ensures { result ≡ levels_of self.now }
    {
        let input = self.ctrl.contains(Control::INPUT) && self.count > 0;
        let output = self.ctrl.contains(Control::OUTPUT);
        let first = if input { 2 } else { 0 };
        let second = if output { 4 } else { 0 };
        first + second
    }

    /// How many bytes wait.
    pub fn waiting(&self) -> usize
        ensures { result ≡ length self.now.queue }
    {
        self.count
    }

    /// The byte that waits behind `i` others.
    pub fn byte(&self, i: usize) -> u8
        requires { i < length self.now.queue }
        ensures { result ≡ slice_index self.now.queue i }
    {
        self.bytes[i]
    }

    /// The register ctrl.
    pub fn ctrl(&self) -> u32
        ensures { result ≡ self.now.ctrl }
    {
        self.ctrl.bits()
    }

    /// The register txaddr, a guest address.
    pub fn txaddr(&self) -> u64
        ensures { result ≡ self.now.txaddr }
    {
        self.txaddr
    }

    // Whether what is written comes back.
    fn is_looped(&self) -> bool
        ensures { result ≡ has_flag self.now loop_flag }
    {
        self.ctrl.contains(Control::LOOP)
    }

    // The register status.
    fn status(&self) -> u64
        ensures value { result ≡ value_of self.now Register.Status }
        ensures small { result < 2 ^ 32 }
    {
        let ready = if self.count > 0 { 3 } else { 2 };
        ready + 256 * self.count as u64
    }

    // Takes the first byte that waits, or gives 0.
    fn take_byte(&mut self) -> u8
        ensures value { result ≡ slice_index self.old.queue 0 }
        ensures left { self.new ≡ record self.old { queue = drop 1 self.old.queue } }
    {
        if self.count == 0 {
            return 0;
        }
        let first = self.bytes[0];
        self.bytes.rotate_left(1);
        self.count -= 1;
        first
    }

    // Reads a register.
    fn read(&mut self, register: Register) -> u64
        ensures value { result ≡ value_of self.old register }
        ensures left { self.new ≡ after_reading self.old register }
        ensures fits { result < 256 ^ size_of register }
    {
        match register {
            Register::Data => u64::from(self.take_byte()),
            Register::Status => self.status(),
            Register::Ctrl => u64::from(self.ctrl()),
            Register::TxAddr => self.txaddr(),
            Register::TxLen => 0,
        }
    }

    // Writes `v` to a register.
    fn write(&mut self, register: Register, v: u64)
        requires { v < 256 ^ size_of register }
        ensures { self.new ≡ written self.old v register }
    {
        match register {
            Register::Data => {
                if self.is_looped() {
                    let _room = self.push_input(v as u8);
                }
            }
            Register::Ctrl => self.ctrl = Control::of(v),
            Register::TxAddr => self.txaddr = v,
            Register::Status | Register::TxLen => {}
        }
    }

    // Sends what goes out where `v` is written to a register.
    fn send(&self, register: Register, v: u64, ram: &GuestRam, out: &mut OutBuf)
        requires room { most_sent ≤ spare_of out.old }
        requires fits { v < 256 ^ size_of register }
        ensures { out.new ≡ record out.old { bytes = out.old.bytes ++ sent_by ram.now self.now v register } }
    {
        let looped = self.is_looped();
        if looped {
            return;
        }
        match register {
            Register::Data => out.push(v as u8),
            Register::TxLen => self.send_from(ram, v, out),
            Register::Status | Register::Ctrl | Register::TxAddr => {}
        }
    }

    // Sends the `n` bytes of guest memory from txaddr on.
    fn send_from(&self, ram: &GuestRam, n: u64, out: &mut OutBuf)
        requires { most_sent ≤ spare_of out.old }
        ensures { out.new ≡ record out.old { bytes = out.old.bytes ++ sent_from ram.now self.now n } }
    {
        if n <= MOST_SENT && ram.has(self.txaddr, n) {
            out.append(ram.part(self.txaddr, n));
        }
    }
}
