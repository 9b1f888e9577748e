//! The registers of a hart as one value, all of whose kept values are legal.

ghost use Rattle.std.specs.Prelude.{◌≡◌, ◌≢◌, ◌<◌, ℕ, Some, None, not, is_ok, OnOk, IsTrue, IsFalse, IsNone};
ghost use Rattle.csr_file.specs.Numbers.{is_debug_number, is_read_only};
ghost use Rattle.csr_file.specs.Legal.{keeps_value, legal};
ghost use Rattle.csr_file.specs.Kept.{IsFit, kept_value, reset_debug_registers, reset_registers};
ghost use Rattle.csr_file.specs.View.{IsGiven, base, is_volatile_number, view, volatile_bits};
ghost use Rattle.csr_file.specs.Write.{changed_register, written};
ghost use Rattle.csr_file.specs.Access.{is_present, may_access};
ghost use Rattle.csr_file.specs.Count.{counted};

use crate::legal::legal_value;
use crate::registers::{DebugRegs, Registers};
use crate::view::{bits_given, has_volatile_bits};
use rv_alu::Mode;
use std::marker::Model;

/// An access to a register that raises an illegal-instruction exception.
#[derive(Clone, Copy, PartialEq, Eq, Debug)]
pub struct Illegal;

/// The control and status registers of one hart. Contracts see them as a `Registers`, each of whose
/// values is one that the register can keep (`IsFit`).
#[derive(Drop)]
pub struct CsrFile {
    registers: Registers,
}

impl Model for CsrFile {
    ghost use Rattle.csr_file.specs.declared.registers.Registers.{Registers};
    ghost use Rattle.csr_file.specs.Kept.{IsFit};

    ghost Value = { Registers };

    ghost view = { λ f. f.registers };

    ghost invariant = { λ f. IsFit f.registers };
}

impl CsrFile {
    /// The registers at reset of hart number `hart`, out of debug mode.
    pub fn reset(hart: u8) -> CsrFile
        requires { hart < 8 }
        ensures { result ≡ reset_registers hart }
    {
        CsrFile {
            registers: Registers::reset(hart),
        }
    }

    /// The same of a hart that comes out of reset in debug mode: `dcsr` says machine mode, and the
    /// other debug registers are 0.
    pub fn reset_debug(hart: u8) -> CsrFile
        requires { hart < 8 }
        ensures { result ≡ record (reset_registers hart) { debug = Some reset_debug_registers } }
    {
        CsrFile {
            registers: Registers::reset_debug(hart),
        }
    }

    /// The debug registers, which are there in debug mode alone.
    pub fn debug(&self) -> Option<DebugRegs>
        ensures value { result ≡ self.now.debug }
        ensures fit { IsFit self.now }
    {
        self.registers.debug
    }

    /// Removes the debug registers, as the hart leaves debug mode.
    pub fn leave_debug(&mut self)
        ensures { self.new ≡ record self.old { debug = None } }
    {
        self.registers.debug = None;
    }

    /// Whether an instruction in `mode` may access register `num`, by reading it, or also by writing it
    /// where `write` says so. Debug mode counts as machine mode.
    ///
    /// # Errors
    ///
    /// `Illegal` exactly where it may not.
    pub fn may(&self, num: u16, mode: Mode, write: bool) -> Result<(), Illegal>
        ensures allowed { is_ok result ≡ may_access self.now mode num write }
        ensures present { OnOk result (IsTrue (is_present self.now num)) }
        ensures writable { OnOk result (IsTrue write → IsFalse (is_read_only num)) }
    {
        if self.registers.may(num, mode, write) {
            Ok(())
        } else {
            Err(Illegal)
        }
    }

    /// Whether what is read of register `num` depends on a given word: true for `cycle`, `time`,
    /// `mcycle`, `mip` and `sip`.
    pub fn is_volatile(num: u16) -> bool
        ensures { result ≡ is_volatile_number num }
    {
        has_volatile_bits(num)
    }

    /// The bits of register `num` that are read from the given word, and 0 for one that is not volatile.
    pub fn volatile_mask(num: u16) -> u64
        ensures { result ≡ volatile_bits num }
    {
        bits_given(num)
    }

    /// The value that an instruction reads of register `num`, where its volatile bits are `given`.
    pub fn get(&self, num: u16, given: u64) -> u64
        requires present { IsTrue (is_present self.now num) }
        requires within { IsGiven num given }
        ensures value { result ≡ view self.now num given }
        ensures fit { IsFit self.now }
    {
        self.registers.view(num, given)
    }

    /// The value in which CSRRS and CSRRC set and clear bits: what is read, but of `mip` and `sip` the
    /// software bits alone.
    pub fn base(&self, num: u16, given: u64) -> u64
        requires present { IsTrue (is_present self.now num) }
        requires within { IsGiven num given }
        ensures { result ≡ base self.now num given }
    {
        self.registers.base(num, given)
    }

    /// Writes `v` to register `num`, which keeps a legal value. A write to a view changes the register
    /// that it shows, and every other register stays.
    pub fn set(&mut self, num: u16, v: u64)
        requires present { IsTrue (is_present self.old num) }
        requires writable { IsFalse (is_read_only num) }
        ensures value { self.new ≡ written num v self.old }
        ensures others { (other : ℕ) → other ≢ changed_register num → kept_value other self.new ≡ kept_value other self.old }
    {
        self.registers.write(num, v);
    }

    /// The value that register `num` keeps, where it kept `old` and `v` is written.
    pub fn legal(num: u16, old: u64, v: u64) -> u64
        requires { IsTrue (keeps_value num) }
        ensures { result ≡ legal num old v }
    {
        legal_value(num, old, v)
    }

    /// The value that register `num` keeps, whatever an instruction would read.
    pub fn kept(&self, num: u16) -> u64
        requires keeps { IsTrue (keeps_value num) }
        requires not_debug { IsFalse (is_debug_number num) }
        ensures value { result ≡ kept_value num self.now }
        ensures fit { IsFit self.now }
    {
        self.registers.kept(num)
    }

    /// Counts a step: `mcycle` adds 1, and `minstret` where the step retired an instruction, but a counter
    /// that the step wrote (`wrote`) keeps what was written. Both wrap at 64 bits.
    pub fn count(&mut self, retired: bool, wrote: Option<u16>)
        requires { IsNone self.old.debug }
        ensures { self.new ≡ counted retired wrote self.old }
    {
        self.registers.count(retired, wrote);
    }
}
