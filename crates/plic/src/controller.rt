//! The controller and its calls.

ghost use Rattle.std.specs.Prelude.{◌≡◌, ◌<◌, ◌≤◌, ◌^◌, ◌*◌, ◌⊎◌, IfOk, is_ok, slice_index};
ghost use Rattle.std.specs.Result.{result_ok};
ghost use Rattle.plic.specs.State.{IsFit, context_count, reset_registers};
ghost use Rattle.plic.specs.Layout.{IsOfContext, is_listed};
ghost use Rattle.plic.specs.Claims.{IsBest, claimed, completed, is_above, is_due, is_pending, is_ready, pending_word, preferred, priority_of, with_served};
ghost use Rattle.plic.specs.Access.{after_load, after_reading, loaded, stored, value_of, written};

use crate::registers::{Register, register_at};
use rv_alu::has_bit;
use std::marker::Model;

/// An access to no register: none with this offset and size is listed.
#[derive(Clone, Copy, PartialEq, Eq, Debug)]
pub struct Refused;

/// The bits of the sources 1 and 2.
const SOURCES: u32 = 6;

/// The interrupt controller for two sources and the contexts of 1 to 8 harts: context 2h is hart h in
/// machine mode, and context 2h + 1 is hart h in supervisor mode.
///
/// Contracts see it as the values of its registers, `PlicRegisters`, which are well formed (`IsFit`).
/// Bit s of the `levels` that its calls take is set where the level of source s is high.
#[derive(Drop)]
pub struct Plic {
    contexts: u8,
    priority: [u8; 2],
    enable: [u8; 16],
    threshold: [u8; 16],
    served: u8,
}

impl Model for Plic {
    ghost use Rattle.std.specs.Prelude.{take};
    ghost use Rattle.plic.specs.State.{PlicRegisters};

    ghost Value = { PlicRegisters };

    ghost use Rattle.plic.specs.Kept.{IsKept};

    ghost view = { λ p. record { priority = p.priority; enable = take p.contexts p.enable; threshold = take p.contexts p.threshold; served = p.served } };

    ghost invariant = { λ p. IsKept p.contexts p.priority p.enable p.threshold p.served };
}

impl Plic {
    /// The controller at reset, for this many harts: 1 to 8.
    pub fn reset(harts: u8) -> Plic
        requires some { 0 < harts }
        requires most { harts ≤ 8 }
        ensures value { result ≡ reset_registers harts }
        ensures contexts { context_count result ≡ 2 * harts }
    {
        Plic {
            contexts: 2 * harts,
            priority: [0; 2],
            enable: [0; 16],
            threshold: [0; 16],
            served: 0,
        }
    }

    /// The registers are well formed.
    pub fn see_fit(&self)
        ensures { IsFit self.now }
    {
        let _served = self.served;
    }

    /// The value of the register of `size` bytes at offset `off`. Reading the register of claims is a
    /// claim.
    ///
    /// # Errors
    ///
    /// `Refused` exactly where no register with this offset and size is listed; then nothing changes.
    #[tactic(auto, unfolding(crate::specs::Access::loaded, crate::specs::Access::after_load))]
    pub fn load(&mut self, off: u64, size: u8, levels: u8) -> Result<u64, Refused>
        ensures listed { is_ok result ≡ is_listed (context_count self.old) off size }
        ensures value { result_ok result ≡ loaded self.old off size levels }
        ensures left { self.new ≡ after_load self.old off size levels }
        ensures fits { IfOk result (λ v. v < 256 ^ size) }
        ensures contexts { context_count self.new ≡ context_count self.old }
    {
        match register_at(self.contexts, off, size) {
            Some(register) => Ok(u64::from(self.read(register, levels))),
            None => Err(Refused),
        }
    }

    /// Writes the low `size` bytes of `value` to the register of `size` bytes at offset `off`. Writing
    /// the register of claims is a completion.
    ///
    /// # Errors
    ///
    /// `Refused` exactly where no register with this offset and size is listed; then nothing changes.
    #[tactic(auto, unfolding(crate::specs::Access::stored))]
    pub fn store(&mut self, off: u64, size: u8, value: u64) -> Result<(), Refused>
        ensures listed { is_ok result ≡ is_listed (context_count self.old) off size }
        ensures kept { self.new ≡ stored self.old off size value }
        ensures contexts { context_count self.new ≡ context_count self.old }
    {
        match register_at(self.contexts, off, size) {
            Some(register) => {
                self.write(register, (value % 0x1_0000_0000) as u32);
                Ok(())
            }
            None => Err(Refused),
        }
    }

    /// Takes a source for context `c`, which is then served: of the pending sources that the context
    /// enables, with a priority above 0, the one of the highest priority, and of the lowest number among
    /// these, whatever the threshold. Answers its number, or 0 for none.
    pub fn claim(&mut self, c: u8, levels: u8) -> u32
        requires { c < context_count self.old }
        ensures value { result ≡ claimed self.old c levels }
        ensures best { IsBest self.old c levels result }
        ensures left { self.new ≡ with_served result self.old }
        ensures contexts { context_count self.new ≡ context_count self.old }
        ensures source { result ≤ 2 }
    {
        let source = self.claimed(c, levels);
        self.mark_served(source);
        u32::from(source)
    }

    /// Completes source `s` for context `c`: the source is no longer served, where the context enables it.
    /// Any other completion does nothing.
    #[tactic(auto, unfolding(crate::specs::Claims::completed))]
    pub fn complete(&mut self, c: u8, s: u32)
        requires { c < context_count self.old }
        ensures left { self.new ≡ completed c s self.old }
        ensures contexts { context_count self.new ≡ context_count self.old }
    {
        match s {
            1 if has_bit(u64::from(self.enable[usize::from(c)]), 1) => self.served &= 4,
            2 if has_bit(u64::from(self.enable[usize::from(c)]), 2) => self.served &= 2,
            _ => {}
        }
    }

    /// Whether the interrupt of context `c` is due: a pending source that the context enables has a
    /// priority above the threshold.
    pub fn due(&self, c: u8, levels: u8) -> bool
        requires { c < context_count self.now }
        ensures { result ≡ is_due self.now c levels }
    {
        self.is_above(c, levels, 1) || self.is_above(c, levels, 2)
    }

    /// The priority of source `s`, which is 1 or 2.
    pub fn priority(&self, s: u8) -> u32
        requires { (s ≡ 1) ⊎ (s ≡ 2) }
        ensures { result ≡ priority_of self.now s }
    {
        u32::from(self.priority[usize::from(s - 1)])
    }

    /// The sources that context `c` enables, as bits 1 and 2.
    pub fn enabled(&self, c: u8) -> u32
        requires { c < context_count self.now }
        ensures { result ≡ slice_index self.now.enable c }
    {
        u32::from(self.enable[usize::from(c)])
    }

    /// The threshold of context `c`.
    pub fn threshold(&self, c: u8) -> u32
        requires { c < context_count self.now }
        ensures { result ≡ slice_index self.now.threshold c }
    {
        u32::from(self.threshold[usize::from(c)])
    }

    /// The sources that are served, as bits 1 and 2.
    pub fn served(&self) -> u8
        ensures { result ≡ self.now.served }
    {
        self.served
    }

    // Whether source `s` is pending.
    fn is_pending(&self, levels: u8, s: u8) -> bool
        requires { s ≤ 2 }
        ensures { result ≡ is_pending self.now levels s }
    {
        has_bit(u64::from(levels), s) && !has_bit(u64::from(self.served), s)
    }

    // Whether source `s` is pending and context `c` enables it.
    fn is_ready(&self, c: u8, levels: u8, s: u8) -> bool
        requires context { c < context_count self.now }
        requires source { s ≤ 2 }
        ensures { result ≡ is_ready self.now c levels s }
    {
        self.is_pending(levels, s) && has_bit(u64::from(self.enable[usize::from(c)]), s)
    }

    // The priority of source `s`, and 0 for source 0.
    fn priority_of(&self, s: u8) -> u8
        requires { s ≤ 2 }
        ensures { result ≡ priority_of self.now s }
    {
        if s == 0 {
            0
        } else {
            self.priority[usize::from(s - 1)]
        }
    }

    // Whether source `s` is ready for context `c`, with a priority above the threshold.
    fn is_above(&self, c: u8, levels: u8, s: u8) -> bool
        requires context { c < context_count self.now }
        requires source { s ≤ 2 }
        ensures { result ≡ is_above self.now c levels s }
    {
        self.is_ready(c, levels, s) && self.threshold[usize::from(c)] < self.priority_of(s)
    }

    // Source `s` where it is ready and has a higher priority than `best`, and else `best`.
    #[tactic(auto, unfolding(crate::specs::Claims::preferred))]
    fn preferred(&self, c: u8, levels: u8, best: u8, s: u8) -> u8
        requires context { c < context_count self.now }
        requires best { best ≤ 2 }
        requires source { s ≤ 2 }
        ensures value { result ≡ preferred self.now c levels best s }
        ensures source { result ≤ 2 }
    {
        if self.is_ready(c, levels, s) && self.priority_of(best) < self.priority_of(s) {
            s
        } else {
            best
        }
    }

    // The source that a claim of context `c` takes, or 0.
    #[tactic(auto, unfolding(crate::specs::Claims::claimed))]
    fn claimed(&self, c: u8, levels: u8) -> u8
        requires { c < context_count self.now }
        ensures value { result ≡ claimed self.now c levels }
        ensures source { result ≤ 2 }
    {
        let best = self.preferred(c, levels, 0, 1);
        self.preferred(c, levels, best, 2)
    }

    // Marks source `s` served, and nothing for 0.
    #[tactic(auto, unfolding(crate::specs::Claims::with_served))]
    fn mark_served(&mut self, s: u8)
        requires { s ≤ 2 }
        ensures left { self.new ≡ with_served s self.old }
        ensures contexts { context_count self.new ≡ context_count self.old }
    {
        match s {
            1 => self.served |= 2,
            2 => self.served |= 4,
            _ => {}
        }
    }

    // The pending sources, as bits 1 and 2.
    fn pending(&self, levels: u8) -> u32
        ensures value { result ≡ pending_word self.now levels }
        ensures small { result ≤ 6 }
    {
        let first = if self.is_pending(levels, 1) { 2 } else { 0 };
        let second = if self.is_pending(levels, 2) { 4 } else { 0 };
        first + second
    }

    // Reads a register.
    fn read(&mut self, register: Register, levels: u8) -> u32
        requires { IsOfContext (context_count self.old) register }
        ensures value { result ≡ value_of self.old levels register }
        ensures left { self.new ≡ after_reading self.old levels register }
        ensures contexts { context_count self.new ≡ context_count self.old }
    {
        match register {
            Register::Priority(s) => self.priority(s),
            Register::Pending => self.pending(levels),
            Register::Enable(c) => self.enabled(c),
            Register::Threshold(c) => self.threshold(c),
            Register::Claim(c) => self.claim(c, levels),
        }
    }

    // Writes `v` to a register.
    fn write(&mut self, register: Register, v: u32)
        requires { IsOfContext (context_count self.old) register }
        ensures value { self.new ≡ written self.old v register }
        ensures contexts { context_count self.new ≡ context_count self.old }
    {
        match register {
            Register::Priority(s) => self.priority[usize::from(s - 1)] = (v % 8) as u8,
            Register::Pending => {}
            Register::Enable(c) => self.enable[c as usize] = (v & SOURCES) as u8,
            Register::Threshold(c) => self.threshold[c as usize] = (v % 8) as u8,
            Register::Claim(c) => self.complete(c, v),
        }
    }
}
