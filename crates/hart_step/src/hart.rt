//! The state of one hart.

ghost use Rattle.std.specs.Prelude.{◌≡◌, ◌<◌, ◌+◌, ◌&&◌, nat_lt, None, slice_index};
ghost use Rattle.hart_step.specs.DebugReset.{reset_debug_hart};
ghost use Rattle.hart_step.specs.Harts.{is_in_debug, privilege_of, reset_hart, shown_register, with_register};
ghost use Rattle.hart_step.specs.Events.{IsWritten};
ghost use Rattle.hart_step.specs.Step.{without_reservation};

use crate::done::Written;
use crate::event::Priv;
use crate::memory::ROM_BASE;
use csr_file::CsrFile;
use rv_alu::Mode;

/// One hart: its program counter, its registers x0 to x31, its mode, its control and status
/// registers, and the eight bytes of memory that it has reserved. x0 is 0.
#[derive(Drop)]
pub struct Hart {
    pub(crate) pc: u64,
    pub(crate) x: [u64; 32],
    pub(crate) mode: Mode,
    pub(crate) csrs: CsrFile,
    pub(crate) reservation: Option<u64>,
}

impl Hart {
    /// Hart number `h` at reset: in M mode at `entry`, with every register 0 and no reservation.
    pub(crate) fn at_reset(h: u8, entry: u64) -> Hart
        requires { h < 8 }
        ensures { result ≡ reset_hart h entry }
    {
        Hart {
            pc: entry,
            x: [0; 32],
            mode: Mode::M,
            csrs: CsrFile::reset(h),
            reservation: None,
        }
    }

    /// Hart number `h` at reset in debug mode: in M mode at the first byte of the boot ROM, with every
    /// register 0 and no reservation.
    pub(crate) fn at_debug_reset(h: u8) -> Hart
        requires { h < 8 }
        ensures { result ≡ reset_debug_hart h }
    {
        Hart {
            pc: ROM_BASE,
            x: [0; 32],
            mode: Mode::M,
            csrs: CsrFile::reset_debug(h),
            reservation: None,
        }
    }

    /// The address of the next instruction.
    pub fn pc(&self) -> u64
        ensures { result ≡ self.now.pc }
    {
        self.pc
    }

    /// The mode that the hart is in.
    pub fn mode(&self) -> Mode
        ensures { result ≡ self.now.mode }
    {
        self.mode
    }

    /// The value of register x`i`.
    #[inline(always)]
    pub fn x(&self, i: u8) -> u64
        requires { i < 32 }
        ensures { result ≡ slice_index self.now.x i }
    {
        self.x[i as usize]
    }

    /// The control and status registers.
    pub fn csrs(&self) -> &CsrFile
        ensures { result.now ≡ self.now.csrs }
    {
        &self.csrs
    }

    /// Whether the hart is in debug mode.
    #[inline(always)]
    pub(crate) fn is_in_debug(&self) -> bool
        ensures { result ≡ is_in_debug self.now }
    {
        self.csrs.debug().is_some()
    }

    /// The privilege that an event shows for the hart.
    #[inline(always)]
    pub(crate) fn privilege(&self) -> Priv
        ensures { result ≡ privilege_of self.now }
    {
        if self.is_in_debug() {
            return Priv::D;
        }
        match self.mode {
            Mode::U => Priv::U,
            Mode::S => Priv::S,
            Mode::M => Priv::M,
        }
    }

    /// Writes register x`rd`, and says what was written; a write to x0 is dropped.
    #[inline(always)]
    pub(crate) fn write(&mut self, rd: u8, value: u64) -> Written
        requires { rd < 32 }
        ensures hart { self.new ≡ with_register self.old rd value }
        ensures shown { result ≡ shown_register rd value }
        ensures range { IsWritten result }
    {
        if rd != 0 {
            self.x[rd as usize] = value;
        }
        Written::new(rd, value)
    }

    /// Drops the reservation where one of the `size` bytes from `at` lies in it.
    pub(crate) fn lose(&mut self, at: u64, size: u8)
        ensures { self.new ≡ without_reservation at size self.old }
    {
        if let Some(reserved) = self.reservation {
            if touches(reserved, at, size) {
                self.reservation = None;
            }
        }
    }
}

/// Whether one of the `size` bytes from `at` is among the eight from `reserved`.
fn touches(reserved: u64, at: u64, size: u8) -> bool
    ensures { result ≡ (nat_lt reserved (at + size) && nat_lt at (reserved + 8)) }
{
    if reserved < at {
        at - reserved < 8
    } else {
        reserved - at < u64::from(size)
    }
}
