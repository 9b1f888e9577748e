//! What a step asks of its surroundings.

ghost use Rattle.std.specs.Prelude.{ℕ, List, IfSome, IsTrue, ◌≡◌, ◌<◌, ◌^◌, ◌*◌};
ghost use Rattle.csr_file.specs.View.{IsGiven};
ghost use Rattle.guest_ram.specs.Bytes.{IsSize};
ghost use Rattle.trap_rules.specs.Interrupt.{may_be_taken};
ghost use Rattle.hart_step.specs.Answers.{Access, Loads, Says, Stores};

use csr_file::CsrFile;
use guest_ram::GuestRam;
use rv_alu::Mode;

/// What answers a step's questions: the board, or a judge that follows another core.
///
/// A step makes at most one device call, and only to a device register that there is: no call asks
/// so of its caller, the law `steps_stay_fit` says it of every step. Asking for anything else leaves
/// every answer of the step as it was.
pub trait Answers {
    /// Whether a hart can make a step now.
    ghost ready: { Self → ℕ → Type 0 };

    /// What is said to a hart.
    ghost says: { Self → ℕ → Says };

    /// What a hart's device access makes of the value, with the memory of that moment, of which a load
    /// sees nothing.
    ghost after: { Self → ℕ → List ℕ → Access → Self };

    /// The interrupt that hart `hart` takes now, in `mode` with the registers `csrs`; none where it
    /// takes none. It may be taken.
    fn interrupt(&mut self, hart: u8, csrs: &CsrFile, mode: Mode) -> Option<u8>
        requires ready { ready self.old hart }
        ensures answer { result ≡ (says self.old hart).interrupt csrs.now mode }
        ensures permitted { IfSome result (λ cause. IsTrue (may_be_taken csrs.now mode cause)) }
        ensures same { self.new ≡ self.old };

    /// Loads the `size` bytes of the device register at `at`.
    fn device_load(&mut self, hart: u8, at: u64, size: u8) -> u64
        requires ready { ready self.old hart }
        requires size { IsSize size }
        ensures answer { result ≡ (says self.old hart).device at size }
        ensures fits { result < 2 ^ (8 * size) }
        ensures after { (ram : List ℕ) → self.new ≡ after self.old hart ram (Loads at size) };

    /// Stores the low `size` bytes of `value` to the device register at `at`. A device may read
    /// `ram`, as one that sends a part of it does.
    fn device_store(&mut self, hart: u8, at: u64, size: u8, value: u64, ram: &GuestRam)
        requires ready { ready self.old hart }
        requires size { IsSize size }
        ensures { self.new ≡ after self.old hart ram.now (Stores at size value) };

    /// What the volatile register `num` of hart `hart` reads as now. It has no bit outside the
    /// register's volatile bits.
    fn volatile(&mut self, hart: u8, num: u16, csrs: &CsrFile) -> u64
        requires ready { ready self.old hart }
        ensures answer { result ≡ (says self.old hart).volatile num csrs.now }
        ensures within { IsGiven num result }
        ensures same { self.new ≡ self.old };

    /// Whether a store-conditional of hart `hart`, which has a reservation of its bytes, succeeds.
    fn sc_may_win(&mut self, hart: u8) -> bool
        requires ready { ready self.old hart }
        ensures answer { result ≡ (says self.old hart).may_win }
        ensures same { self.new ≡ self.old };
}
