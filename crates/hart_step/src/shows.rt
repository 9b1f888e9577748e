//! Where a step shows what it did.

ghost use Rattle.std.specs.Prelude.{◌≡◌, None, Some};
ghost use Rattle.hart_step.specs.declared.event.Event.{Event as EventOf};
ghost use Rattle.hart_step.specs.declared.event.Event.TheVariants.{Commit, Exception, Interrupt};
ghost use Rattle.hart_step.specs.Events.{IsWritten};

use crate::done::Written;
use crate::event::{Event, Priv, Put};

/// A place where a step shows its event. An event is given by its parts, so that none is made where no one
/// sees it, and none is made twice.
pub(crate) trait Shows {
    /// That the place shows this event.
    ghost shows: { Self → EventOf → Type 0 };

    /// Shows a commit that has a register at the most.
    fn register(&mut self, number: u8, privilege: Priv, at: u64, word: u32, written: Written)
        requires { IsWritten written }
        ensures { shows self.new (Commit number privilege at word written None None None) };

    /// Shows a commit that stored something.
    fn store(&mut self, number: u8, privilege: Priv, at: u64, word: u32, written: Written, put: Put)
        requires { IsWritten written }
        ensures { shows self.new (Commit number privilege at word written (Some put) None None) };

    /// Shows a commit that has what a device answered or what a volatile register read as.
    fn access(
        &mut self,
        number: u8,
        privilege: Priv,
        at: u64,
        word: u32,
        written: Written,
        answered: Option<u64>,
        seen: Option<u64>,
    )
        requires { IsWritten written }
        ensures { shows self.new (Commit number privilege at word written None answered seen) };

    /// Shows an exception.
    fn exception(&mut self, number: u8, privilege: Priv, at: u64, why: u8, value: u64)
        ensures { shows self.new (Exception number privilege at why value) };

    /// Shows an interrupt.
    fn interrupt(&mut self, number: u8, why: u8)
        ensures { shows self.new (Interrupt number why) };
}

/// An event is kept, in the place of another one.
impl Shows for Event {
    ghost shows = { λ place event. place ≡ event };

    /// Field by field where the other one is a commit too.
    #[inline(always)]
    fn register(&mut self, number: u8, privilege: Priv, at: u64, word: u32, written: Written) {
        if let Event::Commit {
            hart,
            mode,
            pc,
            insn,
            rd,
            st,
            dv,
            vl,
        } = self
        {
            *hart = number;
            *mode = privilege;
            *pc = at;
            *insn = word;
            written.show(rd);
            *st = None;
            *dv = None;
            *vl = None;
            return;
        }
        *self = Event::Commit {
            hart: number,
            mode: privilege,
            pc: at,
            insn: word,
            rd: written.shown(),
            st: None,
            dv: None,
            vl: None,
        };
    }

    #[inline(always)]
    fn store(
        &mut self,
        number: u8,
        privilege: Priv,
        at: u64,
        word: u32,
        written: Written,
        put: Put,
    ) {
        *self = Event::Commit {
            hart: number,
            mode: privilege,
            pc: at,
            insn: word,
            rd: written.shown(),
            st: Some(put),
            dv: None,
            vl: None,
        };
    }

    #[inline(always)]
    fn access(
        &mut self,
        number: u8,
        privilege: Priv,
        at: u64,
        word: u32,
        written: Written,
        answered: Option<u64>,
        seen: Option<u64>,
    ) {
        *self = Event::Commit {
            hart: number,
            mode: privilege,
            pc: at,
            insn: word,
            rd: written.shown(),
            st: None,
            dv: answered,
            vl: seen,
        };
    }

    #[inline(always)]
    fn exception(&mut self, number: u8, privilege: Priv, at: u64, why: u8, value: u64) {
        *self = Event::Exception {
            hart: number,
            mode: privilege,
            pc: at,
            cause: why,
            tval: value,
        };
    }

    #[inline(always)]
    fn interrupt(&mut self, number: u8, why: u8) {
        *self = Event::Interrupt {
            hart: number,
            cause: why,
        };
    }
}

/// No place: nobody sees the event of a step.
#[derive(Drop)]
pub(crate) struct Unseen {}

impl Shows for Unseen {
    ghost shows = { λ place event. Unit {0} };

    #[inline(always)]
    fn register(
        &mut self,
        _number: u8,
        _privilege: Priv,
        _at: u64,
        _word: u32,
        _written: Written,
    ) {}

    #[inline(always)]
    fn store(
        &mut self,
        _number: u8,
        _privilege: Priv,
        _at: u64,
        _word: u32,
        _written: Written,
        _put: Put,
    ) {}

    #[inline(always)]
    fn access(
        &mut self,
        _number: u8,
        _privilege: Priv,
        _at: u64,
        _word: u32,
        _written: Written,
        _answered: Option<u64>,
        _seen: Option<u64>,
    ) {}

    #[inline(always)]
    fn exception(&mut self, _number: u8, _privilege: Priv, _at: u64, _why: u8, _value: u64) {}

    #[inline(always)]
    fn interrupt(&mut self, _number: u8, _why: u8) {}
}
