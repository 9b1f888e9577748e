//! What an instruction shows of itself.

ghost use Rattle.std.specs.Prelude.{◌≡◌, ◌<◌, None, Some};
ghost use Rattle.guest_ram.specs.Bytes.{IsSize};
ghost use Rattle.hart_step.specs.declared.event.Event.TheVariants.{Commit};
ghost use Rattle.hart_step.specs.Events.{IsDone, IsEvent, IsWritten};
ghost use Rattle.hart_step.specs.Harts.{shown_register};

use crate::event::{Priv, Put};
use crate::shows::Shows;
use std::marker::Model;

/// The register that an instruction wrote with its new value, and x0 where it wrote none. The number is a
/// word, so that no gap is copied with it.
///
/// Contracts see it as an event shows it: none, or a number and a value.
#[derive(Drop)]
pub(crate) struct Written {
    number: u64,
    value: u64,
}

impl Model for Written {
    ghost use Rattle.std.specs.Prelude.{ℕ, Option};
    ghost use Rattle.hart_step.specs.Harts.{shown_register};

    ghost Value = { Option (ℕ × ℕ) };

    ghost view = { λ w. shown_register w.number w.value };
}

impl Written {
    /// No register.
    #[inline(always)]
    pub(crate) fn none() -> Written
        ensures { result ≡ None }
    {
        Written {
            number: 0,
            value: 0,
        }
    }

    /// Register x`rd`, or none for x0.
    #[inline(always)]
    pub(crate) fn new(rd: u8, value: u64) -> Written
        ensures { result ≡ shown_register rd value }
    {
        Written {
            number: u64::from(rd),
            value,
        }
    }

    /// The same as an event shows it.
    #[inline(always)]
    pub(crate) fn shown(self) -> Option<(u8, u64)>
        requires { IsWritten self }
        ensures { result ≡ self }
    {
        if self.number == 0 {
            None
        } else {
            Some((self.number as u8, self.value))
        }
    }

    /// Writes the same where an event shows it.
    #[inline(always)]
    pub(crate) fn show(self, rd: &mut Option<(u8, u64)>)
        requires { IsWritten self }
        ensures { rd.new ≡ self }
    {
        if self.number == 0 {
            *rd = None;
        } else {
            *rd = Some((self.number as u8, self.value));
        }
    }
}

/// Bytes stored, as contracts see a `Put`. The size is a word, so that no gap is copied with it.
#[derive(Drop)]
pub(crate) struct Stored {
    at: u64,
    size: u64,
    value: u64,
}

impl Model for Stored {
    ghost use Rattle.hart_step.specs.declared.event.Put.{Put};

    ghost Value = { Put };

    ghost view = { λ s. record { at = s.at; size = s.size; value = s.value } };
}

impl Stored {
    /// So many bytes stored at an address, with this value.
    #[inline(always)]
    pub(crate) fn new(at: u64, size: u8, value: u64) -> Stored
        ensures { result ≡ record { at = at; size = size; value = value } }
    {
        Stored {
            at,
            size: u64::from(size),
            value,
        }
    }

    /// The same as an event shows it.
    #[inline]
    pub(crate) fn put(self) -> Put
        requires { IsSize self.size }
        ensures { result ≡ self }
    {
        Put {
            at: self.at,
            size: self.size as u8,
            value: self.value,
        }
    }
}

/// What the event of an instruction shows, and the control and status register that it wrote. Contracts see
/// it as a record of these five.
#[derive(Drop)]
pub(crate) struct Done {
    kind: DoneKind,
}

/// The same by what there is beside the register: nothing with most instructions, and a way of their own to
/// the event is what makes them fast.
#[derive(Drop)]
enum DoneKind {
    /// Nothing more.
    Register(Written),
    /// What was stored.
    Store(Written, Stored),
    /// What a device answered, what a volatile register read as, and the register that was written.
    Access {
        rd: Written,
        dv: Option<u64>,
        vl: Option<u64>,
        wrote: Option<u16>,
    },
}

impl Model for Done {
    ghost use Rattle.hart_step.specs.Done.{Done as Did, done_of};

    ghost Value = { Did };

    ghost view = { λ d. done_of d.kind };
}

impl Done {
    /// A register at the most is shown.
    #[inline(always)]
    pub(crate) fn plain(rd: Written) -> Done
        ensures { result ≡ record { rd = rd; st = None; dv = None; vl = None; wrote = None } }
    {
        Done {
            kind: DoneKind::Register(rd),
        }
    }

    /// A register at the most, and what was stored.
    #[inline(always)]
    pub(crate) fn stored(rd: Written, st: Stored) -> Done
        ensures { result ≡ record { rd = rd; st = Some st; dv = None; vl = None; wrote = None } }
    {
        Done {
            kind: DoneKind::Store(rd, st),
        }
    }

    /// A register at the most, and what a device answered.
    #[inline(always)]
    pub(crate) fn answered(rd: Written, word: u64) -> Done
        ensures { result ≡ record { rd = rd; st = None; dv = Some word; vl = None; wrote = None } }
    {
        Done {
            kind: DoneKind::Access {
                rd,
                dv: Some(word),
                vl: None,
                wrote: None,
            },
        }
    }

    /// A register at the most, what a volatile register read as, and the register that was written.
    #[inline(always)]
    pub(crate) fn accessed(rd: Written, vl: Option<u64>, wrote: Option<u16>) -> Done
        ensures { result ≡ record { rd = rd; st = None; dv = None; vl = vl; wrote = wrote } }
    {
        Done {
            kind: DoneKind::Access {
                rd,
                dv: None,
                vl,
                wrote,
            },
        }
    }

    /// Shows the commit of the word `insn`, and gives the control and status register that was written, and
    /// what was stored.
    #[inline(always)]
    pub(crate) fn show<S: Shows>(
        self,
        place: &mut S,
        hart: u8,
        mode: Priv,
        pc: u64,
        insn: u32,
    ) -> (Option<u16>, Option<Put>)
        requires number { hart < 8 }
        requires formed { IsDone self }
        ensures shown { S.shows place.new (Commit hart mode pc insn self.rd self.st self.dv self.vl) }
        ensures formed { IsEvent (Commit hart mode pc insn self.rd self.st self.dv self.vl) }
        ensures wrote { result.0 ≡ self.wrote }
        ensures stored { result.1 ≡ self.st }
    {
        match self.kind {
            DoneKind::Register(rd) => {
                place.register(hart, mode, pc, insn, rd);
                (None, None)
            }
            DoneKind::Store(rd, st) => {
                let put = st.put();
                place.store(hart, mode, pc, insn, rd, put);
                (None, Some(put))
            }
            DoneKind::Access { rd, dv, vl, wrote } => {
                place.access(hart, mode, pc, insn, rd, dv, vl);
                (wrote, None)
            }
        }
    }
}
