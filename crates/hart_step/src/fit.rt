//! What the types of a hart's parts say of it: calls that do nothing, whose clauses are facts.

ghost use Rattle.std.specs.Prelude.{◌<◌, ◌^◌, All, IfSome};
ghost use Rattle.hart_step.specs.Fit.{AreBytes, IsWellFormed};
ghost use Rattle.hart_step.specs.Harts.{IsFitHart};

use crate::hart::Hart;

/// A word is below 2^64.
#[inline(always)]
fn see_word(word: u64)
    ensures { word < 2 ^ 64 }
{}

/// So is the place of a reservation.
#[inline(always)]
fn see_place(place: Option<u64>)
    ensures { IfSome place (λ at. at < 2 ^ 64) }
{
    if let Some(at) = place {
        see_word(at);
    }
}

/// And each word of a list.
#[inline(always)]
fn see_words(words: &[u64])
    ensures { All (λ v. v < 2 ^ 64) words.now }
{}

/// A byte is below 256.
#[inline(always)]
pub(crate) fn see_bytes(bytes: &[u8])
    ensures { AreBytes bytes.now }
{}

/// A hart that keeps what is asked of every hart is well formed.
#[inline(always)]
pub(crate) fn see_hart(hart: &Hart)
    requires { IsFitHart hart.now }
    ensures { IsWellFormed hart.now }
{
    see_word(hart.pc);
    see_place(hart.reservation);
    see_words(&hart.x);
    let _debug = hart.csrs.debug();
}
