//! Whether two commits are the same, in few instructions: nearly every record of a stream is.

ghost use Rattle.std.specs.Prelude.{◌≡◌, IsTrue};

use hart_step::{Event, Priv, Put};

fn is_same_mode(a: Priv, b: Priv) -> bool
    ensures { IsTrue result → a ≡ b }
{
    a == b
}

fn is_same_write(a: Option<(u8, u64)>, b: Option<(u8, u64)>) -> bool
    ensures { IsTrue result → a ≡ b }
{
    match a {
        Some(x) => match b {
            Some(y) => x.0 == y.0 && x.1 == y.1,
            None => false,
        },
        None => b.is_none(),
    }
}

fn is_same_store(a: Option<Put>, b: Option<Put>) -> bool
    ensures { IsTrue result → a ≡ b }
{
    match a {
        Some(x) => match b {
            Some(y) => x.at == y.at && x.size == y.size && x.value == y.value,
            None => false,
        },
        None => b.is_none(),
    }
}

fn is_same_word(a: Option<u64>, b: Option<u64>) -> bool
    ensures { IsTrue result → a ≡ b }
{
    match a {
        Some(x) => match b {
            Some(y) => x == y,
            None => false,
        },
        None => b.is_none(),
    }
}

/// Whether two records are the same commit; false says nothing.
#[inline(always)]
pub(crate) fn is_same_commit(a: &Event, b: &Event) -> bool
    ensures { IsTrue result → a.now ≡ b.now }
{
    if let Event::Commit {
        hart,
        mode,
        pc,
        insn,
        rd,
        st,
        dv,
        vl,
    } = a
    {
        if let Event::Commit {
            hart: hart2,
            mode: mode2,
            pc: pc2,
            insn: insn2,
            rd: rd2,
            st: st2,
            dv: dv2,
            vl: vl2,
        } = b
        {
            return *pc == *pc2
                && *insn == *insn2
                && *hart == *hart2
                && is_same_mode(*mode, *mode2)
                && is_same_write(*rd, *rd2)
                && is_same_store(*st, *st2)
                && is_same_word(*dv, *dv2)
                && is_same_word(*vl, *vl2);
        }
    }
    false
}
