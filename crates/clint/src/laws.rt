//! Laws of the definitions, each as the contract of a call that does nothing.
#![tactic(auto)]

ghost use Rattle.clint.specs.Laws.{KeepsHarts};

/// A store leaves the number of harts as it is.
pub fn keeps_harts()
    ensures { KeepsHarts }
{}
