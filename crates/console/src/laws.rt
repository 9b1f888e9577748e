//! Laws of the definitions, each as the contract of a call that does nothing.
#![tactic(auto)]

ghost use Rattle.console.specs.Laws.{SendsAtMost};

/// A store sends no more bytes than the longest send has.
pub fn sends_at_most()
    ensures { SendsAtMost }
{}
