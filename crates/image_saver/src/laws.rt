//! A law of the definitions, as the contract of a call that does nothing.

ghost use Rattle.image_saver.specs.Laws.{SavedIsLoaded};

/// The files that a save leaves are the checkpoint of the machine and its boot ROM, where the machine
/// is well formed, has taken at most 1,000,000,000,000 input bytes, and the ROM has at most 131,072.
#[tactic(auto, using(crate::proofs::LoadBack::saved_is_loaded))]
pub fn saved_is_loaded()
    ensures { SavedIsLoaded }
{}
