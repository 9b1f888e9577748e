//! What follows from the definitions, each law as the contract of a call that does nothing.

ghost use Rattle.dromajo.specs.Laws.{AllowedStreamsAreDone, BegunIsFit, LaterEqual, OwnFilesAccepted, OwnTracePasses, SeedsAreDone, TurnsPlaces};

/// A machine that was loaded goes on as the machine that was saved, without its reservations, goes on.
pub fn later_equal()
    ensures { LaterEqual }
{}

/// The trace of a run holds the lines of its events, and a judging from the same beginning passes them.
#[tactic(auto, using(crate::proofs::Passed::own_trace_passes))]
pub fn own_trace_passes()
    ensures { OwnTracePasses }
{}

/// The files that a save leaves are accepted.
pub fn own_files_are_accepted()
    ensures { OwnFilesAccepted }
{}

/// A run or a save that begins at a seed is done, and what is to be saved is saved.
pub fn seeds_are_done()
    ensures { SeedsAreDone }
{}

/// A stream of allowed records is passed, and read to its end.
pub fn allowed_streams_are_done()
    ensures { AllowedStreamsAreDone }
{}

/// A machine that begins at files of bytes is well formed and runs.
pub fn begun_is_fit()
    ensures { BegunIsFit }
{}

/// A cut of a run lies before its turns, or leaves so many whole turns and a part of the next.
#[tactic(auto, using(crate::proofs::Cut::turns_places))]
pub fn turns_places()
    ensures { TurnsPlaces }
{}
