//! Laws of the definitions, each as the contract of a call that does nothing.

ghost use Rattle.checkpoint_run.specs.Laws.{AfterIsWhole, EarlyCutsAreCuts, LogsChangeNothing, MoreEqual, RunsKeep, SaveCases, SavePlaces, SavedIsRestored, UnsavedPlaces};

/// A run on an input of bytes keeps a machine well formed and running.
pub fn runs_keep()
    ensures { RunsKeep }
{}

/// Logs change nothing of a run but the files that they are written to.
pub fn logs_change_nothing()
    ensures { LogsChangeNothing }
{}

/// The files that a save leaves are a checkpoint whose boot leads to exactly the machine that was saved, without its
/// reservations.
pub fn saved_is_restored()
    ensures { SavedIsRestored }
{}

/// The turns after a save send what a run of the saved machine without its reservations sends, and end as it ends.
pub fn more_equal()
    ensures { MoreEqual }
{}

/// On an input of bytes, a run that was cut in its turns before the save is a cut run that saves, or one that ended.
pub fn early_cuts_are_cuts()
    ensures { EarlyCutsAreCuts }
{}

/// What a cut leaves of the three files: none is touched, or the file of the meta text is empty, or image and boot
/// ROM are whole and the meta text's file has a front of its text.
pub fn save_cases()
    ensures { SaveCases }
{}

/// A cut lies in the turns before the checkpoint, which leave the three files as they were, in the checkpoint, or in the
/// turns after it.
pub fn save_places()
    ensures { SavePlaces }
{}

/// A cut in the turns after the checkpoint leaves it whole: what the files hold then is a checkpoint whose boot leads to
/// exactly the machine that was saved, without its reservations.
pub fn after_is_whole()
    ensures { AfterIsWhole }
{}

/// Where nothing was saved, a cut lies in one of the turns, and leaves the three files as they were.
pub fn unsaved_places()
    ensures { UnsavedPlaces }
{}
