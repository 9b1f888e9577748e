//! Laws of the definitions, each as the contract of a call that does nothing.

ghost use Rattle.hart_turns.specs.FitLaws.{BoardStepsStayFit, BootsStayFit, ClearingStaysFit, DebugResetIsFit, ResetIsFit, TurnsStayFit, TurnsStayRunning};
ghost use Rattle.hart_turns.specs.Laws.{BoardIsAllowed, BootsAreLowest, BootsEnd};

/// What the board gives a step is one of the behaviours that the manuals allow.
pub fn board_is_allowed()
    ensures { BoardIsAllowed }
{}

/// In a boot it is always the lowest hart in debug mode that steps: the boot of a machine is what such
/// steps lead to, and what they lead to is its boot, with the fault that ends it or none.
pub fn boots_are_lowest()
    ensures { BootsAreLowest }
{}

/// A boot leaves no hart in debug mode where it met no fault, and some hart there where it did.
pub fn boots_end_debug()
    ensures { BootsEnd }
{}

/// Every step on the board keeps a core and a board of a shape well formed.
pub fn board_steps_stay_fit()
    ensures { BoardStepsStayFit }
{}

/// So do every turn of a machine, which leaves it running where it was, every boot and the loss of every
/// reservation; and a machine at reset is well formed, in debug mode too.
pub fn machines_stay_fit()
    ensures turns { TurnsStayFit }
    ensures running { TurnsStayRunning }
    ensures boots { BootsStayFit }
    ensures clearing { ClearingStaysFit }
    ensures reset { ResetIsFit }
    ensures debug { DebugResetIsFit }
{}
