//! Laws of the definitions, each as the contract of a call that does nothing.

ghost use Rattle.hart_step.specs.Laws.{DebugResetIsFit, EventsShowStores, HostStaysFit, ResetIsFit, StepsStayFit, UnreservedStaysFit};
ghost use Rattle.hart_step.specs.Told.{EffectsFollow, StepsFollow};

/// Every step of a well-formed core, where it is given what the manuals allow, leaves a well-formed
/// core of as many harts and as much RAM, and accesses a device register that there is.
pub fn steps_stay_fit()
    ensures { StepsStayFit }
{}

/// The same of a store of the host, and of a core that loses every reservation.
pub fn changes_stay_fit()
    ensures host { HostStaysFit }
    ensures unreserved { UnreservedStaysFit }
{}

/// A core at reset is well formed, and one at reset in debug mode.
pub fn reset_is_fit()
    ensures reset { ResetIsFit }
    ensures debug { DebugResetIsFit }
{}

/// What a step of a hart stored, by which other harts lose their reservations, is what its event shows.
pub fn events_show_stores()
    ensures { EventsShowStores }
{}

/// An instruction that is told what another carrying out of it showed does the same, also on a hart that
/// has a reservation where the other had none.
pub fn effects_follow()
    ensures { EffectsFollow }
{}

/// A step that is told what another one showed does the same, also on a core whose harts have
/// reservations where that one's had none.
pub fn steps_follow()
    ensures { StepsFollow }
{}
