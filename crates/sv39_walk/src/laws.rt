//! Laws of the definitions, each as the contract of a call that does nothing.

ghost use Rattle.sv39_walk.specs.Laws.{KeepsAgreement, NoFaultBeside, OneAddress, OneFault, ReckonsAddress, ReckonsFault, StoreDiffers};

/// An access goes to one physical address at most, and then it does not fault; else it faults in one
/// way at most.
pub fn one_address()
    ensures address { OneAddress }
    ensures address_or_fault { NoFaultBeside }
    ensures fault { OneFault }
{}

/// The plain reckoning of `specs/Plain.antt` gives the address to which an access goes, and the fault
/// where it goes nowhere.
pub fn plain_reckoning()
    ensures address { ReckonsAddress }
    ensures fault { ReckonsFault }
{}

/// A walker that agreed with a memory and was told of a store agrees with every memory that the store
/// can have left.
pub fn agrees_kept()
    ensures kept { KeepsAgreement }
    ensures store { StoreDiffers }
{}
