//! Laws of the definitions, each as the contract of a call that does nothing.

ghost use Rattle.cosim_check.specs.Laws.{AllowedPass, FaultsFound, FieldsTellAll, PrefixGreatest, RefusedDiffers, VerdictMeant, VerdictStays};

/// Two records that differ in no field are one record.
pub fn fields_tell_all()
    ensures { FieldsTellAll }
{}

/// Nothing is wrong with a record exactly where it is allowed.
pub fn faults_are_found()
    ensures { FaultsFound }
{}

/// The number of a verdict is that of the longest prefix of the stream whose records are all allowed.
pub fn prefix_is_greatest()
    ensures { PrefixGreatest }
{}

/// A refused record shows another value than the allowed one.
pub fn refused_differs()
    ensures { RefusedDiffers }
{}

/// What each verdict says of the records that passed and of the line after them.
pub fn verdict_means()
    ensures { VerdictMeant }
{}

/// A stream of allowed records, no more than may come, passes.
pub fn allowed_streams_pass()
    ensures { AllowedPass }
{}

/// A verdict other than `Passing` is that of every longer stream.
pub fn verdict_stays()
    ensures { VerdictStays }
{}
