//! Laws of the definitions, each as the contract of a call that does nothing.

ghost use Rattle.seed_start.specs.Laws.{DrawnAreConfined, EndsBeforeData};

/// No drawn instruction writes a register but x1 to x15, nor stores but to the data behind the program and
/// to the console. So none stores to the program.
pub fn program_is_kept()
    ensures drawn { DrawnAreConfined }
    ensures apart { EndsBeforeData }
{}
