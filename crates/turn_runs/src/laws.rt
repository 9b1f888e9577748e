//! What follows from the definitions of a run, each law as the contract of a call that does nothing.

ghost use Rattle.std.specs.Prelude.{List, ℕ};
ghost use Rattle.hart_turns.specs.Machine.{MachineState};
ghost use Rattle.outside_acts.specs.declared.Stop.{Stop};
ghost use Rattle.outside_acts.specs.Acts.{Act, IsCut};
ghost use Rattle.turn_runs.specs.Leaves.{InputCutsAreLeast, RunLeaves};
ghost use Rattle.job_words.specs.Job.{Logs};
ghost use Rattle.turn_runs.specs.Run.{run};
ghost use Rattle.turn_runs.specs.Windowless.{WindowlessRunsGoOn};

/// A cut of a run's acts leaves k whole turns, none of which ended, and of the next one a part.
pub fn cut_in_turn()
    ensures { (stop : Stop) (logs : Logs) (bytes : List ℕ) (from : ℕ) (m : MachineState) (turns : ℕ)
        (front : List Act) →
        IsCut stop from (run logs bytes m turns).acts front → RunLeaves stop logs bytes from m turns front }
{}

/// A run whose input failed made k whole turns, none of which ended it. Where no fewer bytes were read before it than
/// its machine had taken, those read in all are exactly those taken, and k is the least number of turns after which so
/// many were.
pub fn input_cuts_are_least()
    ensures { InputCutsAreLeast }
{}

/// No turn ends a run of a machine without a host window.
#[tactic(auto, using(crate::proofs::Windowless::windowless_runs_go_on))]
pub fn windowless_runs_go_on()
    ensures { WindowlessRunsGoOn }
{}
