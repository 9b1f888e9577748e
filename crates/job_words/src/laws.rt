//! What the walk over the words finds, and examples of words and the jobs that they name, as the contracts of calls
//! that do nothing.
#![tactic(auto, unfolding(crate::specs::CommandLine::number_in))]

ghost use Rattle.std.specs.Prelude.{◌≡◌, [], ◌∷◌, None, Some, codes};
ghost use Rattle.job_words.specs.CommandLine.{job_of};
ghost use Rattle.job_words.specs.Job.{FromConfig, Judge, Save};
ghost use Rattle.job_words.specs.Laws.{FindsGiven, FindsNone};

/// The walk finds what is given exactly where the words are pairs of an allowed name and its value, and no name stands
/// twice.
pub fn finds_given()
    ensures given { FindsGiven }
    ensures none { FindsNone }
{}

/// No turns follow a save where `--more` is not given, and its names may come in any order.
pub fn saves_at_the_end()
    ensures { job_of (codes "save" ∷ codes "--name" ∷ codes "at" ∷ codes "--config" ∷ codes "board"
        ∷ codes "--turns" ∷ codes "12" ∷ [])
        ≡ Some (record { begin = FromConfig (codes "board"); work = Save 12 (codes "at") 0 }) }
{}

/// The words of a judging have no turns.
pub fn judges_no_turns()
    ensures judged { job_of (codes "cosim" ∷ codes "--config" ∷ codes "board" ∷ [])
        ≡ Some (record { begin = FromConfig (codes "board"); work = Judge }) }
    ensures none { job_of (codes "cosim" ∷ codes "--config" ∷ codes "board" ∷ codes "--turns" ∷ codes "12" ∷ [])
        ≡ None }
{}
