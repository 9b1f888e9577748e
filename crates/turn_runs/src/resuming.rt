//! A machine takes up its run.

ghost use Rattle.std.specs.Prelude.{◌≡◌, ℕ, List, IfErr, IsFalse, None, OnOk, Some};
ghost use Rattle.outside_acts.specs.Acts.{DidCut};
ghost use Rattle.outside_acts.specs.Calls.{Caused, GoesQuietly};
ghost use Rattle.turn_runs.specs.Resuming.{HasResumed, resume_acts, resume_uses};

use crate::feed::Feed;
use crate::turns::show;
use hart_turns::Machine;
use outside_acts::{Outside, Stop};

/// Sends the console bytes that a machine's boot left, and passes over as many bytes of the input as
/// the machine has taken, or over all that there are. Nothing was read of the input. A machine at
/// reset has nothing to send and has taken nothing, so that nothing is done.
///
/// # Errors
///
/// What failed: the console or the input; or `NoMemory`.
pub fn resume<W: Outside>(machine: &Machine, feed: &mut Feed, outside: &mut W) -> Result<(), Stop>
    requires fresh { feed.old.byte ≡ None }
    requires begun { IsFalse feed.old.ended }
    ensures resumed { OnOk result ((bytes : List ℕ) → (W.world outside.old).left ≡ Some bytes →
        HasResumed bytes machine.now.console machine.now.machine.taken feed.new
        (W.world outside.old) (W.world outside.new)) }
    ensures cut { IfErr result (λ stop. (bytes : List ℕ) → (W.world outside.old).left ≡ Some bytes →
        DidCut stop bytes 0 (resume_acts machine.now.console machine.now.machine.taken)
        (W.world outside.old) (W.world outside.new)) }
    ensures cause { Caused resume_uses result (W.world outside.old) (W.world outside.new) }
    ensures calm { W.quiet outside.old → GoesQuietly (W.quiet outside.new) result }
{
    match show(machine, outside) {
        Ok(()) => {}
        Err(stop) => return Err(stop),
    }
    feed.pass_over(machine.taken(), outside)
}
