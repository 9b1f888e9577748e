//! A stream is read and judged.

ghost use Rattle.std.specs.Prelude.{◌≡◌, ℕ, List, IfErr, IfOk, IsTrue, Some, is_none};
ghost use Rattle.cosim_check.specs.Standing.{HasWindow};
ghost use Rattle.hart_step.specs.Harts.{lowest_in_debug};
ghost use Rattle.outside_acts.specs.Calls.{Caused, GoesQuietly, Only};
ghost use Rattle.outside_acts.specs.World.{TheInput};
ghost use Rattle.stream_judge.specs.Judging.{IsJudged, JudgingStops};

use cosim_check::{Judge, Verdict};
use hart_step::Core;
use outside_acts::{Outside, Stop};

/// The most records of one stream.
pub const MOST_RECORDS: u64 = 1_000_000_000;

/// How much of the stream is read by one call.
const PIECE: usize = 4096;

/// Judges the input, of which nothing was read, as the commit stream of another core. The stream begins with this core,
/// no hart of which is in debug mode; `tohost` is the address of the host window, a multiple of 8 whose 8 bytes lie in
/// memory, or 0 where there is none. A verdict other than `Passing` is answered as soon as it is found, and no more is
/// read.
///
/// # Errors
///
/// The input failed before a verdict was found.
pub fn judge_input<W: Outside>(core: Core, tohost: u64, outside: &mut W) -> Result<Verdict, Stop>
    requires window { HasWindow tohost core.ram }
    requires running { IsTrue (is_none (lowest_in_debug core)) }
    ensures judged { IfOk result (λ verdict. (bytes : List ℕ) → (W.world outside.old).left ≡ Some bytes →
        IsJudged core tohost bytes verdict (W.world outside.old) (W.world outside.new)) }
    ensures cut { IfErr result (λ stop. (bytes : List ℕ) → (W.world outside.old).left ≡ Some bytes →
        JudgingStops stop core tohost bytes (W.world outside.old) (W.world outside.new)) }
    ensures cause { Caused (Only TheInput) result (W.world outside.old) (W.world outside.new) }
    ensures calm { W.quiet outside.old → GoesQuietly (W.quiet outside.new) result }
{
    let mut judge = Judge::new(core, tohost, MOST_RECORDS);
    let mut buffer = [0u8; PIECE];
    'pieces: loop {
        let count = match outside.read(&mut buffer) {
            Ok(count) => count,
            Err(stop) => return Err(stop),
        };
        if count == 0 {
            return Ok(judge.finish());
        }
        match judge.feed(&buffer[..count]) {
            Verdict::Passing(_) => {}
            verdict => return Ok(verdict),
        }
    }
}
