//! One line.

ghost use Rattle.std.specs.Prelude.{◌≡◌, ◌+◌, ◌<◌, ◌^◌, IfSome, IsNone, length};
ghost use Rattle.commit_log.specs.Column.{IsColumn};
ghost use Rattle.cosim_check.specs.Standing.{HasWindow};
ghost use Rattle.cosim_check.specs.Verdicts.{Found, IsFinal, Passed, after_line};

use crate::record::judge_record;
use crate::verdict::Verdict;
use commit_log::read;
use hart_step::{Core, Event};

/// Judges line `n`, and moves the core past it where it passes.
pub(crate) fn judge_line(
    core: &mut Core,
    tohost: u64,
    n: u64,
    line: &[u8],
    shown: &mut Event,
) -> Option<Verdict>
    requires window { HasWindow tohost core.old.ram }
    requires short { length line.now < 2 ^ 16 }
    ensures found { IfSome result (λ v. after_line tohost line.now (Passed core.old n) ≡ Found v) }
    ensures last { IfSome result IsFinal }
    ensures past { IsNone result → after_line tohost line.now (Passed core.old n) ≡ Passed core.new (n + 1) }
    ensures ram { length core.new.ram ≡ length core.old.ram }
{
    match read(line) {
        Err(fault) => Some(Verdict::BadLine {
            n,
            column: fault.column,
        }),
        Ok(e) => match judge_record(core, tohost, &e, shown) {
            None => None,
            Some(fault) => Some(Verdict::Disallowed {
                n,
                field: fault.field,
                allowed: fault.allowed,
                given: fault.given,
            }),
        },
    }
}

/// The column of a line that is too long to be a record's, from its first 255 bytes.
pub(crate) fn long_column(front: &[u8]) -> u16
    requires { length front.now ≡ 255 }
    ensures { IsColumn front.now result }
{
    match read(front) {
        Err(fault) => fault.column,
        Ok(_) => 0,
    }
}
