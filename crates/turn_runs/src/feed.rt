//! The console's input, byte by byte.

ghost use Rattle.std.specs.Prelude.{◌≡◌, ℕ, List, IfErr, IsFalse, None, OnOk, Some, if◌then◌else◌};
ghost use Rattle.outside_acts.specs.Acts.{DidCut};
ghost use Rattle.outside_acts.specs.Calls.{Caused, GoesQuietly, Only};
ghost use Rattle.outside_acts.specs.World.{TheInput};
ghost use Rattle.turn_runs.specs.Feeding.{Fills, HasPassed, IsFedFrom, ReadsNothing, pass_acts};

use outside_acts::{Outside, Stop};

/// How much of the input is passed over by one call.
const PIECE: usize = 4096;

/// The byte that was read and is offered to each turn until one takes it, and whether the input has
/// ended.
#[derive(Drop)]
pub struct Feed {
    /// The byte, where there is one.
    pub byte: Option<u8>,
    /// The input has no more.
    pub ended: bool,
}

impl Feed {
    /// Nothing was read yet.
    pub fn new() -> Feed
        ensures byte { result.byte ≡ None }
        ensures begun { IsFalse result.ended }
        ensures fed { (bytes : List ℕ) → IsFedFrom bytes 0 0 result (Some bytes) }
    {
        Feed {
            byte: None,
            ended: false,
        }
    }

    /// Passes over so many bytes of an input of which none was read, or over all that it has.
    ///
    /// # Errors
    ///
    /// The input failed.
    pub fn pass_over<W: Outside>(&mut self, count: u64, outside: &mut W) -> Result<(), Stop>
        requires fresh { self.old.byte ≡ None }
        requires begun { IsFalse self.old.ended }
        ensures passed { OnOk result ((bytes : List ℕ) → (W.world outside.old).left ≡ Some bytes →
            HasPassed bytes count self.new (W.world outside.old) (W.world outside.new)) }
        ensures cut { IfErr result (λ stop. (bytes : List ℕ) → (W.world outside.old).left ≡ Some bytes →
            DidCut stop bytes 0 (pass_acts count) (W.world outside.old) (W.world outside.new)) }
        ensures cause { Caused (Only TheInput) result (W.world outside.old) (W.world outside.new) }
        ensures calm { W.quiet outside.old → GoesQuietly (W.quiet outside.new) result }
    {
        let mut passed = 0;
        let mut buffer = [0u8; PIECE];
        while passed < count && !self.ended {
            let left = count - passed;
            let size = if left < PIECE as u64 {
                left as usize
            } else {
                PIECE
            };
            match outside.read(&mut buffer[..size]) {
                Ok(0) => self.ended = true,
                Ok(got) => passed += got as u64,
                Err(stop) => return Err(stop),
            }
        }
        Ok(())
    }

    /// Reads one byte where there is none and the input has not ended.
    pub(crate) fn fill<W: Outside>(&mut self, outside: &mut W) -> Result<(), Stop>
        ensures filled { OnOk result (Fills self.old self.new (W.world outside.old) (W.world outside.new)) }
        ensures unread { IfErr result (λ stop.
            ReadsNothing stop self.old (W.world outside.old) (W.world outside.new)) }
        ensures cause { Caused (Only TheInput) result (W.world outside.old) (W.world outside.new) }
        ensures calm { W.quiet outside.old → GoesQuietly (W.quiet outside.new) result }
    {
        if self.byte.is_some() || self.ended {
            return Ok(());
        }
        let mut buffer = [0u8];
        match outside.read(&mut buffer) {
            Ok(0) => self.ended = true,
            Ok(_) => self.byte = Some(buffer[0]),
            Err(stop) => return Err(stop),
        }
        Ok(())
    }

    /// After a turn that took the byte, or did not.
    pub(crate) fn offered(&mut self, was_taken: bool)
        ensures byte { self.new.byte ≡ (if was_taken then None else self.old.byte) }
        ensures ended { self.new.ended ≡ self.old.ended }
    {
        if was_taken {
            self.byte = None;
        }
    }
}
