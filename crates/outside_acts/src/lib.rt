//! All that is outside of a job as one object: files, input and console.
//!
//! What a job does to them is a list of acts (specs/Acts.antt): reading so many bytes of the input, sending bytes
//! to the console, making a file and adding to one. Each call of [`Outside`] that writes says which acts it did, or,
//! where it stopped, which front of them, and `read` says which bytes it took; so a whole job is said by one list, and what it leaves by how far it came.
#![tactic(auto)]

ghost use Rattle.std.specs.Prelude.{◌≡◌, ◌∷◌, [], IfErr, IsSome, OnOk};
ghost use Rattle.std.specs.Io.{ReadsAtMost};
ghost use Rattle.std.specs.Io.KnownBytes.{ReadConsumes};
ghost use Rattle.outside_io.specs.Content.{IsHeld};
ghost use Rattle.outside_acts.specs.declared.Stop.TheVariants as stop;
ghost use Rattle.outside_acts.specs.Acts.{Append, Send, Start};
ghost use Rattle.outside_acts.specs.Calls.{Caused, Does, GoesQuietly, Only, OnlyRead, Stops};
ghost use Rattle.outside_acts.specs.World.{Console, TheInput, World, Writing};

mod objects;

pub use objects::Objects;

/// Why a job stops before its end: no other object of a job can fail.
#[derive(Clone, Copy, PartialEq, Eq, Debug)]
pub enum Stop {
    /// The input failed.
    Input,
    /// The console failed.
    Out,
    /// A file could not be started or added to.
    Files,
    /// There was no memory.
    NoMemory,
}

/// The files, the input and the console of a job.
pub trait Outside {
    /// What is told of them, with their counts of faults.
    ghost world: { Self → World };

    /// Whether they are known to fail at no call, now and later; files at no `start`, and at no other call on a
    /// name that they hold.
    ghost quiet: { Self → Type 0 };

    /// Puts the next bytes of the input into the front of `buf` and answers how many. Zero for a buffer that is
    /// not empty means the end of the input. After a stop nothing was taken.
    fn read(&mut self, buf: &mut [u8]) -> Result<usize, Stop>
        ensures bound { ReadsAtMost result buf.new }
        ensures bytes { ReadConsumes (world self.old).left (world self.new).left result buf.new }
        ensures rest { OnlyRead (world self.old) (world self.new) }
        ensures failed { IfErr result (λ why. why ≡ stop.Input) }
        ensures cause { Caused (Only TheInput) result (world self.old) (world self.new) }
        ensures calm { quiet self.old → GoesQuietly (quiet self.new) result };

    /// Sends bytes to the console.
    fn send(&mut self, piece: &[u8]) -> Result<(), Stop>
        ensures whole { OnOk result (Does (Send piece.now ∷ []) (world self.old) (world self.new)) }
        ensures cut { IfErr result (λ why. Stops why (Send piece.now ∷ []) (world self.old) (world self.new)) }
        ensures cause { Caused (Only Console) result (world self.old) (world self.new) }
        ensures calm { quiet self.old → GoesQuietly (quiet self.new) result };

    /// Makes the named file and empties it.
    fn start(&mut self, name: &str) -> Result<(), Stop>
        ensures done { OnOk result (Does (Start name.now ∷ []) (world self.old) (world self.new)) }
        ensures cut { IfErr result (λ why. Stops why (Start name.now ∷ []) (world self.old) (world self.new)) }
        ensures there { OnOk result (IsSome (world self.old).held → IsHeld (world self.new).held name.now) }
        ensures cause { Caused (Only Writing) result (world self.old) (world self.new) }
        ensures calm { quiet self.old → GoesQuietly (quiet self.new) result };

    /// Adds the whole piece at the end of the named file. Over quiet objects it does not fail where the file is held.
    fn append(&mut self, name: &str, piece: &[u8]) -> Result<(), Stop>
        ensures done { OnOk result (Does (Append name.now piece.now ∷ []) (world self.old) (world self.new)) }
        ensures cut { IfErr result (λ why. Stops why (Append name.now piece.now ∷ []) (world self.old) (world self.new)) }
        ensures cause { Caused (Only Writing) result (world self.old) (world self.new) }
        ensures calm { quiet self.old → IsHeld (world self.old).held name.now → GoesQuietly (quiet self.new) result };
}
