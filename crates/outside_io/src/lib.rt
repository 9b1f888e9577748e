//! The outside of the program: where bytes come from, where they go, and files.
//!
//! Each trait has a meaning that may be told or not (the bytes that are left, the bytes written,
//! what each file holds) and a count of faults, which is one more after each call that fails. So code
//! that is generic over a trait cannot make up a fault, pass one over, or try a call that failed again, without
//! its count telling. An object may also say that it is quiet: it is known to fail at no call, and its
//! counts stand below their last value, so that no count of a quiet object is said to have risen. The
//! objects in memory tell all, those of the `Mem` kinds failing at the calls that are listed, and those
//! of the `Sure` kinds at none; the adapters over the standard library tell what the standard library
//! tells of them, and are never quiet.
#![tactic(auto)]

ghost use Rattle.std.specs.Prelude.{◌≡◌, ◌≤◌, ℕ, List, length, take, Option, IfOk, IfSome, OnOk, OnErr, IsErrOf};
ghost use Rattle.std.specs.Io.{ReadsAtMost};
ghost use Rattle.std.specs.Io.KnownBytes.{ReadConsumes, Appends};
ghost use Rattle.outside_io.specs.declared.OutFault.TheVariants.{Failed, NoMemory};
ghost use Rattle.outside_io.specs.Causes.{CanRise, HasCause, StaysQuiet};
ghost use Rattle.outside_io.specs.Content.{Held, IsHeld, Told, ReadsFrom, file_of, IsEmptied, MayBeEmptied, GrowsBy, GrowsByPrefix, KeepsOthers};

mod adapters;
mod calls;
mod memory;
mod streams;
mod sure;

pub use adapters::{DirFiles, StdSink, StdSource};
pub use memory::{MemFiles, MemSink, MemSource};
pub use sure::{SureFiles, SureSink, SureSource};

/// Why a call of the outside gave up.
#[derive(Clone, Copy, Debug, PartialEq, Eq)]
pub enum OutFault {
    /// The object outside failed, and has counted it.
    Failed,
    /// There was no memory; no count rose.
    NoMemory,
}

/// A source of bytes, such as standard input.
pub trait Source {
    /// The bytes still to be read, where the source tells them.
    ghost left: { Self → Option (List ℕ) };

    /// How often the source has failed; it stays at 2^64 - 1.
    ghost faults: { Self → ℕ };

    /// Whether the source is known to fail at no call, now and later, and its count stands below its
    /// last value (`can_rise`). One that does not tell is never quiet.
    ghost quiet: { Self → Type 0 };

    /// Puts the next bytes into the front of `buf` and answers how many. Zero for a buffer that is
    /// not empty means the end of the input. After a fault nothing was taken. The only error is
    /// `Failed`.
    fn read(&mut self, buf: &mut [u8]) -> Result<usize, OutFault>
        ensures bound { ReadsAtMost result buf.new }
        ensures bytes { ReadConsumes (left self.old) (left self.new) result buf.new }
        ensures cause { HasCause (faults self.old) (faults self.new) result }
        ensures never_starved { IsErrOf result NoMemory → ⊥ }
        ensures calm { quiet self.old → StaysQuiet (quiet self.new) result };

    /// The count of a quiet source can still rise.
    ghost can_rise: { (source : Self) → quiet source → CanRise (faults source) };
}

/// A place that bytes are written to, such as standard output.
pub trait Sink {
    /// The bytes written so far, where the sink tells them.
    ghost written: { Self → Option (List ℕ) };

    /// How often the sink has failed; it stays at 2^64 - 1.
    ghost faults: { Self → ℕ };

    /// Whether the sink is known to fail at no call, now and later, and its count stands below its
    /// last value (`can_rise`). One that does not tell is never quiet.
    ghost quiet: { Self → Type 0 };

    /// Appends the whole piece. After an error a prefix of the piece was appended. The errors are
    /// `Failed`, and `NoMemory` of a sink that keeps its bytes in memory.
    fn write(&mut self, piece: &[u8]) -> Result<(), OutFault>
        ensures whole { OnOk result (Appends (written self.old) (written self.new) piece.now) }
        ensures prefix { OnErr result ((n : ℕ) × (n ≤ length piece.now) × Appends (written self.old) (written self.new) (take n piece.now)) }
        ensures cause { HasCause (faults self.old) (faults self.new) result }
        ensures calm { quiet self.old → StaysQuiet (quiet self.new) result };

    /// The count of a quiet sink can still rise.
    ghost can_rise: { (sink : Self) → quiet sink → CanRise (faults sink) };
}

/// Files by name, such as those of the file system. Reading changes no file, and writing changes no
/// file of another name. A name that is held stays held, also after a fault.
pub trait Files {
    /// From a name's bytes to what the file of that name holds (`None` where there is none), where
    /// the object tells it.
    ghost held: { Self → Option Held };

    /// How often a `size` or a `read_at` has failed; it stays at 2^64 - 1.
    ghost read_faults: { Self → ℕ };

    /// How often a `start` or an `append` has failed; it stays at 2^64 - 1.
    ghost write_faults: { Self → ℕ };

    /// Whether the files are known to fail at no `start` and at no other call on a name that is held,
    /// now and later, and their counts stand below their last value (`can_rise`). Files that do not
    /// tell are never quiet.
    ghost quiet: { Self → Type 0 };

    /// The length of the named file in bytes. The only error is `Failed`.
    fn size(&mut self, name: &str) -> Result<u64, OutFault>
        ensures bytes { IfOk result (λ n. IfSome (held self.old) (λ files. n ≡ length (file_of files name.now))) }
        ensures content { Told (held self.old) (held self.new) (λ old new. new ≡ old) }
        ensures cause { HasCause (read_faults self.old) (read_faults self.new) result }
        ensures other_count { write_faults self.new ≡ write_faults self.old }
        ensures never_starved { IsErrOf result NoMemory → ⊥ }
        ensures calm { quiet self.old → IsHeld (held self.old) name.now → StaysQuiet (quiet self.new) result };

    /// Puts bytes of the named file, from place `at` on, into the front of `buf` and answers how
    /// many. Zero for a buffer that is not empty means that the file ends at or before `at`. The
    /// only error is `Failed`.
    fn read_at(&mut self, name: &str, at: u64, buf: &mut [u8]) -> Result<usize, OutFault>
        ensures bound { ReadsAtMost result buf.new }
        ensures bytes { IfOk result (λ n. IfSome (held self.old) (λ files. ReadsFrom (file_of files name.now) at n buf.new)) }
        ensures content { Told (held self.old) (held self.new) (λ old new. new ≡ old) }
        ensures cause { HasCause (read_faults self.old) (read_faults self.new) result }
        ensures other_count { write_faults self.new ≡ write_faults self.old }
        ensures never_starved { IsErrOf result NoMemory → ⊥ }
        ensures calm { quiet self.old → IsHeld (held self.old) name.now → StaysQuiet (quiet self.new) result };

    /// Makes the named file and empties it. After an error it is as before or empty. The errors are
    /// `Failed`, and `NoMemory` of files that are kept in memory.
    fn start(&mut self, name: &str) -> Result<(), OutFault>
        ensures named { OnOk result (Told (held self.old) (held self.new) (IsEmptied name.now)) }
        ensures after_error { OnErr result (Told (held self.old) (held self.new) (MayBeEmptied name.now)) }
        ensures others { Told (held self.old) (held self.new) (KeepsOthers name.now) }
        ensures cause { HasCause (write_faults self.old) (write_faults self.new) result }
        ensures other_count { read_faults self.new ≡ read_faults self.old }
        ensures calm { quiet self.old → StaysQuiet (quiet self.new) result };

    /// Adds the whole piece at the end of the named file. After an error a prefix of the piece was
    /// added. Files may make a name that is not held, or fail. The errors are `Failed`, and
    /// `NoMemory` of files that are kept in memory.
    fn append(&mut self, name: &str, piece: &[u8]) -> Result<(), OutFault>
        ensures named { OnOk result (Told (held self.old) (held self.new) (GrowsBy piece.now name.now)) }
        ensures after_error { OnErr result (Told (held self.old) (held self.new) (GrowsByPrefix piece.now name.now)) }
        ensures others { Told (held self.old) (held self.new) (KeepsOthers name.now) }
        ensures cause { HasCause (write_faults self.old) (write_faults self.new) result }
        ensures other_count { read_faults self.new ≡ read_faults self.old }
        ensures calm { quiet self.old → IsHeld (held self.old) name.now → StaysQuiet (quiet self.new) result };

    /// The counts of quiet files can still rise.
    ghost can_rise: { (files : Self) → quiet files → CanRise (read_faults files) × CanRise (write_faults files) };
}

#[cfg(test)]
mod tests;
