//! A source, a sink and files in memory, whose only error is want of memory.

ghost use Rattle.std.specs.Prelude.{◌≡◌, ◌≢◌, ◌≤◌, ◌-◌, ◌^◌, ℕ, List, [], ◌++◌, min, length, take, drop, vec_len, Option, None, Some, IfOk, IfSome, OnOk, OnErr, IsErrOf, ⊤};
ghost use Rattle.std.proofs.Math.Nat.{zero-lt-suc};
ghost use Rattle.std.specs.Option.{option_copied};
ghost use Rattle.std.specs.Io.{ReadsAtMost};
ghost use Rattle.std.specs.Io.KnownBytes.{ReadConsumes, Appends};
ghost use Rattle.outside_io.specs.declared.OutFault.TheVariants.{Failed, NoMemory};

use crate::{Files, OutFault, Sink, Source};
use std::alloc::Global;
use std::collections::BTreeMap;

/// A source of bytes in memory. Its reads never fail; giving it bytes may want memory.
#[derive(Drop)]
pub struct SureSource {
    bytes: Vec<u8>,
    at: usize,
    ghost within: { at ≤ vec_len bytes },
}

/// A sink that keeps its bytes in memory. The only error that it answers is want of memory.
#[derive(Drop)]
pub struct SureSink {
    bytes: Vec<u8>,
}

/// Files in memory. The only error that they answer is want of memory. A name that is not held reads as an
/// empty file, and an append makes it.
#[derive(Drop)]
pub struct SureFiles {
    alloc: Global,
    files: BTreeMap<String, Vec<u8>>,
}

/// Copies as many bytes from place `at` on as there is room for to the front of `buf`, and answers
/// how many.
fn copy_from(buf: &mut [u8], bytes: &[u8], at: usize) -> usize
    ensures count { result ≡ min (length buf.new) (length (drop at bytes.now)) }
    ensures front { take result buf.new ≡ take result (drop at bytes.now) }
{
    let start = at.min(bytes.len());
    let rest = &bytes[start..];
    let count = buf.len().min(rest.len());
    buf[..count].copy_from_slice(&rest[..count]);
    count
}

impl SureSource {
    ghost use Rattle.outside_io.specs.Memory.{sure_left};

    /// A source with no bytes. It takes no memory.
    pub fn new(alloc: Global) -> Self
        ensures empty { sure_left result ≡ [] }
    {
        SureSource {
            bytes: Vec::new(alloc),
            at: 0,
        }
    }

    /// Appends bytes to those still to be read. After `NoMemory` nothing has changed.
    pub fn give(&mut self, bytes: &[u8]) -> Result<(), OutFault>
        ensures ok { OnOk result (sure_left self.new ≡ sure_left self.old ++ bytes.now) }
        ensures err { OnErr result (sure_left self.new ≡ sure_left self.old) }
        ensures never_failed { IsErrOf result Failed → ⊥ }
    {
        match self.bytes.extend_from_slice(bytes) {
            Ok(()) => Ok(()),
            Err(_) => Err(OutFault::NoMemory),
        }
    }
}

impl Source for SureSource {
    ghost use Rattle.outside_io.specs.Causes.{HasCause, StaysQuiet};
    ghost use Rattle.outside_io.specs.Memory.{sure_left};

    ghost left = { λ source. Some (sure_left source) };

    ghost faults = { λ _. 0 };

    ghost quiet = { λ _. ⊤ };

    ghost can_rise = { λ _ _. zero-lt-suc (2 ^ 64 - 2) };

    /// Fills `buf` or gives all that is left.
    fn read(&mut self, buf: &mut [u8]) -> Result<usize, OutFault>
        ensures bound { ReadsAtMost result buf.new }
        ensures bytes { ReadConsumes (Some (sure_left self.old)) (Some (sure_left self.new)) result buf.new }
        ensures cause { HasCause 0 0 result }
        ensures never_failed { IsErrOf result Failed → ⊥ }
        ensures never_starved { IsErrOf result NoMemory → ⊥ }
        ensures fills { IfOk result (λ n. n ≡ min (length buf.new) (length (sure_left self.old))) }
        ensures calm { ⊤ → StaysQuiet ⊤ result }
    {
        let count = copy_from(buf, &self.bytes, self.at);
        self.at += count;
        Ok(count)
    }
}

impl SureSink {
    ghost use Rattle.outside_io.specs.Memory.{sure_bytes};

    /// A sink with no bytes. It takes no memory.
    pub fn new(alloc: Global) -> Self
        ensures empty { sure_bytes result ≡ [] }
    {
        SureSink {
            bytes: Vec::new(alloc),
        }
    }

    /// The bytes written so far.
    pub fn bytes(&self) -> &[u8]
        ensures { result.now ≡ sure_bytes self.now }
    {
        &self.bytes
    }
}

impl Sink for SureSink {
    ghost use Rattle.outside_io.specs.Causes.{HasCause, StaysQuiet};
    ghost use Rattle.outside_io.specs.Memory.{sure_bytes};

    ghost written = { λ sink. Some (sure_bytes sink) };

    ghost faults = { λ _. 0 };

    ghost quiet = { λ _. ⊤ };

    ghost can_rise = { λ _ _. zero-lt-suc (2 ^ 64 - 2) };

    /// After want of memory, its only error, nothing was appended.
    fn write(&mut self, piece: &[u8]) -> Result<(), OutFault>
        ensures whole { OnOk result (Appends (Some (sure_bytes self.old)) (Some (sure_bytes self.new)) piece.now) }
        ensures prefix { OnErr result ((n : ℕ) × (n ≤ length piece.now) × Appends (Some (sure_bytes self.old)) (Some (sure_bytes self.new)) (take n piece.now)) }
        ensures cause { HasCause 0 0 result }
        ensures never_failed { IsErrOf result Failed → ⊥ }
        ensures nothing { OnErr result (sure_bytes self.new ≡ sure_bytes self.old) }
        ensures calm { ⊤ → StaysQuiet ⊤ result }
    {
        match self.bytes.extend_from_slice(piece) {
            Ok(()) => Ok(()),
            Err(_) => Err(OutFault::NoMemory),
        }
    }
}

impl SureFiles {
    ghost use Rattle.outside_io.specs.Memory.{sure_held};

    /// No files. It takes no memory.
    pub fn new(alloc: Global) -> Self
        ensures empty { (name : List ℕ) → sure_held result name ≡ None }
    {
        SureFiles {
            alloc,
            files: BTreeMap::new(alloc),
        }
    }

    /// The bytes of the named file, and `None` exactly where the name is not held.
    pub fn bytes(&self, name: &str) -> Option<&[u8]>
        ensures { option_copied result ≡ sure_held self.now name.now }
    {
        match self.files.get(name) {
            Some(bytes) => Some(bytes.as_slice()),
            None => None,
        }
    }

    /// Holds the bytes under this name, in the place of what was there. After `NoMemory` nothing
    /// has changed.
    pub fn put(&mut self, name: &str, bytes: &[u8]) -> Result<(), OutFault>
        ensures named { OnOk result (sure_held self.new name.now ≡ Some bytes.now) }
        ensures others { (other : List ℕ) → other ≢ name.now → sure_held self.new other ≡ sure_held self.old other }
        ensures err { OnErr result ((other : List ℕ) → sure_held self.new other ≡ sure_held self.old other) }
        ensures never_failed { IsErrOf result Failed → ⊥ }
    {
        let Ok(key) = String::from_str(self.alloc, name) else {
            return Err(OutFault::NoMemory);
        };
        let Ok(content) = bytes.to_vec(self.alloc) else {
            return Err(OutFault::NoMemory);
        };
        match self.files.insert(key, content) {
            Ok(_) => Ok(()),
            Err(_) => Err(OutFault::NoMemory),
        }
    }
}

impl Files for SureFiles {
    ghost use Rattle.outside_io.specs.Causes.{HasCause, StaysQuiet};
    ghost use Rattle.outside_io.specs.Content.{IsHeld, ReadsFrom, Told, file_of, IsEmptied, MayBeEmptied, GrowsBy, GrowsByPrefix, KeepsOthers};
    ghost use Rattle.outside_io.specs.Memory.{sure_held};

    ghost held = { λ files. Some (sure_held files) };

    ghost read_faults = { λ _. 0 };

    ghost write_faults = { λ _. 0 };

    ghost quiet = { λ _. ⊤ };

    ghost can_rise = { λ _ _. (zero-lt-suc (2 ^ 64 - 2), zero-lt-suc (2 ^ 64 - 2)) };

    /// A name that is not held has the length 0.
    fn size(&mut self, name: &str) -> Result<u64, OutFault>
        ensures bytes { IfOk result (λ n. IfSome (Some (sure_held self.old)) (λ files. n ≡ length (file_of files name.now))) }
        ensures content { Told (Some (sure_held self.old)) (Some (sure_held self.new)) (λ old new. new ≡ old) }
        ensures cause { HasCause 0 0 result }
        ensures never_failed { IsErrOf result Failed → ⊥ }
        ensures never_starved { IsErrOf result NoMemory → ⊥ }
        ensures calm { ⊤ → IsHeld (Some (sure_held self.old)) name.now → StaysQuiet ⊤ result }
    {
        match self.bytes(name) {
            Some(bytes) => Ok(bytes.len() as u64),
            None => Ok(0),
        }
    }

    /// Fills `buf` or gives all of the file from `at` on, which is nothing where the name is not held.
    fn read_at(&mut self, name: &str, at: u64, buf: &mut [u8]) -> Result<usize, OutFault>
        ensures bound { ReadsAtMost result buf.new }
        ensures bytes { IfOk result (λ n. IfSome (Some (sure_held self.old)) (λ files. ReadsFrom (file_of files name.now) at n buf.new)) }
        ensures content { Told (Some (sure_held self.old)) (Some (sure_held self.new)) (λ old new. new ≡ old) }
        ensures cause { HasCause 0 0 result }
        ensures never_failed { IsErrOf result Failed → ⊥ }
        ensures never_starved { IsErrOf result NoMemory → ⊥ }
        ensures fills { IfOk result (λ n. n ≡ min (length buf.new) (length (drop at (file_of (sure_held self.old) name.now)))) }
        ensures calm { ⊤ → IsHeld (Some (sure_held self.old)) name.now → StaysQuiet ⊤ result }
    {
        match self.bytes(name) {
            Some(bytes) => Ok(copy_from(buf, bytes, at as usize)),
            None => Ok(0),
        }
    }

    /// After want of memory, its only error, nothing has changed.
    fn start(&mut self, name: &str) -> Result<(), OutFault>
        ensures named { OnOk result (Told (Some (sure_held self.old)) (Some (sure_held self.new)) (IsEmptied name.now)) }
        ensures after_error { OnErr result (Told (Some (sure_held self.old)) (Some (sure_held self.new)) (MayBeEmptied name.now)) }
        ensures others { Told (Some (sure_held self.old)) (Some (sure_held self.new)) (KeepsOthers name.now) }
        ensures cause { HasCause 0 0 result }
        ensures never_failed { IsErrOf result Failed → ⊥ }
        ensures nothing { OnErr result ((other : List ℕ) → sure_held self.new other ≡ sure_held self.old other) }
        ensures calm { ⊤ → StaysQuiet ⊤ result }
    {
        self.put(name, b"")
    }

    /// Makes a name that is not held. After want of memory, its only error, nothing has changed.
    #[tactic(auto, using(std::proofs::lemmas::Map::Text::text_keys))]
    fn append(&mut self, name: &str, piece: &[u8]) -> Result<(), OutFault>
        ensures named { OnOk result (Told (Some (sure_held self.old)) (Some (sure_held self.new)) (GrowsBy piece.now name.now)) }
        ensures after_error { OnErr result (Told (Some (sure_held self.old)) (Some (sure_held self.new)) (GrowsByPrefix piece.now name.now)) }
        ensures others { Told (Some (sure_held self.old)) (Some (sure_held self.new)) (KeepsOthers name.now) }
        ensures cause { HasCause 0 0 result }
        ensures never_failed { IsErrOf result Failed → ⊥ }
        ensures nothing { OnErr result ((other : List ℕ) → sure_held self.new other ≡ sure_held self.old other) }
        ensures calm { ⊤ → StaysQuiet ⊤ result }
    {
        let Some(content) = self.files.get_mut(name) else {
            return self.put(name, piece);
        };
        match content.extend_from_slice(piece) {
            Ok(()) => Ok(()),
            Err(_) => Err(OutFault::NoMemory),
        }
    }
}
