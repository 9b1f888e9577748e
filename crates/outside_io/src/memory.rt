//! A source, a sink and files in memory, which fail at the calls that are listed.

ghost use Rattle.std.specs.Prelude.{◌≡◌, ◌≢◌, ◌≤◌, ◌↔◌, ◌⊎◌, ℕ, List, [], ◌∷◌, ◌++◌, min, length, take, drop, vec_len, Contains, Option, None, Some, IfOk, IfSome, IsSome, IsNone, OnOk, OnErr, IsErrOf};
ghost use Rattle.std.specs.Option.{option_copied};
ghost use Rattle.std.specs.Io.{ReadsAtMost};
ghost use Rattle.std.specs.Io.KnownBytes.{ReadConsumes, Appends};
ghost use Rattle.outside_io.specs.declared.OutFault.TheVariants.{Failed, NoMemory};

use crate::calls::{Calls, count_fault};
use crate::{Files, OutFault, Sink, Source, SureFiles, SureSink, SureSource};
use std::alloc::Global;

/// A source of bytes in memory. Its calls are numbered from 1, and those that are listed fail.
#[derive(Drop)]
pub struct MemSource {
    source: SureSource,
    calls: Calls,
    faults: u64,
}

/// A sink that keeps its bytes in memory. Its calls are numbered from 1, and those that are listed
/// fail.
#[derive(Drop)]
pub struct MemSink {
    sink: SureSink,
    calls: Calls,
    faults: u64,
}

/// Files in memory. Their calls are numbered from 1, and those that are listed fail.
#[derive(Drop)]
pub struct MemFiles {
    files: SureFiles,
    calls: Calls,
    pub(crate) read_faults: u64,
    pub(crate) write_faults: u64,
}

impl MemSource {
    ghost use Rattle.outside_io.specs.Calls.{AreFresh, Lists};
    ghost use Rattle.outside_io.specs.Memory.{source_left, source_calls, source_faults, source_quiet};

    /// A source with no bytes, and no call that is to fail. It takes no memory.
    pub fn new(alloc: Global) -> Self
        ensures empty { source_left result ≡ [] }
        ensures calls { AreFresh (source_calls result) }
        ensures count { source_faults result ≡ 0 }
        ensures quiet { source_quiet result }
    {
        MemSource {
            source: SureSource::new(alloc),
            calls: Calls::new(alloc),
            faults: 0,
        }
    }

    /// Appends bytes to those still to be read. After `NoMemory` nothing has changed.
    pub fn give(&mut self, bytes: &[u8]) -> Result<(), OutFault>
        ensures ok { OnOk result (source_left self.new ≡ source_left self.old ++ bytes.now) }
        ensures err { OnErr result (source_left self.new ≡ source_left self.old) }
        ensures never_failed { IsErrOf result Failed → ⊥ }
        ensures calls { source_calls self.new ≡ source_calls self.old }
        ensures count { source_faults self.new ≡ source_faults self.old }
    {
        self.source.give(bytes)
    }

    /// Lists the number of one more call that is to fail. After `NoMemory` nothing has changed.
    pub fn fail_at(&mut self, call: u64) -> Result<(), OutFault>
        ensures ok { OnOk result (Lists (source_calls self.old) (source_calls self.new) (call ∷ [])) }
        ensures err { OnErr result (Lists (source_calls self.old) (source_calls self.new) []) }
        ensures never_failed { IsErrOf result Failed → ⊥ }
        ensures bytes { source_left self.new ≡ source_left self.old }
        ensures count { source_faults self.new ≡ source_faults self.old }
    {
        self.calls.fail_at(call)
    }
}

impl Source for MemSource {
    ghost use Rattle.outside_io.specs.Causes.{HasCause, StaysQuiet};
    ghost use Rattle.outside_io.specs.Calls.{IsToFail, OneMore};
    ghost use Rattle.outside_io.specs.Memory.{source_left, source_calls, source_faults, source_quiet};

    ghost left = { λ source. Some (source_left source) };

    ghost faults = { source_faults };

    ghost quiet = { source_quiet };

    ghost can_rise = { λ source quiet. quiet.1 };

    /// Fails exactly where the call's number is listed; else it fills `buf` or gives all that is
    /// left.
    fn read(&mut self, buf: &mut [u8]) -> Result<usize, OutFault>
        ensures bound { ReadsAtMost result buf.new }
        ensures bytes { ReadConsumes (Some (source_left self.old)) (Some (source_left self.new)) result buf.new }
        ensures cause { HasCause (source_faults self.old) (source_faults self.new) result }
        ensures never_starved { IsErrOf result NoMemory → ⊥ }
        ensures fails { IsErrOf result Failed ↔ IsToFail (source_calls self.old) }
        ensures fills { IfOk result (λ n. n ≡ min (length buf.new) (length (source_left self.old))) }
        ensures calls { OneMore (source_calls self.old) (source_calls self.new) }
        ensures calm { source_quiet self.old → StaysQuiet (source_quiet self.new) result }
    {
        self.calls.next(&mut self.faults)?;
        self.source.read(buf)
    }
}

impl MemSink {
    ghost use Rattle.outside_io.specs.Calls.{AreFresh, Lists};
    ghost use Rattle.outside_io.specs.Memory.{sink_bytes, sink_calls, sink_faults, sink_quiet};

    /// A sink with no bytes, and no call that is to fail. It takes no memory.
    pub fn new(alloc: Global) -> Self
        ensures empty { sink_bytes result ≡ [] }
        ensures calls { AreFresh (sink_calls result) }
        ensures count { sink_faults result ≡ 0 }
        ensures quiet { sink_quiet result }
    {
        MemSink {
            sink: SureSink::new(alloc),
            calls: Calls::new(alloc),
            faults: 0,
        }
    }

    /// The bytes written so far.
    pub fn bytes(&self) -> &[u8]
        ensures { result.now ≡ sink_bytes self.now }
    {
        self.sink.bytes()
    }

    /// Lists the number of one more call that is to fail. After `NoMemory` nothing has changed.
    pub fn fail_at(&mut self, call: u64) -> Result<(), OutFault>
        ensures ok { OnOk result (Lists (sink_calls self.old) (sink_calls self.new) (call ∷ [])) }
        ensures err { OnErr result (Lists (sink_calls self.old) (sink_calls self.new) []) }
        ensures never_failed { IsErrOf result Failed → ⊥ }
        ensures bytes { sink_bytes self.new ≡ sink_bytes self.old }
        ensures count { sink_faults self.new ≡ sink_faults self.old }
    {
        self.calls.fail_at(call)
    }
}

impl Sink for MemSink {
    ghost use Rattle.outside_io.specs.Causes.{HasCause, StaysQuiet};
    ghost use Rattle.outside_io.specs.Calls.{IsToFail, OneMore};
    ghost use Rattle.outside_io.specs.Memory.{sink_bytes, sink_calls, sink_faults, sink_quiet};

    ghost written = { λ sink. Some (sink_bytes sink) };

    ghost faults = { sink_faults };

    ghost quiet = { sink_quiet };

    ghost can_rise = { λ sink quiet. quiet.1 };

    /// Fails exactly where the call's number is listed. After an error, also where there is no
    /// memory for the piece, nothing was appended.
    fn write(&mut self, piece: &[u8]) -> Result<(), OutFault>
        ensures whole { OnOk result (Appends (Some (sink_bytes self.old)) (Some (sink_bytes self.new)) piece.now) }
        ensures prefix { OnErr result ((n : ℕ) × (n ≤ length piece.now) × Appends (Some (sink_bytes self.old)) (Some (sink_bytes self.new)) (take n piece.now)) }
        ensures cause { HasCause (sink_faults self.old) (sink_faults self.new) result }
        ensures fails { IsErrOf result Failed ↔ IsToFail (sink_calls self.old) }
        ensures nothing { OnErr result (sink_bytes self.new ≡ sink_bytes self.old) }
        ensures calls { OneMore (sink_calls self.old) (sink_calls self.new) }
        ensures calm { sink_quiet self.old → StaysQuiet (sink_quiet self.new) result }
    {
        self.calls.next(&mut self.faults)?;
        self.sink.write(piece)
    }
}

impl MemFiles {
    ghost use Rattle.outside_io.specs.Calls.{AreFresh, Lists};
    ghost use Rattle.outside_io.specs.Memory.{files_held, files_calls, files_read_faults, files_write_faults, files_quiet};

    /// No files, and no call that is to fail. It takes no memory.
    pub fn new(alloc: Global) -> Self
        ensures empty { (name : List ℕ) → files_held result name ≡ None }
        ensures calls { AreFresh (files_calls result) }
        ensures read_count { files_read_faults result ≡ 0 }
        ensures write_count { files_write_faults result ≡ 0 }
        ensures quiet { files_quiet result }
    {
        MemFiles {
            files: SureFiles::new(alloc),
            calls: Calls::new(alloc),
            read_faults: 0,
            write_faults: 0,
        }
    }

    /// The bytes of the named file, and `None` exactly where the name is not held.
    pub fn bytes(&self, name: &str) -> Option<&[u8]>
        ensures { option_copied result ≡ files_held self.now name.now }
    {
        self.files.bytes(name)
    }

    /// Holds the bytes under this name, in the place of what was there. After `NoMemory` nothing
    /// has changed.
    pub fn put(&mut self, name: &str, bytes: &[u8]) -> Result<(), OutFault>
        ensures named { OnOk result (files_held self.new name.now ≡ Some bytes.now) }
        ensures others { (other : List ℕ) → other ≢ name.now → files_held self.new other ≡ files_held self.old other }
        ensures err { OnErr result ((other : List ℕ) → files_held self.new other ≡ files_held self.old other) }
        ensures never_failed { IsErrOf result Failed → ⊥ }
        ensures calls { files_calls self.new ≡ files_calls self.old }
        ensures read_count { files_read_faults self.new ≡ files_read_faults self.old }
        ensures write_count { files_write_faults self.new ≡ files_write_faults self.old }
    {
        self.files.put(name, bytes)
    }

    /// Lists the number of one more call that is to fail. After `NoMemory` nothing has changed.
    pub fn fail_at(&mut self, call: u64) -> Result<(), OutFault>
        ensures ok { OnOk result (Lists (files_calls self.old) (files_calls self.new) (call ∷ [])) }
        ensures err { OnErr result (Lists (files_calls self.old) (files_calls self.new) []) }
        ensures never_failed { IsErrOf result Failed → ⊥ }
        ensures files { (name : List ℕ) → files_held self.new name ≡ files_held self.old name }
        ensures read_count { files_read_faults self.new ≡ files_read_faults self.old }
        ensures write_count { files_write_faults self.new ≡ files_write_faults self.old }
    {
        self.calls.fail_at(call)
    }
}

impl Files for MemFiles {
    ghost use Rattle.outside_io.specs.Causes.{HasCause, StaysQuiet};
    ghost use Rattle.outside_io.specs.Content.{IsHeld, ReadsFrom, Told, file_of, IsEmptied, MayBeEmptied, GrowsBy, GrowsByPrefix, KeepsOthers};
    ghost use Rattle.outside_io.specs.Calls.{IsToFail, OneMore};
    ghost use Rattle.outside_io.specs.Memory.{files_held, files_calls, files_read_faults, files_write_faults, files_quiet};

    ghost held = { λ files. Some (files_held files) };

    ghost read_faults = { files_read_faults };

    ghost write_faults = { files_write_faults };

    ghost quiet = { files_quiet };

    ghost can_rise = { λ files quiet. (quiet.1, quiet.2) };

    /// Fails exactly where the call's number is listed, or the name is not held.
    fn size(&mut self, name: &str) -> Result<u64, OutFault>
        ensures bytes { IfOk result (λ n. IfSome (Some (files_held self.old)) (λ files. n ≡ length (file_of files name.now))) }
        ensures content { Told (Some (files_held self.old)) (Some (files_held self.new)) (λ old new. new ≡ old) }
        ensures cause { HasCause (files_read_faults self.old) (files_read_faults self.new) result }
        ensures never_starved { IsErrOf result NoMemory → ⊥ }
        ensures fails { IsErrOf result Failed ↔ (IsToFail (files_calls self.old) ⊎ IsNone (files_held self.old name.now)) }
        ensures calls { OneMore (files_calls self.old) (files_calls self.new) }
        ensures calm { files_quiet self.old → IsHeld (Some (files_held self.old)) name.now → StaysQuiet (files_quiet self.new) result }
        ensures other_count { files_write_faults self.new ≡ files_write_faults self.old }
    {
        self.calls.next(&mut self.read_faults)?;
        if self.bytes(name).is_none() {
            return Err(count_fault(&mut self.read_faults));
        }
        self.files.size(name)
    }

    /// Fails exactly where the call's number is listed, or the name is not held; else it fills
    /// `buf` or gives all of the file from `at` on.
    fn read_at(&mut self, name: &str, at: u64, buf: &mut [u8]) -> Result<usize, OutFault>
        ensures bound { ReadsAtMost result buf.new }
        ensures bytes { IfOk result (λ n. IfSome (Some (files_held self.old)) (λ files. ReadsFrom (file_of files name.now) at n buf.new)) }
        ensures content { Told (Some (files_held self.old)) (Some (files_held self.new)) (λ old new. new ≡ old) }
        ensures cause { HasCause (files_read_faults self.old) (files_read_faults self.new) result }
        ensures never_starved { IsErrOf result NoMemory → ⊥ }
        ensures fails { IsErrOf result Failed ↔ (IsToFail (files_calls self.old) ⊎ IsNone (files_held self.old name.now)) }
        ensures fills { IfOk result (λ n. n ≡ min (length buf.new) (length (drop at (file_of (files_held self.old) name.now)))) }
        ensures calls { OneMore (files_calls self.old) (files_calls self.new) }
        ensures calm { files_quiet self.old → IsHeld (Some (files_held self.old)) name.now → StaysQuiet (files_quiet self.new) result }
        ensures other_count { files_write_faults self.new ≡ files_write_faults self.old }
    {
        self.calls.next(&mut self.read_faults)?;
        if self.bytes(name).is_none() {
            return Err(count_fault(&mut self.read_faults));
        }
        self.files.read_at(name, at, buf)
    }

    /// Fails exactly where the call's number is listed. After an error, also where there is no
    /// memory, nothing has changed.
    fn start(&mut self, name: &str) -> Result<(), OutFault>
        ensures named { OnOk result (Told (Some (files_held self.old)) (Some (files_held self.new)) (IsEmptied name.now)) }
        ensures after_error { OnErr result (Told (Some (files_held self.old)) (Some (files_held self.new)) (MayBeEmptied name.now)) }
        ensures others { Told (Some (files_held self.old)) (Some (files_held self.new)) (KeepsOthers name.now) }
        ensures cause { HasCause (files_write_faults self.old) (files_write_faults self.new) result }
        ensures other_count { files_read_faults self.new ≡ files_read_faults self.old }
        ensures fails { IsErrOf result Failed ↔ IsToFail (files_calls self.old) }
        ensures nothing { OnErr result ((other : List ℕ) → files_held self.new other ≡ files_held self.old other) }
        ensures calls { OneMore (files_calls self.old) (files_calls self.new) }
        ensures calm { files_quiet self.old → StaysQuiet (files_quiet self.new) result }
    {
        self.calls.next(&mut self.write_faults)?;
        self.files.start(name)
    }

    /// Fails exactly where the call's number is listed, or the name is not held. After an error,
    /// also where there is no memory for the piece, nothing has changed.
    fn append(&mut self, name: &str, piece: &[u8]) -> Result<(), OutFault>
        ensures named { OnOk result (Told (Some (files_held self.old)) (Some (files_held self.new)) (GrowsBy piece.now name.now)) }
        ensures after_error { OnErr result (Told (Some (files_held self.old)) (Some (files_held self.new)) (GrowsByPrefix piece.now name.now)) }
        ensures others { Told (Some (files_held self.old)) (Some (files_held self.new)) (KeepsOthers name.now) }
        ensures cause { HasCause (files_write_faults self.old) (files_write_faults self.new) result }
        ensures other_count { files_read_faults self.new ≡ files_read_faults self.old }
        ensures fails { IsErrOf result Failed ↔ (IsToFail (files_calls self.old) ⊎ IsNone (files_held self.old name.now)) }
        ensures nothing { OnErr result ((other : List ℕ) → files_held self.new other ≡ files_held self.old other) }
        ensures calls { OneMore (files_calls self.old) (files_calls self.new) }
        ensures calm { files_quiet self.old → IsHeld (Some (files_held self.old)) name.now → StaysQuiet (files_quiet self.new) result }
    {
        self.calls.next(&mut self.write_faults)?;
        if self.bytes(name).is_none() {
            return Err(count_fault(&mut self.write_faults));
        }
        self.files.append(name, piece)
    }
}
