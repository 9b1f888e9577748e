//! The outside of the program over the standard library: streams, and the files of the system.

ghost use Rattle.std.specs.Prelude.{◌≡◌, ◌≤◌, ◌↔◌, ℕ, List, length, take, Option, Some, None, IfOk, IfSome, OnOk, OnErr, IsErrOf, IsTrue, IsNone, IsSomeAnd, string_bytes};
ghost use Rattle.std.specs.Option.{option_map};
ghost use Rattle.std.specs.Io.{ReadsAtMost};
ghost use Rattle.std.specs.Io.KnownBytes.{ReadConsumes, Appends};
ghost use Rattle.outside_io.specs.declared.OutFault.TheVariants.{Failed, NoMemory};
ghost use Rattle.outside_io.specs.Causes.{HasCause};
ghost use Rattle.outside_io.specs.Content.{Told};
ghost use Rattle.outside_io.specs.Adapters.{std_source_reader, std_source_faults, std_sink_writer, std_sink_faults, dir_files_runtime, dir_files_read_faults, dir_files_write_faults, dir_files_kept, IsOpenedBy};

use crate::calls::count_fault;
use crate::streams::{fill, read_once, write_whole};
use crate::{Files, OutFault, Sink, Source};
use std::fs::{OpenFile, OpenOptions};
use std::io::{ErrorKind, Read, Seek, SeekFrom, Write};
use std::rt::Files as FileAccess;
use std::{fs, io};

/// A source over a reader of the standard library, such as standard input.
#[derive(Drop)]
pub struct StdSource<R> {
    reader: R,
    faults: u64,
}

/// A sink over a writer of the standard library, such as standard output. It flushes nothing.
#[derive(Drop)]
pub struct StdSink<W> {
    writer: W,
    faults: u64,
}

// A file that is open to be appended to, and the name that it was opened by, or none where there
// was no memory for it.
#[derive(Drop)]
struct KeptFile<F> {
    name: Option<String>,
    file: F,
}

/// The files of the system, by the runtime's file access. A name is a path as given. A path that
/// cannot be opened is a fault, and so is one with a zero byte or one of a folder. The file that
/// was last started or appended to stays open until another is, or a call that writes fails.
#[derive(Drop)]
pub struct DirFiles<R: FileAccess> {
    runtime: R,
    kept: Option<KeptFile<R::File>>,
    pub(crate) read_faults: u64,
    pub(crate) write_faults: u64,
}

impl<R: Read + Drop> StdSource<R> {
    /// The source that reads from this reader.
    pub fn new(reader: R) -> Self
        ensures reader { std_source_reader result ≡ reader }
        ensures count { std_source_faults result ≡ 0 }
    {
        StdSource { reader, faults: 0 }
    }
}

impl<R: Read + Drop> Source for StdSource<R> {
    ghost left = { λ source. R.remaining (std_source_reader source) };

    ghost faults = { std_source_faults };

    ghost quiet = { λ _. ⊥ };

    ghost can_rise = { λ _ quiet. absurd quiet };

    /// Each error of the reader is a fault, but that of a signal, after which it reads again.
    fn read(&mut self, buf: &mut [u8]) -> Result<usize, OutFault>
        ensures bound { ReadsAtMost result buf.new }
        ensures bytes { ReadConsumes (R.remaining (std_source_reader self.old)) (R.remaining (std_source_reader self.new)) result buf.new }
        ensures cause { HasCause (std_source_faults self.old) (std_source_faults self.new) result }
        ensures never_starved { IsErrOf result NoMemory → ⊥ }
    {
        match read_once(&mut self.reader, buf) {
            Ok(count) => Ok(count),
            Err(_) => Err(count_fault(&mut self.faults)),
        }
    }
}

impl<W: Write + Drop> StdSink<W> {
    /// The sink that writes to this writer.
    pub fn new(writer: W) -> Self
        ensures writer { std_sink_writer result ≡ writer }
        ensures count { std_sink_faults result ≡ 0 }
    {
        StdSink { writer, faults: 0 }
    }
}

impl<W: Write + Drop> Sink for StdSink<W> {
    ghost written = { λ sink. W.contents (std_sink_writer sink) };

    ghost faults = { std_sink_faults };

    ghost quiet = { λ _. ⊥ };

    ghost can_rise = { λ _ quiet. absurd quiet };

    /// Each error of the writer is a fault, but that of a signal, after which it writes on. A write
    /// that takes nothing of what is left is a fault too.
    fn write(&mut self, piece: &[u8]) -> Result<(), OutFault>
        ensures whole { OnOk result (Appends (W.contents (std_sink_writer self.old)) (W.contents (std_sink_writer self.new)) piece.now) }
        ensures prefix { OnErr result ((n : ℕ) × (n ≤ length piece.now) × Appends (W.contents (std_sink_writer self.old)) (W.contents (std_sink_writer self.new)) (take n piece.now)) }
        ensures cause { HasCause (std_sink_faults self.old) (std_sink_faults self.new) result }
        ensures never_starved { IsErrOf result NoMemory → ⊥ }
    {
        match write_whole(&mut self.writer, piece) {
            Ok(()) => Ok(()),
            Err(_) => Err(count_fault(&mut self.faults)),
        }
    }
}

// Opens a file to read, and answers its length too. A folder is an error.
fn open_file<R: FileAccess>(runtime: &R, path: &str) -> io::Result<(R::File, u64)> {
    let file = fs::open(runtime, path)?;
    let metadata = file.metadata()?;
    if metadata.is_dir() {
        return Err(io::Error::from(ErrorKind::IsADirectory));
    }
    Ok((file, metadata.len()))
}

// The length of a file.
fn file_size<R: FileAccess>(runtime: &R, path: &str) -> io::Result<u64> {
    let (_, size) = open_file(runtime, path)?;
    Ok(size)
}

// Fills the buffer with the bytes of a file from this place on, or gives all of them.
fn read_file<R: FileAccess>(runtime: &R, path: &str, at: u64, buf: &mut [u8]) -> io::Result<usize>
    ensures { ReadsAtMost result buf.new }
{
    let (mut file, _) = open_file(runtime, path)?;
    file.seek(SeekFrom::Start(at))?;
    fill(&mut file, buf)
}

impl<F> KeptFile<F> {
    // Whether it keeps this name.
    fn has_name(&self, path: &str) -> bool
        ensures { IsTrue result ↔ (option_map string_bytes self.now.name ≡ Some path.now) }
    {
        matches!(&self.name, Some(name) if name.as_str() == path)
    }
}

// Opens a file that is there, to write at its end. There may be no memory for its name.
fn open_to_append<R: FileAccess + AllocGlobal>(
    runtime: &R,
    path: &str,
) -> io::Result<KeptFile<R::File>>
    ensures { IfOk result (IsOpenedBy path.now) }
{
    let file = OpenOptions::new().append(true).open(runtime, path)?;
    let name = String::from_str(runtime.alloc(), path).ok();
    Ok(KeptFile { name, file })
}

// Makes a file where there is none, empties it, and opens it to append to. It stays open in between,
// so that the reader of a pipe sees no end.
fn start_file<R: FileAccess + AllocGlobal>(runtime: &R, path: &str) -> io::Result<KeptFile<R::File>>
    ensures { IfOk result (IsOpenedBy path.now) }
{
    let _emptied = fs::create(runtime, path)?;
    open_to_append(runtime, path)
}

// Writes the whole piece at the end of the kept file, where that has this name, or else of a file
// that is there, which is then kept in its place. After an error none is kept.
fn append_to_file<R: FileAccess + AllocGlobal>(
    runtime: &R,
    kept: &mut Option<KeptFile<R::File>>,
    path: &str,
    piece: &[u8],
) -> io::Result<()>
    ensures open { OnOk result (IsSomeAnd kept.new (IsOpenedBy path.now)) }
    ensures closed { OnErr result (IsNone kept.new) }
{
    let mut last = match kept.take() {
        Some(last) if last.has_name(path) => last,
        _ => open_to_append(runtime, path)?,
    };
    write_whole(&mut last.file, piece)?;
    *kept = Some(last);
    Ok(())
}

impl<R: FileAccess + AllocGlobal + Drop> DirFiles<R> {
    /// The files that this file access reaches.
    pub fn new(runtime: R) -> Self
        ensures runtime { dir_files_runtime result ≡ runtime }
        ensures read_count { dir_files_read_faults result ≡ 0 }
        ensures write_count { dir_files_write_faults result ≡ 0 }
        ensures none_kept { IsNone (dir_files_kept result) }
    {
        DirFiles {
            runtime,
            kept: None,
            read_faults: 0,
            write_faults: 0,
        }
    }
}

impl<R: FileAccess + AllocGlobal + Drop> Files for DirFiles<R> {
    ghost held = { λ _. None };

    ghost read_faults = { dir_files_read_faults };

    ghost write_faults = { dir_files_write_faults };

    ghost quiet = { λ _. ⊥ };

    ghost can_rise = { λ _ quiet. absurd quiet };

    /// The length that the system gives for the file. Each error of the system is a fault.
    fn size(&mut self, name: &str) -> Result<u64, OutFault>
        ensures cause { HasCause (dir_files_read_faults self.old) (dir_files_read_faults self.new) result }
        ensures never_starved { IsErrOf result NoMemory → ⊥ }
        ensures other_count { dir_files_write_faults self.new ≡ dir_files_write_faults self.old }
        ensures kept { dir_files_kept self.new ≡ dir_files_kept self.old }
    {
        match file_size(&self.runtime, name) {
            Ok(size) => Ok(size),
            Err(_) => Err(count_fault(&mut self.read_faults)),
        }
    }

    /// Opens the file, goes to the place and reads until the buffer is full or the file ends. Each
    /// error of the system is a fault, but that of a signal, after which it reads on.
    fn read_at(&mut self, name: &str, at: u64, buf: &mut [u8]) -> Result<usize, OutFault>
        ensures bound { ReadsAtMost result buf.new }
        ensures cause { HasCause (dir_files_read_faults self.old) (dir_files_read_faults self.new) result }
        ensures never_starved { IsErrOf result NoMemory → ⊥ }
        ensures other_count { dir_files_write_faults self.new ≡ dir_files_write_faults self.old }
        ensures kept { dir_files_kept self.new ≡ dir_files_kept self.old }
    {
        match read_file(&self.runtime, name, at, buf) {
            Ok(count) => Ok(count),
            Err(_) => Err(count_fault(&mut self.read_faults)),
        }
    }

    /// Makes the file, in a folder that is there, empties it, and opens it to be appended to. Each
    /// error of the system is a fault.
    fn start(&mut self, name: &str) -> Result<(), OutFault>
        ensures cause { HasCause (dir_files_write_faults self.old) (dir_files_write_faults self.new) result }
        ensures never_starved { IsErrOf result NoMemory → ⊥ }
        ensures other_count { dir_files_read_faults self.new ≡ dir_files_read_faults self.old }
        ensures open { OnOk result (IsSomeAnd (dir_files_kept self.new) (IsOpenedBy name.now)) }
        ensures closed { OnErr result (IsNone (dir_files_kept self.new)) }
    {
        self.kept = None;
        match start_file(&self.runtime, name) {
            Ok(file) => {
                self.kept = Some(file);
                Ok(())
            }
            Err(_) => Err(count_fault(&mut self.write_faults)),
        }
    }

    /// Writes at the file's end until the whole piece is written. The name of the file that was last
    /// started or appended to stands for that file, which is still open, also where it was renamed
    /// or removed. Another file is opened, and has to be there. Each error of the system is a fault,
    /// but that of a signal, after which it writes on. A write that takes nothing of what is left is
    /// a fault too.
    fn append(&mut self, name: &str, piece: &[u8]) -> Result<(), OutFault>
        ensures cause { HasCause (dir_files_write_faults self.old) (dir_files_write_faults self.new) result }
        ensures never_starved { IsErrOf result NoMemory → ⊥ }
        ensures other_count { dir_files_read_faults self.new ≡ dir_files_read_faults self.old }
        ensures open { OnOk result (IsSomeAnd (dir_files_kept self.new) (IsOpenedBy name.now)) }
        ensures closed { OnErr result (IsNone (dir_files_kept self.new)) }
    {
        match append_to_file(&self.runtime, &mut self.kept, name, piece) {
            Ok(()) => Ok(()),
            Err(_) => Err(count_fault(&mut self.write_faults)),
        }
    }
}
