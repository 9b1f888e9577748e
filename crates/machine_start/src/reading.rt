//! Reading a file whole.

ghost use Rattle.std.specs.Prelude.{◌≡◌, ◌≤◌, IfOk, IfSome, IsErrOf, length, take};
ghost use Rattle.outside_io.specs.Causes.{HasCause, StaysQuiet};
ghost use Rattle.outside_io.specs.Content.{IsHeld, file_of};
ghost use Rattle.machine_start.specs.Reading.{HasAtMost, IsContents, OnlyReads};

use outside_io::{Files, OutFault};
use std::alloc::Global;

/// What a file holds.
#[derive(Drop)]
pub enum Contents {
    /// Its bytes. A file that ends before its size counts as what was read.
    Bytes(Vec<u8>),
    /// It has so many bytes, which is too many. None of them was read.
    TooLong(u64),
}

/// Fills a buffer from the start of a file, and answers how many bytes it got: fewer than there is room
/// for only where the file ends. Each call asks for all that are missing. The only error is `Failed`.
pub fn fill<F: Files>(files: &mut F, name: &str, buf: &mut [u8]) -> Result<usize, OutFault>
    ensures count { IfOk result (λ n. n ≤ length buf.new) }
    ensures bytes { IfOk result (λ n. IfSome (F.held files.old) (λ held.
        take n buf.new ≡ take (length buf.old) (file_of held name.now))) }
    ensures leaves { OnlyReads F.held F.read_faults F.write_faults files.old files.new result }
    ensures cause { HasCause (F.read_faults files.old) (F.read_faults files.new) result }
    ensures never_starved { IsErrOf result OutFault.NoMemory → ⊥ }
    ensures calm { F.quiet files.old → IsHeld (F.held files.old) name.now → StaysQuiet (F.quiet files.new) result }
{
    let mut done = 0;
    while done < buf.len() {
        let count = files.read_at(name, done as u64, &mut buf[done..])?;
        if count == 0 {
            return Ok(done);
        }
        done += count;
    }
    Ok(done)
}

/// What a file holds, where it has at most `most` bytes: it is asked for its size, and then read until
/// that size or its end. Nothing is read of a file that is longer. The errors are `Failed`, and
/// `NoMemory` where there is no memory for the bytes.
#[tactic(auto, using(crate::proofs::Quiets::held_still))]
pub fn read_file<F: Files>(
    alloc: Global,
    files: &mut F,
    name: &str,
    most: u64,
) -> Result<Contents, OutFault>
    ensures contents { IfOk result (λ contents. IfSome (F.held files.old) (λ held.
        IsContents most (file_of held name.now) contents)) }
    ensures short { IfOk result (HasAtMost most) }
    ensures leaves { OnlyReads F.held F.read_faults F.write_faults files.old files.new result }
    ensures cause { HasCause (F.read_faults files.old) (F.read_faults files.new) result }
    ensures calm { F.quiet files.old → IsHeld (F.held files.old) name.now → StaysQuiet (F.quiet files.new) result }
{
    let size = files.size(name)?;
    if size > most {
        return Ok(Contents::TooLong(size));
    }
    let mut bytes = match vec![in alloc; 0u8; size as usize] {
        Ok(bytes) => bytes,
        Err(_) => return Err(OutFault::NoMemory),
    };
    let count = fill(files, name, bytes.as_mut_slice())?;
    bytes.truncate(count);
    Ok(Contents::Bytes(bytes))
}
