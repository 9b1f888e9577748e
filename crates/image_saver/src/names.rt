//! The names of a checkpoint's files.

ghost use Rattle.std.specs.Prelude.{◌≡◌, ◌++◌, IfOk, string_bytes};
ghost use Rattle.image_saver.specs.Checkpoint.{meta_file, part_ending, part_file};

use crate::fault::Part;
use std::alloc::{AllocError, Global};

/// A name with an ending.
fn with_ending(alloc: Global, name: &str, ending: &str) -> Result<String, AllocError>
    ensures { IfOk result (λ file. string_bytes file ≡ name.now ++ ending.now) }
{
    let mut file = String::from_str(alloc, name)?;
    file.push_str(ending)?;
    Ok(file)
}

/// The name of the file with the meta text.
pub(crate) fn meta_file(alloc: Global, name: &str) -> Result<String, AllocError>
    ensures { IfOk result (λ file. string_bytes file ≡ meta_file name.now) }
{
    with_ending(alloc, name, ".json")
}

/// What the name of a part's file ends with.
fn part_ending(part: Part) -> &'static str
    ensures { result.now ≡ part_ending part }
{
    match part {
        Part::Mainram => ".mainram",
        Part::Bootram => ".bootram",
    }
}

/// The name of the file with a part.
pub(crate) fn part_file(alloc: Global, name: &str, part: Part) -> Result<String, AllocError>
    ensures { IfOk result (λ file. string_bytes file ≡ part_file part name.now) }
{
    with_ending(alloc, name, part_ending(part))
}
