//! The reference model's program: it does what the words of the command line name, and reports it in
//! one line. [`dromajo`] is the whole of it; `main` hands it the real files and streams.
#![tactic(auto)]

mod begin;
#[cfg(test)]
mod boot_roms;
#[cfg(test)]
mod cosim_tests;
#[cfg(test)]
mod cut_tests;
#[cfg(test)]
mod example_images;
#[cfg(test)]
mod example_tests;
#[cfg(test)]
mod fault_tests;
mod laws;
#[cfg(test)]
mod line_tests;
#[cfg(test)]
mod load_fault_tests;
#[cfg(test)]
mod load_tests;
#[cfg(test)]
mod program_tests;
mod records;
mod refusals;
mod report;
#[cfg(test)]
mod run_tests;
#[cfg(test)]
mod save_fault_tests;
#[cfg(test)]
mod save_tests;
#[cfg(test)]
mod seed_tests;
mod status;
#[cfg(test)]
mod stream_tests;
#[cfg(test)]
mod sure_tests;
#[cfg(test)]
mod test_files;
#[cfg(test)]
mod test_support;
mod top;
#[cfg(test)]
mod trace_tests;
#[cfg(test)]
mod word_tests;
mod work;

pub use job_words::MOST_TURNS;
pub use laws::{
    allowed_streams_are_done, begun_is_fit, later_equal, own_files_are_accepted, own_trace_passes,
    seeds_are_done, turns_places,
};
use outside_io::{DirFiles, StdSink, StdSource};
pub use status::{Status, Tally, Which};
use std::alloc::AllocError;
use std::fs::File;
use std::io::ErrorKind;
use std::process::ExitCode;
use std::{env, fs};
pub use top::dromajo;

/// The words of the command line without the program's name: none where one of them is not text.
fn command_line(rt: &HostRuntime) -> Result<Vec<String>, AllocError> {
    let mut words = Vec::new(rt.alloc());
    let all = match env::args(rt) {
        Ok(all) => all,
        Err(error) if error.kind() == ErrorKind::OutOfMemory => return Err(AllocError),
        Err(_) => return Ok(words),
    };
    for word in all.skip(1) {
        words.push(word)?;
    }
    Ok(words)
}

/// Folders in the places of standard streams that are closed, for as long as they are held.
///
/// The system gives a file that is opened the lowest number that is free, and the standard streams are
/// those of numbers 0 to 2. So where one was closed when the program started, a file of the job would
/// be taken for it, and get the report or the console's bytes. A folder that is open to be read gives
/// neither a read nor a write, so in its place the stream fails as it should. What goes to a higher
/// number harms nothing. Where the opening fails, it is left: with no number free no file of the job
/// can be opened either, and where the root folder may not be read, it is not known whether a stream
/// is closed, so a fault that is answered might be made up.
fn places_of_streams(rt: &HostRuntime) -> [Option<File>; 3] {
    let root = || fs::open(rt, "/").ok();
    [root(), root(), root()]
}

fn main(rt: HostRuntime) -> ExitCode {
    let _places = places_of_streams(&rt);
    let Ok(words) = command_line(&rt) else {
        return Status::NoMemory.exit_code();
    };
    let status = dromajo(
        rt.alloc(),
        &words,
        &mut DirFiles::new(&rt),
        &mut StdSource::new(rt.stdin()),
        &mut StdSink::new(rt.stdout()),
        &mut StdSink::new(rt.stderr()),
    );
    status.exit_code()
}
