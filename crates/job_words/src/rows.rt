//! The commands: one function for each row, and the one that chooses among them.

ghost use Rattle.std.specs.Prelude.{◌≡◌, ◌≤◌, IfSome};
ghost use Rattle.std.specs.Option.{option_copied, option_map};
ghost use Rattle.job_words.specs.CommandLine.{at_file, at_seed, cosim_row, job_of, job_with, load_begin, load_row, logs_in, more_in, most_turns, reset_begin, row_job, run_begin, run_row, save_row, save_work, texts, turns_work};
ghost use Rattle.job_words.specs.declared.jobs.Begin.{Begin as NamedBegin};
ghost use Rattle.job_words.specs.declared.jobs.Work.{Work as NamedWork};
ghost use Rattle.job_words.specs.Job.{FromConfig, FromImage};
ghost use Rattle.job_words.specs.Seen.{IsNamed, MakesFewTurns, MayBegin, begin_seen, job_seen, work_seen};

use crate::jobs::{Begin, Job, Logs, Work};
use crate::values::{MOST_SEED, MOST_TURNS, file_name, number};
use crate::walk::walk;

/// The job that the words name, none where they name no job.
pub fn named_job(words: &[String]) -> Option<Job<'_>>
    ensures job { option_map job_seen result ≡ job_of (texts words.now) }
    ensures named { IfSome result IsNamed }
{
    let (command, others) = words.split_first()?;
    match command.as_str() {
        "run" => run_job(others),
        "load" => load_job(others),
        "save" => save_job(others),
        "cosim" => cosim_job(others),
        _ => None,
    }
}

/// The job of the words after `run`.
fn run_job(words: &[String]) -> Option<Job<'_>>
    ensures job { option_map job_seen result ≡ row_job run_row (texts words.now) }
    ensures named { IfSome result IsNamed }
{
    let names = ["--turns", "--config", "--image", "--seed", "--trace"];
    let mut values = [None; 5];
    if !walk(&names, words, &mut values) {
        return None;
    }
    let [turns, config, image, seed, trace] = values;
    job_with(run_begin(config, image, seed), turns_work(turns, trace))
}

/// The job of the words after `load`.
fn load_job(words: &[String]) -> Option<Job<'_>>
    ensures job { option_map job_seen result ≡ row_job load_row (texts words.now) }
    ensures named { IfSome result IsNamed }
{
    let names = ["--name", "--turns", "--trace"];
    let mut values = [None; 3];
    if !walk(&names, words, &mut values) {
        return None;
    }
    let [name, turns, trace] = values;
    job_with(load_begin(name), turns_work(turns, trace))
}

/// The job of the words after `save`.
fn save_job(words: &[String]) -> Option<Job<'_>>
    ensures job { option_map job_seen result ≡ row_job save_row (texts words.now) }
    ensures named { IfSome result IsNamed }
{
    let names = ["--turns", "--name", "--more", "--config", "--seed"];
    let mut values = [None; 5];
    if !walk(&names, words, &mut values) {
        return None;
    }
    let [turns, name, more, config, seed] = values;
    job_with(reset_begin(config, seed), save_work(turns, name, more))
}

/// The job of the words after `cosim`.
fn cosim_job(words: &[String]) -> Option<Job<'_>>
    ensures job { option_map job_seen result ≡ row_job cosim_row (texts words.now) }
    ensures named { IfSome result IsNamed }
{
    let names = ["--config", "--seed"];
    let mut values = [None; 2];
    if !walk(&names, words, &mut values) {
        return None;
    }
    let [config, seed] = values;
    job_with(reset_begin(config, seed), Some(Work::Judge))
}

/// The job of these parts, where both are there.
fn job_with<'a>(begin: Option<Begin<'a>>, work: Option<Work<'a>>) -> Option<Job<'a>>
    requires few { IfSome work MakesFewTurns }
    requires reset { IfSome begin (λ b. IfSome work (MayBegin b)) }
    ensures job { option_map job_seen result
        ≡ job_with (option_map begin_seen begin.entry) (option_map work_seen work.entry) }
    ensures named { IfSome result IsNamed }
{
    Some(Job {
        begin: begin?,
        work: work?,
    })
}

/// The one beginning among a configuration, a flat image and a seed.
fn run_begin<'a>(
    config: Option<&'a str>,
    image: Option<&'a str>,
    seed: Option<&'a str>,
) -> Option<Begin<'a>>
    ensures { option_map begin_seen result
        ≡ run_begin (option_copied config.entry) (option_copied image.entry) (option_copied seed.entry) }
{
    match (config, image, seed) {
        (Some(config), None, None) => config_begin(config),
        (None, Some(image), None) => image_begin(image),
        (None, None, Some(seed)) => seed_begin(seed),
        _ => None,
    }
}

/// The one beginning among a configuration and a seed.
fn reset_begin<'a>(config: Option<&'a str>, seed: Option<&'a str>) -> Option<Begin<'a>>
    ensures begin { option_map begin_seen result ≡ reset_begin (option_copied config.entry) (option_copied seed.entry) }
    ensures reset { IfSome result (λ begin. (work : NamedWork) → MayBegin begin work) }
{
    match (config, seed) {
        (Some(config), None) => config_begin(config),
        (None, Some(seed)) => seed_begin(seed),
        (Some(_), Some(_)) | (None, None) => None,
    }
}

/// The configuration of this name.
fn config_begin<'a>(config: &'a str) -> Option<Begin<'a>>
    ensures begin { option_map begin_seen result ≡ at_file FromConfig config.now }
    ensures reset { IfSome result (λ begin. (work : NamedWork) → MayBegin begin work) }
{
    Some(Begin::Config(file_name(config)?))
}

/// The flat image of this name.
fn image_begin<'a>(image: &'a str) -> Option<Begin<'a>>
    ensures { option_map begin_seen result ≡ at_file FromImage image.now }
{
    Some(Begin::Image(file_name(image)?))
}

/// The seed that a text spells.
fn seed_begin<'a>(seed: &str) -> Option<Begin<'a>>
    ensures begin { option_map begin_seen result ≡ at_seed seed.now }
    ensures reset { IfSome result (λ begin. (work : NamedWork) → MayBegin begin work) }
{
    Some(Begin::Seed(number(seed, MOST_SEED)?))
}

/// The checkpoint of this name.
fn load_begin<'a>(name: Option<&'a str>) -> Option<Begin<'a>>
    ensures { option_map begin_seen result ≡ load_begin (option_copied name.entry) }
{
    Some(Begin::Checkpoint(file_name(name?)?))
}

/// So many turns, logged to these files.
#[tactic(auto, using(crate::proofs::Commands::turns_anywhere))]
fn turns_work<'a>(turns: Option<&'a str>, trace: Option<&'a str>) -> Option<Work<'a>>
    ensures work { option_map work_seen result ≡ turns_work (option_copied turns.entry) (option_copied trace.entry) }
    ensures few { IfSome result MakesFewTurns }
    ensures anywhere { IfSome result (λ work. (begin : NamedBegin) → MayBegin begin work) }
{
    let turns = number(turns?, MOST_TURNS)?;
    let logs = logs(trace)?;
    Some(Work::Turns { turns, logs })
}

/// The logs of these files.
fn logs<'a>(trace: Option<&'a str>) -> Option<Logs<'a>>
    ensures { result ≡ logs_in (option_copied trace.entry) }
{
    match trace {
        Some(trace) => Some(Logs::new(Some(file_name(trace)?))),
        None => Some(Logs::new(None)),
    }
}

/// So many turns, a save under this name, and so many turns more.
fn save_work<'a>(
    turns: Option<&'a str>,
    name: Option<&'a str>,
    more: Option<&'a str>,
) -> Option<Work<'a>>
    ensures work { option_map work_seen result
        ≡ save_work (option_copied turns.entry) (option_copied name.entry) (option_copied more.entry) }
    ensures few { IfSome result MakesFewTurns }
{
    let turns = number(turns?, MOST_TURNS)?;
    let name = file_name(name?)?;
    let more = more_turns(more)?;
    Some(Work::Save { turns, name, more })
}

/// The number of turns that follow a save.
fn more_turns(more: Option<&str>) -> Option<u64>
    ensures value { result ≡ more_in (option_copied more.entry) }
    ensures within { IfSome result (λ n. n ≤ most_turns) }
{
    match more {
        Some(more) => number(more, MOST_TURNS),
        None => Some(0),
    }
}
