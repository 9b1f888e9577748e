//! The top call: the words, the job, the report.

ghost use Rattle.std.specs.Prelude.{◌≡◌, IfErr, IfSome, None, OnErr, Some};
ghost use Rattle.outside_io.specs.Causes.{Rose};
ghost use Rattle.outside_acts.specs.World.{NonePassedOver};
ghost use Rattle.job_words.specs.CommandLine.{job_of, texts};
ghost use Rattle.job_words.specs.Seen.{IsNamed, job_seen};
ghost use Rattle.dromajo.specs.Classes.{IsBefore, IsFault, IsFinished, IsSettled, IsUsage, failed_report};
ghost use Rattle.dromajo.specs.Complete.{MayAnswer};
ghost use Rattle.dromajo.specs.Jobs.{HoldsJob, refusal_of};
ghost use Rattle.dromajo.specs.Report.{report_line};
ghost use Rattle.dromajo.specs.TopCall.{AnswersRefusal, AreAllQuiet, HasJobCause, HasStatusCause, JobLeaves, Leaves, NoneRose, Reported, Reports, RestoresSaved, SendsFront, report_of, told_of};

use crate::begin::begin;
use crate::report::report_line;
use crate::status::{Status, Tally, Which, stop_status};
use crate::work::{JobEnding, do_work};
use job_words::{Job, named_job};
use outside_acts::Objects;
use outside_io::{Files, OutFault, Sink, Source};
use std::alloc::Global;

/// A job that ended before its work did.
fn ended_early(status: Status) -> JobEnding
    ensures status { result.status ≡ status }
    ensures tally { result.tally ≡ Tally.Turned 0 0 }
{
    JobEnding {
        status,
        tally: Tally::Turned { turns: 0, taken: 0 },
    }
}

/// Does a job.
fn do_job<F: Files, I: Source, O: Sink>(
    alloc: Global,
    job: &Job<'_>,
    files: &mut F,
    input: &mut I,
    out: &mut O,
) -> JobEnding
    requires { IsNamed job.now }
    ensures leaves { JobLeaves (Some (job_seen job.now)) result.status (report_line result.status result.tally)
        (told_of F.Files I.Source O.Sink files.old input.old out.old)
        (told_of F.Files I.Source O.Sink files.new input.new out.new) }
    ensures refusal { IsSettled result.status → IfSome (F.held files.old) (λ held.
        AnswersRefusal (refusal_of (Some (job_seen job.now)) held) result.status) }
    ensures cause { HasJobCause result.status (Some (job_seen job.now))
        (told_of F.Files I.Source O.Sink files.old input.old out.old)
        (told_of F.Files I.Source O.Sink files.new input.new out.new) }
    ensures before { IsBefore result.status result.status }
    ensures calm { AreAllQuiet F.Files I.Source O.Sink files.old input.old out.old →
        HoldsJob (F.held files.old) (Some (job_seen job.now)) → IsFault result.status → ⊥ }
{
    let machine = match begin(alloc, job.begin, files) {
        Ok(machine) => machine,
        Err(status) => return ended_early(status),
    };
    let mut outside = Objects { files, input, out };
    match do_work(alloc, &job.work, machine, &mut outside) {
        Ok(finished) => finished,
        Err(stop) => ended_early(stop_status(stop)),
    }
}

/// Does the job that the words name.
fn perform<F: Files, I: Source, O: Sink>(
    alloc: Global,
    words: &[String],
    files: &mut F,
    input: &mut I,
    out: &mut O,
) -> JobEnding
    ensures leaves { JobLeaves (job_of (texts words.now)) result.status (report_line result.status result.tally)
        (told_of F.Files I.Source O.Sink files.old input.old out.old)
        (told_of F.Files I.Source O.Sink files.new input.new out.new) }
    ensures refusal { IsSettled result.status → IfSome (F.held files.old) (λ held.
        AnswersRefusal (refusal_of (job_of (texts words.now)) held) result.status) }
    ensures cause { HasJobCause result.status (job_of (texts words.now))
        (told_of F.Files I.Source O.Sink files.old input.old out.old)
        (told_of F.Files I.Source O.Sink files.new input.new out.new) }
    ensures before { IsBefore result.status result.status }
    ensures nothing { job_of (texts words.now) ≡ None →
        (result.status ≡ Status.Usage) × (files.new ≡ files.old) × (input.new ≡ input.old) × (out.new ≡ out.old) }
    ensures calm { AreAllQuiet F.Files I.Source O.Sink files.old input.old out.old →
        HoldsJob (F.held files.old) (job_of (texts words.now)) → IsFault result.status → ⊥ }
{
    match named_job(words) {
        Some(job) => do_job(alloc, &job, files, input, out),
        None => ended_early(Status::Usage),
    }
}

/// Writes the report line, and answers the status after it.
fn finish<E: Sink>(alloc: Global, finished: JobEnding, report: &mut E) -> Status
    requires { IsBefore finished.status finished.status }
    ensures reports { Reports result finished.status (report_line finished.status finished.tally)
        (report_of E.Sink report.old) (report_of E.Sink report.new) }
    ensures cause { result ≡ Status.WriteFault Which.Report →
        Rose (E.faults report.old) (E.faults report.new) }
    ensures done { result ≡ Status.Done → E.faults report.new ≡ E.faults report.old }
    ensures calm { E.quiet report.old → (IsFault finished.status → ⊥) → IsFault result → ⊥ }
    ensures kept { E.quiet report.old → E.faults report.new ≡ E.faults report.old }
{
    let line = match report_line(alloc, &finished.status, finished.tally) {
        Ok(line) => line,
        Err(_) => return Status::NoMemory,
    };
    match report.write(line.as_bytes()) {
        Ok(()) => finished.status,
        Err(OutFault::NoMemory) => Status::NoMemory,
        Err(OutFault::Failed) => after_failed_report(finished.status),
    }
}

/// A failed report takes the place of Done alone.
fn after_failed_report(status: Status) -> Status
    ensures { result ≡ failed_report status }
{
    match status {
        Status::Done => Status::WriteFault(Which::Report),
        status => status,
    }
}

/// Does what the words of the command line name, and reports it.
///
/// `words` are the words without the program's name: a command, and then pairs of a name and a value.
/// `files` are the files that they name, `input` is the console's input, and in `cosim` the commit
/// stream, `out` gets the console's bytes, and `report` gets one line.
pub fn dromajo<F: Files, I: Source, O: Sink, E: Sink>(
    alloc: Global,
    words: &Vec<String>,
    files: &mut F,
    input: &mut I,
    out: &mut O,
    report: &mut E,
) -> Status
    // Where the outside did not fail, memory was found, and what the outside holds is told, the call leaves what an
    // outcome of the job that the words name says: its status, the console's bytes, the files, and the bytes read.
    ensures result { IsFinished result → Leaves (job_of (texts words.now.items)) result
        (told_of F.Files I.Source O.Sink files.old input.old out.old)
        (told_of F.Files I.Source O.Sink files.new input.new out.new) }

    // The files hold the checkpoint that the job saved: executing its boot ROM leads to the machine that was saved,
    // without its reservations.
    ensures restored { IsFinished result → RestoresSaved (job_of (texts words.now.items))
        (told_of F.Files I.Source O.Sink files.old input.old out.old)
        (told_of F.Files I.Source O.Sink files.new input.new out.new) }

    // A refusal is answered exactly where the words, or what the files hold, give it, whatever the input has left.
    ensures refusal { IsFinished result → IfSome (F.held files.old) (λ held.
        AnswersRefusal (refusal_of (job_of (texts words.now.items)) held) result) }

    // Whatever the status, the console got a front of the bytes that the job sends.
    ensures front { SendsFront (job_of (texts words.now.items))
        (told_of F.Files I.Source O.Sink files.old input.old out.old)
        (told_of F.Files I.Source O.Sink files.new input.new out.new) }

    // No fault is passed over.
    ensures none_passed_over { IsFinished result → NonePassedOver
        (told_of F.Files I.Source O.Sink files.old input.old out.old).counts
        (told_of F.Files I.Source O.Sink files.new input.new out.new).counts }
    ensures done { result ≡ Status.Done → E.faults report.new ≡ E.faults report.old }

    // Each status has its cause, and beside it no fault is passed over; of the report's failure and of want of memory
    // `reported` says it, by the status before the report.
    ensures causes { HasStatusCause result (job_of (texts words.now.items))
        (told_of F.Files I.Source O.Sink files.old input.old out.old)
        (told_of F.Files I.Source O.Sink files.new input.new out.new)
        (report_of E.Sink report.old) (report_of E.Sink report.new) }

    // Words that name no job are said to be none, and then no object was touched but the report.
    ensures usage { job_of (texts words.now.items) ≡ None → IsUsage result
        × (files.new ≡ files.old) × (input.new ≡ input.old) × (out.new ≡ out.old) }

    // Over objects that fail at no call, where every file that the job reads is held, no fault of reading or writing
    // is answered, and whatever the status no count rose: nothing fails that the job does not ask for.
    ensures complete { AreAllQuiet F.Files I.Source O.Sink files.old input.old out.old → E.quiet report.old →
        HoldsJob (F.held files.old) (job_of (texts words.now.items)) → IsFault result → ⊥ }
    ensures no_count_rises { AreAllQuiet F.Files I.Source O.Sink files.old input.old out.old → E.quiet report.old →
        HoldsJob (F.held files.old) (job_of (texts words.now.items)) → NoneRose
        (told_of F.Files I.Source O.Sink files.old input.old out.old)
        (told_of F.Files I.Source O.Sink files.new input.new out.new)
        (report_of E.Sink report.old) (report_of E.Sink report.new) }

    // Where no count rose, and what is outside is told, the call answers what the job may come to and nothing else: that
    // the words are no job, the refusal that the files give, an end of its work; or that memory lacked.
    ensures answers { NoneRose
        (told_of F.Files I.Source O.Sink files.old input.old out.old)
        (told_of F.Files I.Source O.Sink files.new input.new out.new)
        (report_of E.Sink report.old) (report_of E.Sink report.new) →
        MayAnswer (job_of (texts words.now.items)) (told_of F.Files I.Source O.Sink files.old input.old out.old) result }

    // The report has the line of the status before it, which has its causes; and the call leaves what the job leaves
    // that ended with that status: all its acts, or, after a fault or for want of memory, those before the act that
    // failed, and a part of that one.
    ensures reported { Reported result (job_of (texts words.now.items))
        (told_of F.Files I.Source O.Sink files.old input.old out.old)
        (told_of F.Files I.Source O.Sink files.new input.new out.new)
        (report_of E.Sink report.old) (report_of E.Sink report.new) }
{
    let finished = perform(alloc, words.as_slice(), files, input, out);
    finish(alloc, finished, report)
}
