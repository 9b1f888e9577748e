//! The one line that the program reports.

ghost use Rattle.std.specs.Prelude.{◌≡◌, ◌≤◌, ◌++◌, IfOk, OnOk, string_bytes};
ghost use Rattle.commit_log.specs.Spelling.{hex};
ghost use Rattle.dromajo.specs.Report.{boot_text, done_text, object_name, report_line, status_text};

use crate::records::disagree_text;
use crate::refusals::{checkpoint_text, config_text, elf_text};
use crate::status::{Status, Tally, Which};
use commit_log::hex_digit;
use hart_turns::BootFault;
use std::alloc::{AllocError, Global};

/// Appends the `count` lowest hexadecimal digits of a number, the highest of them first.
#[tactic(auto, unfolding(commit_log::specs::Spelling::hex))]
pub(crate) fn push_hex(line: &mut String, count: u8, value: u64) -> Result<(), AllocError>
    requires { count ≤ 16 }
    ensures { OnOk result (string_bytes line.new ≡ string_bytes line.old ++ hex count value) }
{
    for place in (0..count).rev() {
        line.push(hex_digit((value >> (4 * place)) % 16) as char)?;
    }
    Ok(())
}

fn object_name(which: Which) -> &'static str
    ensures { result.now ≡ object_name which }
{
    match which {
        Which::Files => "files",
        Which::Input => "input",
        Which::Out => "out",
        Which::Report => "report",
    }
}

/// How a boot failed.
fn boot_text(alloc: Global, fault: BootFault) -> Result<String, AllocError>
    ensures { IfOk result (λ text. string_bytes text ≡ boot_text fault) }
{
    match fault {
        BootFault::Trap { hart, pc, cause } => {
            let mut text = format!(in alloc; "boot trap hart={hart} pc=")?;
            push_hex(&mut text, 16, pc)?;
            let end = format!(in alloc; " cause={cause}")?;
            text.push_str(end.as_str())?;
            Ok(text)
        }
        BootFault::Long { hart } => format!(in alloc; "boot long hart={hart}"),
    }
}

/// A host word that no host serves, and the turn in which it was sent.
fn host_text(alloc: Global, word: u64, turn: u64) -> Result<String, AllocError>
    ensures { IfOk result (λ text. string_bytes text ≡ status_text (Status.BadHostWord word turn) (Tally.Judged 0)) }
{
    let mut text = String::from_str(alloc, "bad host word=")?;
    push_hex(&mut text, 16, word)?;
    let end = format!(in alloc; " turn={turn}")?;
    text.push_str(end.as_str())?;
    Ok(text)
}

/// What a job that was done has counted.
fn done_text(alloc: Global, tally: Tally) -> Result<String, AllocError>
    ensures { IfOk result (λ text. string_bytes text ≡ done_text tally) }
{
    match tally {
        Tally::Turned { turns, taken } => format!(in alloc; "done turns={turns} taken={taken}"),
        Tally::Judged(records) => format!(in alloc; "passed records={records}"),
    }
}

/// The text of a status.
fn text_of(alloc: Global, status: &Status, tally: Tally) -> Result<String, AllocError>
    ensures { IfOk result (λ text. string_bytes text ≡ status_text status.now tally) }
{
    match status {
        Status::Done => done_text(alloc, tally),
        Status::Usage => String::from_str(alloc, "usage: dromajo command --name value"),
        Status::BadConfig(fault) => config_text(alloc, fault),
        Status::BadElf(fault) => elf_text(alloc, *fault),
        Status::BadCheckpoint(fault) => checkpoint_text(alloc, fault),
        Status::BootFault(fault) => boot_text(alloc, *fault),
        Status::ReadFault(which) => {
            let name = object_name(*which);
            format!(in alloc; "read fault {name}")
        }
        Status::WriteFault(which) => {
            let name = object_name(*which);
            format!(in alloc; "write fault {name}")
        }
        Status::NoMemory => String::from_str(alloc, "no memory"),
        Status::GuestEnded { code, turn } => {
            format!(in alloc; "guest ended code={code} turn={turn}")
        }
        Status::BadHostWord { word, turn } => host_text(alloc, *word, *turn),
        Status::Disagree {
            n,
            field,
            allowed,
            given,
        } => disagree_text(alloc, *n, *field, *allowed, *given),
        Status::BadLine { n, column } => format!(in alloc; "bad line record={n} column={column}"),
        Status::TooMany(most) => format!(in alloc; "too many records={most}"),
    }
}

/// The report line of a status, with its newline, over what its job counted.
#[tactic(auto, unfolding(crate::specs::Report::report_line))]
pub(crate) fn report_line(
    alloc: Global,
    status: &Status,
    tally: Tally,
) -> Result<String, AllocError>
    ensures { IfOk result (λ line. string_bytes line ≡ report_line status.now tally) }
{
    let mut line = text_of(alloc, status, tally)?;
    line.push('\n')?;
    Ok(line)
}
