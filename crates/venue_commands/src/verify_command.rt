//! The command `verify`.

ghost use Rattle.std.specs.Prelude.{◌≡◌, IfOk, IfSome, string_bytes, IsErrOf};
ghost use Rattle.venue_ports.specs.Files.{HasReadCause};
ghost use Rattle.venue_commands.specs.Files.{answer_name};
ghost use Rattle.venue_commands.specs.FaultOrder.{FailsOverTable};
ghost use Rattle.venue_commands.specs.Verified.{clause_text, verdict_text, verdict_status, VerifyOutput};
ghost use Rattle.venue_commands.specs.Steps.{IsPrinted};

use crate::base::{answer_of, table_of};
use crate::command::Base;
use crate::printout::{Printout, printed, stopped};
use crate::status::Status;
use route_certificate::{FailedClause, Verdict, verify};
use std::alloc::{AllocError, Global};
use venue_ports::{Folders, ReadFault};

// What is printed where an answer fails.
fn fails(alloc: Global, clause: FailedClause) -> Result<String, AllocError>
    ensures { IfOk result (λ text. string_bytes text ≡ clause_text clause) }
{
    match clause {
        FailedClause::Step(step) => format!(in alloc; "fails step {step}\n"),
        FailedClause::End => String::from_str(alloc, "fails end\n"),
        FailedClause::Sum => String::from_str(alloc, "fails sum\n"),
        FailedClause::Start => String::from_str(alloc, "fails start\n"),
        FailedClause::Finish => String::from_str(alloc, "fails finish\n"),
        FailedClause::Link(link) => format!(in alloc; "fails link {link}\n"),
    }
}

// The answer where the answer of the base is judged.
fn judged(alloc: Global, verdict: Verdict) -> Result<Printout, AllocError>
    ensures text { IfOk result (λ answer. answer.text ≡ verdict_text verdict) }
    ensures status { IfOk result (λ answer. answer.status ≡ verdict_status verdict) }
{
    match verdict {
        Verdict::Proved => {
            let text = String::from_str(alloc, "proved\n")?;
            Ok(printed(Status::Done, text))
        }
        Verdict::Fails(clause) => Ok(printed(Status::Negative, fails(alloc, clause)?)),
    }
}

/// The answer to `verify BASE`.
pub(crate) fn verify_answer<F: Folders>(
    alloc: Global,
    base: Base<'_>,
    folders: &mut F,
) -> Result<Printout, ReadFault>
    ensures told { IfOk result (λ answer. IfSome (F.files folders.old) (λ files. VerifyOutput files base.entry.name.now answer.text answer.status)) }
    ensures plain { IfOk result (λ answer. IsPrinted answer.status) }
    ensures same { F.files folders.new ≡ F.files folders.old }
    ensures failed { IsErrOf result ReadFault.Failed → FailsOverTable (F.files folders.old) (F.asked folders.old) (F.asked folders.new) base.entry.name.now answer_name }
    ensures cause { HasReadCause (F.faults folders.old) (F.faults folders.new) result }
{
    let table = match table_of(alloc, base.name, folders)? {
        Ok(table) => table,
        Err(cause) => return Ok(stopped(alloc, "links.txt", cause)?),
    };
    let answer = match answer_of(alloc, base.name, &table, folders)? {
        Ok(answer) => answer,
        Err(cause) => return Ok(stopped(alloc, "answer.txt", cause)?),
    };
    Ok(judged(alloc, verify(&table, &answer))?)
}
