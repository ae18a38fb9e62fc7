//! The lines of a check.

ghost use Rattle.std.specs.Prelude.{◌≡◌, ◌++◌, IfOk, OnOk, string_bytes, take};
ghost use Rattle.std.specs.List.{flat_map};
ghost use Rattle.check_text.specs.Text.{place_line, finding_line, note_line, rejected_text, accepted_text};

use crate::names::{file_name, note_name, rule_name};
use std::alloc::{AllocError, Global};
use venue_types::{Finding, Note, Report};

// How many findings or notes are printed at most.
const SHOWN: usize = 500;

// The line of a place.
fn place_line(
    alloc: Global,
    what: &str,
    name: &str,
    file: u8,
    index: u32,
    member: u32,
) -> Result<String, AllocError>
    ensures { IfOk result (λ text. string_bytes text ≡ place_line what.now name.now file index member) }
{
    let file = file_name(file);
    format!(in alloc; "{what} {name} {file} {index} {member}\n")
}

#[tactic(auto, unfolding(crate::specs::Text::finding_line))]
fn finding_line(alloc: Global, found: &Finding) -> Result<String, AllocError>
    ensures { IfOk result (λ text. string_bytes text ≡ finding_line found.now) }
{
    let name = rule_name(found.rule);
    place_line(
        alloc,
        "finding",
        name,
        found.file,
        found.index,
        found.member,
    )
}

#[tactic(auto, unfolding(crate::specs::Text::note_line))]
fn note_line(alloc: Global, noted: &Note) -> Result<String, AllocError>
    ensures { IfOk result (λ text. string_bytes text ≡ note_line noted.now) }
{
    let name = note_name(noted.note);
    place_line(alloc, "note", name, noted.file, noted.index, noted.member)
}

fn push_findings(alloc: Global, text: &mut String, findings: &[Finding]) -> Result<(), AllocError>
    ensures { OnOk result (string_bytes text.new ≡ string_bytes text.old ++ flat_map finding_line findings.now) }
{
    for found in findings {
        let line = finding_line(alloc, found)?;
        text.push_str(&line)?;
    }
    Ok(())
}

fn push_notes(alloc: Global, text: &mut String, notes: &[Note]) -> Result<(), AllocError>
    ensures { OnOk result (string_bytes text.new ≡ string_bytes text.old ++ flat_map note_line notes.now) }
{
    for noted in notes {
        let line = note_line(alloc, noted)?;
        text.push_str(&line)?;
    }
    Ok(())
}

// The first items of a slice, as many as are printed.
fn printed<T>(items: &[T]) -> &[T]
    ensures { result.now ≡ take 500 items.now }
{
    &items[..SHOWN.min(items.len())]
}

/// The text of a rejected folder: the number of all findings, and a line for each of the first 500.
pub fn rejected_text(alloc: Global, report: &Report) -> Result<String, AllocError>
    ensures { IfOk result (λ text. string_bytes text ≡ rejected_text report.now) }
{
    let total = report.total;
    let mut text = format!(in alloc; "rejected {total}\n")?;
    push_findings(alloc, &mut text, printed(report.first.as_slice()))?;
    Ok(text)
}

/// The text of an accepted folder: how many features it has, the number of all notes, and a line for each of the
/// first 500.
pub fn accepted_text(alloc: Global, count: usize, notes: &[Note]) -> Result<String, AllocError>
    ensures { IfOk result (λ text. string_bytes text ≡ accepted_text count notes.now) }
{
    let all = notes.len();
    let mut text = format!(in alloc; "accepted {count}\nnotes {all}\n")?;
    push_notes(alloc, &mut text, printed(notes))?;
    Ok(text)
}
