//! From what was gathered to the report.

ghost use Rattle.std.specs.Prelude.{Contains};
ghost use Rattle.rule_reports.specs.Reports.{IsReport, IsNoteList, Shortens};

use venue_types::{Finding, List, Note, Report};

const SHOWN: usize = 500;

/// The report of what was gathered, in whatever order and however often. It takes no memory, and n log n time.
pub fn in_order(gathered: Vec<Finding>) -> List<Finding>
    ensures { IsReport (Contains gathered.items) result }
{
    let mut findings = gathered;
    findings.sort_unstable();
    findings.dedup();
    List::from_vec(findings)
}

/// The notes that were gathered, in whatever order and however often. It takes no memory, and n log n time.
pub fn notes_in_order(gathered: Vec<Note>) -> List<Note>
    ensures { IsNoteList (Contains gathered.items) result }
{
    let mut notes = gathered;
    notes.sort_unstable();
    notes.dedup();
    List::from_vec(notes)
}

/// The first 500 findings, and how many there are.
pub fn shortened(findings: List<Finding>) -> Report
    ensures { Shortens findings result }
{
    let mut first = findings.into_vec();
    let total = first.len() as u64;
    first.truncate(SHOWN);
    Report {
        first: List::from_vec(first),
        total,
    }
}
