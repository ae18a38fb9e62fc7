//! Places as they were gathered, beside their report.

use rule_reports::{add, in_order, notes_in_order, shortened};
use std::alloc::Global;
use std::process::Abort;
use std::test::Fail;
use venue_types::{Finding, Note};

// A rule or a note, a file, an index and a member.
type Place = (u8, u8, u32, u32);

// Places as they are gathered, and as they are reported.
static TABLE: [(&[Place], &[Place]); 4] = [
    (&[], &[]),
    (
        &[
            (13, 2, 7, 5),
            (13, 2, 7, 69),
            (13, 2, 7, 10),
            (13, 2, 7, 16),
        ],
        &[
            (13, 2, 7, 5),
            (13, 2, 7, 10),
            (13, 2, 7, 16),
            (13, 2, 7, 69),
        ],
    ),
    (&[(9, 1, 0, 0), (9, 1, 0, 0), (9, 1, 0, 0)], &[(9, 1, 0, 0)]),
    (
        &[(2, 1, 0, 0), (1, 2, 0, 0), (1, 1, 1, 0), (1, 1, 0, 1)],
        &[(1, 1, 0, 1), (1, 1, 1, 0), (1, 2, 0, 0), (2, 1, 0, 0)],
    ),
];

// Each of the places as a finding, and beside each one that isn't there.
fn findings_of(alloc: Global, places: &[Place]) -> Result<Vec<Finding>, Fail> {
    let mut findings = Vec::new(alloc);
    for &(rule, file, index, member) in places {
        let finding = Finding {
            rule,
            file,
            index,
            member,
        };
        add(&mut findings, true, finding)?;
        add(&mut findings, false, Finding { rule: 0, ..finding })?;
    }
    Ok(findings)
}

fn notes_of(alloc: Global, places: &[Place]) -> Result<Vec<Note>, Fail> {
    let mut notes = Vec::new(alloc);
    for &(note, file, index, member) in places {
        let note = Note {
            note,
            file,
            index,
            member,
        };
        add(&mut notes, true, note)?;
    }
    Ok(notes)
}

fn judge_findings(
    rt: &impl Abort,
    alloc: Global,
    gathered: &[Place],
    wanted: &[Place],
) -> Result<(), Fail> {
    let report = shortened(in_order(findings_of(alloc, gathered)?));
    assert!(rt; report.total == wanted.len() as u64);
    assert!(rt; report.first.len() == wanted.len());
    for (finding, place) in report.first.as_slice().iter().zip(wanted) {
        assert!(rt; (finding.rule, finding.file, finding.index, finding.member) == *place);
    }
    Ok(())
}

fn judge_notes(
    rt: &impl Abort,
    alloc: Global,
    gathered: &[Place],
    wanted: &[Place],
) -> Result<(), Fail> {
    let noted = notes_in_order(notes_of(alloc, gathered)?);
    assert!(rt; noted.len() == wanted.len());
    for (note, place) in noted.as_slice().iter().zip(wanted) {
        assert!(rt; (note.note, note.file, note.index, note.member) == *place);
    }
    Ok(())
}

fn judge(rt: &impl Abort, alloc: Global, rows: &[(&[Place], &[Place])]) -> Result<(), Fail> {
    for (gathered, wanted) in rows {
        judge_findings(rt, alloc, gathered, wanted)?;
        judge_notes(rt, alloc, gathered, wanted)?;
    }
    Ok(())
}

#[test]
fn lists_places_once_and_in_order(rt: HostRuntime) -> Result<(), Fail> {
    judge(&rt, rt.alloc(), &TABLE)
}
