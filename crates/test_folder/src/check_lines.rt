//! The texts of a report and of notes.

use check_text::{accepted_text, file_name, rejected_text, rule_name};
use std::alloc::{AllocError, Global};
use std::process::Abort;
use std::test::Fail;
use venue_types::{Finding, List, Note, Report};

// How many lines a text has.
fn lines(text: &str) -> usize {
    text.as_bytes()
        .iter()
        .filter(|byte| **byte == b'\n')
        .count()
}

// A number, the rule of it and the file of it.
static NAMES: [(u8, &str, &str); 11] = [
    (0, "?", "manifest.json"),
    (1, "F1", "address.geojson"),
    (6, "M2", "fixture.geojson"),
    (15, "L1", "unit.geojson"),
    (16, "Q1", "venue.geojson"),
    (17, "S1", "?"),
    (26, "G6", "?"),
    (35, "S6", "?"),
    (36, "S7", "?"),
    (37, "S8", "?"),
    (38, "?", "?"),
];

fn judge_names(rt: &impl Abort) {
    for (number, rule, file) in &NAMES {
        assert!(rt; rule_name(*number) == *rule);
        assert!(rt; file_name(*number) == *file);
    }
}

const FOUND: Finding = Finding {
    rule: 23,
    file: 15,
    index: 7,
    member: 4294967295,
};

// A report that has one of its findings.
fn judge_one(rt: &impl Abort, alloc: Global, report: &Report) -> Result<(), AllocError> {
    assert!(rt;
        rejected_text(alloc, report)?.as_str()
            == "rejected 501\nfinding C7 unit.geojson 7 4294967295\n"
    );
    Ok(())
}

// A report that has more of them than are printed.
fn judge_many(rt: &impl Abort, alloc: Global, report: &Report) -> Result<(), AllocError> {
    assert!(rt; lines(rejected_text(alloc, report)?.as_str()) == 501);
    Ok(())
}

fn judge_reports(rt: &impl Abort, alloc: Global) -> Result<(), AllocError> {
    let mut report = Report {
        first: List::new(alloc),
        total: 501,
    };
    report.first.push(FOUND).expect(rt, "memory");
    judge_one(rt, alloc, &report)?;
    for _ in 1..501 {
        report.first.push(FOUND).expect(rt, "memory");
    }
    judge_many(rt, alloc, &report)
}

fn judge_notes(rt: &impl Abort, alloc: Global) -> Result<(), AllocError> {
    let noted = Note {
        note: 3,
        file: 13,
        index: 0,
        member: 8,
    };
    let other = Note { note: 5, ..noted };
    assert!(rt; accepted_text(alloc, 44, &[])?.as_str() == "accepted 44\nnotes 0\n");
    assert!(rt;
        accepted_text(alloc, 9, &[noted])?.as_str()
            == "accepted 9\nnotes 1\nnote N3 relationship.geojson 0 8\n"
    );
    assert!(rt;
        accepted_text(alloc, 9, &[noted, other])?.as_str()
            == "accepted 9\nnotes 2\nnote N3 relationship.geojson 0 8\nnote N5 relationship.geojson 0 8\n"
    );
    Ok(())
}

#[test]
fn a_check_is_printed(rt: HostRuntime) -> Result<(), Fail> {
    judge_names(&rt);
    judge_reports(&rt, rt.alloc())?;
    judge_notes(&rt, rt.alloc())?;
    Ok(())
}
