//! Folders beside what is found in them: the rules by their numbers, and the places.

ghost use Rattle.std.specs.Prelude.{◌≡◌, IfOk, length};

use crate::small_folders::{MANIFEST, files};
use imdf_read::{ReadOut, read_folder};
use std::alloc::Global;
use std::process::Abort;
use std::sync::Arc;
use std::test::Fail;
use venue_types::{Files, Finding};

// A rule, a file, an index and a member.
type Place = (u8, u8, u32, u32);

const NONE: usize = 17;

// A file by its number, its text, and what is found.
type Row = (usize, &'static [u8], &'static [Place]);

static TABLE: [Row; 11] = [
    (NONE, b"", &[(1, 0, 0, 0), (14, 16, 0, 0)]),
    (1, b"{\"a\":", &[(3, 1, 0, 0), (14, 16, 0, 0)]),
    (
        1,
        b"[[[[[[[[[[[[[[[[[[[[[[[[[[[[[[[[[[[[[[[[[[[[[[[[[[[[[[[[[[[[[[[[[]]]]]]]]]]]]]]]]]]]]]]]]]]]]]]]]]]]]]]]]]]]]]]]]]]]]]]]]]]]]]]]]]",
        &[(4, 1, 0, 0), (14, 16, 0, 0)],
    ),
    (
        0,
        b"{\"version\":1,\"language\":1}",
        &[(5, 0, 0, 0), (6, 0, 0, 0), (7, 0, 0, 0), (14, 16, 0, 0)],
    ),
    (16, b"{}", &[(8, 16, 0, 0)]),
    (
        16,
        b"{\"type\":\"FeatureCollection\",\"features\":[1,2]}",
        &[(9, 16, 0, 0), (9, 16, 1, 0), (14, 16, 0, 0)],
    ),
    (
        1,
        b"{\"type\":\"FeatureCollection\",\"features\":[{\"type\":\"Feature\",\"geometry\":1,\"properties\":{}}]}",
        &[(10, 1, 0, 0), (11, 1, 0, 0), (12, 1, 0, 0), (14, 16, 0, 0)],
    ),
    (
        2,
        b"{\"type\":\"FeatureCollection\",\"features\":[{\"type\":\"Feature\",\"id\":\"00000000000040008000000000000001\",\"feature_type\":\"amenity\",\"geometry\":{\"type\":\"Point\",\"coordinates\":[1,91]},\"properties\":{\"unit_ids\":[\"00000000000040008000000000000002\",null],\"category\":null}}]}",
        &[
            (13, 2, 0, 10),
            (13, 2, 0, 69),
            (14, 16, 0, 0),
            (21, 2, 0, 0),
        ],
    ),
    (
        10,
        b"{\"type\":\"FeatureCollection\",\"features\":[{\"type\":\"Feature\",\"id\":\"00000000000040008000000000000001\",\"feature_type\":\"level\",\"geometry\":{\"type\":\"Polygon\",\"coordinates\":[]},\"properties\":{\"ordinal\":0.5}}]}",
        &[(14, 16, 0, 0), (15, 10, 0, 0), (22, 10, 0, 0)],
    ),
    (
        13,
        b"{\"type\":\"FeatureCollection\",\"features\":[{\"type\":\"Feature\",\"id\":\"00000000000040008000000000000001\",\"feature_type\":\"relationship\",\"properties\":{\"category\":\"ramp\"}}]}",
        &[(14, 16, 0, 0), (16, 13, 0, 0)],
    ),
    (
        16,
        b"{\"type\":\"FeatureCollection\",\"features\":[{\"type\":\"Feature\",\"id\":\"00000000000040008000000000000001\",\"feature_type\":\"venue\",\"geometry\":{\"type\":\"Polygon\",\"coordinates\":[[[0,0],[1,0],[1,1],[0,0]]]},\"properties\":{}}]}",
        &[],
    ),
];

// This file and a sound manifest; without a file, there is no manifest either.
fn folder(alloc: Global, file: usize, bytes: &[u8]) -> Result<Files, Fail>
    ensures { IfOk result (λ files. length files.slots ≡ 17) }
{
    if file == NONE {
        files(alloc, &[])
    } else {
        files(alloc, &[(file, bytes), (0, MANIFEST)])
    }
}

// What is read of them.
fn read(alloc: Global, file: usize, bytes: &[u8]) -> Result<Arc<ReadOut>, Fail> {
    let files = folder(alloc, file, bytes)?;
    Ok(Arc::new(alloc, read_folder(alloc, &files)?)?)
}

fn judge_findings(rt: &impl Abort, findings: &[Finding], wanted: &[Place]) {
    assert!(rt; findings.len() == wanted.len());
    for (finding, place) in findings.iter().zip(wanted) {
        assert!(rt; (finding.rule, finding.file, finding.index, finding.member) == *place);
    }
}

fn judge(rt: &impl Abort, alloc: Global, row: &Row) -> Result<(), Fail> {
    let (file, bytes, wanted) = *row;
    let out = read(alloc, file, bytes)?;
    judge_findings(rt, out.findings.as_slice(), wanted);
    assert!(rt; out.notes.is_empty());
    if file == 16 && wanted.is_empty() {
        assert!(rt; out.features.venues.len() == 1);
    }
    Ok(())
}

#[test]
fn a_broken_folder_has_its_findings(rt: HostRuntime) -> Result<(), Fail> {
    for row in &TABLE {
        judge(&rt, rt.alloc(), row)?;
    }
    Ok(())
}
