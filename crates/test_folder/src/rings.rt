//! Polygons and positions, beside what is wrong with them.

ghost use Rattle.std.specs.Prelude.{◌≡◌, length};
ghost use Rattle.imdf_read.specs.Sound.{AreSound};

use crate::small_folders::{
    Corner, MANIFEST, VENUE, collection, files, polygons, push_feature, sound_rows,
};
use ring_rules::{add_ring_findings, is_spread};
use std::alloc::{AllocError, Global};
use std::process::Abort;
use std::sync::Arc;
use std::test::Fail;
use test_station::no_rows;
use venue_types::{
    AnchorRow, FeatureId, Features, Files, Finding, List, Point, Shape, Text, UnitRow,
};

const SQUARE: &[Corner] = &[(0, 0), (9, 0), (9, 9), (0, 9), (0, 0)];

const INNER: &[Corner] = &[(3, 3), (3, 6), (6, 6), (6, 3), (3, 3)];

const ON_BORDER: &[Corner] = &[(0, 3), (9, 5), (3, 9), (0, 3)];

const FLAT: &[Corner] = &[(3, 3), (4, 4), (6, 6), (3, 3)];

const BOW_TIE: &[Corner] = &[(0, 0), (6, 6), (6, 0), (0, 4), (0, 0)];

const IN_BOW_TIE: &[Corner] = &[(5, 2), (5, 4), (4, 3), (5, 2)];

const TOUCHING: &[Corner] = &[(0, 0), (6, 0), (3, 3), (6, 6), (0, 6), (3, 3), (0, 0)];

const IN_TOUCHING: &[Corner] = &[(3, 1), (4, 1), (3, 2), (3, 1)];

const OTHER: &[Corner] = &[(20, 0), (29, 0), (29, 9), (20, 9), (20, 0)];

const IN_OTHER: &[Corner] = &[(23, 3), (26, 3), (26, 6), (23, 3)];

// What is wrong with the rings of sound rows.
fn findings_of(alloc: Global, features: &Features) -> Result<Vec<Finding>, Fail>
    requires { AreSound features.now }
{
    if is_spread(features) {
        return Err(Fail::new("positions far apart"));
    }
    let mut findings = Vec::new(alloc);
    add_ring_findings(alloc, features, &mut findings)?;
    Ok(findings)
}

/// What is wrong with the rings in files in which the first phase finds nothing.
pub(crate) fn ring_findings(alloc: Global, files: &Files) -> Result<Vec<Finding>, Fail>
    requires { length files.now.slots ≡ 17 }
{
    let features = sound_rows(alloc, files)?;
    findings_of(alloc, &features)
}

// The file of a level of this shape.
fn level_file(alloc: Global, level: &str) -> Result<String, AllocError> {
    let mut levels = String::new(alloc);
    push_feature(alloc, &mut levels, "level", 1, level, "\"ordinal\":0")?;
    collection(alloc, levels.as_str())
}

// The file of eight units on it, of which the last has a shape of its own.
fn unit_file(alloc: Global, usual: &str, last: &str) -> Result<String, AllocError> {
    let level = "\"category\":\"room\",\"level_id\":\"00000000-0000-4000-8000-000000000001\"";
    let mut units = String::new(alloc);
    for number in 2..9u32 {
        push_feature(alloc, &mut units, "unit", number, usual, level)?;
    }
    push_feature(alloc, &mut units, "unit", 9, last, level)?;
    collection(alloc, units.as_str())
}

// What is wrong with the rings of a level and of eight units on it, of which the last has these polygons.
fn findings(alloc: Global, parts: &[&[&[Corner]]]) -> Result<Vec<Finding>, Fail> {
    let square = polygons(alloc, &[&[SQUARE]])?;
    let last = polygons(alloc, parts)?;
    let levels = level_file(alloc, square.as_str())?;
    let units = unit_file(alloc, square.as_str(), last.as_str())?;
    let files = files(
        alloc,
        &[
            (0, MANIFEST),
            (10, levels.as_bytes()),
            (15, units.as_bytes()),
            (16, VENUE),
        ],
    )?;
    ring_findings(alloc, &files)
}

// A border, a hole, another border and its hole, and what is found: rules and members.
type Row = (
    &'static [Corner],
    &'static [Corner],
    &'static [Corner],
    &'static [Corner],
    &'static [(u8, u32)],
);

static ROWS: [Row; 8] = [
    (SQUARE, INNER, OTHER, IN_OTHER, &[]),
    (SQUARE, ON_BORDER, OTHER, IN_OTHER, &[]),
    (TOUCHING, IN_TOUCHING, OTHER, IN_OTHER, &[]),
    (SQUARE, IN_OTHER, OTHER, INNER, &[(28, 1), (28, 3)]),
    (SQUARE, FLAT, OTHER, IN_OTHER, &[(29, 1)]),
    (OTHER, IN_OTHER, SQUARE, FLAT, &[(29, 3)]),
    (OTHER, IN_OTHER, BOW_TIE, IN_BOW_TIE, &[(27, 2)]),
    (FLAT, INNER, OTHER, IN_OTHER, &[(29, 0), (28, 1)]),
];

fn judge(rt: &impl Abort, alloc: Global, row: &Row) -> Result<(), Fail> {
    let (border, hole, other, inside, wanted) = *row;
    let findings = findings(alloc, &[&[border, hole], &[other, inside]])?;
    assert!(rt; findings.len() == wanted.len());
    for (finding, (rule, member)) in findings.iter().zip(wanted) {
        assert!(rt;
            (finding.rule, finding.file, finding.index, finding.member) == (*rule, 15, 7, *member)
        );
    }
    Ok(())
}

#[test]
fn a_ring_has_its_findings(rt: HostRuntime) -> Result<(), Fail> {
    for row in &ROWS {
        judge(&rt, rt.alloc(), row)?;
    }
    Ok(())
}

// These anchors.
fn anchor_rows(alloc: Global, anchors: &[Corner]) -> Result<List<AnchorRow>, AllocError> {
    let id = FeatureId(1);
    let mut rows = Vec::new(alloc);
    for (x, y) in anchors {
        let point = Point { x: *x, y: *y };
        rows.push(AnchorRow {
            id,
            address: None,
            unit: id,
            point,
        })?;
    }
    Ok(List::from_vec(rows))
}

// A unit that has only a display point.
fn unit_rows(alloc: Global, display: Corner) -> Result<List<UnitRow>, AllocError> {
    let id = FeatureId(1);
    let unit = UnitRow {
        id,
        level: id,
        shape: Shape {
            parts: List::new(alloc),
        },
        display: Some(Point {
            x: display.0,
            y: display.1,
        }),
        category: Text::from_string(String::new(alloc)),
        restricted: false,
        name: List::new(alloc),
    };
    Ok(List::from_vec(vec![in alloc; unit]?))
}

// A folder of anchors and units alone.
fn rows_of(alloc: Global, anchors: List<AnchorRow>, units: List<UnitRow>) -> Features {
    let mut rows = no_rows(alloc);
    rows.anchors = anchors;
    rows.units = units;
    rows
}

// A folder of anchors, and of a unit that has only a display point.
fn folder(alloc: Global, anchors: &[Corner], display: Corner) -> Result<Arc<Features>, Fail> {
    let anchors = anchor_rows(alloc, anchors)?;
    let units = unit_rows(alloc, display)?;
    Ok(Arc::new(alloc, rows_of(alloc, anchors, units))?)
}

// Anchors, a display point, and whether they are spread.
static SPREADS: [(&[Corner], Corner, bool); 6] = [
    (&[], (5, 5), false),
    (&[(0, 0), (200_000_000, 0)], (0, 200_000_000), false),
    (&[(0, 0), (200_000_001, 0)], (0, 0), true),
    (&[(0, -1), (0, 200_000_000)], (0, 0), true),
    (&[(0, 0)], (0, -200_000_001), true),
    (&[(i64::MIN, 0), (i64::MAX, 0)], (0, 0), true),
];

#[test]
fn a_folder_is_spread(rt: HostRuntime) -> Result<(), Fail> {
    for (anchors, display, wanted) in &SPREADS {
        let features = folder(rt.alloc(), anchors, *display)?;
        assert!(rt; is_spread(&features) == *wanted);
    }
    Ok(())
}
