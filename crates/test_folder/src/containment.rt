//! Units and amenities beside what is to hold them, worked out by hand.

ghost use Rattle.std.specs.Prelude.{IfOk};
ghost use Rattle.std.specs.Arc.{arc_value};
ghost use Rattle.imdf_read.specs.Rows.{HaveOwnIds};
ghost use Rattle.imdf_read.specs.Sound.{AreSound};

use crate::small_folders::{
    Corner, MANIFEST, VENUE, collection, files, named_rows, point, polygons, push_feature,
};
use contain_rules::add_hold_findings;
use ring_rules::is_spread;
use std::alloc::{AllocError, Global};
use std::process::Abort;
use std::sync::Arc;
use std::test::Fail;
use venue_types::{Features, Finding};

// The file of a level of this shape.
fn level_file(alloc: Global, level: &str) -> Result<String, Fail> {
    let mut levels = String::new(alloc);
    push_feature(alloc, &mut levels, "level", 1, level, "\"ordinal\":0")?;
    Ok(collection(alloc, levels.as_str())?)
}

// The file of a unit of this shape on it.
fn unit_file(alloc: Global, unit: &str) -> Result<String, Fail> {
    let mut units = String::new(alloc);
    push_feature(
        alloc,
        &mut units,
        "unit",
        2,
        unit,
        "\"category\":\"room\",\"level_id\":\"00000000-0000-4000-8000-000000000001\"",
    )?;
    Ok(collection(alloc, units.as_str())?)
}

// The file of amenities of the unit.
fn amenity_file(alloc: Global, amenities: &[Corner]) -> Result<String, Fail> {
    let mut points = String::new(alloc);
    for (number, corner) in (3..90u32).zip(amenities) {
        push_feature(
            alloc,
            &mut points,
            "amenity",
            number,
            point(alloc, *corner)?.as_str(),
            "\"category\":\"restroom\",\"unit_ids\":[\"00000000-0000-4000-8000-000000000002\"]",
        )?;
    }
    Ok(collection(alloc, points.as_str())?)
}

// What isn't held in rows that are sound and have identifiers of their own.
fn findings_of(alloc: Global, features: &Features, tolerance: u32) -> Result<Vec<Finding>, Fail>
    requires sound { AreSound features.now }
    requires own_ids { HaveOwnIds features.now }
{
    if is_spread(features) {
        return Err(Fail::new("positions far apart"));
    }
    let mut findings = Vec::new(alloc);
    add_hold_findings(alloc, features, tolerance.min(1_000_000), &mut findings)?;
    Ok(findings)
}

// The rows of a folder of these files.
fn rows_of<'a>(
    alloc: Global,
    levels: &'a str,
    units: &'a str,
    points: &'a str,
) -> Result<Arc<Features>, Fail>
    ensures sound { IfOk result (λ features. AreSound (arc_value features)) }
    ensures own_ids { IfOk result (λ features. HaveOwnIds (arc_value features)) }
{
    let files = files(
        alloc,
        &[
            (0, MANIFEST),
            (2, points.as_bytes()),
            (10, levels.as_bytes()),
            (15, units.as_bytes()),
            (16, VENUE),
        ],
    )?;
    named_rows(alloc, &files)
}

// What isn't held in a folder of a level, a unit on it, and amenities of the unit.
fn findings(
    alloc: Global,
    level: &str,
    tolerance: u32,
    unit: &str,
    amenities: &[Corner],
) -> Result<Vec<Finding>, Fail> {
    let levels = level_file(alloc, level)?;
    let units = unit_file(alloc, unit)?;
    let points = amenity_file(alloc, amenities)?;
    let features = rows_of(alloc, levels.as_str(), units.as_str(), points.as_str())?;
    findings_of(alloc, &features, tolerance)
}

// The only unit leaves its level.
const UNIT_LEAVES: Finding = Finding {
    rule: 30,
    file: 15,
    index: 0,
    member: 0,
};

const LEVEL: &[Corner] = &[(0, 0), (1000, 0), (1000, 1000), (0, 1000), (0, 0)];

const HOLE: &[Corner] = &[(400, 400), (400, 600), (600, 600), (600, 400), (400, 400)];

// The tolerance, two opposite corners of the unit, and whether it leaves the level.
type Unit = (u32, Corner, Corner, bool);

static UNITS: [Unit; 14] = [
    (0, (100, 100), (300, 300), false),
    (0, (0, 0), (1000, 1000), false),
    // One side beyond the east, the north, the west and the south.
    (0, (100, 100), (1001, 300), true),
    (1, (100, 100), (1001, 300), false),
    (5, (100, 100), (300, 1006), true),
    (6, (100, 100), (300, 1006), false),
    (5, (-6, 100), (300, 300), true),
    (6, (-6, 100), (300, 300), false),
    (5, (100, -6), (300, 300), true),
    (6, (100, -6), (300, 300), false),
    // One corner in the middle of the hole.
    (99, (100, 100), (500, 500), true),
    (100, (100, 100), (500, 500), false),
    // One corner off the level's corner, at the distances 5 and the square root of 32.
    (5, (900, 900), (1003, 1004), false),
    (5, (900, 900), (1004, 1004), true),
];

// What is found where a unit leaves its level, or doesn't.
fn wanted(leaves: bool) -> &'static [Finding] {
    if leaves { &[UNIT_LEAVES] } else { &[] }
}

fn judge_unit(rt: &impl Abort, alloc: Global, level: &str, row: &Unit) -> Result<(), Fail> {
    let (tolerance, low, high, leaves) = *row;
    let corners = [low, (high.0, low.1), high, (low.0, high.1), low];
    let unit = polygons(alloc, &[&[&corners]])?;
    let found = findings(alloc, level, tolerance, unit.as_str(), &[])?;
    assert!(rt; found.as_slice() == wanted(leaves));
    Ok(())
}

// Of eight amenities the last lies beside its unit, which is the level without its hole.
fn judge_amenities(rt: &impl Abort, alloc: Global) -> Result<(), Fail> {
    let inside = (100, 100);
    let mut amenities = [inside; 8];
    amenities[7] = (1001, 100);
    let unit = polygons(alloc, &[&[LEVEL]])?;
    let found = findings(alloc, unit.as_str(), 0, unit.as_str(), &amenities)?;
    let finding = Finding {
        rule: 32,
        file: 2,
        index: 7,
        member: 0,
    };
    assert!(rt; found.as_slice() == [finding].as_slice());
    Ok(())
}

#[test]
fn units_leave_their_level(rt: HostRuntime) -> Result<(), Fail> {
    let alloc = rt.alloc();
    let level = polygons(alloc, &[&[LEVEL, HOLE]])?;
    for row in &UNITS {
        judge_unit(&rt, alloc, level.as_str(), row)?;
    }
    judge_amenities(&rt, alloc)
}

// How many teeth the comb has.
const TEETH: i64 = 4_999;

// A comb whose teeth point north, each a nanodegree longer than the one west of it.
fn comb(alloc: Global) -> Result<String, AllocError> {
    let mut corners = Vec::new(alloc);
    for i in 0..TEETH {
        let x = i.wrapping_mul(1000);
        let right = x.wrapping_add(500);
        corners.push((x, i.wrapping_add(1000)))?;
        corners.push((x, i.wrapping_add(9_000_000)))?;
        corners.push((right, i.wrapping_add(9_000_000)))?;
        corners.push((right, i.wrapping_add(1001)))?;
    }
    corners.push((4_998_500, 0))?;
    corners.push((0, 0))?;
    corners.push((0, 1000))?;
    polygons(alloc, &[&[corners.as_slice()]])
}

// The corners of the tips of its teeth, this far north of them.
fn tips(alloc: Global, north: i64) -> Result<String, AllocError> {
    let mut corners = Vec::new(alloc);
    for i in 0..TEETH {
        let x = i.wrapping_mul(1000);
        let y = i.wrapping_add(9_000_000).wrapping_add(north);
        corners.push((x, y))?;
        corners.push((x.wrapping_add(500), y))?;
    }
    corners.push((0, 9_000_000i64.wrapping_add(north)))?;
    polygons(alloc, &[&[corners.as_slice()]])
}

// The tolerance, how far north of the tips the unit's vertices lie, and whether it leaves the level.
static TIPS: [(u32, i64, bool); 6] = [
    (0, 0, false),
    (0, 1, true),
    (1, 1, false),
    (5000, 5001, true),
    (5001, 5001, false),
    (0, -1, false),
];

fn judge_tips(
    rt: &impl Abort,
    alloc: Global,
    level: &str,
    row: &(u32, i64, bool),
) -> Result<(), Fail> {
    let (tolerance, north, leaves) = *row;
    let unit = tips(alloc, north)?;
    let found = findings(alloc, level, tolerance, unit.as_str(), &[])?;
    assert!(rt; found.as_slice() == wanted(leaves));
    Ok(())
}

#[test]
fn a_unit_of_the_tips_of_a_comb(rt: HostRuntime) -> Result<(), Fail> {
    let alloc = rt.alloc();
    let level = comb(alloc)?;
    for row in &TIPS {
        judge_tips(&rt, alloc, level.as_str(), row)?;
    }
    Ok(())
}
