//! The members of the station's units, and units of so many members, worked out by hand.

ghost use Rattle.std.specs.Prelude.{◌≡◌, IfOk, length};

use crate::folders::{self, Folder, add, between, feature, name, point, polygon};
use crate::rows::{crowding_of, rows_of};
use std::alloc::{AllocError, Global};
use std::process::Abort;
use std::test::Fail;
use test_station::{AMENITY, Change, Edit, slots_of};
use venue_nodes::{Crowding, Membership, Rows, limit_findings};
use venue_types::{Files, Inside, OutOfMemory};

/// The numbers of members, and the indexes of the units.
fn counts(alloc: Global, rows: &Rows) -> Result<Vec<(usize, u32)>, OutOfMemory> {
    let mut counts = Vec::new(alloc);
    for w in 0..rows.len() {
        counts.push((rows.row(w).len(), rows.unit_index(w)))?;
    }
    Ok(counts)
}

#[test]
fn counts_the_station_s_members(rt: HostRuntime) -> Result<(), Fail> {
    let want = [
        (14, 0),
        (2, 1),
        (2, 2),
        (2, 3),
        (2, 4),
        (3, 5),
        (2, 6),
        (6, 8),
        (2, 9),
        (2, 10),
        (2, 11),
        (2, 12),
    ];
    // The fifth opening, behind the amenity and the anchors: sixth member of the concourse, second of the room.
    let fifth = [
        Membership { unit: 0, place: 5 },
        Membership { unit: 5, place: 1 },
    ];
    // What the one amenity names: a unit, the same twice, and between them a column.
    let table: [&'static [Edit]; 3] = [
        &[],
        &[(AMENITY, "@0031", "'@0300'", "'@0300','@0300'")],
        &[(AMENITY, "@0031", "'@0300'", "'@0300','@0307','@0300'")],
    ];
    for edits in table {
        let files = slots_of(rt.alloc(), Change::of(edits))?;
        let (rows, _) = rows_of(rt.alloc(), &files, Inside::Straight)?;
        assert!(rt; rows.nodes() == 31);
        let counts = counts(rt.alloc(), &rows)?;
        assert!(rt; counts.as_slice() == want.as_slice());
        assert!(rt; rows.memberships(7) == fifth.as_slice());
        assert!(rt; rows.memberships(31).is_empty());
    }
    Ok(())
}

/// The number of the one level.
pub(crate) const LEVEL: usize = 10;

/// The number of the first unit; those of amenities begin above all units.
const FIRST_UNIT: usize = 1_000;

const FIRST_AMENITY: usize = 2_000;

/// A box of this category.
fn unit(alloc: Global, number: usize, category: &str) -> Result<String, AllocError> {
    let ring = between((0, 0), (1_000, 1_000));
    folders::unit(alloc, number, LEVEL, category, &ring, &[])
}

/// Units behind a column, one of them a moving walkway.
fn crowd_units(alloc: Global, count: usize) -> Result<String, AllocError> {
    let mut units = unit(alloc, FIRST_UNIT, "column")?;
    for k in 0..count {
        let category = if k == 1 { "movingwalkway" } else { "room" };
        let number = k.saturating_add(FIRST_UNIT + 1);
        add(&mut units, unit(alloc, number, category)?.as_str())?;
    }
    Ok(units)
}

/// The units that are to have more members than this.
fn named_by(alloc: Global, number: usize, counts: &[usize]) -> Result<String, AllocError> {
    let mut named = String::new(alloc);
    for (k, count) in counts.iter().enumerate() {
        if number < *count {
            let unit = name(alloc, k.saturating_add(FIRST_UNIT + 1))?;
            add(&mut named, unit.as_str())?;
        }
    }
    Ok(named)
}

/// An amenity that names these units.
fn amenity(alloc: Global, number: usize, units: &str) -> Result<String, AllocError> {
    let place = point(alloc, (0, 0))?;
    let properties = format!(in alloc; "\"category\":\"restroom\",\"unit_ids\":[{units}]")?;
    let number = number.saturating_add(FIRST_AMENITY);
    feature(
        alloc,
        "amenity",
        number,
        place.as_str(),
        properties.as_str(),
    )
}

/// The whole venue as a level.
pub(crate) fn level(alloc: Global) -> Result<String, AllocError> {
    let shape = polygon(alloc, &between((0, 0), (1_000_000, 600_000)), &[])?;
    feature(alloc, "level", LEVEL, shape.as_str(), "\"ordinal\":0")
}

/// The files of units of so many members each: amenities that name them, and they themselves.
fn crowd(alloc: Global, counts: &[usize]) -> Result<Files, Fail>
    ensures { IfOk result (λ files. length files.slots ≡ 17) }
{
    let mut folder = Folder::empty(alloc);
    folder.levels = level(alloc)?;
    folder.units = crowd_units(alloc, counts.len())?;
    for number in 1..4_097 {
        let named = named_by(alloc, number, counts)?;
        if !named.is_empty() {
            let amenity = amenity(alloc, number, named.as_str())?;
            add(&mut folder.amenities, amenity.as_str())?;
        }
    }
    folder.files(alloc)
}

#[test]
fn tells_the_first_limit(rt: HostRuntime) -> Result<(), Fail> {
    let table: [(&[usize], Option<Crowding>, Option<(u8, u32)>); 4] = [
        (&[4_096], None, None),
        (
            &[4_096, 4_097, 4_097],
            Some(Crowding::Members(2)),
            Some((34, 2)),
        ),
        (&[3_162, 3_162, 59, 5, 2, 1, 1], None, None),
        (
            &[3_162, 3_162, 59, 5, 2, 1, 1, 1],
            Some(Crowding::Squares),
            Some((35, 0)),
        ),
    ];
    for (counts, limit, told) in table {
        let files = crowd(rt.alloc(), counts)?;
        let (_, found) = rows_of(rt.alloc(), &files, Inside::Straight)?;
        assert!(rt; found == limit);
        if let Some(crowding) = limit {
            judge_told(&rt, rt.alloc(), crowding, told)?;
        }
    }
    Ok(())
}

/// Of a limit one finding is told, of this rule at this unit.
fn judge_told(
    rt: &impl Abort,
    alloc: Global,
    crowding: Crowding,
    told: Option<(u8, u32)>,
) -> Result<(), Fail> {
    let findings = limit_findings(alloc, crowding)?;
    assert!(rt; findings.len() == 1);
    let first = findings.get(0).map(|finding| (finding.rule, finding.index));
    assert!(rt; first == told);
    Ok(())
}

#[test]
fn counted_openings_tell_the_first_limit(rt: HostRuntime) -> Result<(), Fail> {
    // Behind a column units of 1, 100 and 1 members without openings.
    let files = crowd(rt.alloc(), &[1, 100, 1])?;
    let table: [(&[usize], Crowding); 4] = [
        (&[9_999, 4_095, 3_996, 0], Crowding::Squares),
        (&[9_999, 4_095, 3_997], Crowding::Members(2)),
        (&[0, 4_095, 3_997, 9_999], Crowding::Members(2)),
        (&[0, 4_096], Crowding::Members(1)),
    ];
    for (counts, limit) in table {
        assert!(rt; crowding_of(rt.alloc(), &files, counts)? == limit);
    }
    Ok(())
}
