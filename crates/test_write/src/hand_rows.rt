//! Rows by hand, one or two of every kind.

use std::alloc::{AllocError, Global};
use test_station::no_rows;
use venue_types::{
    AmenityRow, AnchorRow, BuildingRow, DetailRow, FeatureId, Features, FixtureRow, FootprintRow,
    Kind, KioskRow, Label, LevelRow, Line, List, OccupantRow, OpeningRow, OutOfMemory, Part,
    PlainRow, Point, Ref, RelationshipRow, Ring, Shape, Text, UnitRow, VenueRow,
};

/// The identifier that ends in these digits.
pub(crate) fn id(last: u16) -> FeatureId {
    FeatureId(0x4000_8000_0000_0000_0000 + last as u128)
}

/// A place in metres east of 10 degrees and north of 50 degrees, of which each is 0.00001 degrees.
pub(crate) fn at(east: u16, north: u16) -> Point {
    Point {
        x: 10_000_000_000 + east as i64 * 10_000,
        y: 50_000_000_000 + north as i64 * 10_000,
    }
}

fn text(alloc: Global, text: &str) -> Result<Text, AllocError> {
    Ok(Text::from_string(String::from_str(alloc, text)?))
}

fn label(alloc: Global, tag: &str, name: &str) -> Result<Label, AllocError> {
    Ok(Label {
        tag: text(alloc, tag)?,
        text: text(alloc, name)?,
    })
}

// A triangle that begins at a place: ten metres to the east, then ten to the north, and back.
fn triangle(alloc: Global, east: u8) -> Result<Ring, AllocError> {
    let east = east as u16;
    let points = [
        at(east, 0),
        at(east + 10, 0),
        at(east + 10, 10),
        at(east, 0),
    ];
    Ok(Ring {
        points: List::from_vec(points.to_vec(alloc)?),
    })
}

// A small triangle in the first of them.
fn hole(alloc: Global) -> Result<Ring, AllocError> {
    let points = [at(6, 2), at(8, 2), at(8, 4), at(6, 2)];
    Ok(Ring {
        points: List::from_vec(points.to_vec(alloc)?),
    })
}

fn part(alloc: Global, east: u8) -> Result<Part, AllocError> {
    Ok(Part {
        outer: triangle(alloc, east)?,
        holes: List::new(alloc),
    })
}

fn part_with_hole(alloc: Global) -> Result<Part, AllocError> {
    Ok(Part {
        outer: triangle(alloc, 0)?,
        holes: List::from_vec(vec![in alloc; hole(alloc)?]?),
    })
}

// A shape of one part.
fn one_part(alloc: Global) -> Result<Shape, AllocError> {
    Ok(Shape {
        parts: List::from_vec(vec![in alloc; part(alloc, 0)?]?),
    })
}

// A shape of one part with a hole.
fn holed(alloc: Global) -> Result<Shape, AllocError> {
    Ok(Shape {
        parts: List::from_vec(vec![in alloc; part_with_hole(alloc)?]?),
    })
}

// A shape of two parts, of which the first has a hole.
fn two_parts(alloc: Global) -> Result<Shape, AllocError> {
    Ok(Shape {
        parts: List::from_vec(vec![in alloc; part_with_hole(alloc)?, part(alloc, 20)?]?),
    })
}

fn amenity(alloc: Global) -> Result<AmenityRow, AllocError> {
    Ok(AmenityRow {
        id: id(0x31),
        address: Some(id(1)),
        units: List::from_vec(vec![in alloc; id(0x300), id(0x301)]?),
        point: at(30, 25),
        category: text(alloc, "restroom")?,
        name: List::from_vec(vec![in alloc; label(alloc, "en", "Rest")?]?),
    })
}

fn fixture(alloc: Global) -> Result<FixtureRow, AllocError> {
    Ok(FixtureRow {
        id: id(0x502),
        level: None,
        anchor: Some(id(0x41)),
        shape: holed(alloc)?,
    })
}

fn footprint(alloc: Global) -> Result<FootprintRow, AllocError> {
    Ok(FootprintRow {
        id: id(4),
        buildings: List::from_vec(vec![in alloc; id(3), id(5)]?),
        shape: two_parts(alloc)?,
    })
}

fn level(alloc: Global) -> Result<LevelRow, AllocError> {
    Ok(LevelRow {
        id: id(0x10),
        address: None,
        buildings: List::new(alloc),
        ordinal: -12,
        shape: one_part(alloc)?,
    })
}

fn occupant(alloc: Global) -> OccupantRow {
    OccupantRow {
        id: id(0x51),
        anchor: id(0x41),
        name: List::new(alloc),
    }
}

/// An opening along these places, with a door or none.
pub(crate) fn opening(
    alloc: Global,
    points: &[Point],
    revolving: bool,
    turnstile: bool,
) -> Result<OpeningRow, AllocError> {
    Ok(OpeningRow {
        id: id(0x101),
        level: id(0x10),
        line: Line {
            points: List::from_vec(points.to_vec(alloc)?),
        },
        revolving,
        turnstile,
        marked: false,
        out: false,
    })
}

// An opening that is marked for wheelchairs and out of service, with a revolving door.
fn marked_opening(alloc: Global) -> Result<OpeningRow, AllocError> {
    let mut row = opening(alloc, &[at(21, 40), at(23, 40)], true, false)?;
    row.marked = true;
    row.out = true;
    Ok(row)
}

/// A relationship that makes a passage or none.
pub(crate) fn relationship(
    alloc: Global,
    kind: Option<Kind>,
) -> Result<RelationshipRow, AllocError> {
    let between = Ref {
        id: id(0x104),
        feature_type: 12,
    };
    Ok(RelationshipRow {
        id: id(0x21),
        kind,
        directed: true,
        origin: None,
        between: List::from_vec(vec![in alloc; between]?),
        destination: Some(Ref {
            id: id(0x401),
            feature_type: 15,
        }),
    })
}

// What a JSON text escapes, and what it leaves.
fn unit_name(alloc: Global) -> Result<List<Label>, AllocError> {
    let odd = label(alloc, "en", "a\"b\\c/\u{1}\u{1f}\n\0d\u{7f}\u{1F600}")?;
    Ok(List::from_vec(vec![in alloc; label(alloc, "de", "")?, odd]?))
}

fn unit(alloc: Global) -> Result<UnitRow, AllocError> {
    Ok(UnitRow {
        id: id(0x300),
        level: id(0x10),
        shape: holed(alloc)?,
        display: Some(at(50, 20)),
        category: text(alloc, "room")?,
        restricted: true,
        name: unit_name(alloc)?,
    })
}

fn venue(alloc: Global) -> Result<VenueRow, AllocError> {
    Ok(VenueRow {
        id: id(2),
        address: Some(id(1)),
        shape: two_parts(alloc)?,
    })
}

fn anchor() -> AnchorRow {
    AnchorRow {
        id: id(0x41),
        address: Some(id(1)),
        unit: id(0x305),
        point: at(22, 4),
    }
}

fn kiosk() -> KioskRow {
    KioskRow {
        id: id(0x504),
        level: Some(id(0x10)),
        anchor: None,
    }
}

fn building() -> BuildingRow {
    BuildingRow {
        id: id(3),
        address: None,
    }
}

fn detail() -> DetailRow {
    DetailRow {
        id: id(0x501),
        level: Some(id(0x10)),
    }
}

// Rows of the identifier alone.
fn add_plain_rows(features: &mut Features) -> Result<(), OutOfMemory> {
    features.addresses.push(PlainRow { id: id(1) })?;
    features.geofences.push(PlainRow { id: id(0x503) })?;
    features.sections.push(PlainRow { id: id(0x505) })
}

fn add_rows_without_shapes(alloc: Global, features: &mut Features) -> Result<(), OutOfMemory> {
    features.amenities.push(amenity(alloc)?)?;
    features.anchors.push(anchor())?;
    features.buildings.push(building())?;
    features.details.push(detail())?;
    features.kiosks.push(kiosk())?;
    features.occupants.push(occupant(alloc))?;
    features.relationships.push(relationship(alloc, None)?)
}

fn add_rows_with_shapes(alloc: Global, features: &mut Features) -> Result<(), OutOfMemory> {
    features.fixtures.push(fixture(alloc)?)?;
    features.footprints.push(footprint(alloc)?)?;
    features.levels.push(level(alloc)?)?;
    features.openings.push(marked_opening(alloc)?)?;
    features.units.push(unit(alloc)?)?;
    features.venues.push(venue(alloc)?)
}

/// A row of every kind, a list with each.
pub(crate) fn every_kind(alloc: Global) -> Result<Features, OutOfMemory> {
    let mut features = no_rows(alloc);
    add_plain_rows(&mut features)?;
    add_rows_without_shapes(alloc, &mut features)?;
    add_rows_with_shapes(alloc, &mut features)?;
    Ok(features)
}
