//! Folders of one venue whose other features a test gives, as text. A feature's identifier ends in the digits of its number.

ghost use Rattle.std.specs.Prelude.{◌≡◌, IfOk, length};

use std::alloc::{AllocError, Global};
use std::test::Fail;
use test_station::{AMENITY, LEVEL, MANIFEST, OPENING, RELATIONSHIP, UNIT, VENUE};
use venue_types::{Bytes, Files, List, Slot};

/// A position in nanodegrees.
pub(crate) type Place = (i64, i64);

const MANIFEST_TEXT: &str =
    "{\"version\":\"1.0.0\",\"created\":\"2024-01-01T00:00:00Z\",\"language\":\"en\"}";

/// The features of some files, with commas between.
#[derive(Drop)]
pub(crate) struct Folder {
    pub amenities: String,
    pub levels: String,
    pub openings: String,
    pub relationships: String,
    pub units: String,
}

impl Folder {
    /// One with no such feature.
    pub(crate) fn empty(alloc: Global) -> Folder {
        Folder {
            amenities: String::new(alloc),
            levels: String::new(alloc),
            openings: String::new(alloc),
            relationships: String::new(alloc),
            units: String::new(alloc),
        }
    }

    /// Its seventeen files.
    pub(crate) fn files(&self, alloc: Global) -> Result<Files, Fail>
        ensures { IfOk result (λ files. length files.slots ≡ 17) }
    {
        let mut slots = Vec::new(alloc);
        for file in 0..17 {
            slots.push(slot(alloc, self, file)?)?;
        }
        if slots.len() != 17 {
            return Err(Fail::new("no seventeen files"));
        }
        Ok(Files {
            slots: List::from_vec(slots),
        })
    }
}

fn held(text: String) -> Slot {
    Slot::Held(Bytes::from_vec(text.into_bytes()))
}

/// The file of these features, if there are any.
fn collection(alloc: Global, features: &str) -> Result<Slot, AllocError> {
    if features.is_empty() {
        return Ok(Slot::Absent);
    }
    let text = format!(in alloc; "{{\"type\":\"FeatureCollection\",\"features\":[{features}]}}")?;
    Ok(held(text))
}

/// The file of one venue, a box from the middle.
fn venue(alloc: Global) -> Result<Slot, AllocError> {
    let shape = polygon(alloc, &between((0, 0), (1_000_000, 600_000)), &[])?;
    let feature = feature(alloc, "venue", 2, shape.as_str(), "")?;
    collection(alloc, feature.as_str())
}

fn slot(alloc: Global, folder: &Folder, file: usize) -> Result<Slot, AllocError> {
    match file {
        MANIFEST => Ok(held(String::from_str(alloc, MANIFEST_TEXT)?)),
        AMENITY => collection(alloc, folder.amenities.as_str()),
        LEVEL => collection(alloc, folder.levels.as_str()),
        OPENING => collection(alloc, folder.openings.as_str()),
        RELATIONSHIP => collection(alloc, folder.relationships.as_str()),
        UNIT => collection(alloc, folder.units.as_str()),
        VENUE => venue(alloc),
        _ => Ok(Slot::Absent),
    }
}

/// One more of a list.
pub(crate) fn add(list: &mut String, item: &str) -> Result<(), AllocError> {
    if !list.is_empty() {
        list.push_str(",\n")?;
    }
    list.push_str(item)
}

/// The identifier that ends in these digits, in quotation marks.
pub(crate) fn name(alloc: Global, number: usize) -> Result<String, AllocError> {
    format!(in alloc; "\"00000000-0000-4000-8000-{number:0>12}\"")
}

/// A feature of a type, under its number, with this geometry and these properties.
pub(crate) fn feature(
    alloc: Global,
    kind: &str,
    number: usize,
    geometry: &str,
    properties: &str,
) -> Result<String, AllocError> {
    let name = name(alloc, number)?;
    format!(in alloc;
        "{{\"type\":\"Feature\",\"id\":{name},\"feature_type\":\"{kind}\",\"geometry\":{geometry},\"properties\":{{{properties}}}}}"
    )
}

/// The ring between two opposite corners.
pub(crate) fn between(low: Place, high: Place) -> [Place; 5] {
    [low, (high.0, low.1), high, (low.0, high.1), low]
}

fn position(alloc: Global, place: Place) -> Result<String, AllocError> {
    let (x, y) = place;
    format!(in alloc; "[{x}e-9,{y}e-9]")
}

fn positions(alloc: Global, places: &[Place]) -> Result<String, AllocError> {
    let mut list = String::new(alloc);
    for place in places {
        add(&mut list, position(alloc, *place)?.as_str())?;
    }
    format!(in alloc; "[{list}]")
}

pub(crate) fn point(alloc: Global, place: Place) -> Result<String, AllocError> {
    let position = position(alloc, place)?;
    format!(in alloc; "{{\"type\":\"Point\",\"coordinates\":{position}}}")
}

pub(crate) fn line(alloc: Global, places: &[Place]) -> Result<String, AllocError> {
    let list = positions(alloc, places)?;
    format!(in alloc; "{{\"type\":\"LineString\",\"coordinates\":{list}}}")
}

/// A polygon with at most one hole.
pub(crate) fn polygon(
    alloc: Global,
    outer: &[Place],
    hole: &[Place],
) -> Result<String, AllocError> {
    let mut rings = positions(alloc, outer)?;
    if !hole.is_empty() {
        add(&mut rings, positions(alloc, hole)?.as_str())?;
    }
    format!(in alloc; "{{\"type\":\"Polygon\",\"coordinates\":[{rings}]}}")
}

/// An opening of a level.
pub(crate) fn opening(
    alloc: Global,
    number: usize,
    level: usize,
    points: &[Place],
) -> Result<String, AllocError> {
    let line = line(alloc, points)?;
    let level = name(alloc, level)?;
    let properties = format!(in alloc; "\"level_id\":{level}")?;
    feature(alloc, "opening", number, line.as_str(), properties.as_str())
}

/// A unit with one polygon, and at most one hole.
pub(crate) fn unit(
    alloc: Global,
    number: usize,
    level: usize,
    category: &str,
    outer: &[Place],
    hole: &[Place],
) -> Result<String, AllocError> {
    let shape = polygon(alloc, outer, hole)?;
    let level = name(alloc, level)?;
    let properties = format!(in alloc; "\"level_id\":{level},\"category\":\"{category}\"")?;
    feature(alloc, "unit", number, shape.as_str(), properties.as_str())
}

/// The place so far east and north of one.
pub(crate) fn moved(p: Place, x: i64, y: i64) -> Place {
    (p.0.saturating_add(x), p.1.saturating_add(y))
}
