//! Folders of a few features as texts, and their rows where the first phases find nothing in them.

ghost use Rattle.std.specs.Prelude.{◌≡◌, IfOk, OnOk, length};
ghost use Rattle.std.specs.Arc.{arc_value};
ghost use Rattle.imdf_read.specs.Rows.{HaveOwnIds};
ghost use Rattle.imdf_read.specs.Sound.{AreSound};

use imdf_read::{ReadOut, read_folder, sound_reading_law};
use imdf_refs::{own_ids_law, reference_findings};
use std::alloc::{AllocError, Global};
use std::sync::Arc;
use std::test::Fail;
use venue_types::{Bytes, Features, Files, List, Slot};

/// How far a position lies east and north of 10 degrees east and 50 degrees north, in nanodegrees.
pub(crate) type Corner = (i64, i64);

/// A sound manifest.
pub(crate) const MANIFEST: &[u8] = b"{\"version\":\"1.0.0\",\"created\":\"\"}";

/// A venue whose identifier ends in 99.
pub(crate) const VENUE: &[u8] =
    b"{\"type\":\"FeatureCollection\",\"features\":[{\"type\":\"Feature\",\"id\":\"00000000-0000-4000-8000-000000000099\",\"feature_type\":\"venue\",\"geometry\":{\"type\":\"Polygon\",\"coordinates\":[[[10,50],[10.001,50],[10.001,50.001],[10,50]]]},\"properties\":{}}]}";

// The file of this number, by the first of the texts that has it.
fn slot(alloc: Global, texts: &[(usize, &[u8])], number: usize) -> Result<Slot, AllocError> {
    match texts.iter().find(|text| text.0 == number) {
        Some(text) => Ok(Slot::Held(Bytes::from_vec(Vec::from_slice(alloc, text.1)?))),
        None => Ok(Slot::Absent),
    }
}

/// A folder of these files, by their numbers.
pub(crate) fn files(alloc: Global, texts: &[(usize, &[u8])]) -> Result<Files, Fail>
    ensures { IfOk result (λ files. length files.slots ≡ 17) }
{
    let mut slots = Vec::new(alloc);
    for number in 0..17usize {
        slots.push(slot(alloc, texts, number)?)?;
    }
    if slots.len() != 17 {
        return Err(Fail::new("seventeen files"));
    }
    Ok(Files {
        slots: List::from_vec(slots),
    })
}

// A position, at most 100,000,000 from the middle on each axis.
fn position(alloc: Global, corner: Corner) -> Result<String, AllocError> {
    let x = 10_000_000_000 + corner.0.clamp(-100_000_000, 100_000_000);
    let y = 50_000_000_000 + corner.1.clamp(-100_000_000, 100_000_000);
    let (east, more_east) = (x / 1_000_000_000, x % 1_000_000_000);
    let (north, more_north) = (y / 1_000_000_000, y % 1_000_000_000);
    format!(in alloc; "[{east}.{more_east:09},{north}.{more_north:09}]")
}

/// A point.
pub(crate) fn point(alloc: Global, corner: Corner) -> Result<String, AllocError> {
    let position = position(alloc, corner)?;
    format!(in alloc; "{{\"type\":\"Point\",\"coordinates\":{position}}}")
}

// A ring.
fn ring(alloc: Global, corners: &[Corner]) -> Result<String, AllocError> {
    let mut text = String::new(alloc);
    for corner in corners {
        text.push_str(if text.is_empty() { "[" } else { "," })?;
        text.push_str(position(alloc, *corner)?.as_str())?;
    }
    text.push_str("]")?;
    Ok(text)
}

/// Polygons of a border and holes each.
pub(crate) fn polygons(alloc: Global, parts: &[&[&[Corner]]]) -> Result<String, AllocError> {
    let mut text = String::new(alloc);
    for part in parts {
        text.push_str(if text.is_empty() { "[" } else { "],[" })?;
        for (number, corners) in part.iter().enumerate() {
            text.push_str(if number == 0 { "" } else { "," })?;
            text.push_str(ring(alloc, corners)?.as_str())?;
        }
    }
    format!(in alloc; "{{\"type\":\"MultiPolygon\",\"coordinates\":[{text}]]}}")
}

// Adds the identifier that ends in this number.
fn push_id(alloc: Global, text: &mut String, number: u32) -> Result<(), AllocError> {
    let end = format!(in alloc; "{number:012}")?;
    text.push_str("00000000-0000-4000-8000-")?;
    text.push_str(end.as_str())
}

/// Adds a feature whose identifier ends in this number, to the text of those before it.
pub(crate) fn push_feature(
    alloc: Global,
    text: &mut String,
    feature_type: &str,
    number: u32,
    geometry: &str,
    properties: &str,
) -> Result<(), AllocError> {
    text.push_str(if text.is_empty() { "" } else { "," })?;
    text.push_str("{\"type\":\"Feature\",\"id\":\"")?;
    push_id(alloc, text, number)?;
    text.push_str("\",\"feature_type\":\"")?;
    text.push_str(feature_type)?;
    text.push_str("\",\"geometry\":")?;
    text.push_str(geometry)?;
    text.push_str(",\"properties\":{")?;
    text.push_str(properties)?;
    text.push_str("}}")
}

/// The file of these features.
pub(crate) fn collection(alloc: Global, features: &str) -> Result<String, AllocError> {
    format!(in alloc; "{{\"type\":\"FeatureCollection\",\"features\":[{features}]}}")
}

// The rows of files in which the first phase finds nothing.
fn rows_of(alloc: Global, files: &Files) -> Result<Features, Fail>
    requires { length files.now.slots ≡ 17 }
    ensures { IfOk result AreSound }
{
    sound_reading_law();
    let ReadOut {
        features,
        findings,
        notes: _,
    } = read_folder(alloc, files)?;
    if !findings.is_empty() {
        return Err(Fail::new("a finding of the first phase"));
    }
    Ok(features)
}

/// The same, shared.
pub(crate) fn sound_rows(alloc: Global, files: &Files) -> Result<Arc<Features>, Fail>
    requires { length files.now.slots ≡ 17 }
    ensures { IfOk result (λ features. AreSound (arc_value features)) }
{
    let features = rows_of(alloc, files)?;
    let shared = Arc::new(alloc, features)?;
    Ok(shared)
}

// The second phase finds nothing in these rows.
fn have_own_ids(alloc: Global, features: &Features) -> Result<(), Fail>
    requires { AreSound features.now }
    ensures { OnOk result (HaveOwnIds features.now) }
{
    own_ids_law();
    let misnamed = reference_findings(alloc, features)?;
    if !misnamed.is_empty() {
        return Err(Fail::new("a finding of the second phase"));
    }
    Ok(())
}

/// The rows of files in which the first two phases find nothing.
pub(crate) fn named_rows(alloc: Global, files: &Files) -> Result<Arc<Features>, Fail>
    requires { length files.now.slots ≡ 17 }
    ensures sound { IfOk result (λ features. AreSound (arc_value features)) }
    ensures own_ids { IfOk result (λ features. HaveOwnIds (arc_value features)) }
{
    let features = sound_rows(alloc, files)?;
    have_own_ids(alloc, &features)?;
    Ok(features)
}
