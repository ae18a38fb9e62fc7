//! A folder of a few features, of which the findings were worked out by hand.

ghost use Rattle.std.specs.Prelude.{◌≡◌, IfOk, length};
ghost use Rattle.std.specs.Arc.{arc_value};
ghost use Rattle.imdf_read.specs.Sound.{AreSound};

use crate::small_folders::{MANIFEST, VENUE, collection, files, push_feature, sound_rows};
use imdf_refs::reference_findings;
use std::alloc::{AllocError, Global};
use std::sync::Arc;
use std::test::Fail;
use venue_types::{Features, Files};

// A rule, a file, an index and a member.
type Place = (u8, u8, u32, u32);

static WANTED: [Place; 9] = [
    // The third address has the identifier of the second, and the building that of the first.
    (23, 1, 2, 0),
    (23, 4, 0, 0),
    // No feature is numbered 9: the amenity's second unit, the anchor's unit, the third intermediary.
    (24, 2, 0, 69),
    (24, 3, 0, 4),
    (24, 13, 0, 136),
    // The amenity's address is a detail, its first unit an address, the detail's level an anchor.
    (25, 2, 0, 1),
    (25, 2, 0, 5),
    (25, 5, 0, 3),
    // The second intermediary tells that an anchor is a unit.
    (25, 13, 0, 72),
];

const POINT: &str = "{\"type\":\"Point\",\"coordinates\":[10,50]}";

const AMENITY: &str =
    "\"category\":\"\",\"address_id\":\"00000000-0000-4000-8000-000000000004\",\"unit_ids\":[\"00000000-0000-4000-8000-000000000001\",\"00000000-0000-4000-8000-000000000009\"]";

const ANCHOR: &str =
    "\"address_id\":\"00000000-0000-4000-8000-000000000001\",\"unit_id\":\"00000000-0000-4000-8000-000000000009\"";

const DETAIL: &str = "\"level_id\":\"00000000-0000-4000-8000-000000000003\"";

const KIOSK: &str = "\"anchor_id\":\"00000000-0000-4000-8000-000000000003\"";

const RELATIONSHIP: &str =
    "\"category\":\"\",\"direction\":\"undirected\",\"origin\":{\"id\":\"00000000-0000-4000-8000-000000000003\",\"feature_type\":\"anchor\"},\"intermediary\":[{\"id\":\"00000000-0000-4000-8000-000000000003\",\"feature_type\":\"anchor\"},{\"id\":\"00000000-0000-4000-8000-000000000003\",\"feature_type\":\"unit\"},{\"id\":\"00000000-0000-4000-8000-000000000009\",\"feature_type\":\"anchor\"}]";

// A file of features whose identifiers end in these numbers, and which are else alike.
fn alike(
    alloc: Global,
    feature_type: &str,
    numbers: &[u32],
    geometry: &str,
    properties: &str,
) -> Result<String, AllocError> {
    let mut text = String::new(alloc);
    for number in numbers {
        push_feature(
            alloc,
            &mut text,
            feature_type,
            *number,
            geometry,
            properties,
        )?;
    }
    collection(alloc, text.as_str())
}

// A file, the type of its features, the ends of their identifiers, their geometry and their properties.
type Alike = (
    usize,
    &'static str,
    &'static [u32],
    &'static str,
    &'static str,
);

static FILES: [Alike; 7] = [
    (1, "address", &[1, 2, 2], "null", ""),
    (2, "amenity", &[7], POINT, AMENITY),
    (3, "anchor", &[3], POINT, ANCHOR),
    (4, "building", &[1], "null", ""),
    (5, "detail", &[4], "null", DETAIL),
    (9, "kiosk", &[5], "null", KIOSK),
    (13, "relationship", &[6], "null", RELATIONSHIP),
];

// The texts of these files.
fn texts(alloc: Global) -> Result<Vec<(usize, String)>, AllocError> {
    let mut texts = Vec::new(alloc);
    for (file, feature_type, numbers, geometry, properties) in &FILES {
        let text = alike(alloc, feature_type, numbers, geometry, properties)?;
        texts.push((*file, text))?;
    }
    Ok(texts)
}

// The folder of them, a manifest and a venue.
fn folder(alloc: Global, texts: &[(usize, String)]) -> Result<Files, Fail>
    ensures { IfOk result (λ files. length files.slots ≡ 17) }
{
    let mut parts: Vec<(usize, &[u8])> = Vec::new(alloc);
    for (file, text) in texts {
        parts.push((*file, text.as_bytes()))?;
    }
    parts.push((0, MANIFEST))?;
    parts.push((16, VENUE))?;
    files(alloc, parts.as_slice())
}

fn rows(alloc: Global) -> Result<Arc<Features>, Fail>
    ensures { IfOk result (λ features. AreSound (arc_value features)) }
{
    let texts = texts(alloc)?;
    let files = folder(alloc, texts.as_slice())?;
    sound_rows(alloc, &files)
}

#[test]
fn a_folder_has_its_findings(rt: HostRuntime) -> Result<(), Fail> {
    let features = rows(rt.alloc())?;
    let findings = reference_findings(rt.alloc(), &features)?;
    assert!(rt; findings.len() == WANTED.len());
    for (finding, place) in findings.as_slice().iter().zip(&WANTED) {
        assert!(rt; (finding.rule, finding.file, finding.index, finding.member) == *place);
    }
    Ok(())
}
