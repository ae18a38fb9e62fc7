//! Rows by hand beside the texts that are wanted, which were worked out by hand too.

use crate::hand_rows::{at, every_kind, opening, relationship};
use crate::notation::{file_text, plain};
use imdf_write::{write_file, write_folder};
use std::alloc::Global;
use std::process::Abort;
use std::sync::Arc;
use std::test::Fail;
use venue_types::{
    ALL_FILES, Features, File, Kind, List, OpeningRow, Point, RelationshipRow, Slot,
};

const TRIANGLE: &str =
    "[[10.000000000,50.000000000],[10.000100000,50.000000000],[10.000100000,50.000100000],[10.000000000,50.000000000]]";

const HOLE: &str =
    "[[10.000060000,50.000020000],[10.000080000,50.000020000],[10.000080000,50.000040000],[10.000060000,50.000020000]]";

const BESIDE: &str =
    "[[10.000200000,50.000000000],[10.000300000,50.000000000],[10.000300000,50.000100000],[10.000200000,50.000000000]]";

const POLYGON: [&str; 3] = ["{'coordinates':[", TRIANGLE, "],'type':'Polygon'}"];

const HOLED: [&str; 5] = [
    "{'coordinates':[",
    TRIANGLE,
    ",",
    HOLE,
    "],'type':'Polygon'}",
];

const TWO: [&str; 7] = [
    "{'coordinates':[[",
    TRIANGLE,
    ",",
    HOLE,
    "],[",
    BESIDE,
    "]],'type':'MultiPolygon'}",
];

const NULL: [&str; 1] = ["null"];

// The text of a slot.
fn text_of(slot: &Slot) -> Option<&[u8]> {
    match slot {
        Slot::Absent => None,
        Slot::Held(bytes) => Some(bytes.as_slice()),
    }
}

// Rows of every kind.
fn rows(alloc: Global) -> Result<Arc<Features>, Fail> {
    Ok(Arc::new(alloc, every_kind(alloc)?)?)
}

// The same with this opening alone.
fn rows_with_opening(alloc: Global, row: OpeningRow) -> Result<Arc<Features>, Fail> {
    let openings = List::from_vec(vec![in alloc; row]?);
    let mut features = every_kind(alloc)?;
    features.openings = openings;
    Ok(Arc::new(alloc, features)?)
}

// The same with this relationship alone.
fn rows_with_relationship(alloc: Global, row: RelationshipRow) -> Result<Arc<Features>, Fail> {
    let relationships = List::from_vec(vec![in alloc; row]?);
    let mut features = every_kind(alloc)?;
    features.relationships = relationships;
    Ok(Arc::new(alloc, features)?)
}

// A file of one feature is written so.
fn judge(
    rt: &impl Abort,
    alloc: Global,
    features: &Features,
    file: File,
    geometry: &[&str],
    id: &str,
    properties: &[&str],
) -> Result<(), Fail> {
    let slot = write_file(alloc, features, file)?;
    let feature_type = str::from_utf8(file.type_name()).expect(rt, "a name");
    let wanted = file_text(alloc, feature_type, geometry, id, properties)?;
    assert!(rt; text_of(&slot) == Some(wanted.as_bytes()));
    Ok(())
}

// A file of each kind: its geometry, the identifier of its one feature, and its properties.
const KINDS: [(File, &[&str], &str, &[&str]); 16] = [
    (File::Address, &NULL, "#0001", &[]),
    (
        File::Amenity,
        &["{'coordinates':[10.000300000,50.000250000],'type':'Point'}"],
        "#0031",
        &[
            "'address_id':'#0001','category':'restroom','name':{'en':'Rest'},'unit_ids':['#0300','#0301']",
        ],
    ),
    (
        File::Anchor,
        &["{'coordinates':[10.000220000,50.000040000],'type':'Point'}"],
        "#0041",
        &["'address_id':'#0001','unit_id':'#0305'"],
    ),
    (File::Building, &NULL, "#0003", &["'address_id':null"]),
    (File::Detail, &NULL, "#0501", &["'level_id':'#0010'"]),
    (
        File::Fixture,
        &HOLED,
        "#0502",
        &["'anchor_id':'#0041','level_id':null"],
    ),
    (
        File::Footprint,
        &TWO,
        "#0004",
        &["'building_ids':['#0003','#0005']"],
    ),
    (File::Geofence, &NULL, "#0503", &[]),
    (
        File::Kiosk,
        &NULL,
        "#0504",
        &["'anchor_id':null,'level_id':'#0010'"],
    ),
    (
        File::Level,
        &POLYGON,
        "#0010",
        &["'address_id':null,'building_ids':[],'ordinal':-12"],
    ),
    (
        File::Occupant,
        &NULL,
        "#0051",
        &["'anchor_id':'#0041','name':null"],
    ),
    (
        File::Opening,
        &[
            "{'coordinates':[[10.000210000,50.000400000],[10.000230000,50.000400000]],'type':'LineString'}",
        ],
        "#0101",
        &[
            "'access_control':['outofservice'],'accessibility':['wheelchair'],'door':{'type':'revolving'},'level_id':'#0010'",
        ],
    ),
    (
        File::Relationship,
        &NULL,
        "#0021",
        &[
            "'category':'none','destination':{'feature_type':'unit','id':'#0401'},'direction':'directed',",
            "'intermediary':[{'feature_type':'opening','id':'#0104'}],'origin':null",
        ],
    ),
    (File::Section, &NULL, "#0505", &[]),
    (
        File::Unit,
        &HOLED,
        "#0300",
        &[
            "'category':'room','display_point':{'coordinates':[10.000500000,50.000200000],'type':'Point'},'level_id':'#0010',",
            "'name':{'de':'','en':'a\\'b\\\\c/\\u0001\\u001f\\u000a\\u0000d\u{7f}\u{1F600}'},'restriction':'restricted'",
        ],
    ),
    (File::Venue, &TWO, "#0002", &["'address_id':'#0001'"]),
];

#[test]
fn a_row_of_every_kind(rt: HostRuntime) -> Result<(), Fail> {
    let alloc = rt.alloc();
    let features = rows(alloc)?;
    for (file, geometry, id, properties) in &KINDS {
        judge(&rt, alloc, &features, *file, geometry, id, properties)?;
    }
    Ok(())
}

#[test]
fn a_folder_is_its_files(rt: HostRuntime) -> Result<(), Fail> {
    let alloc = rt.alloc();
    let features = rows(alloc)?;
    let files = write_folder(alloc, &features)?;
    assert!(rt; files.slots.len() == 17);
    for (slot, file) in files.slots.iter().zip(&ALL_FILES) {
        let alone = write_file(alloc, &features, *file)?;
        assert!(rt; text_of(slot).is_some());
        assert!(rt; text_of(slot) == text_of(&alone));
    }
    Ok(())
}

// The odd coordinates of the table.
fn odd_line() -> [Point; 3] {
    [
        Point {
            x: -180_000_000_000,
            y: 180_000_000_000,
        },
        Point { x: 0, y: -1 },
        Point {
            x: -500_000_000,
            y: 1_000_000_000,
        },
    ]
}

#[test]
fn odd_coordinates(rt: HostRuntime) -> Result<(), Fail> {
    let alloc = rt.alloc();
    let features = rows_with_opening(alloc, opening(alloc, &odd_line(), false, false)?)?;
    let geometry =
        "{'coordinates':[[-180.000000000,180.000000000],[0.000000000,-0.000000001],[-0.500000000,1.000000000]],'type':'LineString'}";
    let properties = "'access_control':null,'accessibility':null,'door':null,'level_id':'#0010'";
    judge(
        &rt,
        alloc,
        &features,
        File::Opening,
        &[geometry],
        "#0101",
        &[properties],
    )
}

#[test]
fn doors(rt: HostRuntime) -> Result<(), Fail> {
    let alloc = rt.alloc();
    let table = [
        (false, true, "{'type':'turnstile'}"),
        (true, true, "{'type':'revolving'}"),
        (true, false, "{'type':'revolving'}"),
    ];
    let geometry = "{'coordinates':[[10.000000000,50.000010000]],'type':'LineString'}";
    for (revolving, turnstile, door) in table {
        let row = opening(alloc, &[at(0, 1)], revolving, turnstile)?;
        let features = rows_with_opening(alloc, row)?;
        let properties = [
            "'access_control':null,'accessibility':null,'door':",
            door,
            ",'level_id':'#0010'",
        ];
        judge(
            &rt,
            alloc,
            &features,
            File::Opening,
            &[geometry],
            "#0101",
            &properties,
        )?;
    }
    Ok(())
}

#[test]
fn passages(rt: HostRuntime) -> Result<(), Fail> {
    let alloc = rt.alloc();
    let table = [
        (Kind::Floor, "floor"),
        (Kind::Elevator, "elevator"),
        (Kind::Escalator, "escalator"),
        (Kind::Movingwalkway, "movingwalkway"),
        (Kind::Ramp, "ramp"),
        (Kind::Stairs, "stairs"),
        (Kind::Traversal, "traversal"),
    ];
    for (kind, category) in table {
        let row = relationship(alloc, Some(kind))?;
        let features = rows_with_relationship(alloc, row)?;
        let properties = [
            "'category':'",
            category,
            "','destination':{'feature_type':'unit','id':'#0401'},'direction':'directed',",
            "'intermediary':[{'feature_type':'opening','id':'#0104'}],'origin':null",
        ];
        judge(
            &rt,
            alloc,
            &features,
            File::Relationship,
            &NULL,
            "#0021",
            &properties,
        )?;
    }
    Ok(())
}
