//! The station in the fixed form. Its lengths and texts were worked out by a program in Python from the definitions.

ghost use Rattle.std.specs.Prelude.{◌≡◌, length};

use crate::notation::plain;
use imdf_read::read_folder;
use imdf_write::write_folder;
use std::alloc::Global;
use std::process::Abort;
use std::sync::Arc;
use std::test::Fail;
use test_station::{
    ADDRESS, AMENITY, ANCHOR, BUILDING, Change, DETAIL, FIXTURE, FOOTPRINT, GEOFENCE, KIOSK, LEVEL,
    MANIFEST, OCCUPANT, OPENING, RELATIONSHIP, SECTION, UNIT, VENUE, slots_of,
};
use venue_types::{Files, Slot};

// The text of a file, nothing where it is absent.
fn text_at(files: &Files, file: usize) -> &[u8] {
    match files.slots.get(file) {
        Some(Slot::Held(bytes)) => bytes.as_slice(),
        _ => b"",
    }
}

// The station, read and written.
fn written(alloc: Global) -> Result<Files, Fail> {
    let files = slots_of(alloc, Change::of(&[]))?;
    again(alloc, &files)
}

// What is written of these files once they are read.
fn again(alloc: Global, files: &Files) -> Result<Files, Fail>
    requires { length files.now.slots ≡ 17 }
{
    let read = Arc::new(alloc, read_folder(alloc, files)?)?;
    if !read.findings.is_empty() {
        return Err(Fail::new("a finding"));
    }
    Ok(write_folder(alloc, &read.features)?)
}

// A file's text begins so.
fn begins(
    rt: &impl Abort,
    alloc: Global,
    files: &Files,
    file: usize,
    wanted: &[&str],
) -> Result<(), Fail> {
    let wanted = plain(alloc, wanted)?;
    assert!(rt; text_at(files, file).starts_with(wanted.as_bytes()));
    Ok(())
}

#[test]
fn lengths(rt: HostRuntime) -> Result<(), Fail> {
    let files = written(rt.alloc())?;
    let table = [
        (MANIFEST, 86),
        (ADDRESS, 161),
        (AMENITY, 318),
        (ANCHOR, 519),
        (BUILDING, 179),
        (FOOTPRINT, 352),
        (LEVEL, 715),
        (OCCUPANT, 430),
        (OPENING, 5081),
        (RELATIONSHIP, 1444),
        (UNIT, 5376),
        (VENUE, 348),
    ];
    for (file, length) in table {
        assert!(rt; text_at(&files, file).len() == length);
    }
    for file in [DETAIL, FIXTURE, GEOFENCE, KIOSK, SECTION] {
        assert!(rt; matches!(files.slots.get(file), Some(Slot::Absent)));
    }
    Ok(())
}

#[test]
fn texts(rt: HostRuntime) -> Result<(), Fail> {
    let alloc = rt.alloc();
    let files = written(alloc)?;
    let table: [(usize, &[&str]); 4] = [
        (
            MANIFEST,
            &[
                "{'created':'','extensions':null,'generated_by':null,'language':null,'version':'1.0.0'}",
            ],
        ),
        (
            ADDRESS,
            &[
                "{'features':[{'feature_type':'address','geometry':null,'id':'#0001','properties':{},'type':'Feature'}],",
                "'type':'FeatureCollection'}",
            ],
        ),
        (
            ANCHOR,
            &[
                "{'features':[{'feature_type':'anchor','geometry':{'coordinates':[10.000220000,50.000040000],'type':'Point'},",
                "'id':'#0041','properties':{'address_id':null,'unit_id':'#0305'},'type':'Feature'},",
            ],
        ),
        (
            RELATIONSHIP,
            &[
                "{'features':[{'feature_type':'relationship','geometry':null,'id':'#0021','properties':",
                "{'category':'elevator','destination':{'feature_type':'unit','id':'#0401'},'direction':'undirected',",
                "'intermediary':[],'origin':{'feature_type':'unit','id':'#0301'}},'type':'Feature'},",
            ],
        ),
    ];
    for (file, wanted) in table {
        begins(&rt, alloc, &files, file, wanted)?;
    }
    Ok(())
}

// What is written is read, and written again it is the same.
#[test]
fn written_twice(rt: HostRuntime) -> Result<(), Fail> {
    let alloc = rt.alloc();
    let once = written(alloc)?;
    assert!(rt; once.slots.len() == 17);
    let twice = again(alloc, &once)?;
    for file in MANIFEST..=VENUE {
        assert!(rt; text_at(&twice, file) == text_at(&once, file));
    }
    Ok(())
}
