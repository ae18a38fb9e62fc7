//! The station, and edits of it.

use std::alloc::Global;
use std::process::Abort;
use std::test::Fail;
use test_station::{
    AMENITY, Change, DETAIL, Edit, GONE, MANIFEST, UNIT, folder_files, settings_file, slots_of,
    station_files,
};
use venue_ports::MemoryFile;
use venue_types::Slot;

const MANIFEST_TEXT: &str =
    "{\"version\":\"1.0.0\",\"created\":\"2024-01-01T00:00:00Z\",\"language\":\"en\"}\n";

const AMENITY_TEXT: &str =
    "{\"type\":\"FeatureCollection\",\"features\":[\n{\"type\":\"Feature\",\"id\":\"00000000-0000-4000-8000-000000000031\",\"feature_type\":\"amenity\",\"geometry\":{\"type\":\"Point\",\"coordinates\":[10.00030,50.00025]},\"properties\":{\"category\":\"restroom\",\"unit_ids\":[\"00000000-0000-4000-8000-000000000300\"]}}\n]}\n";

// The text of a slot.
fn text_of(slot: &Slot) -> Option<&[u8]> {
    match slot {
        Slot::Absent => None,
        Slot::Held(bytes) => Some(bytes.as_slice()),
    }
}

// The edits are told to be wrong so.
fn judge_fault(
    rt: &impl Abort,
    alloc: Global,
    edits: &'static [Edit],
    told: &str,
) -> Result<(), Fail> {
    let fault = match slots_of(alloc, Change::of(edits)) {
        Ok(_) => return Err(Fail::new("there is a fault")),
        Err(fault) => fault,
    };
    let text = format!(in alloc; "{fault:?}")?;
    assert!(rt; text.as_str() == told);
    Ok(())
}

// What three files of the station hold.
fn judge_slots(rt: &impl Abort, alloc: Global) -> Result<(), Fail> {
    let slots = slots_of(alloc, Change::of(&[]))?;
    let texts = slots.slots.as_slice();
    assert!(rt; text_of(&texts[MANIFEST]) == Some(MANIFEST_TEXT.as_bytes()));
    assert!(rt; text_of(&texts[AMENITY]) == Some(AMENITY_TEXT.as_bytes()));
    assert!(rt; text_of(&texts[DETAIL]) == None);
    Ok(())
}

// The first and the last of a folder's files.
fn judge_names(rt: &impl Abort, files: &[MemoryFile]) {
    assert!(rt; files.len() == 12);
    let (first, last) = (
        files.first().expect(rt, "a file"),
        files.last().expect(rt, "a file"),
    );
    assert!(rt; first.file.as_str() == "manifest.json");
    assert!(rt; last.folder.as_str() == "base/night");
    assert!(rt; last.file.as_str() == "venue.geojson");
}

fn judge_folder(rt: &impl Abort, alloc: Global) -> Result<(), Fail> {
    let files = folder_files(alloc, "base/night", Change::of(&[]))?;
    judge_names(rt, files.as_slice());
    Ok(())
}

fn judge_settings(rt: &impl Abort, alloc: Global) -> Result<(), Fail> {
    let settings = settings_file(alloc, "base", Change::of(&[]))?.expect(rt, "the settings");
    assert!(rt; settings.file.as_str() == "venue.toml");
    Ok(())
}

// Of the station without its units.
fn judge_fewer(rt: &impl Abort, alloc: Global) -> Result<(), Fail> {
    let fewer = station_files(alloc, "base", "night", Change::of(&[(UNIT, "", "", GONE)]))?;
    assert!(rt; fewer.len() == 12);
    Ok(())
}

#[test]
fn the_station_has_twelve_files(rt: HostRuntime) -> Result<(), Fail> {
    judge_slots(&rt, rt.alloc())?;
    judge_folder(&rt, rt.alloc())?;
    judge_settings(&rt, rt.alloc())?;
    judge_fewer(&rt, rt.alloc())
}

// One edit after the other, each in the text that the one before made.
fn judge_edited(rt: &impl Abort, alloc: Global) -> Result<(), Fail> {
    let change = Change::of(&[
        (AMENITY, "", "", "one and two"),
        (AMENITY, "one", " two", "(1,2)"),
    ]);
    let slots = slots_of(alloc, change)?;
    let told = text_of(&slots.slots.as_slice()[AMENITY]);
    assert!(rt; told == Some(b"one and[10.00001,50.00002]".as_slice()));
    Ok(())
}

#[test]
fn edits_follow_each_other(rt: HostRuntime) -> Result<(), Fail> {
    let alloc = rt.alloc();
    judge_edited(&rt, alloc)?;
    judge_fault(&rt, alloc, &[(DETAIL, "", "a", "b")], "NoFile")?;
    judge_fault(
        &rt,
        alloc,
        &[(UNIT, "@0999", "a", "b")],
        "NoPlace(\"@0999\")",
    )?;
    judge_fault(&rt, alloc, &[(UNIT, "", "@0999", "b")], "NoText(\"@0999\")")
}
