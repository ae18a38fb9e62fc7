//! The changed station, as files in memory.

ghost use Rattle.std.specs.Prelude.{◌≡◌, IfOk, length};

use crate::changes::{Change, file_text};
use crate::fault::EditFault;
use crate::numbers::{
    ADDRESS, AMENITY, ANCHOR, BUILDING, DETAIL, FIXTURE, FOOTPRINT, GEOFENCE, KIOSK, LEVEL,
    MANIFEST, OCCUPANT, OPENING, RELATIONSHIP, SECTION, SETTINGS, UNIT, VENUE, file_name,
};
use std::alloc::Global;
use venue_ports::MemoryFile;
use venue_types::{Bytes, Files, List, Slot};

// The numbers of a folder's files.
static FOLDER: [usize; 17] = [
    MANIFEST,
    ADDRESS,
    AMENITY,
    ANCHOR,
    BUILDING,
    DETAIL,
    FIXTURE,
    FOOTPRINT,
    GEOFENCE,
    KIOSK,
    LEVEL,
    OCCUPANT,
    OPENING,
    RELATIONSHIP,
    SECTION,
    UNIT,
    VENUE,
];

// A file of the changed station in the folder at a path, if there is one.
fn memory_file(
    alloc: Global,
    path: &str,
    file: usize,
    change: Change,
) -> Result<Option<MemoryFile>, EditFault> {
    match file_text(alloc, file, change)? {
        None => Ok(None),
        Some(text) => Ok(Some(MemoryFile {
            folder: String::from_str(alloc, path)?,
            file: file_name(alloc, file)?,
            bytes: text.into_bytes(),
        })),
    }
}

/// The files of the changed station in the folder at a path, at most seventeen, without the settings.
pub fn folder_files(
    alloc: Global,
    path: &str,
    change: Change,
) -> Result<Vec<MemoryFile>, EditFault> {
    let mut files = Vec::new(alloc);
    for file in &FOLDER {
        if let Some(stored) = memory_file(alloc, path, *file, change)? {
            files.push(stored)?;
        }
    }
    Ok(files)
}

/// The settings of the changed station, `venue.toml` in this base.
pub fn settings_file(
    alloc: Global,
    base: &str,
    change: Change,
) -> Result<Option<MemoryFile>, EditFault> {
    memory_file(alloc, base, SETTINGS, change)
}

/// All of it below a base: the folder of this name, and the settings.
pub fn station_files(
    alloc: Global,
    base: &str,
    name: &str,
    change: Change,
) -> Result<Vec<MemoryFile>, EditFault> {
    let path = format!(in alloc; "{base}/{name}")?;
    let mut files = folder_files(alloc, path.as_str(), change)?;
    if let Some(settings) = settings_file(alloc, base, change)? {
        files.push(settings)?;
    }
    Ok(files)
}

// A file of the changed station.
fn slot_of(alloc: Global, file: usize, change: Change) -> Result<Slot, EditFault> {
    match file_text(alloc, file, change)? {
        None => Ok(Slot::Absent),
        Some(text) => Ok(Slot::Held(Bytes::from_vec(text.into_bytes()))),
    }
}

// These files of the changed station.
fn slots(alloc: Global, files: &[usize], change: Change) -> Result<Vec<Slot>, EditFault>
    ensures { IfOk result (λ slots. length slots.items ≡ length files.now) }
{
    let mut slots = Vec::new(alloc);
    for file in files {
        slots.push(slot_of(alloc, *file, change)?)?;
    }
    Ok(slots)
}

/// The seventeen files of the changed station, as they are read.
pub fn slots_of(alloc: Global, change: Change) -> Result<Files, EditFault>
    ensures { IfOk result (λ files. length files.slots ≡ 17) }
{
    let slots = slots(alloc, &FOLDER, change)?;
    Ok(Files {
        slots: List::from_vec(slots),
    })
}
