//! The files of a folder in memory.

use std::alloc::{AllocError, Global};
use std::process::Abort;
use std::test::Fail;
use venue_folder::files_of;
use venue_ports::{MemoryFile, MemoryFolders};
use venue_types::Slot;

// A file of the station whose text is its name.
fn file_of(alloc: Global, name: &str) -> Result<MemoryFile, AllocError> {
    let folder = String::from_str(alloc, "base/station")?;
    let file = String::from_str(alloc, name)?;
    let bytes = Vec::from_slice(alloc, name.as_bytes())?;
    Ok(MemoryFile {
        folder,
        file,
        bytes,
    })
}

fn folders_of(rt: &impl Abort, alloc: Global) -> Result<MemoryFolders, AllocError> {
    let mut stored = Vec::new(alloc);
    for name in ["manifest.json", "venue.geojson", "notes.txt"] {
        stored.push(file_of(alloc, name)?)?;
    }
    Ok(MemoryFolders::new(stored, Vec::new(alloc)).expect(rt, "folders"))
}

fn judge(rt: &impl Abort, slots: &[Slot]) {
    assert!(rt; slots.len() == 17);
    for (number, slot) in slots.iter().enumerate() {
        let expected = match number {
            0 => Some(b"manifest.json".as_slice()),
            16 => Some(b"venue.geojson".as_slice()),
            _ => None,
        };
        let found = match slot {
            Slot::Absent => None,
            Slot::Held(bytes) => Some(bytes.as_slice()),
        };
        assert!(rt; found == expected);
    }
}

#[test]
fn the_files_of_a_folder_are_read(rt: HostRuntime) -> Result<(), Fail> {
    let alloc = rt.alloc();
    let mut folders = folders_of(&rt, alloc)?;
    let files = files_of(alloc, "base/station", &mut folders).expect(&rt, "the files");
    judge(&rt, files.slots.as_slice());
    Ok(())
}
