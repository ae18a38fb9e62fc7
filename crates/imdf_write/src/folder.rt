//! All files of a folder.

ghost use Rattle.std.specs.Prelude.{◌≡◌, map, IfOk};
ghost use Rattle.imdf_write.specs.Folder.{canonical, canonical_file};

use crate::file::write_file;
use std::alloc::Global;
use venue_types::{ALL_FILES, Features, File, Files, List, OutOfMemory, Slot};

// Some files of the folder of these features.
fn slots(alloc: Global, features: &Features, files: &[File]) -> Result<Vec<Slot>, OutOfMemory>
    ensures { IfOk result (λ slots. slots.items ≡ map (canonical_file features.now) files.now) }
{
    let mut slots = Vec::with_capacity(alloc, files.len())?;
    for file in files {
        slots.push(write_file(alloc, features, *file)?)?;
    }
    Ok(slots)
}

/// The seventeen files of the folder of these features, in the order of their numbers.
pub fn write_folder(alloc: Global, features: &Features) -> Result<Files, OutOfMemory>
    ensures { IfOk result (λ files. files.slots ≡ canonical features.now) }
{
    let slots = slots(alloc, features, &ALL_FILES)?;
    Ok(Files {
        slots: List::from_vec(slots),
    })
}
