//! One file after another.

ghost use Rattle.std.specs.Prelude.{◌≡◌, ◌≢◌, ◌+◌, ℕ, OnOk, IfOk, Some, length, slice_get};
ghost use Rattle.venue_types.specs.FolderFiles.{file_number, geometry_of};
ghost use Rattle.imdf_read.specs.Progress.{IsUpTo, HasRows};
ghost use Rattle.imdf_read.specs.Taking.{Serves};

use crate::file::read_file;
use crate::items::{Gathered, Taken};
use crate::manifest::judge_manifest;
use imdf_rows::FeatureRow;
use imdf_schema::File;
use std::alloc::Global;
use venue_types::{List, OutOfMemory, Slot};

/// What was gathered of the files so far. The counts stand still at their type's end.
#[derive(Drop)]
pub(crate) struct Progress {
    pub gathered: Gathered,
    /// The items of all collections.
    pub items: u64,
    /// The positions of all judged geometries.
    pub positions: u64,
}

fn slot_of(slots: &[Slot], file: File) -> &Slot
    requires { length slots.now ≡ 17 }
    ensures { slice_get slots.now (file_number file) ≡ Some result.now }
{
    &slots[file.number() as usize]
}

/// Reads the manifest.
pub(crate) fn read_manifest(alloc: Global, slots: &[Slot]) -> Result<Progress, OutOfMemory>
    requires { length slots.now ≡ 17 }
    ensures { IfOk result (IsUpTo slots.now 0) }
{
    let mut findings = Vec::new(alloc);
    judge_manifest(alloc, &mut findings, slot_of(slots, File::Manifest))?;
    Ok(Progress {
        gathered: Gathered {
            findings,
            notes: Vec::new(alloc),
        },
        items: 0,
        positions: 0,
    })
}

/// Reads the next file.
pub(crate) fn read_next_file<R: FeatureRow>(
    alloc: Global,
    progress: &mut Progress,
    slots: &[Slot],
    file: File,
) -> Result<List<R>, OutOfMemory>
    requires count { length slots.now ≡ 17 }
    requires features { file ≢ File.Manifest }
    requires serves { Serves R.geometry (geometry_of file) }
    ensures progress { OnOk result ((n : ℕ) → n + 1 ≡ file_number file
        → IsUpTo slots.now n progress.old → IsUpTo slots.now (n + 1) progress.new) }
    ensures rows { IfOk result (HasRows R.is_row slots.now file) }
{
    let Taken {
        rows,
        items,
        positions,
    } = read_file(alloc, &mut progress.gathered, file, slot_of(slots, file))?;
    progress.items = progress.items.saturating_add(items as u64);
    progress.positions = progress.positions.saturating_add(positions);
    Ok(List::from_vec(rows))
}
