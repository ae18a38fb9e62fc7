//! The files of a folder.

ghost use Rattle.std.specs.Prelude.{◌≡◌, [], ◌∷◌, IfOk, IfErr, IfSome, OnOk, map, length, false};
ghost use Rattle.venue_ports.specs.Asked.{HaveAsked, is_failure};
ghost use Rattle.venue_ports.specs.Files.{HasReadCause};
ghost use Rattle.venue_types.specs.FolderFiles.{all_files};
ghost use Rattle.venue_folder.specs.AskedFolders.{read_of, reads_of, AskedUntil};
ghost use Rattle.venue_folder.specs.Shelves.{slot_at, folder_files};

use imdf_schema::{ALL_FILES, File};
use std::alloc::Global;
use venue_ports::{Folders, ReadFault, asked_law};
use venue_types::{Bytes, Files, List, Slot};

const FILE_LIMIT: u64 = 33_554_432;

// A file of a folder, cut one byte after its limit.
fn slot_of<F: Folders>(
    alloc: Global,
    path: &str,
    file: File,
    folders: &mut F,
) -> Result<Slot, ReadFault>
    ensures told { IfOk result (λ slot. IfSome (F.files folders.old) (λ stored. slot ≡ slot_at stored path.now file)) }
    ensures same { F.files folders.new ≡ F.files folders.old }
    ensures asked { OnOk result (HaveAsked (read_of path.now false file ∷ []) (F.asked folders.old) (F.asked folders.new)) }
    ensures asked_until { IfErr result (λ fault. HaveAsked (read_of path.now (is_failure fault) file ∷ []) (F.asked folders.old) (F.asked folders.new)) }
    ensures cause { HasReadCause (F.faults folders.old) (F.faults folders.new) result }
{
    match folders.read(alloc, path, file.name(), FILE_LIMIT) {
        Ok(None) => Ok(Slot::Absent),
        Ok(Some(bytes)) => Ok(Slot::Held(Bytes::from_vec(bytes))),
        Err(fault) => Err(fault),
    }
}

// These files of a folder.
#[tactic(auto, using(crate::proofs::AskedSlots::asked_more, crate::proofs::AskedSlots::until_more, crate::proofs::AskedSlots::without_memory))]
fn slots_of<F: Folders>(
    alloc: Global,
    path: &str,
    files: &[File],
    folders: &mut F,
) -> Result<Vec<Slot>, ReadFault>
    ensures told { IfOk result (λ slots. IfSome (F.files folders.old) (λ stored. slots.items ≡ map (slot_at stored path.now) files.now)) }
    ensures count { IfOk result (λ slots. length slots.items ≡ length files.now) }
    ensures same { F.files folders.new ≡ F.files folders.old }
    ensures asked { OnOk result (HaveAsked (reads_of path.now files.now) (F.asked folders.old) (F.asked folders.new)) }
    ensures asked_until { IfErr result (AskedUntil path.now files.now (F.asked folders.old) (F.asked folders.new)) }
    ensures cause { HasReadCause (F.faults folders.old) (F.faults folders.new) result }
{
    asked_law();
    let mut slots = Vec::new(alloc);
    for file in files {
        match slot_of(alloc, path, *file, folders) {
            Ok(slot) => slots.push(slot)?,
            Err(fault) => return Err(fault),
        }
    }
    Ok(slots)
}

/// The seventeen files of the folder at a path, as many bytes of each as show whether it is over its limit. Each is asked for once, in
/// order, up to the first fault.
pub fn files_of<F: Folders>(alloc: Global, path: &str, folders: &mut F) -> Result<Files, ReadFault>
    ensures told { IfOk result (λ held. IfSome (F.files folders.old) (λ files. held ≡ folder_files files path.now)) }
    ensures seventeen { IfOk result (λ held. length held.slots ≡ 17) }
    ensures same { F.files folders.new ≡ F.files folders.old }
    ensures asked { OnOk result (HaveAsked (reads_of path.now all_files) (F.asked folders.old) (F.asked folders.new)) }
    ensures asked_until { IfErr result (AskedUntil path.now all_files (F.asked folders.old) (F.asked folders.new)) }
    ensures cause { HasReadCause (F.faults folders.old) (F.faults folders.new) result }
{
    let slots = slots_of(alloc, path, &ALL_FILES, folders)?;
    Ok(Files {
        slots: List::from_vec(slots),
    })
}
