//! Folders below a base.

ghost use Rattle.std.specs.Prelude.{◌≡◌, IfOk, string_bytes};
ghost use Rattle.venue_ports.specs.Files.{HasReadCause};
ghost use Rattle.venue_history.specs.Shelves.{folder_path};
ghost use Rattle.venue_history.specs.Changes.{AreRead};
ghost use Rattle.venue_state.specs.Making.{shelf_of};

use std::alloc::{AllocError, Global};
use venue_history::files_of;
use venue_ports::{Folders, ReadFault};
use venue_types::{Files, Text};

/// Folders, and the base below which they are named.
#[derive(Drop)]
pub struct BaseFolders<F: Folders> {
    pub folders: F,
    pub base: Text,
}

// The path of a folder of the base.
fn path_of(alloc: Global, base: &str, folder: &str) -> Result<String, AllocError>
    ensures { IfOk result (λ path. string_bytes path ≡ folder_path base.now folder.now) }
{
    format!(in alloc; "{base}/{folder}")
}

impl<F: Folders> BaseFolders<F> {
    /// The seventeen files of the folder of this name, read once each, in order, up to the first fault.
    pub fn read(&mut self, alloc: Global, folder: &Text) -> Result<Files, ReadFault>
        ensures read { IfOk result (λ files. AreRead (shelf_of (F.files self.old.folders) self.old.base) folder.now files) }
        ensures same { F.files self.new.folders ≡ F.files self.old.folders }
        ensures base { self.new.base ≡ self.old.base }
        ensures cause { HasReadCause (F.faults self.old.folders) (F.faults self.new.folders) result }
    {
        let path = path_of(alloc, self.base.as_str(), folder.as_str())?;
        let files = files_of(alloc, path.as_str(), &mut self.folders)?;
        Ok(files)
    }
}
