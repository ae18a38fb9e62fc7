//! What a session or a service of a folder comes to, before anything is served.

ghost use Rattle.std.specs.Prelude.{◌≡◌, IfOk, IsErrOf};
ghost use Rattle.venue_ports.specs.Files.{HasReadCause};
ghost use Rattle.venue_folder.specs.Shelves.{folder_path};
ghost use Rattle.venue_types.specs.FolderFiles.{all_files};
ghost use Rattle.venue_folder.specs.AskedFolders.{AskedUntil};
ghost use Rattle.venue_ports.specs.declared.folders.ReadFault.TheVariants.{Failed};
ghost use Rattle.venue_commands.specs.FaultOrder.{FailsInFolder};
ghost use Rattle.venue_commands.specs.Openings.{IsFolderReached, IsOpenedUnder, IsPlainText, IsStartUnder};

use crate::base_venue::{Made, files_at, made_of};
use crate::command::FolderOf;
use crate::printout::{Printout, printed};
use crate::settings::settings_of;
use crate::start::{Start, opening_of};
use crate::status::Status;
use std::alloc::Global;
use venue_ports::{Folders, ReadFault};
use venue_types::{OutOfMemory, Settings};

/// What a folder comes to.
#[derive(Drop)]
pub enum Reached {
    /// This is printed.
    Printed(Printout),
    /// A hall is opened.
    Opened(Start),
}

/// What the folder comes to under the settings of its base, which were read before.
///
/// # Errors
///
/// The folders failed, or memory ran out.
pub fn open_folder<F: Folders>(
    alloc: Global,
    of: FolderOf<'_>,
    settings: &Settings,
    folders: &mut F,
) -> Result<Reached, ReadFault>
    ensures told { IfOk result (IsOpenedUnder (F.files folders.old) of.entry.base.now of.entry.folder.now settings.now) }
    ensures plain { IfOk result IsPlainText }
    ensures settings { IfOk result (IsStartUnder settings.now) }
    ensures same { F.files folders.new ≡ F.files folders.old }
    ensures failed { IsErrOf result ReadFault.Failed → AskedUntil (folder_path of.entry.base.now of.entry.folder.now) all_files (F.asked folders.old) (F.asked folders.new) Failed }
    ensures cause { HasReadCause (F.faults folders.old) (F.faults folders.new) result }
{
    let files = files_at(alloc, of, folders)?;
    match made_of(alloc, &files, settings)? {
        Made::Stopped(answer) => Ok(Reached::Printed(answer)),
        Made::Venue(venue) => match opening_of(alloc, of.base, files, venue) {
            Ok(opening) => Ok(Reached::Opened(opening)),
            Err(OutOfMemory) => Err(ReadFault::OutOfMemory),
        },
    }
}

/// What a session or a service of a folder of the base comes to: the settings are read, and then the folder.
///
/// # Errors
///
/// The folders failed, or memory ran out.
pub fn reach_folder<F: Folders>(
    alloc: Global,
    of: FolderOf<'_>,
    folders: &mut F,
) -> Result<Reached, ReadFault>
    ensures told { IfOk result (λ reached. IsFolderReached (F.files folders.old) of.entry.base.now of.entry.folder.now reached) }
    ensures plain { IfOk result IsPlainText }
    ensures same { F.files folders.new ≡ F.files folders.old }
    ensures failed { IsErrOf result ReadFault.Failed → FailsInFolder (F.files folders.old) (F.asked folders.old) (F.asked folders.new) of.entry.base.now of.entry.folder.now }
    ensures cause { HasReadCause (F.faults folders.old) (F.faults folders.new) result }
{
    match settings_of(alloc, of.base, folders)? {
        Ok(settings) => open_folder(alloc, of, &settings, folders),
        Err(text) => Ok(Reached::Printed(printed(Status::Wrong, text))),
    }
}
