//! The venue of a base's folder, or the answer that stops a command.

ghost use Rattle.std.specs.Prelude.{◌≡◌, IfOk, IfErr, IfSome, length, IsErrOf};
ghost use Rattle.venue_ports.specs.Files.{HasReadCause};
ghost use Rattle.venue_ports.specs.declared.folders.ReadFault.TheVariants.{OutOfMemory as NoMemory};
ghost use Rattle.venue_folder.specs.Shelves.{folder_files, folder_path};
ghost use Rattle.venue_types.specs.FolderFiles.{all_files};
ghost use Rattle.venue_folder.specs.AskedFolders.{AskedUntil};
ghost use Rattle.venue_ports.specs.declared.folders.ReadFault.TheVariants.{Failed};
ghost use Rattle.venue_commands.specs.FaultOrder.{FailsInFolder};
ghost use Rattle.venue_commands.specs.Steps.{IsMade, IsMadeOf, IsPlain};

use crate::command::FolderOf;
use crate::printout::{Printout, printed};
use crate::settings::settings_of;
use crate::status::Status;
use check_text::rejected_text;
use std::alloc::Global;
use venue_folder::files_of;
use venue_ports::{Folders, ReadFault};
use venue_session::{Built, Venue, build};
use venue_types::{Files, OutOfMemory, Settings};

/// What becomes of a folder of a base.
#[derive(Drop)]
pub(crate) enum Made {
    /// There is no venue, and this is printed.
    Stopped(Printout),
    Venue(Venue),
}

/// What becomes of a folder under settings.
pub(crate) fn made_of(alloc: Global, files: &Files, settings: &Settings) -> Result<Made, ReadFault>
    requires { length files.now.slots ≡ 17 }
    ensures told { IfOk result (IsMadeOf files.now settings.now) }
    ensures plain { IfOk result IsPlain }
    ensures memory { IfErr result (λ why. why ≡ NoMemory) }
{
    match build(alloc, files, settings) {
        Ok(Built::Rejected(report)) => {
            let text = rejected_text(alloc, &report)?;
            Ok(Made::Stopped(printed(Status::Negative, text)))
        }
        Ok(Built::Venue(venue)) => Ok(Made::Venue(venue)),
        Err(OutOfMemory) => Err(ReadFault::OutOfMemory),
    }
}

/// The files of a folder of the base.
pub(crate) fn files_at<F: Folders>(
    alloc: Global,
    of: FolderOf<'_>,
    folders: &mut F,
) -> Result<Files, ReadFault>
    ensures told { IfOk result (λ held. IfSome (F.files folders.old) (λ files. held ≡ folder_files files (folder_path of.entry.base.now of.entry.folder.now))) }
    ensures seventeen { IfOk result (λ held. length held.slots ≡ 17) }
    ensures same { F.files folders.new ≡ F.files folders.old }
    ensures failed { IsErrOf result ReadFault.Failed → AskedUntil (folder_path of.entry.base.now of.entry.folder.now) all_files (F.asked folders.old) (F.asked folders.new) Failed }
    ensures cause { HasReadCause (F.faults folders.old) (F.faults folders.new) result }
{
    let base = of.base;
    let folder = of.folder;
    let path = format!(in alloc; "{base}/{folder}")?;
    files_of(alloc, path.as_str(), folders)
}

/// The venue of a folder of the base, under the base's settings, or the answer where there is none.
pub(crate) fn venue_of<F: Folders>(
    alloc: Global,
    of: FolderOf<'_>,
    folders: &mut F,
) -> Result<Made, ReadFault>
    ensures told { IfOk result (λ made. IfSome (F.files folders.old) (λ files. IsMade files of.entry.base.now of.entry.folder.now made)) }
    ensures plain { IfOk result IsPlain }
    ensures same { F.files folders.new ≡ F.files folders.old }
    ensures failed { IsErrOf result ReadFault.Failed → FailsInFolder (F.files folders.old) (F.asked folders.old) (F.asked folders.new) of.entry.base.now of.entry.folder.now }
    ensures cause { HasReadCause (F.faults folders.old) (F.faults folders.new) result }
{
    let settings = match settings_of(alloc, of.base, folders)? {
        Ok(settings) => settings,
        Err(text) => return Ok(Made::Stopped(printed(Status::Wrong, text))),
    };
    let files = files_at(alloc, of, folders)?;
    made_of(alloc, &files, &settings)
}
