//! The command `check`.

ghost use Rattle.std.specs.Prelude.{◌≡◌, IfOk, IfErr, IfSome, IsErrOf};
ghost use Rattle.venue_ports.specs.Files.{HasReadCause};
ghost use Rattle.venue_ports.specs.declared.folders.ReadFault.TheVariants.{OutOfMemory as NoMemory};
ghost use Rattle.feature_rows.specs.Rows.{feature_count};
ghost use Rattle.check_text.specs.Text.{accepted_text};
ghost use Rattle.venue_commands.specs.FaultOrder.{FailsInFolder};
ghost use Rattle.venue_commands.specs.Checked.{CheckOutput};
ghost use Rattle.venue_commands.specs.Steps.{IsPrinted};

use crate::base_venue::{Made, venue_of};
use crate::command::FolderOf;
use crate::printout::{Printout, printed};
use crate::status::Status;
use check_text::accepted_text;
use feature_rows::feature_count;
use std::alloc::Global;
use venue_ports::{Folders, ReadFault};
use venue_session::{Venue, every_venue};

// The answer where the folder makes this venue.
fn accepted(alloc: Global, venue: &Venue) -> Result<Printout, ReadFault>
    ensures text { IfOk result (λ answer. answer.text ≡ accepted_text (feature_count venue.now.features) venue.now.notes) }
    ensures status { IfOk result (λ answer. answer.status ≡ Status.Done) }
    ensures memory { IfErr result (λ why. why ≡ NoMemory) }
{
    every_venue(venue);
    let count = feature_count(venue.features());
    let text = accepted_text(alloc, count, venue.notes().as_slice())?;
    Ok(printed(Status::Done, text))
}

/// The answer to `check BASE FOLDER`.
pub(crate) fn check_answer<F: Folders>(
    alloc: Global,
    of: FolderOf<'_>,
    folders: &mut F,
) -> Result<Printout, ReadFault>
    ensures told { IfOk result (λ answer. IfSome (F.files folders.old) (λ files. CheckOutput files of.entry.base.now of.entry.folder.now answer.text answer.status)) }
    ensures plain { IfOk result (λ answer. IsPrinted answer.status) }
    ensures same { F.files folders.new ≡ F.files folders.old }
    ensures failed { IsErrOf result ReadFault.Failed → FailsInFolder (F.files folders.old) (F.asked folders.old) (F.asked folders.new) of.entry.base.now of.entry.folder.now }
    ensures cause { HasReadCause (F.faults folders.old) (F.faults folders.new) result }
{
    let made = venue_of(alloc, of, folders)?;
    match made {
        Made::Stopped(answer) => Ok(answer),
        Made::Venue(venue) => accepted(alloc, &venue),
    }
}
