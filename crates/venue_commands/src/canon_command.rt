//! The command `canon`.

ghost use Rattle.std.specs.Prelude.{◌≡◌, IfOk, IfErr, IfSome, IsErrOf};
ghost use Rattle.venue_ports.specs.Files.{HasReadCause};
ghost use Rattle.venue_ports.specs.declared.folders.ReadFault.TheVariants.{OutOfMemory as NoMemory};
ghost use Rattle.venue_commands.specs.FaultOrder.{FailsInFolder};
ghost use Rattle.venue_commands.specs.Steps.{IsPrinted};
ghost use Rattle.venue_commands.specs.Written.{CanonOutput, slot_text, written_text};

use crate::base_venue::{Made, venue_of};
use crate::command::CanonOf;
use crate::printout::Printout;
use crate::status::Status;
use imdf_write::write_file;
use std::alloc::Global;
use venue_ports::{Folders, ReadFault};
use venue_session::Venue;
use venue_types::{Bytes, File, OutOfMemory, Slot};

// The bytes of a file, none where it is absent.
fn bytes_of(alloc: Global, slot: Slot) -> Bytes
    ensures { result ≡ slot_text slot }
{
    match slot {
        Slot::Held(bytes) => bytes,
        Slot::Absent => Bytes::from_vec(Vec::new(alloc)),
    }
}

// The answer where the folder makes this venue: its file is written, and no other.
fn written(alloc: Global, venue: &Venue, file: File) -> Result<Printout, ReadFault>
    ensures text { IfOk result (λ answer. answer.text ≡ written_text venue.now file) }
    ensures status { IfOk result (λ answer. answer.status ≡ Status.Done) }
    ensures memory { IfErr result (λ why. why ≡ NoMemory) }
{
    match write_file(alloc, venue.features(), file) {
        Ok(slot) => Ok(Printout {
            status: Status::Done,
            text: bytes_of(alloc, slot),
        }),
        Err(OutOfMemory) => Err(ReadFault::OutOfMemory),
    }
}

/// The answer to `canon BASE FOLDER FILE`.
pub(crate) fn canon_answer<F: Folders>(
    alloc: Global,
    canon: CanonOf<'_>,
    folders: &mut F,
) -> Result<Printout, ReadFault>
    ensures told { IfOk result (λ answer. IfSome (F.files folders.old) (λ files. CanonOutput files canon.entry.of.base.now canon.entry.of.folder.now canon.entry.file answer.text answer.status)) }
    ensures plain { IfOk result (λ answer. IsPrinted answer.status) }
    ensures same { F.files folders.new ≡ F.files folders.old }
    ensures failed { IsErrOf result ReadFault.Failed → FailsInFolder (F.files folders.old) (F.asked folders.old) (F.asked folders.new) canon.entry.of.base.now canon.entry.of.folder.now }
    ensures cause { HasReadCause (F.faults folders.old) (F.faults folders.new) result }
{
    let made = venue_of(alloc, canon.of, folders)?;
    match made {
        Made::Stopped(answer) => Ok(answer),
        Made::Venue(venue) => written(alloc, &venue, canon.file),
    }
}
