//! What stands at a place, as a record, an end or a fault.

ghost use Rattle.std.specs.Prelude.{◌≡◌, ◌<◌, IfErr, IfOk, IfSome, OnErr, OnOk};
ghost use Rattle.venue_hall.specs.Records.{IsLoggable};
ghost use Rattle.venue_ports.specs.Moments.{Now};
ghost use Rattle.change_journal.specs.Readers.{HasOnlyRead, IsNextOf, kept_of};
ghost use Rattle.journal_restore.specs.Restores.{CountsRestore};
ghost use Rattle.journal_restore.specs.Going.{HasTold, IsBrokenBy, IsNext, unread_fault};

use crate::restored::RestoreFault;
use change_journal::{Found, FoundRecord, Reader};
use std::alloc::Global;
use venue_ports::{Disk, ReadFault};

/// Why a journal isn't read back whose disk isn't read.
pub(crate) fn fault_of(fault: ReadFault) -> RestoreFault
    ensures { result ≡ unread_fault fault }
{
    match fault {
        ReadFault::Failed => RestoreFault::Failed,
        ReadFault::OutOfMemory => RestoreFault::OutOfMemory,
    }
}

/// The record at a place, none where the gate there isn't open, or the fault. Takes the memory of a publication's files.
pub(crate) fn next_record<K: Disk>(
    alloc: Global,
    reader: &mut Reader<K>,
    place: u64,
) -> Result<Option<FoundRecord>, RestoreFault>
    requires within { place < reader.old.length }
    ensures found { IfOk result (λ found. Now (λ m. IsNext place found m.reads) (K.moments reader.old.disk)) }
    ensures next { IfOk result (λ found. IfSome found (λ it. IsNextOf place reader.old.length it.next)) }
    ensures loggable { IfOk result (λ found. IfSome found (λ it. IsLoggable (kept_of it))) }
    ensures broken { IfErr result (λ fault. Now (λ m. IsBrokenBy place fault m.reads) (K.moments reader.old.disk)) }
    ensures told { OnOk result (HasTold (K.moments reader.old.disk) (K.moments reader.new.disk)) }
    ensures only { HasOnlyRead (K.moments reader.old.disk) (K.moments reader.new.disk) }
    ensures same { reader.new.length ≡ reader.old.length }
    ensures kept { OnOk result (K.faults reader.new.disk ≡ K.faults reader.old.disk) }
    ensures counts { IfErr result (λ fault. CountsRestore (K.faults reader.old.disk) (K.faults reader.new.disk) fault) }
{
    match reader.read_at(alloc, place) {
        Ok(Found::Closed) => Ok(None),
        Ok(Found::Broken) => Err(RestoreFault::Damaged(place)),
        Ok(Found::Record(record)) => Ok(Some(record)),
        Err(fault) => Err(fault_of(fault)),
    }
}
