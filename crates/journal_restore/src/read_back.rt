//! A journal read back.

ghost use Rattle.std.specs.Prelude.{◌≡◌, ◌≤◌, ◌*◌, ◌^◌, IfOk, IfErr, length};
ghost use Rattle.std.specs.Arc.{arc_value};
ghost use Rattle.venue_ports.specs.Moments.{Now};
ghost use Rattle.change_journal.specs.Readers.{HasOnlyRead};
ghost use Rattle.change_journal.specs.States.{IsReady};
ghost use Rattle.change_journal.specs.Told.{recorded};
ghost use Rattle.journal_restore.specs.Restores.{CountsRestore, IsCause, IsRestored, resumed_entries};

use crate::ending::{End, end_of};
use crate::finding::fault_of;
use crate::restored::{Restored, Unrestored};
use board_copies::Resumed;
use change_journal::{Journal, Reader, Unread};
use std::alloc::Global;
use std::sync::Arc;
use venue_hall::number_law;
use venue_ports::Disk;
use venue_types::Settings;

// How many entries a history has, or none.
fn count_of(resumed: &Option<Resumed>) -> u64
    ensures counted { result ≡ length (resumed_entries resumed.now) }
    ensures few { result ≤ 2 ^ 32 }
{
    number_law();
    match resumed {
        None => 0,
        Some(resumed) => u64::from(resumed.held.board.number()),
    }
}

// The journal that goes on where its records end.
fn with_journal<K: Disk>(disk: K, end: End) -> Restored<K>
    requires ready { Now (IsReady (recorded (length (resumed_entries end.resumed)) (K.moments disk)) end.gate end.is_shut) (K.moments disk) }
    requires room { end.gate ≤ length (resumed_entries end.resumed) * 2 ^ 30 }
    ensures disk { result.journal.disk ≡ disk }
    ensures count { result.journal.count ≡ length (resumed_entries result.resumed) }
    ensures resumed { result.resumed ≡ end.resumed }
{
    let End {
        gate,
        is_shut,
        resumed,
    } = end;
    let count = count_of(&resumed);
    Restored {
        journal: Journal::over(disk, gate, count, is_shut),
        resumed,
    }
}

/// Reads the journal on a disk in one pass, and replays the history that it holds under these settings. Begins with a sync, since what a
/// read gives may not be on the disk yet, and writes nothing. Bytes that are damaged are told before a record that doesn't fit. Takes the memory of
/// one folder, of the version and of the next one.
pub fn restore<K: Disk>(
    alloc: Global,
    disk: K,
    settings: &Arc<Settings>,
) -> Result<Restored<K>, Unrestored<K>>
    ensures ok { IfOk result (λ r. IsRestored (arc_value settings.now) (K.moments disk) (K.moments r.journal.disk) r.journal.count r.resumed) }
    ensures kept { IfOk result (λ r. K.faults r.journal.disk ≡ K.faults disk) }
    ensures cause { IfErr result (λ u. Now (λ m. IsCause (arc_value settings.now) u.fault m.reads) (K.moments disk)) }
    ensures same { IfErr result (λ u. HasOnlyRead (K.moments disk) (K.moments u.disk)) }
    ensures failed { IfErr result (λ u. CountsRestore (K.faults disk) (K.faults u.disk) u.fault) }
{
    let mut reader = match Reader::open(alloc, disk) {
        Ok(reader) => reader,
        Err(Unread { disk, fault }) => {
            let fault = fault_of(fault);
            return Err(Unrestored { disk, fault });
        }
    };
    match end_of(alloc, &mut reader, settings) {
        Ok(end) => Ok(with_journal(reader.into_disk(), end)),
        Err(fault) => {
            let disk = reader.into_disk();
            Err(Unrestored { disk, fault })
        }
    }
}
