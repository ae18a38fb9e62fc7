//! A history begun in a journal that has no record.

ghost use Rattle.std.specs.Prelude.{◌≡◌, ◌⊎◌, IfErr, IfOk, length};
ghost use Rattle.std.specs.Arc.{arc_value};
ghost use Rattle.venue_hall.specs.Built.{IsVenueOf};
ghost use Rattle.venue_hall.specs.Openings.{opening_history};
ghost use Rattle.venue_hall.specs.Standing.{AreRecordsOf};
ghost use Rattle.board_copies.specs.Stamps.{entries_of};
ghost use Rattle.change_journal.specs.Told.{told_records};
ghost use Rattle.journal_restore.specs.Beginnings.{IsBegun, IsUnbegun};
ghost use Rattle.journal_restore.specs.Restores.{CountsRestore};
ghost use Rattle.journal_restore.specs.declared.restored.RestoreFault.TheVariants as fault;

use crate::restored::{Kept, RestoreFault, Unrestored};
use board_copies::{Resumed, Resuming};
use change_journal::Journal;
use std::alloc::Global;
use std::sync::Arc;
use venue_hall::{Log, Record, Venue, slots_law};
use venue_ports::Disk;
use venue_types::{Files, OutOfMemory, Settings};

// The history that a venue opens.
fn opened(
    alloc: Global,
    settings: &Arc<Settings>,
    venue: Arc<Venue>,
) -> Result<Resumed, OutOfMemory>
    requires { (arc_value venue).settings ≡ arc_value settings.now }
    ensures opening { IfOk result (λ resumed. entries_of resumed.held.stamp ≡ opening_history venue) }
    ensures settings { IfOk result (λ resumed. resumed.held.board.settings ≡ arc_value settings.now) }
{
    Resuming::first(alloc, Arc::try_clone(settings)?, venue)?.finish(alloc)
}

/// Begins the history of a venue in a journal that has no record: the record of its publication by worker 0 is appended, with the seventeen files
/// that the venue was made of. All memory is taken before, so where that runs out the disk is as it was; where the disk fails, it has no record, or
/// this one, of an append that failed.
pub fn begin<K: Disk>(
    alloc: Global,
    journal: Journal<K>,
    settings: &Arc<Settings>,
    venue: Arc<Venue>,
    files: &Files,
) -> Result<Kept<K>, Unrestored<K>>
    requires empty { journal.count ≡ 0 }
    requires seventeen { length files.now.slots ≡ 17 }
    requires made { IsVenueOf files.now (arc_value settings.now) (arc_value venue) }
    ensures opening { IfOk result (λ kept. entries_of kept.resumed.held.stamp ≡ opening_history venue) }
    ensures settings { IfOk result (λ kept. kept.resumed.held.board.settings ≡ arc_value settings.now) }
    ensures length { IfOk result (λ kept. kept.journal.count ≡ length (entries_of kept.resumed.held.stamp)) }
    ensures records { IfOk result (λ kept. AreRecordsOf (told_records kept.journal.count (K.moments kept.journal.disk)) (entries_of kept.resumed.held.stamp)) }
    ensures begun { IfOk result (λ kept. IsBegun files.now.slots (K.moments journal.disk) kept.journal.count (K.moments kept.journal.disk)) }
    ensures kept { IfOk result (λ kept. K.faults kept.journal.disk ≡ K.faults journal.disk) }
    ensures cause { IfErr result (λ u. (u.fault ≡ fault.Failed) ⊎ (u.fault ≡ fault.OutOfMemory)) }
    ensures unbegun { IfErr result (λ u. IsUnbegun files.now.slots (K.moments journal.disk) u.fault (K.moments u.disk)) }
    ensures failed { IfErr result (λ u. CountsRestore (K.faults journal.disk) (K.faults u.disk) u.fault) }
{
    slots_law();
    let mut journal = journal;
    let Ok(resumed) = opened(alloc, settings, venue) else {
        return Err(Unrestored {
            disk: journal.into_disk(),
            fault: RestoreFault::OutOfMemory,
        });
    };
    let opening = Record::Published { worker: 0, files };
    match journal.append(&opening) {
        Ok(()) => Ok(Kept { journal, resumed }),
        Err(_failed) => Err(Unrestored {
            disk: journal.into_disk(),
            fault: RestoreFault::Failed,
        }),
    }
}
