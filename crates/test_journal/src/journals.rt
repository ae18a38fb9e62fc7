//! Journals over disks in memory: how they begin, and an append.

ghost use Rattle.std.specs.Prelude.{◌≡◌, ◌≤◌, ◌^◌, ◌↔◌, [], ◌∷◌, ◌++◌, length, true, IsTrue};
ghost use Rattle.venue_hall.specs.Logging.{logged};
ghost use Rattle.venue_hall.specs.Records.{IsLoggable, AreSlots, IsWithinLimit, published};
ghost use Rattle.venue_ports.specs.MemoryDisks.{disk_record};
ghost use Rattle.change_journal.specs.Texts.{IsClosed};

use crate::publications::Publication;
use crate::records::Entry;
use crate::texts::{is_closed_behind, is_shut};
use change_journal::{Journal, appended_law, begin_law};
use std::process::Abort;
use venue_hall::{Log, Record};
use venue_ports::MemoryDisk;
use venue_types::{Files, Slot};

// Whether a slot has no more bytes than a log has room for.
fn is_within(slot: &Slot) -> bool
    ensures { IsTrue result ↔ IsWithinLimit slot.now }
{
    match slot {
        Slot::Absent => true,
        Slot::Held(bytes) => bytes.as_slice().len() <= 33_554_432,
    }
}

// Whether a log has room for these files.
fn are_slots(files: &Files) -> bool
    ensures { result ≡ true → AreSlots files.now.slots }
{
    files.slots.len() == 17 && files.slots.as_slice().iter().all(|slot| is_within(slot))
}

// Whether a log has room for a record.
fn is_loggable(entry: &Record<'_>) -> bool
    ensures { result ≡ true → IsLoggable (logged entry.now) }
{
    match entry {
        Record::Published { worker, files } => *worker <= 16 && are_slots(files),
        Record::Closed { worker, .. } => *worker <= 16,
        Record::Reopened { worker, .. } => *worker <= 16,
    }
}

// A new journal, on a disk without calls.
fn over_new(disk: MemoryDisk) -> Journal<MemoryDisk>
    requires calls { length (disk_record disk).calls ≡ 0 }
    requires short { length (disk_record disk).first ≤ 1 }
{
    begin_law();
    Journal::over(disk, 0, 0, false)
}

// One without records, of which the gate is closed.
fn over_closed(disk: MemoryDisk) -> Journal<MemoryDisk>
    requires calls { length (disk_record disk).calls ≡ 0 }
    requires closed { IsClosed [] (disk_record disk).first }
{
    begin_law();
    Journal::over(disk, 0, 0, true)
}

// One of a publication, with a closed gate behind it.
fn over_one(disk: MemoryDisk, publication: &Publication) -> Journal<MemoryDisk>
    requires calls { length (disk_record disk).calls ≡ 0 }
    requires text { (disk_record disk).first ≡ publication.now.text.items ++ 0 ∷ [] }
    requires loggable { IsLoggable (record { worker = publication.now.worker; act = published publication.now.files.slots }) }
    requires short { length publication.now.text.items ≤ 2 ^ 30 }
{
    begin_law();
    appended_law();
    let text = publication.text.as_slice();
    Journal::over(disk, text.len() as u64, 1, true)
}

/// A journal without records: a new one over at most one byte, else one with a closed gate at the front.
pub(crate) fn journal_over(rt: &impl Abort, disk: MemoryDisk) -> Journal<MemoryDisk> {
    assert!(rt; disk.calls().is_empty());
    if disk.first().len() <= 1 {
        over_new(disk)
    } else {
        assert!(rt; is_shut(disk.first()));
        over_closed(disk)
    }
}

/// A journal of one publication, with a closed gate behind it.
pub(crate) fn journal_behind(
    rt: &impl Abort,
    disk: MemoryDisk,
    publication: &Publication,
) -> Journal<MemoryDisk> {
    let text = publication.text.as_slice();
    assert!(rt; disk.calls().is_empty());
    assert!(rt; is_closed_behind(text, disk.first()));
    assert!(rt; publication.worker <= 16 && are_slots(&publication.files));
    assert!(rt; text.len() <= 1_073_741_824);
    over_one(disk, publication)
}

/// Appends a record, and answers whether it was kept.
pub(crate) fn append(
    rt: &impl Abort,
    journal: &mut Journal<MemoryDisk>,
    entry: &Entry<'_>,
) -> bool {
    assert!(rt; journal.record_count() < 4_294_967_296);
    assert!(rt; is_loggable(&entry.record));
    journal.append(&entry.record).is_ok()
}
