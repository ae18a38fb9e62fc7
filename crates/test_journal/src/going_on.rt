//! Halls that go on behind a journal that was read back.

ghost use Rattle.std.specs.Prelude.{◌≡◌, ◌≤◌, length, IfOk};
ghost use Rattle.std.specs.Arc.{arc_value};
ghost use Rattle.board_copies.specs.Stamps.{entries_of};
ghost use Rattle.change_journal.specs.Told.{told_records};
ghost use Rattle.shared_hall.specs.Copied.{entries_in};
ghost use Rattle.shared_hall.specs.Standing.{AreRecordsOf};
ghost use Rattle.venue_ports.specs.MemoryDisks.{disk_moments};

use crate::disks::{Plan, content, disk_for};
use crate::halls::{Beginning, Row, rows_at};
use crate::publications::station;
use crate::readings::read_back;
use change_journal::Journal;
use journal_restore::{Kept, Restored, Unrestored, begin, restart_law, restore};
use shared_hall::{Closed, Copies};
use std::alloc::Global;
use std::process::Abort;
use std::sync::{Arc, Wait};
use std::test::Fail;
use test_station::{Change, slots_of, station_settings};
use test_venues::{base, folders};
use venue_history::{Built, build};
use venue_ports::{Disk, MemoryDisk, MemoryFolders};
use venue_types::{FeatureId, Settings};

/// The settings of the station, under which this version is the last.
pub(crate) fn settings_until(alloc: Global, last_version: u32) -> Result<Arc<Settings>, Fail> {
    let mut settings = station_settings(alloc)?;
    settings.last_version = last_version.max(1);
    Ok(Arc::new(alloc, settings)?)
}

// The station's history, begun in a journal that has no record.
fn first<K: Disk + Drop>(
    alloc: Global,
    journal: Journal<K>,
    settings: &Arc<Settings>,
) -> Result<Result<Kept<K>, Unrestored<K>>, Fail>
    requires { journal.count ≡ 0 }
    ensures under { IfOk result (λ found. IfOk found (λ kept. kept.resumed.held.board.settings ≡ arc_value settings.now)) }
    ensures length { IfOk result (λ found. IfOk found (λ kept. kept.journal.count ≡ length (entries_of kept.resumed.held.stamp))) }
    ensures records { IfOk result (λ found. IfOk found (λ kept. AreRecordsOf (told_records kept.journal.count (K.moments kept.journal.disk)) (entries_of kept.resumed.held.stamp))) }
{
    let files = slots_of(alloc, Change::of(&[]))?;
    match build(alloc, &files, settings)? {
        Built::Venue(venue) => {
            let venue = Arc::new(alloc, venue)?;
            Ok(begin(alloc, journal, settings, venue, &files))
        }
        Built::Rejected(_) => Err(Fail::new("the folder is rejected")),
    }
}

/// What a disk is read back to, or the station's history, begun there.
pub(crate) fn begun<K: Disk + Drop>(
    alloc: Global,
    disk: K,
    settings: &Arc<Settings>,
) -> Result<Result<Kept<K>, Unrestored<K>>, Fail>
    ensures under { IfOk result (λ found. IfOk found (λ kept. kept.resumed.held.board.settings ≡ arc_value settings.now)) }
    ensures length { IfOk result (λ found. IfOk found (λ kept. kept.journal.count ≡ length (entries_of kept.resumed.held.stamp))) }
    ensures records { IfOk result (λ found. IfOk found (λ kept. AreRecordsOf (told_records kept.journal.count (K.moments kept.journal.disk)) (entries_of kept.resumed.held.stamp))) }
{
    restart_law();
    match restore(alloc, disk, settings) {
        Ok(Restored { journal, resumed }) => match resumed {
            Some(resumed) => Ok(Ok(Kept { journal, resumed })),
            None => first(alloc, journal, settings),
        },
        Err(unrestored) => Ok(Err(unrestored)),
    }
}

/// What a hall begins with that goes on with the journal on a disk, or begins there, over the three folders, of which the read with this number fails.
pub(crate) fn kept<R: Wait>(
    rt: &R,
    alloc: Global,
    disk: MemoryDisk,
    settings: Arc<Settings>,
    failing_read: u64,
    workers: u8,
) -> Result<Beginning<MemoryFolders, Journal<MemoryDisk>>, Fail>
    requires some { 1 ≤ workers }
    requires range { workers ≤ 16 }
    ensures length { IfOk result (λ it. it.log.count ≡ length (entries_in it.copies)) }
    ensures records { IfOk result (λ it. AreRecordsOf (told_records it.log.count (disk_moments it.log.disk)) (entries_in it.copies)) }
{
    let folders = folders(alloc, failing_read)?;
    let base = base(alloc)?;
    let Ok(found) = begun(alloc, disk, &settings)? else {
        return Err(Fail::new("not restored"));
    };
    let Kept { journal, resumed } = found;
    Ok(Beginning {
        copies: Copies::of(rt, alloc, settings, resumed, workers)?,
        folders,
        base,
        log: journal,
    })
}

/// How many calls a disk has when the journal on it was read back.
pub(crate) fn calls_of(alloc: Global, first: &[u8], settings: &Arc<Settings>) -> Result<u64, Fail> {
    match read_back(alloc, first, &[], settings)? {
        Ok(restored) => Ok(restored.journal.into_disk().calls().len() as u64),
        Err(_) => Err(Fail::new("not restored")),
    }
}

/// A disk with these bytes and room for 16,384 calls, of which those fail that have these numbers, counted behind the calls that read the journal
/// back.
pub(crate) fn disk_behind(
    alloc: Global,
    first: &[u8],
    settings: &Arc<Settings>,
    failing: &[u64],
) -> Result<MemoryDisk, Fail> {
    let before = calls_of(alloc, first, settings)?;
    let mut numbers = Vec::new(alloc);
    for number in failing {
        numbers.push(before.saturating_add(*number))?;
    }
    let plan = Plan {
        first,
        failing: &numbers,
        puts: &[],
    };
    disk_for(alloc, &plan, 16_384)
}

/// The record of a closing by a worker, or of an opening again, for all, as a journal has it.
pub(crate) fn closure_text(worker: u8, feature: FeatureId, is_closing: bool) -> [u8; 21] {
    let mut text = [0; 21];
    text[0] = 1;
    text[1] = if is_closing { 2 } else { 3 };
    text[2] = worker;
    text[3..19].copy_from_slice(&feature.0.to_be_bytes());
    text[20] = 3;
    text
}

/// What happens at the two seats of a hall that goes on behind the station's journal.
#[derive(Clone, Copy)]
pub(crate) struct Course<'a> {
    pub(crate) last_version: u32,
    /// The calls on the disk that fail, counted from 1 behind those that read it back.
    pub(crate) failing: &'a [u64],
    /// The read of a folder that fails, or 0.
    pub(crate) failing_read: u64,
    pub(crate) rows: &'a [Row],
}

/// What it ends with.
#[derive(Clone, Copy)]
pub(crate) struct End<'a> {
    pub(crate) number: u32,
    pub(crate) changes: u32,
    /// How many calls the disk had since it was read back.
    pub(crate) calls: u64,
    /// The records behind those that were there: by a worker, of the feature that ends so, whether it is closed.
    pub(crate) records: &'a [(u8, u128, bool)],
}

// The hall of a course, closed.
fn hall_of<R: Abort + Wait>(
    rt: &R,
    alloc: Global,
    first: &[u8],
    course: &Course<'_>,
) -> Result<Closed<MemoryFolders, Journal<MemoryDisk>>, Fail> {
    let settings = settings_until(alloc, course.last_version)?;
    let disk = disk_behind(alloc, first, &settings, course.failing)?;
    let beginning = kept(rt, alloc, disk, settings, course.failing_read, 2)?;
    rows_at(rt, alloc, beginning, course.rows)
}

// The bytes of a journal that goes on with these records.
fn journal_with(
    alloc: Global,
    first: &[u8],
    records: &[(u8, u128, bool)],
) -> Result<Vec<u8>, Fail> {
    let mut bytes = Vec::from_slice(alloc, first)?;
    let _gate = bytes.pop();
    for record in records {
        let (worker, tail, is_closing) = *record;
        bytes.extend_from_slice(&closure_text(worker, test_venues::id(tail), is_closing))?;
    }
    bytes.push(0)?;
    Ok(bytes)
}

/// A course behind these bytes, a journal with a closed gate, and what it ends with, to the last byte of the disk.
pub(crate) fn judge_behind<R: Abort + Wait>(
    rt: &R,
    alloc: Global,
    first: &[u8],
    course: &Course<'_>,
    end: &End<'_>,
) -> Result<(), Fail> {
    let before = calls_of(alloc, first, &settings_until(alloc, course.last_version)?)?;
    let closed = hall_of(rt, alloc, first, course)?;
    assert!(rt; closed.number == end.number);
    assert!(rt; closed.changes == end.changes);
    let mut disk = closed.log.into_disk();
    assert!(rt; disk.calls().len() as u64 == before.saturating_add(end.calls));
    assert!(rt; content(alloc, &mut disk)? == journal_with(alloc, first, end.records)?);
    Ok(())
}

/// The same behind the journal of the station's opening.
pub(crate) fn judge<R: Abort + Wait>(
    rt: &R,
    alloc: Global,
    course: &Course<'_>,
    end: &End<'_>,
) -> Result<(), Fail> {
    let first = station(alloc)?.journal(alloc)?;
    judge_behind(rt, alloc, &first, course, end)
}

/// The disk of a hall that went on behind the station's journal.
pub(crate) fn disk_after<R: Abort + Wait>(
    rt: &R,
    alloc: Global,
    course: &Course<'_>,
) -> Result<MemoryDisk, Fail> {
    let first = station(alloc)?.journal(alloc)?;
    Ok(hall_of(rt, alloc, &first, course)?.log.into_disk())
}
