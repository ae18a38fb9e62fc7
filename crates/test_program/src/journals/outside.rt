//! What a run with a journal is over, in memory, and what it comes to.

ghost use Rattle.std.specs.Prelude.{◌≡◌, false};

use super::contents::bytes_of;
use crate::hostile::outside::{doors, file, joined, owned, stream};
use std::alloc::Global;
use std::process::Abort;
use std::sync::Wait;
use std::test::Fail;
use std::thread::Threads;
use test_station::{Change, Edit, station_files};
use venue_ports::{
    Disk, Disks, Doors, Folders, MemoryDisk, MemoryDisks, MemoryFolders, MemoryStream,
};
use venue_program::run;

const WORDS: [&str; 4] = ["session", "base", "station", "log"];

/// The first and the last read of a file that fails, counted from 1.
pub(crate) type Reads = (u64, u64);

/// No read fails.
pub(crate) const NONE: Reads = (0, 0);

/// Each read behind that of the settings fails.
pub(crate) const BEHIND: Reads = (2, 40);

/// No call on the disk fails.
pub(crate) const SOUND: u64 = u64::MAX;

/// What a run begins with, and what of it fails.
#[derive(Clone, Copy)]
pub(crate) struct Plan<'a> {
    pub(crate) words: &'a [&'a str],
    /// What is changed in the station.
    pub(crate) edits: &'static [Edit],
    pub(crate) reads: Reads,
    /// Which write of the console fails, counted from 1 (0: none).
    pub(crate) write: u64,
    /// What the journal has, where there is its file.
    pub(crate) first: Option<&'a [u8]>,
    /// Which call on its disk fails, counted from 1; 0 where it is never opened.
    pub(crate) call: u64,
    /// What comes from the console.
    pub(crate) sent: &'a [&'a str],
}

/// What a run comes to.
#[derive(Drop)]
pub(crate) struct Ended {
    pub(crate) status: u8,
    pub(crate) text: Vec<u8>,
    pub(crate) folder_faults: u64,
    pub(crate) door_faults: u64,
    /// What the disk has that comes back.
    pub(crate) journal: Option<Vec<u8>>,
    /// How many calls it had.
    pub(crate) calls: u64,
    /// How often a disk was asked for.
    pub(crate) opens: u64,
}

/// A session over the station and a journal that has these bytes, in which nothing fails.
pub(crate) fn session<'a>(first: &'a [u8], sent: &'a [&'a str]) -> Plan<'a> {
    Plan {
        words: &WORDS,
        edits: &[],
        reads: NONE,
        write: 0,
        first: Some(first),
        call: SOUND,
        sent,
    }
}

fn folders_of(alloc: Global, plan: &Plan<'_>) -> Result<MemoryFolders, Fail> {
    let files = station_files(alloc, "base", "station", Change::of(plan.edits))?;
    let (from, to) = plan.reads;
    let mut failing = Vec::new(alloc);
    for read in from..=to {
        failing.push(read)?;
    }
    Ok(MemoryFolders::new(files, failing)?)
}

// Disks with room for one disk, its 65,536 bytes and 1,024 calls.
fn disks_of(alloc: Global, plan: &Plan<'_>) -> Result<MemoryDisks, Fail> {
    let mut files = Vec::new(alloc);
    if let Some(first) = plan.first {
        let bytes = Vec::from_slice(alloc, first)?;
        files.push(file(alloc, "base", "log", bytes)?)?;
    }
    let failing = vec![in alloc; plan.call]?;
    Ok(MemoryDisks::new(alloc, files, 65_536, 1_024, failing)?)
}

fn console_of(alloc: Global, plan: &Plan<'_>) -> Result<MemoryStream, Fail> {
    let input = joined(alloc, plan.sent)?;
    stream(alloc, input, 0, 4_000, [0, plan.write])
}

// What a read of a disk gives.
fn content(alloc: Global, disk: &mut MemoryDisk) -> Result<Vec<u8>, Fail> {
    let len = usize::try_from(disk.len()?)?;
    let mut bytes = vec![in alloc; 0; len]?;
    disk.read(0, &mut bytes)?;
    Ok(bytes)
}

// What a disk has that comes back, and how many calls it had.
fn told_of(alloc: Global, disk: &mut Option<MemoryDisk>) -> Result<(Option<Vec<u8>>, u64), Fail> {
    match disk {
        Some(disk) => {
            let calls = disk.calls().len() as u64;
            let bytes = content(alloc, disk)?;
            Ok((Some(bytes), calls))
        }
        None => Ok((None, 0)),
    }
}

// How often a disk was asked for: each time in vain, and once if none can be had any more.
fn opens_of(plan: &Plan<'_>, disks: &mut MemoryDisks) -> u64 {
    let failed = disks.fault_count();
    let may_open = plan.first.is_some() && plan.call != 0;
    let is_taken = may_open && disks.open_disk("base", "log").is_err();
    failed.saturating_add(u64::from(is_taken))
}

/// Runs the program as planned, over these doors.
pub(crate) fn run_over<D: Doors + Send + Drop, R: Threads + Wait + Sync>(
    rt: &R,
    alloc: Global,
    plan: &Plan<'_>,
    doors: D,
) -> Result<Ended, Fail>
    requires { D.ready doors ≡ false }
{
    let words = owned(alloc, plan.words)?;
    let folders = folders_of(alloc, plan)?;
    let mut console = console_of(alloc, plan)?;
    let mut disks = disks_of(alloc, plan)?;
    let mut outcome = run(
        rt,
        alloc,
        words.as_slice(),
        folders,
        doors,
        &mut console,
        &mut disks,
    );
    let (journal, calls) = told_of(alloc, &mut outcome.disk)?;
    Ok(Ended {
        status: outcome.status.code(),
        text: Vec::from_slice(alloc, console.written())?,
        folder_faults: outcome.folders.fault_count(),
        door_faults: outcome.doors.fault_count(),
        journal,
        calls,
        opens: opens_of(plan, &mut disks),
    })
}

/// Runs the program as planned, over doors of which the bind and the accept with these numbers fail, counted from 1.
pub(crate) fn run_planned<R: Threads + Wait + Sync>(
    rt: &R,
    alloc: Global,
    plan: &Plan<'_>,
    failing: [u64; 2],
) -> Result<Ended, Fail> {
    let doors = doors(alloc, Vec::new(alloc), failing)?;
    run_over(rt, alloc, plan, doors)
}

/// Whether a disk comes back that has these bytes.
pub(crate) fn holds(ended: &Ended, bytes: &[u8]) -> bool {
    match &ended.journal {
        Some(journal) => journal.as_slice() == bytes,
        None => false,
    }
}

/// What a run comes to over a disk that was asked for once, and that comes back with these parts.
pub(crate) fn judge(
    rt: &impl Abort,
    alloc: Global,
    ended: &Ended,
    written: &[&str],
    status: u8,
    last: &[&[u8]],
) -> Result<(), Fail> {
    let written = joined(alloc, written)?;
    assert!(rt; str::from_utf8(ended.text.as_slice()) == str::from_utf8(written.as_slice()));
    assert!(rt; ended.status == status);
    let last = bytes_of(alloc, last)?;
    assert!(rt; holds(ended, last.as_slice()));
    assert!(rt; ended.opens == 1);
    Ok(())
}
