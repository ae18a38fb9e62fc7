//! Journals put together from parts, and what is told of each that is read back.

use crate::disks::{Plan, content, disk_of};
use crate::publications::text_of_station;
use crate::records::LIFT;
use change_journal::Journal;
use journal_restore::{RestoreFault, Restored, Unrestored, restore};
use std::alloc::Global;
use std::process::Abort;
use std::sync::Arc;
use std::test::Fail;
use test_station::TALL;
use venue_ports::MemoryDisk;
use venue_state::Board;
use venue_types::{Ask, ClosedRow, Query, Reply, Settings, Text};

/// Among the parts: the slots of the station.
pub(crate) const STATION: &[u8] = b"station";

/// Among the parts: the slots of a folder that breaks a rule.
pub(crate) const TALL_STATION: &[u8] = b"tall station";

/// Among the parts: the last byte is gone.
pub(crate) const CUT: &[u8] = b"cut";

/// What is told of a journal.
#[derive(Clone, Copy, PartialEq, Eq)]
pub(crate) enum Told {
    New,
    Version,
    Unfit,
    Damaged,
    Failed,
    OutOfMemory,
}

/// A journal in parts, and what is told of it.
#[derive(Clone, Copy)]
pub(crate) struct Row {
    pub(crate) parts: &'static [&'static [u8]],
    pub(crate) told: Told,
    /// Of the version or of a record, or a place.
    pub(crate) number: u64,
    /// For whom the lift is closed: for nobody without names, for everybody under the name `all`.
    pub(crate) closed: &'static [&'static str],
}

// Adds what a part stands for.
fn add_part(alloc: Global, bytes: &mut Vec<u8>, part: &[u8]) -> Result<(), Fail> {
    if part == STATION {
        let text = text_of_station(alloc, &[])?;
        bytes.extend_from_slice(text.get(3..).unwrap_or(&[]))?;
    } else if part == TALL_STATION {
        let text = text_of_station(alloc, &TALL)?;
        bytes.extend_from_slice(text.get(3..).unwrap_or(&[]))?;
    } else if part == CUT {
        let _last = bytes.pop();
    } else {
        bytes.extend_from_slice(part)?;
    }
    Ok(())
}

/// The journal of these parts.
pub(crate) fn journal_of(alloc: Global, parts: &[&[u8]]) -> Result<Vec<u8>, Fail> {
    let mut bytes = Vec::new(alloc);
    for part in parts {
        add_part(alloc, &mut bytes, part)?;
    }
    Ok(bytes)
}

/// Reads a journal back from a disk of which these calls fail.
pub(crate) fn read_back(
    alloc: Global,
    bytes: &[u8],
    failing: &[u64],
    settings: &Arc<Settings>,
) -> Result<Result<Restored<MemoryDisk>, Unrestored<MemoryDisk>>, Fail> {
    let plan = Plan {
        first: bytes,
        failing,
        puts: &[],
    };
    let disk = disk_of(alloc, &plan)?;
    Ok(restore(alloc, disk, settings))
}

/// What a fault tells, with its number or place.
pub(crate) fn told_of(fault: RestoreFault) -> (Told, u64) {
    match fault {
        RestoreFault::Failed => (Told::Failed, 0),
        RestoreFault::Damaged(place) => (Told::Damaged, place),
        RestoreFault::Unfit(number) => (Told::Unfit, number),
        RestoreFault::OutOfMemory => (Told::OutOfMemory, 0),
    }
}

fn told_of_restored(restored: &Restored<MemoryDisk>) -> (Told, u64) {
    let told = match &restored.resumed {
        None => Told::New,
        Some(_) => Told::Version,
    };
    (told, restored.journal.record_count())
}

/// What a journal tells, with the number or the place.
pub(crate) fn tells(
    alloc: Global,
    bytes: &[u8],
    settings: &Arc<Settings>,
) -> Result<(Told, u64), Fail> {
    let read = read_back(alloc, bytes, &[], settings)?;
    Ok(match &read {
        Ok(restored) => told_of_restored(restored),
        Err(unrestored) => told_of(unrestored.fault),
    })
}

// Whether a closed feature is the lift, for these.
fn is_lift_for(row: &ClosedRow, names: &[&str]) -> bool {
    let is_for_these = match &row.profiles {
        None => names == ["all"].as_slice(),
        Some(found) => are_names(found.as_slice(), names),
    };
    row.id == LIFT && is_for_these
}

fn are_names(found: &[Text], names: &[&str]) -> bool {
    found.len() == names.len()
        && found
            .iter()
            .zip(names)
            .all(|(found, name)| found.as_str() == *name)
}

// Whether what is closed is the lift, for these, or nothing where there is no name.
fn is_closed_for(rows: &[ClosedRow], names: &[&str]) -> bool {
    match rows.split_first() {
        None => names.is_empty(),
        Some((row, others)) => others.is_empty() && is_lift_for(row, names),
    }
}

// Judges a board by its number and by what is closed.
fn judge_board(rt: &impl Abort, alloc: Global, board: &Board, row: &Row) {
    assert!(rt; (Told::Version, u64::from(board.number())) == (row.told, row.number));
    let query = Query {
        since: None,
        what: Ask::Closures,
    };
    match board.ask(alloc, &query) {
        Reply::Closures(told) => assert!(rt; is_closed_for(told.closed.as_slice(), row.closed)),
        _ => assert!(rt; false),
    }
}

// Judges what was read back, and hands out the journal.
fn judge_restored(
    rt: &impl Abort,
    alloc: Global,
    restored: Restored<MemoryDisk>,
    row: &Row,
) -> Journal<MemoryDisk> {
    match &restored.resumed {
        None => assert!(rt; row.told == Told::New),
        Some(resumed) => judge_board(rt, alloc, &resumed.held.board, row),
    }
    assert!(rt; restored.journal.record_count() == row.number);
    restored.journal
}

/// Reads the journal of a row back. It is as before, whatever is told of it.
pub(crate) fn judge(
    rt: &impl Abort,
    alloc: Global,
    settings: &Arc<Settings>,
    row: &Row,
) -> Result<(), Fail> {
    let bytes = journal_of(alloc, row.parts)?;
    let mut disk = match read_back(alloc, &bytes, &[], settings)? {
        Ok(restored) => judge_restored(rt, alloc, restored, row).into_disk(),
        Err(Unrestored { disk, fault }) => {
            assert!(rt; told_of(fault) == (row.told, row.number));
            disk
        }
    };
    assert!(rt; content(alloc, &mut disk)? == bytes);
    Ok(())
}
