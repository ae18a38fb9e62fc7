//! One call that fails, and the same record appended again.

use crate::disks::content;
use crate::publications::{Publication, station};
use crate::records::closing;
use crate::texts::is_journal;
use crate::trials::Trial;
use std::alloc::{AllocError, Global};
use std::process::Abort;
use std::test::Fail;
use venue_ports::MemoryDisk;

// The call of a closure that fails, whether a read gives the closure all the same, and how many calls there were in all once it
// was appended again.
struct Row {
    failing: u64,
    is_read: bool,
    again: usize,
}

const BEHIND_THE_STATION: [Row; 4] = [
    Row {
        failing: 1,
        is_read: false,
        again: 5,
    },
    Row {
        failing: 2,
        is_read: false,
        again: 6,
    },
    Row {
        failing: 3,
        is_read: false,
        again: 9,
    },
    Row {
        failing: 4,
        is_read: true,
        again: 10,
    },
];

const ON_NOTHING: [Row; 6] = [
    Row {
        failing: 1,
        is_read: false,
        again: 7,
    },
    Row {
        failing: 2,
        is_read: false,
        again: 8,
    },
    Row {
        failing: 3,
        is_read: false,
        again: 7,
    },
    Row {
        failing: 4,
        is_read: false,
        again: 8,
    },
    Row {
        failing: 5,
        is_read: false,
        again: 11,
    },
    Row {
        failing: 6,
        is_read: true,
        again: 12,
    },
];

// Compares the records that a read gives, by their texts, and answers its length.
fn read(
    rt: &impl Abort,
    alloc: Global,
    disk: &mut MemoryDisk,
    texts: &[&[u8]],
) -> Result<usize, Fail> {
    let bytes = content(alloc, disk)?;
    assert!(rt; is_journal(texts, &bytes));
    Ok(bytes.len())
}

// The texts of the records that a trial's disk has at first.
fn texts_there<'a>(trial: &Trial<'a>) -> Result<Vec<&'a [u8]>, AllocError> {
    let mut texts = Vec::new(trial.alloc);
    if let Some(publication) = trial.there {
        texts.push(publication.text.as_slice())?;
    }
    Ok(texts)
}

// Appends a closure of which a call fails. A read gives it all the same, or not.
fn judge_failed(
    rt: &impl Abort,
    trial: &Trial<'_>,
    is_read: bool,
    texts: &mut Vec<&[u8]>,
) -> Result<(), Fail> {
    let count = texts.len() as u64;
    let mut failed = trial.run(rt, 1)?;
    assert!(rt; !failed.is_kept && failed.count == count);
    if is_read {
        texts.push(closing().text)?;
    }
    read(rt, trial.alloc, &mut failed.disk, texts.as_slice())?;
    if !is_read {
        texts.push(closing().text)?;
    }
    Ok(())
}

// Appends a closure of which a call fails, and once more: the length then.
fn fail_once(rt: &impl Abort, trial: &Trial<'_>, row: &Row) -> Result<usize, Fail> {
    let mut texts = texts_there(trial)?;
    judge_failed(rt, trial, row.is_read, &mut texts)?;
    let mut again = trial.run(rt, 2)?;
    assert!(rt; again.is_kept && again.count == texts.len() as u64);
    assert!(rt; again.disk.calls().len() == row.again);
    read(rt, trial.alloc, &mut again.disk, &texts)
}

#[test]
fn each_call_of_a_closure_behind_the_station(rt: HostRuntime) -> Result<(), Fail> {
    let alloc = rt.alloc();
    let station = station(alloc)?;
    let first = station.journal(alloc)?;
    let entries = [closing(), closing()];
    let trial = Trial::over(alloc, &first, &entries).behind(&station);
    for row in &BEHIND_THE_STATION {
        let length = fail_once(&rt, &trial.failing(&[row.failing], &[]), row)?;
        assert!(rt; length == 12_455);
    }
    Ok(())
}

#[test]
fn each_call_of_a_closure_on_nothing(rt: HostRuntime) -> Result<(), Fail> {
    let entries = [closing(), closing()];
    let trial = Trial::over(rt.alloc(), &[], &entries);
    for row in &ON_NOTHING {
        let length = fail_once(&rt, &trial.failing(&[row.failing], &[]), row)?;
        assert!(rt; length == 22);
    }
    Ok(())
}

// A closure behind the station, and a second one of which a call fails and puts all its bytes: so many records are read.
fn tear_whole(
    rt: &impl Abort,
    station: &Publication,
    failing: u64,
    count: usize,
) -> Result<(), Fail> {
    let alloc = *station.text.allocator();
    let first = station.journal(alloc)?;
    let entries = [closing(), closing()];
    let trial = Trial::over(alloc, &first, &entries).behind(station);
    let mut texts = texts_there(&trial)?;
    for _ in 1..count {
        texts.push(closing().text)?;
    }
    let mut outcome = trial.failing(&[failing], &[usize::MAX]).run(rt, 2)?;
    assert!(rt; !outcome.is_kept);
    assert!(rt; outcome.count == 2);
    read(rt, alloc, &mut outcome.disk, &texts)?;
    Ok(())
}

#[test]
fn a_write_torn_whole(rt: HostRuntime) -> Result<(), Fail> {
    let station = station(rt.alloc())?;
    tear_whole(&rt, &station, 5, 2)?;
    tear_whole(&rt, &station, 7, 3)
}
