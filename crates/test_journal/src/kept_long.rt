//! Halls that keep a journal, with many changes: publications that fail, two seats by turns, four side by side, and a stop at each moment.

use crate::answers::Answers;
use crate::disks::content;
use crate::going_on::{
    Course, End, closure_text, disk_after, disk_behind, judge, kept, settings_until,
};
use crate::halls::{Deed, Row, Told, Who};
use crate::images::{Images, Moment};
use crate::publications::station;
use crate::readings;
use crate::readings::{read_back, tells};
use crate::workers::{Task, door, work_at};
use std::alloc::{AllocError, Global};
use std::process::Abort;
use std::sync::Arc;
use std::test::Fail;
use venue_types::{Ask, Query, Reply, Settings};

// A hundred publications of another folder, and then the lift of the first one is closed.
fn hundred(alloc: Global) -> Result<Vec<Row>, AllocError> {
    let mut rows: Vec<Row> = Vec::new(alloc);
    for count in 0..100 {
        let told = Told::JournalFault(count, count + 1);
        rows.push((Who::One, Deed::Publish("nolift"), told))?;
    }
    rows.push((Who::Other, Deed::Ask, Told::Version(1, 0)))?;
    rows.push((Who::One, Deed::Close(0x0301), Told::Closure(2, true, true)))?;
    Ok(rows)
}

#[test]
fn a_hundred_publications_fail(rt: HostRuntime) -> Result<(), Fail> {
    let rows = hundred(rt.alloc())?;
    let failing: Vec<u64> = (1..=100).collect(rt.alloc())?;
    let course = Course {
        last_version: u32::MAX,
        failing: &failing,
        failing_read: 0,
        rows: &rows,
    };
    let end = End {
        number: 2,
        changes: 1,
        calls: 104,
        records: &[(1, 0x0301, true)],
    };
    judge(&rt, rt.alloc(), &course, &end)
}

// The change with this number by a worker to its feature: by turns it is closed and opened again.
fn turn(who: Who, feature: u128, version: u32, is_closing: bool) -> Row {
    let deed = if is_closing {
        Deed::Close(feature)
    } else {
        Deed::Reopen(feature)
    };
    (who, deed, Told::Closure(version, is_closing, true))
}

// Two seats by turns, 200 changes each: the first ends with its door open, the second, which closes one more at first, with both closed.
fn turns(alloc: Global) -> Result<Vec<Row>, AllocError> {
    let mut rows = Vec::new(alloc);
    for count in 0..200u32 {
        let feature = if count == 0 { 0x0021 } else { 0x0401 };
        rows.push(turn(Who::One, 0x0101, 2 * count + 2, count % 2 == 0))?;
        rows.push(turn(
            Who::Other,
            feature,
            2 * count + 3,
            count == 0 || count % 2 == 1,
        ))?;
    }
    rows.push((Who::One, Deed::Closures, Told::Closures(401, 2, 0x0401)))?;
    Ok(rows)
}

// What is closed in the history that a disk holds.
fn closures_of(
    alloc: Global,
    bytes: &[u8],
    settings: &Arc<Settings>,
) -> Result<Option<(u32, usize)>, Fail> {
    let query = Query {
        since: None,
        what: Ask::Closures,
    };
    let Ok(restored) = read_back(alloc, bytes, &[], settings)? else {
        return Ok(None);
    };
    let Some(resumed) = &restored.resumed else {
        return Ok(None);
    };
    Ok(match resumed.held.board.ask(alloc, &query) {
        Reply::Closures(told) => Some((told.number, told.closed.len())),
        _ => None,
    })
}

#[test]
fn two_seats_by_turns(rt: HostRuntime) -> Result<(), Fail> {
    let alloc = rt.alloc();
    let rows = turns(alloc)?;
    let course = Course {
        last_version: u32::MAX,
        failing: &[],
        failing_read: 0,
        rows: &rows,
    };
    let mut disk = disk_after(&rt, alloc, &course)?;
    let bytes = content(alloc, &mut disk)?;
    assert!(rt; bytes.len() == 12_433 + 400 * 21 + 1);
    let settings = settings_until(alloc, u32::MAX)?;
    assert!(rt; closures_of(alloc, &bytes, &settings)? == Some((401, 2)));
    Ok(())
}

// Draws twenty images of a moment, of which each leads to the version before or to the next one, where either may be.
fn judge_moment(
    rt: &impl Abort,
    alloc: Global,
    settings: &Arc<Settings>,
    moment: &Moment<'_>,
    versions: (u64, u64),
    images: &mut Images,
) -> Result<(), Fail> {
    for _ in 0..images.each {
        let image = images.draw(moment)?;
        let (told, number) = tells(alloc, image, settings)?;
        assert!(rt; told == readings::Told::Version);
        assert!(rt; number == versions.0 || number == versions.1);
    }
    Ok(())
}

// Which versions a stop may leave behind so many of the calls of an append behind this version.
fn versions_at(version: u32, call: u32, calls: u32) -> (u64, u64) {
    let before = u64::from(version);
    let behind = before + 1;
    if call >= calls {
        (behind, behind)
    } else if calls - call > 1 {
        (before, before)
    } else {
        (before, behind)
    }
}

// The lift is closed, in 4 calls, and the station is published again, in 28.
const TWO: [Row; 2] = [
    (Who::One, Deed::Close(0x0301), Told::Closure(2, true, true)),
    (
        Who::Other,
        Deed::Publish("station"),
        Told::Published(3, 0, 0),
    ),
];

#[test]
fn a_stop_at_each_moment(rt: HostRuntime) -> Result<(), Fail> {
    let alloc = rt.alloc();
    let course = Course {
        last_version: u32::MAX,
        failing: &[],
        failing_read: 0,
        rows: &TWO,
    };
    let disk = disk_after(&rt, alloc, &course)?;
    let settings = settings_until(alloc, u32::MAX)?;
    let mut images = Images::new(alloc, 20);
    let mut moment = Moment::first(alloc, &disk)?;
    let before = disk.calls().len().checked_sub(32);
    let before = before.expect(&rt, "the calls of two appends");
    for _ in 0..before {
        moment.go()?;
    }
    for call in 0..4 {
        let versions = versions_at(1, call, 4);
        judge_moment(&rt, alloc, &settings, &moment, versions, &mut images)?;
        moment.go()?;
    }
    for call in 0..29 {
        let versions = versions_at(2, call, 28);
        judge_moment(&rt, alloc, &settings, &moment, versions, &mut images)?;
        moment.go()?;
    }
    Ok(())
}

// Every fifth append fails, at its first call: four of four calls each, and one.
fn every_fifth(alloc: Global) -> Result<Vec<u64>, AllocError> {
    let mut failing = Vec::new(alloc);
    for count in 1..=400u64 {
        failing.push(17 * count)?;
    }
    Ok(failing)
}

// The record behind the opening with this number, from 0, is the one of the worker who was told that he made it.
fn judge_record(rt: &impl Abort, bytes: &[u8], number: u16, answers: &Answers) {
    let number = usize::from(number);
    let at = 12_433 + 21 * number;
    match answers.of(number + 2) {
        Some((place, is_closing)) => {
            let worker = 4usize.saturating_sub(place) as u8;
            let text = closure_text(worker, test_venues::id(door(place)), is_closing);
            assert!(rt; bytes.get(at..at + 21) == Some(text.as_slice()));
        }
        None => assert!(rt; false),
    }
}

#[test]
fn four_seats_side_by_side(rt: HostRuntime) -> Result<(), Fail> {
    let alloc = rt.alloc();
    let first = station(alloc)?.journal(alloc)?;
    let settings = settings_until(alloc, u32::MAX)?;
    let disk = disk_behind(alloc, &first, &settings, &every_fifth(alloc)?)?;
    let answers = Answers::new(alloc, 2_002)?;
    let beginning = kept(&rt, alloc, disk, settings, 0, 4)?;
    let closed = work_at(&rt, alloc, beginning, 4, Task::Note(500, &answers))?;
    assert!(rt; closed.number == 1_601);
    assert!(rt; closed.changes == 1_600);
    let bytes = content(alloc, &mut closed.log.into_disk())?;
    for number in 0..1_600 {
        judge_record(&rt, &bytes, number, &answers);
    }
    let settings = settings_until(alloc, u32::MAX)?;
    let told = tells(alloc, &bytes, &settings)?;
    assert!(rt; told == (readings::Told::Version, 1_601));
    Ok(())
}
