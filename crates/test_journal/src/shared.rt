//! Seats at one hall over the station that keeps its changes nowhere, one call after the other and side by side.

ghost use Rattle.std.specs.Prelude.{◌≡◌, ◌≤◌, IfOk};
ghost use Rattle.std.specs.Arc.{arc_value};
ghost use Rattle.venue_history.specs.Histories.{IsLegal, Replays};
ghost use Rattle.venue_state.specs.Preparing.{HasSettings};
ghost use Rattle.shared_hall.specs.Openings.{HaveSettings};

use crate::halls::{Deed, Row, Told, Who, rows_at, unkept};
use crate::workers::{Task, work_at};
use shared_hall::{Copies, first_law, following_law, opening_entries};
use std::alloc::Global;
use std::process::Abort;
use std::sync::{Arc, Wait};
use std::test::Fail;
use test_station::station_settings;
use test_venues::{folders, id, venue_of};
use venue_history::{Act, Entry, entry_law, version_law};
use venue_ports::{Folders, MemoryFolders};
use venue_state::{Board, NextBoard};
use venue_types::Settings;

// The copies of the station under a last version.
fn copies_of<R: Wait>(rt: &R, alloc: Global, last_version: u32, workers: u8) -> Result<Copies, Fail>
    requires some { 1 ≤ workers }
    requires range { workers ≤ 16 }
{
    let mut settings = station_settings(alloc)?;
    settings.last_version = last_version.max(1);
    let settings = Arc::new(alloc, settings)?;
    let venue = venue_of(alloc, &settings, &[])?;
    let entries = opening_entries(alloc, venue)?;
    Ok(Copies::new(rt, alloc, settings, entries, workers)?)
}

fn no_folders(alloc: Global) -> Result<MemoryFolders, Fail> {
    match MemoryFolders::new(Vec::new(alloc), Vec::new(alloc)) {
        Ok(folders) => Ok(folders),
        Err(_) => Err(Fail::new("no folders")),
    }
}

// These rows at a hall of the station under a last version, and what it ends with.
fn judge<R: Abort + Wait>(
    rt: &R,
    alloc: Global,
    last_version: u32,
    rows: &[Row],
    number: u32,
    changes: u32,
) -> Result<(), Fail> {
    let copies = copies_of(rt, alloc, last_version, 2)?;
    let folders = no_folders(alloc)?;
    let closed = rows_at(rt, alloc, unkept(alloc, copies, folders)?, rows)?;
    assert!(rt; closed.number == number);
    assert!(rt; closed.changes == changes);
    Ok(())
}

// These rows at a hall of the station over folders of which the read with this number fails, and what it ends with.
fn judge_folders<R: Abort + Wait>(
    rt: &R,
    alloc: Global,
    failing: u64,
    rows: &[Row],
    number: u32,
    changes: u32,
) -> Result<(), Fail> {
    let copies = copies_of(rt, alloc, u32::MAX, 2)?;
    let folders = folders(alloc, failing)?;
    let closed = rows_at(rt, alloc, unkept(alloc, copies, folders)?, rows)?;
    assert!(rt; closed.number == number);
    assert!(rt; closed.changes == changes);
    assert!(rt; closed.folders.fault_count() == u64::from(failing > 0));
    Ok(())
}

#[test]
fn seats_share_a_history(rt: HostRuntime) -> Result<(), Fail> {
    let alloc = rt.alloc();
    // One closes a lift, and the other opens it.
    judge(
        &rt,
        alloc,
        u32::MAX,
        &[
            (Who::One, Deed::Close(0x0301), Told::Closure(2, true, true)),
            (Who::Other, Deed::Look, Told::Seen(1)),
            (
                Who::Other,
                Deed::Reopen(0x0301),
                Told::Closure(3, false, true),
            ),
            (Who::One, Deed::Look, Told::Seen(2)),
            (Who::One, Deed::CatchUp, Told::Seen(3)),
        ],
        3,
        2,
    )?;
    // Who asks or catches up sees what was changed.
    judge(
        &rt,
        alloc,
        u32::MAX,
        &[
            (Who::Other, Deed::Ask, Told::Version(1, 0)),
            (Who::One, Deed::Close(0x0301), Told::Closure(2, true, true)),
            (Who::Other, Deed::Look, Told::Seen(1)),
            (Who::Other, Deed::CatchUp, Told::Seen(2)),
            (Who::Other, Deed::Ask, Told::Version(2, 1)),
            (
                Who::Other,
                Deed::Close(0x0302),
                Told::Closure(3, true, true),
            ),
            (Who::One, Deed::Ask, Told::Version(3, 2)),
            (Who::One, Deed::Look, Told::Seen(3)),
        ],
        3,
        2,
    )?;
    // What is closed is closed again.
    judge(
        &rt,
        alloc,
        u32::MAX,
        &[
            (Who::One, Deed::Close(0x0301), Told::Closure(2, true, true)),
            (Who::One, Deed::Close(0x0301), Told::Closure(2, true, false)),
        ],
        2,
        1,
    )?;
    // The second version is the last.
    judge(
        &rt,
        alloc,
        2,
        &[
            (Who::One, Deed::Close(0x0301), Told::Closure(2, true, true)),
            (Who::Other, Deed::Close(0x0302), Told::Full(2)),
        ],
        2,
        1,
    )
}

#[test]
fn seats_publish_folders(rt: HostRuntime) -> Result<(), Fail> {
    let alloc = rt.alloc();
    // A folder that breaks a rule leaves the version.
    judge_folders(
        &rt,
        alloc,
        0,
        &[
            (Who::One, Deed::Publish("tall"), Told::Rejected(1)),
            (Who::One, Deed::Look, Told::Seen(1)),
            (Who::Other, Deed::Ask, Told::Version(1, 0)),
        ],
        1,
        0,
    )?;
    // The lift that the other closed is dropped with a folder that has none.
    judge_folders(
        &rt,
        alloc,
        0,
        &[
            (
                Who::Other,
                Deed::Close(0x0301),
                Told::Closure(2, true, true),
            ),
            (
                Who::One,
                Deed::Publish("nolift"),
                Told::Published(3, 1, 0x0301),
            ),
            (Who::Other, Deed::Look, Told::Seen(2)),
            (Who::Other, Deed::Ask, Told::Version(3, 0)),
            (Who::One, Deed::Close(0x0301), Told::NoFeature),
        ],
        3,
        2,
    )?;
    // The fifth read fails, and then none does.
    judge_folders(
        &rt,
        alloc,
        5,
        &[
            (Who::One, Deed::Publish("station"), Told::Fault(0, 1)),
            (Who::One, Deed::Look, Told::Seen(1)),
            (Who::Other, Deed::Ask, Told::Version(1, 0)),
            (Who::One, Deed::Publish("station"), Told::Published(2, 0, 0)),
            (Who::Other, Deed::Ask, Told::Version(2, 0)),
        ],
        2,
        1,
    )
}

#[test]
fn workers_close_doors_side_by_side(rt: HostRuntime) -> Result<(), Fail> {
    let alloc = rt.alloc();
    let copies = copies_of(&rt, alloc, u32::MAX, 4)?;
    let folders = no_folders(alloc)?;
    let beginning = unkept(alloc, copies, folders)?;
    let closed = work_at(&rt, alloc, beginning, 4, Task::Ask(200))?;
    assert!(rt; closed.number == 1_601);
    assert!(rt; closed.changes == 1_600);
    Ok(())
}

// One entry more, by a worker, and the board after it.
fn entered(
    alloc: Global,
    board: Board,
    entries: &mut Vec<Entry>,
    act: Act,
    worker: u8,
) -> Result<Board, Fail>
    requires stands { Replays entries.old.items board }
    requires some { 1 ≤ worker }
    requires range { worker ≤ 16 }
    requires settings { HasSettings board act }
    ensures stands { IfOk result (λ next. Replays entries.new.items next) }
    ensures settings { IfOk result (λ next. next.settings ≡ board.settings) }
{
    entry_law();
    let Ok(ready) = board.ready(alloc, act, worker) else {
        return Err(Fail::new("not ready"));
    };
    let NextBoard { entry, board, .. } = ready;
    entries.push(entry)?;
    Ok(board)
}

// A history of the station: it is published, one worker closes a lift, and another publishes it again.
fn three_entries(alloc: Global, settings: &Arc<Settings>) -> Result<Vec<Entry>, Fail>
    ensures legal { IfOk result (λ entries. IsLegal entries.items) }
    ensures settings { IfOk result (λ entries. HaveSettings (arc_value settings.now) entries.items) }
{
    version_law();
    let venue = venue_of(alloc, settings, &[])?;
    let mut entries = opening_entries(alloc, Arc::try_clone(&venue)?)?;
    let first = Board::first(alloc, Arc::try_clone(&venue)?, Arc::try_clone(settings)?)?;
    let lift = first.closing(id(0x0301));
    let second = entered(alloc, first, &mut entries, Act::Closed(lift), 2)?;
    let _third = entered(alloc, second, &mut entries, Act::Published(venue), 1)?;
    Ok(entries)
}

#[test]
fn a_hall_opens_over_three_entries(rt: HostRuntime) -> Result<(), Fail> {
    let alloc = rt.alloc();
    let settings = Arc::new(alloc, station_settings(alloc)?)?;
    let entries = three_entries(alloc, &settings)?;
    let copies = Copies::new(&rt, alloc, settings, entries, 2)?;
    let folders = no_folders(alloc)?;
    let rows = [
        (Who::One, Deed::Look, Told::Seen(3)),
        (Who::Other, Deed::Ask, Told::Version(3, 1)),
        (
            Who::One,
            Deed::Reopen(0x0301),
            Told::Closure(4, false, true),
        ),
    ];
    let closed = rows_at(&rt, alloc, unkept(alloc, copies, folders)?, &rows)?;
    assert!(rt; closed.number == 4);
    assert!(rt; closed.changes == 1);
    Ok(())
}

#[test]
fn the_laws_are_called() {
    first_law();
    following_law();
}
