//! The hall of one thread over the station and some folders, whose replies were worked out by hand.

use std::alloc::Global;
use std::process::Abort;
use std::sync::Arc;
use std::test::Fail;
use test_station::station_settings;
use test_venues::{folders, id, tail, venue_of};
use venue_ports::{Folders, MemoryFolders};
use venue_types::{
    Ask, Change, ClosedRow, Closure, FeatureId, Finding, Query, Reply, Report, Text,
};
use version_board::{Alone, Asks, Hall, Unopened, answered_law, changed_law};

// What is done in a hall, or asked. A feature is named by the last digits of its identifier.
#[derive(Clone, Copy)]
enum Deed {
    Close(u128),
    Reopen(u128),
    Publish(&'static str),
    Version(Option<u32>),
    Closures,
    // A way from the bakery to the tickets for a profile.
    Route(&'static str),
}

// What is then told, without its lists.
#[derive(Clone, Copy, PartialEq, Eq)]
enum Told {
    // The number, the feature, whether it is closed, whether that changed.
    Closure(u32, u128, bool, bool),
    Published(u32),
    Fault(u64, u64),
    // How many findings there are.
    Rejected(u64),
    Full(u32),
    Version(u32, u32, u32),
    Closures(u32),
    // The number and the cost.
    Route(u32, u64),
    Ahead(u32, u32),
    NoFeature,
    Else,
}

#[derive(Clone, Copy)]
struct Row {
    deed: Deed,
    told: Told,
    // The features that are dropped or closed.
    listed: &'static [u128],
    findings: &'static [Finding],
}

fn telling(deed: Deed, told: Told) -> Row {
    Row {
        deed,
        told,
        listed: &[],
        findings: &[],
    }
}

fn listing(deed: Deed, told: Told, listed: &'static [u128]) -> Row {
    Row {
        listed,
        ..telling(deed, told)
    }
}

fn rejecting(folder: &'static str, total: u64, findings: &'static [Finding]) -> Row {
    Row {
        findings,
        ..telling(Deed::Publish(folder), Told::Rejected(total))
    }
}

// A column that reaches out of its level: the rule with the number 30, in the units.
const OUTSIDE: [Finding; 1] = [Finding {
    rule: 30,
    file: 15,
    index: 7,
    member: 0,
}];

// Neither a manifest nor a venue: the rules with the numbers 1 and 14.
const NOTHING: [Finding; 2] = [
    Finding {
        rule: 1,
        file: 0,
        index: 0,
        member: 0,
    },
    Finding {
        rule: 14,
        file: 16,
        index: 0,
        member: 0,
    },
];

fn text(alloc: Global, text: &str) -> Result<Text, Fail> {
    Ok(Text::from_string(String::from_str(alloc, text)?))
}

fn change_told(reply: &Reply) -> Told {
    match reply {
        Reply::ClosureDone(done) => Told::Closure(
            done.number,
            tail(done.feature),
            done.closed,
            done.changed,
        ),
        Reply::Published { number, .. } => Told::Published(*number),
        Reply::FolderFault { before, after } => Told::Fault(*before, *after),
        Reply::Rejected(report) => Told::Rejected(report.total),
        Reply::HistoryFull { number } => Told::Full(*number),
        Reply::NoFeature => Told::NoFeature,
        _ => Told::Else,
    }
}

fn told_of(reply: &Reply) -> Told {
    match reply {
        Reply::Version {
            number,
            closed,
            places,
        } => Told::Version(*number, *closed, *places),
        Reply::Closures(told) => Told::Closures(told.number),
        Reply::Route { number, cost, .. } => Told::Route(*number, *cost),
        Reply::Ahead { since, number } => Told::Ahead(*since, *number),
        _ => change_told(reply),
    }
}

fn closed_in(reply: &Reply) -> &[ClosedRow] {
    match reply {
        Reply::Closures(told) => told.closed.as_slice(),
        _ => &[],
    }
}

fn listed_in(reply: &Reply) -> &[FeatureId] {
    match reply {
        Reply::Published { dropped, .. } => dropped.as_slice(),
        _ => &[],
    }
}

fn findings_in(reply: &Reply) -> &[Finding] {
    match reply {
        Reply::Rejected(Report { first, .. }) => first.as_slice(),
        _ => &[],
    }
}

fn judge_reply(rt: &impl Abort, reply: &Reply, row: &Row) {
    assert!(rt; told_of(reply) == row.told);
    assert!(rt; findings_in(reply) == row.findings);
    let (closed, found) = (closed_in(reply), listed_in(reply));
    assert!(rt; closed.len().max(found.len()) == row.listed.len());
    for (closed, tail) in closed.iter().zip(row.listed) {
        assert!(rt; closed.id == id(*tail));
    }
    for (found, tail) in found.iter().zip(row.listed) {
        assert!(rt; *found == id(*tail));
    }
}

fn closure(hall: &mut impl Hall, tail: u128, closed: bool) -> Reply {
    hall.change(&Change::Closure(Closure {
        feature: id(tail),
        closed,
        profiles: None,
    }))
}

fn publish(alloc: Global, hall: &mut impl Hall, folder: &str) -> Result<Reply, Fail> {
    let folder = text(alloc, folder)?;
    Ok(hall.change(&Change::Publish { folder }))
}

fn route(alloc: Global, hall: &mut impl Asks, profile: &str) -> Result<Reply, Fail> {
    let what = Ask::Route {
        from: id(0x0051),
        to: id(0x0052),
        profile: text(alloc, profile)?,
        certificate: false,
    };
    Ok(hall.ask(&Query { since: None, what }))
}

fn reply_to(alloc: Global, hall: &mut impl Hall, deed: Deed) -> Result<Reply, Fail> {
    match deed {
        Deed::Close(tail) => Ok(closure(hall, tail, true)),
        Deed::Reopen(tail) => Ok(closure(hall, tail, false)),
        Deed::Publish(folder) => publish(alloc, hall, folder),
        Deed::Version(since) => Ok(hall.ask(&Query {
            since,
            what: Ask::Version,
        })),
        Deed::Closures => Ok(hall.ask(&Query {
            since: None,
            what: Ask::Closures,
        })),
        Deed::Route(profile) => route(alloc, hall, profile),
    }
}

// The hall of the station under a last version.
fn hall(alloc: Global, last_version: u32, failing: u64) -> Result<Alone<MemoryFolders>, Fail> {
    let mut settings = station_settings(alloc)?;
    settings.last_version = last_version.max(1);
    let settings = Arc::new(alloc, settings)?;
    let venue = venue_of(alloc, &settings, &[])?;
    let base = text(alloc, "base")?;
    match Alone::begin(alloc, settings, venue, folders(alloc, failing)?, base) {
        Ok(hall) => Ok(hall),
        Err(Unopened { .. }) => Err(Fail::new("no hall")),
    }
}

// These rows, one after the other, where the read with this number fails, and how often reads then failed.
fn judge(
    rt: &impl Abort,
    alloc: Global,
    last_version: u32,
    failing: u64,
    faults: u64,
    rows: &[Row],
) -> Result<(), Fail> {
    let mut hall = hall(alloc, last_version, failing)?;
    for row in rows {
        let reply = reply_to(alloc, &mut hall, row.deed)?;
        judge_reply(rt, &reply, row);
        hall.catch_up();
    }
    assert!(rt; hall.finish().fault_count() == faults);
    Ok(())
}

// A lift is closed and opened again, so often.
fn judge_many(rt: &impl Abort, alloc: Global, times: u32) -> Result<(), Fail> {
    let mut hall = hall(alloc, u32::MAX, 0)?;
    for _ in 0..times {
        let _closed = closure(&mut hall, 0x0301, true);
        let _opened = closure(&mut hall, 0x0301, false);
    }
    let number = times.saturating_mul(2).saturating_add(1);
    assert!(rt; hall.number() == number);
    let row = telling(Deed::Closures, Told::Closures(number));
    let reply = reply_to(alloc, &mut hall, row.deed)?;
    judge_reply(rt, &reply, &row);
    Ok(())
}

#[test]
fn a_hall_answers(rt: HostRuntime) -> Result<(), Fail> {
    let alloc = rt.alloc();
    // A lift is closed, and opened again.
    judge(
        &rt,
        alloc,
        u32::MAX,
        0,
        0,
        &[
            telling(Deed::Version(None), Told::Version(1, 0, 33)),
            telling(Deed::Close(0x0301), Told::Closure(2, 0x0301, true, true)),
            telling(Deed::Close(0x0301), Told::Closure(2, 0x0301, true, false)),
            listing(Deed::Closures, Told::Closures(2), &[0x0301]),
            telling(Deed::Reopen(0x0301), Told::Closure(3, 0x0301, false, true)),
            telling(Deed::Reopen(0x0301), Told::Closure(3, 0x0301, false, false)),
            telling(Deed::Version(Some(3)), Told::Version(3, 0, 33)),
            telling(Deed::Version(Some(4)), Told::Ahead(4, 3)),
            telling(Deed::Close(0x0999), Told::NoFeature),
        ],
    )?;
    // Folders that break rules leave the version.
    judge(
        &rt,
        alloc,
        u32::MAX,
        0,
        0,
        &[
            rejecting("tall", 1, &OUTSIDE),
            telling(Deed::Version(None), Told::Version(1, 0, 33)),
            rejecting("nowhere", 2, &NOTHING),
            telling(Deed::Version(None), Told::Version(1, 0, 33)),
        ],
    )?;
    // The closed lift is dropped with a folder that has none.
    judge(
        &rt,
        alloc,
        u32::MAX,
        0,
        0,
        &[
            telling(Deed::Close(0x0301), Told::Closure(2, 0x0301, true, true)),
            listing(Deed::Publish("nolift"), Told::Published(3), &[0x0301]),
            telling(Deed::Closures, Told::Closures(3)),
            telling(Deed::Route("wheelchair"), Told::Route(3, 14_023)),
            telling(Deed::Route("walk"), Told::Route(3, 8_683)),
            telling(Deed::Publish("station"), Told::Published(4)),
            telling(Deed::Route("wheelchair"), Told::Route(4, 9_040)),
        ],
    )?;
    // The fifth read fails, and the second version is the last.
    judge(
        &rt,
        alloc,
        2,
        5,
        1,
        &[
            telling(Deed::Publish("station"), Told::Fault(0, 1)),
            telling(Deed::Version(None), Told::Version(1, 0, 33)),
            telling(Deed::Publish("station"), Told::Published(2)),
            telling(Deed::Close(0x0301), Told::Full(2)),
            rejecting("tall", 1, &OUTSIDE),
            telling(Deed::Publish("station"), Told::Full(2)),
            telling(Deed::Version(None), Told::Version(2, 0, 33)),
        ],
    )?;
    judge_many(&rt, alloc, 500)
}

#[test]
fn the_laws_are_called() {
    answered_law();
    changed_law();
}
