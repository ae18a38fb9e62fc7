//! Closures for some profiles, at boards over the station, whose answers were worked out by hand. Profile 0 is `walk`, 1 `wheelchair`.

ghost use Rattle.std.specs.Prelude.{◌≡◌, IfOk};
ghost use Rattle.venue_state.specs.Preparing.{HasSettings};

use crate::boards::{settings_until, way};
use std::alloc::Global;
use std::process::Abort;
use std::sync::Arc;
use std::test::Fail;
use test_station::{Edit, NO_LIFT};
use test_venues::{closing, id, tail, venue_of};
use venue_history::Act;
use venue_state::{Board, Unready};
use venue_types::{Ask, ClosedRow, FeatureId, List, Profile, Query, Reply, Settings, Text};

// What is done at a board, or asked.
#[derive(Clone, Copy)]
enum Deed {
    Close(u128, u16),
    Open(u128, u16),
    Publish(&'static [Edit]),
    Place(u128),
    Closures,
    // A way from here to there for a profile.
    Route(u128, u128, &'static str),
}

// What is then told.
#[derive(Clone, Copy, PartialEq, Eq)]
enum Told {
    // The number of the version after a change, and how many closed features it drops.
    Changed(u32, usize),
    Unready(Unready),
    // Whether the place is closed for all.
    Place(bool),
    Closures,
    // The cost, and the passage between the levels.
    Route(u64, Option<u128>),
    // How many nodes are reached.
    Cut(usize),
    Else,
}

// A closed feature, and for whom; nobody's name where it is closed for all.
pub(crate) type Closed = (u128, &'static [&'static str]);

#[derive(Clone, Copy)]
struct Row {
    deed: Deed,
    told: Told,
    // What is closed, or for whom a place is.
    closed: &'static [Closed],
}

fn telling(deed: Deed, told: Told) -> Row {
    Row {
        deed,
        told,
        closed: &[],
    }
}

fn listing(deed: Deed, told: Told, closed: &'static [Closed]) -> Row {
    Row { deed, told, closed }
}

// By which passage the way leads from level to level, if it does.
fn passage(reply: &Reply) -> Option<u128> {
    match reply {
        Reply::Route { steps, .. } => steps
            .as_slice()
            .iter()
            .find(|step| step.via.0 % 0x1000 < 0x0030)
            .map(|step| tail(step.via)),
        _ => None,
    }
}

fn told_of(reply: &Reply) -> Told {
    match reply {
        Reply::Place(told) => Told::Place(told.closed),
        Reply::Closures(_) => Told::Closures,
        Reply::Route { cost, .. } => Told::Route(*cost, passage(reply)),
        Reply::NoRoute {
            reached: Some(reached),
            ..
        } => Told::Cut(reached.len()),
        _ => Told::Else,
    }
}

fn judge_names(rt: &impl Abort, found: &Option<List<Text>>, names: &[&str]) {
    match found {
        Some(found) => {
            assert!(rt; !names.is_empty());
            assert!(rt; found.len() == names.len());
            for (found, name) in found.as_slice().iter().zip(names) {
                assert!(rt; found.as_str() == *name);
            }
        }
        None => assert!(rt; names.is_empty()),
    }
}

pub(crate) fn judge_rows_of(rt: &impl Abort, found: &[ClosedRow], closed: &[Closed]) {
    assert!(rt; found.len() == closed.len());
    for (found, (tail, names)) in found.iter().zip(closed) {
        assert!(rt; found.id == id(*tail));
        judge_names(rt, &found.profiles, names);
    }
}

fn judge_reply(rt: &impl Abort, reply: &Reply, row: &Row) {
    assert!(rt; told_of(reply) == row.told);
    match reply {
        Reply::Place(told) => match row.closed.first() {
            Some((_, names)) => judge_names(rt, &told.profiles, names),
            None => assert!(rt; told.profiles.is_none()),
        },
        Reply::Closures(told) => judge_rows_of(rt, told.closed.as_slice(), row.closed),
        _ => {}
    }
}

fn judge_question(rt: &impl Abort, alloc: Global, board: &Board, what: Ask, row: &Row) {
    judge_reply(rt, &board.ask(alloc, &Query { since: None, what }), row);
}

fn judge_change(rt: &impl Abort, alloc: Global, board: &mut Board, act: Act, row: &Row)
    requires { HasSettings board.old act }
    ensures { board.new.settings ≡ board.old.settings }
{
    match board.prepare(alloc, act, 1) {
        Ok(mut ready) => {
            let dropped = ready.dropped().len();
            board.apply(&mut ready);
            assert!(rt; Told::Changed(board.number(), dropped) == row.told);
        }
        Err(unready) => assert!(rt; Told::Unready(unready) == row.told),
    }
}

fn judge(
    rt: &impl Abort,
    alloc: Global,
    settings: &Settings,
    board: &mut Board,
    row: &Row,
) -> Result<(), Fail>
    requires { board.old.settings ≡ settings.now }
    ensures { IfOk result (λ _. board.new.settings ≡ settings.now) }
{
    match row.deed {
        Deed::Close(tail, set) => {
            let closing = closing(settings, tail, set)?;
            judge_change(rt, alloc, board, Act::Closed(closing), row);
        }
        Deed::Open(tail, set) => {
            let closing = closing(settings, tail, set)?;
            judge_change(rt, alloc, board, Act::Reopened(closing), row);
        }
        Deed::Publish(edits) => {
            let venue = venue_of(alloc, settings, edits)?;
            judge_change(rt, alloc, board, Act::Published(venue), row);
        }
        Deed::Place(tail) => judge_question(rt, alloc, board, Ask::Place(id(tail)), row),
        Deed::Closures => judge_question(rt, alloc, board, Ask::Closures, row),
        Deed::Route(from, to, profile) => {
            let what = way(alloc, from, to, profile, true)?;
            judge_question(rt, alloc, board, what, row);
        }
    }
    Ok(())
}

// These rows, one after the other, from the first board of the station under these settings.
fn judge_under(
    rt: &impl Abort,
    alloc: Global,
    settings: Settings,
    rows: &[Row],
) -> Result<(), Fail> {
    let settings = Arc::new(alloc, settings)?;
    let venue = venue_of(alloc, &settings, &[])?;
    let mut board = Board::first(alloc, venue, Arc::try_clone(&settings)?)?;
    for row in rows {
        judge(rt, alloc, &settings, &mut board, row)?;
    }
    Ok(())
}

// The settings of the station with a third profile, `trolley`, of the same rights as the second.
fn three_profiles(alloc: Global) -> Result<Settings, Fail> {
    let mut settings = settings_until(alloc, u32::MAX)?;
    let mut profiles = List::new(alloc);
    for profile in settings.profiles.as_slice() {
        profiles.push(profile.copy(alloc)?)?;
    }
    profiles.push(trolley(alloc, settings.profiles.as_slice())?)?;
    if profiles.is_empty() || profiles.len() > 16 {
        return Err(Fail::new("too many profiles"));
    }
    settings.profiles = profiles;
    Ok(settings)
}

// A profile of that name with the rights of the second.
fn trolley(alloc: Global, profiles: &[Profile]) -> Result<Profile, Fail> {
    let Some(second) = profiles.get(1) else {
        return Err(Fail::new("no second profile"));
    };
    let mut third = second.copy(alloc)?;
    third.name = Text::from_string(String::from_str(alloc, "trolley")?);
    Ok(third)
}

const WALK: &[&str] = &["walk"];

const WHEELCHAIR: &[&str] = &["wheelchair"];

#[test]
fn closed_for_some(rt: HostRuntime) -> Result<(), Fail> {
    let alloc = rt.alloc();
    let wheelchair = Deed::Route(0x0051, 0x0052, "wheelchair");
    let walk = Deed::Route(0x0051, 0x0052, "walk");
    let chain = [
        telling(Deed::Close(0x0301, 2), Told::Changed(2, 0)),
        telling(wheelchair, Told::Route(14_023, Some(0x0024))),
        telling(walk, Told::Route(8_683, Some(0x0022))),
        listing(
            Deed::Place(0x0301),
            Told::Place(false),
            &[(0x0301, WHEELCHAIR)],
        ),
        telling(Deed::Close(0x0022, 1), Told::Changed(3, 0)),
        telling(wheelchair, Told::Route(14_023, Some(0x0024))),
        telling(walk, Told::Route(9_040, Some(0x0021))),
        telling(Deed::Close(0x0301, 3), Told::Changed(4, 0)),
        listing(
            Deed::Closures,
            Told::Closures,
            &[(0x0022, WALK), (0x0301, &[])],
        ),
        telling(wheelchair, Told::Route(14_023, Some(0x0024))),
        telling(walk, Told::Route(9_426, Some(0x0023))),
        telling(Deed::Place(0x0301), Told::Place(true)),
        telling(Deed::Close(0x0301, 2), Told::Unready(Unready::Unchanged)),
        telling(Deed::Open(0x0301, 1), Told::Changed(5, 0)),
        listing(
            Deed::Closures,
            Told::Closures,
            &[(0x0022, WALK), (0x0301, WHEELCHAIR)],
        ),
        telling(Deed::Open(0x0301, 1), Told::Unready(Unready::Unchanged)),
        telling(Deed::Open(0x0301, 3), Told::Changed(6, 0)),
        listing(Deed::Closures, Told::Closures, &[(0x0022, WALK)]),
    ];
    judge_under(&rt, alloc, settings_until(alloc, u32::MAX)?, &chain)?;
    let cut = [
        telling(Deed::Close(0x0301, 2), Told::Changed(2, 0)),
        telling(Deed::Close(0x0024, 3), Told::Changed(3, 0)),
        telling(wheelchair, Told::Cut(16)),
        telling(walk, Told::Route(8_683, Some(0x0022))),
    ];
    judge_under(&rt, alloc, settings_until(alloc, u32::MAX)?, &cut)?;
    let published = [
        telling(Deed::Close(0x0301, 2), Told::Changed(2, 0)),
        telling(Deed::Close(0x0022, 1), Told::Changed(3, 0)),
        telling(Deed::Publish(&NO_LIFT), Told::Changed(4, 1)),
        listing(Deed::Closures, Told::Closures, &[(0x0022, WALK)]),
        telling(walk, Told::Route(9_426, Some(0x0023))),
        telling(wheelchair, Told::Route(14_023, Some(0x0024))),
    ];
    judge_under(&rt, alloc, settings_until(alloc, u32::MAX)?, &published)?;
    let room = [
        telling(Deed::Close(0x0305, 2), Told::Changed(2, 0)),
        telling(
            Deed::Route(0x0051, 0x0051, "wheelchair"),
            Told::Route(0, None),
        ),
        telling(Deed::Route(0x0051, 0x0105, "wheelchair"), Told::Cut(1)),
        telling(Deed::Route(0x0051, 0x0105, "walk"), Told::Route(633, None)),
    ];
    judge_under(&rt, alloc, settings_until(alloc, u32::MAX)?, &room)
}

#[test]
fn all_is_by_the_settings(rt: HostRuntime) -> Result<(), Fail> {
    let alloc = rt.alloc();
    let rows = [
        telling(Deed::Close(0x0301, 7), Told::Changed(2, 0)),
        listing(Deed::Closures, Told::Closures, &[(0x0301, &[])]),
        telling(Deed::Open(0x0301, 4), Told::Changed(3, 0)),
        listing(
            Deed::Closures,
            Told::Closures,
            &[(0x0301, &["walk", "wheelchair"])],
        ),
        listing(
            Deed::Place(0x0301),
            Told::Place(false),
            &[(0x0301, &["walk", "wheelchair"])],
        ),
    ];
    judge_under(&rt, alloc, three_profiles(alloc)?, &rows)
}
