//! Boards over the station, whose answers were worked out by hand.

ghost use Rattle.std.specs.Prelude.{◌≡◌, IfOk};
ghost use Rattle.venue_state.specs.Preparing.{HasSettings};

use std::alloc::Global;
use std::process::Abort;
use std::sync::Arc;
use std::test::Fail;
use test_station::{Edit, NO_LIFT, station_settings};
use test_venues::{id, tail, venue_of};
use venue_history::Act;
use venue_state::{Board, Unready};
use venue_types::{
    Ask, Class, ClosedRow, FeatureId, Kind, NodeName, PlaceRow, Query, Reply, Settings, StepRow,
    Text, Which,
};

// A feature is named by the last digits of its identifier. A step: where it leads, over what, its cost and its kind.
pub(crate) type Step = (u128, u128, u32, Kind);

// What is done at a board, or asked.
#[derive(Clone, Copy)]
enum Deed {
    Close(u128),
    Reopen(u128),
    Publish(&'static [Edit]),
    Version(Option<u32>),
    Places,
    Place(u128),
    Closures,
    // A way from here to there for a profile, with its certificate or not.
    Route(u128, u128, &'static str, bool),
}

// What is then told, without its lists.
#[derive(Clone, Copy, PartialEq, Eq)]
enum Told<'t> {
    // The number of the version after a change.
    Changed(u32),
    Unready(Unready),
    Version(u32, u32, u32),
    // The number, how many there are, the first and the last.
    Places(u32, usize, Option<u128>, Option<u128>),
    // The number, the feature, its class and ordinal, the first of its names, whether it is closed.
    Place(u32, u128, Class, i16, &'t str, bool),
    Closures(u32),
    // The number, the node where the way starts, its cost, whether there is a certificate.
    Route(u32, u128, u64, bool),
    NoRoute(u32, bool),
    Ahead(u32, u32),
    NoProfile,
    NoPlace(Which),
    Else,
}

#[derive(Clone, Copy)]
struct Row {
    deed: Deed,
    told: Told<'static>,
    // The features that are dropped, closed or reached.
    listed: &'static [u128],
    steps: &'static [Step],
}

fn telling(deed: Deed, told: Told<'static>) -> Row {
    Row {
        deed,
        told,
        listed: &[],
        steps: &[],
    }
}

fn listing(deed: Deed, told: Told<'static>, listed: &'static [u128]) -> Row {
    Row {
        listed,
        ..telling(deed, told)
    }
}

fn going(deed: Deed, told: Told<'static>, steps: &'static [Step]) -> Row {
    Row {
        steps,
        ..telling(deed, told)
    }
}

const LIFT: [Step; 6] = [
    (0x0105, 0x0305, 633, Kind::Floor),
    (0x0101, 0x0300, 3_007, Kind::Floor),
    (0x0301, 0x0301, 200, Kind::Elevator),
    (0x0401, 0x0021, 3_000, Kind::Elevator),
    (0x0201, 0x0401, 200, Kind::Elevator),
    (0x0042, 0x0400, 2_000, Kind::Floor),
];

const RAMP: [Step; 4] = [
    (0x0105, 0x0305, 633, Kind::Floor),
    (0x0104, 0x0300, 6_004, Kind::Floor),
    (0x0204, 0x0024, 2_000, Kind::Ramp),
    (0x0042, 0x0400, 5_386, Kind::Floor),
];

const STAIRS: [Step; 4] = [
    (0x0105, 0x0305, 633, Kind::Floor),
    (0x0102, 0x0300, 3_721, Kind::Floor),
    (0x0202, 0x0022, 1_500, Kind::Stairs),
    (0x0042, 0x0400, 2_829, Kind::Floor),
];

// What can be reached on the lower level without stairs, escalator, lift and ramp.
const LOWER: [u128; 16] = [
    0x0031, 0x0041, 0x0101, 0x0102, 0x0103, 0x0104, 0x0105, 0x0106, 0x0108, 0x0109, 0x0110, 0x0111,
    0x0300, 0x0304, 0x0305, 0x0306,
];

fn first_name(row: &PlaceRow) -> &str {
    match row.name.get(0) {
        Some(label) => label.text.as_str(),
        None => "",
    }
}

fn end_of(row: Option<&PlaceRow>) -> Option<u128> {
    match row {
        Some(row) => Some(tail(row.id)),
        None => None,
    }
}

fn places_told<'t>(number: u32, rows: &[PlaceRow]) -> Told<'t> {
    Told::Places(
        number,
        rows.len(),
        end_of(rows.first()),
        end_of(rows.last()),
    )
}

fn place_told(number: u32, row: &PlaceRow, closed: bool) -> Told<'_> {
    Told::Place(
        number,
        tail(row.id),
        row.class,
        row.ordinal,
        first_name(row),
        closed,
    )
}

fn told_of(reply: &Reply) -> Told<'_> {
    match reply {
        Reply::Version {
            number,
            closed,
            places,
        } => Told::Version(*number, *closed, *places),
        Reply::Places { number, rows } => places_told(*number, rows.as_slice()),
        Reply::Place(told) if told.profiles.is_none() => {
            place_told(told.number, &told.row, told.closed)
        }
        Reply::Closures(told) => Told::Closures(told.number),
        Reply::Route {
            number,
            start,
            cost,
            potentials,
            ..
        } => Told::Route(*number, tail(*start), *cost, potentials.is_some()),
        Reply::NoRoute {
            number,
            reached,
            ..
        } => Told::NoRoute(*number, reached.is_some()),
        Reply::Ahead { since, number } => Told::Ahead(*since, *number),
        Reply::NoProfile => Told::NoProfile,
        Reply::NoPlace(which) => Told::NoPlace(*which),
        _ => Told::Else,
    }
}

fn closed_in(reply: &Reply) -> &[ClosedRow] {
    match reply {
        Reply::Closures(told) => told.closed.as_slice(),
        _ => &[],
    }
}

fn reached_in(reply: &Reply) -> &[NodeName] {
    match reply {
        Reply::NoRoute {
            reached: Some(reached),
            ..
        } => reached.as_slice(),
        _ => &[],
    }
}

fn steps_in(reply: &Reply) -> &[StepRow] {
    match reply {
        Reply::Route { steps, .. } => steps.as_slice(),
        _ => &[],
    }
}

fn judge_closed(rt: &impl Abort, found: &[ClosedRow], listed: &[u128]) {
    for (found, tail) in found.iter().zip(listed) {
        assert!(rt; found.id == id(*tail));
        assert!(rt; found.profiles.is_none());
    }
}

fn judge_listed(rt: &impl Abort, found: &[FeatureId], listed: &[u128]) {
    for (found, tail) in found.iter().zip(listed) {
        assert!(rt; *found == id(*tail));
    }
}

fn judge_reached(rt: &impl Abort, found: &[NodeName], listed: &[u128]) {
    for (found, tail) in found.iter().zip(listed) {
        assert!(rt; found.id == id(*tail) && found.corner.is_none());
    }
}

/// The steps are these.
pub(crate) fn judge_steps(rt: &impl Abort, found: &[StepRow], steps: &[Step]) {
    assert!(rt; found.len() == steps.len());
    for (found, (to, via, cost, kind)) in found.iter().zip(steps) {
        let step = StepRow {
            corner: None,
            to: id(*to),
            via: id(*via),
            cost: *cost,
            kind: *kind,
        };
        assert!(rt; *found == step);
    }
}

fn judge_reply(rt: &impl Abort, reply: &Reply, row: &Row) {
    assert!(rt; told_of(reply) == row.told);
    let (closed, reached) = (closed_in(reply), reached_in(reply));
    assert!(rt; closed.len().max(reached.len()) == row.listed.len());
    judge_closed(rt, closed, row.listed);
    judge_reached(rt, reached, row.listed);
    judge_steps(rt, steps_in(reply), row.steps);
}

// A question has one answer, also beside a change that is ready and isn't made.
fn judge_answer(rt: &impl Abort, alloc: Global, board: &Board, query: &Query, row: &Row) {
    judge_reply(rt, &board.ask(alloc, query), row);
    let _ready = board.prepare(alloc, Act::Closed(board.closing(id(0x0300))), 1);
    judge_reply(rt, &board.ask(alloc, query), row);
}

fn judge_question(rt: &impl Abort, alloc: Global, board: &Board, what: Ask, row: &Row) {
    judge_answer(rt, alloc, board, &Query { since: None, what }, row);
}

pub(crate) fn way(
    alloc: Global,
    from: u128,
    to: u128,
    profile: &str,
    certificate: bool,
) -> Result<Ask, Fail> {
    Ok(Ask::Route {
        from: id(from),
        to: id(to),
        profile: Text::from_string(String::from_str(alloc, profile)?),
        certificate,
    })
}

// What comes of an act that is made ready, and of the change.
fn judge_change(rt: &impl Abort, alloc: Global, board: &mut Board, act: Act, row: &Row)
    requires { HasSettings board.old act }
    ensures { board.new.settings ≡ board.old.settings }
{
    match board.prepare(alloc, act, 1) {
        Ok(mut ready) => {
            judge_listed(rt, ready.dropped().as_slice(), row.listed);
            assert!(rt; ready.entry().worker == 1);
            board.apply(&mut ready);
            assert!(rt; Told::Changed(board.number()) == row.told);
            board.apply(&mut ready);
            assert!(rt; Told::Changed(board.number()) == row.told);
        }
        Err(unready) => assert!(rt; Told::Unready(unready) == row.told),
    }
}

fn judge(
    rt: &impl Abort,
    alloc: Global,
    settings: &Settings,
    board: &mut Board,
    row: &Row,
) -> Result<(), Fail>
    requires { board.old.settings ≡ settings.now }
    ensures { IfOk result (λ _. board.new.settings ≡ settings.now) }
{
    match row.deed {
        Deed::Close(tail) => {
            let act = Act::Closed(board.closing(id(tail)));
            judge_change(rt, alloc, board, act, row);
        }
        Deed::Reopen(tail) => {
            let act = Act::Reopened(board.closing(id(tail)));
            judge_change(rt, alloc, board, act, row);
        }
        Deed::Publish(edits) => {
            let venue = venue_of(alloc, settings, edits)?;
            judge_change(rt, alloc, board, Act::Published(venue), row);
        }
        Deed::Version(since) => {
            let what = Ask::Version;
            judge_answer(rt, alloc, board, &Query { since, what }, row);
        }
        Deed::Places => judge_question(rt, alloc, board, Ask::Places, row),
        Deed::Place(tail) => judge_question(rt, alloc, board, Ask::Place(id(tail)), row),
        Deed::Closures => judge_question(rt, alloc, board, Ask::Closures, row),
        Deed::Route(from, to, profile, certificate) => {
            let what = way(alloc, from, to, profile, certificate)?;
            judge_question(rt, alloc, board, what, row);
        }
    }
    Ok(())
}

/// The settings of the station with this last version, or 1.
pub(crate) fn settings_until(alloc: Global, last_version: u32) -> Result<Settings, Fail> {
    let mut settings = station_settings(alloc)?;
    settings.last_version = last_version.max(1);
    Ok(settings)
}

// These rows, one after the other, from the first board of the station, under a last version.
fn judge_rows(rt: &impl Abort, alloc: Global, last_version: u32, rows: &[Row]) -> Result<(), Fail> {
    let settings = Arc::new(alloc, settings_until(alloc, last_version)?)?;
    let venue = venue_of(alloc, &settings, &[])?;
    let mut board = Board::first(alloc, venue, Arc::try_clone(&settings)?)?;
    for row in rows {
        judge(rt, alloc, &settings, &mut board, row)?;
    }
    Ok(())
}

#[test]
fn boards_answer(rt: HostRuntime) -> Result<(), Fail> {
    let alloc = rt.alloc();
    // What there is.
    judge_rows(
        &rt,
        alloc,
        u32::MAX,
        &[
            telling(Deed::Version(Some(1)), Told::Version(1, 0, 33)),
            telling(
                Deed::Places,
                Told::Places(1, 33, Some(0x0031), Some(0x0404)),
            ),
            telling(
                Deed::Place(0x0052),
                Told::Place(1, 0x0052, Class::Occupant, 1, "Tickets", false),
            ),
            telling(Deed::Place(0x0999), Told::NoPlace(Which::Id)),
            telling(Deed::Place(0x0307), Told::NoPlace(Which::Id)),
            telling(
                Deed::Route(0x0999, 0x0999, "walk", false),
                Told::NoPlace(Which::From),
            ),
            telling(
                Deed::Route(0x0307, 0x0307, "walk", false),
                Told::NoPlace(Which::From),
            ),
            telling(
                Deed::Route(0x0051, 0x0999, "walk", false),
                Told::NoPlace(Which::To),
            ),
            telling(
                Deed::Route(0x0999, 0x0999, "bicycle", false),
                Told::NoProfile,
            ),
            telling(Deed::Version(Some(2)), Told::Ahead(2, 1)),
            telling(Deed::Close(0x0999), Told::Unready(Unready::NoFeature)),
            telling(Deed::Close(0x0041), Told::Unready(Unready::NoFeature)),
            telling(Deed::Reopen(0x0301), Told::Unready(Unready::Unchanged)),
        ],
    )?;
    // Without the lift there is the ramp, and without both there are the stairs.
    judge_rows(
        &rt,
        alloc,
        u32::MAX,
        &[
            going(
                Deed::Route(0x0051, 0x0052, "wheelchair", false),
                Told::Route(1, 0x0041, 9_040, false),
                &LIFT,
            ),
            going(
                Deed::Route(0x0051, 0x0052, "wheelchair", true),
                Told::Route(1, 0x0041, 9_040, true),
                &LIFT,
            ),
            going(
                Deed::Route(0x0051, 0x0052, "walk", false),
                Told::Route(1, 0x0041, 8_683, false),
                &STAIRS,
            ),
            telling(Deed::Close(0x0301), Told::Changed(2)),
            telling(Deed::Close(0x0301), Told::Unready(Unready::Unchanged)),
            going(
                Deed::Route(0x0051, 0x0052, "wheelchair", false),
                Told::Route(2, 0x0041, 14_023, false),
                &RAMP,
            ),
            telling(Deed::Close(0x0024), Told::Changed(3)),
            listing(
                Deed::Route(0x0051, 0x0052, "wheelchair", true),
                Told::NoRoute(3, true),
                &LOWER,
            ),
            telling(
                Deed::Route(0x0051, 0x0052, "wheelchair", false),
                Told::NoRoute(3, false),
            ),
            going(
                Deed::Route(0x0051, 0x0052, "walk", false),
                Told::Route(3, 0x0041, 8_683, false),
                &STAIRS,
            ),
            listing(Deed::Closures, Told::Closures(3), &[0x0024, 0x0301]),
            telling(Deed::Version(None), Told::Version(3, 2, 33)),
            telling(Deed::Reopen(0x0301), Told::Changed(4)),
            listing(Deed::Closures, Told::Closures(4), &[0x0024]),
            going(
                Deed::Route(0x0051, 0x0052, "wheelchair", false),
                Told::Route(4, 0x0041, 9_040, false),
                &LIFT,
            ),
        ],
    )?;
    // A room is closed, and what stands in it is not.
    judge_rows(
        &rt,
        alloc,
        u32::MAX,
        &[
            telling(Deed::Close(0x0305), Told::Changed(2)),
            telling(
                Deed::Route(0x0051, 0x0051, "wheelchair", false),
                Told::Route(2, 0x0041, 0, false),
            ),
            listing(
                Deed::Route(0x0041, 0x0105, "wheelchair", true),
                Told::NoRoute(2, true),
                &[0x0041],
            ),
            telling(
                Deed::Place(0x0041),
                Told::Place(2, 0x0041, Class::Anchor, 0, "", false),
            ),
            telling(
                Deed::Place(0x0305),
                Told::Place(2, 0x0305, Class::Unit, 0, "", true),
            ),
        ],
    )?;
    // A folder without lifts is published: the closed lift is dropped, and the ramp stays as it was.
    judge_rows(
        &rt,
        alloc,
        u32::MAX,
        &[
            telling(Deed::Close(0x0301), Told::Changed(2)),
            listing(Deed::Publish(&NO_LIFT), Told::Changed(3), &[0x0301]),
            telling(Deed::Closures, Told::Closures(3)),
            going(
                Deed::Route(0x0051, 0x0052, "wheelchair", false),
                Told::Route(3, 0x0041, 14_023, false),
                &RAMP,
            ),
            telling(Deed::Version(Some(9)), Told::Ahead(9, 3)),
            telling(Deed::Version(Some(3)), Told::Version(3, 0, 29)),
            telling(Deed::Close(0x0301), Told::Unready(Unready::NoFeature)),
            telling(Deed::Close(0x0024), Told::Changed(4)),
            telling(Deed::Publish(&[]), Told::Changed(5)),
            listing(Deed::Closures, Told::Closures(5), &[0x0024]),
            telling(Deed::Close(0x0301), Told::Changed(6)),
            listing(Deed::Publish(&NO_LIFT), Told::Changed(7), &[0x0301]),
            listing(Deed::Closures, Told::Closures(7), &[0x0024]),
            telling(
                Deed::Route(0x0051, 0x0052, "wheelchair", false),
                Told::NoRoute(7, false),
            ),
        ],
    )?;
    // The second version is the last.
    judge_rows(
        &rt,
        alloc,
        2,
        &[
            telling(Deed::Close(0x0301), Told::Changed(2)),
            telling(Deed::Close(0x0024), Told::Unready(Unready::Full)),
            telling(Deed::Close(0x0301), Told::Unready(Unready::Unchanged)),
            telling(Deed::Close(0x0999), Told::Unready(Unready::NoFeature)),
            telling(Deed::Reopen(0x0301), Told::Unready(Unready::Full)),
            telling(Deed::Publish(&[]), Told::Unready(Unready::Full)),
            listing(Deed::Closures, Told::Closures(2), &[0x0301]),
        ],
    )
}
