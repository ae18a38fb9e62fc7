//! Tours at boards over the station, whose costs were worked out elsewhere, from all orders. A feature is named by the last digits of its identifier.

use crate::boards::settings_until;
use std::alloc::Global;
use std::process::Abort;
use std::sync::Arc;
use std::test::Fail;
use test_venues::{id, tail, venue_of};
use venue_history::Act;
use venue_state::Board;
use venue_types::{Ask, FeatureId, Leg, List, Query, Reply, Text, TourQuery, TourTold, Which};

// What is told of a tour.
#[derive(Clone, Copy, PartialEq, Eq)]
enum Told {
    // What all of it costs.
    Tour(u64),
    NoTour,
    NoPlace(Which),
    NoProfile,
    Ahead(u32, u32),
    Else,
}

#[derive(Clone, Copy)]
struct Row {
    from: u128,
    to: u128,
    stops: &'static [u128],
    profile: &'static str,
    told: Told,
    // The stops in their order, where there is one that costs so little.
    order: &'static [u128],
    // What each leg costs, where it is known.
    legs: &'static [u64],
}

// A tour for a wheelchair from the entrance to the tickets.
const fn tour_by(stops: &'static [u128], told: Told) -> Row {
    Row {
        from: 0x0051,
        to: 0x0052,
        stops,
        profile: "wheelchair",
        told,
        order: &[],
        legs: &[],
    }
}

const EIGHT: [u128; 8] = [
    0x0109, 0x0031, 0x0102, 0x0104, 0x0106, 0x0110, 0x0111, 0x0108,
];

fn query(alloc: Global, row: &Row, since: Option<u32>) -> Result<Query, Fail> {
    let mut stops = List::new(alloc);
    for stop in row.stops {
        stops.push(id(*stop))?;
    }
    if stops.is_empty() || stops.len() > 8 {
        return Err(Fail::new("so many stops are none of a tour"));
    }
    let profile = Text::from_string(String::from_str(alloc, row.profile)?);
    let asked = TourQuery::new(id(row.from), id(row.to), stops, profile);
    Ok(Query {
        since,
        what: Ask::Tour(asked),
    })
}

fn told_of(reply: &Reply) -> Told {
    match reply {
        Reply::Tour(tour) => Told::Tour(tour.cost),
        Reply::NoTour(_) => Told::NoTour,
        Reply::NoPlace(which) => Told::NoPlace(*which),
        Reply::NoProfile => Told::NoProfile,
        Reply::Ahead { since, number } => Told::Ahead(*since, *number),
        _ => Told::Else,
    }
}

// How the identifiers end, sorted.
fn tails(alloc: Global, ids: &[FeatureId]) -> Result<Vec<u128>, Fail> {
    let mut tails = Vec::new(alloc);
    for id in ids {
        tails.push(tail(*id))?;
    }
    tails.sort_unstable();
    Ok(tails)
}

// What the steps of a leg cost.
fn steps_cost(leg: &Leg) -> u64 {
    leg.steps
        .as_slice()
        .iter()
        .fold(0, |sum: u64, step| sum.wrapping_add(u64::from(step.cost)))
}

fn judge_legs(rt: &impl Abort, tour: &TourTold, row: &Row) {
    assert!(rt; tour.legs.len() == row.stops.len().wrapping_add(1));
    let mut sum: u64 = 0;
    for leg in tour.legs.as_slice() {
        assert!(rt; steps_cost(leg) == leg.cost);
        sum = sum.wrapping_add(leg.cost);
    }
    assert!(rt; sum == tour.cost);
    if !row.legs.is_empty() {
        for (leg, wanted) in tour.legs.as_slice().iter().zip(row.legs) {
            assert!(rt; leg.cost == *wanted);
        }
    }
}

// Each stop stands in the order as often as it was asked for.
fn judge_order(rt: &impl Abort, alloc: Global, tour: &TourTold, row: &Row) -> Result<(), Fail> {
    let mut wanted = Vec::from_slice(alloc, row.stops)?;
    wanted.sort_unstable();
    let found = tails(alloc, tour.order.as_slice())?;
    assert!(rt; found.as_slice() == wanted.as_slice());
    for (found, wanted) in tour.order.as_slice().iter().zip(row.order) {
        assert!(rt; *found == id(*wanted));
    }
    Ok(())
}

fn judge_reply(rt: &impl Abort, alloc: Global, reply: &Reply, row: &Row) -> Result<(), Fail> {
    assert!(rt; told_of(reply) == row.told);
    match reply {
        Reply::Tour(tour) => {
            assert!(rt; tour.from == id(row.from));
            assert!(rt; tour.to == id(row.to));
            assert!(rt; tour.profile.as_str() == row.profile);
            judge_legs(rt, tour, row);
            judge_order(rt, alloc, tour, row)?;
        }
        Reply::NoTour(none) => {
            assert!(rt; none.from == id(row.from));
            assert!(rt; none.to == id(row.to));
            assert!(rt; none.profile.as_str() == row.profile);
            for (found, wanted) in none.stops.as_slice().iter().zip(row.stops) {
                assert!(rt; *found == id(*wanted));
            }
            assert!(rt; none.stops.len() == row.stops.len());
        }
        _ => {}
    }
    Ok(())
}

// These rows at the first board of the station, or where a place is closed, at the second.
fn judge_rows(
    rt: &impl Abort,
    alloc: Global,
    closed: Option<u128>,
    rows: &[Row],
) -> Result<(), Fail> {
    let settings = Arc::new(alloc, settings_until(alloc, u32::MAX)?)?;
    let venue = venue_of(alloc, &settings, &[])?;
    let mut board = Board::first(alloc, venue, settings)?;
    if let Some(closed) = closed {
        let act = Act::Closed(board.closing(id(closed)));
        match board.prepare(alloc, act, 1) {
            Ok(mut ready) => board.apply(&mut ready),
            Err(_) => return Err(Fail::new("it can't be closed")),
        }
    }
    for row in rows {
        let query = query(alloc, row, None)?;
        judge_reply(rt, alloc, &board.ask(alloc, &query), row)?;
    }
    Ok(())
}

#[test]
fn tours_of_the_station(rt: HostRuntime) -> Result<(), Fail> {
    let alloc = rt.alloc();
    judge_rows(
        &rt,
        alloc,
        None,
        &[
            Row {
                order: &[0x0031, 0x0109],
                legs: &[2_436, 6_083, 10_467],
                ..tour_by(&[0x0109, 0x0031], Told::Tour(18_986))
            },
            Row {
                profile: "walk",
                order: &[0x0031, 0x0109],
                legs: &[2_436, 6_083, 8_955],
                ..tour_by(&[0x0109, 0x0031], Told::Tour(17_474))
            },
            // Always the nearest next would cost 14440.
            Row {
                order: &[0x0106, 0x0031],
                ..tour_by(&[0x0031, 0x0106], Told::Tour(13_233))
            },
            Row {
                order: &[0x0031, 0x0102, 0x0109],
                legs: &[2_436, 1_921, 5_413, 10_467],
                ..tour_by(&[0x0109, 0x0031, 0x0102], Told::Tour(20_237))
            },
            tour_by(&EIGHT, Told::Tour(25_245)),
            Row {
                profile: "walk",
                ..tour_by(&EIGHT, Told::Tour(22_662))
            },
        ],
    )?;
    // A stop named twice, or one that is the start or the end too.
    judge_rows(
        &rt,
        alloc,
        None,
        &[
            Row {
                legs: &[2_436, 7_100],
                ..tour_by(&[0x0031], Told::Tour(9_536))
            },
            Row {
                legs: &[2_436, 0, 7_100],
                ..tour_by(&[0x0031, 0x0031], Told::Tour(9_536))
            },
            Row {
                legs: &[0, 9_040],
                ..tour_by(&[0x0051], Told::Tour(9_040))
            },
            Row {
                legs: &[9_040, 0],
                ..tour_by(&[0x0052], Told::Tour(9_040))
            },
            Row {
                to: 0x0051,
                legs: &[0, 0],
                ..tour_by(&[0x0051], Told::Tour(0))
            },
        ],
    )
}

#[test]
fn no_tours(rt: HostRuntime) -> Result<(), Fail> {
    let alloc = rt.alloc();
    judge_rows(
        &rt,
        alloc,
        Some(0x0109),
        &[
            tour_by(&[0x0109, 0x0031], Told::NoTour),
            tour_by(&[0x0109, 0x0109], Told::NoTour),
            // From a place to itself no way is needed, whatever is closed.
            Row {
                from: 0x0109,
                to: 0x0109,
                legs: &[0, 0],
                ..tour_by(&[0x0109], Told::Tour(0))
            },
        ],
    )?;
    judge_rows(
        &rt,
        alloc,
        None,
        &[
            Row {
                profile: "bicycle",
                from: 0x0999,
                to: 0x0999,
                ..tour_by(&[0x0999], Told::NoProfile)
            },
            Row {
                from: 0x0999,
                to: 0x0999,
                ..tour_by(&[0x0999], Told::NoPlace(Which::From))
            },
            Row {
                to: 0x0999,
                ..tour_by(&[0x0999], Told::NoPlace(Which::To))
            },
            tour_by(&[0x0031, 0x0999], Told::NoPlace(Which::Stop)),
        ],
    )
}

#[test]
fn a_tour_of_the_next_version(rt: HostRuntime) -> Result<(), Fail> {
    let alloc = rt.alloc();
    let settings = Arc::new(alloc, settings_until(alloc, u32::MAX)?)?;
    let venue = venue_of(alloc, &settings, &[])?;
    let board = Board::first(alloc, venue, settings)?;
    let early = tour_by(&[0x0031], Told::Ahead(2, 1));
    let query = query(alloc, &early, Some(2))?;
    judge_reply(&rt, alloc, &board.ask(alloc, &query), &early)
}
