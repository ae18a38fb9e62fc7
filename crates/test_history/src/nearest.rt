//! The nearest amenities at boards over the station, whose costs were worked out elsewhere, by plain rounds over its links. A feature is named by the
//! last digits of its identifier, and the identifiers of the nodes rise with their numbers.

use crate::boards::{Step, judge_steps, settings_until};
use std::alloc::Global;
use std::process::Abort;
use std::sync::Arc;
use std::test::Fail;
use test_station::{AMENITY, Edit};
use test_venues::{id, tail, venue_of};
use venue_history::Act;
use venue_state::Board;
use venue_types::{
    Ask, FeatureId, Kind, List, Mark, NearQuery, NearRow, NearTold, NodeName, Query, Reply,
    StepRow, Text, Which,
};

// An amenity, what a way to it costs, and its steps; where several ways cost so little, none.
type Place = (u128, u64, &'static [Step]);

// What is told, without its lists.
#[derive(Clone, Copy, PartialEq, Eq)]
enum Told {
    // The number of the version, and the node where the ways start.
    Nearest(u32, u128),
    NoPlace(Which),
    NoProfile,
    Ahead(u32, u32),
    Else,
}

#[derive(Clone, Copy)]
struct Row {
    from: u128,
    category: &'static str,
    profile: &'static str,
    limit: u8,
    since: Option<u32>,
    told: Told,
    places: &'static [Place],
    // Amenities of the category that are not told though they can be reached.
    beyond: &'static [u128],
    // How many nodes can be reached, where that is told, and the first of them.
    reached: usize,
    nodes: &'static [u128],
}

// For a wheelchair from the bakery.
const fn near(category: &'static str, places: &'static [Place]) -> Row {
    Row {
        from: 0x0051,
        category,
        profile: "wheelchair",
        limit: 1,
        since: None,
        told: Told::Nearest(1, 0x0041),
        places,
        beyond: &[],
        reached: 0,
        nodes: &[],
    }
}

// A question for a restroom that is told this instead.
const fn refused(told: Told) -> Row {
    Row {
        told,
        ..near("restroom", &[])
    }
}

const DOOR: Step = (0x0105, 0x0305, 633, Kind::Floor);

const RESTROOM: Place = (0x0031, 2_436, &[DOOR, (0x0031, 0x0300, 1_803, Kind::Floor)]);

static BY_THE_LIFT: [Place; 1] = [(
    0x0031,
    7_100,
    &[
        (0x0201, 0x0400, 2_000, Kind::Floor),
        (0x0401, 0x0401, 200, Kind::Elevator),
        (0x0301, 0x0021, 3_000, Kind::Elevator),
        (0x0101, 0x0301, 200, Kind::Elevator),
        (0x0031, 0x0300, 1_700, Kind::Floor),
    ],
)];

// The start itself.
static HERE: [Place; 1] = [(0x0031, 0, &[])];

const CORNER: Place = (0x0032, 1_458, &[DOOR, (0x0032, 0x0300, 825, Kind::Floor)]);

const UPSTAIRS: Place = (
    0x0034,
    10_481,
    &[
        DOOR,
        (0x0101, 0x0300, 3_007, Kind::Floor),
        (0x0301, 0x0301, 200, Kind::Elevator),
        (0x0401, 0x0021, 3_000, Kind::Elevator),
        (0x0201, 0x0401, 200, Kind::Elevator),
        (0x0034, 0x0400, 3_441, Kind::Floor),
    ],
);

const UPSTAIRS_ON_FOOT: Place = (
    0x0034,
    7_830,
    &[
        DOOR,
        (0x0103, 0x0300, 4_387, Kind::Floor),
        (0x0203, 0x0023, 800, Kind::Escalator),
        (0x0034, 0x0400, 2_010, Kind::Floor),
    ],
);

const UPSTAIRS_BY_THE_RAMP: Place = (
    0x0034,
    11_611,
    &[
        DOOR,
        (0x0104, 0x0300, 6_004, Kind::Floor),
        (0x0204, 0x0024, 2_000, Kind::Ramp),
        (0x0034, 0x0400, 2_974, Kind::Floor),
    ],
);

// Across a room to one that stands in both, and from there at no cost.
static BESIDE_ANOTHER: [Place; 1] = [(
    0x0032,
    3_133,
    &[
        DOOR,
        (0x0033, 0x0300, 2_500, Kind::Floor),
        (0x0032, 0x0306, 0, Kind::Floor),
    ],
)];

static ONE: [Place; 1] = [RESTROOM];

// Of three at one place the first two.
static TWO_OF_THREE: [Place; 2] = [(0x0032, 2_870, &[]), (0x0033, 2_870, &[])];

// All restrooms where there are three.
static ALL: [Place; 3] = [CORNER, RESTROOM, UPSTAIRS];

static ALL_ON_FOOT: [Place; 3] = [CORNER, RESTROOM, UPSTAIRS_ON_FOOT];

static ALL_BY_THE_RAMP: [Place; 3] = [CORNER, RESTROOM, UPSTAIRS_BY_THE_RAMP];

// The nearer two of them.
static TWO: [Place; 2] = [CORNER, RESTROOM];

// What a wheelchair can reach.
const WHEELCHAIR: [u128; 25] = [
    0x0031, 0x0041, 0x0042, 0x0101, 0x0102, 0x0103, 0x0104, 0x0105, 0x0106, 0x0108, 0x0109, 0x0110,
    0x0111, 0x0201, 0x0202, 0x0203, 0x0204, 0x0300, 0x0301, 0x0304, 0x0305, 0x0306, 0x0400, 0x0401,
    0x0404,
];

// What can be reached on foot.
const WALK: [u128; 31] = [
    0x0031, 0x0041, 0x0042, 0x0101, 0x0102, 0x0103, 0x0104, 0x0105, 0x0106, 0x0107, 0x0108, 0x0109,
    0x0110, 0x0111, 0x0112, 0x0201, 0x0202, 0x0203, 0x0204, 0x0300, 0x0301, 0x0302, 0x0303, 0x0304,
    0x0305, 0x0306, 0x0400, 0x0401, 0x0402, 0x0403, 0x0404,
];

const SIXTY_FOUR: &str = "xxxxxxxxxxxxxxxxxxxxxxxxxxxxxxxxxxxxxxxxxxxxxxxxxxxxxxxxxxxxxxxx";

// Three more amenities at one place.
static THREE: [Edit; 3] = [
    (
        AMENITY,
        "",
        "\n]}",
        ",\n{'type':'Feature','id':'@0032','feature_type':'amenity','geometry':{'type':'Point','coordinates':(30,30)},'properties':{'category':'atm','unit_ids':['@0300']}}\n]}",
    ),
    (
        AMENITY,
        "",
        "\n]}",
        ",\n{'type':'Feature','id':'@0033','feature_type':'amenity','geometry':{'type':'Point','coordinates':(30,30)},'properties':{'category':'atm','unit_ids':['@0300']}}\n]}",
    ),
    (
        AMENITY,
        "",
        "\n]}",
        ",\n{'type':'Feature','id':'@0034','feature_type':'amenity','geometry':{'type':'Point','coordinates':(30,30)},'properties':{'category':'atm','unit_ids':['@0300']}}\n]}",
    ),
];

// Two at one place between two units, of which the first stands in one alone.
static BETWEEN: [Edit; 2] = [
    (
        AMENITY,
        "",
        "\n]}",
        ",\n{'type':'Feature','id':'@0032','feature_type':'amenity','geometry':{'type':'Point','coordinates':(45,10)},'properties':{'category':'atm','unit_ids':['@0306']}}\n]}",
    ),
    (
        AMENITY,
        "",
        "\n]}",
        ",\n{'type':'Feature','id':'@0033','feature_type':'amenity','geometry':{'type':'Point','coordinates':(45,10)},'properties':{'category':'atm','unit_ids':['@0300','@0306']}}\n]}",
    ),
];

// Two more restrooms, and one of a longer category.
static RESTROOMS: [Edit; 3] = [
    (
        AMENITY,
        "",
        "\n]}",
        ",\n{'type':'Feature','id':'@0032','feature_type':'amenity','geometry':{'type':'Point','coordinates':(12,12)},'properties':{'category':'restroom','unit_ids':['@0300']}}\n]}",
    ),
    (
        AMENITY,
        "",
        "\n]}",
        ",\n{'type':'Feature','id':'@0033','feature_type':'amenity','geometry':{'type':'Point','coordinates':(88,38)},'properties':{'category':'restroom.wheelchair','unit_ids':['@0300']}}\n]}",
    ),
    (
        AMENITY,
        "",
        "\n]}",
        ",\n{'type':'Feature','id':'@0034','feature_type':'amenity','geometry':{'type':'Point','coordinates':(50,20)},'properties':{'category':'restroom','unit_ids':['@0400']}}\n]}",
    ),
];

// One in a column.
static WALLED_IN: [Edit; 1] = [(
    AMENITY,
    "",
    "\n]}",
    ",\n{'type':'Feature','id':'@0032','feature_type':'amenity','geometry':{'type':'Point','coordinates':(61,21)},'properties':{'category':'atm','unit_ids':['@0307']}}\n]}",
)];

fn query(alloc: Global, row: &Row, certificate: bool) -> Result<Query, Fail> {
    if row.limit < 1 || row.limit > 10 {
        return Err(Fail::new("so many are never asked for"));
    }
    let category = Text::from_string(String::from_str(alloc, row.category)?);
    let profile = Text::from_string(String::from_str(alloc, row.profile)?);
    let asked = NearQuery::new(id(row.from), category, profile, row.limit, certificate);
    Ok(Query {
        since: row.since,
        what: Ask::Nearest(asked),
    })
}

fn told_of(reply: &Reply) -> Told {
    match reply {
        Reply::Nearest(told) => Told::Nearest(told.number, tail(told.start)),
        Reply::NoPlace(which) => Told::NoPlace(*which),
        Reply::NoProfile => Told::NoProfile,
        Reply::Ahead { since, number } => Told::Ahead(*since, *number),
        _ => Told::Else,
    }
}

// The steps lead to the amenity, and cost what is told.
fn judge_way(rt: &impl Abort, start: FeatureId, found: &NearRow) {
    let (mut at, mut sum) = (start, 0u64);
    for step in found.steps.as_slice() {
        at = step.to;
        sum = sum.saturating_add(u64::from(step.cost));
    }
    assert!(rt; at == found.id && sum == found.cost);
}

fn judge_places(rt: &impl Abort, told: &NearTold, places: &[Place]) {
    assert!(rt; told.places.len() == places.len());
    for (found, (amenity, cost, steps)) in told.places.as_slice().iter().zip(places) {
        assert!(rt; found.id == id(*amenity) && found.cost == *cost);
        judge_way(rt, told.start, found);
        if *cost == 0 || !steps.is_empty() {
            judge_steps(rt, found.steps.as_slice(), steps);
        }
    }
}

// The cost of the last place, 0 without places.
fn last_cost(places: &[NearRow]) -> u64 {
    match places.last() {
        Some(place) => place.cost,
        None => 0,
    }
}

// The potential of a node: that of the list, else the last cost.
fn potential(marks: &[Mark], last: u64, node: FeatureId) -> u64 {
    for mark in marks {
        if mark.node == node {
            return mark.value;
        }
    }
    last
}

// Marks rise by node, each below the last cost.
fn judge_listed(rt: &impl Abort, marks: &[Mark], last: u64) {
    let mut before = 0u128;
    for mark in marks {
        assert!(rt; mark.node.0 > before && mark.corner.is_none() && mark.value < last);
        before = mark.node.0;
    }
}

// Since no step may rise by more than it costs, on a least way each potential is what the way costs so far.
fn judge_rise(rt: &impl Abort, marks: &[Mark], last: u64, steps: &[StepRow]) {
    let mut sum = 0u64;
    for step in steps {
        sum = sum.saturating_add(u64::from(step.cost));
        assert!(rt; potential(marks, last, step.to) == sum);
    }
}

fn judge_marks(rt: &impl Abort, told: &NearTold, marks: &[Mark], row: &Row) {
    let last = last_cost(told.places.as_slice());
    judge_listed(rt, marks, last);
    assert!(rt; potential(marks, last, told.start) == 0);
    for place in told.places.as_slice() {
        judge_rise(rt, marks, last, place.steps.as_slice());
    }
    for amenity in row.beyond {
        assert!(rt; potential(marks, last, id(*amenity)) == last);
    }
}

fn judge_nodes(rt: &impl Abort, reached: &[NodeName], row: &Row) {
    assert!(rt; !reached.is_empty() && reached.len() == row.reached);
    let mut before = 0u128;
    for node in reached {
        assert!(rt; node.id.0 > before && node.corner.is_none());
        before = node.id.0;
    }
    for (node, tail) in reached.iter().zip(row.nodes) {
        assert!(rt; node.id == id(*tail));
    }
}

fn judge_reached(rt: &impl Abort, reached: &Option<List<NodeName>>, row: &Row) {
    match reached {
        Some(reached) => judge_nodes(rt, reached.as_slice(), row),
        None => assert!(rt; row.reached == 0),
    }
}

// Potentials and what is reached, where the certificate was asked for.
fn judge_certificate(rt: &impl Abort, told: &NearTold, certificate: bool, row: &Row) {
    match &told.potentials {
        Some(marks) => {
            assert!(rt; certificate);
            judge_marks(rt, told, marks.as_slice(), row);
            judge_reached(rt, &told.reached, row);
        }
        None => assert!(rt; !certificate && told.reached.is_none()),
    }
}

fn judge_reply(rt: &impl Abort, reply: &Reply, certificate: bool, row: &Row) {
    assert!(rt; told_of(reply) == row.told);
    if let Reply::Nearest(told) = reply {
        assert!(rt; told.from == id(row.from));
        assert!(rt; told.category.as_str() == row.category);
        assert!(rt; told.profile.as_str() == row.profile);
        judge_places(rt, told, row.places);
        judge_certificate(rt, told, certificate, row);
    }
}

fn judge_asked(
    rt: &impl Abort,
    alloc: Global,
    board: &Board,
    certificate: bool,
    row: &Row,
) -> Result<(), Fail> {
    let query = query(alloc, row, certificate)?;
    judge_reply(rt, &board.ask(alloc, &query), certificate, row);
    Ok(())
}

// Each row without its certificate, and with it.
fn judge_board(rt: &impl Abort, alloc: Global, board: &Board, rows: &[Row]) -> Result<(), Fail> {
    for row in rows {
        judge_asked(rt, alloc, board, false, row)?;
        judge_asked(rt, alloc, board, true, row)?;
    }
    Ok(())
}

// Closes a feature for everybody.
fn close(alloc: Global, board: &mut Board, tail: u128) -> Result<(), Fail> {
    let act = Act::Closed(board.closing(id(tail)));
    match board.prepare(alloc, act, 1) {
        Ok(mut ready) => {
            board.apply(&mut ready);
            Ok(())
        }
        Err(_) => Err(Fail::new("it can't be closed")),
    }
}

// These rows at the first board of the station with further amenities, or where a feature is closed, at the second.
fn judge_rows(
    rt: &impl Abort,
    alloc: Global,
    edits: &'static [Edit],
    closed: Option<u128>,
    rows: &[Row],
) -> Result<(), Fail> {
    let settings = Arc::new(alloc, settings_until(alloc, u32::MAX)?)?;
    let venue = venue_of(alloc, &settings, edits)?;
    let mut board = Board::first(alloc, venue, settings)?;
    if let Some(closed) = closed {
        close(alloc, &mut board, closed)?;
    }
    judge_board(rt, alloc, &board, rows)
}

#[test]
fn the_nearest_of_the_station(rt: HostRuntime) -> Result<(), Fail> {
    judge_rows(
        &rt,
        rt.alloc(),
        &[],
        None,
        &[
            near("restroom", &ONE),
            Row {
                from: 0x0052,
                told: Told::Nearest(1, 0x0042),
                ..near("restroom", &BY_THE_LIFT)
            },
            Row {
                limit: 2,
                reached: 25,
                nodes: &WHEELCHAIR,
                ..near("restroom", &ONE)
            },
            Row {
                from: 0x0031,
                told: Told::Nearest(1, 0x0031),
                ..near("restroom", &HERE)
            },
            Row {
                from: 0x0031,
                told: Told::Nearest(1, 0x0031),
                limit: 2,
                reached: 25,
                nodes: &WHEELCHAIR,
                ..near("restroom", &HERE)
            },
            Row {
                profile: "walk",
                limit: 10,
                reached: 31,
                nodes: &WALK,
                ..near("restroom", &ONE)
            },
        ],
    )
}

#[test]
fn the_nearest_of_a_category_that_none_has(rt: HostRuntime) -> Result<(), Fail> {
    judge_rows(
        &rt,
        rt.alloc(),
        &[],
        None,
        &[
            Row {
                reached: 25,
                nodes: &WHEELCHAIR,
                ..near("Restroom", &[])
            },
            Row {
                reached: 25,
                nodes: &WHEELCHAIR,
                ..near(SIXTY_FOUR, &[])
            },
        ],
    )
}

#[test]
fn the_nearest_past_what_is_closed(rt: HostRuntime) -> Result<(), Fail> {
    let alloc = rt.alloc();
    judge_rows(
        &rt,
        alloc,
        &[],
        Some(0x0105),
        &[Row {
            told: Told::Nearest(2, 0x0041),
            reached: 2,
            nodes: &[0x0041, 0x0305],
            ..near("restroom", &[])
        }],
    )?;
    // Where the walkway is closed, whoever stands in it is still there.
    judge_rows(
        &rt,
        alloc,
        &[],
        Some(0x0300),
        &[
            Row {
                from: 0x0031,
                told: Told::Nearest(2, 0x0031),
                ..near("restroom", &HERE)
            },
            Row {
                from: 0x0031,
                told: Told::Nearest(2, 0x0031),
                limit: 2,
                reached: 1,
                nodes: &[0x0031],
                ..near("restroom", &HERE)
            },
        ],
    )
}

#[test]
fn the_nearest_of_equals(rt: HostRuntime) -> Result<(), Fail> {
    let alloc = rt.alloc();
    judge_rows(
        &rt,
        alloc,
        &THREE,
        None,
        &[Row {
            limit: 2,
            beyond: &[0x0034],
            ..near("atm", &TWO_OF_THREE)
        }],
    )?;
    judge_rows(
        &rt,
        alloc,
        &BETWEEN,
        None,
        &[Row {
            beyond: &[0x0033],
            ..near("atm", &BESIDE_ANOTHER)
        }],
    )
}

#[test]
fn the_nearest_of_several(rt: HostRuntime) -> Result<(), Fail> {
    let alloc = rt.alloc();
    judge_rows(
        &rt,
        alloc,
        &RESTROOMS,
        None,
        &[
            Row {
                limit: 10,
                reached: 28,
                ..near("restroom", &ALL)
            },
            Row {
                profile: "walk",
                limit: 10,
                reached: 34,
                ..near("restroom", &ALL_ON_FOOT)
            },
            Row {
                limit: 2,
                beyond: &[0x0034],
                ..near("restroom", &TWO)
            },
        ],
    )?;
    judge_rows(
        &rt,
        alloc,
        &RESTROOMS,
        Some(0x0301),
        &[Row {
            told: Told::Nearest(2, 0x0041),
            limit: 10,
            reached: 27,
            ..near("restroom", &ALL_BY_THE_RAMP)
        }],
    )
}

#[test]
fn the_nearest_in_a_column(rt: HostRuntime) -> Result<(), Fail> {
    judge_rows(
        &rt,
        rt.alloc(),
        &WALLED_IN,
        None,
        &[Row {
            reached: 25,
            nodes: &WHEELCHAIR,
            ..near("atm", &[])
        }],
    )
}

#[test]
fn no_nearest(rt: HostRuntime) -> Result<(), Fail> {
    judge_rows(
        &rt,
        rt.alloc(),
        &[],
        None,
        &[
            Row {
                profile: "bicycle",
                ..refused(Told::NoProfile)
            },
            Row {
                from: 0x0999,
                profile: "bicycle",
                ..refused(Told::NoProfile)
            },
            Row {
                from: 0x0999,
                ..refused(Told::NoPlace(Which::From))
            },
            Row {
                since: Some(9),
                ..refused(Told::Ahead(9, 1))
            },
        ],
    )
}
