//! Rooms with walls: who sees whom in them, and at which corners one turns. The answers were worked out apart from the program.

ghost use Rattle.std.specs.Prelude.{◌≤◌, All, IfOk, length};
ghost use Rattle.test_figures.specs.Boxes.{IsInBox, IsInDoubledBox, IsInWideBox};
ghost use Rattle.plane_exact.specs.Figure.{vertices};

use plane_exact::{corner_count, corners, edge_count, scaled, sight};
use plane_trees::Bands;
use std::alloc::{AllocError, Global};
use std::process::Abort;
use std::test::Fail;
use test_figures::{at, part, polygon};
use venue_types::{List, Point, Shape, Spot};

const FAR: i64 = 100_000_000;

/// How many places an outline may have that `has_corners` looks at.
const MOST_PLACES: usize = 1_000;

/// The rooms, of which a metre has 10,000 nanodegrees.
#[derive(Clone, Copy)]
pub(crate) enum Room {
    /// A hall with an L for a plan.
    Ell,
    /// A square round a square court.
    Court,
    /// A square of 10 metres.
    Square,
    /// A box of 40 by 20 metres with two doorways in its south side, whose jambs stand in the ring.
    Jambs,
    /// That box with a wall in it that has a thickness.
    Fin,
    /// The same with a wall that has none.
    Spike,
    /// The box with a hole that touches its south side in a point.
    Kite,
    /// The box with a hole that lies along its south side.
    Niche,
    /// Two squares beside each other.
    Pair,
    /// Two boxes that overlap.
    Overlap,
    /// Two squares apart.
    Apart,
    /// A square as large as positions may lie apart, with the half of it as a hole.
    Wide,
}

pub(crate) const ROOMS: [Room; 12] = [
    Room::Ell,
    Room::Court,
    Room::Square,
    Room::Jambs,
    Room::Fin,
    Room::Spike,
    Room::Kite,
    Room::Niche,
    Room::Pair,
    Room::Overlap,
    Room::Apart,
    Room::Wide,
];

fn two_parts(
    alloc: Global,
    first: &[(i64, i64)],
    second: &[(i64, i64)],
) -> Result<Shape, AllocError>
    ensures { IfOk result (λ shape. All IsInBox (vertices shape)) }
{
    let first = part(alloc, first, &[])?;
    let second = part(alloc, second, &[])?;
    Ok(Shape {
        parts: List::from_vec(vec![in alloc; first, second]?),
    })
}

fn box_of(left: i64, low: i64, right: i64, high: i64) -> [(i64, i64); 5] {
    [
        (left, low),
        (right, low),
        (right, high),
        (left, high),
        (left, low),
    ]
}

const ELL: [(i64, i64); 7] = [
    (0, 0),
    (400_000, 0),
    (400_000, 100_000),
    (100_000, 100_000),
    (100_000, 400_000),
    (0, 400_000),
    (0, 0),
];

const COURT: [(i64, i64); 5] = [
    (150_000, 150_000),
    (150_000, 250_000),
    (250_000, 250_000),
    (250_000, 150_000),
    (150_000, 150_000),
];

const JAMBS: [(i64, i64); 9] = [
    (0, 0),
    (90_000, 0),
    (110_000, 0),
    (290_000, 0),
    (310_000, 0),
    (400_000, 0),
    (400_000, 200_000),
    (0, 200_000),
    (0, 0),
];

const FIN: [(i64, i64); 9] = [
    (0, 0),
    (199_000, 0),
    (199_000, 150_000),
    (201_000, 150_000),
    (201_000, 0),
    (400_000, 0),
    (400_000, 200_000),
    (0, 200_000),
    (0, 0),
];

const SPIKE: [(i64, i64); 8] = [
    (0, 0),
    (200_000, 0),
    (200_000, 150_000),
    (200_000, 0),
    (400_000, 0),
    (400_000, 200_000),
    (0, 200_000),
    (0, 0),
];

const KITE: [(i64, i64); 5] = [
    (200_000, 0),
    (150_000, 50_000),
    (200_000, 100_000),
    (250_000, 50_000),
    (200_000, 0),
];

const NICHE: [(i64, i64); 5] = [
    (150_000, 0),
    (150_000, 100_000),
    (250_000, 100_000),
    (250_000, 0),
    (150_000, 0),
];

pub(crate) fn drawn(alloc: Global, which: Room) -> Result<Shape, AllocError>
    ensures { IfOk result (λ shape. All IsInBox (vertices shape)) }
{
    match which {
        Room::Ell => polygon(alloc, &ELL, &[]),
        Room::Court => polygon(alloc, &box_of(0, 0, 400_000, 400_000), &COURT),
        Room::Square => polygon(alloc, &box_of(0, 0, 100_000, 100_000), &[]),
        Room::Jambs => polygon(alloc, &JAMBS, &[]),
        Room::Fin => polygon(alloc, &FIN, &[]),
        Room::Spike => polygon(alloc, &SPIKE, &[]),
        Room::Kite => polygon(alloc, &box_of(0, 0, 400_000, 200_000), &KITE),
        Room::Niche => polygon(alloc, &box_of(0, 0, 400_000, 200_000), &NICHE),
        Room::Pair => two_parts(
            alloc,
            &box_of(0, 0, 100_000, 100_000),
            &box_of(100_000, 0, 200_000, 100_000),
        ),
        Room::Overlap => two_parts(
            alloc,
            &box_of(0, 0, 120_000, 100_000),
            &box_of(80_000, 0, 200_000, 100_000),
        ),
        Room::Apart => two_parts(
            alloc,
            &box_of(0, 0, 100_000, 100_000),
            &box_of(300_000, 0, 400_000, 100_000),
        ),
        Room::Wide => polygon(
            alloc,
            &box_of(-FAR, -FAR, FAR, FAR),
            &box_of(-FAR / 2, -FAR / 2, FAR / 2, FAR / 2),
        ),
    }
}

/// A position as a spot.
pub(crate) fn spot_of(place: (i64, i64)) -> Spot
    ensures { IsInDoubledBox result }
{
    let p = at(place);
    Spot {
        x: p.x * 2,
        y: p.y * 2,
    }
}

/// By a look at every wall.
pub(crate) fn sees(room: &Shape, t: u32, a: Spot, b: Spot) -> bool
    requires room { All IsInBox (vertices room.now) }
    requires from { IsInDoubledBox a }
    requires to { IsInDoubledBox b }
{
    sight(a, b, room, u32::min(t, 1_000_000))
}

fn doubled(a: Spot) -> Point
    requires { IsInDoubledBox a }
    ensures { IsInWideBox result }
{
    Point {
        x: a.x * 2,
        y: a.y * 2,
    }
}

fn middle(a: Spot, b: Spot) -> Point
    requires from { IsInDoubledBox a }
    requires to { IsInDoubledBox b }
    ensures { IsInWideBox result }
{
    Point {
        x: a.x + b.x,
        y: a.y + b.y,
    }
}

/// By the tree of the room with all its numbers taken four times.
fn sees_by_tree(room: &Bands, t: u32, a: Spot, b: Spot) -> bool
    requires room { All IsInWideBox (vertices room.now) }
    requires from { IsInDoubledBox a }
    requires to { IsInDoubledBox b }
{
    let t = u32::min(t, 1_000_000) * 4;
    let middle = middle(a, b);
    room.wall_between(doubled(a), doubled(b), t).is_none()
        && (room.inside(middle) || room.near(middle, t))
}

fn fourfold(alloc: Global, room: &Shape) -> Result<Shape, AllocError>
    requires { All IsInBox (vertices room.now) }
    ensures { IfOk result (λ shape. All IsInWideBox (vertices shape)) }
{
    match scaled(alloc, room, 4) {
        Ok(shape) => Ok(shape),
        Err(_) => Err(AllocError),
    }
}

#[test]
fn who_sees_whom(rt: HostRuntime) -> Result<(), Fail> {
    let alloc = rt.alloc();
    let table = [
        (
            Room::Ell,
            1_000,
            (350_000, 50_000),
            (50_000, 350_000),
            false,
        ),
        (
            Room::Ell,
            1_000,
            (350_000, 50_000),
            (100_000, 100_000),
            true,
        ),
        (
            Room::Ell,
            1_000,
            (200_000, 200_000),
            (350_000, 50_000),
            false,
        ),
        (
            Room::Ell,
            1_000,
            (200_000, 200_000),
            (50_000, 350_000),
            false,
        ),
        (
            Room::Ell,
            1_000,
            (200_000, 200_000),
            (100_000, 100_000),
            false,
        ),
        (
            Room::Ell,
            5_000,
            (50_000, 150_000),
            (150_000, 50_000),
            false,
        ),
        (Room::Ell, 5_000, (50_000, 140_000), (140_000, 50_000), true),
        (Room::Ell, 5_000, (97_000, 103_000), (103_000, 97_000), true),
        (
            Room::Ell,
            5_000,
            (96_000, 104_000),
            (104_000, 96_000),
            false,
        ),
        (Room::Ell, 5_000, (50_000, 50_000), (50_000, 50_000), true),
        (
            Room::Ell,
            5_000,
            (200_000, 200_000),
            (200_000, 200_000),
            false,
        ),
        (
            Room::Court,
            1_000,
            (50_000, 200_000),
            (350_000, 200_000),
            false,
        ),
        (
            Room::Court,
            1_000,
            (50_000, 150_000),
            (350_000, 150_000),
            false,
        ),
        (
            Room::Court,
            1_000,
            (50_000, 140_000),
            (350_000, 140_000),
            true,
        ),
        (
            Room::Square,
            1_000,
            (101_000, 50_000),
            (50_000, 50_000),
            true,
        ),
        (
            Room::Square,
            1_000,
            (101_001, 50_000),
            (50_000, 50_000),
            false,
        ),
        (Room::Jambs, 9_999, (100_000, 0), (300_000, 0), false),
        (Room::Jambs, 10_000, (100_000, 0), (300_000, 0), true),
        (Room::Jambs, 0, (100_000, 0), (300_000, 100_000), true),
        (Room::Fin, 5_000, (194_000, 50_000), (206_000, 50_000), true),
        (
            Room::Fin,
            5_000,
            (100_000, 50_000),
            (300_000, 50_000),
            false,
        ),
        (Room::Fin, 5_000, (198_000, 50_000), (300_000, 50_000), true),
        (
            Room::Fin,
            5_000,
            (195_000, 50_000),
            (300_000, 50_000),
            false,
        ),
        (
            Room::Fin,
            1_000,
            (197_000, 50_000),
            (203_000, 50_000),
            false,
        ),
        (
            Room::Spike,
            5_000,
            (100_000, 50_000),
            (300_000, 50_000),
            false,
        ),
        (
            Room::Spike,
            5_000,
            (100_000, 150_000),
            (300_000, 150_000),
            false,
        ),
        (
            Room::Spike,
            5_000,
            (100_000, 180_000),
            (300_000, 180_000),
            true,
        ),
        (Room::Kite, 5_000, (100_000, 0), (300_000, 0), false),
        (Room::Kite, 5_000, (100_000, 0), (200_000, 0), true),
        (Room::Kite, 5_000, (100_000, 10_000), (200_000, 0), true),
        (Room::Niche, 0, (150_000, 0), (250_000, 0), true),
        (
            Room::Pair,
            5_000,
            (50_000, 50_000),
            (150_000, 50_000),
            false,
        ),
        (Room::Pair, 5_000, (50_000, 50_000), (100_000, 50_000), true),
        (
            Room::Overlap,
            5_000,
            (50_000, 50_000),
            (150_000, 50_000),
            false,
        ),
        (
            Room::Overlap,
            5_000,
            (50_000, 50_000),
            (100_000, 50_000),
            false,
        ),
    ];
    for (which, t, from, to, want) in table {
        let shape = drawn(alloc, which)?;
        let wide = fourfold(alloc, &shape)?;
        let bands = Bands::of(alloc, &wide)?;
        let a = spot_of(from);
        let b = spot_of(to);
        assert!(rt; sees(&shape, t, a, b) == want);
        assert!(rt; sees(&shape, t, b, a) == want);
        assert!(rt; sees_by_tree(&bands, t, a, b) == want);
    }
    Ok(())
}

/// Place `k` of 60 on a grid, ten in a row, `step` apart.
fn place(k: i64, corner: i64, step: i64) -> (i64, i64) {
    (
        corner.saturating_add((k % 10).saturating_mul(step)),
        corner.saturating_add((k / 10).saturating_mul(step)),
    )
}

fn assert_alike(rt: &impl Abort, shape: &Shape, bands: &Bands, corner: i64, step: i64)
    requires shape { All IsInBox (vertices shape.now) }
    requires bands { All IsInWideBox (vertices bands.now) }
{
    for t in [0, 1_000, 1_000_000] {
        for i in 0..60i64 {
            let a = spot_of(place(i, corner, step));
            for j in 0..60i64 {
                let b = spot_of(place(j, corner, step));
                assert!(rt; sees(shape, t, a, b) == sees_by_tree(bands, t, a, b));
            }
        }
    }
}

#[test]
fn the_tree_sees_alike(rt: HostRuntime) -> Result<(), Fail> {
    let alloc = rt.alloc();
    for which in ROOMS {
        let shape = drawn(alloc, which)?;
        let wide = fourfold(alloc, &shape)?;
        let bands = Bands::of(alloc, &wide)?;
        assert_alike(&rt, &shape, &bands, 0, 50_000);
        assert_alike(&rt, &shape, &bands, -FAR, 2 * FAR / 9);
    }
    Ok(())
}

fn corners_at(alloc: Global, shape: &Shape) -> Result<List<Point>, AllocError>
    requires { All IsInBox (vertices shape.now) }
{
    match corners(alloc, shape) {
        Ok(list) => Ok(list),
        Err(_) => Err(AllocError),
    }
}

fn are_at(points: &[Point], places: &[(i64, i64)]) -> bool {
    points.len() == places.len()
        && points
            .iter()
            .zip(places.iter())
            .all(|(point, place)| *point == at(*place))
}

/// Whether the shape has so many corners and edges.
fn has_counts(shape: &Shape, corners: usize, edges: usize) -> bool
    requires room { All IsInBox (vertices shape.now) }
    requires few { length (vertices shape.now) ≤ 4294967295 }
{
    corner_count(shape) as usize == corners && edge_count(shape) as usize == edges
}

/// Whether the room of two outlines of at most 1,000 places has these corners, and the counts tell how many corners and edges.
fn has_corners(
    alloc: Global,
    outer: &[(i64, i64)],
    hole: &[(i64, i64)],
    want: &[(i64, i64)],
) -> Result<bool, AllocError> {
    if outer.len() > MOST_PLACES || hole.len() > MOST_PLACES {
        return Ok(false);
    }
    let shape = polygon(alloc, outer, hole)?;
    let found = corners_at(alloc, &shape)?;
    let edges = outer.len().saturating_sub(1) + hole.len().saturating_sub(1);
    Ok(are_at(found.as_slice(), want) && has_counts(&shape, want.len(), edges))
}

#[test]
fn corners_of_rooms(rt: HostRuntime) -> Result<(), Fail> {
    let alloc = rt.alloc();
    let hall = box_of(0, 0, 400_000, 200_000);
    let inner = [(100_000, 100_000)];
    assert!(rt; has_corners(alloc, &ELL, &[], &inner)?);
    // Turned round, and with its corner twice.
    let turned = [
        (0, 0),
        (0, 400_000),
        (100_000, 400_000),
        (100_000, 100_000),
        (400_000, 100_000),
        (400_000, 0),
        (0, 0),
    ];
    assert!(rt; has_corners(alloc, &turned, &[], &inner)?);
    let twice = [
        (0, 0),
        (400_000, 0),
        (400_000, 100_000),
        (100_000, 100_000),
        (100_000, 100_000),
        (100_000, 400_000),
        (0, 400_000),
        (0, 0),
    ];
    assert!(rt; has_corners(alloc, &twice, &[], &inner)?);
    let court = box_of(0, 0, 400_000, 400_000);
    assert!(rt; has_corners(alloc, &court, &COURT, &COURT[..4])?);
    assert!(rt; has_corners(alloc, &JAMBS, &[], &[])?);
    assert!(rt; has_corners(alloc, &SPIKE, &[], &[])?);
    let tip = [(199_000, 150_000), (201_000, 150_000)];
    assert!(rt; has_corners(alloc, &FIN, &[], &tip)?);
    assert!(rt; has_corners(alloc, &hall, &KITE, &KITE[..4])?);
    // A comb whose first place is one of its corners, and stands three times.
    let comb = [
        (200_000, 100_000),
        (200_000, 200_000),
        (100_000, 200_000),
        (100_000, 100_000),
        (0, 100_000),
        (0, 0),
        (400_000, 0),
        (400_000, 200_000),
        (300_000, 200_000),
        (300_000, 100_000),
        (200_000, 100_000),
        (200_000, 100_000),
    ];
    let teeth = [(200_000, 100_000), (100_000, 100_000), (300_000, 100_000)];
    assert!(rt; has_corners(alloc, &comb, &[], &teeth)?);
    let pair = drawn(alloc, Room::Pair)?;
    let none = corners_at(alloc, &pair)?;
    assert!(rt; none.is_empty());
    Ok(())
}
