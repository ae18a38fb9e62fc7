//! The corners of a shape, at which one turns who walks round a wall.

ghost use Rattle.std.specs.Prelude.{◌≡◌, [], ◌∷◌, ◌++◌, ◌*ℤ◌, neg_ℤ, pos, int_lt, cond, IfOk, flat_map};
ghost use Rattle.plane_exact.specs.Plane.{IsNearby};
ghost use Rattle.plane_exact.specs.Figure.{AllNearby, vertices, part_points, ring_points};
ghost use Rattle.plane_exact.specs.Corners.{doubled_area, corners, part_corners, hole_corners, ring_corners, line_corners, is_corner, point_before, before_last};

use crate::areas::bounded_area;
use crate::numbers::cross_product;
use std::alloc::Global;
use venue_types::{List, OutOfMemory, Part, Point, Ring, Shape};

/// The corners of the shape, by polygon, ring and place: where its border turns against its area, and that of a hole with it.
pub fn corners(alloc: Global, shape: &Shape) -> Result<List<Point>, OutOfMemory>
    requires { AllNearby (vertices shape.now) }
    ensures { IfOk result (λ list. list ≡ corners shape.now) }
{
    let mut list = Vec::new(alloc);
    for part in shape.parts.as_slice() {
        add_part(part, &mut list)?;
    }
    Ok(List::from_vec(list))
}

// Adds the corners of the polygon.
fn add_part(part: &Part, list: &mut Vec<Point>) -> Result<(), OutOfMemory>
    requires { AllNearby (part_points part.now) }
    ensures { IfOk result (λ _. list.new.items ≡ list.old.items ++ part_corners part.now) }
{
    let outer = &part.outer;
    add_ring(outer, bounded_area(outer), list)?;
    add_holes(part.holes.as_slice(), list)
}

// Adds the corners of the holes, whose areas count the other way round.
fn add_holes(holes: &[Ring], list: &mut Vec<Point>) -> Result<(), OutOfMemory>
    requires { AllNearby (ring_points holes.now) }
    ensures { IfOk result (λ _. list.new.items ≡ list.old.items ++ flat_map hole_corners holes.now) }
{
    for hole in holes {
        add_ring(hole, turned_area(hole), list)?;
    }
    Ok(())
}

/// Twice the area of a hole as its polygon sees it, which lies outside of it.
pub(crate) fn turned_area(hole: &Ring) -> i128
    requires { AllNearby hole.now.points }
    ensures { result ≡ neg_ℤ (doubled_area hole.now) }
{
    -bounded_area(hole)
}

// Adds the corners of a ring of that area.
fn add_ring(ring: &Ring, area: i128, list: &mut Vec<Point>) -> Result<(), OutOfMemory>
    requires { AllNearby ring.now.points }
    ensures { IfOk result (λ _. list.new.items ≡ list.old.items ++ ring_corners area ring.now) }
{
    match ring.points.as_slice() {
        [] => Ok(()),
        [first, rest @ ..] => add_line(last_but_one(*first, rest), *first, rest, area, list),
    }
}

/// The point from which one comes to the first of a ring, equal neighbours taken once. The last is the first again.
pub(crate) fn last_but_one(first: Point, rest: &[Point]) -> Point
    ensures { result ≡ before_last first first rest.now }
{
    match rest {
        [] => first,
        [line @ .., last] => last_other(first, line, *last),
    }
}

// The point of the line that is nearest to its end and isn't `last`, or `first` where each is.
fn last_other(first: Point, line: &[Point], last: Point) -> Point
    ensures { result ≡ before_last first first (line.now ++ last ∷ []) }
{
    for i in 0..line.len() {
        let point = line[line.len() - 1 - i];
        if last != point {
            return point;
        }
    }
    first
}

// Adds the corners of the line that comes from `before` to `at` and goes on through `rest`.
fn add_line(
    before: Point,
    at: Point,
    rest: &[Point],
    area: i128,
    list: &mut Vec<Point>,
) -> Result<(), OutOfMemory>
    requires { AllNearby (before ∷ at ∷ rest.now) }
    ensures { IfOk result (λ _. list.new.items ≡ list.old.items ++ line_corners area before at rest.now) }
{
    let mut a = before;
    let mut b = at;
    for c in rest {
        add_if(is_corner(a, b, *c, area), b, list)?;
        a = point_before(a, b, *c);
        b = *c;
    }
    Ok(())
}

/// The point from which one comes to `c`, who came from `a` to `b`. Equal neighbours are one point.
pub(crate) fn point_before(a: Point, b: Point, c: Point) -> Point
    ensures { result ≡ point_before a b c }
{
    if c == b { a } else { b }
}

// Adds the point where the fact holds.
fn add_if(holds: bool, point: Point, list: &mut Vec<Point>) -> Result<(), OutOfMemory>
    ensures { IfOk result (λ _. list.new.items ≡ list.old.items ++ cond holds (point ∷ []) []) }
{
    if holds {
        list.push(point)?;
    }
    Ok(())
}

/// Whether one turns against the area, who comes from `before` to `at` and goes on to `behind`. Between equal points there is no turn.
pub(crate) fn is_corner(before: Point, at: Point, behind: Point, area: i128) -> bool
    requires step { IsNearby before at }
    requires turn { IsNearby before behind }
    ensures { result ≡ is_corner area (record { before = before; at = at; behind = behind }) }
{
    is_against(cross_product(before, at, behind), area)
}

// Whether the two are of opposite signs, told without their product, which may not fit 128 bits.
fn is_against(side: i64, area: i128) -> bool
    ensures { result ≡ int_lt (side *ℤ area) (pos 0) }
{
    if side < 0 {
        0 < area
    } else {
        0 < side && area < 0
    }
}
