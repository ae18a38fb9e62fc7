//! How many corners a shape has.

ghost use Rattle.std.specs.Prelude.{◌≡◌, ◌≤◌, ◌∷◌, length, flat_map};
ghost use Rattle.plane_exact.specs.Figure.{AllNearby, vertices, part_points, ring_points};
ghost use Rattle.plane_exact.specs.Corners.{corners, part_corners, hole_corners, ring_corners, line_corners};

use crate::areas::bounded_area;
use crate::turns::{is_corner, last_but_one, point_before, turned_area};
use venue_types::{Part, Point, Ring, Shape};

/// How many corners the shape has, told without memory.
pub fn corner_count(shape: &Shape) -> u32
    requires near { AllNearby (vertices shape.now) }
    requires few { length (vertices shape.now) ≤ 4294967295 }
    ensures { result ≡ length (corners shape.now) }
{
    let mut count = 0;
    for part in shape.parts.as_slice() {
        count += part_count(part);
    }
    count
}

// How many corners the polygon has.
fn part_count(part: &Part) -> u32
    requires near { AllNearby (part_points part.now) }
    requires few { length (part_corners part.now) ≤ 4294967295 }
    ensures { result ≡ length (part_corners part.now) }
{
    let outer = &part.outer;
    ring_count(outer, bounded_area(outer)) + hole_count(part.holes.as_slice())
}

// How many corners the holes have, whose areas count the other way round.
fn hole_count(holes: &[Ring]) -> u32
    requires near { AllNearby (ring_points holes.now) }
    requires few { length (flat_map hole_corners holes.now) ≤ 4294967295 }
    ensures { result ≡ length (flat_map hole_corners holes.now) }
{
    let mut count = 0;
    for hole in holes {
        count += ring_count(hole, turned_area(hole));
    }
    count
}

// How many corners a ring of that area has.
fn ring_count(ring: &Ring, area: i128) -> u32
    requires near { AllNearby ring.now.points }
    requires few { length (ring_corners area ring.now) ≤ 4294967295 }
    ensures { result ≡ length (ring_corners area ring.now) }
{
    match ring.points.as_slice() {
        [] => 0,
        [first, rest @ ..] => line_count(last_but_one(*first, rest), *first, rest, area),
    }
}

// How many corners the line has that comes from `before` to `at` and goes on through `rest`.
fn line_count(before: Point, at: Point, rest: &[Point], area: i128) -> u32
    requires near { AllNearby (before ∷ at ∷ rest.now) }
    requires few { length (line_corners area before at rest.now) ≤ 4294967295 }
    ensures { result ≡ length (line_corners area before at rest.now) }
{
    let mut count = 0;
    let mut a = before;
    let mut b = at;
    for c in rest {
        count += is_corner(a, b, *c, area) as u32;
        a = point_before(a, b, *c);
        b = *c;
    }
    count
}
