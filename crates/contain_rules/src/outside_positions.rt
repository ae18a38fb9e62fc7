//! Which positions a shape doesn't hold.

ghost use Rattle.std.specs.Prelude.{◌∷◌, ◌≤◌, ◌↔◌, IsTrue, flat_map};
ghost use Rattle.plane_exact.specs.Figure.{AllClose, vertices, part_points, ring_points};
ghost use Rattle.contain_rules.specs.Rules.{IsHeld};
ghost use Rattle.contain_rules.specs.Judging.{AreBeside, SomeLeaves};

use plane_trees::Bands;
use venue_types::{Part, Point, Ring, Shape};

/// Whether the position is inside the shape, or near its border.
#[tactic(auto, using(plane_exact::proofs::NearbyLemmas::all_nearby))]
pub(crate) fn is_held(shape: &Bands, tolerance: u32, p: Point) -> bool
    requires close { AllClose (p ∷ vertices shape.now) }
    requires range { tolerance ≤ 1000000 }
    ensures { IsTrue result ↔ IsHeld tolerance shape.now p }
{
    shape.inside(p) || shape.near(p, tolerance)
}

/// Whether there is one of the points that the shape doesn't hold.
pub(crate) fn some_leaves(shape: &Bands, tolerance: u32, points: &[Point]) -> bool
    requires close { AreBeside shape.now points.now }
    requires range { tolerance ≤ 1000000 }
    ensures { IsTrue result ↔ SomeLeaves tolerance shape.now points.now }
{
    for p in points {
        if !is_held(shape, tolerance, *p) {
            return true;
        }
    }
    false
}

/// Whether there is a vertex of the figure that it doesn't hold.
pub(crate) fn figure_leaves(shape: &Bands, tolerance: u32, figure: &Shape) -> bool
    requires close { AreBeside shape.now (vertices figure.now) }
    requires range { tolerance ≤ 1000000 }
    ensures { IsTrue result ↔ SomeLeaves tolerance shape.now (vertices figure.now) }
{
    parts_leave(shape, tolerance, figure.parts.as_slice())
}

// Whether there is one of the polygons' vertices that it doesn't hold.
fn parts_leave(shape: &Bands, tolerance: u32, parts: &[Part]) -> bool
    requires close { AreBeside shape.now (flat_map part_points parts.now) }
    requires range { tolerance ≤ 1000000 }
    ensures { IsTrue result ↔ SomeLeaves tolerance shape.now (flat_map part_points parts.now) }
{
    for part in parts {
        if part_leaves(shape, tolerance, part) {
            return true;
        }
    }
    false
}

// Whether there is one of the polygon's vertices that it doesn't hold.
fn part_leaves(shape: &Bands, tolerance: u32, part: &Part) -> bool
    requires close { AreBeside shape.now (part_points part.now) }
    requires range { tolerance ≤ 1000000 }
    ensures { IsTrue result ↔ SomeLeaves tolerance shape.now (part_points part.now) }
{
    some_leaves(shape, tolerance, part.outer.points.as_slice())
        || rings_leave(shape, tolerance, part.holes.as_slice())
}

// Whether there is one of the rings' points that it doesn't hold.
fn rings_leave(shape: &Bands, tolerance: u32, rings: &[Ring]) -> bool
    requires close { AreBeside shape.now (ring_points rings.now) }
    requires range { tolerance ≤ 1000000 }
    ensures { IsTrue result ↔ SomeLeaves tolerance shape.now (ring_points rings.now) }
{
    for ring in rings {
        if some_leaves(shape, tolerance, ring.points.as_slice()) {
            return true;
        }
    }
    false
}
