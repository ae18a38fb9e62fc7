//! The edges of a unit's border, and which entries may be near them.

ghost use Rattle.std.specs.Prelude.{◌≡◌, ◌↔◌, ℕ, ◌≤◌, ℤ, pos, ◌+ℤ◌, ◌-ℤ◌, ◌*ℤ◌, ◌≤ℤ◌, unsigned_abs, ◌*◌, ◌+◌, ◌∷◌, IsTrue, IfOk, OnOk};
ghost use Rattle.venue_types.specs.declared.point.Point.{Point};
ghost use Rattle.plane_exact.specs.Plane.{IsNearby, IsWithin};
ghost use Rattle.plane_exact.specs.Segment.{IsNearEdge};
ghost use Rattle.plane_exact.specs.Figure.{all_edges, vertices, edges, edges_from, part_edges, part_points};
ghost use Rattle.opening_match.specs.Edges.{AreEdges, AddsEdges};
ghost use Rattle.opening_match.specs.Extents.{IsInBox};

use crate::extents::Extent;
use std::alloc::Global;
use venue_types::{OutOfMemory, Part, Point, Ring, Shape};

// How far two nearby positions lie apart at most on each axis, in nanodegrees.
const FARTHEST: i128 = 800_000_000;

/// A straight line between two neighbours of a ring.
#[derive(Clone, Copy, Debug, PartialEq, Eq)]
pub(crate) struct Edge {
    pub from: Point,
    pub to: Point,
}

/// The edges of all rings of a shape, polygon by polygon.
pub(crate) fn edges_of(alloc: Global, shape: &Shape) -> Result<Vec<Edge>, OutOfMemory>
    ensures { IfOk result (λ list. AreEdges (all_edges shape.now) (vertices shape.now) list.items) }
{
    let mut list = Vec::new(alloc);
    for part in shape.parts.as_slice() {
        add_part(&mut list, part)?;
    }
    Ok(list)
}

// Adds the edges of a polygon.
fn add_part(list: &mut Vec<Edge>, part: &Part) -> Result<(), OutOfMemory>
    ensures { OnOk result (AddsEdges (part_edges part.now) (part_points part.now) list.old.items list.new.items) }
{
    add_ring(list, &part.outer)?;
    for hole in part.holes.as_slice() {
        add_ring(list, hole)?;
    }
    Ok(())
}

// Adds the edges of a ring.
fn add_ring(list: &mut Vec<Edge>, ring: &Ring) -> Result<(), OutOfMemory>
    ensures { OnOk result (AddsEdges (edges ring.now.points) ring.now.points list.old.items list.new.items) }
{
    match ring.points.as_slice() {
        [] => Ok(()),
        [first, rest @ ..] => add_line(list, *first, rest),
    }
}

// Adds the edges of the line from `start` through `rest`.
fn add_line(list: &mut Vec<Edge>, start: Point, rest: &[Point]) -> Result<(), OutOfMemory>
    ensures { OnOk result (AddsEdges (edges_from start rest.now) (start ∷ rest.now) list.old.items list.new.items) }
{
    let mut from = start;
    for to in rest {
        list.push(Edge { from, to: *to })?;
        from = *to;
    }
    Ok(())
}

impl Edge {
    /// Whether a position in the extent's box may be within the tolerance of the edge: the box comes within the tolerance of the edge's own
    /// box, and of the line through the edge.
    pub fn comes_near(&self, extent: &Extent, tolerance: u32) -> bool
        requires { tolerance ≤ 100000 }
        ensures { (p : Point) → IsInBox extent.now p → IsNearby self.now.from self.now.to → IsNearby self.now.from p → IsNearEdge p self.now.from self.now.to tolerance → IsTrue result }
    {
        overlap(self.from.x, self.to.x, extent.west, extent.east, tolerance)
            && overlap(
                self.from.y,
                self.to.y,
                extent.south,
                extent.north,
                tolerance,
            )
            && self.line_comes_near(extent, tolerance)
    }

    // Whether the box has positions on both sides of the line through the edge, or comes within the tolerance of it.
    fn line_comes_near(&self, extent: &Extent, tolerance: u32) -> bool
        requires { tolerance ≤ 100000 }
        ensures { (p : Point) → IsInBox extent.now p → IsNearby self.now.from self.now.to → IsNearby self.now.from p → IsNearEdge p self.now.from self.now.to tolerance → IsTrue result }
    {
        let x = apart(self.from.x, self.to.x);
        let y = apart(self.from.y, self.to.y);
        let up = products(
            x,
            apart(self.from.y, extent.south),
            apart(self.from.y, extent.north),
        );
        let right = products(
            y,
            apart(self.from.x, extent.west),
            apart(self.from.x, extent.east),
        );
        let slack = slack_of(tolerance, x, y);
        is_within(up.least, right.greatest, slack) && is_within(right.least, up.greatest, slack)
    }
}

// How far the two products may lie apart at a position within the tolerance of the line that goes on by `x` and `y`.
fn slack_of(tolerance: u32, x: i64, y: i64) -> i64
    requires tolerance { tolerance ≤ 100000 }
    requires x { IsWithin 800000000 x (pos 0) }
    requires y { IsWithin 800000000 y (pos 0) }
    ensures { result ≡ pos (tolerance * (unsigned_abs x + unsigned_abs y)) }
{
    (tolerance as i64) * (x.abs() + y.abs())
}

// Whether the stretch from `least` to `greatest` comes within the tolerance of the one from `a` to `b`.
fn overlap(a: i64, b: i64, least: i64, greatest: i64, tolerance: u32) -> bool
    ensures { (n : ℤ) → least ≤ℤ n → n ≤ℤ greatest → ((bound : ℤ) → bound ≤ℤ a → bound ≤ℤ b → bound ≤ℤ (n +ℤ pos tolerance)) → ((bound : ℤ) → a ≤ℤ bound → b ≤ℤ bound → n ≤ℤ (bound +ℤ pos tolerance)) → IsTrue result }
{
    let slack = tolerance as i64;
    is_within(least, a.max(b), slack) && is_within(a.min(b), greatest, slack)
}

// Whether the first number is no greater than the second, or greater by no more than the slack.
fn is_within(m: i64, n: i64, slack: i64) -> bool
    ensures { IsTrue result ↔ (m ≤ℤ (n +ℤ slack)) }
{
    m as i128 <= n as i128 + slack as i128
}

// How far `to` lies beyond `from`, or 800,000,000 to its side where it is farther.
fn apart(from: i64, to: i64) -> i64
    ensures range { IsWithin 800000000 result (pos 0) }
    ensures exact { IsWithin 800000000 from to → result ≡ to -ℤ from }
    ensures above { (n : ℤ) → IsWithin 800000000 from n → n ≤ℤ to → (n -ℤ from) ≤ℤ result }
    ensures below { (n : ℤ) → IsWithin 800000000 from n → to ≤ℤ n → result ≤ℤ (n -ℤ from) }
{
    (to as i128 - from as i128).clamp(-FARTHEST, FARTHEST) as i64
}

// The least and the greatest of some numbers.
#[derive(Clone, Copy, Debug, PartialEq, Eq)]
struct Range {
    least: i64,
    greatest: i64,
}

// The range of the products of `d` and the numbers from `low` to `high`.
fn products(d: i64, low: i64, high: i64) -> Range
    requires factor { IsWithin 800000000 d (pos 0) }
    requires low { IsWithin 800000000 low (pos 0) }
    requires high { IsWithin 800000000 high (pos 0) }
    ensures least { (q : ℤ) → low ≤ℤ q → q ≤ℤ high → result.least ≤ℤ (d *ℤ q) }
    ensures greatest { (q : ℤ) → low ≤ℤ q → q ≤ℤ high → (d *ℤ q) ≤ℤ result.greatest }
{
    if 0 <= d {
        Range {
            least: d * low,
            greatest: d * high,
        }
    } else {
        Range {
            least: d * high,
            greatest: d * low,
        }
    }
}
