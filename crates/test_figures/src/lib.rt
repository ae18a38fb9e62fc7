//! For tests alone: rings and polygons of positions near the middle, which several crates' tests share. No contract of the program
//! rests on it.
#![tactic(auto)]

ghost use Rattle.std.specs.Prelude.{◌≡◌, ◌+◌, All, IfOk, length};
ghost use Rattle.test_figures.specs.Boxes.{IsInBox};
ghost use Rattle.plane_exact.specs.Figure.{part_points, vertices};

use std::alloc::{AllocError, Global};
use venue_types::{List, Part, Point, Ring, Shape};

/// A position at most 100,000,000 from the middle on each axis, so that any two are close.
pub fn at(place: (i64, i64)) -> Point
    ensures { IsInBox result }
{
    Point {
        x: place.0.clamp(-100_000_000, 100_000_000),
        y: place.1.clamp(-100_000_000, 100_000_000),
    }
}

pub fn ring(alloc: Global, points: &[(i64, i64)]) -> Result<Ring, AllocError>
    ensures inside { IfOk result (λ ring. All IsInBox ring.points) }
    ensures count { IfOk result (λ ring. length ring.points ≡ length points.now) }
{
    let mut list = Vec::new(alloc);
    for point in points {
        list.push(at(*point))?;
    }
    Ok(Ring {
        points: List::from_vec(list),
    })
}

/// A polygon with one hole, which may have no position.
pub fn part(alloc: Global, outer: &[(i64, i64)], hole: &[(i64, i64)]) -> Result<Part, AllocError>
    ensures inside { IfOk result (λ part. All IsInBox (part_points part)) }
    ensures count { IfOk result (λ part. length (part_points part) ≡ length outer.now + length hole.now) }
{
    let outer = ring(alloc, outer)?;
    let hole = ring(alloc, hole)?;
    Ok(Part {
        outer,
        holes: List::from_vec(vec![in alloc; hole]?),
    })
}

/// The shape of one such polygon.
pub fn polygon(
    alloc: Global,
    outer: &[(i64, i64)],
    hole: &[(i64, i64)],
) -> Result<Shape, AllocError>
    ensures inside { IfOk result (λ shape. All IsInBox (vertices shape)) }
    ensures count { IfOk result (λ shape. length (vertices shape) ≡ length outer.now + length hole.now) }
{
    let part = part(alloc, outer, hole)?;
    Ok(Shape {
        parts: List::from_vec(vec![in alloc; part]?),
    })
}
