//! Figures with all their numbers multiplied.

ghost use Rattle.std.specs.Prelude.{◌≡◌, ◌≤◌, All, IfOk, map};
ghost use Rattle.plane_exact.specs.Plane.{IsInRange};
ghost use Rattle.plane_exact.specs.Figure.{vertices, part_points};
ghost use Rattle.plane_exact.specs.Scaled.{times, scaled, scaled_part, scaled_ring};

use std::alloc::Global;
use venue_types::{List, OutOfMemory, Part, Point, Ring, Shape};

/// The shape with all its coordinates multiplied by `k`.
pub fn scaled(alloc: Global, shape: &Shape, k: u32) -> Result<Shape, OutOfMemory>
    requires factor { k ≤ 4 }
    requires range { All IsInRange (vertices shape.now) }
    ensures { IfOk result (λ made. made ≡ scaled k shape.now) }
{
    let mut parts = Vec::new(alloc);
    for part in shape.parts.as_slice() {
        parts.push(scaled_part(alloc, part, k)?)?;
    }
    Ok(Shape {
        parts: List::from_vec(parts),
    })
}

// The polygon with all its coordinates multiplied by `k`.
fn scaled_part(alloc: Global, part: &Part, k: u32) -> Result<Part, OutOfMemory>
    requires factor { k ≤ 4 }
    requires range { All IsInRange (part_points part.now) }
    ensures { IfOk result (λ made. made ≡ scaled_part k part.now) }
{
    let outer = scaled_ring(alloc, &part.outer, k)?;
    let mut holes = Vec::new(alloc);
    for hole in part.holes.as_slice() {
        holes.push(scaled_ring(alloc, hole, k)?)?;
    }
    Ok(Part {
        outer,
        holes: List::from_vec(holes),
    })
}

// The ring with all its coordinates multiplied by `k`.
fn scaled_ring(alloc: Global, ring: &Ring, k: u32) -> Result<Ring, OutOfMemory>
    requires factor { k ≤ 4 }
    requires range { All IsInRange ring.now.points }
    ensures { IfOk result (λ made. made ≡ scaled_ring k ring.now) }
{
    let mut points = Vec::with_capacity(alloc, ring.points.len())?;
    for point in ring.points.as_slice() {
        points.push(times(*point, k))?;
    }
    Ok(Ring {
        points: List::from_vec(points),
    })
}

/// `k` times the coordinates.
pub(crate) fn times(p: Point, k: u32) -> Point
    requires factor { k ≤ 4 }
    requires range { IsInRange p }
    ensures { result ≡ times k p }
{
    let k = k as i64;
    Point {
        x: k * p.x,
        y: k * p.y,
    }
}
