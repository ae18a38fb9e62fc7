//! How many edges a shape has.

ghost use Rattle.std.specs.Prelude.{◌≡◌, ◌≤◌, length};
ghost use Rattle.plane_exact.specs.Figure.{vertices, edges, all_edges, part_edges, ring_edges};

use venue_types::{Part, Ring, Shape};

/// How many edges the rings of the shape have, also those without length.
pub fn edge_count(shape: &Shape) -> u32
    requires few { length (vertices shape.now) ≤ 4294967295 }
    ensures { result ≡ length (all_edges shape.now) }
{
    let mut count = 0;
    for part in shape.parts.as_slice() {
        count += part_count(part);
    }
    count
}

// How many edges the polygon has.
fn part_count(part: &Part) -> u32
    requires few { length (part_edges part.now) ≤ 4294967295 }
    ensures { result ≡ length (part_edges part.now) }
{
    ring_count(&part.outer) + rings_count(part.holes.as_slice())
}

// How many edges the rings have.
fn rings_count(rings: &[Ring]) -> u32
    requires few { length (ring_edges rings.now) ≤ 4294967295 }
    ensures { result ≡ length (ring_edges rings.now) }
{
    let mut count = 0;
    for ring in rings {
        count += ring_count(ring);
    }
    count
}

// How many edges the ring has: one fewer than positions.
fn ring_count(ring: &Ring) -> u32
    requires few { length (edges ring.now.points) ≤ 4294967295 }
    ensures { result ≡ length (edges ring.now.points) }
{
    ring.points.len().saturating_sub(1) as u32
}
