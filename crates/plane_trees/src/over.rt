//! Growing the octagons over the rings of a shape.

ghost use Rattle.std.specs.Prelude.{◌≡◌, ◌∷◌, IsTrue, IfOk, IfSome, OnOk, Contains, All};
ghost use Rattle.plane_exact.specs.Figure.{AllNearby, ring_points};
ghost use Rattle.plane_trees.specs.Octagons.{IsRound};
ghost use Rattle.plane_trees.specs.Trees.{AddsGrove, IsClosedRing};
ghost use Rattle.plane_trees.specs.Groves.{IsOver};

use crate::groves::Over;
use crate::octagons::{NOTHING, Octagon};
use crate::ring_bands::RingBands;
use crate::tree_growth::depth_of;
use std::alloc::Global;
use venue_types::{OutOfMemory, Point};

// How many rings are looked at one by one.
const FEW: usize = 4;

/// What is kept over the rings, where there are more than a few.
pub(crate) fn over_of(alloc: Global, rings: &[RingBands]) -> Result<Option<Over>, OutOfMemory>
    requires { AllNearby (ring_points rings.now) }
    ensures { IfOk result (λ over. IfSome over (λ o. IsOver rings.now o)) }
{
    if rings.len() <= FEW {
        return Ok(None);
    }
    match origin_of(rings) {
        None => Ok(None),
        Some(origin) => Ok(Some(over_from(alloc, origin, rings)?)),
    }
}

// What is kept over the rings, counted from the origin.
fn over_from(alloc: Global, origin: Point, rings: &[RingBands]) -> Result<Over, OutOfMemory>
    requires close { AllNearby (ring_points rings.now) }
    requires origin { Contains (ring_points rings.now) origin }
    ensures { IfOk result (λ over. IsOver rings.now over) }
{
    let closed = rings.iter().all(|ring| ring.is_closed());
    let depth = depth_of(rings.len(), FEW);
    let mut octagons = Vec::new(alloc);
    add_grove(origin, rings, depth, &mut octagons)?;
    Ok(Over {
        origin,
        closed,
        depth,
        octagons,
    })
}

// The first point of the first ring.
fn origin_of(rings: &[RingBands]) -> Option<Point>
    ensures { IfSome result (λ q. Contains (ring_points rings.now) q) }
{
    match rings {
        [] => None,
        [ring, ..] => ring.first(),
    }
}

// Adds the octagons of the rings, counted from the origin.
fn add_grove(
    origin: Point,
    rings: &[RingBands],
    depth: usize,
    octagons: &mut Vec<Octagon>,
) -> Result<Octagon, OutOfMemory>
    requires { AllNearby (origin ∷ ring_points rings.now) }
    ensures grove { OnOk result (AddsGrove depth origin rings.now octagons.old.items octagons.new.items) }
    ensures round { IfOk result (λ octagon. IsRound octagon origin (ring_points rings.now)) }
{
    if depth == 0 {
        let octagon = octagon_of_rings(origin, rings);
        octagons.push(octagon)?;
        return Ok(octagon);
    }
    let place = octagons.len();
    octagons.push(NOTHING)?;
    let (front, back) = rings.split_at(rings.len() / 2);
    let first = add_grove(origin, front, depth - 1, octagons)?;
    let second = add_grove(origin, back, depth - 1, octagons)?;
    let octagon = first.with(second);
    octagons[place] = octagon;
    Ok(octagon)
}

// The octagon round the rings.
fn octagon_of_rings(origin: Point, rings: &[RingBands]) -> Octagon
    requires { AllNearby (origin ∷ ring_points rings.now) }
    ensures { IsRound result origin (ring_points rings.now) }
{
    let mut octagon = NOTHING;
    for ring in rings {
        octagon = octagon.with(ring.octagon(origin));
    }
    octagon
}
