//! A shape made ready for many questions.

ghost use Rattle.std.specs.Prelude.{◌≡◌, ◌∷◌, ◌++◌, ◌≤◌, ◌↔◌, IsTrue, IfOk, OnOk, IfSome, IfNone};
ghost use Rattle.plane_exact.specs.Figure.{AllNearby, vertices, rings, rings_of, part_points, IsInside, IsNear};
ghost use Rattle.plane_exact.specs.Walls.{IsWallOf, Stops};
ghost use Rattle.plane_exact.specs.declared.walls.Wall.{Wall};

use crate::grove_borders::{is_near_bands, is_near_grove};
use crate::grove_rays::{is_odd_at_bands, is_odd_at_grove};
use crate::grove_walls::{wall_of_bands, wall_of_grove};
use crate::groves::{Grove, Over};
use crate::octagons::octagon_of;
use crate::over::over_of;
use crate::ring_bands::RingBands;
use crate::run_walls::Way;
use crate::runs::Asked;
use plane_exact::Wall;
use std::alloc::Global;
use std::marker::Model;
use venue_types::{OutOfMemory, Part, Point, Shape};

/// A shape with a tree of octagons for each ring, and one over its rings, for many questions about positions. Contracts see it as
/// the shape, whose points it borrows.
#[derive(Drop)]
pub struct Bands<'a> {
    shape: &'a Shape,
    banded: Vec<RingBands<'a>>,
    over: Option<Over>,
}

impl<'a> Model for Bands<'a> {
    ghost use Rattle.std.specs.Prelude.{◌≡◌, IfSome};
    ghost use Rattle.venue_types.specs.declared.point.Shape.{Shape};
    ghost use Rattle.plane_exact.specs.Figure.{rings};
    ghost use Rattle.plane_trees.specs.Groves.{IsOver};

    ghost Value = { Shape };

    ghost view = { λ a. a.shape.now };

    ghost invariant = { λ a. (a.banded.items ≡ rings a.shape.now) × IfSome a.over (λ over. IsOver a.banded.items over) };
}

impl<'a> Bands<'a> {
    /// Makes the shape ready, in a few passes over its points.
    pub fn of(alloc: Global, shape: &'a Shape) -> Result<Bands<'a>, OutOfMemory>
        requires { AllNearby (vertices shape.now) }
        ensures { IfOk result (λ bands. bands ≡ shape.now) }
    {
        let banded = bands_of(alloc, shape)?;
        let over = over_of(alloc, banded.as_slice())?;
        Ok(Bands {
            shape,
            banded,
            over,
        })
    }

    /// Whether `p` is inside the shape, as `inside` says. On most shapes looks at a number of octagons that grows as the logarithm
    /// of its edges.
    pub fn inside(&self, p: Point) -> bool
        requires { AllNearby (p ∷ vertices self.now) }
        ensures { IsTrue result ↔ IsInside p self.now }
    {
        match &self.over {
            None => is_odd_at_bands(p, self.banded.as_slice()),
            Some(over) => {
                let grove = Grove {
                    rings: self.banded.as_slice(),
                    depth: over.depth,
                    octagons: over.octagons.as_slice(),
                };
                is_odd_at_grove(&Asked::of(over.origin, p), over.closed, grove)
            }
        }
    }

    /// Whether `p` is at most `t` nanodegrees from the border of the shape, its holes' borders among it.
    pub fn near(&self, p: Point, t: u32) -> bool
        requires close { AllNearby (p ∷ vertices self.now) }
        requires tolerance { t ≤ 4000000 }
        ensures { IsTrue result ↔ IsNear p self.now t }
    {
        match &self.over {
            None => is_near_bands(p, self.banded.as_slice(), t),
            Some(over) => {
                let grove = Grove {
                    rings: self.banded.as_slice(),
                    depth: over.depth,
                    octagons: over.octagons.as_slice(),
                };
                is_near_grove(&Asked::of(over.origin, p), grove, t)
            }
        }
    }

    /// A wall of the shape that stops the way from `a` to `b`, or nothing where none does: an edge that the way crosses or a vertex on
    /// it, from which both ends are farther than `t` nanodegrees. On most shapes looks at a number of octagons that grows as the
    /// logarithm of its edges.
    pub fn wall_between(&self, a: Point, b: Point, t: u32) -> Option<Wall>
        requires near { AllNearby (a ∷ b ∷ vertices self.now) }
        requires tolerance { t ≤ 4000000 }
        ensures found { IfSome result (λ wall. IsWallOf self.now wall × Stops wall a b t) }
        ensures none { IfNone result ((wall : Wall) → IsWallOf self.now wall → ¬ Stops wall a b t) }
    {
        match &self.over {
            None => wall_of_bands(a, b, t, self.banded.as_slice()),
            Some(over) => {
                let grove = Grove {
                    rings: self.banded.as_slice(),
                    depth: over.depth,
                    octagons: over.octagons.as_slice(),
                };
                let way = Way {
                    start: a,
                    end: b,
                    tolerance: t,
                    origin: over.origin,
                    octagon: octagon_of(over.origin, a, &[b]),
                };
                wall_of_grove(&way, grove)
            }
        }
    }
}

// The rings of the shape made ready, polygon by polygon.
fn bands_of<'a>(alloc: Global, shape: &'a Shape) -> Result<Vec<RingBands<'a>>, OutOfMemory>
    requires { AllNearby (vertices shape.now) }
    ensures { IfOk result (λ list. list.items ≡ rings shape.now) }
{
    let mut list = Vec::new(alloc);
    for part in shape.parts.as_slice() {
        add_bands(alloc, part, &mut list)?;
    }
    Ok(list)
}

// Adds the rings of the polygon.
fn add_bands<'a>(
    alloc: Global,
    part: &'a Part,
    list: &mut Vec<RingBands<'a>>,
) -> Result<(), OutOfMemory>
    requires { AllNearby (part_points part.now) }
    ensures { OnOk result (list.new.items ≡ list.old.items ++ rings_of part.now) }
{
    list.push(RingBands::of(alloc, &part.outer)?)?;
    for hole in part.holes.as_slice() {
        list.push(RingBands::of(alloc, hole)?)?;
    }
    Ok(())
}
