//! A ring made ready for many questions, and whether a ring crosses itself.

ghost use Rattle.std.specs.Prelude.{◌≡◌, [], ◌∷◌, ◌≤◌, ◌%◌, ◌↔◌, IsTrue, IfOk, IfSome, IfNone, Contains};
ghost use Rattle.plane_exact.specs.Figure.{AllNearby, edges, crossings, IsNearSome, HaveCrossing};
ghost use Rattle.plane_trees.specs.Octagons.{IsRound};
ghost use Rattle.plane_trees.specs.Trees.{run_points, run_edges, IsSound, IsClosedRing, IsObstacle, IsFree};

use crate::octagons::{NOTHING, Octagon, octagon_of};
use crate::run_borders::is_near_run;
use crate::run_crossings::crosses_itself;
use crate::run_rays::is_odd_at_run;
use crate::run_walls::{Way, wall_of_run};
use crate::runs::{Asked, Run, last_of};
use crate::tree_growth::{Tree, tree_of};
use plane_exact::Wall;
use std::alloc::Global;
use std::marker::Model;
use venue_types::{OutOfMemory, Point, Ring};

/// A ring with its tree of octagons, for many questions about positions. Contracts see it as the ring, whose points it borrows.
/// Takes at most 32 bytes an edge, and an octagon of 64 bytes.
#[derive(Drop)]
pub struct RingBands<'a> {
    ring: &'a Ring,
    depth: usize,
    octagons: Vec<Octagon>,
}

impl<'a> Model for RingBands<'a> {
    ghost use Rattle.venue_types.specs.declared.point.Ring.{Ring};
    ghost use Rattle.plane_trees.specs.Trees.{IsTreeOf};

    ghost Value = { Ring };

    ghost view = { λ a. a.ring.now };

    ghost invariant = { λ a. IsTreeOf a.depth a.octagons.items a.ring.now.points };
}

impl<'a> RingBands<'a> {
    /// Makes the ring ready, in a few passes over its points.
    pub fn of(alloc: Global, ring: &'a Ring) -> Result<RingBands<'a>, OutOfMemory>
        requires { AllNearby ring.now.points }
        ensures { IfOk result (λ bands. bands ≡ ring.now) }
    {
        match ring.points.as_slice() {
            [] => Ok(RingBands {
                ring,
                depth: 0,
                octagons: Vec::new(alloc),
            }),
            [first, rest @ ..] => {
                let Tree { depth, octagons } = tree_of(alloc, *first, rest)?;
                Ok(RingBands {
                    ring,
                    depth,
                    octagons,
                })
            }
        }
    }

    /// Whether `p` is inside the ring alone: an odd number of its edges meets the ray from `p`. On most rings looks at a number
    /// of octagons that grows as the logarithm of its edges.
    pub fn inside(&self, p: Point) -> bool
        requires { AllNearby (p ∷ self.now.points) }
        ensures { IsTrue result ↔ (crossings p (edges self.now.points) % 2 ≡ 1) }
    {
        match self.whole_run() {
            None => false,
            Some(run) => is_odd_at_run(&Asked::of(run.start, p), run),
        }
    }

    /// Whether `p` is at most `t` nanodegrees from some edge of the ring alone.
    pub fn near(&self, p: Point, t: u32) -> bool
        requires close { AllNearby (p ∷ self.now.points) }
        requires tolerance { t ≤ 4000000 }
        ensures { IsTrue result ↔ IsNearSome p t (edges self.now.points) }
    {
        match self.whole_run() {
            None => false,
            Some(run) => is_near_run(&Asked::of(run.start, p), run, t),
        }
    }

    /// A wall of the ring that stops the way from `a` to `b`, or nothing where none does.
    pub(crate) fn wall_between(&self, a: Point, b: Point, t: u32) -> Option<Wall>
        requires near { AllNearby (a ∷ b ∷ self.now.points) }
        requires tolerance { t ≤ 4000000 }
        ensures found { IfSome result (λ wall. IsObstacle (edges self.now.points) self.now.points a b t wall) }
        ensures none { IfNone result (IsFree (edges self.now.points) self.now.points a b t) }
    {
        match self.whole_run() {
            None => None,
            Some(run) => {
                let way = Way {
                    start: a,
                    end: b,
                    tolerance: t,
                    origin: run.start,
                    octagon: octagon_of(run.start, a, &[b]),
                };
                wall_of_run(&way, run)
            }
        }
    }

    // The run of all edges, or nothing where the ring has no point.
    fn whole_run(&self) -> Option<Run<'_>>
        ensures none { IfNone result (self.now.points ≡ []) }
        ensures points { IfSome result (λ run. run_points run ≡ self.now.points) }
        ensures edges { IfSome result (λ run. run_edges run ≡ edges self.now.points) }
        ensures sound { IfSome result (λ run. IsSound run.start run) }
    {
        let ring = self.ring;
        match ring.points.as_slice() {
            [] => None,
            [first, rest @ ..] => Some(Run {
                start: *first,
                rest,
                depth: self.depth,
                octagons: self.octagons.as_slice(),
            }),
        }
    }

    /// The octagon round the ring, counted from the origin.
    pub(crate) fn octagon(&self, origin: Point) -> Octagon
        requires { AllNearby (origin ∷ self.now.points) }
        ensures { IsRound result origin self.now.points }
    {
        let ring = self.ring;
        match ring.points.as_slice() {
            [] => NOTHING,
            [first, rest @ ..] => octagon_of(origin, *first, rest),
        }
    }

    /// The first point of the ring.
    pub(crate) fn first(&self) -> Option<Point>
        ensures { IfSome result (λ q. Contains self.now.points q) }
    {
        let ring = self.ring;
        match ring.points.as_slice() {
            [] => None,
            [first, ..] => Some(*first),
        }
    }

    /// Whether the last point of the ring equals its first.
    pub(crate) fn is_closed(&self) -> bool
        ensures { IsTrue result → IsClosedRing self.now }
    {
        let ring = self.ring;
        match ring.points.as_slice() {
            [] => true,
            [first, rest @ ..] => last_of(*first, rest) == *first,
        }
    }
}

/// Whether two edges of the ring cross.
pub fn ring_crosses(alloc: Global, ring: &Ring) -> Result<bool, OutOfMemory>
    requires { AllNearby ring.now.points }
    ensures { IfOk result (λ b. IsTrue b ↔ HaveCrossing (edges ring.now.points)) }
{
    match ring.points.as_slice() {
        [] => Ok(false),
        [first, rest @ ..] => {
            let tree = tree_of(alloc, *first, rest)?;
            let run = Run {
                start: *first,
                rest,
                depth: tree.depth,
                octagons: tree.octagons.as_slice(),
            };
            Ok(crosses_itself(*first, run))
        }
    }
}
