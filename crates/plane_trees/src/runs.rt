//! Runs of edges with the octagons of their halves.

ghost use Rattle.std.specs.Prelude.{◌≡◌, IfSome};
ghost use Rattle.venue_types.specs.declared.point.Point.{Point};
ghost use Rattle.plane_exact.specs.Plane.{IsNearby};
ghost use Rattle.plane_trees.specs.Line.{last_from};
ghost use Rattle.plane_trees.specs.Trees.{IsMeasured, AreHalves};

use crate::octagons::{Octagon, Offset, offset_of};
use venue_types::Point;

/// The edges from `start` through `rest`. Of the octagons, the first lies round them all, the first half of the others belongs
/// to the first half of the edges, and the second half to the second, until `depth` halvings are done.
#[derive(Clone, Copy)]
pub(crate) struct Run<'a> {
    pub start: Point,
    pub rest: &'a [Point],
    pub depth: usize,
    pub octagons: &'a [Octagon],
}

/// A position that runs are asked about, with its place counted from their origin.
#[derive(Clone, Copy)]
pub(crate) struct Asked {
    pub position: Point,
    pub origin: Point,
    pub place: Offset,
}

impl Asked {
    pub fn of(origin: Point, position: Point) -> Asked
        requires { IsNearby origin position }
        ensures measured { IsMeasured result }
        ensures position { result.position ≡ position }
        ensures origin { result.origin ≡ origin }
    {
        Asked {
            position,
            origin,
            place: offset_of(origin, position),
        }
    }
}

/// The end of the line from `start` through `rest`.
pub(crate) fn last_of(start: Point, rest: &[Point]) -> Point
    ensures { result ≡ last_from start rest.now }
{
    match rest {
        [] => start,
        [.., last] => *last,
    }
}

/// The two halves of the run, unless it is to be looked at edge by edge.
pub(crate) fn halves<'a>(run: Run<'a>) -> Option<(Run<'a>, Run<'a>)>
    ensures { IfSome result (λ both. AreHalves run.entry both.0 both.1) }
{
    if run.depth == 0 {
        return None;
    }
    let below = match run.octagons {
        [] => return None,
        [_, below @ ..] => below,
    };
    let (front, back) = run.rest.split_at(run.rest.len() / 2);
    let (front_octagons, back_octagons) = below.split_at(below.len() / 2);
    let first = Run {
        start: run.start,
        rest: front,
        depth: run.depth - 1,
        octagons: front_octagons,
    };
    let second = Run {
        start: last_of(run.start, front),
        rest: back,
        depth: run.depth - 1,
        octagons: back_octagons,
    };
    Some((first, second))
}
