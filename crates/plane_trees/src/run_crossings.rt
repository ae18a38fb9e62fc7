//! Whether edges of runs cross.

ghost use Rattle.std.specs.Prelude.{◌∷◌, ◌++◌, ◌↔◌, IsTrue};
ghost use Rattle.venue_types.specs.declared.point.Point.{Point};
ghost use Rattle.plane_exact.specs.Figure.{AllNearby, edges_from, HaveCrossing};
ghost use Rattle.plane_trees.specs.Trees.{run_points, run_edges, IsSound, CrossesSome, CrossEachOther};

use crate::runs::{Run, halves};
use plane_exact::crosses;
use venue_types::Point;

/// Whether two edges of the run cross.
pub(crate) fn crosses_itself(origin: Point, run: Run) -> bool
    requires close { AllNearby (run_points run) }
    requires sound { IsSound origin run }
    ensures { IsTrue result ↔ HaveCrossing (run_edges run.entry) }
{
    match halves(run) {
        None => lines_cross(run.start, run.rest, run.start, run.rest),
        Some((front, back)) => {
            if crosses_itself(origin, front) {
                return true;
            }
            if crosses_itself(origin, back) {
                return true;
            }
            runs_cross(origin, front, back)
        }
    }
}

// Whether an edge of the one run crosses an edge of the other.
fn runs_cross(origin: Point, one: Run, other: Run) -> bool
    requires close { AllNearby (run_points one ++ run_points other) }
    requires one_sound { IsSound origin one }
    requires other_sound { IsSound origin other }
    ensures { IsTrue result ↔ CrossEachOther (run_edges one.entry) (run_edges other.entry) }
{
    if lie_apart(one, other) {
        return false;
    }
    if other.depth <= one.depth {
        match halves(one) {
            None => lines_cross(one.start, one.rest, other.start, other.rest),
            Some((front, back)) => runs_cross(origin, front, other)
                || runs_cross(origin, back, other),
        }
    } else {
        match halves(other) {
            None => lines_cross(one.start, one.rest, other.start, other.rest),
            Some((front, back)) => runs_cross(origin, one, front) || runs_cross(origin, one, back),
        }
    }
}

// Whether the octagons of the two runs lie apart.
fn lie_apart(one: Run, other: Run) -> bool
    ensures { IsTrue result → (origin : Point) → IsSound origin one.entry → IsSound origin other.entry → ¬ CrossEachOther (run_edges one.entry) (run_edges other.entry) }
{
    match one.octagons {
        [] => false,
        [first, ..] => match other.octagons {
            [] => false,
            [second, ..] => first.is_apart(second),
        },
    }
}

// Whether an edge of the line from `start` through `rest` crosses one of the line from `other` through `more`.
fn lines_cross(start: Point, rest: &[Point], other: Point, more: &[Point]) -> bool
    requires { AllNearby ((start ∷ rest.now) ++ (other ∷ more.now)) }
    ensures { IsTrue result ↔ CrossEachOther (edges_from start rest.now) (edges_from other more.now) }
{
    let mut a = start;
    for b in rest {
        if crosses_line(a, *b, other, more) {
            return true;
        }
        a = *b;
    }
    false
}

// Whether `ab` crosses an edge of the line from `start` through `rest`.
fn crosses_line(a: Point, b: Point, start: Point, rest: &[Point]) -> bool
    requires { AllNearby (a ∷ b ∷ start ∷ rest.now) }
    ensures { IsTrue result ↔ CrossesSome a b (edges_from start rest.now) }
{
    let mut c = start;
    for d in rest {
        if crosses(a, b, c, *d) {
            return true;
        }
        c = *d;
    }
    false
}
