//! Whether the ray from a position meets a run of edges an odd number of times.

ghost use Rattle.std.specs.Prelude.{◌≡◌, ◌∷◌, ◌%◌, ◌↔◌, IsTrue};
ghost use Rattle.plane_exact.specs.Figure.{AllNearby, crossings};
ghost use Rattle.plane_trees.specs.Line.{IsBetween};
ghost use Rattle.plane_trees.specs.Trees.{run_points, run_edges, IsSound, IsMeasured, IsToldOf};

use crate::octagons::Sight;
use crate::runs::{Asked, Run, halves, last_of};
use plane_exact::is_odd_at_chain;
use venue_types::Point;

/// Whether an odd number of the run's edges meets the ray from the position.
pub(crate) fn is_odd_at_run(asked: &Asked, run: Run) -> bool
    requires close { AllNearby (asked.now.position ∷ run_points run) }
    requires sound { IsSound asked.now.origin run }
    requires measured { IsMeasured asked.now }
    ensures { IsTrue result ↔ (crossings asked.now.position (run_edges run.entry) % 2 ≡ 1) }
{
    match sight(asked, run) {
        Sight::Missed => false,
        Sight::Before => is_between(asked.position, run.start, last_of(run.start, run.rest)),
        Sight::Among => match halves(run) {
            None => is_odd_at_chain(asked.position, run.start, run.rest),
            Some((front, back)) => is_odd_at_run(asked, front) != is_odd_at_run(asked, back),
        },
    }
}

// How the run's edges lie to the ray from the position.
fn sight(asked: &Asked, run: Run) -> Sight
    requires sound { IsSound asked.now.origin run }
    requires measured { IsMeasured asked.now }
    ensures { IsToldOf asked.now.position run.entry.start run.entry.rest.now result }
{
    match run.octagons {
        [] => Sight::Among,
        [octagon, ..] => octagon.sight(&asked.place),
    }
}

// Whether one of `a` and `b` is at the height of `p` or below it, and the other above it.
fn is_between(p: Point, a: Point, b: Point) -> bool
    ensures { IsTrue result ↔ IsBetween p a b }
{
    if a.y <= p.y { p.y < b.y } else { b.y <= p.y }
}
