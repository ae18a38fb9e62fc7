//! Whether a position is near a run of edges.

ghost use Rattle.std.specs.Prelude.{◌∷◌, ◌≤◌, ◌↔◌, IsTrue};
ghost use Rattle.plane_exact.specs.Figure.{AllNearby, IsNearSome};
ghost use Rattle.plane_trees.specs.Trees.{run_points, run_edges, IsSound, IsMeasured};

use crate::runs::{Asked, Run, halves};
use plane_exact::near_chain;

/// Whether the position is at most `t` from some edge of the run.
pub(crate) fn is_near_run(asked: &Asked, run: Run, t: u32) -> bool
    requires close { AllNearby (asked.now.position ∷ run_points run) }
    requires sound { IsSound asked.now.origin run }
    requires measured { IsMeasured asked.now }
    requires tolerance { t ≤ 4000000 }
    ensures { IsTrue result ↔ IsNearSome asked.now.position t (run_edges run.entry) }
{
    if !may_be_near(asked, run, t) {
        return false;
    }
    match halves(run) {
        None => near_chain(asked.position, run.start, run.rest, t),
        Some((front, back)) => is_near_run(asked, front, t) || is_near_run(asked, back, t),
    }
}

// Whether the run's octagon comes within `t` of the position.
fn may_be_near(asked: &Asked, run: Run, t: u32) -> bool
    requires sound { IsSound asked.now.origin run }
    requires measured { IsMeasured asked.now }
    requires tolerance { t ≤ 4000000 }
    ensures { IsNearSome asked.now.position t (run_edges run.entry) → IsTrue result }
{
    match run.octagons {
        [] => true,
        [octagon, ..] => octagon.is_at(&asked.place, t),
    }
}
