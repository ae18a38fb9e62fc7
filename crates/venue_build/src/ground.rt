//! What the fifth phase makes of the rows of a folder.

ghost use Rattle.std.specs.Prelude.{IfOk, IfErr};
ghost use Rattle.plane_exact.specs.Figure.{AllClose};
ghost use Rattle.imdf_read.specs.Figures.{judged_positions};
ghost use Rattle.imdf_read.specs.Rows.{HaveOwnIds};
ghost use Rattle.imdf_read.specs.Sound.{AreSound};
ghost use Rattle.link_graph.specs.Faults.{IsFault};
ghost use Rattle.venue_build.specs.Ground.{IsGround};

use link_graph::{Graph, GraphFault};
use opening_match::{Matches, touches};
use std::alloc::Global;
use venue_types::{Features, Finding, List, Settings, Touches};

/// The units that openings touch, and the graph.
#[derive(Drop)]
pub(crate) struct Ground {
    pub touches: Touches,
    pub graph: Graph,
}

/// What the phases after the first make of rows.
#[derive(Drop)]
pub(crate) enum Judged {
    /// None finds anything.
    Sound(Ground),
    /// The first that finds something finds this.
    Broken(List<Finding>),
}

/// The ground of rows in which the phases on the plane find nothing, or why there is none.
pub(crate) fn ground_of(
    alloc: Global,
    features: &Features,
    settings: &Settings,
) -> Result<Ground, GraphFault>
    requires sound { AreSound features.now }
    requires own_ids { HaveOwnIds features.now }
    requires close { AllClose (judged_positions features.now) }
    ensures ground { IfOk result (IsGround features.now settings.now) }
    ensures fault { IfErr result (IsFault features.now settings.now) }
{
    match touches(alloc, features, settings)? {
        Matches::Many(counts) => Err(GraphFault::of_counts(
            alloc,
            features,
            settings,
            counts.as_slice(),
        )),
        Matches::Each(touches) => {
            let graph = Graph::build(alloc, features, &touches, settings)?;
            Ok(Ground { touches, graph })
        }
    }
}
