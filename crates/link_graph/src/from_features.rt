//! From the features of a folder to its graph.

ghost use Rattle.std.specs.Prelude.{IfOk, IfErr, None};
ghost use Rattle.venue_nodes.specs.Figures.{judged_positions};
ghost use Rattle.venue_nodes.specs.FeatureRows.{HaveOwnIds};
ghost use Rattle.venue_nodes.specs.Sound.{AreSound};
ghost use Rattle.plane_exact.specs.Figure.{AllClose};
ghost use Rattle.plane_exact.specs.Opening.{AreTouches};
ghost use Rattle.venue_nodes.specs.Crowds.{Crowds};
ghost use Rattle.link_graph.specs.Graphs.{network};
ghost use Rattle.link_graph.specs.Faults.{IsFault};

use crate::faults::GraphFault;
use crate::graph::Graph;
use std::alloc::Global;
use venue_nodes::{Nodes, Rows, few_law, first_crowding};
use venue_types::{Features, Settings, Touches};

impl Graph {
    ghost use Rattle.link_graph.specs.Networks.{IsNetworkOf};

    /// The graph of the features of a folder in which the phases before find nothing, of openings that touch these units; or which limit it
    /// passes first. Takes n log n time and memory in proportion to the features, the members of units and the passages.
    pub fn build(
        alloc: Global,
        features: &Features,
        touches: &Touches,
        settings: &Settings,
    ) -> Result<Graph, GraphFault>
        requires sound { AreSound features.now }
        requires own_ids { HaveOwnIds features.now }
        requires close { AllClose (judged_positions features.now) }
        requires touches { AreTouches settings.now.border_tol features.now touches.now }
        ensures graph { IfOk result (λ graph. IsNetworkOf features.now settings.now (network graph)) }
        ensures kept { IfOk result (λ _. Crowds features.now settings.now None) }
        ensures fault { IfErr result (IsFault features.now settings.now) }
    {
        few_law();
        let rows = Rows::of(alloc, features, settings, touches)?;
        match first_crowding(features, settings, &rows) {
            Some(crowding) => Err(GraphFault::of(crowding)),
            None => {
                let nodes = Nodes::of(alloc, features, settings)?;
                Ok(Graph::of(alloc, features, nodes, rows, settings)?)
            }
        }
    }
}
