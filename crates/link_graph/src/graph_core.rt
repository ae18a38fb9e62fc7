//! From the nodes and the rows of members to what a graph keeps.

ghost use Rattle.std.specs.Prelude.{◌≤◌, IfOk, None, length};
ghost use Rattle.venue_nodes.specs.Figures.{judged_positions};
ghost use Rattle.venue_nodes.specs.FeatureRows.{HaveOwnIds};
ghost use Rattle.venue_nodes.specs.Sound.{AreSound};
ghost use Rattle.plane_exact.specs.Figure.{AllClose};
ghost use Rattle.venue_nodes.specs.Crowds.{Crowds};
ghost use Rattle.venue_nodes.specs.Nodes.{nodes as nodes_of};
ghost use Rattle.venue_nodes.specs.Rows.{AreRowsOf};
ghost use Rattle.venue_nodes.specs.Views.{AreNodes, HaveCorners};
ghost use Rattle.link_graph.specs.Cores.{IsSoundCore, network_in};
ghost use Rattle.link_graph.specs.Making.{IsMadeOf};
ghost use Rattle.link_graph.specs.Networks.{IsNetworkOf};

use crate::crossings::barred_of;
use crate::doors::doors_of;
use crate::parts::Core;
use crate::seats::seats_of;
use crate::trails::Ground;
use crate::way_starts::leaving_of;
use std::alloc::Global;
use venue_nodes::{Nodes, Rows, spot_law};
use venue_types::{Features, OutOfMemory, Settings};

// Its parts, one after another.
fn made_of(
    alloc: Global,
    features: &Features,
    nodes: Nodes,
    rows: Rows,
    settings: &Settings,
) -> Result<Core, OutOfMemory>
    requires sound { AreSound features.now }
    requires close { AllClose (judged_positions features.now) }
    requires nodes { AreNodes features.now settings.now nodes }
    requires corners { HaveCorners features.now settings.now nodes }
    requires rows { AreRowsOf features.now settings.now rows }
    requires roomy { Crowds features.now settings.now None }
    ensures { IfOk result (IsMadeOf features.now settings.now) }
{
    spot_law();
    let units = features.units.as_slice();
    let first_unit = (features.openings.len() + features.relationships.len()) as u32;
    let barred = barred_of(alloc, first_unit, units)?;
    let doors = doors_of(alloc, features, &nodes)?;
    let ground = Ground {
        features,
        nodes: &nodes,
        settings,
    };
    let crossings = ground.crossings(alloc, first_unit, &rows)?;
    let passages = ground.passages(alloc)?;
    let leaving = leaving_of(alloc, nodes.len(), &passages)?;
    let seats = seats_of(alloc, nodes.len(), &rows, &crossings)?;
    Ok(Core {
        nodes,
        rows,
        crossings,
        doors,
        seats,
        passages,
        leaving,
        barred,
        first_unit,
        kx: settings.kx,
        ky: settings.ky,
    })
}

/// What the graph of these features keeps.
pub(crate) fn core_of(
    alloc: Global,
    features: &Features,
    nodes: Nodes,
    rows: Rows,
    settings: &Settings,
) -> Result<Core, OutOfMemory>
    requires sound { AreSound features.now }
    requires own_ids { HaveOwnIds features.now }
    requires close { AllClose (judged_positions features.now) }
    requires nodes { AreNodes features.now settings.now nodes }
    requires corners { HaveCorners features.now settings.now nodes }
    requires rows { AreRowsOf features.now settings.now rows }
    requires roomy { Crowds features.now settings.now None }
    requires few { length (nodes_of features.now settings.now) ≤ 400000 }
    ensures sound { IfOk result IsSoundCore }
    ensures network { IfOk result (λ core. IsNetworkOf features.now settings.now (network_in core)) }
{
    spot_law();
    let core = made_of(alloc, features, nodes, rows, settings)?;
    Ok(core)
}
