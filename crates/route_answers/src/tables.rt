//! From a graph to a table.

ghost use Rattle.std.specs.Prelude.{◌≡◌, IfOk, length};
ghost use Rattle.std.specs.List.{AllByRecursion};
ghost use Rattle.venue_types.specs.declared.features.Features.{Features};
ghost use Rattle.venue_types.specs.declared.settings.Settings.{Settings};
ghost use Rattle.link_graph.specs.Graphs.{network};
ghost use Rattle.link_graph.specs.Networks.{IsNetworkOf};
ghost use Rattle.route_answers.specs.Passing.{rows_of};
ghost use Rattle.route_answers.specs.Tables.{table_of};
ghost use Rattle.route_certificate.specs.Forms.{FitsLink, FitsTable};

use crate::counts::row_count;
use crate::ids::node_ids;
use crate::rows::{add_areas, add_passages};
use link_graph::Graph;
use route_certificate::{Table, TableLink};
use std::alloc::Global;
use venue_types::{List, OutOfMemory, Profile};

/// The identifiers of all nodes, and a row for each link of the graph that the profile allows, in their order, nothing closed. Takes
/// 32 bytes a row, and the room for all rows at once.
pub fn allowed_table(alloc: Global, graph: &Graph, profile: &Profile) -> Result<Table, OutOfMemory>
    ensures table { IfOk result (λ table. (features : Features) (settings : Settings) → IsNetworkOf features settings (network graph.now) → table ≡ table_of features settings profile.now) }
    ensures fits { IfOk result FitsTable }
{
    graph.range_law();
    let nodes = node_ids(alloc, graph)?;
    let links = allowed_rows(alloc, graph, profile)?;
    Ok(Table {
        nodes: List::from_vec(nodes),
        links: List::from_vec(links),
    })
}

// The rows of the links that the profile allows.
fn allowed_rows(
    alloc: Global,
    graph: &Graph,
    profile: &Profile,
) -> Result<Vec<TableLink>, OutOfMemory>
    ensures rows { IfOk result (λ rows. rows.items ≡ rows_of (network graph.now) profile.now (network graph.now).links) }
    ensures fits { IfOk result (λ rows. AllByRecursion (FitsLink (length (network graph.now).nodes)) rows.items) }
{
    graph.areas_law();
    let count = row_count(alloc, graph, profile)?;
    let mut rows = Vec::with_capacity(alloc, count)?;
    add_areas(alloc, graph, profile, &mut rows)?;
    add_passages(graph, profile, &mut rows)?;
    Ok(rows)
}
