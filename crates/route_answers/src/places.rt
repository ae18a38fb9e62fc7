//! The places of links in a table, without the table.

ghost use Rattle.std.specs.Prelude.{◌≡◌, IfOk, All, Contains, length, map};
ghost use Rattle.venue_types.specs.declared.features.Features.{Features};
ghost use Rattle.venue_types.specs.declared.settings.Settings.{Settings};
ghost use Rattle.imdf_access.specs.Access.{IsAllowed};
ghost use Rattle.link_graph.specs.Areas.{passages};
ghost use Rattle.link_graph.specs.Graphs.{network};
ghost use Rattle.link_graph.specs.Networks.{IsNetworkOf, link_facts};
ghost use Rattle.route_answers.specs.Places.{AreFirstPlaces};
ghost use Rattle.route_answers.specs.Placing.{AreStarts, KnowsFirsts, StandsFirst};
ghost use Rattle.route_answers.specs.Tables.{row_of, table_of};

use crate::firsts::{RowKey, first_passages, first_place};
use crate::inside::place_inside;
use crate::starts::{AreaStart, Starts, row_starts, start_by, units_law};
use link_graph::Graph;
use std::alloc::Global;
use std::collections::BTreeMap;
use venue_types::{Link, OutOfMemory, Profile};

/// Where the rows of some links stand in the table of the links that the profile allows, from 0: of equal rows the first counts. The
/// links are of the graph, and the profile allows them. No row is made, and no length computed: it takes one pass over the members of
/// all units, n log n time for the relationships, and for each link a pass over the members of its unit.
pub fn row_places(
    alloc: Global,
    graph: &Graph,
    profile: &Profile,
    links: &[Link],
) -> Result<Vec<u32>, OutOfMemory>
    requires there { All (Contains (network graph.now).links) links.now }
    requires allowed { All (λ link. IsAllowed profile.now (link_facts (network graph.now) link)) links.now }
    ensures numbered { IfOk result (λ places. (features : Features) (settings : Settings) → IsNetworkOf features settings (network graph.now)
        → AreFirstPlaces (table_of features settings profile.now).links (map (row_of features) links.now) places.items) }
    ensures many { IfOk result (λ places. length places.items ≡ length links.now) }
{
    graph.range_law();
    let starts = row_starts(alloc, graph, profile)?;
    let firsts = first_passages(alloc, graph, profile)?;
    let mut places = Vec::with_capacity(alloc, links.len())?;
    for link in links {
        let at = place(alloc, graph, profile, &starts, &firsts, link)?;
        places.push(at as u32)?;
    }
    Ok(places)
}

// Where the row of a link stands.
fn place(
    alloc: Global,
    graph: &Graph,
    profile: &Profile,
    starts: &Starts,
    firsts: &BTreeMap<RowKey, usize>,
    link: &Link,
) -> Result<usize, OutOfMemory>
    requires starts { AreStarts graph.now profile.now starts.now }
    requires firsts { KnowsFirsts (network graph.now) profile.now (passages graph.now) firsts.now }
    requires there { Contains (network graph.now).links link.now }
    requires allowed { IsAllowed profile.now (link_facts (network graph.now) link.now) }
    ensures { IfOk result (StandsFirst (network graph.now) profile.now (network graph.now).links link.now) }
{
    graph.areas_law();
    graph.range_law();
    units_law(graph);
    match start_by(&starts.units, link.via) {
        Some(start) => across(alloc, graph, profile, starts, start, link),
        None => Ok(starts.passages + first_place(firsts, link)),
    }
}

// Where the row of a link across a unit stands.
fn across(
    alloc: Global,
    graph: &Graph,
    profile: &Profile,
    starts: &Starts,
    start: AreaStart,
    link: &Link,
) -> Result<usize, OutOfMemory>
    requires starts { AreStarts graph.now profile.now starts.now }
    requires start { Contains starts.now.units.items start }
    requires via { start.via ≡ link.now.via }
    requires there { Contains (network graph.now).links link.now }
    requires allowed { IsAllowed profile.now (link_facts (network graph.now) link.now) }
    ensures { IfOk result (StandsFirst (network graph.now) profile.now (network graph.now).links link.now) }
{
    graph.areas_law();
    graph.range_law();
    units_law(graph);
    let inside = place_inside(alloc, graph, profile, start.area, link)?;
    Ok(start.first + inside)
}
