//! The search that an answer stands on.

ghost use Rattle.std.specs.Prelude.{◌≡◌, ◌<◌, [], IfOk, length};
ghost use Rattle.link_graph.specs.Graphs.{network};
ghost use Rattle.link_graph.specs.Networks.{IsPassable};
ghost use Rattle.route_search.specs.Answers.{IsAnswer, IsSmall};

use link_graph::{Graph, Marks};
use route_search::{Found, least};
use std::alloc::Global;
use std::marker::Brand;
use std::sync::ledger::{Blank, Ledger};
use venue_types::{OutOfMemory, Profile};
use walk_laws::Steps;

// The search with nothing closed, so whatever the profile's number, and with a counter that nobody reads.
fn searched<L: Ledger>(
    alloc: Global,
    blank: Blank,
    graph: &Graph,
    profile: &Profile,
    from: u32,
    to: u32,
) -> Result<Found, OutOfMemory>
    requires name { blank.name ≡ L.name }
    requires parts { blank.parts ≡ L.parts }
    requires some { 0 < L.parts }
    requires from { from < length (network graph.now).nodes }
    requires to { to < length (network graph.now).nodes }
    ensures answer { IfOk result (IsAnswer (IsPassable (network graph.now) [] profile.now) from to) }
    ensures small { IfOk result (IsSmall (length (network graph.now).nodes)) }
{
    let marks = Marks::none(alloc, graph)?;
    let mut steps = Steps::<L>::begin(blank);
    least(alloc, graph, &marks, profile, 0, from, to, &mut steps)
}

/// What a search finds over the links that the profile allows, nothing closed.
pub(crate) fn find(
    alloc: Global,
    graph: &Graph,
    profile: &Profile,
    from: u32,
    to: u32,
) -> Result<Found, OutOfMemory>
    requires from { from < length (network graph.now).nodes }
    requires to { to < length (network graph.now).nodes }
    ensures answer { IfOk result (IsAnswer (IsPassable (network graph.now) [] profile.now) from to) }
    ensures small { IfOk result (IsSmall (length (network graph.now).nodes)) }
{
    searched::<Brand>(alloc, Blank::new(1), graph, profile, from, to)
}
