//! Least walks.

ghost use Rattle.std.specs.Prelude.{◌+◌, ◌<◌, ◌≤◌, length, IfOk};
ghost use Rattle.link_graph.specs.Graphs.{network};
ghost use Rattle.link_graph.specs.Marking.{AreMarksOf, marked};
ghost use Rattle.link_graph.specs.Networks.{IsPassable};
ghost use Rattle.route_search.specs.Answers.{IsAnswer, IsSmall};

use crate::answers::{cut, route};
use crate::ends::OneEnd;
use crate::found::Found;
use crate::reaching::reach;
use link_graph::{Graph, Marks};
use std::alloc::Global;
use std::sync::ledger::Ledger;
use venue_types::{OutOfMemory, Profile};
use walk_laws::Steps;

/// A walk from node to node over links that the profile allows and nothing closes for its number, which costs least, with potentials by which anyone
/// can check that none costs less; or where there is no walk, the nodes to which one leads. From a node to itself no link is taken,
/// whatever is closed. Looks at each link once at most, and at most of them never.
pub fn least<L: Ledger>(
    alloc: Global,
    graph: &Graph,
    marks: &Marks,
    profile: &Profile,
    number: u8,
    from: u32,
    to: u32,
    steps: &mut Steps<L>,
) -> Result<Found, OutOfMemory>
    requires from { from < length (network graph.now).nodes }
    requires to { to < length (network graph.now).nodes }
    requires marks { AreMarksOf (network graph.now) marks.now }
    requires number { number < 16 }
    ensures answer { IfOk result (IsAnswer (IsPassable (network graph.now) (marked (network graph.now) marks.now number) profile.now) from to) }
    ensures small { IfOk result (IsSmall (length (network graph.now).nodes)) }
    ensures steps { steps.new ≤ steps.old + length (network graph.now).links }
{
    let end = OneEnd { node: to };
    let found = reach(alloc, graph, marks, profile, number, from, &end, 1, steps)?;
    match found.cost(to) {
        Some(cost) => route(alloc, &found, to, cost),
        None => cut(alloc, &found, to),
    }
}
