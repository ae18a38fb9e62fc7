//! The question for the nearest.

ghost use Rattle.std.specs.Prelude.{◌+◌, ◌<◌, ◌≤◌, All, length, IfOk};
ghost use Rattle.std.specs.List.Sorted.{IsStrictlyIncreasing};
ghost use Rattle.link_graph.specs.Graphs.{network};
ghost use Rattle.link_graph.specs.Marking.{AreMarksOf, marked};
ghost use Rattle.link_graph.specs.Networks.{IsPassable};
ghost use Rattle.nearest_place.specs.Near.{IsNear, IsSmallNear};

use crate::answers::answer;
use crate::flags::flags_of;
use crate::near::Near;
use link_graph::{Graph, Marks};
use route_search::{FlaggedEnds, reach};
use std::alloc::Global;
use std::sync::ledger::Ledger;
use venue_types::{List, OutOfMemory, Profile};
use walk_laws::Steps;

/// The nearest of the targets over links that the profile allows and nothing closes for its number: those to which walks lead, by least
/// cost, then by node, up to the limit, each with a least walk; with potentials by which anyone can check that none nearer is left out,
/// and, where there are fewer than the limit, the nodes to which a walk leads. The start itself costs nothing, whatever is closed. Looks
/// at each link once at most, and at most of them never.
pub fn nearest<L: Ledger>(
    alloc: Global,
    graph: &Graph,
    marks: &Marks,
    profile: &Profile,
    number: u8,
    from: u32,
    targets: &List<u32>,
    limit: u8,
    steps: &mut Steps<L>,
) -> Result<Near, OutOfMemory>
    requires from { from < length (network graph.now).nodes }
    requires marks { AreMarksOf (network graph.now) marks.now }
    requires number { number < 16 }
    requires rising { IsStrictlyIncreasing targets.now }
    requires nodes { All (λ n. n < length (network graph.now).nodes) targets.now }
    requires some { 1 ≤ limit }
    requires few { limit ≤ 10 }
    ensures near { IfOk result (IsNear (IsPassable (network graph.now) (marked (network graph.now) marks.now number) profile.now) (length (network graph.now).nodes) from targets.now limit) }
    ensures small { IfOk result (IsSmallNear (length (network graph.now).nodes)) }
    ensures steps { steps.new ≤ steps.old + length (network graph.now).links }
{
    let targets = targets.as_slice();
    let flags = flags_of(alloc, graph.nodes(), targets)?;
    let ends = FlaggedEnds { flags: &flags };
    let known = reach(
        alloc,
        graph,
        marks,
        profile,
        number,
        from,
        &ends,
        limit as u32,
        steps,
    )?;
    let near = answer(alloc, &known, targets, limit)?;
    Ok(near)
}
