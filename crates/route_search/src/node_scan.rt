//! The links of a node that is settled.

ghost use Rattle.std.specs.Prelude.{◌≡◌, ◌+◌, ◌<◌, ◌≤◌, OnOk, Contains, length};
ghost use Rattle.link_graph.specs.Detours.{IsNewIn};
ghost use Rattle.link_graph.specs.Graphs.{network};
ghost use Rattle.route_search.specs.Scans.{AreMarked, Followed, IsStretchOf, Regarded, Regards, node_count, out_count_of};
ghost use Rattle.route_search.specs.States.{cost_in};

use crate::ends::Ends;
use crate::node_stretch::NodeStretch;
use crate::passed_links::{can_leave, can_pass, is_passed_over, known_start};
use crate::quiet::has_to_wait;
use crate::relaxation::lower;
use crate::state::State;
use crate::ways::Ways;
use link_graph::NewLink;
use std::sync::ledger::Ledger;
use venue_types::{Link, OutOfMemory};
use walk_laws::Steps;

// Where the link can be passed, its end is known by it from now on.
fn follow<E: Ends>(ways: &Ways, ends: &E, link: &Link, state: &mut State) -> Result<(), OutOfMemory>
    requires marks { AreMarked ways.now }
    requires there { Contains (network ways.now.graph.now).links link.now }
    requires cheap { cost_in state.old link.now.from + link.now.cost < cost_in state.old link.now.to }
    requires amid { Regards ways.now link.now.from state.old }
    ensures { OnOk result (Followed ways.now link.now state.old state.new) }
{
    if !can_pass(ways, link) {
        return Ok(());
    }
    ways.graph.range_law();
    let waits = has_to_wait(ways.graph, link, ends);
    lower(state, link, waits)
}

// Looks at a link that was found in a stretch.
fn look<L: Ledger, E: Ends>(
    ways: &Ways,
    ends: &E,
    at: &NodeStretch,
    found: NewLink,
    state: &mut State,
    steps: &mut Steps<L>,
) -> Result<(), OutOfMemory>
    requires marks { AreMarked ways.now }
    requires stretch { IsStretchOf (network ways.now.graph.now) at.now }
    requires found { IsNewIn (network ways.now.graph.now) at.now.node at.now.stretch 0 found }
    requires amid { Regards ways.now at.now.node state.old }
    ensures scanned { OnOk result (Regarded ways.now at.now.node found.place 1 state.old state.new) }
    ensures step { steps.new ≡ steps.old + 1 }
{
    ways.graph.member_law();
    ways.graph.range_law();
    let cost = state.costs[at.node as usize];
    match ways
        .graph
        .lower_new(at.node, at.k, found, cost, &state.costs, steps)
    {
        Some(link) => follow(ways, ends, &link, state),
        None => Ok(()),
    }
}

// Looks at the links of one stretch, but for those that are known from the start of the last link to the node.
fn look_along<L: Ledger, E: Ends>(
    ways: &Ways,
    ends: &E,
    at: &NodeStretch,
    state: &mut State,
    steps: &mut Steps<L>,
) -> Result<(), OutOfMemory>
    requires marks { AreMarked ways.now }
    requires stretch { IsStretchOf (network ways.now.graph.now) at.now }
    requires amid { Regards ways.now at.now.node state.old }
    ensures scanned { OnOk result (Regarded ways.now at.now.node at.now.stretch.first at.now.stretch.count state.old state.new) }
    ensures steps { steps.new ≤ steps.old + at.now.stretch.count }
{
    ways.graph.stretch_law();
    ways.graph.range_law();
    ways.graph.detour_law();
    let known = known_start(state.lasts.get(at.node).by, at.stretch.way);
    let mut place = at.stretch.first;
    'links: while let Some(found) = ways.graph.next_new(at.node, at.k, known, place) {
        look(ways, ends, at, found, state, steps)?;
        place = found.place + 1;
    }
    Ok(())
}

// Looks at the links of one stretch, or passes them all over.
fn scan_stretch<L: Ledger, E: Ends>(
    ways: &Ways,
    ends: &E,
    at: &NodeStretch,
    state: &mut State,
    steps: &mut Steps<L>,
) -> Result<(), OutOfMemory>
    requires marks { AreMarked ways.now }
    requires stretch { IsStretchOf (network ways.now.graph.now) at.now }
    requires amid { Regards ways.now at.now.node state.old }
    ensures scanned { OnOk result (Regarded ways.now at.now.node at.now.stretch.first at.now.stretch.count state.old state.new) }
    ensures steps { steps.new ≤ steps.old + at.now.stretch.count }
{
    ways.graph.stretch_law();
    ways.graph.range_law();
    if is_passed_over(ways, at.stretch.way) {
        return Ok(());
    }
    look_along(ways, ends, at, state, steps)
}

// Looks at the links of a node, stretch by stretch.
fn scan_stretches<L: Ledger, E: Ends>(
    ways: &Ways,
    ends: &E,
    node: u32,
    state: &mut State,
    steps: &mut Steps<L>,
) -> Result<(), OutOfMemory>
    requires marks { AreMarked ways.now }
    requires node { node < node_count ways.now.graph.now }
    requires amid { Regards ways.now node state.old }
    ensures scanned { OnOk result (Regarded ways.now node 0 (out_count_of ways.now.graph.now node) state.old state.new) }
    ensures steps { steps.new ≤ steps.old + out_count_of ways.now.graph.now node }
{
    ways.graph.stretch_law();
    for k in 0..ways.graph.stretches(node) {
        let stretch = ways.graph.stretch(node, k);
        let at = NodeStretch { node, k, stretch };
        scan_stretch(ways, ends, &at, state, steps)?;
    }
    Ok(())
}

/// Looks at the links of a node that is settled now. Passes over those that can't be passed by the node or by the way that they go,
/// and of those across the unit by which the node was reached the ones that lead back to the start of its last link, or to where a
/// link leads from there by that unit.
pub(crate) fn scan<L: Ledger, E: Ends>(
    ways: &Ways,
    ends: &E,
    node: u32,
    state: &mut State,
    steps: &mut Steps<L>,
) -> Result<(), OutOfMemory>
    requires marks { AreMarked ways.now }
    requires node { node < node_count ways.now.graph.now }
    requires amid { Regards ways.now node state.old }
    ensures scanned { OnOk result (Regarded ways.now node 0 (out_count_of ways.now.graph.now node) state.old state.new) }
    ensures steps { steps.new ≤ steps.old + out_count_of ways.now.graph.now node }
{
    if !can_leave(ways, node) {
        ways.graph.member_law();
        return Ok(());
    }
    scan_stretches(ways, ends, node, state, steps)
}
