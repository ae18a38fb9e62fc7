//! Nodes that lead to nothing that isn't known.

ghost use Rattle.std.specs.Prelude.{◌≡◌, ◌<◌, IsTrue, Some, Contains, false, length, slice_get};
ghost use Rattle.link_graph.specs.declared.stretches.Stretch.{Stretch as AStretch};
ghost use Rattle.link_graph.specs.Graphs.{network};
ghost use Rattle.route_search.specs.Scans.{IsOwn, IsQuiet, node_count};

use crate::ends::Ends;
use link_graph::{Graph, Way};
use venue_types::Link;

// Whether the links of a stretch of the node, if it has any, go across the unit by which the link goes, and are known from its start.
fn is_own(graph: &Graph, link: &Link, node: u32, k: u32) -> bool
    requires there { Contains (network graph.now).links link.now }
    requires node { node < node_count graph.now }
    requires stretch { k < length ((network graph.now).stretches node) }
    ensures { IsTrue result → (stretch : AStretch) → slice_get ((network graph.now).stretches node) k ≡ Some stretch
        → IsOwn (network graph.now) link.now.via link.now.from node stretch }
{
    graph.stretch_law();
    let stretch = graph.stretch(node, k);
    match stretch.way {
        Way::Inside { via, .. } => {
            via == link.via
                && graph
                    .next_new(node, k, Some(link.from), stretch.first)
                    .is_none()
        }
        Way::Between => stretch.count == 0,
    }
}

// Whether all links out of the node, if any, go across the unit by which the link goes, and are known from its start.
fn is_quiet(graph: &Graph, link: &Link, node: u32) -> bool
    requires there { Contains (network graph.now).links link.now }
    requires node { node < node_count graph.now }
    ensures { IsTrue result → IsQuiet (network graph.now) link.now.via link.now.from node }
{
    let count = graph.stretches(node);
    // With a third stretch there is one across another unit.
    if count > 2 {
        return false;
    }
    for k in 0..count {
        if !is_own(graph, link, node, k) {
            return false;
        }
    }
    graph.stretch_law();
    graph.member_law();
    true
}

/// Whether the end of the link, if it is known by this link, has to wait: unless it leads to nothing that isn't known from the link's start
/// by the same unit, and is no end of the search.
pub(crate) fn has_to_wait<E: Ends>(graph: &Graph, link: &Link, ends: &E) -> bool
    requires there { Contains (network graph.now).links link.now }
    requires to { link.now.to < node_count graph.now }
    ensures { result ≡ false → IsQuiet (network graph.now) link.now.via link.now.from link.now.to }
{
    ends.is_end(link.to) || !is_quiet(graph, link, link.to)
}
