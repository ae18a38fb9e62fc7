//! The identifiers of nodes, and of what links go by.

ghost use Rattle.std.specs.Prelude.{◌≡◌, ◌<◌, IfOk, length, map, slice_get, Some};
ghost use Rattle.std.specs.List.{AllByRecursion};
ghost use Rattle.venue_types.specs.declared.link.Node.{Node as ANode};
ghost use Rattle.link_graph.specs.Graphs.{network};
ghost use Rattle.route_answers.specs.Passing.{id_at};
ghost use Rattle.route_certificate.specs.Forms.{FitsId};

use link_graph::Graph;
use std::alloc::Global;
use venue_types::{FeatureId, OutOfMemory};

/// The identifiers of all nodes, in order.
pub(crate) fn node_ids(alloc: Global, graph: &Graph) -> Result<Vec<FeatureId>, OutOfMemory>
    ensures ids { IfOk result (λ ids. ids.items ≡ map (λ (node : ANode). node.id) (network graph.now).nodes) }
    ensures fits { IfOk result (λ ids. AllByRecursion FitsId ids.items) }
{
    let mut ids = Vec::with_capacity(alloc, graph.nodes() as usize)?;
    for n in 0..graph.nodes() {
        ids.push(node_id(graph, n))?;
    }
    Ok(ids)
}

// The identifier of a node.
fn node_id(graph: &Graph, n: u32) -> FeatureId
    requires { n < length (network graph.now).nodes }
    ensures id { slice_get (map (λ (node : ANode). node.id) (network graph.now).nodes) n ≡ Some result }
    ensures fits { FitsId result }
{
    graph.node(n).id
}

/// The identifier of what can be closed.
#[tactic(auto, unfolding(crate::specs::Passing::id_at))]
pub(crate) fn way_id(graph: &Graph, k: u32) -> FeatureId
    requires { k < length (network graph.now).closables }
    ensures id { result ≡ id_at (network graph.now).closables k }
    ensures fits { FitsId result }
{
    graph.closable_id(k)
}
