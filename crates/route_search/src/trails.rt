//! The parts of an answer, from what a search knows at its end.

ghost use Rattle.std.specs.Prelude.{◌≤◌, length, IfOk};
ghost use Rattle.route_search.specs.Trails.{IsKnown, IsTrail, AreNodesBelow, ArePotentialsBelow};

use crate::lasts::Lasts;
use std::alloc::Global;
use venue_types::{Link, List, OutOfMemory, Potential};

/// The walk that is known to a node, over the last links back to the start. Takes time and memory in proportion to its links.
pub(crate) fn walk_back(alloc: Global, lasts: &Lasts, to: u32) -> Result<List<Link>, OutOfMemory>
    requires { IsKnown lasts.now to }
    ensures { IfOk result (λ walk. (known : IsKnown lasts.now to) → IsTrail known.costs lasts.now known.from to walk) }
{
    let mut back = Vec::new(alloc);
    let mut here = to;
    while let Some(link) = lasts.get(here).by {
        back.push(link)?;
        here = link.from;
    }
    back.reverse();
    Ok(List::from_vec(back))
}

/// The nodes that cost less than the limit.
pub(crate) fn nodes_below(
    alloc: Global,
    costs: &[u64],
    limit: u64,
) -> Result<List<u32>, OutOfMemory>
    requires { length costs.now ≤ 400000 }
    ensures { IfOk result (AreNodesBelow costs.now limit (length costs.now)) }
{
    let mut nodes = List::new(alloc);
    for (node, cost) in costs.iter().enumerate() {
        if *cost < limit {
            nodes.push(node as u32)?;
        }
    }
    Ok(nodes)
}

/// The costs below the limit, by node.
pub(crate) fn potentials_below(
    alloc: Global,
    costs: &[u64],
    limit: u64,
) -> Result<List<Potential>, OutOfMemory>
    requires { length costs.now ≤ 400000 }
    ensures { IfOk result (ArePotentialsBelow costs.now limit (length costs.now)) }
{
    let mut listed = List::new(alloc);
    for (node, value) in costs.iter().enumerate() {
        if *value < limit {
            listed.push(Potential {
                node: node as u32,
                value: *value,
            })?;
        }
    }
    Ok(listed)
}
