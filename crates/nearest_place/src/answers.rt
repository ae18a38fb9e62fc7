//! From what a search knows to the answer.

ghost use Rattle.std.specs.Prelude.{◌≡◌, ◌<◌, ◌↔◌, ℕ, List as AList, All, Contains, IfOk, IfSome, IsSome, IsTrue, None, length};
ghost use Rattle.std.specs.List.Sorted.{IsStrictlyIncreasing};
ghost use Rattle.venue_types.specs.declared.feature_id.FeatureId.{FeatureId};
ghost use Rattle.venue_types.specs.declared.settings.Profile.{Profile};
ghost use Rattle.walk_laws.specs.Reaches.{HasCost};
ghost use Rattle.link_graph.specs.Networks.{Network, IsPassable};
ghost use Rattle.route_search.specs.Reaches.{IsReachOver, IsSmallReach, bound_of, cost_of, nodes_of};
ghost use Rattle.nearest_place.specs.Entries.{HasTargets};
ghost use Rattle.nearest_place.specs.Near.{IsNear, IsSmallNear};

use crate::entries::first_entries;
use crate::near::{Near, NearWalk};
use crate::rows::{last_of, rows_of};
use link_graph::{NodePotentials, PassableLinks};
use route_search::Reach;
use std::alloc::Global;
use venue_types::{List, OutOfMemory};
use walk_laws::{below_law, reach_law};

// All that is reached, if it is asked for. Takes time and memory in proportion to all nodes.
fn reached_if(
    alloc: Global,
    reach: &Reach,
    is_asked: bool,
) -> Result<Option<List<u32>>, OutOfMemory>
    requires { IsTrue is_asked → bound_of reach.now ≡ None }
    ensures told { IfOk result (λ reached. IsSome reached ↔ IsTrue is_asked) }
    ensures exact { IfOk result (λ reached. IfSome reached (λ ns. (n : ℕ) → Contains ns n ↔ HasCost (cost_of reach.now) n)) }
    ensures whole { IfOk result (λ reached. IfSome reached (λ _. bound_of reach.now ≡ None)) }
    ensures rising { IfOk result (λ reached. IfSome reached IsStrictlyIncreasing) }
    ensures nodes { IfOk result (λ reached. IfSome reached (All (λ n. n < nodes_of reach.now))) }
{
    if is_asked {
        Ok(Some(reach.reached(alloc)?))
    } else {
        Ok(None)
    }
}

// Whether there are fewer rows than the limit.
fn is_short(rows: &List<NearWalk>, limit: u8) -> bool
    ensures { IsTrue result ↔ (length rows.now < limit) }
{
    rows.len() < usize::from(limit)
}

/// The nearest of the targets, where so many of them are known to cost less than the bound, if there is one. Takes time and memory in
/// proportion to the nodes and to the links of the walks, and n log n time for n targets.
pub(crate) fn answer(
    alloc: Global,
    reach: &Reach,
    targets: &[u32],
    limit: u8,
) -> Result<Near, OutOfMemory>
    requires rising { IsStrictlyIncreasing targets.now }
    requires enough { HasTargets targets.now limit reach.now }
    ensures near { IfOk result (λ near. (network : Network) (closed : AList FeatureId) (profile : Profile) (nodes from : ℕ)
        → IsReachOver (IsPassable network closed profile) from reach.now → IsSmallReach nodes reach.now
        → IsNear (IsPassable network closed profile) nodes from targets.now limit near) }
    ensures small { IfOk result (λ near. (nodes : ℕ) → IsSmallReach nodes reach.now → IsSmallNear nodes near) }
{
    reach_law::<PassableLinks>();
    below_law::<PassableLinks, NodePotentials>();
    let entries = first_entries(alloc, reach, targets, limit)?;
    let rows = rows_of(alloc, reach, &entries)?;
    let potentials = reach.costs_below(alloc, last_of(rows.as_slice()))?;
    let reached = reached_if(alloc, reach, is_short(&rows, limit))?;
    Ok(Near {
        rows,
        potentials,
        reached,
    })
}
