//! From what a search for one node knows to its answer.

ghost use Rattle.std.specs.Prelude.{◌≡◌, ℕ, List, None, Some, IfOk};
ghost use Rattle.venue_types.specs.declared.feature_id.FeatureId.{FeatureId};
ghost use Rattle.venue_types.specs.declared.settings.Profile.{Profile};
ghost use Rattle.link_graph.specs.Networks.{Network, IsPassable};
ghost use Rattle.route_search.specs.Answers.{IsAnswer, IsSmall};
ghost use Rattle.route_search.specs.Reaches.{IsReachOver, IsSmallReach, bound_of, cost_of};

use crate::found::Found;
use crate::reached::Reach;
use link_graph::{NodePotentials, PassableLinks};
use std::alloc::Global;
use venue_types::OutOfMemory;
use walk_laws::{below_law, reach_law};

/// The walk to the end, and the potentials. Takes time and memory in proportion to the nodes.
pub(crate) fn route(alloc: Global, reach: &Reach, to: u32, cost: u64) -> Result<Found, OutOfMemory>
    requires { cost_of reach.now to ≡ Some cost }
    ensures answer { IfOk result (λ found. (network : Network) (closed : List FeatureId) (profile : Profile) (from : ℕ)
        → IsReachOver (IsPassable network closed profile) from reach.now → IsAnswer (IsPassable network closed profile) from to found) }
    ensures small { IfOk result (λ found. (nodes : ℕ) → IsSmallReach nodes reach.now → IsSmall nodes found) }
{
    below_law::<PassableLinks, NodePotentials>();
    let walk = reach.walk(alloc, to)?;
    let potentials = reach.costs_below(alloc, cost)?;
    Ok(Found::Route {
        walk,
        cost,
        potentials,
    })
}

/// The nodes that are reached. Takes time and memory in proportion to the nodes.
pub(crate) fn cut(alloc: Global, reach: &Reach, to: u32) -> Result<Found, OutOfMemory>
    requires nowhere { cost_of reach.now to ≡ None }
    requires whole { bound_of reach.now ≡ None }
    ensures answer { IfOk result (λ found. (network : Network) (closed : List FeatureId) (profile : Profile) (from : ℕ)
        → IsReachOver (IsPassable network closed profile) from reach.now → IsAnswer (IsPassable network closed profile) from to found) }
    ensures small { IfOk result (λ found. (nodes : ℕ) → IsSmallReach nodes reach.now → IsSmall nodes found) }
{
    reach_law::<PassableLinks>();
    let reached = reach.reached(alloc)?;
    Ok(Found::Cut { reached })
}
