//! What a search knows, asked for.

use crate::handed::hand_out;
use crate::labels::NO_COST;
use crate::reached::Reach;
use crate::trails::{nodes_below, potentials_below, walk_back};
use link_graph::PassableLinks;
use std::alloc::Global;
use venue_types::{Link, List, OutOfMemory, Potential};
use walk_laws::reach_law;

impl Reach {
    ghost use Rattle.std.specs.Prelude.{◌≡◌, ◌<◌, ◌≤◌, ◌↔◌, ℕ, List as AList, All, Contains, IfOk, IfSome, None, Some, length};
    ghost use Rattle.std.specs.List.Sorted.{IsStrictlyIncreasing};
    ghost use Rattle.venue_types.specs.declared.feature_id.FeatureId.{FeatureId};
    ghost use Rattle.venue_types.specs.declared.link.Potential.{Potential as APotential};
    ghost use Rattle.venue_types.specs.declared.settings.Profile.{Profile};
    ghost use Rattle.walk_laws.specs.Reaches.{AreBelow, HasCost, IsWithin};
    ghost use Rattle.walk_laws.specs.Walks.{IsLeast};
    ghost use Rattle.link_graph.specs.Networks.{Network, IsPassable};
    ghost use Rattle.link_graph.specs.Views.{link_view, potential_view};
    ghost use Rattle.route_search.specs.Reaches.{IsReachOver, bound_of, cost_of, nodes_of};

    /// The cost below which everything is known, in centimetres; nothing where all that can be reached is known.
    #[tactic(auto, unfolding(crate::specs::Reaches::bound_of))]
    pub fn bound(&self) -> Option<u64>
        ensures { result ≡ bound_of self.now }
    {
        self.bound
    }

    /// The least cost of a walk to the node, where it is known; it is at most the bound.
    pub fn cost(&self, node: u32) -> Option<u64>
        ensures cost { result ≡ cost_of self.now node }
        ensures low { IfSome result (IsWithin (bound_of self.now)) }
    {
        match self.costs.get(node as usize) {
            Some(cost) => hand_out(self.bound, *cost),
            None => None,
        }
    }

    /// A least walk to a node of which the cost is known. Takes time and memory in proportion to its links.
    pub fn walk(&self, alloc: Global, node: u32) -> Result<List<Link>, OutOfMemory>
        requires { HasCost (cost_of self.now) node }
        ensures least { IfOk result (λ walk. (network : Network) (closed : AList FeatureId) (profile : Profile) (from cost : ℕ)
            → IsReachOver (IsPassable network closed profile) from self.now → cost_of self.now node ≡ Some cost
            → IsLeast link_view (IsPassable network closed profile) from node walk cost) }
        ensures few { IfOk result (λ walk. length walk ≤ nodes_of self.now) }
    {
        reach_law::<PassableLinks>();
        walk_back(alloc, &self.lasts, node)
    }

    /// The nodes that cost less than a limit of at most the bound, rising, with their costs. Takes time and memory in proportion to all
    /// nodes.
    pub fn costs_below(&self, alloc: Global, limit: u64) -> Result<List<Potential>, OutOfMemory>
        requires { IsWithin (bound_of self.now) limit }
        ensures costs { IfOk result (AreBelow potential_view (cost_of self.now) limit) }
        ensures nodes { IfOk result (All (λ (p : APotential). p.node < nodes_of self.now)) }
    {
        potentials_below(alloc, &self.costs, limit)
    }

    /// Where there is no bound, the nodes to which a walk leads, rising. Takes time and memory in proportion to all nodes.
    pub fn reached(&self, alloc: Global) -> Result<List<u32>, OutOfMemory>
        requires { bound_of self.now ≡ None }
        ensures exact { IfOk result (λ reached. (n : ℕ) → Contains reached n ↔ HasCost (cost_of self.now) n) }
        ensures rising { IfOk result IsStrictlyIncreasing }
        ensures nodes { IfOk result (All (λ n. n < nodes_of self.now)) }
    {
        nodes_below(alloc, &self.costs, NO_COST)
    }
}
