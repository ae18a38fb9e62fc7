//! What holds of every graph's network.

ghost use Rattle.std.specs.Prelude.{◌≡◌, ◌≢◌, ℕ, ◌+◌, ◌<◌, ◌≤◌, ◌^◌, ◌↔◌, List, Contains, length, AllPairs, Some, slice_get};
ghost use Rattle.venue_types.specs.declared.feature_id.FeatureId.{FeatureId};
ghost use Rattle.venue_types.specs.declared.features.Features.{Features};
ghost use Rattle.venue_types.specs.declared.link.Link.{Link};
ghost use Rattle.venue_types.specs.declared.settings.Profile.{Profile};
ghost use Rattle.venue_types.specs.declared.settings.Settings.{Settings};
ghost use Rattle.imdf_access.specs.Access.{IsAllowed};
ghost use Rattle.imdf_access.specs.Parts.{MayGo, PassesFacts};
ghost use Rattle.link_graph.specs.Networks.{Network, AreStretches, IsNetworkOf, IsPassable, link_facts, links_out};
ghost use Rattle.link_graph.specs.Graphs.{network};
ghost use Rattle.link_graph.specs.Usable.{IsUsable};

use crate::graph::Graph;

impl Graph {
    /// A link is one of the graph exactly where its start has a place at which it stands.
    pub fn member_law(&self)
        ensures { (link : Link) → Contains (network self.now).links link ↔ (link.from < length (network self.now).nodes) × (place : ℕ) × (slice_get (links_out (network self.now) link.from) place ≡ Some link) }
    {}

    /// A link leads from a node to another by what can be closed, at most 6,700,000 centimetres. Numbers of nodes, of what can be closed
    /// and of links fit; what can be closed stands once.
    pub fn range_law(&self)
        ensures from { (link : Link) → Contains (network self.now).links link → link.from < length (network self.now).nodes }
        ensures to { (link : Link) → Contains (network self.now).links link → link.to < length (network self.now).nodes }
        ensures via { (link : Link) → Contains (network self.now).links link → link.via < length (network self.now).closables }
        ensures cost { (link : Link) → Contains (network self.now).links link → link.cost ≤ 6700000 }
        ensures apart { (link : Link) → Contains (network self.now).links link → link.from ≢ link.to }
        ensures nodes { length (network self.now).nodes ≤ 400000 }
        ensures closables { length (network self.now).closables ≤ 400000 }
        ensures links { length (network self.now).links < 2 ^ 32 }
        ensures once { AllPairs (λ a b. a ≢ b) (network self.now).closables }
    {
        self.nodes();
        self.closables();
    }

    /// The stretches of each node cover the places of its links.
    pub fn stretch_law(&self)
        ensures { (n : ℕ) → n < length (network self.now).nodes → AreStretches (network self.now) n }
    {}

    /// Where two links that can be passed lead across one unit from a to b and from b to c, a link across the unit from a to c can be passed,
    /// and costs no more than both.
    pub fn detour_law(&self)
        ensures { (closed : List FeatureId) (profile : Profile) (first second across : Link) → IsPassable (network self.now) closed profile first → IsPassable (network self.now) closed profile second
            → second.from ≡ first.to → second.via ≡ first.via → (network self.now).first_unit ≤ first.via
            → Contains (network self.now).links across → across.from ≡ first.from → across.to ≡ second.to → across.via ≡ first.via
            → IsPassable (network self.now) closed profile across × (across.cost ≤ first.cost + second.cost) }
    {
        plane_exact::detour_law();
    }
}

/// A link is allowed exactly where its way and what stands at both its ends are passed.
pub fn network_parts_law()
    ensures { (given : Network) (profile : Profile) (link : Link) → IsAllowed profile (link_facts given link)
        ↔ MayGo profile link.kind (given.barred link.via) × PassesFacts profile (given.ends link.from) × PassesFacts profile (given.ends link.to) }
{}

/// What can be passed over the network of some features are the links of the features that can be used.
pub fn passable_law()
    ensures { (features : Features) (settings : Settings) (given : Network) (closed : List FeatureId) (profile : Profile) (link : Link)
        → IsNetworkOf features settings given → IsPassable given closed profile link ↔ IsUsable features settings closed profile link }
{}
