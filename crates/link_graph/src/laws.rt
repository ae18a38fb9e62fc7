//! What holds of the links of a venue.

ghost use Rattle.std.specs.Prelude.{◌≡◌, ◌≢◌, ℕ, ◌≤◌, ◌<◌, ◌↔◌, List, length, Contains, IsTrue, true};
ghost use Rattle.venue_types.specs.declared.feature_id.FeatureId.{FeatureId};
ghost use Rattle.venue_types.specs.declared.features.Features.{Features};
ghost use Rattle.venue_types.specs.declared.features.UnitRow.{UnitRow};
ghost use Rattle.venue_types.specs.declared.link.Link.{Link};
ghost use Rattle.venue_types.specs.declared.point.Spot.{Spot};
ghost use Rattle.venue_types.specs.declared.settings.Profile.{Profile};
ghost use Rattle.venue_types.specs.declared.settings.Inside.TheVariants.{Straight};
ghost use Rattle.venue_types.specs.declared.settings.Settings.{Settings};
ghost use Rattle.plane_exact.specs.Length.{IsLength};
ghost use Rattle.plane_exact.specs.Plane.{IsCloseDoubled};
ghost use Rattle.unit_sight.specs.Joined.{are_blind};
ghost use Rattle.venue_nodes.specs.Members.{members};
ghost use Rattle.venue_nodes.specs.Nodes.{nodes, closables};
ghost use Rattle.link_graph.specs.Lengths.{length_between};
ghost use Rattle.link_graph.specs.Graphs.{network};
ghost use Rattle.link_graph.specs.Links.{are_joined, links, sees};
ghost use Rattle.link_graph.specs.Networks.{IsNetworkOf};
ghost use Rattle.link_graph.specs.Inside.{GoesInside};
ghost use Rattle.link_graph.specs.Usable.{IsUsable, IsUnitBy, IsWhole, HasWayAcross};

use crate::graph::Graph;
use crate::network_laws::passable_law;

/// The number that is computed plainly is the length, and never more than a little above the diagonal of the greatest spread.
pub fn length_between_law()
    ensures length { (a b : Spot) (kx ky : ℕ) → IsCloseDoubled a b → kx ≤ 20000000 → ky ≤ 20000000 → IsLength a b kx ky (length_between a b kx ky) }
    ensures bound { (a b : Spot) (kx ky : ℕ) → length_between a b kx ky ≤ 5700000 }
{}

/// A link leads from a node to another by what can be closed, and costs no more than the longest way and the greatest extra.
pub fn range_law()
    ensures from { (features : Features) (settings : Settings) (link : Link) → Contains (links features settings) link → link.from < length (nodes features settings) }
    ensures to { (features : Features) (settings : Settings) (link : Link) → Contains (links features settings) link → link.to < length (nodes features settings) }
    ensures via { (features : Features) (settings : Settings) (link : Link) → Contains (links features settings) link → link.via < length (closables features) }
    ensures cost { (features : Features) (settings : Settings) (link : Link) → Contains (links features settings) link → link.cost ≤ 6700000 }
    ensures apart { (features : Features) (settings : Settings) (link : Link) → Contains (links features settings) link → link.from ≢ link.to }
{}

/// The links by the number of a unit are exactly those that go inside it.
pub fn inside_law()
    ensures { (features : Features) (settings : Settings) (link : Link) (u : UnitRow) → IsUnitBy features link.via u → Contains (links features settings) link ↔ GoesInside features settings u link }
{}

/// Any two members of a unit are joined where ways go straight; and where they go round walls, if all see all others, or nobody sees another.
pub fn whole_law()
    ensures straight { (features : Features) (settings : Settings) (u : UnitRow) → settings.inside ≡ Straight → IsWhole features settings u }
    ensures seeing { (features : Features) (settings : Settings) (u : UnitRow) → ((c d : ℕ) → Contains (members features settings u) c → Contains (members features settings u) d → c ≢ d → sees features settings u c d ≡ true) → IsWhole features settings u }
    ensures blind { (features : Features) (settings : Settings) (u : UnitRow) → are_blind (sees features settings u) (members features settings u) ≡ true → IsWhole features settings u }
{}

/// Where two usable links of one unit lead from a to b and from b to c, and a and c are joined in it, a usable link of the unit leads from a to c and
/// costs no more than both: of the features whose graph this is.
pub fn detour_law(graph: &Graph)
    ensures { (features : Features) (settings : Settings) (closed : List FeatureId) (profile : Profile) (first second : Link) (u : UnitRow) → IsNetworkOf features settings (network graph.now) → IsUsable features settings closed profile first → IsUsable features settings closed profile second → second.from ≡ first.to → second.via ≡ first.via → IsUnitBy features first.via u → IsTrue (are_joined features settings u first.from second.to) → HasWayAcross features settings closed profile first second }
{
    graph.detour_law();
    passable_law();
}
