//! Which links out of a node aren't looked at.

ghost use Rattle.std.specs.Prelude.{◌≡◌, ◌↔◌, ◌<◌, ℕ, IsTrue, Some, Contains, length};
ghost use Rattle.venue_types.specs.declared.link.Link.{Link as ALink};
ghost use Rattle.link_graph.specs.Graphs.{network};
ghost use Rattle.link_graph.specs.Networks.{GoesBy};
ghost use Rattle.route_search.specs.Scans.{AreMarked, CanPass, IsAcross, IsKnownStart, IsMarkable, IsPassedOver, node_count};

use crate::ways::Ways;
use imdf_access::{allows, passes_end, passes_way};
use link_graph::{Way, network_parts_law};
use venue_types::Link;

/// Whether somebody with the profile may pass the link, and nothing at it is closed.
pub(crate) fn can_pass(ways: &Ways, link: &Link) -> bool
    requires there { Contains (network ways.now.graph.now).links link.now }
    requires marks { AreMarked ways.now }
    ensures { IsTrue result ↔ CanPass ways.now link.now }
{
    allows(ways.profile, &ways.graph.facts(link))
        && ways.graph.is_free(link, ways.marks, ways.number)
}

/// Whether a link out of the node may be passed as far as the node itself has a say.
pub(crate) fn can_leave(ways: &Ways, node: u32) -> bool
    requires node { node < node_count ways.now.graph.now }
    requires marks { AreMarked ways.now }
    ensures { (link : ALink) → CanPass ways.now link → link.from ≡ node → IsTrue result }
{
    network_parts_law();
    passes_end(ways.profile, &ways.graph.ends(node))
        && ways.graph.is_node_free(node, ways.marks, ways.number)
}

/// Whether the links that go this way can't be passed, since it is closed or not granted.
pub(crate) fn is_passed_over(ways: &Ways, way: Way) -> bool
    requires way { IsMarkable (network ways.now.graph.now) way }
    requires marks { AreMarked ways.now }
    ensures { IsTrue result → IsPassedOver (network ways.now.graph.now) (CanPass ways.now) way }
{
    match way {
        Way::Inside {
            via,
            kind,
            restricted,
        } => {
            network_parts_law();
            ways.marks.is_marked(via, ways.number) || !passes_way(ways.profile, kind, restricted)
        }
        Way::Between => false,
    }
}

// Whether the way goes across the unit of this number.
fn is_across(way: Way, via: u32) -> bool
    ensures { IsTrue result ↔ IsAcross via way }
{
    match way {
        Way::Inside { via: own, .. } => own == via,
        Way::Between => false,
    }
}

/// The node from which links that go this way may be known: the start of the last link of the walk to where they start, if that link goes
/// this way across a unit.
pub(crate) fn known_start(last: Option<Link>, way: Way) -> Option<u32>
    ensures { (a : ℕ) → result ≡ Some a ↔ IsKnownStart last way a }
{
    match last {
        Some(last) => {
            if is_across(way, last.via) {
                Some(last.from)
            } else {
                None
            }
        }
        None => None,
    }
}
