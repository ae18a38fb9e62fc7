//! What a profile passes.

ghost use Rattle.std.specs.Prelude.{◌≡◌, ◌<◌, ◌≤◌, IfOk, All, Contains, filter, length};
ghost use Rattle.link_graph.specs.Graphs.{network};
ghost use Rattle.route_answers.specs.Passing.{AreMarked, passes_by, passes_link, passes_node};

use imdf_access::{allows, passes_end, passes_way};
use link_graph::{Area, Graph};
use std::alloc::Global;
use unit_sight::Mask;
use venue_types::{Link, OutOfMemory, Profile};

/// Whether somebody with the profile may cross the unit.
pub(crate) fn may_cross(profile: &Profile, area: Area) -> bool
    ensures { result ≡ passes_by profile.now area.kind area.restricted }
{
    passes_way(profile, area.kind, area.restricted)
}

/// Whether somebody with the profile may use the link.
#[tactic(auto, unfolding(crate::specs::Passing::passes_link))]
pub(crate) fn may_use(graph: &Graph, profile: &Profile, link: &Link) -> bool
    requires { Contains (network graph.now).links link.now }
    ensures { result ≡ passes_link (network graph.now) profile.now link.now }
{
    allows(profile, &graph.facts(link))
}

/// Whether somebody with the profile may pass the node.
pub(crate) fn may_pass(graph: &Graph, profile: &Profile, n: u32) -> bool
    requires { n < length (network graph.now).nodes }
    ensures { result ≡ passes_node (network graph.now) profile.now n }
{
    passes_end(profile, &graph.ends(n))
}

/// Those of the members that somebody with the profile may pass.
pub(crate) fn passing(
    alloc: Global,
    graph: &Graph,
    profile: &Profile,
    members: &[u32],
) -> Result<Vec<u32>, OutOfMemory>
    requires { All (λ m. m < length (network graph.now).nodes) members.now }
    ensures { IfOk result (λ passed. passed.items ≡ filter (passes_node (network graph.now) profile.now) members.now) }
{
    let mut passed = Vec::new(alloc);
    for m in members {
        if may_pass(graph, profile, *m) {
            passed.push(*m)?;
        }
    }
    Ok(passed)
}

/// The places of those of the members that somebody with the profile may pass, in a room of so many places.
pub(crate) fn passing_places(
    alloc: Global,
    graph: &Graph,
    profile: &Profile,
    members: &[u32],
    size: u32,
) -> Result<Mask, OutOfMemory>
    requires within { All (λ m. m < length (network graph.now).nodes) members.now }
    requires fits { length members.now ≤ size }
    requires range { size ≤ 4096 }
    ensures { IfOk result (AreMarked (passes_node (network graph.now) profile.now) members.now (length members.now) size) }
{
    let mut mask = Mask::new(alloc, size)?;
    for (i, m) in members.iter().enumerate() {
        if may_pass(graph, profile, *m) {
            mask.put(i as u32);
        }
    }
    Ok(mask)
}
