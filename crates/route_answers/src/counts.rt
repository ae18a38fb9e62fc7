//! How many rows a table has, before any is made.

ghost use Rattle.std.specs.Prelude.{◌≡◌, ◌*◌, ◌-◌, ◌<◌, ◌≤◌, ℕ, IfOk, List, All, Contains, Some, filter, length, slice_get, Bool};
ghost use Rattle.std.specs.List.{flat_map};
ghost use Rattle.link_graph.specs.declared.areas.Area.{Area as AnArea};
ghost use Rattle.link_graph.specs.Areas.{area_links, areas};
ghost use Rattle.link_graph.specs.Graphs.{network};
ghost use Rattle.route_answers.specs.Passing.{passes_link, passes_node, rows_of};

use crate::passes::{may_cross, may_pass, may_use, passing_places};
use crate::room::Room;
use link_graph::{Graph, network_parts_law};
use std::alloc::Global;
use venue_types::{Link, OutOfMemory, Profile};

/// How many links the profile allows. Computes no lengths.
pub(crate) fn row_count(
    alloc: Global,
    graph: &Graph,
    profile: &Profile,
) -> Result<usize, OutOfMemory>
    ensures { IfOk result (λ count. count ≡ length (rows_of (network graph.now) profile.now (network graph.now).links)) }
{
    graph.areas_law();
    graph.range_law();
    let across = across_count(alloc, graph, profile)?;
    let between = link_count(graph, profile, graph.passages());
    Ok(across + between)
}

// How many of those across units.
fn across_count(alloc: Global, graph: &Graph, profile: &Profile) -> Result<usize, OutOfMemory>
    ensures { IfOk result (λ count. count ≡ length (rows_of (network graph.now) profile.now (flat_map (area_links graph.now) (areas graph.now)))) }
{
    graph.areas_law();
    graph.range_law();
    let mut count = 0;
    for w in 0..graph.areas() {
        let more = area_count(alloc, graph, profile, w)?;
        count += more;
    }
    Ok(count)
}

/// How many of those across one unit: one for each pair of its members that pass and are joined.
pub(crate) fn area_count(
    alloc: Global,
    graph: &Graph,
    profile: &Profile,
    w: u32,
) -> Result<usize, OutOfMemory>
    requires { w < length (areas graph.now) }
    ensures { IfOk result (λ count. (area : AnArea × List ℕ × List (List Bool)) → slice_get (areas graph.now) w ≡ Some area → count ≡ length (rows_of (network graph.now) profile.now (area_links graph.now area))) }
{
    network_parts_law();
    let (area, members, sights) = graph.area(w);
    if !may_cross(profile, area) {
        Ok(0)
    } else if sights.is_whole() {
        Ok(pairs(passing_count(graph, profile, members)))
    } else {
        let mask = passing_places(alloc, graph, profile, members, sights.size())?;
        let room = Room {
            graph,
            profile,
            members,
            sights,
            mask: &mask,
        };
        Ok(room.joined_count(members.len() as u32))
    }
}

// How many pairs there are of so many, in either order.
fn pairs(count: usize) -> usize
    requires { count ≤ 4096 }
    ensures { result ≡ count * (count - 1) }
{
    count * count.saturating_sub(1)
}

/// How many of these members pass.
pub(crate) fn passing_count(graph: &Graph, profile: &Profile, members: &[u32]) -> usize
    requires { All (λ m. m < length (network graph.now).nodes) members.now }
    ensures number { result ≡ length (filter (passes_node (network graph.now) profile.now) members.now) }
    ensures few { result ≤ length members.now }
{
    let mut count = 0;
    for m in members {
        if may_pass(graph, profile, *m) {
            count += 1;
        }
    }
    count
}

// How many of these links the profile allows.
fn link_count(graph: &Graph, profile: &Profile, links: &[Link]) -> usize
    requires { All (Contains (network graph.now).links) links.now }
    ensures { result ≡ length (filter (passes_link (network graph.now) profile.now) links.now) }
{
    let mut count = 0;
    for link in links {
        if may_use(graph, profile, link) {
            count += 1;
        }
    }
    count
}
