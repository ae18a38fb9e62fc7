//! Where the rows of a unit's links stand among each other.

ghost use Rattle.std.specs.Prelude.{◌≡◌, ℕ, ◌+◌, ◌*◌, ◌-◌, ◌<◌, ◌≤◌, ◌&&◌, nat_lt, IfOk, List, All, Contains, Some, filter, length, slice_get, Bool};
ghost use Rattle.std.specs.List.{flat_map};
ghost use Rattle.std.specs.List.Sorted.{IsStrictlyIncreasing};
ghost use Rattle.imdf_access.specs.Access.{IsAllowed};
ghost use Rattle.link_graph.specs.declared.areas.Area.{Area as AnArea};
ghost use Rattle.link_graph.specs.Areas.{area_links, areas, joined_across};
ghost use Rattle.link_graph.specs.Graphs.{network};
ghost use Rattle.link_graph.specs.Networks.{link_facts};
ghost use Rattle.route_answers.specs.Adding.{IsRoom, joined_passing};
ghost use Rattle.route_answers.specs.Passing.{passes_node};
ghost use Rattle.route_answers.specs.Placing.{StandsFirst};

use crate::counts::passing_count;
use crate::passes::{may_pass, passing_places};
use crate::room::Room;
use link_graph::{Graph, network_parts_law};
use std::alloc::Global;
use venue_types::{Link, OutOfMemory, Profile};

/// Where the row of a link across a unit stands among those of the unit.
pub(crate) fn place_inside(
    alloc: Global,
    graph: &Graph,
    profile: &Profile,
    w: u32,
    link: &Link,
) -> Result<usize, OutOfMemory>
    requires within { w < length (areas graph.now) }
    requires there { (area : AnArea × List ℕ × List (List Bool)) → slice_get (areas graph.now) w ≡ Some area → Contains (area_links graph.now area) link.now }
    requires allowed { IsAllowed profile.now (link_facts (network graph.now) link.now) }
    ensures { IfOk result (λ place. (area : AnArea × List ℕ × List (List Bool)) → slice_get (areas graph.now) w ≡ Some area → StandsFirst (network graph.now) profile.now (area_links graph.now area) link.now place) }
{
    network_parts_law();
    let (_, members, sights) = graph.area(w);
    if !sights.is_whole() {
        let mask = passing_places(alloc, graph, profile, members, sights.size())?;
        let room = Room {
            graph,
            profile,
            members,
            sights,
            mask: &mask,
        };
        return Ok(joined_place(&room, link));
    }
    let count = passing_count(graph, profile, members);
    let start = passing_below(graph, profile, members, link.from);
    let end = passing_below(graph, profile, members, link.to);
    Ok(pair_place(count, start, end))
}

// Where the row of a link stands in a unit some of whose members aren't joined: behind those from lesser members, and those to lesser ones.
fn joined_place(room: &Room, link: &Link) -> usize
    requires room { IsRoom room.now }
    requires from { Contains room.now.members.now link.now.from }
    requires to { Contains room.now.members.now link.now.to }
    ensures { result ≡ length (flat_map (joined_passing room.now.graph.now room.now.profile.now room.now.members.now room.now.sights.now) (filter (λ m. nat_lt m link.now.from && passes_node (network room.now.graph.now) room.now.profile.now m) room.now.members.now))
        + length (filter (λ b. nat_lt b link.now.to && (joined_across room.now.sights.now room.now.members.now link.now.from b && passes_node (network room.now.graph.now) room.now.profile.now b)) room.now.members.now) }
{
    let start = place_of(room.members, link.from);
    let end = place_of(room.members, link.to);
    room.joined_count(start) + room.joined_below(start, end)
}

// Where a member stands. Takes log n time.
fn place_of(members: &[u32], n: u32) -> u32
    requires rise { IsStrictlyIncreasing members.now }
    requires short { length members.now ≤ 4096 }
    requires there { Contains members.now n }
    ensures { slice_get members.now result ≡ Some n }
{
    members.partition_point(|m| *m < n) as u32
}

// How many of these members pass and have lesser numbers than this one.
fn passing_below(graph: &Graph, profile: &Profile, members: &[u32], n: u32) -> usize
    requires { All (λ m. m < length (network graph.now).nodes) members.now }
    ensures { result ≡ length (filter (λ (m : ℕ). nat_lt m n && passes_node (network graph.now) profile.now m) members.now) }
{
    let mut count = 0;
    for m in members {
        if *m < n && may_pass(graph, profile, *m) {
            count += 1;
        }
    }
    count
}

// Where a pair stands among all pairs of so many, in either order: by the place of its first, then of its second among the others.
fn pair_place(count: usize, start: usize, end: usize) -> usize
    requires few { count ≤ 4096 }
    requires start { start < count }
    requires end { end < count }
    ensures before { end ≤ start → result ≡ start * (count - 1) + end }
    ensures behind { start < end → result ≡ start * (count - 1) + (end - 1) }
{
    let others = count - 1;
    let place = if end > start { end - 1 } else { end };
    start * others + place
}
