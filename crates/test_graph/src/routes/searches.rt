//! Ways through the station, each judged over all its links.

ghost use Rattle.std.specs.Prelude.{◌≡◌, ◌<◌, length, IfOk};
ghost use Rattle.link_graph.specs.Graphs.{network};
ghost use Rattle.link_graph.specs.Marking.{AreMarksOf};

use super::search_rows::{ROWS, Row, Wanted};
use crate::station::{id, venue_of};
use imdf_access::allows;
use link_graph::{Graph, Marks};
use route_search::{Found, least};
use std::alloc::Global;
use std::marker::Brand;
use std::process::Abort;
use std::sync::ledger::{Blank, Ledger};
use std::test::Fail;
use venue_build::Venue;
use venue_types::{Link, Potential, Profile, ProfileSet};
use walk_laws::Steps;

pub(super) fn node(rt: &impl Abort, graph: &Graph, tail: u128) -> u32
    ensures { result < length (network graph.now).nodes }
{
    let n = graph.node_of(id(tail)).expect(rt, "a node");
    assert!(rt; n < graph.nodes());
    n
}

fn close(rt: &impl Abort, graph: &Graph, marks: &mut Marks, tail: u128)
    requires { AreMarksOf (network graph.now) marks.old }
    ensures { AreMarksOf (network graph.now) marks.new }
{
    let k = graph.closable(id(tail)).expect(rt, "what can be closed");
    assert!(rt; k < graph.closables());
    marks.mark(k, ProfileSet::of_all(2));
}

// The number of a profile, by its place in the settings.
pub(super) fn number_of(rt: &impl Abort, place: usize) -> u8
    ensures { result < 16 }
{
    assert!(rt; place < 16);
    place as u8
}

pub(super) fn marks_of(
    rt: &impl Abort,
    alloc: Global,
    graph: &Graph,
    closed: &[u128],
) -> Result<Marks, Fail>
    ensures { IfOk result (λ marks. AreMarksOf (network graph.now) marks) }
{
    let mut marks = Marks::none(alloc, graph)?;
    for tail in closed {
        close(rt, graph, &mut marks, *tail);
    }
    Ok(marks)
}

// The potential of a node: that of the list, else the cost.
fn potential(listed: &[Potential], cost: u64, n: u32) -> u64 {
    for one in listed {
        if one.node == n {
            return one.value;
        }
    }
    cost
}

fn is_reached(reached: &[u32], n: u32) -> bool {
    for one in reached {
        if *one == n {
            return true;
        }
    }
    false
}

// Whether a link shows that the answer isn't right: its end could be had for less, or is reached though it isn't told.
fn speaks_against(found: &Found, link: &Link) -> bool {
    match found {
        Found::Route {
            cost,
            potentials,
            ..
        } => {
            let start = potential(potentials.as_slice(), *cost, link.from);
            let end = potential(potentials.as_slice(), *cost, link.to);
            end > start.saturating_add(u64::from(link.cost))
        }
        Found::Cut { reached } => {
            is_reached(reached.as_slice(), link.from) && !is_reached(reached.as_slice(), link.to)
        }
    }
}

// The links that the profile allows and nothing closes.
pub(super) fn usable(
    alloc: Global,
    graph: &Graph,
    marks: &Marks,
    profile: &Profile,
    number: u8,
) -> Result<Vec<Link>, Fail>
    requires marks { AreMarksOf (network graph.now) marks.now }
    requires number { number < 16 }
{
    let mut usable = Vec::new(alloc);
    let links = graph.listed(alloc)?;
    for link in links.as_slice() {
        if graph.is_free(link, marks, number) && allows(profile, &graph.facts(link)) {
            usable.push(*link)?;
        }
    }
    Ok(usable)
}

// No link speaks against the answer.
pub(super) fn judge_links(rt: &impl Abort, links: &[Link], found: &Found) {
    for link in links {
        assert!(rt; !speaks_against(found, link));
    }
}

fn is_way(graph: &Graph, link: &Link, tail: u128) -> bool {
    graph.closable(id(tail)) == Some(link.via)
}

fn judge_walk(rt: &impl Abort, graph: &Graph, walk: &[Link], ways: &[u128]) {
    assert!(rt; walk.len() == ways.len());
    for (link, way) in walk.iter().zip(ways) {
        assert!(rt; is_way(graph, link, *way));
    }
}

pub(super) fn judge_reached(rt: &impl Abort, graph: &Graph, reached: &[u32], wanted: &[u128]) {
    assert!(rt; reached.len() == wanted.len());
    for (n, tail) in reached.iter().zip(wanted) {
        assert!(rt; graph.node_of(id(*tail)) == Some(*n));
    }
}

fn judge_found(rt: &impl Abort, graph: &Graph, found: &Found, row: &Row) {
    match (found, row.found) {
        (Found::Route { walk, cost, .. }, Wanted::Route(wanted, ways)) => {
            assert!(rt; *cost == wanted);
            judge_walk(rt, graph, walk.as_slice(), ways);
        }
        (Found::Cut { reached }, Wanted::Cut(wanted)) => {
            judge_reached(rt, graph, reached.as_slice(), wanted);
        }
        _ => assert!(rt; false),
    }
}

fn search<L: Ledger>(
    rt: &impl Abort,
    alloc: Global,
    graph: &Graph,
    marks: &Marks,
    profile: &Profile,
    row: &Row,
    steps: &mut Steps<L>,
) -> Result<Found, Fail>
    requires marks { AreMarksOf (network graph.now) marks.now }
{
    let from = node(rt, graph, row.from);
    let to = node(rt, graph, row.to);
    let number = number_of(rt, row.profile);
    Ok(least(alloc, graph, marks, profile, number, from, to, steps)?)
}

fn judge<L: Ledger>(
    rt: &impl Abort,
    alloc: Global,
    graph: &Graph,
    profile: &Profile,
    row: &Row,
    steps: &mut Steps<L>,
) -> Result<(), Fail> {
    let marks = marks_of(rt, alloc, graph, row.closed)?;
    let found = search(rt, alloc, graph, &marks, profile, row, steps)?;
    judge_found(rt, graph, &found, row);
    let links = usable(alloc, graph, &marks, profile, number_of(rt, row.profile))?;
    judge_links(rt, &links, &found);
    Ok(())
}

fn judge_venue<L: Ledger>(
    rt: &impl Abort,
    alloc: Global,
    venue: &Venue,
    steps: &mut Steps<L>,
) -> Result<(), Fail> {
    let profiles = venue.settings().profiles.as_slice();
    for row in &ROWS {
        let profile = profiles.get(row.profile).expect(rt, "a profile");
        judge(rt, alloc, venue.graph(), profile, row, steps)?;
    }
    Ok(())
}

fn judge_rows<L: Ledger>(rt: &impl Abort, alloc: Global, blank: Blank) -> Result<(), Fail>
    requires some { 0 < L.parts }
    requires name { blank.name ≡ L.name }
    requires parts { blank.parts ≡ L.parts }
{
    let mut steps = Steps::<L>::begin(blank);
    let venue = venue_of(alloc, &[])?;
    judge_venue(rt, alloc, &venue, &mut steps)
}

#[test]
fn ways_through_the_station(rt: HostRuntime) -> Result<(), Fail> {
    judge_rows::<Brand>(&rt, rt.alloc(), Blank::new(1))
}
