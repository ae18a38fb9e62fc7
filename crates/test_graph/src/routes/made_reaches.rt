//! Searches of made venues with two to five ends, judged by plain rounds over all links that may be used.

ghost use Rattle.std.specs.Prelude.{◌≡◌, ◌<◌};
ghost use Rattle.route_search.specs.Reaches.{bound_of};
ghost use Rattle.walk_laws.specs.Reaches.{IsWithin};

use super::made_venues::{STRAY, drawn, made_venue};
use super::reaches::flags_of;
use super::searches::{judge_links, marks_of, node, number_of, usable};
use link_graph::Graph;
use route_search::{FlaggedEnds, Found, Reach, reach};
use std::alloc::{AllocError, Global};
use std::marker::Brand;
use std::process::Abort;
use std::sync::ledger::{Blank, Ledger};
use std::test::Fail;
use venue_build::Venue;
use venue_types::{Link, List, Potential};
use walk_laws::Steps;

/// A cost above all.
const FREE: u64 = u64::MAX;

/// What is asked and what is known of it; the links that may be used, and each node's least cost over them.
#[derive(Clone, Copy)]
struct Asked<'a> {
    alloc: Global,
    from: u32,
    flags: &'a [bool],
    count: u32,
    known: &'a Reach,
    links: &'a [Link],
    costs: &'a [u64],
}

fn cost_at(costs: &[u64], n: u32) -> u64 {
    costs.get(n as usize).copied().unwrap_or(FREE)
}

// A node costs at most so much.
fn lower(costs: &mut [u64], n: u32, cost: u64) {
    if let Some(place) = costs.get_mut(n as usize) {
        *place = (*place).min(cost);
    }
}

// The least costs, by as many rounds over the links as there are nodes.
fn rounds(alloc: Global, links: &[Link], nodes: u32, from: u32) -> Result<Vec<u64>, AllocError> {
    let mut costs = vec![in alloc; FREE; nodes as usize]?;
    lower(&mut costs, from, 0);
    for _ in 0..nodes {
        for link in links {
            let cost = cost_at(&costs, link.from).saturating_add(u64::from(link.cost));
            lower(&mut costs, link.to, cost);
        }
    }
    Ok(costs)
}

// What costs less than the limit, by node.
fn below(alloc: Global, costs: &[u64], limit: u64) -> Result<Vec<Potential>, AllocError> {
    let mut below = Vec::new(alloc);
    for (node, value) in (0..u32::MAX).zip(costs) {
        if *value < limit {
            let value = *value;
            below.push(Potential { node, value })?;
        }
    }
    Ok(below)
}

// What is known below the limit is what the rounds tell, and no link speaks against it.
fn judge_limit(rt: &impl Abort, asked: &Asked, limit: u64) -> Result<(), Fail>
    requires { IsWithin (bound_of asked.now.known.now) limit }
{
    let potentials = asked.known.costs_below(asked.alloc, limit)?;
    let wanted = below(asked.alloc, asked.costs, limit)?;
    assert!(rt; potentials.as_slice() == wanted.as_slice());
    let found = Found::Route {
        walk: List::new(asked.alloc),
        cost: limit,
        potentials,
    };
    judge_links(rt, asked.links, &found);
    Ok(())
}

// The walk leads to the node over links that may be used, and costs so much.
fn judge_walk(rt: &impl Abort, asked: &Asked, walk: &[Link], n: u32, cost: u64) {
    let (mut at, mut sum) = (asked.from, 0u64);
    for link in walk {
        assert!(rt; link.from == at && asked.links.contains(link));
        at = link.to;
        sum = sum.saturating_add(u64::from(link.cost));
    }
    assert!(rt; at == n && sum == cost);
}

fn judge_node(rt: &impl Abort, asked: &Asked, n: u32) -> Result<(), Fail> {
    let least = cost_at(asked.costs, n);
    let bound = asked.known.bound().unwrap_or(FREE);
    let Some(cost) = asked.known.cost(n) else {
        assert!(rt; least >= bound);
        return Ok(());
    };
    assert!(rt; cost == least && cost <= bound && cost < FREE);
    let walk = asked.known.walk(asked.alloc, n)?;
    judge_walk(rt, asked, walk.as_slice(), n, cost);
    judge_limit(rt, asked, cost)
}

// How many ends cost less, and the most that one of them costs.
fn ends_below(asked: &Asked, limit: u64) -> (u32, u64) {
    let (mut count, mut most) = (0u32, 0u64);
    for (flag, cost) in asked.flags.iter().zip(asked.costs) {
        if *flag && *cost < limit {
            count = count.saturating_add(1);
            most = most.max(*cost);
        }
    }
    (count, most)
}

fn judge_reached(rt: &impl Abort, asked: &Asked, reached: &[u32]) -> Result<(), Fail> {
    let wanted = below(asked.alloc, asked.costs, FREE)?;
    assert!(rt; reached.len() == wanted.len());
    for (n, one) in reached.iter().zip(wanted) {
        assert!(rt; *n == one.node);
    }
    Ok(())
}

// So many ends cost less than the bound, which is what some node costs; and fewer cost less than the last of them, with a bound and without.
fn judge_bound(rt: &impl Abort, asked: &Asked) -> Result<(), Fail> {
    let bound = asked.known.bound();
    let (count, most) = ends_below(asked, bound.unwrap_or(FREE));
    assert!(rt; ends_below(asked, most).0 < asked.count);
    match bound {
        Some(bound) => {
            assert!(rt; count >= asked.count && asked.costs.contains(&bound));
            judge_limit(rt, asked, bound)
        }
        None => judge_reached(rt, asked, asked.known.reached(asked.alloc)?.as_slice()),
    }
}

fn judge(rt: &impl Abort, asked: &Asked, nodes: u32) -> Result<(), Fail> {
    for n in 0..nodes {
        judge_node(rt, asked, n)?;
    }
    judge_bound(rt, asked)
}

// The tail of a drawn place.
fn place(rt: &impl Abort, graph: &Graph, state: &mut u64) -> u128 {
    assert!(rt; graph.nodes() > 0);
    graph.node(drawn(state, graph.nodes())).id.0
}

// Judges the k-th search of a venue, and tells whether it has a bound.
fn judge_search<L: Ledger>(
    rt: &impl Abort,
    alloc: Global,
    venue: &Venue,
    k: u32,
    state: &mut u64,
    steps: &mut Steps<L>,
) -> Result<bool, Fail> {
    let graph = venue.graph();
    let which = drawn(state, 2) as usize;
    let profiles = venue.settings().profiles.as_slice();
    let profile = profiles.get(which).expect(rt, "a profile");
    let door = 0x3000 + u128::from(drawn(state, 8));
    let room = 0x1000 + u128::from(drawn(state, 8));
    let passage = 0x4000 + u128::from(drawn(state, 8));
    let (first, second) = (place(rt, graph, state), place(rt, graph, state));
    let (third, other) = (place(rt, graph, state), place(rt, graph, state));
    let ends = [first, second, door, STRAY, third];
    let start = if k % 3 == 0 { first } else { other };
    let closed = [room, passage, door];
    let marks = marks_of(rt, alloc, graph, &closed[..(2 + k % 2) as usize])?;
    let flags = flags_of(rt, alloc, graph, &ends[..(2 + k % 4) as usize])?;
    let (from, count) = (node(rt, graph, start), 1 + drawn(state, 5));
    let is_end = FlaggedEnds { flags: &flags };
    let number = number_of(rt, which);
    let known = reach(
        alloc, graph, &marks, profile, number, from, &is_end, count, steps,
    )?;
    let links = usable(alloc, graph, &marks, profile, number)?;
    let costs = rounds(alloc, &links, graph.nodes(), from)?;
    let asked = Asked {
        alloc,
        from,
        flags: &flags,
        count,
        known: &known,
        links: &links,
        costs: &costs,
    };
    judge(rt, &asked, graph.nodes())?;
    Ok(known.bound().is_some())
}

// Eight searches of a venue: how many have a bound.
fn judge_venue<L: Ledger>(
    rt: &impl Abort,
    alloc: Global,
    seed: u64,
    steps: &mut Steps<L>,
) -> Result<u32, Fail> {
    let mut state = seed;
    let venue = made_venue(alloc, &mut state)?;
    let mut bounds = 0u32;
    for k in 0..8u32 {
        if judge_search(rt, alloc, &venue, k, &mut state, steps)? {
            bounds = bounds.saturating_add(1);
        }
    }
    Ok(bounds)
}

// Eight venues, of whose searches some have a bound and some none.
fn judge_venues<L: Ledger>(rt: &impl Abort, alloc: Global, blank: Blank) -> Result<(), Fail>
    requires some { 0 < L.parts }
    requires name { blank.name ≡ L.name }
    requires parts { blank.parts ≡ L.parts }
{
    let mut steps = Steps::<L>::begin(blank);
    let mut bounds = 0u32;
    for seed in 0..8u64 {
        bounds = bounds.saturating_add(judge_venue(rt, alloc, seed, &mut steps)?);
    }
    assert!(rt; 0 < bounds && bounds < 64);
    Ok(())
}

#[test]
fn several_ends_in_made_venues(rt: HostRuntime) -> Result<(), Fail> {
    judge_venues::<Brand>(&rt, rt.alloc(), Blank::new(1))
}
