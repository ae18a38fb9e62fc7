//! The nearest of drawn nodes of made venues, judged by plain rounds over all links that may be used, and by a sort by cost, then by node.

ghost use Rattle.std.specs.Prelude.{◌≡◌, ◌+◌, ◌<◌, ◌≤◌, All, IfOk, length};
ghost use Rattle.std.specs.List.Sorted.{IsStrictlyIncreasing};
ghost use Rattle.link_graph.specs.Graphs.{network};

use super::made_venues::{drawn, made_venue};
use super::searches::{marks_of, number_of, usable};
use link_graph::Graph;
use nearest_place::{Near, NearWalk, nearest};
use std::alloc::{AllocError, Global};
use std::marker::Brand;
use std::process::Abort;
use std::sync::ledger::{Blank, Ledger};
use std::test::Fail;
use venue_types::{Link, List, OutOfMemory, Potential, Profile};
use walk_laws::Steps;

/// A cost above all.
const FREE: u64 = u64::MAX;

const VENUES: u32 = 200;

/// What each venue is asked.
const QUESTIONS: u32 = 6;

/// What is asked; the links that may be used, and each node's least cost over them.
#[derive(Clone, Copy)]
struct Asked<'a> {
    alloc: Global,
    from: u32,
    targets: &'a [u32],
    limit: u8,
    links: &'a [Link],
    costs: &'a [u64],
}

/// How many answers have fewer rows than the limit, and how many leave out a node that costs what the last row does.
#[derive(Clone, Copy)]
struct Counts {
    short: u32,
    tied: u32,
}

fn entry(entries: &[u64], n: u32) -> u64 {
    entries.get(n as usize).copied().unwrap_or(FREE)
}

// Goes along a link, and tells whether its end costs less now.
fn lower(costs: &mut [u64], link: &Link) -> bool {
    let cost = entry(costs, link.from).saturating_add(u64::from(link.cost));
    match costs.get_mut(link.to as usize) {
        Some(end) if cost < *end => {
            *end = cost;
            true
        }
        _ => false,
    }
}

// Goes along all links, and tells whether a node costs less now.
fn is_lowered(costs: &mut [u64], links: &[Link]) -> bool {
    let mut is_lowered = false;
    for link in links {
        if lower(costs, link) {
            is_lowered = true;
        }
    }
    is_lowered
}

// The least costs, by as many rounds as there are nodes, or until one changes nothing.
fn least_costs(
    alloc: Global,
    links: &[Link],
    nodes: u32,
    from: u32,
) -> Result<Vec<u64>, AllocError> {
    let mut costs = vec![in alloc; FREE; nodes as usize]?;
    if let Some(start) = costs.get_mut(from as usize) {
        *start = 0;
    }
    for _ in 0..nodes {
        if !is_lowered(&mut costs, links) {
            break;
        }
    }
    Ok(costs)
}

// What the targets cost that can be reached, by cost, then by node.
fn wanted(asked: &Asked) -> Result<Vec<(u64, u32)>, AllocError> {
    let mut wanted = Vec::new(asked.alloc);
    for target in asked.targets {
        let cost = entry(asked.costs, *target);
        if cost < FREE {
            wanted.push((cost, *target))?;
        }
    }
    wanted.sort_unstable();
    Ok(wanted)
}

// The walk leads to the row's node over links that may be used, and costs what the row tells.
fn judge_walk(rt: &impl Abort, asked: &Asked, row: &NearWalk) {
    let (mut at, mut sum) = (asked.from, 0u64);
    for link in row.walk.as_slice() {
        assert!(rt; link.from == at && asked.links.contains(link));
        at = link.to;
        sum = sum.saturating_add(u64::from(link.cost));
    }
    assert!(rt; at == row.node && sum == row.cost);
}

fn judge_rows(rt: &impl Abort, asked: &Asked, rows: &[NearWalk], wanted: &[(u64, u32)]) {
    assert!(rt; rows.len() == wanted.len().min(asked.limit as usize));
    for (row, (cost, node)) in rows.iter().zip(wanted) {
        assert!(rt; row.node == *node && row.cost == *cost);
        judge_walk(rt, asked, row);
    }
}

fn last_cost(rows: &[NearWalk]) -> u64 {
    match rows.last() {
        Some(row) => row.cost,
        None => 0,
    }
}

// They rise by node, each below the last cost.
fn judge_listed(rt: &impl Abort, listed: &[Potential], last: u64) {
    let mut least = 0u32;
    for one in listed {
        assert!(rt; one.node >= least && one.value < last);
        least = one.node.saturating_add(1);
    }
}

// The potential of each node: that of the list, else the last cost.
fn potentials_of(
    rt: &impl Abort,
    asked: &Asked,
    listed: &[Potential],
    last: u64,
) -> Result<Vec<u64>, AllocError> {
    let mut potentials = vec![in asked.alloc; last; asked.costs.len()]?;
    for one in listed {
        let place = potentials.get_mut(one.node as usize).expect(rt, "a node");
        *place = one.value;
    }
    Ok(potentials)
}

// They are 0 at the start, and at each target its cost, or the last one where it isn't nearer.
fn judge_ends(rt: &impl Abort, asked: &Asked, potentials: &[u64], last: u64) {
    assert!(rt; entry(potentials, asked.from) == 0);
    for target in asked.targets {
        let cost = entry(asked.costs, *target);
        assert!(rt; entry(potentials, *target) == cost.min(last));
    }
}

// No link's end lies above its start by more than the link costs.
fn judge_links(rt: &impl Abort, asked: &Asked, potentials: &[u64]) {
    for link in asked.links {
        let most = entry(potentials, link.from).saturating_add(u64::from(link.cost));
        assert!(rt; entry(potentials, link.to) <= most);
    }
}

// The nodes that can be reached.
fn reachable(asked: &Asked) -> Result<Vec<u32>, AllocError> {
    let mut nodes = Vec::new(asked.alloc);
    for (node, cost) in (0..u32::MAX).zip(asked.costs) {
        if *cost < FREE {
            nodes.push(node)?;
        }
    }
    Ok(nodes)
}

fn judge_reached(rt: &impl Abort, asked: &Asked, near: &Near) -> Result<(), Fail> {
    let is_short = near.rows.len() < asked.limit as usize;
    match &near.reached {
        Some(reached) => {
            let wanted = reachable(asked)?;
            assert!(rt; is_short && reached.as_slice() == wanted.as_slice());
        }
        None => assert!(rt; !is_short),
    }
    Ok(())
}

fn judge_potentials(rt: &impl Abort, asked: &Asked, near: &Near) -> Result<(), Fail> {
    let last = last_cost(near.rows.as_slice());
    let listed = near.potentials.as_slice();
    judge_listed(rt, listed, last);
    let potentials = potentials_of(rt, asked, listed, last)?;
    judge_ends(rt, asked, &potentials, last);
    judge_links(rt, asked, &potentials);
    Ok(())
}

// Whether the first that is left out costs what the last row does.
fn is_tied(wanted: &[(u64, u32)], rows: &[NearWalk]) -> bool {
    match wanted.get(rows.len()) {
        Some((cost, _)) => *cost == last_cost(rows),
        None => false,
    }
}

fn judge(rt: &impl Abort, asked: &Asked, near: &Near, counts: &mut Counts) -> Result<(), Fail> {
    let wanted = wanted(asked)?;
    let rows = near.rows.as_slice();
    judge_rows(rt, asked, rows, &wanted);
    judge_potentials(rt, asked, near)?;
    judge_reached(rt, asked, near)?;
    counts.short = counts
        .short
        .saturating_add(u32::from(near.reached.is_some()));
    counts.tied = counts
        .tied
        .saturating_add(u32::from(is_tied(&wanted, rows)));
    Ok(())
}

fn limit_of(k: u32) -> u8
    ensures some { 1 ≤ result }
    ensures few { result ≤ 10 }
{
    match k % 3 {
        0 => 1,
        1 => 2,
        _ => 10,
    }
}

// A drawn node.
fn start(rt: &impl Abort, graph: &Graph, state: &mut u64) -> u32
    ensures { result < length (network graph.now).nodes }
{
    assert!(rt; graph.nodes() > 0);
    drawn(state, graph.nodes())
}

// Of so many nodes one in a drawn number of them, each by itself, rising.
fn targets_of(alloc: Global, nodes: u32, state: &mut u64) -> Result<List<u32>, OutOfMemory>
    ensures rising { IfOk result IsStrictlyIncreasing }
    ensures within { IfOk result (All (λ n. n < nodes)) }
{
    let part = 1 + drawn(state, 8);
    let mut targets = List::new(alloc);
    for n in 0..nodes {
        if drawn(state, part) == 0 {
            targets.push(n)?;
        }
    }
    Ok(targets)
}

// A room, a passage and a door.
fn closed_of(state: &mut u64) -> [u128; 3] {
    [
        0x1000 + u128::from(drawn(state, 8)),
        0x4000 + u128::from(drawn(state, 8)),
        0x3000 + u128::from(drawn(state, 8)),
    ]
}

// Judges the k-th question, for which each link is looked at once at most.
fn judge_question<L: Ledger>(
    rt: &impl Abort,
    alloc: Global,
    graph: &Graph,
    profiles: &[Profile],
    k: u32,
    state: &mut u64,
    counts: &mut Counts,
    steps: &mut Steps<L>,
) -> Result<(), Fail>
    ensures { steps.new ≤ steps.old + length (network graph.now).links }
{
    let which = drawn(state, 2) as usize;
    let profile = profiles.get(which).expect(rt, "a profile");
    let number = number_of(rt, which);
    let closed = closed_of(state);
    let marks = marks_of(rt, alloc, graph, &closed[..(k % 4) as usize])?;
    let from = start(rt, graph, state);
    let targets = targets_of(alloc, graph.nodes(), state)?;
    let limit = limit_of(k);
    let near = nearest(
        alloc, graph, &marks, profile, number, from, &targets, limit, steps,
    )?;
    let links = usable(alloc, graph, &marks, profile, number)?;
    let costs = least_costs(alloc, &links, graph.nodes(), from)?;
    let asked = Asked {
        alloc,
        from,
        targets: targets.as_slice(),
        limit,
        links: &links,
        costs: &costs,
    };
    judge(rt, &asked, &near, counts)
}

fn judge_venue<L: Ledger>(
    rt: &impl Abort,
    alloc: Global,
    seed: u64,
    counts: &mut Counts,
    steps: &mut Steps<L>,
) -> Result<(), Fail> {
    let mut state = seed;
    let venue = made_venue(alloc, &mut state)?;
    let profiles = venue.settings().profiles.as_slice();
    for k in 0..QUESTIONS {
        judge_question(
            rt,
            alloc,
            venue.graph(),
            profiles,
            k,
            &mut state,
            counts,
            steps,
        )?;
    }
    Ok(())
}

// Of the answers some are short and some not, and some leave out a node that costs as little as the last row.
fn judge_venues<L: Ledger>(rt: &impl Abort, alloc: Global, blank: Blank) -> Result<(), Fail>
    requires some { 0 < L.parts }
    requires name { blank.name ≡ L.name }
    requires parts { blank.parts ≡ L.parts }
{
    let mut steps = Steps::<L>::begin(blank);
    let mut counts = Counts { short: 0, tied: 0 };
    for seed in 0..VENUES {
        judge_venue(rt, alloc, u64::from(seed), &mut counts, &mut steps)?;
    }
    assert!(rt; 0 < counts.short && counts.short < VENUES * QUESTIONS && 0 < counts.tied);
    Ok(())
}

#[test]
fn the_nearest_in_made_venues(rt: HostRuntime) -> Result<(), Fail> {
    judge_venues::<Brand>(&rt, rt.alloc(), Blank::new(1))
}
