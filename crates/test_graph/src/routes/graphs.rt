//! The graph of the station, link by link.

ghost use Rattle.std.specs.Prelude.{◌≡◌, ◌<◌, length};
ghost use Rattle.link_graph.specs.Graphs.{network};
ghost use Rattle.link_graph.specs.Marking.{AreMarksOf};

use super::graph_rows::{Passage, ROWS, Row};
use crate::station::{id, venue_of};
use link_graph::{Graph, Marks};
use std::alloc::Global;
use std::marker::Brand;
use std::process::Abort;
use std::sync::ledger::{Blank, Ledger};
use std::test::Fail;
use venue_types::{Link, ProfileSet};
use walk_laws::Steps;

fn closable(rt: &impl Abort, graph: &Graph, tail: u128) -> u32
    ensures { result < length (network graph.now).closables }
{
    let k = graph.closable(id(tail)).expect(rt, "what can be closed");
    assert!(rt; k < graph.closables());
    k
}

fn node(rt: &impl Abort, graph: &Graph, tail: u128) -> u32
    ensures { result < length (network graph.now).nodes }
{
    let n = graph.node_of(id(tail)).expect(rt, "a node");
    assert!(rt; n < graph.nodes());
    n
}

// How many of the links go by this number.
fn count_by(links: &[Link], via: u32) -> usize {
    let mut count = 0usize;
    for link in links {
        if link.via == via {
            count = count.saturating_add(1);
        }
    }
    count
}

fn judge_counts(rt: &impl Abort, graph: &Graph, links: &[Link], row: &Row) {
    assert!(rt; links.len() == row.listed);
    for (tail, count) in row.out {
        let n = node(rt, graph, *tail);
        assert!(rt; graph.out_count(n) == *count);
    }
    for (tail, count) in row.by {
        let k = closable(rt, graph, *tail);
        assert!(rt; count_by(links, k) == *count);
    }
}

fn link_of(rt: &impl Abort, graph: &Graph, passage: &Passage) -> Link {
    let (from, to, via, cost, kind) = passage;
    Link {
        from: node(rt, graph, *from),
        to: node(rt, graph, *to),
        via: closable(rt, graph, *via),
        cost: *cost,
        kind: *kind,
    }
}

fn is_link(links: &[Link], place: usize, wanted: &Link) -> bool {
    match links.get(place) {
        Some(link) => *link == *wanted,
        None => false,
    }
}

// The last of the links are these.
fn judge_passages(rt: &impl Abort, graph: &Graph, links: &[Link], row: &Row) {
    let mut place = links.len().saturating_sub(row.passages.len());
    for passage in row.passages {
        let wanted = link_of(rt, graph, passage);
        assert!(rt; is_link(links, place, &wanted));
        place = place.saturating_add(1);
    }
}

// The links out of a node are, place by place, those of the list that start there.
fn judge_out<L: Ledger>(
    rt: &impl Abort,
    graph: &Graph,
    links: &[Link],
    n: u32,
    steps: &mut Steps<L>,
)
    requires { n < length (network graph.now).nodes }
{
    let count = graph.out_count(n);
    let mut place = 0;
    for link in links {
        if link.from == n {
            assert!(rt; place < count);
            let found = graph.out_link(n, place, steps);
            assert!(rt; found == *link);
            place += 1;
        }
    }
    assert!(rt; place == count);
}

// From a node that costs 100, where each node is listed at this entry, whether the first link out of node 0 is told.
fn is_lower<L: Ledger>(
    rt: &impl Abort,
    graph: &Graph,
    listed: &[u64],
    steps: &mut Steps<L>,
) -> bool {
    assert!(rt; 0 < graph.nodes() && 0 < graph.stretches(0));
    assert!(rt; listed.len() == graph.nodes() as usize);
    match graph.next_new(0, 0, None, 0) {
        Some(found) => graph.lower_new(0, 0, found, 100, listed, steps).is_some(),
        None => false,
    }
}

fn judge_lower<L: Ledger>(
    rt: &impl Abort,
    alloc: Global,
    graph: &Graph,
    cost: u32,
    steps: &mut Steps<L>,
) -> Result<(), Fail> {
    let there = u64::from(cost) + 100;
    let equal = vec![in alloc; there; graph.nodes() as usize]?;
    let above = vec![in alloc; there + 1; graph.nodes() as usize]?;
    let is_equal_told = is_lower(rt, graph, &equal, steps);
    let is_above_told = is_lower(rt, graph, &above, steps);
    assert!(rt; is_above_told && !is_equal_told);
    Ok(())
}

// Of all links those by this feature and those at this node are not free for a profile.
fn judge_free(
    rt: &impl Abort,
    graph: &Graph,
    links: &[Link],
    marks: &Marks,
    profile: u8,
    via: Option<u32>,
    node: Option<u32>,
)
    requires links { links.now ≡ (network graph.now).links }
    requires marks { AreMarksOf (network graph.now) marks.now }
    requires profile { profile < 16 }
{
    for link in links {
        let is_closed = Some(link.via) == via || Some(link.from) == node || Some(link.to) == node;
        assert!(rt; graph.is_free(link, marks, profile) != is_closed);
    }
}

// A feature is closed for all of two profiles, then for the second alone, then for nobody.
fn judge_closed(
    rt: &impl Abort,
    alloc: Global,
    graph: &Graph,
    links: &[Link],
    tail: u128,
) -> Result<(), Fail>
    requires { links.now ≡ (network graph.now).links }
{
    let mut marks = Marks::none(alloc, graph)?;
    let (k, n) = (closable(rt, graph, tail), graph.node_of(id(tail)));
    marks.mark(k, ProfileSet::of_all(2));
    judge_free(rt, graph, links, &marks, 0, Some(k), n);
    judge_free(rt, graph, links, &marks, 1, Some(k), n);
    marks.mark(k, ProfileSet::nobody().with(1));
    judge_free(rt, graph, links, &marks, 0, None, None);
    judge_free(rt, graph, links, &marks, 1, Some(k), n);
    marks.mark(k, ProfileSet::nobody());
    judge_free(rt, graph, links, &marks, 1, None, None);
    Ok(())
}

fn judge_marks(rt: &impl Abort, alloc: Global, graph: &Graph, links: &[Link]) -> Result<(), Fail>
    requires { links.now ≡ (network graph.now).links }
{
    for tail in [0x0301, 0x0105, 0x0022, 0x0300] {
        judge_closed(rt, alloc, graph, links, tail)?;
    }
    Ok(())
}

fn judge_nodes<L: Ledger>(rt: &impl Abort, graph: &Graph, links: &[Link], steps: &mut Steps<L>) {
    for n in 0..graph.nodes() {
        judge_out(rt, graph, links, n, steps);
    }
}

fn judge_first(rt: &impl Abort, links: &[Link], cost: u32) {
    let first = links.first().expect(rt, "a link");
    assert!(rt; first.from == 0 && first.to == 3 && first.cost == cost);
}

fn judge_listed(rt: &impl Abort, graph: &Graph, links: &[Link], row: &Row) {
    judge_counts(rt, graph, links, row);
    judge_first(rt, links, row.first);
    judge_passages(rt, graph, links, row);
}

fn judge_graph<L: Ledger>(
    rt: &impl Abort,
    alloc: Global,
    graph: &Graph,
    row: &Row,
    steps: &mut Steps<L>,
) -> Result<(), Fail> {
    assert!(rt; graph.nodes() == 31 && graph.closables() == 33);
    let listed = graph.listed(alloc)?;
    let links = listed.as_slice();
    judge_listed(rt, graph, links, row);
    judge_nodes(rt, graph, links, steps);
    judge_marks(rt, alloc, graph, links)
}

fn judge<L: Ledger>(
    rt: &impl Abort,
    alloc: Global,
    row: &Row,
    steps: &mut Steps<L>,
) -> Result<(), Fail> {
    let venue = venue_of(alloc, row.edits)?;
    judge_lower(rt, alloc, venue.graph(), row.first, steps)?;
    judge_graph(rt, alloc, venue.graph(), row, steps)
}

fn judge_rows<L: Ledger>(rt: &impl Abort, alloc: Global, blank: Blank) -> Result<(), Fail>
    requires some { 0 < L.parts }
    requires name { blank.name ≡ L.name }
    requires parts { blank.parts ≡ L.parts }
{
    let mut steps = Steps::<L>::begin(blank);
    for row in &ROWS {
        judge(rt, alloc, row, &mut steps)?;
    }
    Ok(())
}

#[test]
fn the_graph_of_the_station(rt: HostRuntime) -> Result<(), Fail> {
    judge_rows::<Brand>(&rt, rt.alloc(), Blank::new(1))
}
