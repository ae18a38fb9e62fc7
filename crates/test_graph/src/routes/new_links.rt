//! The links of a stretch that aren't known from a node, told one after another: beside those that a loop over the list of all links finds.

ghost use Rattle.std.specs.Prelude.{◌≡◌, ◌<◌, Contains, Some, length, slice_get};
ghost use Rattle.link_graph.specs.declared.stretches.Stretch.{Stretch as AStretch};
ghost use Rattle.link_graph.specs.Detours.{HasLinkAcross};
ghost use Rattle.link_graph.specs.Graphs.{network};

use crate::station::venue_of;
use link_graph::{Graph, NewLink, Stretch, Way};
use std::alloc::Global;
use std::process::Abort;
use std::test::Fail;
use venue_types::Link;

// Whether one of the links leads so.
fn leads(links: &[Link], from: u32, to: u32, via: u32) -> bool {
    for link in links {
        if link.from == from && link.to == to && link.via == via {
            return true;
        }
    }
    false
}

// Whether the link is known from the node, by the list of all links.
fn is_known(links: &[Link], known: Option<u32>, link: &Link) -> bool {
    match known {
        Some(a) => link.to == a || leads(links, a, link.to, link.via),
        None => false,
    }
}

// The links of the stretch that aren't, with their places.
fn plain(
    alloc: Global,
    links: &[Link],
    n: u32,
    stretch: &Stretch,
    known: Option<u32>,
) -> Result<Vec<NewLink>, Fail> {
    let mut found = Vec::new(alloc);
    let mut place = 0u32;
    for link in links {
        if link.from == n {
            let is_within = place >= stretch.first && place - stretch.first < stretch.count;
            if is_within && !is_known(links, known, link) {
                found.push(NewLink { place, to: link.to })?;
            }
            place = place.saturating_add(1);
        }
    }
    Ok(found)
}

// Those that are told.
fn told(
    alloc: Global,
    graph: &Graph,
    n: u32,
    k: u32,
    known: Option<u32>,
) -> Result<Vec<NewLink>, Fail>
    requires node { n < length (network graph.now).nodes }
    requires stretch { k < length ((network graph.now).stretches n) }
    requires known { (stretch : AStretch) → slice_get ((network graph.now).stretches n) k ≡ Some stretch → HasLinkAcross (network graph.now) stretch.way known }
{
    let stretch = graph.stretch(n, k);
    let mut found = Vec::new(alloc);
    let mut place = 0u32;
    for _ in 0..stretch.count {
        if let Some(link) = graph.next_new(n, k, known, place) {
            place = link.place.saturating_add(1);
            found.push(link)?;
        }
    }
    Ok(found)
}

fn are_same(these: &[NewLink], those: &[NewLink]) -> bool {
    these == those
}

fn judge_stretch(
    rt: &impl Abort,
    alloc: Global,
    graph: &Graph,
    links: &[Link],
    n: u32,
    k: u32,
    known: Option<u32>,
) -> Result<(), Fail>
    requires node { n < length (network graph.now).nodes }
    requires stretch { k < length ((network graph.now).stretches n) }
    requires known { (stretch : AStretch) → slice_get ((network graph.now).stretches n) k ≡ Some stretch → HasLinkAcross (network graph.now) stretch.way known }
{
    let stretch = graph.stretch(n, k);
    let wanted = plain(alloc, links, n, &stretch, known)?;
    let given = told(alloc, graph, n, k, known)?;
    assert!(rt; are_same(&given, &wanted));
    Ok(())
}

// From the start of the link, of the stretch of its end by which it came.
fn judge_back(
    rt: &impl Abort,
    alloc: Global,
    graph: &Graph,
    links: &[Link],
    link: &Link,
) -> Result<(), Fail>
    requires { Contains (network graph.now).links link.now }
{
    graph.range_law();
    for k in 0..graph.stretches(link.to) {
        if let Way::Inside { via, .. } = graph.stretch(link.to, k).way {
            if via == link.via {
                judge_stretch(rt, alloc, graph, links, link.to, k, Some(link.from))?;
            }
        }
    }
    Ok(())
}

fn judge_all(rt: &impl Abort, alloc: Global, graph: &Graph, links: &[Link]) -> Result<(), Fail> {
    for n in 0..graph.nodes() {
        for k in 0..graph.stretches(n) {
            judge_stretch(rt, alloc, graph, links, n, k, None)?;
        }
    }
    Ok(())
}

fn judge_known(rt: &impl Abort, alloc: Global, graph: &Graph, links: &[Link]) -> Result<(), Fail>
    requires { links.now ≡ (network graph.now).links }
{
    for link in links {
        judge_back(rt, alloc, graph, links, link)?;
    }
    Ok(())
}

#[test]
fn links_that_are_not_known(rt: HostRuntime) -> Result<(), Fail> {
    let alloc = rt.alloc();
    let venue = venue_of(alloc, &[])?;
    let listed = venue.graph().listed(alloc)?;
    judge_all(&rt, alloc, venue.graph(), listed.as_slice())?;
    judge_known(&rt, alloc, venue.graph(), listed.as_slice())
}
