//! The first places of the rows of links by relationships.

ghost use Rattle.std.specs.Prelude.{◌≡◌, IfOk, OnOk, All, Contains, IsSome, Some};
ghost use Rattle.std.specs.BTreeMap.{get};
ghost use Rattle.link_graph.specs.Areas.{passages};
ghost use Rattle.link_graph.specs.Graphs.{network};
ghost use Rattle.route_answers.specs.declared.firsts.RowKey.{RowKey as AKey};
ghost use Rattle.route_answers.specs.Placing.{KnowsFirsts, key_cmp, key_of, noted, same_key};

use crate::passes::may_use;
use link_graph::Graph;
use std::alloc::Global;
use std::collections::BTreeMap;
use venue_types::{Link, OutOfMemory, Profile};

/// What the row of a link is told by.
#[derive(Clone, Copy, PartialEq, Eq, PartialOrd, Ord)]
pub(crate) struct RowKey {
    from: u32,
    to: u32,
    via: u32,
    cost: u32,
}

/// The first places of the rows of links by relationships that the profile allows, among such rows.
pub(crate) fn first_passages(
    alloc: Global,
    graph: &Graph,
    profile: &Profile,
) -> Result<BTreeMap<RowKey, usize>, OutOfMemory>
    ensures { IfOk result (KnowsFirsts (network graph.now) profile.now (passages graph.now)) }
{
    graph.areas_law();
    first_links(alloc, graph, profile, graph.passages())
}

// The first places of the rows of these links that the profile allows, among such rows.
fn first_links(
    alloc: Global,
    graph: &Graph,
    profile: &Profile,
    links: &[Link],
) -> Result<BTreeMap<RowKey, usize>, OutOfMemory>
    requires { All (Contains (network graph.now).links) links.now }
    ensures { IfOk result (KnowsFirsts (network graph.now) profile.now links.now) }
{
    let mut firsts = BTreeMap::new(alloc);
    let mut count = 0;
    for link in links {
        if may_use(graph, profile, link) {
            note(&mut firsts, row_key(link), count)?;
            count += 1;
        }
    }
    Ok(firsts)
}

// Notes the place of a row, unless an earlier one is known.
fn note(firsts: &mut BTreeMap<RowKey, usize>, key: RowKey, place: usize) -> Result<(), OutOfMemory>
    ensures { OnOk result ((other : AKey) → get key_cmp firsts.new other ≡ noted (get key_cmp firsts.old other) (same_key other key) place) }
{
    if !firsts.contains_key(&key) {
        firsts.insert(key, place)?;
    }
    Ok(())
}

// What the row of a link is told by.
fn row_key(link: &Link) -> RowKey
    ensures { result ≡ key_of link.now }
{
    RowKey {
        from: link.from,
        to: link.to,
        via: link.via,
        cost: link.cost,
    }
}

/// The place that is known of the row of a link.
pub(crate) fn first_place(firsts: &BTreeMap<RowKey, usize>, link: &Link) -> usize
    requires { IsSome (get key_cmp firsts.now (key_of link.now)) }
    ensures { get key_cmp firsts.now (key_of link.now) ≡ Some result }
{
    firsts[&row_key(link)]
}
