//! The links out of a node, each made when it is asked for.

ghost use Rattle.std.specs.Prelude.{◌≡◌, ◌<◌, ◌^◌, Some, length, slice_get};
ghost use Rattle.venue_nodes.specs.Views.{node_list};
ghost use Rattle.link_graph.specs.Cores.{IsSoundCore, link_by, network_in};
ghost use Rattle.link_graph.specs.Leads.{lower_than};
ghost use Rattle.link_graph.specs.Networks.{links_out};

use crate::leads::{Lead, across_end, lead_at};
use crate::parts::{Core, UnitWay};
use crate::ways::{across_link, is_within, room_below};
use venue_types::Link;

/// How many links start at a node.
#[tactic(auto, unfolding(crate::specs::Cores::network_in))]
pub(crate) fn out_count(core: &Core, n: u32) -> u32
    requires sound { IsSoundCore core.now }
    requires node { n < length (network_in core.now).nodes }
    ensures { result ≡ length (links_out (network_in core.now) n) }
{
    across_end(core, n) + core.leaving[n as usize].len() as u32
}

/// The link at a place among those that start at a node. Takes time logarithmic in the number of units of the node.
#[tactic(auto, unfolding(crate::specs::Cores::network_in))]
pub(crate) fn out_link(core: &Core, n: u32, place: u32) -> Link
    requires sound { IsSoundCore core.now }
    requires node { n < length (network_in core.now).nodes }
    requires place { place < length (links_out (network_in core.now) n) }
    ensures { slice_get (links_out (network_in core.now) n) place ≡ Some result }
{
    match lead_at(core, n, place) {
        Lead::Across { unit, to } => across_link(core, unit, n, to),
        Lead::Passage(link) => link,
    }
}

// The link across a unit, if it leads to its end below the entry. Only then is its length computed.
pub(crate) fn lower_across(
    core: &Core,
    unit: UnitWay,
    a: u32,
    b: u32,
    base: u64,
    entry: u64,
) -> Option<Link>
    requires sound { IsSoundCore core.now }
    requires from { a < length (node_list core.now.nodes) }
    requires to { b < length (node_list core.now.nodes) }
    ensures { result ≡ lower_than entry base (link_by core.now unit a b) }
{
    let room = room_below(base, entry)?;
    if is_within(core, a, b, room) {
        Some(across_link(core, unit, a, b))
    } else {
        None
    }
}

/// The link by a relationship, if it leads to its end below the entry.
pub(crate) fn lower_passage(link: Link, base: u64, entry: u64) -> Option<Link>
    requires { base < 2 ^ 42 }
    ensures { result ≡ lower_than entry base link }
{
    if base + u64::from(link.cost) < entry {
        Some(link)
    } else {
        None
    }
}
