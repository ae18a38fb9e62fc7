//! What a link asks of who uses it, and whether it is open.

ghost use Rattle.std.specs.Prelude.{◌≡◌, ◌↔◌, ◌<◌, IsTrue, Contains, length};
ghost use Rattle.link_graph.specs.Cores.{IsSoundCore, network_in};
ghost use Rattle.link_graph.specs.Facts.{IsNodeClosed, IsWayClosed};
ghost use Rattle.link_graph.specs.Marking.{AreMarksOf, marked};
ghost use Rattle.link_graph.specs.Networks.{IsFree, joined_facts, link_facts};

use crate::marks::Marks;
use crate::parts::Core;
use imdf_access::EndFacts;
use venue_types::{Kind, Link, LinkFacts};

/// What a node asks of who passes it.
pub(crate) fn ends(core: &Core, n: u32) -> EndFacts
    requires sound { IsSoundCore core.now }
    requires node { n < length (network_in core.now).nodes }
    ensures { result ≡ (network_in core.now).ends n }
{
    core.doors[n as usize].facts
}

/// What a link asks of who uses it.
pub(crate) fn facts(core: &Core, link: &Link) -> LinkFacts
    requires sound { IsSoundCore core.now }
    requires there { Contains (network_in core.now).links link.now }
    ensures { result ≡ link_facts (network_in core.now) link.now }
{
    let barred = core.barred[link.via as usize];
    joined(
        link.kind,
        barred,
        &ends(core, link.from),
        &ends(core, link.to),
    )
}

// What is asked by a way of the kind, barred or not, and by what stands at both ends.
fn joined(kind: Kind, barred: bool, from: &EndFacts, to: &EndFacts) -> LinkFacts
    ensures { result ≡ joined_facts kind barred from.now to.now }
{
    LinkFacts {
        kind,
        restricted: barred || (from.restricted || to.restricted),
        revolving: from.revolving || to.revolving,
        turnstile: from.turnstile || to.turnstile,
        unmarked: from.unmarked || to.unmarked,
        out: from.out || to.out,
    }
}

/// Whether the feature of a node is open for the profile of this number.
pub(crate) fn is_node_free(core: &Core, n: u32, marks: &Marks, profile: u8) -> bool
    requires sound { IsSoundCore core.now }
    requires node { n < length (network_in core.now).nodes }
    requires marks { AreMarksOf (network_in core.now) marks.now }
    requires profile { profile < 16 }
    ensures { IsTrue result ↔ ¬ IsNodeClosed (network_in core.now).nodes (marked (network_in core.now) marks.now profile) n }
{
    match core.doors[n as usize].closable {
        Some(k) => !marks.is_marked(k, profile),
        None => true,
    }
}

// Whether the unit or the relationship of this number is open for the profile.
fn is_way_free(core: &Core, via: u32, marks: &Marks, profile: u8) -> bool
    requires sound { IsSoundCore core.now }
    requires way { via < length (network_in core.now).closables }
    requires marks { AreMarksOf (network_in core.now) marks.now }
    requires profile { profile < 16 }
    ensures { IsTrue result ↔ ¬ IsWayClosed (network_in core.now).closables (marked (network_in core.now) marks.now profile) via }
{
    !marks.is_marked(via, profile)
}

/// Whether nothing at a link is closed for the profile of this number.
pub(crate) fn is_free(core: &Core, link: &Link, marks: &Marks, profile: u8) -> bool
    requires sound { IsSoundCore core.now }
    requires there { Contains (network_in core.now).links link.now }
    requires marks { AreMarksOf (network_in core.now) marks.now }
    requires profile { profile < 16 }
    ensures { IsTrue result ↔ IsFree (network_in core.now) (marked (network_in core.now) marks.now profile) link.now }
{
    is_way_free(core, link.via, marks, profile)
        && is_node_free(core, link.from, marks, profile)
        && is_node_free(core, link.to, marks, profile)
}
