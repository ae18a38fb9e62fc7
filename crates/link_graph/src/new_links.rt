//! The links of a stretch that lead to what isn't known from another node, one after another.

ghost use Rattle.std.specs.Prelude.{◌≡◌, ◌<◌, ◌^◌, ℕ, IfSome, IsSome, None, Some, Contains, length, slice_get};
ghost use Rattle.venue_types.specs.declared.link.Link.{Link as ALink};
ghost use Rattle.link_graph.specs.declared.stretches.Stretch.{Stretch as AStretch};
ghost use Rattle.link_graph.specs.Cores.{IsSoundCore, network_in, seats_at, stretch_of};
ghost use Rattle.link_graph.specs.Detours.{AreKnown, HasLinkAcross, IsNewIn};
ghost use Rattle.link_graph.specs.Lower.{lower_of};
ghost use Rattle.link_graph.specs.Networks.{links_out};
ghost use Rattle.link_graph.specs.Rests.{rest_of, HasSeatIn, IsPlaceOf};

use crate::leads::{across_end, passage};
use crate::out_links::{lower_across, lower_passage};
use crate::parts::{Core, Seat};
use venue_types::Link;

/// A link out of a node.
#[derive(Clone, Copy, Debug, PartialEq, Eq)]
pub struct NewLink {
    /// Its place among those out of the node, from 0.
    pub place: u32,
    /// The node to which it leads.
    pub to: u32,
}

/// The first link of a stretch, from a place on, that isn't known from a node.
#[tactic(auto, unfolding(crate::specs::Cores::network_in))]
pub(crate) fn next_new(
    core: &Core,
    n: u32,
    k: u32,
    known: Option<u32>,
    place: u32,
) -> Option<NewLink>
    requires sound { IsSoundCore core.now }
    requires node { n < length (network_in core.now).nodes }
    requires stretch { k < length ((network_in core.now).stretches n) }
    requires known { (stretch : AStretch) → slice_get ((network_in core.now).stretches n) k ≡ Some stretch → HasLinkAcross (network_in core.now) stretch.way known }
    ensures told { (stretch : AStretch) → slice_get ((network_in core.now).stretches n) k ≡ Some stretch → IfSome result (IsNewIn (network_in core.now) n stretch place) }
    ensures passed { (stretch : AStretch) → slice_get ((network_in core.now).stretches n) k ≡ Some stretch → AreKnown (network_in core.now) n stretch known place result }
{
    match core.seats[n as usize].get(k as usize) {
        Some(seat) => next_across(core, n, seat, known, place),
        None => next_passage(core, n, place),
    }
}

/// A link that was found in a stretch, where it leads to its end at a cost below the one that is listed.
#[tactic(auto, unfolding(crate::specs::Cores::network_in))]
pub(crate) fn lower_new(
    core: &Core,
    n: u32,
    k: u32,
    found: NewLink,
    base: u64,
    least: &[u64],
) -> Option<Link>
    requires sound { IsSoundCore core.now }
    requires node { n < length (network_in core.now).nodes }
    requires stretch { k < length ((network_in core.now).stretches n) }
    requires found { (stretch : AStretch) → slice_get ((network_in core.now).stretches n) k ≡ Some stretch → IsNewIn (network_in core.now) n stretch 0 found }
    requires entries { length least.now ≡ length (network_in core.now).nodes }
    requires base { base < 2 ^ 42 }
    ensures { (link : ALink) → slice_get (links_out (network_in core.now) n) found.place ≡ Some link → result ≡ lower_of least.now base link }
{
    let entry = least[found.to as usize];
    match core.seats[n as usize].get(k as usize) {
        Some(seat) => lower_across(
            core,
            core.crossings[seat.row as usize].way(),
            n,
            found.to,
            base,
            entry,
        ),
        None => lower_passage(
            passage(core, n, found.place - across_end(core, n)),
            base,
            entry,
        ),
    }
}

// The first across the unit of a seat. Where any two of its members are joined all are known from each.
fn next_across(core: &Core, n: u32, seat: &Seat, known: Option<u32>, place: u32) -> Option<NewLink>
    requires sound { IsSoundCore core.now }
    requires seat { Contains (seats_at core.now n) seat.now }
    requires known { HasLinkAcross (network_in core.now) (stretch_of core.now seat.now).way known }
    ensures told { IfSome result (IsNewIn (network_in core.now) n (stretch_of core.now seat.now) place) }
    ensures passed { AreKnown (network_in core.now) n (stretch_of core.now seat.now) known place result }
{
    let crossing = &core.crossings[seat.row as usize];
    if known.is_some() && crossing.sights.is_whole() {
        return None;
    }
    let from = crossing
        .sights
        .nth(seat.place, place.max(seat.first) - seat.first)?;
    let a = known_place(core, seat.row, known);
    let found = crossing.sights.next(seat.place, a, from)?;
    Some(NewLink {
        place: seat.first + crossing.sights.rank(seat.place, found),
        to: core.rows.row(seat.row)[found as usize],
    })
}

// Where a node stands in a row in which it has links, if one is told.
fn known_place(core: &Core, row: u32, known: Option<u32>) -> Option<u32>
    requires sound { IsSoundCore core.now }
    requires known { IfSome known (HasSeatIn core.now row) }
    ensures none { known ≡ None → result ≡ None }
    ensures some { (a : ℕ) → known ≡ Some a → IfSome result (IsPlaceOf core.now row a) × IsSome result }
{
    let a = known?;
    for seat in core.seats[a as usize].as_slice() {
        if seat.row == row {
            return Some(seat.place);
        }
    }
    None
}

// The first by a relationship. None is known from another node.
#[tactic(auto, unfolding(crate::specs::Cores::network_in))]
fn next_passage(core: &Core, n: u32, place: u32) -> Option<NewLink>
    requires sound { IsSoundCore core.now }
    requires node { n < length (network_in core.now).nodes }
    ensures told { IfSome result (IsNewIn (network_in core.now) n (rest_of core.now n) place) }
    ensures passed { AreKnown (network_in core.now) n (rest_of core.now n) None place result }
{
    let first = across_end(core, n);
    let at = place.max(first);
    if (at - first) as usize >= core.leaving[n as usize].len() {
        return None;
    }
    Some(NewLink {
        place: at,
        to: passage(core, n, at - first).to,
    })
}
