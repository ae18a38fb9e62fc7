//! Which link stands at a place among those out of a node.

ghost use Rattle.std.specs.Prelude.{◌≡◌, ◌<◌, ℕ, List, MatchOption, Contains, Some, length, slice_get};
ghost use Rattle.venue_nodes.specs.Rows.{row_list};
ghost use Rattle.std.specs.List.Sorted.{IsNonDecreasingBy};
ghost use Rattle.link_graph.specs.declared.parts.Crossing.{Crossing as ACrossing};
ghost use Rattle.link_graph.specs.declared.parts.Seat.{Seat as ASeat};
ghost use Rattle.link_graph.specs.Cores.{IsSoundCore, link_across, network_in, others_in, seats_at, leaving_at, across_count};
ghost use Rattle.link_graph.specs.Leads.{HasNoSeat, IsLastSeat, lead_link, links_of_row, passages_out};
ghost use Rattle.link_graph.specs.Networks.{links_out};

use crate::parts::{Core, Seat, UnitWay};
use venue_types::Link;

/// A link out of a node.
pub(crate) enum Lead {
    /// Across a unit to a node. Its length is not computed.
    Across { unit: UnitWay, to: u32 },
    /// By a relationship.
    Passage(Link),
}

/// The link at a place among those that start at a node, without its length where it goes across a unit. Takes time logarithmic in the
/// number of units of the node.
#[tactic(auto, unfolding(crate::specs::Cores::network_in))]
pub(crate) fn lead_at(core: &Core, n: u32, place: u32) -> Lead
    requires sound { IsSoundCore core.now }
    requires node { n < length (network_in core.now).nodes }
    requires place { place < length (links_out (network_in core.now) n) }
    ensures { slice_get (links_out (network_in core.now) n) place ≡ Some (lead_link core.now n result) }
{
    match last_seat(core.seats[n as usize].as_slice(), place) {
        None => Lead::Passage(passage(core, n, place)),
        Some(seat) => {
            let behind = place - seat.first;
            let count = others(core, seat.row, seat.place);
            if behind < count {
                across(core, n, &seat, behind)
            } else {
                Lead::Passage(passage(core, n, behind - count))
            }
        }
    }
}

/// How many links the member at a place of a row has across its unit.
pub(crate) fn others(core: &Core, row: u32, place: u32) -> u32
    requires sound { IsSoundCore core.now }
    requires place { (members : List ℕ) → slice_get (row_list core.now.rows) row ≡ Some members → place < length members }
    ensures { result ≡ others_in core.now row place }
{
    match core.crossings.get(row as usize) {
        Some(crossing) if crossing.walked => crossing.sights.count(place),
        _ => 0,
    }
}

/// How many links a node has across units, behind which those by relationships stand.
#[tactic(auto, unfolding(crate::specs::Cores::network_in))]
pub(crate) fn across_end(core: &Core, n: u32) -> u32
    requires sound { IsSoundCore core.now }
    requires node { n < length (network_in core.now).nodes }
    ensures { result ≡ across_count core.now n }
{
    match core.seats[n as usize].as_slice().last() {
        None => 0,
        Some(seat) => seat.first + others(core, seat.row, seat.place),
    }
}

// The last of the seats whose links begin at the place or before it.
fn last_seat(seats: &[Seat], place: u32) -> Option<Seat>
    requires { IsNonDecreasingBy (λ (seat : ASeat). seat.first) seats.now }
    ensures { MatchOption result (HasNoSeat seats.now place) (IsLastSeat seats.now place) }
{
    let count = seats.partition_point(|seat| seat.first <= place);
    if count == 0 {
        None
    } else {
        Some(seats[count - 1])
    }
}

// One of the links across the unit of a seat.
fn across(core: &Core, n: u32, seat: &Seat, k: u32) -> Lead
    requires sound { IsSoundCore core.now }
    requires seat { Contains (seats_at core.now n) seat.now }
    requires k { k < others_in core.now seat.now.row seat.now.place }
    ensures { slice_get (links_of_row core.now n seat.now.row) k ≡ Some (lead_link core.now n result) }
{
    Lead::Across {
        unit: core.crossings[seat.row as usize].way(),
        to: end_across(core, n, seat, k),
    }
}

/// Where one of the links across the unit of a seat leads.
pub(crate) fn end_across(core: &Core, n: u32, seat: &Seat, k: u32) -> u32
    requires sound { IsSoundCore core.now }
    requires seat { Contains (seats_at core.now n) seat.now }
    requires k { k < others_in core.now seat.now.row seat.now.place }
    ensures { (crossing : ACrossing) → slice_get core.now.crossings.items seat.now.row ≡ Some crossing → slice_get (links_of_row core.now n seat.now.row) k ≡ Some (link_across core.now crossing n result) }
{
    let crossing = &core.crossings[seat.row as usize];
    match crossing.sights.nth(seat.place, k) {
        Some(place) => core.rows.row(seat.row)[place as usize],
        // Never: it has more than k.
        None => n,
    }
}

/// One of the links by relationships.
pub(crate) fn passage(core: &Core, n: u32, k: u32) -> Link
    requires sound { IsSoundCore core.now }
    requires k { k < length (leaving_at core.now n) }
    ensures { slice_get (passages_out core.now n) k ≡ Some result }
{
    let number = core.leaving[n as usize].as_slice()[k as usize];
    core.passages[number as usize]
}
