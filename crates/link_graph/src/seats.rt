//! Where nodes stand in the rows in which they have links.

ghost use Rattle.std.specs.Prelude.{◌≡◌, ◌<◌, ◌≤◌, All, IfOk, Some, length, slice_get, sum_by};
ghost use Rattle.link_graph.specs.declared.parts.Crossing.{Crossing as ACrossing};
ghost use Rattle.venue_nodes.specs.declared.members.Membership.{Membership as AMembership};
ghost use Rattle.venue_nodes.specs.Rows.{row_list};
ghost use Rattle.link_graph.specs.Making.{AreRoomy, AreSeats, AreTables, others_among, seats_among};

use crate::parts::{Crossing, Seat};
use std::alloc::Global;
use venue_nodes::{Membership, Rows};
use venue_types::{List, OutOfMemory};

// How many links a member has across its unit.
fn others(crossings: &[Crossing], membership: Membership) -> u32
    requires { (crossing : ACrossing) → slice_get crossings.now membership.unit ≡ Some crossing → membership.place < length crossing.sights }
    ensures { result ≡ others_among crossings.now membership.unit membership.place }
{
    match crossings.get(membership.unit as usize) {
        Some(crossing) if crossing.walked => crossing.sights.count(membership.place),
        _ => 0,
    }
}

// The seats of a node that is a member of these units.
fn seats_in(
    alloc: Global,
    crossings: &[Crossing],
    memberships: &[Membership],
) -> Result<List<Seat>, OutOfMemory>
    requires places { All (λ (m : AMembership). (crossing : ACrossing) → slice_get crossings.now m.unit ≡ Some crossing → m.place < length crossing.sights) memberships.now }
    requires few { sum_by (λ (m : AMembership). others_among crossings.now m.unit m.place) memberships.now ≤ 20000000 }
    ensures { IfOk result (λ seats. seats ≡ seats_among crossings.now 0 memberships.now) }
{
    let mut seats = List::new(alloc);
    let mut first = 0;
    for membership in memberships {
        let count = others(crossings, *membership);
        if count > 0 {
            seats.push(Seat {
                row: membership.unit,
                place: membership.place,
                first,
            })?;
            first += count;
        }
    }
    Ok(seats)
}

/// For each of so many nodes its seats. Takes time in proportion to their number and that of the members of rows.
pub(crate) fn seats_of(
    alloc: Global,
    count: u32,
    rows: &Rows,
    crossings: &[Crossing],
) -> Result<Vec<List<Seat>>, OutOfMemory>
    requires tables { AreTables crossings.now (row_list rows.now) }
    requires roomy { AreRoomy (row_list rows.now) }
    ensures { IfOk result (λ seats. AreSeats crossings.now (row_list rows.now) count seats.items) }
{
    let mut seats = Vec::with_capacity(alloc, count as usize)?;
    for node in 0..count {
        let memberships = rows.memberships(node);
        seats.push(seats_in(alloc, crossings, memberships)?)?;
    }
    Ok(seats)
}
