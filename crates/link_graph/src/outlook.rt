//! Into which stretches the links out of a node fall.

ghost use Rattle.std.specs.Prelude.{◌≡◌, ◌<◌, ℕ, List, Some, Contains, length, slice_get};
ghost use Rattle.venue_nodes.specs.Rows.{row_list};
ghost use Rattle.link_graph.specs.Cores.{IsSoundCore, network_in, seats_at, stretch_of, stretches_in};

use crate::leads::{across_end, others};
use crate::parts::{Core, Seat};
use crate::stretches::{Stretch, Way};

/// How many stretches the links out of a node have.
#[tactic(auto, unfolding(crate::specs::Cores::network_in))]
pub(crate) fn stretch_count(core: &Core, n: u32) -> u32
    requires sound { IsSoundCore core.now }
    requires node { n < length (network_in core.now).nodes }
    ensures { result ≡ length (stretches_in core.now n) }
{
    core.seats[n as usize].len() as u32 + 1
}

/// One of them.
#[tactic(auto, unfolding(crate::specs::Cores::network_in))]
pub(crate) fn stretch_at(core: &Core, n: u32, k: u32) -> Stretch
    requires sound { IsSoundCore core.now }
    requires node { n < length (network_in core.now).nodes }
    requires stretch { k < length (stretches_in core.now n) }
    ensures { slice_get (stretches_in core.now n) k ≡ Some result }
{
    match core.seats[n as usize].get(k as usize) {
        Some(seat) => seat_stretch(core, seat),
        None => Stretch {
            way: Way::Between,
            first: across_end(core, n),
            count: core.leaving[n as usize].len() as u32,
        },
    }
}

// The links across the unit of a seat.
fn seat_stretch(core: &Core, seat: &Seat) -> Stretch
    requires sound { IsSoundCore core.now }
    requires row { seat.now.row < length core.now.crossings.items }
    requires place { (members : List ℕ) → slice_get (row_list core.now.rows) seat.now.row ≡ Some members → seat.now.place < length members }
    ensures { result ≡ stretch_of core.now seat.now }
{
    let crossing = &core.crossings[seat.row as usize];
    Stretch {
        way: Way::Inside {
            via: crossing.via,
            kind: crossing.kind,
            restricted: core.barred[crossing.via as usize],
        },
        first: seat.first,
        count: others(core, seat.row, seat.place),
    }
}
