//! The straight ways between nodes.

ghost use Rattle.std.specs.Prelude.{◌≡◌, ℕ, ◌+◌, ◌<◌, ◌≤◌, ◌↔◌, IsTrue, MatchOption, length};
ghost use Rattle.venue_nodes.specs.Views.{node_list};
ghost use Rattle.link_graph.specs.Cores.{IsSoundCore, link_by, spot_in, way_in};

use crate::parts::{Core, UnitWay};
use plane_exact::{length_cm, spans};
use venue_types::{Link, Spot};

// No way between two nodes is longer, in centimetres.
const LONGEST: u32 = 5_700_000;

/// The link across a unit from node to node.
pub(crate) fn across_link(core: &Core, unit: UnitWay, a: u32, b: u32) -> Link
    requires sound { IsSoundCore core.now }
    requires from { a < length (node_list core.now.nodes) }
    requires to { b < length (node_list core.now.nodes) }
    ensures { result ≡ link_by core.now unit a b }
{
    Link {
        from: a,
        to: b,
        via: unit.via,
        cost: way(core, a, b),
        kind: unit.kind,
    }
}

/// Whether the way from node to node is no longer than so many centimetres, which computes no length.
pub(crate) fn is_within(core: &Core, a: u32, b: u32, room: u32) -> bool
    requires sound { IsSoundCore core.now }
    requires from { a < length (node_list core.now.nodes) }
    requires to { b < length (node_list core.now.nodes) }
    ensures { IsTrue result ↔ way_in core.now a b ≤ room }
{
    spans(spot(core, a), spot(core, b), core.kx, core.ky, room)
}

/// How long a way may be to lead from a node that costs `base` to one that is listed at `entry` at less than that, if any is so short.
pub(crate) fn room_below(base: u64, entry: u64) -> Option<u32>
    ensures { MatchOption result (entry ≤ base) (λ room. (c : ℕ) → c ≤ 5700000 → (c ≤ room) ↔ (base + c < entry)) }
{
    if entry <= base {
        None
    } else {
        let room = entry - base - 1;
        Some(room.min(u64::from(LONGEST)) as u32)
    }
}

// The length of the way from node to node, in centimetres.
fn way(core: &Core, a: u32, b: u32) -> u32
    requires sound { IsSoundCore core.now }
    requires from { a < length (node_list core.now.nodes) }
    requires to { b < length (node_list core.now.nodes) }
    ensures { result ≡ way_in core.now a b }
{
    length_cm(spot(core, a), spot(core, b), core.kx, core.ky)
}

// Where a node is.
fn spot(core: &Core, n: u32) -> Spot
    requires { n < length (node_list core.now.nodes) }
    ensures { result ≡ spot_in core.now n }
{
    core.nodes.node(n).spot
}
