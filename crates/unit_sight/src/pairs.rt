//! The pairs of a room, each asked once.

ghost use Rattle.std.specs.Prelude.{◌≡◌, ℕ, ◌+◌, ◌<◌, false, not, ◌==◌, length, IfOk, IfSome};
ghost use Rattle.venue_types.specs.declared.point.Shape.{Shape};
ghost use Rattle.plane_exact.specs.Scaled.{scaled};
ghost use Rattle.plane_exact.specs.Walls.{IsWallOf};
ghost use Rattle.unit_sight.specs.Tables.{table_of};
ghost use Rattle.unit_sight.specs.Rooms.{sees_in};
ghost use Rattle.unit_sight.specs.Finding.{FitsRoom, asked, all_asked};

use crate::asking::sees;
use crate::bits::Bits;
use plane_exact::Wall;
use plane_trees::Bands;
use venue_types::Spot;

/// A room whose pairs are asked: its shape with all numbers taken four times, made ready, and its places.
#[derive(Drop)]
pub(crate) struct Room<'a> {
    pub bands: Bands<'a>,
    pub spots: &'a [Spot],
    pub tolerance: u32,
}

/// Joins each two places that see each other, in a table that joins none. Half of the pairs are asked: who is seen sees.
pub(crate) fn join_seeing(room: &Room, bits: &mut Bits)
    requires fits { FitsRoom room.now.bands room.now.spots.now room.now.tolerance }
    requires blank { bits.old ≡ table_of (length room.now.spots.now) (λ a b. false) }
    ensures { (shape : Shape) → room.now.bands ≡ scaled 4 shape → bits.new ≡ table_of (length room.now.spots.now) (all_asked (sees_in shape room.now.spots.now room.now.tolerance)) }
{
    let mut last = None;
    for i in 0..bits.size() {
        join_row(room, i, &mut last, bits);
    }
}

// Joins i to the places in front of it that it sees.
fn join_row(room: &Room, i: u32, last: &mut Option<Wall>, bits: &mut Bits)
    requires fits { FitsRoom room.now.bands room.now.spots.now room.now.tolerance }
    requires place { i < length room.now.spots.now }
    requires wall { IfSome last.old (λ wall. IsWallOf room.now.bands wall) }
    requires size { length bits.old ≡ length room.now.spots.now }
    ensures wall { IfSome last.new (λ wall. IsWallOf room.now.bands wall) }
    ensures size { length bits.new ≡ length room.now.spots.now }
    ensures told { (shape : Shape) → room.now.bands ≡ scaled 4 shape → bits.old ≡ table_of (length room.now.spots.now) (asked (sees_in shape room.now.spots.now room.now.tolerance) i 0) → bits.new ≡ table_of (length room.now.spots.now) (asked (sees_in shape room.now.spots.now room.now.tolerance) (i + 1) 0) }
{
    for j in 0..i {
        if sees_other(room, i, j, last) {
            bits.join(i, j);
        }
    }
}

// Whether two places see each other.
fn sees_other(room: &Room, i: u32, j: u32, last: &mut Option<Wall>) -> bool
    requires fits { FitsRoom room.now.bands room.now.spots.now room.now.tolerance }
    requires first { i < length room.now.spots.now }
    requires second { j < length room.now.spots.now }
    requires wall { IfSome last.old (λ wall. IsWallOf room.now.bands wall) }
    ensures wall { IfSome last.new (λ wall. IsWallOf room.now.bands wall) }
    ensures told { (shape : Shape) → room.now.bands ≡ scaled 4 shape → result ≡ sees_in shape room.now.spots.now room.now.tolerance i j }
{
    sees(
        &room.bands,
        room.spots[i as usize],
        room.spots[j as usize],
        room.tolerance,
        last,
    )
}
