//! What the least way costs through each set of stops from each stop outside it.

ghost use Rattle.std.specs.Prelude.{◌≡◌, ℕ, ◌≤◌, ◌<◌, ◌^◌, ◌+◌, ◌*◌, ◌≢◌};
ghost use Rattle.std.specs.Int.{bit_at};
ghost use Rattle.stop_order.specs.Sums.{AreCapped, IsKnown, IsLeast, sum_in};

use crate::legs::Legs;
use crate::next::least;
use crate::sets::{has, only};

/// The least that a way costs in centimetres from a stop through the stops of a set to the end, eight for each set.
#[derive(Drop)]
pub struct Table {
    pub sums: [u64; 2048],
}

/// The table for these legs.
pub fn table_of(legs: &Legs) -> Table
    requires { AreCapped legs.now }
    ensures { IsKnown legs.now result (2 ^ legs.now.stops) }
{
    let mut table = Table { sums: [0; 2048] };
    for set in 0..only(legs.stops) {
        fill_set(&mut table, legs, set);
    }
    table
}

// The sums through this set, where those through the sets before it are known.
fn fill_set(table: &mut Table, legs: &Legs, set: usize)
    requires capped { AreCapped legs.now }
    requires stops { set < 2 ^ legs.now.stops }
    requires known { IsKnown legs.now table.old set }
    ensures { IsKnown legs.now table.new (set + 1) }
{
    for stop in 0..legs.stops {
        fill(table, legs, set, stop);
    }
}

// The sum through this set from one stop, unless that is in the set.
fn fill(table: &mut Table, legs: &Legs, set: usize, stop: usize)
    requires capped { AreCapped legs.now }
    requires stops { set < 2 ^ legs.now.stops }
    requires known { IsKnown legs.now table.old set }
    requires stop { stop < 8 }
    ensures filled { bit_at set stop ≡ 0 → IsLeast legs.now set (stop + 1) (sum_in table.new set stop) }
    ensures others { (s j : ℕ) → j < 8 → 8 * s + j ≢ 8 * set + stop → sum_in table.new s j ≡ sum_in table.old s j }
{
    if !has(set, stop) {
        let sum = least(legs, table, set, stop + 1);
        table.sums[8 * set + stop] = sum;
    }
}

/// The sum through a set from a stop.
pub fn sum_at(table: &Table, set: usize, stop: usize) -> u64
    requires set { set < 256 }
    requires stop { stop < 8 }
    ensures { result ≡ sum_in table.now set stop }
{
    table.sums[8 * set + stop]
}
