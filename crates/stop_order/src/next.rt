//! The stop to go to next, where all ways through fewer stops are known.

ghost use Rattle.std.specs.Prelude.{◌≡◌, ◌⊎◌, ◌≤◌, ◌<◌, ◌^◌};
ghost use Rattle.std.specs.Int.{bit_at};
ghost use Rattle.stop_order.specs.Sums.{AreCapped, IsKnown, IsLeast, IsNext, IsSum};

use crate::legs::{Legs, leg_cost};
use crate::sets::{one_of, without};
use crate::table::{Table, sum_at};

/// The next stop of a way, and what the whole way costs in centimetres.
#[derive(Clone, Copy)]
pub struct Choice {
    pub stop: usize,
    pub sum: u64,
}

/// The least that a way costs from a place through the stops of a set to the end.
pub fn least(legs: &Legs, table: &Table, set: usize, place: usize) -> u64
    requires capped { AreCapped legs.now }
    requires stops { set < 2 ^ legs.now.stops }
    requires place { place < 10 }
    requires known { IsKnown legs.now table.now set }
    ensures { IsLeast legs.now set place result }
{
    if set == 0 {
        leg_cost(legs, place, legs.stops + 1)
    } else {
        next(legs, table, set, place).sum
    }
}

/// The stop of a set to which a least way leads first.
pub fn next(legs: &Legs, table: &Table, set: usize, place: usize) -> Choice
    requires capped { AreCapped legs.now }
    requires stops { set < 2 ^ legs.now.stops }
    requires place { place < 10 }
    requires known { IsKnown legs.now table.now set }
    requires some { 0 < set }
    ensures next { IsNext legs.now table.now set place result }
    ensures few { result.stop < legs.now.stops }
{
    let stop = one_of(set);
    let mut best = choice_of(legs, table, set, place, stop);
    let mut left = without(set, stop);
    while left != 0 {
        let stop = one_of(left);
        left = without(left, stop);
        best = lesser(best, choice_of(legs, table, set, place, stop));
    }
    best
}

// The best way that leads to this stop first.
fn choice_of(legs: &Legs, table: &Table, set: usize, place: usize, stop: usize) -> Choice
    requires capped { AreCapped legs.now }
    requires stops { set < 2 ^ legs.now.stops }
    requires place { place < 10 }
    requires known { IsKnown legs.now table.now set }
    requires few { stop < 8 }
    requires has { bit_at set stop ≡ 1 }
    ensures stop { result.stop ≡ stop }
    ensures sum { IsSum legs.now table.now set place result }
{
    let rest = sum_at(table, without(set, stop), stop);
    Choice {
        stop,
        sum: leg_cost(legs, place, stop + 1) + rest,
    }
}

fn lesser(a: Choice, b: Choice) -> Choice
    ensures either { (result ≡ a) ⊎ (result ≡ b) }
    ensures first { result.sum ≤ a.sum }
    ensures second { result.sum ≤ b.sum }
{
    if b.sum < a.sum { b } else { a }
}
