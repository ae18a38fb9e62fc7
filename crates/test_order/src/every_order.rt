//! Made tables of up to eight stops against all orders.

ghost use Rattle.std.specs.Prelude.{◌≤◌};

use crate::tables::table;
use stop_order::{Costs, Order, best};

// What an order costs that isn't one of all stops, or whose cost is another than it says.
const WRONG: u64 = u64::MAX;

// What the best order of a table costs, if its legs cost as much.
pub fn answer(stops: u8, numbers: &[u64]) -> Option<u64>
    requires some { 1 ≤ stops }
    requires few { stops ≤ 8 }
{
    let costs = table(stops, numbers);
    let order = best(&costs)?;
    match cost_of(&costs, &order) {
        Some(cost) if cost == order.cost => Some(cost),
        _ => Some(WRONG),
    }
}

// What it costs from one place to another.
fn leg(costs: &Costs, from: usize, to: usize) -> Option<u64> {
    *costs.rows.get(from)?.get(to)?
}

// The sum of two costs, of which each may be none.
fn sum_of(a: Option<u64>, b: Option<u64>) -> Option<u64> {
    a?.checked_add(b?)
}

// The lesser of them.
fn lesser(a: Option<u64>, b: Option<u64>) -> Option<u64> {
    match (a, b) {
        (Some(a), Some(b)) => Some(a.min(b)),
        (None, b) => b,
        (a, None) => a,
    }
}

// What an order costs leg by leg, if it has each stop once, and 0 behind the last.
fn cost_of(costs: &Costs, order: &Order) -> Option<u64> {
    let mut gone = [false; 8];
    let mut place = 0;
    let mut sum = Some(0);
    for (turn, stop) in order.places.iter().enumerate() {
        if turn < costs.stops as usize {
            let seen = gone.get_mut(*stop as usize)?;
            if *seen || *stop >= costs.stops {
                return None;
            }
            *seen = true;
            sum = sum_of(sum, leg(costs, place, *stop as usize + 1));
            place = *stop as usize + 1;
        } else if *stop != 0 {
            return None;
        }
    }
    sum_of(sum, leg(costs, place, costs.stops as usize + 1))
}

// The least cost of all orders of the stops that aren't gone, of which there are so many, from a place on.
fn least_of_all(costs: &Costs, place: usize, gone: [bool; 8], left: u8) -> Option<u64> {
    if left == 0 {
        return leg(costs, place, costs.stops as usize + 1);
    }
    let mut least = None;
    for stop in 0..8 {
        if stop < costs.stops as usize && !gone[stop] {
            let mut further = gone;
            further[stop] = true;
            let rest = least_of_all(costs, stop + 1, further, left - 1);
            least = lesser(least, sum_of(leg(costs, place, stop + 1), rest));
        }
    }
    least
}

// Costs below a thousand, and none one time in eight.
fn made(seed: &mut u64) -> [u64; 100] {
    let mut numbers = [0; 100];
    for number in &mut numbers {
        *seed = seed
            .wrapping_mul(6_364_136_223_846_793_005)
            .wrapping_add(1_442_695_040_888_963_407);
        *number = if *seed >> 61 == 0 {
            u64::MAX
        } else {
            (*seed >> 33) % 1000
        };
    }
    numbers
}

// How many of so many made tables, of these numbers of stops in turn, have no order, if all are answered as all orders say.
fn without_order(tables: u32, fewest: u8, most: u8) -> Option<u32>
    requires some { 1 ≤ fewest }
    requires rising { fewest ≤ most }
    requires few { most ≤ 8 }
{
    let mut seed = 20_261_129;
    let mut without = 0;
    for turn in 0..tables {
        let stops = fewest + (turn % (most as u32 - fewest as u32 + 1)) as u8;
        let numbers = made(&mut seed);
        let wanted = least_of_all(&table(stops, &numbers), 0, [false; 8], stops);
        if answer(stops, &numbers) != wanted {
            return None;
        }
        if wanted.is_none() {
            without += 1;
        }
    }
    Some(without)
}

#[test]
fn one_to_six_stops(rt: HostRuntime) {
    let without = without_order(3000, 1, 6);
    assert!(rt; without.is_some_and(|count| 100 < count && count < 1500));
}

#[test]
fn seven_and_eight_stops(rt: HostRuntime) {
    assert!(rt; without_order(20, 7, 8).is_some());
}
