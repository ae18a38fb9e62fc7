//! The best order.

ghost use Rattle.std.specs.Prelude.{◌≡◌, ◌≤◌, ◌-◌, ◌^◌, ℕ, List, None, IfSome, IfNone, take, drop, replicate};
ghost use Rattle.stop_order.specs.Orders.{AreSmall, IsBest, IsOrder, order_cost};
ghost use Rattle.stop_order.specs.Sums.{AreCapped, IsKnown, IsLeast, IsWay, way_sum};

use crate::costs::Costs;
use crate::legs::{FAR, Legs, legs_of};
use crate::next::{least, next};
use crate::order::Order;
use crate::sets::{only, without};
use crate::table::{Table, table_of};

/// An order of the stops that costs least, or nothing exactly where no order has a cost. Takes no memory but a table of its own on the stack.
pub fn best(costs: &Costs) -> Option<Order>
    requires some { 1 ≤ costs.now.stops }
    requires few { costs.now.stops ≤ 8 }
    requires small { AreSmall costs.now }
    ensures best { IfSome result (λ order. IsBest costs.now (take order.stops order.places) order.cost) }
    ensures stops { IfSome result (λ order. order.stops ≡ costs.now.stops) }
    ensures rest { IfSome result (λ order. drop order.stops order.places ≡ replicate (8 - order.stops) 0) }
    ensures none { IfNone result ((order : List ℕ) → IsOrder costs.now.stops order → order_cost costs.now order ≡ None) }
{
    let legs = legs_of(costs);
    let order = least_order(&legs, &table_of(&legs));
    if order.cost < FAR { Some(order) } else { None }
}

// The order of a least way through all stops.
fn least_order(legs: &Legs, table: &Table) -> Order
    requires capped { AreCapped legs.now }
    requires known { IsKnown legs.now table.now (2 ^ legs.now.stops) }
    ensures stops { result.stops ≡ legs.now.stops }
    ensures rest { drop result.stops result.places ≡ replicate (8 - result.stops) 0 }
    ensures way { IsWay (2 ^ legs.now.stops - 1) (take result.stops result.places) }
    ensures cost { way_sum legs.now 0 (take result.stops result.places) ≡ result.cost }
    ensures least { IsLeast legs.now (2 ^ legs.now.stops - 1) 0 result.cost }
{
    let mut left = only(legs.stops) - 1;
    let cost = least(legs, table, left, 0);
    let mut place = 0;
    let mut places = [0; 8];
    for turn in 0..legs.stops {
        let stop = next(legs, table, left, place).stop;
        places[turn] = stop as u8;
        left = without(left, stop);
        place = stop + 1;
    }
    Order {
        stops: legs.stops as u8,
        places,
        cost,
    }
}
