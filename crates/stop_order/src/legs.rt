//! The costs as numbers throughout, in which a great one stands where no way leads.

ghost use Rattle.std.specs.Prelude.{◌≡◌, ◌≤◌, ◌<◌};
ghost use Rattle.stop_order.specs.Orders.{AreSmall, cost_between};
ghost use Rattle.stop_order.specs.Sums.{AreCapped, AreLegs, leg, or_far};

use crate::costs::Costs;

/// What stands for a leg without a way, in centimetres: more than all legs of a tour together.
pub const FAR: u64 = 1 << 50;

/// What each leg costs in centimetres, ten from each place: `FAR` where no way leads.
#[derive(Drop)]
pub struct Legs {
    pub stops: usize,
    pub costs: [u64; 100],
}

/// The legs of a table of costs.
pub fn legs_of(costs: &Costs) -> Legs
    requires few { costs.now.stops ≤ 8 }
    requires small { AreSmall costs.now }
    ensures legs { AreLegs costs.now result }
    ensures capped { AreCapped result }
{
    let mut legs = [0; 100];
    for i in 0..100 {
        legs[i] = cost_or_far(costs, i / 10, i % 10);
    }
    Legs {
        stops: costs.stops as usize,
        costs: legs,
    }
}

fn cost_or_far(costs: &Costs, from: usize, to: usize) -> u64
    requires from { from < 10 }
    requires to { to < 10 }
    ensures { result ≡ or_far (cost_between costs.now from to) }
{
    costs.rows[from][to].unwrap_or(FAR)
}

/// What it costs from a place to another.
pub fn leg_cost(legs: &Legs, from: usize, to: usize) -> u64
    requires from { from < 10 }
    requires to { to < 10 }
    ensures { result ≡ leg legs.now from to }
{
    legs.costs[10 * from + to]
}
