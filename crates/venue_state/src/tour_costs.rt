//! The costs of the ways between the places of a tour.

ghost use Rattle.std.specs.Prelude.{◌≡◌, ◌<◌, ◌≤◌};
ghost use Rattle.venue_state.specs.Touring.{AreCostsOf, IsCostRowTo, way_at, way_cost};

use crate::tour_ways::{Way, way_at};
use stop_order::Costs;
use venue_types::List;

/// What each way of a table costs.
pub(crate) fn costs_of(table: &[List<Option<Way>>], stops: u8) -> Costs
    ensures stops { result.stops ≡ stops }
    ensures costs { AreCostsOf table.now result }
{
    let mut rows = [[None; 10]; 10];
    for i in 0..10 {
        rows[i] = cost_row(table, i);
    }
    Costs { stops, rows }
}

fn cost_row(table: &[List<Option<Way>>], i: usize) -> [Option<u64>; 10]
    ensures { IsCostRowTo table.now i result 10 }
{
    let mut row = [None; 10];
    for j in 0..10 {
        row[j] = cost_at(table, i, j);
    }
    row
}

fn cost_at(table: &[List<Option<Way>>], i: usize, j: usize) -> Option<u64>
    ensures { result ≡ way_cost (way_at table.now i j) }
{
    match way_at(table, i, j) {
        Some(way) => Some(way.cost),
        None => None,
    }
}
