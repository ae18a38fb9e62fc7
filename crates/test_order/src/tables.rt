//! Tables of costs from rows of numbers.

ghost use Rattle.std.specs.Prelude.{◌≡◌, ◌<◌, ◌^◌, IfSome};
ghost use Rattle.stop_order.specs.Orders.{AreSmall};
ghost use Rattle.test_order.specs.Rows.{IsSmallRow};

use stop_order::Costs;

/// A table from its rows, one after the other, with a number for each place; nothing where a number is missing or is 2^42 or more.
pub fn table(stops: u8, numbers: &[u64]) -> Costs
    ensures small { AreSmall result }
    ensures stops { result.stops ≡ stops }
{
    let mut rows = [[None; 10]; 10];
    for i in 0..10 {
        rows[i] = row_of(numbers, stops, i);
    }
    Costs { stops, rows }
}

fn row_of(numbers: &[u64], stops: u8, i: usize) -> [Option<u64>; 10]
    requires { i < 10 }
    ensures { IsSmallRow result }
{
    let places = stops as usize + 2;
    let mut row = [None; 10];
    for j in 0..10 {
        row[j] = cost_at(numbers, i * places + j);
    }
    row
}

fn cost_at(numbers: &[u64], at: usize) -> Option<u64>
    ensures { IfSome result (λ cost. cost < 2 ^ 42) }
{
    let number = *numbers.get(at)?;
    if number < 1 << 42 { Some(number) } else { None }
}
