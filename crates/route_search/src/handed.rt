//! What is handed out of the costs that a search knows.

ghost use Rattle.std.specs.Prelude.{◌≡◌};
ghost use Rattle.route_search.specs.Handed.{most as most_of, handed};

use crate::labels::NO_COST;

// The greatest cost that is handed out.
fn most(bound: Option<u64>) -> u64
    ensures { result ≡ most_of bound }
{
    match bound {
        Some(bound) => bound,
        None => NO_COST - 1,
    }
}

/// A cost of at most the bound; above it a walk of that cost need not be a least one.
#[tactic(auto, unfolding(crate::specs::Handed::handed))]
pub(crate) fn hand_out(bound: Option<u64>, cost: u64) -> Option<u64>
    ensures { result ≡ handed bound cost }
{
    if cost <= most(bound) {
        Some(cost)
    } else {
        None
    }
}
