//! How many ends a search still waits for.

ghost use Rattle.std.specs.Prelude.{◌≡◌, ◌↔◌, ◌<◌, IsTrue};

use crate::ends::Ends;

/// The ends that are still to be settled, and the cost of the last that was.
#[derive(Drop)]
pub(crate) struct Tally {
    pub left: u32,
    pub last: u64,
}

impl Tally {
    ghost use Rattle.route_search.specs.Tallies.{IsNoted};

    /// Whether no end is waited for any more, and what comes next costs more than the last.
    pub(crate) fn is_full(&self, cost: u64) -> bool
        ensures { IsTrue result ↔ (self.now.left ≡ 0) × (self.now.last < cost) }
    {
        self.left == 0 && cost > self.last
    }

    /// The node is settled at this cost.
    pub(crate) fn note<E: Ends>(&mut self, ends: &E, node: u32, cost: u64)
        ensures { IsNoted (E.ends ends.now node) cost self.old self.new }
    {
        if ends.is_end(node) {
            self.left = self.left.saturating_sub(1);
            self.last = cost;
        }
    }
}
