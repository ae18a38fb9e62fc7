//! What a search with several ends hands out.

ghost use Rattle.std.specs.Prelude.{◌<◌, ◌≤◌, length};
ghost use Rattle.route_search.specs.Labels.{no_cost, IsTree};
ghost use Rattle.route_search.specs.Handed.{most};

use crate::lasts::Lasts;

/// What a search from a node knows when it ends: of each node the cost of a walk and how that walk ends, and the cost below which
/// everything is known. Contracts see its bound and the costs of nodes.
#[derive(Drop)]
pub struct Reach {
    pub(crate) from: u32,
    pub(crate) costs: Vec<u64>,
    pub(crate) lasts: Lasts,
    /// What would have come next costs so much; none where nothing was left.
    pub(crate) bound: Option<u64>,
    pub(crate) ghost near: { most bound < no_cost },
    pub(crate) ghost few: { length costs.items ≤ 400000 },
    pub(crate) ghost tree: { IsTree (length costs.items) from costs.items lasts },
}
