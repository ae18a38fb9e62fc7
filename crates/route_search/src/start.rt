//! What a search knows at first.

ghost use Rattle.std.specs.Prelude.{◌<◌, ◌≤◌, IfOk};
ghost use Rattle.route_search.specs.States.{IsBegun};

use crate::frontier::Frontier;
use crate::labels::NO_COST;
use crate::lasts::Lasts;
use crate::state::State;
use std::alloc::Global;
use venue_types::OutOfMemory;

/// The walk without links to the start is known, and the start waits.
pub(crate) fn begin(alloc: Global, nodes: u32, from: u32) -> Result<State, OutOfMemory>
    requires from { from < nodes }
    requires few { nodes ≤ 400000 }
    ensures { IfOk result (IsBegun nodes from) }
{
    let count = nodes as usize;
    let mut costs = vec![in alloc; NO_COST; count]?;
    costs[from as usize] = 0;
    let lasts = Lasts::none(alloc, nodes)?;
    let settled = vec![in alloc; false; count]?;
    let mut frontier = Frontier::new(alloc);
    frontier.push(0, from)?;
    Ok(State {
        costs,
        lasts,
        settled,
        frontier,
    })
}
