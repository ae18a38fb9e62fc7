//! A cheaper walk to a node is found.

ghost use Rattle.std.specs.Prelude.{◌≡◌, ◌+◌, ◌<◌, ◌^◌, OnOk, length, vec_len};
ghost use Rattle.route_search.specs.States.{IsLowered, IsQueued, cost_in, last_in};

use crate::frontier::Frontier;
use crate::labels::Last;
use crate::state::State;
use venue_types::{Link, OutOfMemory};

// The node waits from now on, if it is to.
fn queue(frontier: &mut Frontier, waits: bool, cost: u64, node: u32) -> Result<(), OutOfMemory>
    ensures { OnOk result (IsQueued waits frontier.old frontier.new cost node) }
{
    if waits {
        frontier.push(cost, node)?;
    }
    Ok(())
}

/// The end of the link is known by it from now on, and waits if it is to.
#[tactic(auto, unfolding(crate::specs::Labels::cost_at, crate::specs::Labels::last_at))]
pub(crate) fn lower(state: &mut State, link: &Link, waits: bool) -> Result<(), OutOfMemory>
    requires from { link.now.from < vec_len state.old.costs }
    requires to { link.now.to < vec_len state.old.costs }
    requires lasts { length state.old.lasts ≡ vec_len state.old.costs }
    requires cost { cost_in state.old link.now.from + link.now.cost < 2 ^ 64 }
    requires depth { (last_in state.old link.now.from).depth + 1 < 2 ^ 32 }
    ensures { OnOk result (IsLowered state.old state.new link.now waits) }
{
    let cost = state.costs[link.from as usize] + u64::from(link.cost);
    let depth = state.lasts.get(link.from).depth + 1;
    state.costs[link.to as usize] = cost;
    let last = Last {
        by: Some(*link),
        depth,
    };
    state.lasts.set(link.to, last)?;
    queue(&mut state.frontier, waits, cost, link.to)
}
