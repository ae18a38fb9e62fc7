//! The search itself: settles what waits at the least cost, until enough ends are settled.

ghost use Rattle.std.specs.Prelude.{◌≡◌, ◌↔◌, ℕ, ◌+◌, ◌<◌, ◌≤◌, IfOk, IsTrue, false, length, vec_len};
ghost use Rattle.route_search.specs.Scans.{AreMarked, CanPass, node_count, out_count_of};
ghost use Rattle.route_search.specs.States.{IsBetween, IsEnded, IsFrom, cost_in, open_sum, settled_in};
ghost use Rattle.route_search.specs.Tallies.{HasKnownEnds};

use crate::ends::Ends;
use crate::node_scan::scan;
use crate::state::State;
use crate::tally::Tally;
use crate::ways::Ways;
use std::sync::ledger::Ledger;
use venue_types::OutOfMemory;
use walk_laws::Steps;

// Whether a node that waited at this cost is to be settled now: where its cost fell since, it waits at that or leads nowhere else.
#[tactic(auto, unfolding(crate::specs::Labels::cost_at, crate::specs::States::settled_at))]
fn is_due(state: &State, cost: u64, node: u32) -> bool
    requires costs { node < vec_len state.now.costs }
    requires settled { node < vec_len state.now.settled }
    ensures { IsTrue result ↔ (cost_in state.now node ≡ cost) × (settled_in state.now node ≡ false) }
{
    state.costs[node as usize] == cost && !state.settled[node as usize]
}

/// Takes from what waits until so many ends are settled and what is next costs more than the last of them, which is the bound, or until
/// nothing waits. Takes n log n time for n links that are looked at.
pub(crate) fn grow<L: Ledger, E: Ends>(
    ways: &Ways,
    ends: &E,
    count: u32,
    state: &mut State,
    steps: &mut Steps<L>,
) -> Result<Option<u64>, OutOfMemory>
    requires marks { AreMarked ways.now }
    requires begun { IsBetween (CanPass ways.now) (node_count ways.now.graph.now) state.old }
    ensures ended { IfOk result (λ bound. (from : ℕ) → IsFrom from state.old → IsEnded (CanPass ways.now) (node_count ways.now.graph.now) from bound state.new) }
    ensures enough { IfOk result (λ bound. HasKnownEnds (E.ends ends.now) count bound state.new) }
    ensures steps { steps.new ≤ steps.old + open_sum (out_count_of ways.now.graph.now) 0 state.old.settled.items }
{
    ways.graph.range_law();
    let mut tally = Tally {
        left: count,
        last: 0,
    };
    'nodes: while let Some((cost, node)) = state.frontier.pop() {
        if !is_due(state, cost, node) {
            continue;
        }
        if tally.is_full(cost) {
            return Ok(Some(cost));
        }
        state.settled[node as usize] = true;
        tally.note(ends, node, cost);
        scan(ways, ends, node, state, steps)?;
        ways.graph.member_law();
        ways.graph.detour_law();
    }
    Ok(None)
}
