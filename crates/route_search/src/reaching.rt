//! The search with several ends.

ghost use Rattle.std.specs.Prelude.{◌+◌, ◌<◌, ◌≤◌, length, IfOk};
ghost use Rattle.link_graph.specs.Graphs.{network};
ghost use Rattle.link_graph.specs.Marking.{AreMarksOf, marked};
ghost use Rattle.link_graph.specs.Networks.{IsPassable};
ghost use Rattle.route_search.specs.Reaches.{IsReachOver, HasEnough, IsSmallReach};

use crate::ends::Ends;
use crate::growth::grow;
use crate::reached::Reach;
use crate::start::begin;
use crate::state::State;
use crate::ways::Ways;
use link_graph::{Graph, Marks};
use std::alloc::Global;
use std::sync::ledger::Ledger;
use venue_types::{OutOfMemory, Profile};
use walk_laws::Steps;

/// What a search from a node knows over links that the profile allows and nothing closes for its number, where so many ends are settled and what comes
/// next costs more than the last of them, or where nothing is left. Looks at each link once at most, and at most of them never.
pub fn reach<L: Ledger, E: Ends>(
    alloc: Global,
    graph: &Graph,
    marks: &Marks,
    profile: &Profile,
    number: u8,
    from: u32,
    ends: &E,
    count: u32,
    steps: &mut Steps<L>,
) -> Result<Reach, OutOfMemory>
    requires from { from < length (network graph.now).nodes }
    requires marks { AreMarksOf (network graph.now) marks.now }
    requires number { number < 16 }
    ensures over { IfOk result (IsReachOver (IsPassable (network graph.now) (marked (network graph.now) marks.now number) profile.now) from) }
    ensures enough { IfOk result (HasEnough (E.ends ends.now) count) }
    ensures small { IfOk result (IsSmallReach (length (network graph.now).nodes)) }
    ensures steps { steps.new ≤ steps.old + length (network graph.now).links }
{
    graph.range_law();
    let mut state = begin(alloc, graph.nodes(), from)?;
    let ways = Ways {
        graph,
        marks,
        profile,
        number,
    };
    let bound = grow(&ways, ends, count, &mut state, steps)?;
    let State { costs, lasts, .. } = state;
    Ok(Reach {
        from,
        costs,
        lasts,
        bound,
    })
}
