//! Searches of the station with several ends.

ghost use Rattle.std.specs.Prelude.{◌≡◌, ◌<◌};
ghost use Rattle.link_graph.specs.Graphs.{network};
ghost use Rattle.link_graph.specs.Marking.{AreMarksOf};

use super::reach_rows::{FoundEnd, Left, REACH_ROWS, ReachRow};
use super::search_rows::WHEELCHAIR;
use super::searches::{judge_reached, marks_of, node, number_of};
use crate::station::{id, venue_of};
use link_graph::{Graph, Marks};
use route_search::{FlaggedEnds, Reach, reach};
use std::alloc::Global;
use std::marker::Brand;
use std::process::Abort;
use std::sync::ledger::{Blank, Ledger};
use std::test::Fail;
use venue_build::Venue;
use venue_types::{Link, Profile};
use walk_laws::Steps;

// The flags of the nodes of these features.
pub(super) fn flags_of(
    rt: &impl Abort,
    alloc: Global,
    graph: &Graph,
    ends: &[u128],
) -> Result<Vec<bool>, Fail> {
    let mut flags = vec![in alloc; false; graph.nodes() as usize]?;
    for tail in ends {
        let n = graph.node_of(id(*tail)).expect(rt, "a node");
        let flag = flags.get_mut(n as usize).expect(rt, "a flag");
        *flag = true;
    }
    Ok(flags)
}

fn search<L: Ledger>(
    rt: &impl Abort,
    alloc: Global,
    graph: &Graph,
    marks: &Marks,
    profile: &Profile,
    row: &ReachRow,
    steps: &mut Steps<L>,
) -> Result<Reach, Fail>
    requires { AreMarksOf (network graph.now) marks.now }
{
    let flags = flags_of(rt, alloc, graph, row.ends)?;
    let ends = FlaggedEnds { flags: &flags };
    let from = node(rt, graph, 0x0041);
    assert!(rt; from == 1);
    let number = number_of(rt, WHEELCHAIR);
    Ok(reach(
        alloc, graph, marks, profile, number, from, &ends, row.count, steps,
    )?)
}

fn judge_walk(rt: &impl Abort, graph: &Graph, walk: &[Link], stops: &[u128]) {
    assert!(rt; walk.len() == stops.len());
    for (link, tail) in walk.iter().zip(stops) {
        assert!(rt; graph.node_of(id(*tail)) == Some(link.to));
    }
}

fn judge_end(
    rt: &impl Abort,
    alloc: Global,
    graph: &Graph,
    known: &Reach,
    end: &FoundEnd,
) -> Result<(), Fail> {
    let (tail, wanted, stops) = end;
    let n = node(rt, graph, *tail);
    match known.cost(n) {
        Some(cost) => {
            assert!(rt; cost == *wanted);
            let walk = known.walk(alloc, n)?;
            judge_walk(rt, graph, walk.as_slice(), stops);
            Ok(())
        }
        None => Err(Fail::new("an end without a cost")),
    }
}

fn judge_left(
    rt: &impl Abort,
    alloc: Global,
    graph: &Graph,
    known: &Reach,
    row: &ReachRow,
) -> Result<(), Fail> {
    match (known.bound(), row.left) {
        (Some(bound), Left::Bound) => {
            for (_, cost, _) in row.found {
                assert!(rt; bound > *cost);
            }
            Ok(())
        }
        (None, Left::Reached(wanted)) => {
            let reached = known.reached(alloc)?;
            judge_reached(rt, graph, reached.as_slice(), wanted);
            Ok(())
        }
        _ => Err(Fail::new("a bound where none is wanted, or none")),
    }
}

fn judge_row<L: Ledger>(
    rt: &impl Abort,
    alloc: Global,
    graph: &Graph,
    profile: &Profile,
    row: &ReachRow,
    steps: &mut Steps<L>,
) -> Result<(), Fail> {
    let marks = marks_of(rt, alloc, graph, row.closed)?;
    let known = search(rt, alloc, graph, &marks, profile, row, steps)?;
    for end in row.found {
        judge_end(rt, alloc, graph, &known, end)?;
    }
    judge_left(rt, alloc, graph, &known, row)
}

fn judge_venue<L: Ledger>(
    rt: &impl Abort,
    alloc: Global,
    venue: &Venue,
    steps: &mut Steps<L>,
) -> Result<(), Fail> {
    let profiles = venue.settings().profiles.as_slice();
    let profile = profiles.get(WHEELCHAIR).expect(rt, "a profile");
    for row in &REACH_ROWS {
        judge_row(rt, alloc, venue.graph(), profile, row, steps)?;
    }
    Ok(())
}

fn judge_rows<L: Ledger>(rt: &impl Abort, alloc: Global, blank: Blank) -> Result<(), Fail>
    requires some { 0 < L.parts }
    requires name { blank.name ≡ L.name }
    requires parts { blank.parts ≡ L.parts }
{
    let mut steps = Steps::<L>::begin(blank);
    let venue = venue_of(alloc, &[])?;
    judge_venue(rt, alloc, &venue, &mut steps)
}

#[test]
fn several_ends_in_the_station(rt: HostRuntime) -> Result<(), Fail> {
    judge_rows::<Brand>(&rt, rt.alloc(), Blank::new(1))
}
