//! Where the rows of each unit begin in a table.

ghost use Rattle.std.specs.Prelude.{◌≡◌, ◌≢◌, ℕ, ◌<◌, IfOk, List, All, Contains, MatchOption, length, map, Bool};
ghost use Rattle.std.specs.List.Sorted.{IsNonDecreasingBy, IsStrictlyIncreasing};
ghost use Rattle.venue_types.specs.declared.link.Link.{Link as ALink};
ghost use Rattle.link_graph.specs.declared.areas.Area.{Area as AnArea};
ghost use Rattle.link_graph.specs.Areas.{areas, passages};
ghost use Rattle.link_graph.specs.Graphs.{network};
ghost use Rattle.route_answers.specs.declared.starts.AreaStart.{AreaStart as AStart};
ghost use Rattle.route_answers.specs.Placing.{AreStarts, IsFront};

use crate::counts::area_count;
use link_graph::Graph;
use std::alloc::Global;
use venue_types::{OutOfMemory, Profile};

/// Where the rows of a unit begin.
#[derive(Clone, Copy)]
pub(crate) struct AreaStart {
    /// Its number among what can be closed.
    pub via: u32,
    /// Its number among the units that one may walk across.
    pub area: u32,
    /// How many rows stand before its own.
    pub first: usize,
}

/// Where the rows of all units begin, in their order, and those of relationships.
#[derive(Drop)]
pub(crate) struct Starts {
    pub units: Vec<AreaStart>,
    pub passages: usize,
}

/// Where rows begin in the table for the profile. One pass over the members of all units.
pub(crate) fn row_starts(
    alloc: Global,
    graph: &Graph,
    profile: &Profile,
) -> Result<Starts, OutOfMemory>
    ensures { IfOk result (AreStarts graph.now profile.now) }
{
    graph.areas_law();
    graph.range_law();
    units_law(graph);
    let mut units = Vec::with_capacity(alloc, graph.areas() as usize)?;
    let mut count = 0;
    for w in 0..graph.areas() {
        units.push(AreaStart {
            via: graph.area(w).0.via,
            area: w,
            first: count,
        })?;
        let rows = area_count(alloc, graph, profile, w)?;
        count += rows;
    }
    Ok(Starts {
        units,
        passages: count,
    })
}

/// Where the rows of the unit begin that has this number among what can be closed, if there is one. Takes log n time.
pub(crate) fn start_by(starts: &[AreaStart], via: u32) -> Option<AreaStart>
    requires { IsNonDecreasingBy (λ (start : AStart). start.via) starts.now }
    ensures { MatchOption result (All (λ (start : AStart). start.via ≢ via) starts.now) (λ start. (start.via ≡ via) × Contains starts.now start) }
{
    let start = starts.get(lesser_count(starts, via))?;
    if start.via == via { Some(*start) } else { None }
}

// How many of them have a lesser number: those in front.
fn lesser_count(starts: &[AreaStart], via: u32) -> usize
    requires { IsNonDecreasingBy (λ (start : AStart). start.via) starts.now }
    ensures { IsFront starts.now via result }
{
    starts.partition_point(|start| start.via < via)
}

/// Units have numbers among what can be closed, which rise, and those of relationships are less.
pub(crate) fn units_law(graph: &Graph)
    ensures within { All (λ (area : AnArea × List ℕ × List (List Bool)). area.0.via < length (network graph.now).closables) (areas graph.now) }
    ensures rise { IsStrictlyIncreasing (map (λ (area : AnArea × List ℕ × List (List Bool)). area.0.via) (areas graph.now)) }
    ensures apart { (link : ALink) (area : AnArea × List ℕ × List (List Bool)) → Contains (passages graph.now) link → Contains (areas graph.now) area → link.via < area.0.via }
{}
