//! The ways between the places of a tour.

ghost use Rattle.std.specs.Prelude.{◌≡◌, ◌<◌, ◌≤◌, length, All, IfOk};
ghost use Rattle.std.specs.Option.{option_copied};
ghost use Rattle.route_search.specs.Nodes.{nodes};
ghost use Rattle.venue_history.specs.Ways.{Usable};
ghost use Rattle.venue_state.specs.Touring.{IsKnown, IsRow, IsSearched, IsTable, IsWay, way_at};

use crate::board::Board;
use crate::tour_ends::{count_of, flags_of};
use crate::trips::Numbered;
use route_search::{FlaggedEnds, Reach, passable_law, reach};
use std::alloc::Global;
use std::marker::Brand;
use std::sync::ledger::{Blank, Ledger};
use venue_types::{Link, List, OutOfMemory};
use walk_laws::Steps;

/// A least walk from one place to another, and its cost in centimetres.
#[derive(Drop)]
pub(crate) struct Way {
    pub cost: u64,
    pub walk: List<Link>,
}

impl Board {
    /// For each place of a tour but the last the least walks from there, by the numbers of the places: from the start to each stop, and
    /// from each stop to each stop and to the end. What one search knows is let go before the next.
    pub(crate) fn ways(
        &self,
        alloc: Global,
        traveller: &Numbered<'_>,
        a: u32,
        stops: &[u32],
        b: u32,
    ) -> Result<List<List<Option<Way>>>, OutOfMemory>
        requires a_node { a < length (nodes self.now.features self.now.settings) }
        requires b_node { b < length (nodes self.now.features self.now.settings) }
        requires stop_nodes { All (λ n. n < length (nodes self.now.features self.now.settings)) stops.now }
        requires few { length stops.now ≤ 8 }
        requires number { traveller.now.number < 16 }
        ensures { IfOk result (IsTable (Usable self.now traveller.now.number traveller.now.profile.now) a stops.now b) }
    {
        let mut table = List::new(alloc);
        let first = self.row(alloc, traveller, a, stops)?;
        table.push(first)?;
        let mut ends = Vec::from_slice(alloc, stops)?;
        ends.push(b)?;
        for stop in stops {
            let row = self.row(alloc, traveller, *stop, &ends)?;
            table.push(row)?;
        }
        Ok(table)
    }

    // The least walks from a node to each of these.
    fn row(
        &self,
        alloc: Global,
        traveller: &Numbered<'_>,
        from: u32,
        to: &[u32],
    ) -> Result<List<Option<Way>>, OutOfMemory>
        requires from { from < length (nodes self.now.features self.now.settings) }
        requires to_nodes { All (λ n. n < length (nodes self.now.features self.now.settings)) to.now }
        requires few { length to.now ≤ 9 }
        requires number { traveller.now.number < 16 }
        ensures { IfOk result (IsRow (IsWay (Usable self.now traveller.now.number traveller.now.profile.now) from) to.now) }
    {
        let flags = flags_of(alloc, self.graph().nodes(), to)?;
        let count = count_of(alloc, to)?;
        let known = searched::<Brand>(alloc, Blank::new(1), self, traveller, from, &flags, count)?;
        ways_to(alloc, &known, to)
    }
}

// The search over the board's graph and marks, with a counter that nobody reads.
fn searched<L: Ledger>(
    alloc: Global,
    blank: Blank,
    board: &Board,
    traveller: &Numbered<'_>,
    from: u32,
    flags: &[bool],
    count: u32,
) -> Result<Reach, OutOfMemory>
    requires name { blank.name ≡ L.name }
    requires parts { blank.parts ≡ L.parts }
    requires some { 0 < L.parts }
    requires from { from < length (nodes board.now.features board.now.settings) }
    requires number { traveller.now.number < 16 }
    ensures { IfOk result (IsSearched board.now traveller.now.number traveller.now.profile.now from flags.now count) }
{
    passable_law();
    let mut steps = Steps::<L>::begin(blank);
    let known = reach(
        alloc,
        board.graph(),
        board.marks(),
        traveller.profile,
        traveller.number,
        from,
        &FlaggedEnds { flags },
        count,
        &mut steps,
    )?;
    Ok(known)
}

// The ways to these nodes, as a search knows them, as a row.
fn ways_to(alloc: Global, known: &Reach, nodes: &[u32]) -> Result<List<Option<Way>>, OutOfMemory>
    ensures { IfOk result (IsRow (IsKnown known.now) nodes.now) }
{
    let mut row = List::new(alloc);
    row.push(None)?;
    for node in nodes {
        let way = way_to(alloc, known, *node)?;
        row.push(way)?;
    }
    Ok(row)
}

fn way_to(alloc: Global, known: &Reach, node: u32) -> Result<Option<Way>, OutOfMemory>
    ensures { IfOk result (IsKnown known.now node) }
{
    match known.cost(node) {
        Some(cost) => {
            let walk = known.walk(alloc, node)?;
            Ok(Some(Way { cost, walk }))
        }
        None => Ok(None),
    }
}

/// The way from a place of a table to another, if there is one.
pub(crate) fn way_at(table: &[List<Option<Way>>], i: usize, j: usize) -> Option<&Way>
    ensures { option_copied result ≡ way_at table.now i j }
{
    table.get(i)?.get(j)?.as_ref()
}
