//! Questions for the nearest amenities of a category.

ghost use Rattle.std.specs.Prelude.{◌≡◌, ◌<◌, ◌≤◌, All, IfOk, length, map, option_map};
ghost use Rattle.std.specs.List.Sorted.{IsStrictlyIncreasing};
ghost use Rattle.venue_types.specs.declared.query.Ask.TheVariants as ask;
ghost use Rattle.route_search.specs.Nodes.{nodes};
ghost use Rattle.nearest_place.specs.Near.{IsNear};
ghost use Rattle.venue_history.specs.Answers.{AnswersAsk};
ghost use Rattle.venue_history.specs.Nearest.{AreCandidates, IsNearTrip, if_asked};
ghost use Rattle.venue_history.specs.Ways.{Usable, name_of};
ghost use Rattle.venue_state.specs.Nearing.{TellsNear, told_row};

use crate::board::Board;
use crate::trips::Numbered;
use nearest_place::{Near, NearWalk, nearest};
use route_search::passable_law;
use std::alloc::Global;
use std::marker::Brand;
use std::sync::ledger::{Blank, Ledger};
use venue_types::{List, NearQuery, NearRow, NearTold, NodeName, OutOfMemory, Reply, Text, Which};
use walk_laws::Steps;

impl Board {
    /// Answers a question for the nearest.
    pub(crate) fn nearest(&self, alloc: Global, asked: &NearQuery) -> Result<Reply, OutOfMemory>
        ensures { IfOk result (AnswersAsk self.now (ask.Nearest asked.now)) }
    {
        match self.profile(asked.profile()) {
            None => Ok(Reply::NoProfile),
            Some(traveller) => match self.node_of(asked.from()) {
                None => Ok(Reply::NoPlace(Which::From)),
                Some(a) => self.nearest_from(alloc, asked, &traveller, a),
            },
        }
    }

    // The nearest to this node.
    fn nearest_from(
        &self,
        alloc: Global,
        asked: &NearQuery,
        traveller: &Numbered<'_>,
        a: u32,
    ) -> Result<Reply, OutOfMemory>
        requires trip { IsNearTrip self.now asked.now traveller.now.number traveller.now.profile.now a }
        requires a_node { a < length (nodes self.now.features self.now.settings) }
        requires number { traveller.now.number < 16 }
        ensures { IfOk result (AnswersAsk self.now (ask.Nearest asked.now)) }
    {
        let candidates = self.candidates(alloc, asked.category())?;
        let limit = asked.limit();
        let near = searched::<Brand>(alloc, Blank::new(1), self, traveller, a, &candidates, limit)?;
        let told = self.near_told(alloc, asked, a, &near)?;
        Ok(Reply::Nearest(told))
    }

    // The nodes of the amenities of a category, in one pass over the amenities, which are the first nodes.
    fn candidates(&self, alloc: Global, category: &Text) -> Result<List<u32>, OutOfMemory>
        ensures are { IfOk result (AreCandidates self.now.features category.now) }
        ensures within { IfOk result (All (λ n. n < length (nodes self.now.features self.now.settings))) }
    {
        let _ = self.graph().nodes();
        let mut found = List::new(alloc);
        for (n, row) in self
            .venue()
            .features()
            .amenities
            .as_slice()
            .iter()
            .enumerate()
        {
            if row.category.as_str() == category.as_str() {
                found.push(n as u32)?;
            }
        }
        Ok(found)
    }

    // What was found, as a reply tells it.
    fn near_told(
        &self,
        alloc: Global,
        asked: &NearQuery,
        a: u32,
        near: &Near,
    ) -> Result<NearTold, OutOfMemory>
        ensures { IfOk result (TellsNear self.now asked.now a near.now) }
    {
        let certificate = asked.certificate();
        Ok(NearTold {
            number: self.number(),
            from: asked.from(),
            start: self.id(a),
            category: asked.category().copy(alloc)?,
            profile: asked.profile().copy(alloc)?,
            places: self.near_rows(alloc, near.rows.as_slice())?,
            potentials: self.shown(alloc, certificate, near.potentials.as_slice())?,
            reached: self.near_reached(alloc, certificate, &near.reached)?,
        })
    }

    // Rows with their names.
    fn near_rows(&self, alloc: Global, rows: &[NearWalk]) -> Result<List<NearRow>, OutOfMemory>
        ensures { IfOk result (λ told. told ≡ map (told_row self.now) rows.now) }
    {
        let mut told = List::new(alloc);
        for row in rows {
            let row = self.near_row(alloc, row)?;
            told.push(row)?;
        }
        Ok(told)
    }

    fn near_row(&self, alloc: Global, row: &NearWalk) -> Result<NearRow, OutOfMemory>
        ensures { IfOk result (λ told. told ≡ told_row self.now row.now) }
    {
        Ok(NearRow {
            id: self.id(row.node),
            cost: row.cost,
            steps: self.steps(alloc, row.walk.as_slice())?,
        })
    }

    // The names of what is reached, where that was asked for and is there.
    fn near_reached(
        &self,
        alloc: Global,
        certificate: bool,
        reached: &Option<List<u32>>,
    ) -> Result<Option<List<NodeName>>, OutOfMemory>
        ensures { IfOk result (λ told. told ≡ if_asked certificate (option_map (map (name_of self.now)) reached.now)) }
    {
        match reached {
            Some(nodes) => self.reached(alloc, certificate, nodes.as_slice()),
            None => Ok(None),
        }
    }
}

// The search over the board's graph and marks, with a counter that nobody reads.
fn searched<L: Ledger>(
    alloc: Global,
    blank: Blank,
    board: &Board,
    traveller: &Numbered<'_>,
    a: u32,
    candidates: &List<u32>,
    limit: u8,
) -> Result<Near, OutOfMemory>
    requires name { blank.name ≡ L.name }
    requires parts { blank.parts ≡ L.parts }
    requires some { 0 < L.parts }
    requires a_node { a < length (nodes board.now.features board.now.settings) }
    requires number { traveller.now.number < 16 }
    requires rising { IsStrictlyIncreasing candidates.now }
    requires candidate_nodes { All (λ n. n < length (nodes board.now.features board.now.settings)) candidates.now }
    requires one { 1 ≤ limit }
    requires few { limit ≤ 10 }
    ensures { IfOk result (IsNear (Usable board.now traveller.now.number traveller.now.profile.now) (length (nodes board.now.features board.now.settings)) a candidates.now limit) }
{
    passable_law();
    let mut steps = Steps::<L>::begin(blank);
    let near = nearest(
        alloc,
        board.graph(),
        board.marks(),
        traveller.profile,
        traveller.number,
        a,
        candidates,
        limit,
        &mut steps,
    )?;
    Ok(near)
}
