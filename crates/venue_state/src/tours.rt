//! Questions for a tour.

ghost use Rattle.std.specs.Prelude.{◌≡◌, ◌<◌, ◌≤◌, length, All, IfOk};
ghost use Rattle.venue_types.specs.declared.query.Ask.TheVariants as ask;
ghost use Rattle.route_search.specs.Nodes.{nodes};
ghost use Rattle.venue_history.specs.Answers.{AnswersAsk};
ghost use Rattle.venue_history.specs.Tours.{IsTourTrip};
ghost use Rattle.venue_state.specs.Touring.{AreNodes};

use crate::board::Board;
use crate::tour_costs::costs_of;
use crate::trips::Numbered;
use std::alloc::Global;
use stop_order::best;
use venue_types::{FeatureId, List, OutOfMemory, Reply, TourQuery, Which};

impl Board {
    /// Answers a question for a tour.
    pub(crate) fn tour(&self, alloc: Global, asked: &TourQuery) -> Result<Reply, OutOfMemory>
        ensures { IfOk result (AnswersAsk self.now (ask.Tour asked.now)) }
    {
        match self.profile(asked.profile()) {
            None => Ok(Reply::NoProfile),
            Some(traveller) => match self.node_of(asked.from()) {
                None => Ok(Reply::NoPlace(Which::From)),
                Some(a) => match self.node_of(asked.to()) {
                    None => Ok(Reply::NoPlace(Which::To)),
                    Some(b) => match self.nodes_of(alloc, asked.stops().as_slice())? {
                        None => Ok(Reply::NoPlace(Which::Stop)),
                        Some(stops) => self.toured(
                            alloc,
                            asked,
                            &traveller,
                            a,
                            stops.as_slice(),
                            b,
                        ),
                    },
                },
            },
        }
    }

    // The nodes at which these places are, if all of them are places.
    fn nodes_of(&self, alloc: Global, ids: &[FeatureId]) -> Result<Option<List<u32>>, OutOfMemory>
        ensures { IfOk result (AreNodes self.now ids.now) }
    {
        let mut nodes = List::new(alloc);
        for id in ids {
            match self.node_of(*id) {
                Some(node) => nodes.push(node)?,
                None => return Ok(None),
            }
        }
        Ok(Some(nodes))
    }

    // The best tour by these nodes.
    fn toured(
        &self,
        alloc: Global,
        asked: &TourQuery,
        traveller: &Numbered<'_>,
        a: u32,
        stops: &[u32],
        b: u32,
    ) -> Result<Reply, OutOfMemory>
        requires trip { IsTourTrip self.now asked.now traveller.now.number traveller.now.profile.now a stops.now b }
        requires a_node { a < length (nodes self.now.features self.now.settings) }
        requires b_node { b < length (nodes self.now.features self.now.settings) }
        requires stop_nodes { All (λ n. n < length (nodes self.now.features self.now.settings)) stops.now }
        requires number { traveller.now.number < 16 }
        ensures { IfOk result (AnswersAsk self.now (ask.Tour asked.now)) }
    {
        let count = asked.stops().len() as u8;
        let table = self.ways(alloc, traveller, a, stops, b)?;
        match best(&costs_of(table.as_slice(), count)) {
            Some(order) => self.tour_told(alloc, asked, table.as_slice(), &order),
            None => self.no_tour_told(alloc, asked),
        }
    }
}
