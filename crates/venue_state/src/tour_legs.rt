//! Tours as replies tell them.

ghost use Rattle.std.specs.Prelude.{◌≡◌, ◌<◌, ◌≤◌, length, All, IfOk};
ghost use Rattle.venue_history.specs.Tours.{ArePicked};
ghost use Rattle.venue_state.specs.Touring.{TellsNoTour, TellsTour, legs_along, places_of, told_leg, way_at};

use crate::board::Board;
use crate::tour_ways::{Way, way_at};
use std::alloc::Global;
use stop_order::Order;
use venue_types::{FeatureId, Leg, List, NoTourTold, OutOfMemory, Reply, TourQuery, TourTold};

impl Board {
    /// An order of the stops of a table as a reply.
    pub(crate) fn tour_told(
        &self,
        alloc: Global,
        asked: &TourQuery,
        table: &[List<Option<Way>>],
        order: &Order,
    ) -> Result<Reply, OutOfMemory>
        requires stops { order.now.stops ≡ length asked.now.stops }
        requires places { All (λ k. k < length asked.now.stops) (places_of order.now) }
        ensures { IfOk result (TellsTour self.now asked.now table.now order.now) }
    {
        let stops = asked.stops();
        let places = &order.places[..order.stops as usize];
        Ok(Reply::Tour(TourTold {
            number: self.number(),
            from: asked.from(),
            to: asked.to(),
            profile: asked.profile().copy(alloc)?,
            order: picked(alloc, stops.as_slice(), places)?,
            cost: order.cost,
            legs: self.legs(alloc, table, places)?,
        }))
    }

    /// That there is no tour.
    pub(crate) fn no_tour_told(
        &self,
        alloc: Global,
        asked: &TourQuery,
    ) -> Result<Reply, OutOfMemory>
        ensures { IfOk result (TellsNoTour self.now asked.now) }
    {
        let stops = Vec::from_slice(alloc, asked.stops().as_slice())?;
        Ok(Reply::NoTour(NoTourTold {
            number: self.number(),
            from: asked.from(),
            to: asked.to(),
            profile: asked.profile().copy(alloc)?,
            stops: List::from_vec(stops),
        }))
    }

    // The ways from the start by the stops in this order to the end, as legs.
    fn legs(
        &self,
        alloc: Global,
        table: &[List<Option<Way>>],
        order: &[u8],
    ) -> Result<List<Leg>, OutOfMemory>
        requires { length order.now ≤ 8 }
        ensures { IfOk result (λ legs. legs ≡ legs_along self.now table.now (length order.now) 0 order.now) }
    {
        let mut legs = List::new(alloc);
        let mut place = 0;
        for stop in order {
            let next = *stop as usize + 1;
            let leg = self.leg(alloc, table, place, next)?;
            legs.push(leg)?;
            place = next;
        }
        let last = self.leg(alloc, table, place, order.len() + 1)?;
        legs.push(last)?;
        Ok(legs)
    }

    fn leg(
        &self,
        alloc: Global,
        table: &[List<Option<Way>>],
        i: usize,
        j: usize,
    ) -> Result<Leg, OutOfMemory>
        ensures { IfOk result (λ leg. leg ≡ told_leg self.now (way_at table.now i j)) }
    {
        match way_at(table, i, j) {
            Some(way) => Ok(Leg {
                cost: way.cost,
                steps: self.steps(alloc, way.walk.as_slice())?,
            }),
            None => Ok(Leg {
                cost: 0,
                steps: List::new(alloc),
            }),
        }
    }
}

// The stops in this order.
fn picked(alloc: Global, stops: &[FeatureId], order: &[u8]) -> Result<List<FeatureId>, OutOfMemory>
    requires { All (λ k. k < length stops.now) order.now }
    ensures { IfOk result (ArePicked stops.now order.now) }
{
    let mut ids = List::new(alloc);
    for k in order {
        ids.push(stops[*k as usize])?;
    }
    Ok(ids)
}
