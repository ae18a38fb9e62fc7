//! A version whose venue is let go, so that only a publication goes on from it.

ghost use Rattle.std.specs.Prelude.{◌≢◌, AllPairs, map};
ghost use Rattle.venue_history.specs.Closed.{feature_of};

use crate::replaying::Replaying;
use crate::stand::Stand;
use crate::stand_after::{After, succeeding};
use crate::tally::Tally;
use std::alloc::Global;
use std::sync::Arc;
use venue_history::{Closing, Venue, every_venue};
use venue_types::{List, OutOfMemory, Settings};

/// What is left of a version without its venue: its number, its settings, and what is closed for whom.
#[derive(Drop)]
pub struct Outgoing {
    pub number: u32,
    pub settings: Arc<Settings>,
    pub closed: List<Closing>,
    ghost once: { AllPairs (λ a b. a ≢ b) (map feature_of closed) },
}

impl Stand {
    ghost use Rattle.std.specs.Prelude.{IfOk};
    ghost use Rattle.venue_state.specs.Boards.{IsStand, version_of};
    ghost use Rattle.venue_state.specs.Replaying.{IsLeft};

    /// What is left of it without its venue. Takes memory in proportion to what is closed.
    pub(crate) fn outgoing(&self, alloc: Global) -> Result<Outgoing, OutOfMemory>
        requires { IsStand self.now }
        ensures { IfOk result (IsLeft (version_of self.now)) }
    {
        self.order_law();
        let closed = self.closed_list(alloc)?;
        let settings = Arc::try_clone(&self.settings)?;
        Ok(Outgoing {
            number: self.number,
            settings,
            closed,
        })
    }
}

impl Outgoing {
    ghost use Rattle.std.specs.Prelude.{◌≡◌, ◌+◌, ◌<◌, ◌≤◌, ◌↔◌, IfOk, IsTrue};
    ghost use Rattle.std.specs.Arc.{arc_value};
    ghost use Rattle.route_search.specs.Nodes.{closables};
    ghost use Rattle.venue_history.specs.declared.entry.Act.TheVariants.{Published};
    ghost use Rattle.venue_state.specs.Boards.{IsStand, closed_by, version_of};
    ghost use Rattle.venue_state.specs.Replaying.{IsEnteredBehind};
    ghost use Rattle.venue_state.specs.Tallies.{IsTally};

    // Whether one of sixteen workers may make one version more.
    fn has_room_for(&self, worker: u8) -> bool
        ensures { IsTrue result ↔ ((self.now.number < (arc_value self.now.settings).last_version) × (1 ≤ worker) × (worker ≤ 16)) }
    {
        self.number < self.settings.last_version && worker >= 1 && worker <= 16
    }

    /// What stands next over a venue, with what is marked of it.
    #[tactic(auto, unfolding(crate::specs::Boards::version_of))]
    pub(crate) fn next_stand(&self, venue: &Arc<Venue>, tally: Tally) -> Result<Stand, OutOfMemory>
        requires room { self.now.number < (arc_value self.now.settings).last_version }
        requires settings { (arc_value venue.now).settings ≡ arc_value self.now.settings }
        requires tallied { IsTally (closables (arc_value venue.now).features) tally }
        ensures stands { IfOk result (λ next. IsStand next) }
        ensures next { IfOk result (λ next. version_of next ≡ record { number = self.now.number + 1; features = (arc_value venue.now).features; settings = arc_value self.now.settings; closed = closed_by tally.marks (closables (arc_value venue.now).features) }) }
    {
        let _last = self.settings.last_version;
        let venue = Arc::try_clone(venue)?;
        let settings = Arc::try_clone(&self.settings)?;
        Ok(Stand {
            number: self.number + 1,
            venue,
            tally,
            settings,
        })
    }

    /// Publishes a venue of these settings by a worker, where that may follow the version of which this is left; else there is none.
    pub fn publish(
        self,
        alloc: Global,
        venue: Arc<Venue>,
        worker: u8,
    ) -> Result<Option<Replaying>, OutOfMemory>
        requires { (arc_value venue).settings ≡ arc_value self.settings }
        ensures { IfOk result (IsEnteredBehind self (record { worker = worker; act = Published venue })) }
    {
        every_venue(&venue);
        if !self.has_room_for(worker) {
            return Ok(None);
        }
        let After { stand, .. } = succeeding(alloc, &self, &venue)?;
        Ok(Some(Replaying { stand }))
    }
}
