//! Boards.

ghost use Rattle.std.specs.Prelude.{◌≡◌, length, IfOk};
ghost use Rattle.std.specs.Arc.{arc_value};
ghost use Rattle.route_search.specs.Nodes.{closables};
ghost use Rattle.route_search.specs.Graphs.{network};
ghost use Rattle.route_search.specs.Networks.{IsNetworkOf};
ghost use Rattle.venue_history.specs.Closed.{closed_count, everybody};
ghost use Rattle.venue_history.specs.Versions.{AreProfiles, opening};
ghost use Rattle.venue_state.specs.Boards.{IsStand, closed_by, version_of};

use crate::profile_names::everybody;
use crate::stand::Stand;
use route_search::{Graph, Marks};
use std::alloc::Global;
use std::marker::Model;
use std::sync::Arc;
use venue_history::{Closing, Venue};
use venue_types::{FeatureId, OutOfMemory, Settings};

/// One version of a venue, to be asked. It is one handle to what it keeps, which several boards may share.
#[derive(Drop)]
pub struct Board {
    stand: Arc<Stand>,
}

impl Model for Board {
    ghost use Rattle.std.specs.Arc.{arc_value};
    ghost use Rattle.venue_history.specs.Closed.{Version};
    ghost use Rattle.venue_state.specs.Boards.{IsStand, version_of};

    ghost Value = { Version };

    ghost view = { λ a. version_of (arc_value a.stand) };

    ghost invariant = { λ a. IsStand (arc_value a.stand) };
}

impl Board {
    /// The board with which the venue opens a history: the first version, at which nothing is closed.
    pub fn first(
        alloc: Global,
        venue: Arc<Venue>,
        settings: Arc<Settings>,
    ) -> Result<Board, OutOfMemory>
        requires { (arc_value venue).settings ≡ arc_value settings }
        ensures { IfOk result (λ board. board ≡ opening (arc_value venue).features (arc_value settings)) }
    {
        let stand = Stand::first(alloc, venue, settings)?;
        Board::of(alloc, stand)
    }

    /// The board of what it keeps.
    pub(crate) fn of(alloc: Global, stand: Stand) -> Result<Board, OutOfMemory>
        requires { IsStand stand }
        ensures { IfOk result (λ board. board ≡ version_of stand) }
    {
        let stand = Arc::new(alloc, stand)?;
        Ok(Board { stand })
    }

    /// One more handle to the same board.
    pub(crate) fn handle(&self) -> Result<Board, OutOfMemory>
        ensures { IfOk result (λ board. board ≡ self.now) }
    {
        let stand = Arc::try_clone(&self.stand)?;
        Ok(Board { stand })
    }

    /// The number of its version.
    #[tactic(auto, unfolding(crate::specs::Boards::version_of))]
    pub fn number(&self) -> u32
        ensures { result ≡ self.now.number }
    {
        self.stand.number
    }

    /// What it keeps.
    pub(crate) fn stand(&self) -> &Stand
        ensures stands { IsStand result.now }
        ensures version { version_of result.now ≡ self.now }
    {
        &self.stand
    }

    /// The closing of a feature for all profiles of the settings.
    pub fn closing(&self, id: FeatureId) -> Closing
        ensures is { result ≡ record { feature = id; profiles = everybody self.now.settings } }
        ensures profiles { AreProfiles self.now.settings result.profiles }
    {
        Closing {
            feature: id,
            profiles: everybody(self.settings()),
        }
    }

    /// How many features are closed for anybody.
    #[tactic(auto, unfolding(crate::specs::Boards::version_of))]
    pub(crate) fn closed_count(&self) -> u32
        ensures { result ≡ closed_count self.now }
    {
        self.stand.tally.closed
    }

    /// Its rows and its places.
    #[tactic(auto, unfolding(crate::specs::Boards::version_of))]
    pub(crate) fn venue(&self) -> &Venue
        ensures features { result.now.features ≡ self.now.features }
        ensures settings { result.now.settings ≡ self.now.settings }
    {
        &self.stand.venue
    }

    /// The graph of its rows.
    #[tactic(auto, unfolding(crate::specs::Boards::version_of))]
    pub(crate) fn graph(&self) -> &Graph
        ensures { IsNetworkOf self.now.features self.now.settings (network result.now) }
    {
        self.stand.venue.graph()
    }

    #[tactic(auto, unfolding(crate::specs::Boards::version_of))]
    pub(crate) fn settings(&self) -> &Arc<Settings>
        ensures { arc_value result.now ≡ self.now.settings }
    {
        &self.stand.settings
    }

    /// For whom each feature is closed, by the numbers of the graph.
    #[tactic(auto, unfolding(crate::specs::Boards::version_of))]
    pub(crate) fn marks(&self) -> &Marks
        ensures whole { length result.now ≡ length (closables self.now.features) }
        ensures closed { closed_by result.now (closables self.now.features) ≡ self.now.closed }
    {
        &self.stand.tally.marks
    }
}
