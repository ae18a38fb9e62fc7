//! What a board keeps.

ghost use Rattle.std.specs.Prelude.{◌≡◌, ◌<◌, ◌↔◌, length, IfOk, IsTrue};
ghost use Rattle.std.specs.Arc.{arc_value};
ghost use Rattle.route_search.specs.Graphs.{network};
ghost use Rattle.route_search.specs.Nodes.{closables};
ghost use Rattle.route_search.specs.Networks.{IsNetworkOf};
ghost use Rattle.venue_history.specs.Versions.{opening};
ghost use Rattle.venue_state.specs.Boards.{IsStand, closed_by, version_of};

use crate::tally::Tally;
use route_search::{Graph, Marks};
use std::alloc::Global;
use std::sync::Arc;
use venue_history::Venue;
use venue_types::{OutOfMemory, Settings};

/// A version, with marks for whom what is closed, by the numbers of the venue's graph.
#[derive(Drop)]
pub(crate) struct Stand {
    /// The number of the version.
    pub number: u32,
    pub venue: Arc<Venue>,
    pub tally: Tally,
    pub settings: Arc<Settings>,
}

impl Stand {
    /// What stands where the venue opens a history: the first version, at which nothing is closed.
    pub(crate) fn first(
        alloc: Global,
        venue: Arc<Venue>,
        settings: Arc<Settings>,
    ) -> Result<Stand, OutOfMemory>
        requires { (arc_value venue).settings ≡ arc_value settings }
        ensures stands { IfOk result (λ stand. IsStand stand) }
        ensures opens { IfOk result (λ stand. version_of stand ≡ opening (arc_value venue).features (arc_value settings)) }
    {
        let marks = Marks::none(alloc, venue.graph())?;
        Ok(Stand {
            number: 1,
            venue,
            tally: Tally { marks, closed: 0 },
            settings,
        })
    }

    /// A copy, over the same venue.
    pub(crate) fn copy(&self, alloc: Global) -> Result<Stand, OutOfMemory>
        requires { IsStand self.now }
        ensures stands { IfOk result (λ copy. IsStand copy) }
        ensures same { IfOk result (λ copy. version_of copy ≡ version_of self.now) }
    {
        let marks = self.tally.marks.copy(alloc)?;
        let venue = Arc::try_clone(&self.venue)?;
        let settings = Arc::try_clone(&self.settings)?;
        Ok(Stand {
            number: self.number,
            venue,
            tally: Tally {
                marks,
                closed: self.tally.closed,
            },
            settings,
        })
    }

    /// Whether the settings allow one version more.
    #[tactic(auto, unfolding(crate::specs::Boards::version_of))]
    pub(crate) fn has_room(&self) -> bool
        ensures { IsTrue result ↔ ((version_of self.now).number < (version_of self.now).settings.last_version) }
    {
        self.number < self.settings.last_version
    }

    /// The graph of its rows.
    #[tactic(auto, unfolding(crate::specs::Boards::version_of))]
    pub(crate) fn graph(&self) -> &Graph
        requires { IsStand self.now }
        ensures { IsNetworkOf (version_of self.now).features (version_of self.now).settings (network result.now) }
    {
        self.venue.graph()
    }

    /// For whom each feature is closed, by the numbers of the graph.
    #[tactic(auto, unfolding(crate::specs::Boards::version_of))]
    pub(crate) fn marks(&self) -> &Marks
        requires { IsStand self.now }
        ensures whole { length result.now ≡ length (closables (version_of self.now).features) }
        ensures closed { closed_by result.now (closables (version_of self.now).features) ≡ (version_of self.now).closed }
    {
        &self.tally.marks
    }
}
