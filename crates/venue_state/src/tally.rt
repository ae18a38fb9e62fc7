//! Marks, with their count.

ghost use Rattle.std.specs.Prelude.{◌≡◌};
ghost use Rattle.route_search.specs.Graphs.{network};
ghost use Rattle.venue_history.specs.Closed.{is_one_of};
ghost use Rattle.venue_state.specs.Boards.{closed_by};
ghost use Rattle.venue_state.specs.Tallies.{IsTally, remarked};

use route_search::{Graph, Marks};
use venue_types::{FeatureId, ProfileSet};

/// Marks for what can be closed, and how many say that it is, for anybody.
#[derive(Drop)]
pub(crate) struct Tally {
    pub marks: Marks,
    pub closed: u32,
}

/// Marks a feature as closed for these profiles and for nobody else, if it can be closed, and tells whether it can.
pub(crate) fn mark(tally: &mut Tally, graph: &Graph, id: FeatureId, profiles: ProfileSet) -> bool
    requires tallied { IsTally (network graph.now).closables tally.old }
    ensures tallied { IsTally (network graph.now).closables tally.new }
    ensures marked { closed_by tally.new.marks (network graph.now).closables ≡ remarked (network graph.now).closables (closed_by tally.old.marks (network graph.now).closables) id profiles }
    ensures can { result ≡ is_one_of (network graph.now).closables id }
{
    graph.range_law();
    match graph.closable(id) {
        Some(k) => {
            let before = u32::from(!tally.marks.profiles(k).is_empty());
            tally.marks.mark(k, profiles);
            tally.closed = tally.closed - before + u32::from(!profiles.is_empty());
            true
        }
        None => false,
    }
}
