//! A question for a tour.

ghost use Rattle.std.specs.Prelude.{◌≡◌, ◌≤◌, length};

use crate::{FeatureId, List, Text};
use std::marker::Model;

/// From where to where a tour leads, the stops in between, of which there are one to eight, and the name of the profile.
#[derive(Drop)]
pub struct TourQuery {
    from: FeatureId,
    to: FeatureId,
    stops: List<FeatureId>,
    profile: Text,
}

impl Model for TourQuery {
    ghost use Rattle.std.specs.Prelude.{◌≤◌, length};
    ghost use Rattle.venue_types.specs.Tours.{Tour};

    ghost Value = { Tour };

    ghost view = { λ q. record { from = q.from; to = q.to; stops = q.stops; profile = q.profile } };

    ghost invariant = { λ q. (1 ≤ length q.stops) × (length q.stops ≤ 8) };
}

impl TourQuery {
    /// The question for a tour by these stops.
    pub fn new(from: FeatureId, to: FeatureId, stops: List<FeatureId>, profile: Text) -> TourQuery
        requires some { 1 ≤ length stops }
        requires few { length stops ≤ 8 }
        ensures { result ≡ record { from = from; to = to; stops = stops; profile = profile } }
    {
        TourQuery {
            from,
            to,
            stops,
            profile,
        }
    }

    pub fn from(&self) -> FeatureId
        ensures { result ≡ self.now.from }
    {
        self.from
    }

    pub fn to(&self) -> FeatureId
        ensures { result ≡ self.now.to }
    {
        self.to
    }

    /// The stops, in the order in which they were asked for.
    pub fn stops(&self) -> &List<FeatureId>
        ensures stops { result.now ≡ self.now.stops }
        ensures some { 1 ≤ length self.now.stops }
        ensures few { length self.now.stops ≤ 8 }
    {
        &self.stops
    }

    pub fn profile(&self) -> &Text
        ensures { result.now ≡ self.now.profile }
    {
        &self.profile
    }
}
