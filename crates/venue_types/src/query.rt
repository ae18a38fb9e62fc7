//! What a visitor asks, and what staff change.

use crate::{FeatureId, List, NearQuery, Text, TourQuery};

/// A question, to be answered at a version that is no older than `since`, where that is given.
#[derive(Drop)]
pub struct Query {
    pub since: Option<u32>,
    pub what: Ask,
}

/// What is asked.
#[derive(Drop)]
pub enum Ask {
    /// The version that stands.
    Version,
    /// All places.
    Places,
    /// One place.
    Place(FeatureId),
    /// What is closed.
    Closures,
    /// The cheapest way between two places for a profile, with its certificate where that is asked for.
    Route {
        from: FeatureId,
        to: FeatureId,
        profile: Text,
        certificate: bool,
    },
    /// The cheapest way from one place to another that visits other places in between, in whatever order costs least.
    Tour(TourQuery),
    /// The nearest amenities of a category, by what the ways to them cost.
    Nearest(NearQuery),
}

/// A closure that staff ask for: the feature is to be closed, or to be open again, for the profiles that are named, or where none are
/// for all.
#[derive(Drop)]
pub struct Closure {
    pub feature: FeatureId,
    pub closed: bool,
    pub profiles: Option<List<Text>>,
}

/// A change that staff ask for.
#[derive(Drop)]
pub enum Change {
    /// Closes a feature, or opens it again.
    Closure(Closure),
    /// Publishes the folder of this name.
    Publish { folder: Text },
}
