//! The entries of a history.

use std::sync::Arc;
use venue_build::Venue;
use venue_types::{FeatureId, ProfileSet};

/// A feature, and the profiles for which it is closed, was closed, or was opened again.
#[derive(Clone, Copy, Debug, PartialEq, Eq)]
pub struct Closing {
    pub feature: FeatureId,
    pub profiles: ProfileSet,
}

/// What was done.
#[derive(Drop)]
pub enum Act {
    /// This venue stands from here on.
    Published(Arc<Venue>),
    /// The feature is closed for the profiles, beside those for whom it is closed already.
    Closed(Closing),
    /// The feature is open again for the profiles.
    Reopened(Closing),
}

/// A change that was accepted.
#[derive(Drop)]
pub struct Entry {
    /// Who made it: 0 for the first entry, then 1 to 16.
    pub worker: u8,
    pub act: Act,
}
