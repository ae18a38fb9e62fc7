//! What stands at a place of a journal.

use venue_types::{FeatureId, Files, ProfileSet};

/// What was done, by a record.
#[derive(Drop)]
pub enum FoundAct {
    /// A folder was published: its seventeen files, each within the limit.
    Published(Files),
    /// A feature was closed for these profiles.
    Closed {
        feature: FeatureId,
        profiles: ProfileSet,
    },
    /// A feature was opened again for these profiles.
    Reopened {
        feature: FeatureId,
        profiles: ProfileSet,
    },
}

/// A whole record: its worker, at most 16, what was done, and where the next gate stands.
#[derive(Drop)]
pub struct FoundRecord {
    pub worker: u8,
    pub act: FoundAct,
    pub next: u64,
}

/// What stands at a place.
#[derive(Drop)]
pub enum Found {
    /// A gate that isn't open: the journal ends here.
    Closed,
    /// An open gate, behind which no record is whole.
    Broken,
    /// An open gate, and its record.
    Record(FoundRecord),
}

/// The same, where a record's content isn't asked for.
#[derive(Clone, Copy, Debug, PartialEq, Eq)]
pub enum Skipped {
    Closed,
    Broken,
    /// A whole record, and where the next gate stands.
    Record(u64),
}
