//! How far entries reach.

ghost use Rattle.std.specs.Prelude.{◌↔◌, ◌≤◌, IsTrue};
ghost use Rattle.opening_match.specs.declared.entries.Entry.{Entry};
ghost use Rattle.opening_match.specs.Extents.{IsWithin, IsRound};

use crate::entries::Entry;
use venue_types::FeatureId;

/// The least and the greatest level of some entries, and how far west, east, south and north they lie, in nanodegrees.
#[derive(Clone, Copy, Debug, PartialEq, Eq)]
pub(crate) struct Extent {
    pub least: FeatureId,
    pub greatest: FeatureId,
    pub west: i64,
    pub east: i64,
    pub south: i64,
    pub north: i64,
}

/// The extent of no entry.
pub(crate) const NOTHING: Extent = Extent {
    least: FeatureId(u128::MAX),
    greatest: FeatureId(0),
    west: i64::MAX,
    east: i64::MIN,
    south: i64::MAX,
    north: i64::MIN,
};

impl Extent {
    /// The extent of one entry.
    pub fn at(entry: &Entry) -> Extent
        ensures { IsWithin result entry.now }
    {
        Extent {
            least: entry.level,
            greatest: entry.level,
            west: entry.x,
            east: entry.x,
            south: entry.y,
            north: entry.y,
        }
    }

    /// The extent of what either is of.
    pub fn with(self, other: Extent) -> Extent
        ensures first { (e : Entry) → IsWithin self e → IsWithin result e }
        ensures second { (e : Entry) → IsWithin other e → IsWithin result e }
    {
        Extent {
            least: FeatureId(self.least.0.min(other.least.0)),
            greatest: FeatureId(self.greatest.0.max(other.greatest.0)),
            west: self.west.min(other.west),
            east: self.east.max(other.east),
            south: self.south.min(other.south),
            north: self.north.max(other.north),
        }
    }

    /// Whether the level is none below the least or above the greatest.
    pub fn has_level(&self, level: FeatureId) -> bool
        ensures { IsTrue result ↔ ((self.now.least.0 ≤ level.0) × (level.0 ≤ self.now.greatest.0)) }
    {
        self.least.0 <= level.0 && level.0 <= self.greatest.0
    }
}

/// The extent of these entries.
pub(crate) fn extent_of(entries: &[Entry]) -> Extent
    ensures { IsRound result entries.now }
{
    let mut extent = NOTHING;
    for entry in entries {
        extent = extent.with(Extent::at(entry));
    }
    extent
}
