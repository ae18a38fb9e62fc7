//! How many features there are.

ghost use Rattle.std.specs.Prelude.{◌≡◌};
ghost use Rattle.feature_rows.specs.Rows.{feature_count};
ghost use Rattle.feature_rows.specs.Sound.{AreSound};

use venue_types::Features;

/// How many features a folder has, at most 100,000.
pub fn feature_count(features: &Features) -> usize
    requires { AreSound features.now }
    ensures { result ≡ feature_count features.now }
{
    features.addresses.len()
        + features.amenities.len()
        + features.anchors.len()
        + features.buildings.len()
        + features.details.len()
        + features.fixtures.len()
        + features.footprints.len()
        + features.geofences.len()
        + features.kiosks.len()
        + features.levels.len()
        + features.occupants.len()
        + features.openings.len()
        + features.relationships.len()
        + features.sections.len()
        + features.units.len()
        + features.venues.len()
}
