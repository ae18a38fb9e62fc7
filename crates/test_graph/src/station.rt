//! The station, and other folders, as venues.

ghost use Rattle.std.specs.Prelude.{◌≡◌, length};

use std::alloc::Global;
use std::sync::Arc;
use std::test::Fail;
use test_station::{Change, Edit, slots_of, station_settings};
use venue_build::{Built, Venue, build};
use venue_types::{FeatureId, Files};

/// The identifier that ends so.
pub(crate) fn id(tail: u128) -> FeatureId {
    FeatureId(0x4000_8000_0000_0000_0000 | tail)
}

/// The station with changes.
pub(crate) fn venue_of(alloc: Global, edits: &'static [Edit]) -> Result<Arc<Venue>, Fail> {
    let files = slots_of(alloc, Change::of(edits))?;
    venue_in(alloc, &files)
}

/// The venue in these files, with the station's settings.
pub(crate) fn venue_in(alloc: Global, files: &Files) -> Result<Arc<Venue>, Fail>
    requires { length files.now.slots ≡ 17 }
{
    let settings = station_settings(alloc)?;
    match build(alloc, files, &settings)? {
        Built::Venue(venue) => Ok(Arc::new(alloc, venue)?),
        Built::Rejected(_) => Err(Fail::new("the folder is rejected")),
    }
}
