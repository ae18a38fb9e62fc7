//! The station as a venue.

ghost use Rattle.std.specs.Prelude.{◌≡◌, IfOk};
ghost use Rattle.std.specs.Arc.{arc_value};

use std::alloc::Global;
use std::sync::Arc;
use std::test::Fail;
use test_station::{Change, slots_of};
use venue_session::{Built, Venue, build};
use venue_types::{Settings, Text};

/// The station under these settings.
pub(crate) fn venue_of(alloc: Global, settings: &Settings) -> Result<Arc<Venue>, Fail>
    ensures { IfOk result (λ venue. (arc_value venue).settings ≡ settings.now) }
{
    let files = slots_of(alloc, Change::of(&[]))?;
    match build(alloc, &files, settings)? {
        Built::Venue(venue) => Ok(Arc::new(alloc, venue)?),
        Built::Rejected(_) => Err(Fail::new("the folder is rejected")),
    }
}

/// The path of its base.
pub(crate) fn base(alloc: Global) -> Result<Text, Fail> {
    Ok(Text::from_string(String::from_str(alloc, "base")?))
}
