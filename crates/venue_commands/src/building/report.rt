//! What is reported of a building.

ghost use Rattle.std.specs.Prelude.{◌≡◌, ◌≤◌, ◌<◌, IfOk, string_bytes};
ghost use Rattle.venue_commands.specs.BuildingReports.{IsSummary, IsTold};

use crate::building::settings::building_settings;
use crate::building::summary_text::summary;
use check_text::rejected_text;
use gen_text::gen_files;
use std::alloc::Global;
use std::sync::Arc;
use venue_types::{OutOfMemory, Settings};
use version_board::{Built, Venue, build};

/// The lines that tell of a building, and whether its folder is accepted.
#[derive(Drop)]
pub struct Told {
    pub text: String,
    pub accepted: bool,
}

// What is told of a building that is a venue.
fn told_venue(
    alloc: Global,
    settings: Settings,
    venue: Venue,
    levels: u8,
) -> Result<String, OutOfMemory>
    requires settings { venue.settings ≡ settings }
    requires room { 1 < settings.last_version }
    requires some { 1 ≤ levels }
    ensures { IfOk result (λ text. IsSummary levels venue (string_bytes text)) }
{
    let settings = Arc::new(alloc, settings)?;
    let venue = Arc::new(alloc, venue)?;
    summary(alloc, settings, venue, levels)
}

/// Makes the building of so many levels, 1 to 200, checks it like any folder, opens a history with it, looks for a wheelchair's way from
/// the first room of the lowest level to the last of the highest, closes the lowest lift, and looks again, for a wheelchair and on foot.
pub fn tell_building(alloc: Global, levels: u8) -> Result<Told, OutOfMemory>
    requires some { 1 ≤ levels }
    requires range { levels ≤ 200 }
    ensures { IfOk result (λ told. IsTold levels (string_bytes told.text) told.accepted) }
{
    let files = gen_files(alloc, levels)?;
    let settings = building_settings(alloc)?;
    match build(alloc, &files, &settings)? {
        Built::Venue(venue) => {
            let text = told_venue(alloc, settings, venue, levels)?;
            Ok(Told {
                text,
                accepted: true,
            })
        }
        Built::Rejected(report) => {
            let text = rejected_text(alloc, &report)?;
            Ok(Told {
                text,
                accepted: false,
            })
        }
    }
}
