//! The settings of every building.

ghost use Rattle.std.specs.Prelude.{IfOk};
ghost use Rattle.venue_commands.specs.BuildingReports.{AreBuildingSettings};

use imdf_access::built_in;
use std::alloc::Global;
use venue_types::{Extras, Inside, List, OutOfMemory, Settings};

/// The settings of a building: nobody is staff, and there are no profiles but those that every venue has.
pub(crate) fn building_settings(alloc: Global) -> Result<Settings, OutOfMemory>
    ensures { IfOk result AreBuildingSettings }
{
    let profiles = built_in(alloc)?;
    Ok(Settings {
        kx: 10_000_000,
        ky: 10_000_000,
        border_tol: 1_000,
        contain_tol: 5_000,
        inside: Inside::Straight,
        extras: Extras {
            elevator: 3_000,
            escalator: 800,
            movingwalkway: 0,
            ramp: 2_000,
            stairs: 1_500,
            traversal: 0,
        },
        last_version: u32::MAX,
        staff_keys: List::new(alloc),
        profiles,
    })
}
