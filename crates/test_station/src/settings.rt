//! What is set in the station.

use imdf_access::built_in;
use std::alloc::Global;
use venue_types::{Extras, Inside, List, OutOfMemory, Settings, Text};

/// The settings that the station's `venue.toml` spells.
pub fn station_settings(alloc: Global) -> Result<Settings, OutOfMemory> {
    let key = Text::from_string(String::from_str(alloc, "desk-key-1")?);
    let staff_keys = List::from_vec(vec![in alloc; key]?);
    let profiles = built_in(alloc)?;
    Ok(Settings {
        kx: 10_000_000,
        ky: 10_000_000,
        border_tol: 1_000,
        contain_tol: 5_000,
        inside: Inside::Straight,
        extras: Extras {
            elevator: 3_000,
            escalator: 800,
            movingwalkway: 0,
            ramp: 2_000,
            stairs: 1_500,
            traversal: 0,
        },
        last_version: u32::MAX,
        staff_keys,
        profiles,
    })
}
