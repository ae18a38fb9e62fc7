//! Rows of a folder, written by hand.

use std::alloc::Global;
use venue_types::{Features, List};

/// A folder without a feature.
pub fn no_rows(alloc: Global) -> Features {
    Features {
        addresses: List::new(alloc),
        amenities: List::new(alloc),
        anchors: List::new(alloc),
        buildings: List::new(alloc),
        details: List::new(alloc),
        fixtures: List::new(alloc),
        footprints: List::new(alloc),
        geofences: List::new(alloc),
        kiosks: List::new(alloc),
        levels: List::new(alloc),
        occupants: List::new(alloc),
        openings: List::new(alloc),
        relationships: List::new(alloc),
        sections: List::new(alloc),
        units: List::new(alloc),
        venues: List::new(alloc),
    }
}
