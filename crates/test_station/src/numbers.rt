//! The files of a folder by number, and the settings beside it.

use std::alloc::{AllocError, Global};

/// The number of `manifest.json`.
pub const MANIFEST: usize = 0;

/// The number of `address.geojson`.
pub const ADDRESS: usize = 1;

/// The number of `amenity.geojson`.
pub const AMENITY: usize = 2;

/// The number of `anchor.geojson`.
pub const ANCHOR: usize = 3;

/// The number of `building.geojson`.
pub const BUILDING: usize = 4;

/// The number of `detail.geojson`.
pub const DETAIL: usize = 5;

/// The number of `fixture.geojson`.
pub const FIXTURE: usize = 6;

/// The number of `footprint.geojson`.
pub const FOOTPRINT: usize = 7;

/// The number of `geofence.geojson`.
pub const GEOFENCE: usize = 8;

/// The number of `kiosk.geojson`.
pub const KIOSK: usize = 9;

/// The number of `level.geojson`.
pub const LEVEL: usize = 10;

/// The number of `occupant.geojson`.
pub const OCCUPANT: usize = 11;

/// The number of `opening.geojson`.
pub const OPENING: usize = 12;

/// The number of `relationship.geojson`.
pub const RELATIONSHIP: usize = 13;

/// The number of `section.geojson`.
pub const SECTION: usize = 14;

/// The number of `unit.geojson`.
pub const UNIT: usize = 15;

/// The number of `venue.geojson`.
pub const VENUE: usize = 16;

/// Stands for `venue.toml`, the settings in the base of the folder.
pub const SETTINGS: usize = 17;

/// Stands for all files of the folder, but not the settings.
pub const EVERY: usize = 18;

static TYPES: [&str; 17] = [
    "manifest",
    "address",
    "amenity",
    "anchor",
    "building",
    "detail",
    "fixture",
    "footprint",
    "geofence",
    "kiosk",
    "level",
    "occupant",
    "opening",
    "relationship",
    "section",
    "unit",
    "venue",
];

/// The type of the features in a file.
pub(crate) fn type_name(file: usize) -> &'static str {
    match TYPES.get(file) {
        Some(name) => name,
        None => "",
    }
}

/// The name of a file.
pub(crate) fn file_name(alloc: Global, file: usize) -> Result<String, AllocError> {
    let kind = type_name(file);
    match file {
        MANIFEST => String::from_str(alloc, "manifest.json"),
        SETTINGS => String::from_str(alloc, "venue.toml"),
        _ => format!(in alloc; "{kind}.geojson"),
    }
}
