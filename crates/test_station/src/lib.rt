//! For tests alone: the station, a venue of two levels, with changes, as files in memory, which several crates' tests share. No
//! contract of the program rests on it.
#![tactic(auto)]

mod changes;
mod fault;
mod folder;
mod folders;
mod messages;
mod notation;
mod numbers;
mod rows;
mod settings;
mod station;

pub use changes::{Change, Edit, GONE};
pub use fault::EditFault;
pub use folder::{folder_files, settings_file, slots_of, station_files};
pub use folders::{NO_LIFT, TALL};
pub use messages::{AS_ASKED, CLOSED_LIFT, FIRST, LIFT_CLOSED, VERSION};
pub use numbers::{
    ADDRESS, AMENITY, ANCHOR, BUILDING, DETAIL, EVERY, FIXTURE, FOOTPRINT, GEOFENCE, KIOSK, LEVEL,
    MANIFEST, OCCUPANT, OPENING, RELATIONSHIP, SECTION, SETTINGS, UNIT, VENUE,
};
pub use rows::no_rows;
pub use settings::station_settings;
