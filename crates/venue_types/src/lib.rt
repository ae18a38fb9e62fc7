//! The types that the crates of the venue server share.
#![tactic(auto)]

mod bytes;
mod feature_id;
mod features;
mod files;
mod finding;
mod folder_file;
mod kind;
mod link;
mod list;
mod memory;
mod near_query;
mod point;
mod profile_set;
mod query;
mod reply;
mod room;
mod settings;
mod text;
mod tour_query;

pub use bytes::Bytes;
pub use feature_id::{FeatureId, identifier_law, identifier_text_law};
pub use features::{
    AmenityRow, AnchorRow, BuildingRow, DetailRow, Features, FixtureRow, FootprintRow, KioskRow,
    Label, LevelRow, OccupantRow, OpeningRow, PlainRow, Ref, RelationshipRow, UnitRow, VenueRow,
};
pub use files::{Files, Slot};
pub use finding::{Finding, Note, Report};
pub use folder_file::{ALL_FILES, File, Geometry, feature_files, file_numbers_law, file_of_type};
pub use kind::{Class, Kind};
pub use link::{Link, LinkFacts, Node, Potential, Touches};
pub use list::List;
pub use memory::OutOfMemory;
pub use near_query::NearQuery;
pub use point::{Line, Part, Point, Ring, Shape, Spot};
pub use profile_set::{ProfileSet, profile_set_law};
pub use query::{Ask, Change, Closure, Query};
pub use reply::{
    ClosedRow, ClosureDone, ClosuresTold, Leg, Mark, NearRow, NearTold, NoTourTold, NodeName,
    PlaceRow, PlaceTold, Reply, StepRow, TourTold, Which,
};
pub use room::{push_reserved, reserve};
pub use settings::{Extras, Inside, Profile, Settings};
pub use text::Text;
pub use tour_query::TourQuery;
