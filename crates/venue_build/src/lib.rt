//! Makes a venue of a folder, or the report of what is wrong with it.
#![tactic(auto)]

mod built;
mod ground;
mod law;
mod ordinals;
mod phases;
mod place_feature;
mod place_table;
mod places;
mod plane;
mod venue;

pub use built::Built;
pub use imdf_refs::own_ids_law;
pub use law::{every_name, every_venue, one_outcome, sizes_law};
pub use phases::build;
pub use venue::Venue;
