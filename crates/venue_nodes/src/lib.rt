//! The nodes of a venue, what can be closed in it, and the members of its units; the rules on how many there may be, and what
//! is worth a note where a door or a passage leads nowhere.
#![tactic(auto)]

mod corner_nodes;
mod ids;
mod limits;
mod lists;
mod members;
mod named_units;
mod node_laws;
mod node_rows;
mod nodes;
mod notes;
mod notes_on_places;
mod numbers;
mod spots;
mod touch_laws;
mod unit_rows;
mod walkables;

pub use corner_nodes::CornerRange;
pub use limits::{Crowding, crowding_by, first_crowding, limit_findings, limit_law};
pub use members::{Membership, Rows};
pub use node_laws::{few_law, first_law, number_law, spot_law};
pub use nodes::Nodes;
pub use notes::PlaceNote;
pub use notes_on_places::place_notes;
pub use touch_laws::touch_law;
