//! The links of a venue: which there are, in which order, what they cost, what they ask of who uses them, and which are open.
#![tactic(auto)]

mod areas;
mod calls;
mod crossings;
mod doors;
mod families;
mod faults;
mod from_features;
mod graph;
mod graph_core;
mod laws;
mod leads;
mod link_facts;
mod link_list;
mod marks;
mod network_laws;
mod new_links;
mod out_links;
mod outlook;
mod parts;
mod room_sights;
mod seats;
mod stretches;
mod trails;
mod way_starts;
mod ways;

pub use areas::Area;
pub use families::{NodePotentials, PassableLinks};
pub use faults::GraphFault;
pub use graph::Graph;
pub use laws::{detour_law, inside_law, length_between_law, range_law, whole_law};
pub use marks::{Marks, marked_law};
pub use network_laws::{network_parts_law, passable_law};
pub use new_links::NewLink;
pub use stretches::{Stretch, Way};
pub use venue_nodes::{limit_law, place_notes};
