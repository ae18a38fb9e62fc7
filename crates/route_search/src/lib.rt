//! Least walks over the links of a venue that may be used, by a search that passes over most links.
#![tactic(auto)]

mod answers;
mod ends;
mod found;
mod frontier;
mod growth;
mod handed;
mod labels;
mod lasts;
mod node_scan;
mod node_stretch;
mod passed_links;
mod queue;
mod quiet;
mod reach_calls;
mod reached;
mod reaching;
mod relaxation;
mod search;
mod start;
mod state;
mod tally;
mod trails;
mod ways;

pub use ends::{Ends, FlaggedEnds, OneEnd};
pub use found::Found;
pub use link_graph::{Graph, Marks, passable_law};
pub use reached::Reach;
pub use reaching::reach;
pub use search::least;
