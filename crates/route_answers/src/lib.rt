//! The table of the links of a venue that a profile may use, and the answer to the question for a way over that table.
#![tactic(auto)]

mod answers;
mod claims;
mod counts;
mod firsts;
mod ids;
mod inside;
mod passes;
mod places;
mod room;
mod rows;
mod search;
mod starts;
mod tables;

pub use answers::route_answer;
pub use places::row_places;
pub use tables::allowed_table;
pub use venue_nodes::number_law;
