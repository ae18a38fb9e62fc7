//! The best order of stops on the way from a place to another.
#![tactic(auto)]

mod best_order;
mod costs;
mod legs;
mod next;
mod order;
mod sets;
mod table;

pub use best_order::best;
pub use costs::Costs;
pub use order::Order;
