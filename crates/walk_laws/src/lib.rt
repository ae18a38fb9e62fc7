//! What a walk over links is and costs, and the two laws by which anyone can check that none costs less or that there is none.
//!
//! The definitions are over any type of links and any family of them. A layer above says once, by an `impl` of `LinkFamily`
//! for a type of its own, what is read of its links and which of them are links of a table or of a version; then the laws
//! hold of these, as `cut_law::<ItsFamily>()`. A family may be any fact on a link, such as that it is allowed and open.
#![tactic(auto)]

mod checks;
mod laws;
mod steps;

pub use checks::{has_node, rises_within};
pub use laws::{
    LinkFamily, PotentialKind, below_law, certificate_law, cut_law, least_law, potential_law,
    reach_law, stand_in_law, walk_law,
};
pub use steps::Steps;
