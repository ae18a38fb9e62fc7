//! What a category means, and which links a profile may use.
#![tactic(auto)]

mod category;
mod meaning;
mod parts;
mod profile;

pub use category::{known_unit, passage, unit_kind, walkable};
pub use meaning::before_dot;
pub use parts::{EndFacts, parts_law, passes_end, passes_way};
pub use profile::{allows, built_in};
