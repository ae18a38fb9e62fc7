//! The second phase of rules: each identifier stands for one feature, and each reference names a feature of its type.
#![tactic(auto)]

mod identifiers;
mod known;
mod laws;
mod place;
mod references;
mod row;
mod rows;
mod rule_checks;

pub use laws::{
    amenity_unit_law, anchor_unit_law, occupant_anchor_law, opening_level_law, own_ids_law,
    types_law, unit_level_law,
};
pub use references::reference_findings;
