//! The features of a folder as rows: their identifiers, shapes and positions, and what holds of them where the first
//! phase of rules finds nothing.
//!
//! Later phases are judged only over such rows, so `AreSound` is their condition.
#![tactic(auto)]

mod count;
mod has_id;
mod has_shape;
mod index;
mod laws;

pub use count::feature_count;
pub use has_id::HasId;
pub use has_shape::HasShape;
pub use index::Index;
pub use laws::{
    amenity_point_law, anchor_point_law, index_law, once_law, opening_point_law, row_law,
    unit_vertex_law,
};
