//! Points, lines and polygons of GeoJSON (RFC 7946, section 3.1), read from a JSON tree with exact rules and counts.
#![tactic(auto)]

mod gathered;
mod geometry;
mod laws;
mod polygon;
mod position;
mod read_geometry;
mod ring;
mod values;

pub use geometry::{line, point, shape};
pub use laws::{decimals_law, one_line_law, one_point_law, one_shape_law, same_numbers_law};
pub use read_geometry::ReadGeometry;
