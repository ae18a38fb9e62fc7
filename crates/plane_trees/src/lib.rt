//! Shapes and rings made ready for many questions about positions and ways: bands of four directions, kept for runs of edges.
#![tactic(auto)]

mod band_laws;
mod bands;
mod grove_borders;
mod grove_rays;
mod grove_walls;
mod groves;
mod octagons;
mod over;
mod ring_bands;
mod run_borders;
mod run_crossings;
mod run_rays;
mod run_walls;
mod runs;
mod tree_growth;

pub use band_laws::{crossing_law, even_ray_law, near_line_law, on_segment_law, ray_law};
pub use bands::Bands;
pub use ring_bands::{RingBands, ring_crosses};
