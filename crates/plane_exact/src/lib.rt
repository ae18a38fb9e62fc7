//! Predicates on positions, segments and shapes of the plane, and lengths, all exact in whole numbers.
#![tactic(auto)]

mod areas;
mod borders;
mod corner_counts;
mod corner_laws;
mod edge_counts;
mod laws;
mod lengths;
mod numbers;
mod rays;
mod scaling;
mod segments;
mod sight_laws;
mod sights;
mod turns;
mod walls;

pub use areas::doubled_area;
pub use borders::{near, near_chain, near_ring};
pub use corner_counts::corner_count;
pub use corner_laws::{area_law, corner_count_law, corner_law};
pub use edge_counts::edge_count;
pub use laws::{detour_law, length_law, near_edge_law, turn_law};
pub use lengths::{length_cm, spans};
pub use rays::{inside, inside_ring, is_odd_at_chain};
pub use scaling::scaled;
pub use segments::{crosses, near_edge, side};
pub use sight_laws::{scale_law, sees_law, sight_law, sight_turn_law};
pub use sights::{middle_between, sight};
pub use turns::corners;
pub use walls::{Wall, edge_stops, stops, vertex_stops};
