//! Where the head of a request ends, and what frames its message: heads, bodies and the refusals of a head (RFC 9112).
#![tactic(auto)]

mod fields;
mod frames;
mod heads;
mod laws;
mod parts;
mod refusals;

pub use fields::Named;
pub use frames::{Framed, Framing, frame};
pub use heads::{Extent, find_head};
pub use laws::{front_more_law, head_extent_law, one_front_law, short_law};
pub use refusals::{Methods, Refusal};
