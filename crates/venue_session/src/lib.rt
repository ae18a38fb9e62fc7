//! One session over one stream: what it may be and how it is served, whatever hall answers and in whatever pieces the bytes come.
#![tactic(auto)]

mod ends;
mod headline_laws;
mod heard;
mod input;
mod laws;
mod refused_heads;
mod step_runs;
mod steps;
mod texts;
mod whole_session;
mod writer;

pub use ends::End;
pub use headline_laws::{complete_law, exchange_law, headline_law};
pub use laws::{acts_close_law, acts_hall_law, acts_more_law, acts_push_law, acts_then_law};
pub use venue_hall::{Built, Venue, build, every_venue, one_outcome};
pub use venue_wire::Front;
pub use whole_session::serve_session;
