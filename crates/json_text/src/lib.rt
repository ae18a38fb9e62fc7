//! The compact text of a JSON value, and a draft into which such texts are written.
#![tactic(auto)]

mod draft;
mod laws;
mod texts;

pub use draft::Draft;
pub use laws::{compact_law, fresh_law, onto_law};
pub use texts::append_quoted;
