//! Why a venue may be kept in its fixed form: its folder, written in that form, makes the same venue.
#![tactic(auto)]

mod laws;

pub use laws::canon_checked;
