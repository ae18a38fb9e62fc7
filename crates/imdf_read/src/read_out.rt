//! What reading a folder gives.

use venue_types::{Features, Finding, List, Note};

/// The features of a folder, what is wrong with it, and what is worth a note.
#[derive(Drop)]
pub struct ReadOut {
    /// What the files hold, where there is no finding.
    pub features: Features,
    pub findings: List<Finding>,
    pub notes: List<Note>,
}
