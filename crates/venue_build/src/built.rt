//! What becomes of a folder.

use crate::Venue;
use venue_types::Report;

/// The report of a folder, or the venue that it makes.
#[derive(Drop)]
pub enum Built {
    /// Something is wrong with it.
    Rejected(Report),
    Venue(Venue),
}
