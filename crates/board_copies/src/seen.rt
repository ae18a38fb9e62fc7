//! What a reader finds.

use venue_types::Reply;

/// The number of the version that was published, and the reply there.
#[derive(Drop)]
pub struct Seen {
    pub number: u32,
    pub reply: Reply,
}
