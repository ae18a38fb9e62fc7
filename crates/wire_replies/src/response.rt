//! What a message is answered.

use venue_types::Reply;
use wire_frames::Refusal;

/// The answer to a message.
#[derive(Drop)]
pub enum Response {
    /// It asked or changed something.
    Of(Reply),
    /// It is refused by itself.
    No(Refusal),
    /// So is a HEAD, which gets the head of that reply without its body.
    Bare(Refusal),
}
