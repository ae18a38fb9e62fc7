//! What a message asks for.

use venue_types::{Change, Query};
use wire_frames::Refusal;

/// What a whole message asks for.
#[derive(Drop)]
pub enum Message {
    /// A question, which anyone may ask.
    Ask(Query),
    /// A change, which staff ask for.
    Do(Change),
    /// Neither, for a reason that comes from the message alone.
    Refused(Refusal),
    /// The same of a HEAD, which wants the head of the reply without its body.
    Bare(Refusal),
    /// There wasn't enough memory to read its query or its body.
    Unread,
}

/// What stands at the front of some bytes.
#[derive(Drop)]
pub enum Taken {
    /// Not yet decided; it won't be before `least` bytes are there in all.
    More {
        least: usize,
    },
    /// The head is refused, and so is all that stands behind it.
    Fault(Refusal),
    /// A message of `length` bytes, behind which no other may follow where `close`.
    Message {
        message: Message,
        length: usize,
        close: bool,
    },
}
