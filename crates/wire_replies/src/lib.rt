//! The bytes of a reply: a status, its head lines and a body of compact JSON (RFC 9112; RFC 8259).
#![tactic(auto)]

mod bodies;
mod heads;
mod labels;
mod nearest;
mod refusals;
mod replies;
mod reply;
mod response;
mod rows;
mod tours;
mod walks;
mod words;
mod written;

pub use refusals::{bare_bytes, refusal_bytes};
pub use reply::{reply_bytes, want_of_memory};
pub use response::Response;
