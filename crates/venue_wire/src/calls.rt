//! What a frame calls, before its query or its body is judged.

use crate::paths::Path;
use wire_frames::Refusal;

/// A call of a path by a method that it has, and for POST by staff; or why it is none.
#[derive(Clone, Copy, Debug, PartialEq, Eq)]
pub(crate) enum Call {
    Get(Path),
    Post(Path),
    Refused(Refusal),
}
