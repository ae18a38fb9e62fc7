//! Why the station can't be changed so.

use std::alloc::{AllocError, AllocFailed};

/// What is wrong with an edit, or want of memory.
#[derive(Debug, Drop)]
pub enum EditFault {
    /// There is no such file to change.
    NoFile,
    /// The text behind which something is changed is not there.
    NoPlace(&'static str),
    /// The text that is to be changed is not there.
    NoText(&'static str),
    OutOfMemory,
}

impl From<AllocError> for EditFault {
    fn from(_error: AllocError) -> EditFault {
        EditFault::OutOfMemory
    }
}

impl<T: Drop> From<AllocFailed<T>> for EditFault {
    fn from(_error: AllocFailed<T>) -> EditFault {
        EditFault::OutOfMemory
    }
}
