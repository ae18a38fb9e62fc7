//! Why there is no such venue or folder.

use std::alloc::{AllocError, AllocFailed};
use test_station::EditFault;
use venue_types::OutOfMemory;

/// What is wrong with what was asked for, or want of memory.
#[derive(Debug, Drop)]
pub enum VenueFault {
    Edit(EditFault),
    /// The folder breaks a rule.
    Rejected,
    /// The settings have no such profiles.
    NoProfiles,
    OutOfMemory,
}

impl From<EditFault> for VenueFault {
    fn from(fault: EditFault) -> VenueFault {
        VenueFault::Edit(fault)
    }
}

impl From<OutOfMemory> for VenueFault {
    fn from(_error: OutOfMemory) -> VenueFault {
        VenueFault::OutOfMemory
    }
}

impl From<AllocError> for VenueFault {
    fn from(_error: AllocError) -> VenueFault {
        VenueFault::OutOfMemory
    }
}

impl<T: Drop> From<AllocFailed<T>> for VenueFault {
    fn from(_error: AllocFailed<T>) -> VenueFault {
        VenueFault::OutOfMemory
    }
}
