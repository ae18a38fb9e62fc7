//! The result of a run.

use venue_commands::Status;
use venue_ports::Disks;

/// The status, and what was handed in; and the disk of a journal, where it was opened.
#[derive(Drop)]
pub struct Outcome<F, D, K: Disks> {
    pub status: Status,
    pub folders: F,
    pub doors: D,
    pub disk: Option<K::Disk>,
}

/// The result of a command that keeps no journal.
#[derive(Drop)]
pub(crate) struct Ended<F, D> {
    pub status: Status,
    pub folders: F,
    pub doors: D,
}
