//! What becomes of a journal that is read back, or begun.

use board_copies::Resumed;
use change_journal::Journal;
use venue_ports::Disk;

/// A journal that goes on, and the history to which it leads: none where it has no record.
#[derive(Drop)]
pub struct Restored<K: Disk> {
    pub journal: Journal<K>,
    pub resumed: Option<Resumed>,
}

/// A journal that goes on, and the history to which its records lead.
#[derive(Drop)]
pub struct Kept<K: Disk> {
    pub journal: Journal<K>,
    pub resumed: Resumed,
}

/// Why a journal isn't read back.
#[derive(Clone, Copy, Debug, PartialEq, Eq)]
pub enum RestoreFault {
    /// The disk failed, and counted it.
    Failed,
    /// The bytes are no journal: at this place stands an open gate whose record isn't whole.
    Damaged(u64),
    /// The record of this number, the first being 1, is none that may follow those before it under these settings.
    Unfit(u64),
    /// Memory ran out.
    OutOfMemory,
}

/// A disk that isn't read back, which comes back as it was.
#[derive(Drop)]
pub struct Unrestored<K: Disk> {
    pub disk: K,
    pub fault: RestoreFault,
}
