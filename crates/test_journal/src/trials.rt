//! Appends to a journal on a disk as it was planned.

use crate::disks::{Plan, disk_of};
use crate::journals::{append, journal_behind, journal_over};
use crate::publications::Publication;
use crate::records::Entry;
use change_journal::Journal;
use std::alloc::Global;
use std::process::Abort;
use std::test::Fail;
use venue_ports::MemoryDisk;

/// A disk, the publication that it is a journal of at first, if it is one of any, and the records that are appended one after the
/// other.
#[derive(Clone, Copy)]
pub(crate) struct Trial<'a> {
    pub(crate) alloc: Global,
    pub(crate) plan: Plan<'a>,
    pub(crate) there: Option<&'a Publication>,
    pub(crate) entries: &'a [Entry<'a>],
}

impl<'a> Trial<'a> {
    /// On a disk over these bytes, of which no call fails.
    pub(crate) fn over(alloc: Global, first: &'a [u8], entries: &'a [Entry<'a>]) -> Trial<'a> {
        Trial {
            alloc,
            plan: Plan {
                first,
                failing: &[],
                puts: &[],
            },
            there: None,
            entries,
        }
    }

    /// The same, where the bytes are a journal of a publication.
    pub(crate) fn behind(self, publication: &'a Publication) -> Trial<'a> {
        Trial {
            there: Some(publication),
            ..self
        }
    }

    /// The same, where these calls fail, and each write that fails puts so many bytes all the same.
    pub(crate) fn failing(self, failing: &'a [u64], puts: &'a [usize]) -> Trial<'a> {
        Trial {
            plan: Plan {
                failing,
                puts,
                ..self.plan
            },
            ..self
        }
    }

    // The journal before the first append.
    fn begin(&self, rt: &impl Abort) -> Result<Journal<MemoryDisk>, Fail> {
        let disk = disk_of(self.alloc, &self.plan)?;
        Ok(match self.there {
            Some(publication) => journal_behind(rt, disk, publication),
            None => journal_over(rt, disk),
        })
    }

    /// Makes the first so many appends.
    pub(crate) fn run(&self, rt: &impl Abort, appends: usize) -> Result<Outcome, Fail> {
        let mut journal = self.begin(rt)?;
        let mut is_kept = true;
        for entry in self.entries.iter().take(appends) {
            is_kept = append(rt, &mut journal, entry);
        }
        let count = journal.record_count();
        Ok(Outcome {
            disk: journal.into_disk(),
            count,
            is_kept,
        })
    }
}

/// What came of a trial.
#[derive(Drop)]
pub(crate) struct Outcome {
    pub(crate) disk: MemoryDisk,
    /// How many records the journal has.
    pub(crate) count: u64,
    /// Whether the last append was kept.
    pub(crate) is_kept: bool,
}
