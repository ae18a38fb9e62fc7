//! The reads that were asked for, noted in memory.

ghost use Rattle.std.specs.Prelude.{◌≡◌, [], ◌∷◌, ◌++◌, Some, None, map, OnOk, OnErr};
ghost use Rattle.std.specs.Option.{option_map};
ghost use Rattle.venue_ports.specs.Asked.{HaveAsked};
ghost use Rattle.venue_ports.specs.Noted.{noted_read};

use crate::memory::OutOfMemory;
use std::alloc::Global;
use std::marker::Model;

/// A read: the names of the folder and the file, and whether it failed.
#[derive(Drop)]
pub(crate) struct ReadNote {
    folder: String,
    file: String,
    failed: bool,
}

/// The reads so far, in order. Once memory for a note has run out, nothing is told of them.
#[derive(Drop)]
pub(crate) struct ReadLog {
    notes: Option<Vec<ReadNote>>,
}

impl Model for ReadLog {
    ghost use Rattle.std.specs.Prelude.{List, Option, map};
    ghost use Rattle.std.specs.Option.{option_map};
    ghost use Rattle.venue_ports.specs.Asked.{AskedFile};
    ghost use Rattle.venue_ports.specs.Noted.{noted_read};

    ghost Value = { Option (List AskedFile) };

    ghost view = { λ log. option_map (λ notes. map noted_read notes.items) log.notes };
}

// Adds a note behind the others.
fn push_note(
    alloc: Global,
    notes: &mut Vec<ReadNote>,
    folder: &str,
    file: &str,
    failed: bool,
) -> Result<(), OutOfMemory>
    ensures ok { OnOk result (map noted_read notes.new.items ≡ map noted_read notes.old.items ++ record { folder = folder.now; file = file.now; failed = failed } ∷ []) }
{
    let folder = String::from_str(alloc, folder)?;
    let file = String::from_str(alloc, file)?;
    notes.push(ReadNote {
        folder,
        file,
        failed,
    })?;
    Ok(())
}

impl ReadLog {
    /// Before the first read. Takes no memory.
    pub(crate) fn new(alloc: Global) -> ReadLog
        ensures { result ≡ Some [] }
    {
        ReadLog {
            notes: Some(Vec::new(alloc)),
        }
    }

    /// Notes a read.
    pub(crate) fn note(&mut self, alloc: Global, folder: &str, file: &str, failed: bool)
        ensures { HaveAsked (record { folder = folder.now; file = file.now; failed = failed } ∷ []) self.old self.new }
    {
        let is_noted = match &mut self.notes {
            Some(notes) => push_note(alloc, notes, folder, file, failed).is_ok(),
            None => false,
        };
        if !is_noted {
            self.notes = None;
        }
    }
}
