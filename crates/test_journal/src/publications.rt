//! Two folders that are published, and their records' texts.

ghost use Rattle.std.specs.Prelude.{◌≡◌, ◌∷◌, ◌++◌, IfOk, OnOk, flat_map};
ghost use Rattle.venue_hall.specs.Records.{published};
ghost use Rattle.change_journal.specs.Texts.{record_text, slot_text};

use crate::records::Entry;
use std::alloc::{AllocError, Global};
use std::test::Fail;
use test_station::{Change, Edit, slots_of};
use venue_hall::Record;
use venue_types::{Bytes, Files, List, Slot};

/// A folder that a worker published, and its record's text.
#[derive(Drop)]
pub(crate) struct Publication {
    pub(crate) worker: u8,
    pub(crate) files: Files,
    pub(crate) text: Vec<u8>,
    ghost spells: { text.items ≡ record_text (record { worker = worker; act = published files.slots }) },
}

impl Publication {
    // Spells the text.
    fn of(alloc: Global, worker: u8, files: Files) -> Result<Publication, AllocError> {
        let text = published_text(alloc, worker, &files)?;
        Ok(Publication {
            worker,
            files,
            text,
        })
    }

    /// A journal of it: its text, and a closed gate.
    pub(crate) fn journal(&self, alloc: Global) -> Result<Vec<u8>, AllocError> {
        let mut bytes = Vec::from_slice(alloc, &self.text)?;
        bytes.push(0)?;
        Ok(bytes)
    }

    /// As a record of the tables.
    pub(crate) fn entry(&self) -> Entry<'_> {
        Entry {
            record: Record::Published {
                worker: self.worker,
                files: &self.files,
            },
            text: self.text.as_slice(),
        }
    }
}

// Adds the text of a slot.
fn add_slot(text: &mut Vec<u8>, slot: &Slot) -> Result<(), AllocError>
    ensures { OnOk result (text.new.items ≡ text.old.items ++ slot_text slot.now) }
{
    match slot {
        Slot::Absent => text.push(0)?,
        Slot::Held(bytes) => {
            let count = bytes.as_slice().len() as u64;
            text.push(1)?;
            text.extend_from_slice(&count.to_be_bytes())?;
            text.extend_from_slice(bytes.as_slice())?;
        }
    }
    Ok(())
}

// The text of the record of a folder that a worker published.
fn published_text(alloc: Global, worker: u8, files: &Files) -> Result<Vec<u8>, AllocError>
    ensures { IfOk result (λ text. text.items ≡ record_text (record { worker = worker; act = published files.now.slots })) }
{
    let mut text = vec![in alloc; 1, 1, worker]?;
    for slot in files.slots.as_slice() {
        add_slot(&mut text, slot)?;
    }
    Ok(text)
}

/// The text of the record of the station with changes, by worker 0.
pub(crate) fn text_of_station(alloc: Global, edits: &'static [Edit]) -> Result<Vec<u8>, Fail> {
    let files = slots_of(alloc, Change::of(edits))?;
    Ok(published_text(alloc, 0, &files)?)
}

/// The station of the tests, of which twelve files are there, by worker 0.
pub(crate) fn station(alloc: Global) -> Result<Publication, Fail> {
    let files = slots_of(alloc, Change::of(&[]))?;
    Ok(Publication::of(alloc, 0, files)?)
}

// The slots of a small folder: a file of two bytes, an empty one, fourteen absent ones, and one of three bytes that are 1.
fn small_slots(alloc: Global) -> Result<Vec<Slot>, AllocError> {
    let front = Vec::from_slice(alloc, b"{}")?;
    let back = Vec::from_slice(alloc, &[1, 1, 1])?;
    let mut slots = Vec::new(alloc);
    slots.push(Slot::Held(Bytes::from_vec(front)))?;
    slots.push(Slot::Held(Bytes::from_vec(Vec::new(alloc))))?;
    for _ in 0..14 {
        slots.push(Slot::Absent)?;
    }
    slots.push(Slot::Held(Bytes::from_vec(back)))?;
    Ok(slots)
}

/// The small folder, by worker 16.
pub(crate) fn small(alloc: Global) -> Result<Publication, AllocError> {
    let slots = small_slots(alloc)?;
    let files = Files {
        slots: List::from_vec(slots),
    };
    Publication::of(alloc, 16, files)
}
