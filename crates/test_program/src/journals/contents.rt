//! What journals have, each byte as their format has it.

use std::alloc::{AllocError, Global};
use std::test::Fail;
use test_station::{Change, slots_of};
use venue_types::Slot;

/// The parts of a journal, one behind the other.
pub(crate) type Parts = &'static [&'static [u8]];

/// Among the parts: the record of the station, which worker 0 publishes, with the open gate in front of it. It has 12,433 bytes.
pub(crate) const OPENING: &[u8] = b"opening";

/// Worker 1 closes the lift for both profiles.
pub(crate) const CLOSING: [u8; 21] = [
    1, 2, 1, 0, 0, 0, 0, 0, 0, 0x40, 0, 0x80, 0, 0, 0, 0, 0, 3, 1, 0, 3,
];

/// Worker 1 opens it again for both.
pub(crate) const REOPENING: [u8; 21] = [
    1, 3, 1, 0, 0, 0, 0, 0, 0, 0x40, 0, 0x80, 0, 0, 0, 0, 0, 3, 1, 0, 3,
];

/// A journal without a record.
pub(crate) const NOTHING: Parts = &[];

/// The station's opening, and the closed gate.
pub(crate) const BEGUN: Parts = &[OPENING, &[0]];

/// The lift is closed.
pub(crate) const CLOSED: Parts = &[OPENING, &CLOSING, &[0]];

/// The lift is open again.
pub(crate) const REOPENED: Parts = &[OPENING, &CLOSING, &REOPENING, &[0]];

/// The record behind the open gate is of no kind.
pub(crate) const DAMAGED: Parts = &[&[1, 9]];

// Adds the text of a slot.
fn add_slot(text: &mut Vec<u8>, slot: &Slot) -> Result<(), AllocError> {
    match slot {
        Slot::Absent => text.push(0)?,
        Slot::Held(bytes) => {
            let count = bytes.as_slice().len() as u64;
            text.push(1)?;
            text.extend_from_slice(&count.to_be_bytes())?;
            text.extend_from_slice(bytes.as_slice())?;
        }
    }
    Ok(())
}

// Adds the record of the station.
fn add_opening(alloc: Global, text: &mut Vec<u8>) -> Result<(), Fail> {
    let files = slots_of(alloc, Change::of(&[]))?;
    text.extend_from_slice(&[1, 1, 0])?;
    for slot in files.slots.as_slice() {
        add_slot(text, slot)?;
    }
    Ok(())
}

// Adds what a part stands for.
fn add_part(alloc: Global, bytes: &mut Vec<u8>, part: &[u8]) -> Result<(), Fail> {
    if part == OPENING {
        add_opening(alloc, bytes)
    } else {
        bytes.extend_from_slice(part)?;
        Ok(())
    }
}

/// The bytes of these parts.
pub(crate) fn bytes_of(alloc: Global, parts: &[&[u8]]) -> Result<Vec<u8>, Fail> {
    let mut bytes = Vec::new(alloc);
    for part in parts {
        add_part(alloc, &mut bytes, part)?;
    }
    Ok(bytes)
}
