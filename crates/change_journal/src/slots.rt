//! The slots of a publication: where they end, or what they hold.

ghost use Rattle.std.specs.Prelude.{◌≡◌, ◌<◌, ◌≤◌, ◌+◌, ◌*◌, ◌^◌, IfOk, IfSome, OnOk, length, drop};
ghost use Rattle.venue_ports.specs.Causes.{HasExactCause};
ghost use Rattle.venue_ports.specs.Files.{HasReadCause};
ghost use Rattle.venue_hall.specs.Records.{IsWithinLimit};
ghost use Rattle.change_journal.specs.Looks.{Gives, Looks, Spans, given};
ghost use Rattle.change_journal.specs.Forms.{AreKeptSlots, IsEndWithin, IsFileLength, IsFileWithin, IsFormWithin, IsKeptSlot, IsSlotEnd, IsSlotForm, IsSlotsEnd};

use crate::pieces::{byte_at, long_at};
use crate::reader::Reader;
use std::alloc::Global;
use venue_ports::{Disk, Failed, ReadFault};
use venue_types::{Bytes, Slot};

/// How a slot begins.
#[derive(Clone, Copy)]
pub(crate) enum SlotForm {
    /// No file.
    Absent,
    /// A file of so many bytes, which are there.
    Held(u64),
    /// Not as a slot does.
    Neither,
}

/// A slot, and where the next one begins.
#[derive(Drop)]
pub(crate) struct KeptSlot {
    pub(crate) slot: Slot,
    pub(crate) next: u64,
}

// The length of a file that is here.
fn file_length<K: Disk>(reader: &mut Reader<K>, place: u64) -> Result<Option<u64>, Failed>
    requires within { place ≤ reader.old.length }
    ensures length { IfOk result (λ count. Gives (K.moments reader.old.disk) (IsFileLength place count)) }
    ensures within { IfOk result (IsFileWithin place reader.old.length) }
    ensures looks { Looks (K.moments reader.old.disk) (K.moments reader.new.disk) }
    ensures told { OnOk result (given (K.moments reader.new.disk) ≡ given (K.moments reader.old.disk)) }
    ensures same { reader.new.length ≡ reader.old.length }
    ensures cause { HasExactCause (K.faults reader.old.disk) (K.faults reader.new.disk) result }
{
    let left = reader.end() - place;
    if left < 8 {
        return Ok(None);
    }
    let count = long_at(reader, place)?;
    if count <= 33_554_432 && count <= left - 8 {
        Ok(Some(count))
    } else {
        Ok(None)
    }
}

// How a slot begins.
fn form_at<K: Disk>(reader: &mut Reader<K>, place: u64) -> Result<SlotForm, Failed>
    requires within { place ≤ reader.old.length }
    ensures most { reader.old.length < 2 ^ 64 }
    ensures whole { Gives (K.moments reader.old.disk) (λ bytes. reader.old.length ≡ length bytes) }
    ensures form { IfOk result (λ form. Gives (K.moments reader.old.disk) (IsSlotForm place form)) }
    ensures within { IfOk result (IsFormWithin place reader.old.length) }
    ensures looks { Looks (K.moments reader.old.disk) (K.moments reader.new.disk) }
    ensures told { OnOk result (given (K.moments reader.new.disk) ≡ given (K.moments reader.old.disk)) }
    ensures same { reader.new.length ≡ reader.old.length }
    ensures cause { HasExactCause (K.faults reader.old.disk) (K.faults reader.new.disk) result }
{
    if reader.end() <= place {
        return Ok(SlotForm::Neither);
    }
    match byte_at(reader, place)? {
        0 => Ok(SlotForm::Absent),
        1 => match file_length(reader, place + 1)? {
            Some(count) => Ok(SlotForm::Held(count)),
            None => Ok(SlotForm::Neither),
        },
        _ => Ok(SlotForm::Neither),
    }
}

// Where a slot ends.
fn slot_end<K: Disk>(reader: &mut Reader<K>, place: u64) -> Result<Option<u64>, Failed>
    requires within { place ≤ reader.old.length }
    ensures end { IfOk result (λ next. Gives (K.moments reader.old.disk) (IsSlotEnd place next)) }
    ensures within { IfOk result (λ next. IfSome next (IsEndWithin place 33554441 reader.old.length)) }
    ensures looks { Looks (K.moments reader.old.disk) (K.moments reader.new.disk) }
    ensures told { OnOk result (given (K.moments reader.new.disk) ≡ given (K.moments reader.old.disk)) }
    ensures same { reader.new.length ≡ reader.old.length }
    ensures cause { HasExactCause (K.faults reader.old.disk) (K.faults reader.new.disk) result }
{
    match form_at(reader, place)? {
        SlotForm::Absent => Ok(Some(place + 1)),
        SlotForm::Held(count) => Ok(Some(place + 9 + count)),
        SlotForm::Neither => Ok(None),
    }
}

/// Where so many slots end.
pub(crate) fn slots_end<K: Disk>(
    reader: &mut Reader<K>,
    place: u64,
    count: u64,
) -> Result<Option<u64>, Failed>
    requires within { place ≤ reader.old.length }
    ensures end { IfOk result (λ next. Gives (K.moments reader.old.disk) (IsSlotsEnd count place next)) }
    ensures within { IfOk result (λ next. IfSome next (IsEndWithin place (count * 33554441) reader.old.length)) }
    ensures looks { Looks (K.moments reader.old.disk) (K.moments reader.new.disk) }
    ensures told { OnOk result (given (K.moments reader.new.disk) ≡ given (K.moments reader.old.disk)) }
    ensures same { reader.new.length ≡ reader.old.length }
    ensures cause { HasExactCause (K.faults reader.old.disk) (K.faults reader.new.disk) result }
{
    if count == 0 {
        return Ok(Some(place));
    }
    match slot_end(reader, place)? {
        Some(next) => slots_end(reader, next, count - 1),
        None => Ok(None),
    }
}

// The bytes of a file.
fn file_at<K: Disk>(
    alloc: Global,
    reader: &mut Reader<K>,
    place: u64,
    count: u64,
) -> Result<Vec<u8>, ReadFault>
    requires within { place + count ≤ reader.old.length }
    requires fits { count ≤ 33554432 }
    ensures size { IfOk result (λ file. length file.items ≡ count) }
    ensures bytes { IfOk result (λ file. Gives (K.moments reader.old.disk) (Spans place (place + count) file.items)) }
    ensures looks { Looks (K.moments reader.old.disk) (K.moments reader.new.disk) }
    ensures told { OnOk result (given (K.moments reader.new.disk) ≡ given (K.moments reader.old.disk)) }
    ensures same { reader.new.length ≡ reader.old.length }
    ensures cause { HasReadCause (K.faults reader.old.disk) (K.faults reader.new.disk) result }
{
    let mut file = vec![in alloc; 0_u8; count as usize]?;
    match reader.fill(place, &mut file) {
        Ok(()) => Ok(file),
        Err(_) => Err(ReadFault::Failed),
    }
}

// A slot.
fn slot_at<K: Disk>(
    alloc: Global,
    reader: &mut Reader<K>,
    place: u64,
) -> Result<Option<KeptSlot>, ReadFault>
    requires within { place ≤ reader.old.length }
    ensures slot { IfOk result (λ kept. Gives (K.moments reader.old.disk) (IsKeptSlot place kept)) }
    ensures limit { IfOk result (λ kept. IfSome kept (λ k. IsWithinLimit k.slot)) }
    ensures within { IfOk result (λ kept. IfSome kept (λ k. IsEndWithin place 33554441 reader.old.length k.next)) }
    ensures looks { Looks (K.moments reader.old.disk) (K.moments reader.new.disk) }
    ensures told { OnOk result (given (K.moments reader.new.disk) ≡ given (K.moments reader.old.disk)) }
    ensures same { reader.new.length ≡ reader.old.length }
    ensures cause { HasReadCause (K.faults reader.old.disk) (K.faults reader.new.disk) result }
{
    match form_at(reader, place) {
        Ok(SlotForm::Absent) => Ok(Some(KeptSlot {
            slot: Slot::Absent,
            next: place + 1,
        })),
        Ok(SlotForm::Held(count)) => {
            let file = file_at(alloc, reader, place + 9, count)?;
            Ok(Some(KeptSlot {
                slot: Slot::Held(Bytes::from_vec(file)),
                next: place + 9 + count,
            }))
        }
        Ok(SlotForm::Neither) => Ok(None),
        Err(_) => Err(ReadFault::Failed),
    }
}

/// So many slots, behind earlier ones, and where they end.
pub(crate) fn slots_at<K: Disk>(
    alloc: Global,
    reader: &mut Reader<K>,
    place: u64,
    count: u64,
    slots: &mut Vec<Slot>,
) -> Result<Option<u64>, ReadFault>
    requires within { place ≤ reader.old.length }
    ensures slots { IfOk result (AreKeptSlots count place slots.old.items slots.new.items (K.moments reader.old.disk)) }
    ensures within { IfOk result (λ next. IfSome next (IsEndWithin place (count * 33554441) reader.old.length)) }
    ensures looks { Looks (K.moments reader.old.disk) (K.moments reader.new.disk) }
    ensures told { OnOk result (given (K.moments reader.new.disk) ≡ given (K.moments reader.old.disk)) }
    ensures same { reader.new.length ≡ reader.old.length }
    ensures cause { HasReadCause (K.faults reader.old.disk) (K.faults reader.new.disk) result }
{
    if count == 0 {
        return Ok(Some(place));
    }
    match slot_at(alloc, reader, place)? {
        Some(kept) => {
            slots.push(kept.slot)?;
            slots_at(alloc, reader, kept.next, count - 1, slots)
        }
        None => Ok(None),
    }
}
