//! What stands behind a gate, in front of a publication's slots.

ghost use Rattle.std.specs.Prelude.{◌≡◌, ℕ, List, ◌<◌, ◌≤◌, ◌+◌, ◌^◌, ◌∷◌, ◌++◌, [], length, IfOk, OnOk, Some, None, Option};
ghost use Rattle.venue_ports.specs.Causes.{HasExactCause};
ghost use Rattle.venue_ports.specs.Moments.{Now};
ghost use Rattle.change_journal.specs.Looks.{Gives, Looks, Spans, given};
ghost use Rattle.change_journal.specs.Forms.{IsHeadAt, IsHeadOf, IsHeadWithin, IsLead, IsLeadWithin, IsMarkAt, IsMarkWithin, act_of, kind_of};
ghost use Rattle.change_journal.specs.Readers.{IsFoundAt, IsRecordWithin, IsSettled, IsSkippedAt, IsSkippedWithin, kept_act};

use crate::found::{Found, FoundAct, FoundRecord, Skipped};
use crate::pieces::{byte_at, short_at, wide_at};
use crate::reader::Reader;
use venue_ports::{Disk, Failed};
use venue_types::{FeatureId, ProfileSet};

/// What a record does, and its worker.
#[derive(Clone, Copy)]
pub(crate) enum Head {
    Published(u8),
    Closed(u8),
    Reopened(u8),
}

/// A feature, and profiles.
#[derive(Clone, Copy)]
pub(crate) struct Mark {
    pub(crate) feature: FeatureId,
    pub(crate) profiles: ProfileSet,
}

/// What is known of a gate in front of any slots.
#[derive(Drop)]
pub(crate) enum Lead {
    /// All that stands there.
    Found(Found),
    /// A publication of this worker begins.
    Published(u8),
}

// The head that a kind and a worker are.
fn head_of(kind: u8, worker: u8) -> Option<Head>
    ensures { IsHeadOf kind worker result }
{
    if 16 < worker {
        return None;
    }
    match kind {
        1 => Some(Head::Published(worker)),
        2 => Some(Head::Closed(worker)),
        3 => Some(Head::Reopened(worker)),
        _ => None,
    }
}

// The head of a record.
fn head_at<K: Disk>(reader: &mut Reader<K>, place: u64) -> Result<Option<Head>, Failed>
    requires within { place ≤ reader.old.length }
    ensures most { reader.old.length < 2 ^ 64 }
    ensures head { IfOk result (λ head. Gives (K.moments reader.old.disk) (IsHeadAt place head)) }
    ensures within { IfOk result (IsHeadWithin place reader.old.length) }
    ensures looks { Looks (K.moments reader.old.disk) (K.moments reader.new.disk) }
    ensures told { OnOk result (given (K.moments reader.new.disk) ≡ given (K.moments reader.old.disk)) }
    ensures same { reader.new.length ≡ reader.old.length }
    ensures cause { HasExactCause (K.faults reader.old.disk) (K.faults reader.new.disk) result }
{
    if reader.end() - place < 2 {
        return Ok(None);
    }
    let kind = byte_at(reader, place)?;
    let worker = byte_at(reader, place + 1)?;
    Ok(head_of(kind, worker))
}

// A feature and profiles, behind which there is a byte.
fn mark_at<K: Disk>(reader: &mut Reader<K>, place: u64) -> Result<Option<Mark>, Failed>
    requires within { place ≤ reader.old.length }
    ensures most { reader.old.length < 2 ^ 64 }
    ensures whole { Gives (K.moments reader.old.disk) (λ bytes. reader.old.length ≡ length bytes) }
    ensures mark { IfOk result (λ mark. Gives (K.moments reader.old.disk) (IsMarkAt place mark)) }
    ensures within { IfOk result (IsMarkWithin place reader.old.length) }
    ensures looks { Looks (K.moments reader.old.disk) (K.moments reader.new.disk) }
    ensures told { OnOk result (given (K.moments reader.new.disk) ≡ given (K.moments reader.old.disk)) }
    ensures same { reader.new.length ≡ reader.old.length }
    ensures cause { HasExactCause (K.faults reader.old.disk) (K.faults reader.new.disk) result }
{
    if reader.end() - place < 19 {
        return Ok(None);
    }
    let feature = FeatureId(wide_at(reader, place)?);
    let profiles = ProfileSet(short_at(reader, place + 16)?);
    Ok(Some(Mark { feature, profiles }))
}

// What was done to a feature.
fn marked_act(is_open: bool, mark: Mark) -> FoundAct
    ensures { kept_act result ≡ act_of is_open mark }
{
    let Mark { feature, profiles } = mark;
    if is_open {
        FoundAct::Reopened { feature, profiles }
    } else {
        FoundAct::Closed { feature, profiles }
    }
}

// A closure or a reopening, whose gate and head are known.
fn marked_at<K: Disk>(
    reader: &mut Reader<K>,
    gate: u64,
    worker: u8,
    is_open: bool,
) -> Result<Found, Failed>
    requires within { gate + 3 ≤ reader.old.length }
    requires fits { gate + 3 < 2 ^ 64 }
    requires worker { worker ≤ 16 }
    requires head { Gives (K.moments reader.old.disk) (Spans gate (gate + 3) (1 ∷ (kind_of is_open ∷ (worker ∷ [])))) }
    ensures found { IfOk result (λ found. Gives (K.moments reader.old.disk) (IsFoundAt gate found)) }
    ensures within { IfOk result (IsRecordWithin gate reader.old.length) }
    ensures looks { Looks (K.moments reader.old.disk) (K.moments reader.new.disk) }
    ensures told { OnOk result (given (K.moments reader.new.disk) ≡ given (K.moments reader.old.disk)) }
    ensures same { reader.new.length ≡ reader.old.length }
    ensures cause { HasExactCause (K.faults reader.old.disk) (K.faults reader.new.disk) result }
{
    match mark_at(reader, gate + 3)? {
        Some(mark) => Ok(Found::Record(FoundRecord {
            worker,
            act: marked_act(is_open, mark),
            next: gate + 21,
        })),
        None => Ok(Found::Broken),
    }
}

// What stands at an open gate.
fn opened_at<K: Disk>(reader: &mut Reader<K>, gate: u64) -> Result<Lead, Failed>
    requires within { gate < reader.old.length }
    requires fits { gate + 1 < 2 ^ 64 }
    requires opened { Gives (K.moments reader.old.disk) (Spans gate (gate + 1) (1 ∷ [])) }
    ensures lead { IfOk result (λ lead. Gives (K.moments reader.old.disk) (IsLead gate lead)) }
    ensures within { IfOk result (IsLeadWithin gate reader.old.length) }
    ensures looks { Looks (K.moments reader.old.disk) (K.moments reader.new.disk) }
    ensures told { OnOk result (given (K.moments reader.new.disk) ≡ given (K.moments reader.old.disk)) }
    ensures same { reader.new.length ≡ reader.old.length }
    ensures cause { HasExactCause (K.faults reader.old.disk) (K.faults reader.new.disk) result }
{
    match head_at(reader, gate + 1)? {
        Some(Head::Published(worker)) => Ok(Lead::Published(worker)),
        Some(Head::Closed(worker)) => Ok(Lead::Found(marked_at(reader, gate, worker, false)?)),
        Some(Head::Reopened(worker)) => Ok(Lead::Found(marked_at(reader, gate, worker, true)?)),
        None => Ok(Lead::Found(Found::Broken)),
    }
}

/// What stands at a gate, as far as it is known in front of any slots.
pub(crate) fn lead_at<K: Disk>(reader: &mut Reader<K>, gate: u64) -> Result<Lead, Failed>
    requires within { gate < reader.old.length }
    ensures lead { IfOk result (λ lead. Gives (K.moments reader.old.disk) (IsLead gate lead)) }
    ensures within { IfOk result (IsLeadWithin gate reader.old.length) }
    ensures kept { Now IsSettled (K.moments reader.old.disk) }
    ensures looks { Looks (K.moments reader.old.disk) (K.moments reader.new.disk) }
    ensures told { OnOk result (given (K.moments reader.new.disk) ≡ given (K.moments reader.old.disk)) }
    ensures same { reader.new.length ≡ reader.old.length }
    ensures cause { HasExactCause (K.faults reader.old.disk) (K.faults reader.new.disk) result }
{
    if byte_at(reader, gate)? == 1 {
        opened_at(reader, gate)
    } else {
        Ok(Lead::Found(Found::Closed))
    }
}

/// The same, without a record's content.
pub(crate) fn skipped_of(found: &Found) -> Skipped
    ensures same { (place : ℕ) (bytes : List ℕ) → IsFoundAt place found.now bytes → IsSkippedAt place result bytes }
    ensures within { (place end : ℕ) → IsRecordWithin place end found.now → IsSkippedWithin place end result }
{
    match found {
        Found::Closed => Skipped::Closed,
        Found::Broken => Skipped::Broken,
        Found::Record(it) => Skipped::Record(it.next),
    }
}
