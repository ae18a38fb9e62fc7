//! The append.

ghost use Rattle.std.specs.Prelude.{◌≡◌, ◌+◌, ◌*◌, ◌^◌, ◌<◌, ◌≤◌, [], ◌∷◌, ◌++◌, OnOk, OnErr};
ghost use Rattle.std.specs.Option.{option_map};
ghost use Rattle.venue_ports.specs.Causes.{HasExactCause};
ghost use Rattle.venue_ports.specs.Moments.{Now};
ghost use Rattle.venue_hall.specs.Logging.{logged};
ghost use Rattle.venue_hall.specs.Records.{IsLoggable, AreCounted, AreKept};
ghost use Rattle.change_journal.specs.Appends.{IsAppend, ended};
ghost use Rattle.change_journal.specs.States.{IsReady};
ghost use Rattle.change_journal.specs.Texts.{HasRanges};
ghost use Rattle.change_journal.specs.Told.{recorded, told_records, HoldsRecords};

use crate::bodies::put_body;
use crate::gates::{close_gate, open_gate};
use std::marker::Model;
use venue_hall::{Log, Record};
use venue_ports::{Disk, Failed};

// What was read has the ranges of its types, which a value behind a reference doesn't tell before.
fn see_ranges(entry: &Record<'_>)
    ensures { HasRanges (logged entry.now).act }
{
    match entry {
        Record::Published { .. } => {}
        Record::Closed {
            feature,
            profiles,
            ..
        } => {
            let _number: u128 = feature.0;
            let _set: u16 = *profiles;
        }
        Record::Reopened {
            feature,
            profiles,
            ..
        } => {
            let _number: u128 = feature.0;
            let _set: u16 = *profiles;
        }
    }
}

/// A journal on a disk: the records in front of its gate. Where the gate isn't known to be shut, the journal is new, or an append
/// failed after it had begun to open the gate.
#[derive(Drop)]
pub struct Journal<K: Disk> {
    disk: K,
    gate: u64,
    count: u64,
    is_shut: bool,
}

impl<K: Disk> Model for Journal<K> {
    ghost use Rattle.change_journal.specs.Journals.{Held, IsKept};

    ghost Value = { Held K };

    ghost view = { λ j. record { disk = j.disk; count = j.count } };

    ghost invariant = { λ j. IsKept (K.moments j.disk) j.gate j.count j.is_shut };
}

impl<K: Disk> Journal<K> {
    /// A journal of so many records whose gate stands at a place, where the gate is known to be shut or isn't.
    pub fn over(disk: K, gate: u64, count: u64, is_shut: bool) -> Journal<K>
        requires ready { Now (IsReady (recorded count (K.moments disk)) gate is_shut) (K.moments disk) }
        requires room { gate ≤ count * 2 ^ 30 }
        requires many { count ≤ 2 ^ 32 }
        ensures disk { result.disk ≡ disk }
        ensures count { result.count ≡ count }
    {
        Journal {
            disk,
            gate,
            count,
            is_shut,
        }
    }

    /// How many records it has.
    pub fn record_count(&self) -> u64
        ensures { result ≡ self.now.count }
    {
        self.count
    }

    /// The disk, which holds the records, and at most one more behind them.
    pub fn into_disk(self) -> K
        ensures disk { result ≡ self.disk }
        ensures held { HoldsRecords self.count (K.moments result) }
    {
        self.disk
    }
}

impl<K: Disk> Log for Journal<K> {
    ghost length = { λ j. j.count };

    ghost records = { λ j. told_records j.count (K.moments j.disk) };

    ghost faults = { λ j. K.faults j.disk };

    fn fault_count(&self) -> u64 {
        self.disk.fault_count()
    }

    fn append(&mut self, entry: &Record<'_>) -> Result<(), Failed>
        requires room { self.old.count < 2 ^ 32 }
        requires loggable { IsLoggable (logged entry.now) }
        ensures one_more { OnOk result (self.new.count ≡ self.old.count + 1) }
        ensures appended { OnOk result (told_records self.new.count (K.moments self.new.disk)
            ≡ option_map (λ front. front ++ logged entry.now ∷ []) (told_records self.old.count (K.moments self.old.disk))) }
        ensures as_many { OnErr result (self.new.count ≡ self.old.count) }
        ensures kept { OnErr result (AreKept (told_records self.old.count (K.moments self.old.disk))
            (told_records self.new.count (K.moments self.new.disk))) }
        ensures counted { AreCounted (told_records self.new.count (K.moments self.new.disk)) self.new.count }
        ensures cause { HasExactCause (K.faults self.old.disk) (K.faults self.new.disk) result }

        ensures append { IsAppend (recorded self.old.count (K.moments self.old.disk)) (K.moments self.old.disk)
            (ended (logged entry.now) result (K.moments self.new.disk)) }
    {
        see_ranges(entry);
        close_gate(&mut self.disk, self.gate, self.is_shut)?;
        self.is_shut = true;
        let next = put_body(&mut self.disk, self.gate, entry)?;
        self.is_shut = false;
        open_gate(&mut self.disk, self.gate)?;
        self.is_shut = true;
        self.gate = next;
        self.count += 1;
        Ok(())
    }
}
