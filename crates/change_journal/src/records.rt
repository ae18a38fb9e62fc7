//! A publication: its slots, behind its gate, its kind and its worker.

ghost use Rattle.std.specs.Prelude.{◌≡◌, ◌<◌, ◌≤◌, ◌+◌, ◌∷◌, [], IfOk, OnOk};
ghost use Rattle.venue_ports.specs.Causes.{HasExactCause};
ghost use Rattle.venue_ports.specs.Files.{HasReadCause};
ghost use Rattle.change_journal.specs.Looks.{Gives, Looks, Spans, given};
ghost use Rattle.change_journal.specs.Readers.{IsFoundAt, IsRecordWithin, IsSkippedAt, IsSkippedWithin};

use crate::found::{Found, FoundAct, FoundRecord, Skipped};
use crate::reader::Reader;
use crate::slots::{slots_at, slots_end};
use std::alloc::Global;
use venue_ports::{Disk, Failed, ReadFault};
use venue_types::{Files, List};

/// A publication of this worker, without its files.
pub(crate) fn skipped_at<K: Disk>(
    reader: &mut Reader<K>,
    gate: u64,
    worker: u8,
) -> Result<Skipped, Failed>
    requires within { gate + 3 ≤ reader.old.length }
    requires worker { worker ≤ 16 }
    requires head { Gives (K.moments reader.old.disk) (Spans gate (gate + 3) (1 ∷ (1 ∷ (worker ∷ [])))) }
    ensures skipped { IfOk result (λ skipped. Gives (K.moments reader.old.disk) (IsSkippedAt gate skipped)) }
    ensures within { IfOk result (IsSkippedWithin gate reader.old.length) }
    ensures looks { Looks (K.moments reader.old.disk) (K.moments reader.new.disk) }
    ensures told { OnOk result (given (K.moments reader.new.disk) ≡ given (K.moments reader.old.disk)) }
    ensures same { reader.new.length ≡ reader.old.length }
    ensures cause { HasExactCause (K.faults reader.old.disk) (K.faults reader.new.disk) result }
{
    let end = reader.end();
    match slots_end(reader, gate + 3, 17)? {
        Some(next) => {
            if next < end {
                Ok(Skipped::Record(next))
            } else {
                Ok(Skipped::Broken)
            }
        }
        None => Ok(Skipped::Broken),
    }
}

/// A publication of this worker.
pub(crate) fn published_at<K: Disk>(
    alloc: Global,
    reader: &mut Reader<K>,
    gate: u64,
    worker: u8,
) -> Result<Found, ReadFault>
    requires within { gate + 3 ≤ reader.old.length }
    requires worker { worker ≤ 16 }
    requires head { Gives (K.moments reader.old.disk) (Spans gate (gate + 3) (1 ∷ (1 ∷ (worker ∷ [])))) }
    ensures found { IfOk result (λ found. Gives (K.moments reader.old.disk) (IsFoundAt gate found)) }
    ensures within { IfOk result (IsRecordWithin gate reader.old.length) }
    ensures looks { Looks (K.moments reader.old.disk) (K.moments reader.new.disk) }
    ensures told { OnOk result (given (K.moments reader.new.disk) ≡ given (K.moments reader.old.disk)) }
    ensures same { reader.new.length ≡ reader.old.length }
    ensures cause { HasReadCause (K.faults reader.old.disk) (K.faults reader.new.disk) result }
{
    let end = reader.end();
    let mut slots = Vec::new(alloc);
    match slots_at(alloc, reader, gate + 3, 17, &mut slots)? {
        Some(next) => {
            if next < end {
                let slots = List::from_vec(slots);
                Ok(Found::Record(FoundRecord {
                    worker,
                    act: FoundAct::Published(Files { slots }),
                    next,
                }))
            } else {
                Ok(Found::Broken)
            }
        }
        None => Ok(Found::Broken),
    }
}
