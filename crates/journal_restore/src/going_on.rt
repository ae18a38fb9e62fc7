//! From a place of a journal, with a history that leads there, to the closed gate.

ghost use Rattle.std.specs.Prelude.{◌≡◌, ◌+◌, IfErr, IfOk, OnErr, OnOk};
ghost use Rattle.std.specs.Arc.{arc_value};
ghost use Rattle.venue_hall.specs.Records.{IsLoggable};
ghost use Rattle.venue_ports.specs.Moments.{Now};
ghost use Rattle.change_journal.specs.Places.{IsRecordAt};
ghost use Rattle.change_journal.specs.Readers.{HasOnlyRead, IsNextOf, IsSettled, kept_of};
ghost use Rattle.journal_restore.specs.Restores.{CountsRestore, IsCause};
ghost use Rattle.journal_restore.specs.Going.{HasTold, IsAt, IsReadTo, IsReadWhole};

use crate::finding::next_record;
use crate::judging::judged;
use crate::rest::fault_behind;
use crate::restored::RestoreFault;
use board_copies::Resuming;
use change_journal::{FoundRecord, Reader, damage_law};
use std::alloc::Global;
use std::sync::Arc;
use venue_ports::Disk;
use venue_types::Settings;

/// Between two records: where the next gate stands, how many records stand in front of it, and the history to which they lead, or none.
#[derive(Drop)]
pub(crate) struct SoFar {
    pub(crate) place: u64,
    pub(crate) count: u64,
    pub(crate) history: Option<Resuming>,
}

// Behind a record that was found, or the fault.
fn behind<K: Disk>(
    alloc: Global,
    reader: &mut Reader<K>,
    settings: &Arc<Settings>,
    so_far: SoFar,
    found: FoundRecord,
) -> Result<SoFar, RestoreFault>
    requires at { IsAt (arc_value settings.now) reader.old.length so_far }
    requires next { IsNextOf so_far.place reader.old.length found.next }
    requires loggable { IsLoggable (kept_of found) }
    requires settled { Now IsSettled (K.moments reader.old.disk) }
    requires read { Now (λ m. IsReadTo (arc_value settings.now) so_far m.reads) (K.moments reader.old.disk) }
    requires stands { Now (λ m. IsRecordAt so_far.place found.next (kept_of found) m.reads) (K.moments reader.old.disk) }
    ensures at { IfOk result (IsAt (arc_value settings.now) reader.old.length) }
    ensures place { IfOk result (λ longer. longer.place ≡ found.next) }
    ensures read { IfOk result (λ longer. Now (λ m. IsReadTo (arc_value settings.now) longer m.reads) (K.moments reader.old.disk)) }
    ensures same { OnOk result (reader.new ≡ reader.old) }
    ensures cause { IfErr result (λ fault. Now (λ m. IsCause (arc_value settings.now) fault m.reads) (K.moments reader.old.disk)) }
    ensures only { OnErr result (HasOnlyRead (K.moments reader.old.disk) (K.moments reader.new.disk)) }
    ensures counts { IfErr result (λ fault. CountsRestore (K.faults reader.old.disk) (K.faults reader.new.disk) fault) }
{
    damage_law();
    let SoFar { count, history, .. } = so_far;
    let FoundRecord { worker, act, next } = found;
    match judged(alloc, settings, history, worker, act) {
        Err(_) => Err(RestoreFault::OutOfMemory),
        Ok(None) => Err(fault_behind(reader, next, count + 1)),
        Ok(Some(resuming)) => Ok(SoFar {
            place: next,
            count: count + 1,
            history: Some(resuming),
        }),
    }
}

/// Reads record after record, each judged and made, from a place on to the closed gate. Where one may not follow, the rest is gone over by its form alone.
pub(crate) fn go_on<K: Disk>(
    alloc: Global,
    reader: &mut Reader<K>,
    settings: &Arc<Settings>,
    begin: SoFar,
) -> Result<SoFar, RestoreFault>
    requires at { IsAt (arc_value settings.now) reader.old.length begin }
    requires settled { Now IsSettled (K.moments reader.old.disk) }
    requires read { Now (λ m. IsReadTo (arc_value settings.now) begin m.reads) (K.moments reader.old.disk) }
    ensures at { IfOk result (IsAt (arc_value settings.now) reader.old.length) }
    ensures whole { IfOk result (λ end. Now (λ m. IsReadWhole (arc_value settings.now) end m.reads) (K.moments reader.new.disk)) }
    ensures told { OnOk result (HasTold (K.moments reader.old.disk) (K.moments reader.new.disk)) }
    ensures kept { OnOk result (K.faults reader.new.disk ≡ K.faults reader.old.disk) }
    ensures cause { IfErr result (λ fault. Now (λ m. IsCause (arc_value settings.now) fault m.reads) (K.moments reader.old.disk)) }
    ensures only { OnErr result (HasOnlyRead (K.moments reader.old.disk) (K.moments reader.new.disk)) }
    ensures counts { IfErr result (λ fault. CountsRestore (K.faults reader.old.disk) (K.faults reader.new.disk) fault) }
{
    let mut so_far = begin;
    while let Some(found) = next_record(alloc, reader, so_far.place)? {
        so_far = behind(alloc, reader, settings, so_far, found)?;
    }
    Ok(so_far)
}
