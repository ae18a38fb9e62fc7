//! The rest of a journal, behind a record that may not follow.

ghost use Rattle.std.specs.Prelude.{◌≡◌, ◌<◌, List, ◌∷◌, [], ◌++◌, IfErr, IfOk, OnErr, OnOk};
ghost use Rattle.venue_hall.specs.Records.{Logged};
ghost use Rattle.venue_ports.specs.Moments.{Now};
ghost use Rattle.change_journal.specs.Readers.{HasOnlyRead, IsNextOf, IsSettled};
ghost use Rattle.journal_restore.specs.Restores.{CountsRestore};
ghost use Rattle.journal_restore.specs.Going.{HasTold, IsBegun, IsLonger, IsRestFault};

use crate::restored::RestoreFault;
use change_journal::{Reader, Skipped, damage_law};
use venue_ports::Disk;

// Over the record at a place, of which the content isn't asked for: where the next gate stands, or the fault at the end.
fn skipped<K: Disk>(reader: &mut Reader<K>, place: u64, number: u64) -> Result<u64, RestoreFault>
    requires within { place < reader.old.length }
    ensures longer { IfOk result (λ next. (begun : List Logged) → Now (λ m. IsBegun place begun m.reads) (K.moments reader.old.disk)
        → Now (λ m. IsLonger next begun m.reads) (K.moments reader.old.disk)) }
    ensures next { IfOk result (λ next. IsNextOf place reader.old.length next) }
    ensures cause { IfErr result (λ fault. (begun : List Logged) → Now (λ m. IsBegun place begun m.reads) (K.moments reader.old.disk)
        → Now (λ m. IsRestFault begun number fault m.reads) (K.moments reader.old.disk)) }
    ensures told { OnOk result (HasTold (K.moments reader.old.disk) (K.moments reader.new.disk)) }
    ensures only { HasOnlyRead (K.moments reader.old.disk) (K.moments reader.new.disk) }
    ensures same { reader.new.length ≡ reader.old.length }
    ensures kept { OnOk result (K.faults reader.new.disk ≡ K.faults reader.old.disk) }
    ensures counts { IfErr result (λ fault. CountsRestore (K.faults reader.old.disk) (K.faults reader.new.disk) fault) }
{
    damage_law();
    match reader.skip_at(place) {
        Ok(Skipped::Closed) => Err(RestoreFault::Unfit(number)),
        Ok(Skipped::Broken) => Err(RestoreFault::Damaged(place)),
        Ok(Skipped::Record(next)) => Ok(next),
        Err(_failed) => Err(RestoreFault::Failed),
    }
}

/// Goes over the rest, from the place behind the record of this number, which may not follow: the rest is damaged, or else the record is the fault.
pub(crate) fn fault_behind<K: Disk>(reader: &mut Reader<K>, place: u64, number: u64) -> RestoreFault
    requires within { place < reader.old.length }
    requires settled { Now IsSettled (K.moments reader.old.disk) }
    ensures cause { (begun : List Logged) → Now (λ m. IsBegun place begun m.reads) (K.moments reader.old.disk)
        → Now (λ m. IsRestFault begun number result m.reads) (K.moments reader.old.disk) }
    ensures only { HasOnlyRead (K.moments reader.old.disk) (K.moments reader.new.disk) }
    ensures counts { CountsRestore (K.faults reader.old.disk) (K.faults reader.new.disk) result }
{
    let mut gate = place;
    'records: loop {
        match skipped(reader, gate, number) {
            Ok(next) => gate = next,
            Err(fault) => return fault,
        }
    }
}
