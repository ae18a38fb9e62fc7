//! Where a journal goes on that was read to its end.

ghost use Rattle.std.specs.Prelude.{◌≡◌, ◌≤◌, IfErr, IfOk, OnErr, OnOk, length};
ghost use Rattle.std.specs.Arc.{arc_value};
ghost use Rattle.venue_ports.specs.Moments.{Now};
ghost use Rattle.change_journal.specs.Readers.{HasOnlyRead, IsSettled};
ghost use Rattle.journal_restore.specs.Restores.{CountsRestore, IsCause};
ghost use Rattle.journal_restore.specs.Ending.{IsEnd, IsFinished};
ghost use Rattle.journal_restore.specs.Going.{HasTold};

use crate::going_on::{SoFar, go_on};
use crate::restored::RestoreFault;
use board_copies::{Resumed, Resuming};
use change_journal::{Reader, damage_law};
use std::alloc::Global;
use std::sync::Arc;
use venue_hall::version_law;
use venue_ports::Disk;
use venue_types::{OutOfMemory, Settings};

/// Where the gate stands, whether it is known to be shut, and the history to which the records in front of it lead, or none.
#[derive(Drop)]
pub(crate) struct End {
    pub(crate) gate: u64,
    pub(crate) is_shut: bool,
    pub(crate) resumed: Option<Resumed>,
}

// The board of a history, or none.
fn finished(alloc: Global, history: Option<Resuming>) -> Result<Option<Resumed>, OutOfMemory>
    ensures { IfOk result (IsFinished history) }
{
    match history {
        None => Ok(None),
        Some(resuming) => {
            let resumed = resuming.finish(alloc)?;
            Ok(Some(resumed))
        }
    }
}

// The end of two bytes or more.
fn end_of_many<K: Disk>(
    alloc: Global,
    reader: &mut Reader<K>,
    settings: &Arc<Settings>,
) -> Result<End, RestoreFault>
    requires many { 2 ≤ reader.old.length }
    requires settled { Now IsSettled (K.moments reader.old.disk) }
    requires length { Now (λ m. reader.old.length ≡ length m.reads) (K.moments reader.old.disk) }
    ensures end { IfOk result (IsEnd (arc_value settings.now) (K.moments reader.new.disk)) }
    ensures told { OnOk result (HasTold (K.moments reader.old.disk) (K.moments reader.new.disk)) }
    ensures kept { OnOk result (K.faults reader.new.disk ≡ K.faults reader.old.disk) }
    ensures cause { IfErr result (λ fault. Now (λ m. IsCause (arc_value settings.now) fault m.reads) (K.moments reader.old.disk)) }
    ensures only { OnErr result (HasOnlyRead (K.moments reader.old.disk) (K.moments reader.new.disk)) }
    ensures counts { IfErr result (λ fault. CountsRestore (K.faults reader.old.disk) (K.faults reader.new.disk) fault) }
{
    damage_law();
    version_law();
    let begin = SoFar {
        place: 0,
        count: 0,
        history: None,
    };
    let SoFar { place, history, .. } = go_on(alloc, reader, settings, begin)?;
    match finished(alloc, history) {
        Err(_) => Err(RestoreFault::OutOfMemory),
        Ok(resumed) => Ok(End {
            gate: place,
            is_shut: true,
            resumed,
        }),
    }
}

/// Reads to the end, from the front on. At most one byte is a journal without records, also where that byte is 1.
pub(crate) fn end_of<K: Disk>(
    alloc: Global,
    reader: &mut Reader<K>,
    settings: &Arc<Settings>,
) -> Result<End, RestoreFault>
    requires settled { Now IsSettled (K.moments reader.old.disk) }
    requires length { Now (λ m. reader.old.length ≡ length m.reads) (K.moments reader.old.disk) }
    ensures end { IfOk result (IsEnd (arc_value settings.now) (K.moments reader.new.disk)) }
    ensures told { OnOk result (HasTold (K.moments reader.old.disk) (K.moments reader.new.disk)) }
    ensures kept { OnOk result (K.faults reader.new.disk ≡ K.faults reader.old.disk) }
    ensures cause { IfErr result (λ fault. Now (λ m. IsCause (arc_value settings.now) fault m.reads) (K.moments reader.old.disk)) }
    ensures only { OnErr result (HasOnlyRead (K.moments reader.old.disk) (K.moments reader.new.disk)) }
    ensures counts { IfErr result (λ fault. CountsRestore (K.faults reader.old.disk) (K.faults reader.new.disk) fault) }
{
    if reader.len() >= 2 {
        end_of_many(alloc, reader, settings)
    } else {
        Ok(End {
            gate: 0,
            is_shut: false,
            resumed: None,
        })
    }
}
