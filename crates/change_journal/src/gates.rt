//! The gate of a journal: closed in front of an append, opened behind it.

ghost use Rattle.std.specs.Prelude.{◌≡◌, ◌≤◌, ◌+◌, ◌^◌, ◌++◌, ◌∷◌, [], List, length, OnOk, OnErr, true, false};
ghost use Rattle.venue_ports.specs.Causes.{HasExactCause};
ghost use Rattle.venue_ports.specs.Moments.{Now};
ghost use Rattle.venue_hall.specs.Records.{Logged};
ghost use Rattle.change_journal.specs.Runs.{Run};
ghost use Rattle.change_journal.specs.States.{IsReady, IsStaged, IsAsBefore, IsEither};
ghost use Rattle.change_journal.specs.Texts.{record_body, IsRecord};

use venue_ports::{Disk, Failed};

// Makes sure that the gate is closed in whatever a stop may leave.
fn shut_gate<K: Disk>(disk: &mut K, gate: u64) -> Result<(), Failed>
    requires within { Now (λ m. gate ≤ length m.reads) (K.moments disk.old) }
    requires room { gate ≤ 2 ^ 62 }
    ensures ok { OnOk result ((records : List Logged) → Now (IsReady records gate false) (K.moments disk.old)
        → Run (IsAsBefore records (K.moments disk.old)) (IsReady records gate true) (K.moments disk.old) (K.moments disk.new)) }
    ensures err { OnErr result ((records : List Logged) → Now (IsReady records gate false) (K.moments disk.old)
        → Run (IsAsBefore records (K.moments disk.old)) (IsReady records gate false) (K.moments disk.old) (K.moments disk.new)) }
    ensures told { OnOk result (K.moments disk.new ≡ [] → K.moments disk.old ≡ []) }
    ensures cause { HasExactCause (K.faults disk.old) (K.faults disk.new) result }
{
    disk.write(gate, &[0])?;
    disk.sync() // keeps the closed gate
}

/// The same, where it isn't known to be closed.
pub(crate) fn close_gate<K: Disk>(disk: &mut K, gate: u64, is_shut: bool) -> Result<(), Failed>
    requires within { Now (λ m. gate ≤ length m.reads) (K.moments disk.old) }
    requires room { gate ≤ 2 ^ 62 }
    ensures ok { OnOk result ((records : List Logged) → Now (IsReady records gate is_shut) (K.moments disk.old)
        → Run (IsAsBefore records (K.moments disk.old)) (IsReady records gate true) (K.moments disk.old) (K.moments disk.new)) }
    ensures err { OnErr result ((records : List Logged) → Now (IsReady records gate is_shut) (K.moments disk.old)
        → Run (IsAsBefore records (K.moments disk.old)) (IsReady records gate is_shut) (K.moments disk.old) (K.moments disk.new)) }
    ensures told { OnOk result (K.moments disk.new ≡ [] → K.moments disk.old ≡ []) }
    ensures cause { HasExactCause (K.faults disk.old) (K.faults disk.new) result }
{
    if is_shut {
        Ok(())
    } else {
        shut_gate(disk, gate)
    }
}

/// Opens the gate of a record that stands behind it.
pub(crate) fn open_gate<K: Disk>(disk: &mut K, gate: u64) -> Result<(), Failed>
    requires within { Now (λ m. gate ≤ length m.reads) (K.moments disk.old) }
    requires room { gate ≤ 2 ^ 62 }
    ensures ok { OnOk result ((records : List Logged) (entry : Logged) → IsRecord entry → Now (IsStaged records gate entry) (K.moments disk.old)
        → Run (IsEither records entry) (IsReady (records ++ entry ∷ []) (gate + 1 + length (record_body entry)) true) (K.moments disk.old) (K.moments disk.new)) }
    ensures err { OnErr result ((records : List Logged) (entry : Logged) → IsRecord entry → Now (IsStaged records gate entry) (K.moments disk.old)
        → Run (IsEither records entry) (IsReady records gate false) (K.moments disk.old) (K.moments disk.new)) }
    ensures told { OnOk result (K.moments disk.new ≡ [] → K.moments disk.old ≡ []) }
    ensures cause { HasExactCause (K.faults disk.old) (K.faults disk.new) result }
{
    disk.write(gate, &[1])?;
    disk.sync() // keeps the open gate
}
