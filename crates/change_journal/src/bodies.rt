//! The body of a record, and the closed gate behind it.

ghost use Rattle.std.specs.Prelude.{◌≡◌, ◌≤◌, ◌<◌, ◌+◌, ◌*◌, ◌^◌, ◌++◌, ◌∷◌, [], ℕ, List, All, flat_map, length, IfOk, OnOk, OnErr, true};
ghost use Rattle.std.specs.Int.{bytes_high_first};
ghost use Rattle.arrayvec.specs.ArrayVec.{array_vec_len};
ghost use Rattle.venue_ports.specs.Causes.{HasExactCause};
ghost use Rattle.venue_ports.specs.Moments.{Now};
ghost use Rattle.venue_hall.specs.Records.{Logged, AreSlots, IsLoggable, IsWithinLimit};
ghost use Rattle.venue_hall.specs.Logging.{logged};
ghost use Rattle.change_journal.specs.Puts.{Puts, GivesUp, Stages, StagesText, KeepsClosed};
ghost use Rattle.change_journal.specs.Runs.{Run};
ghost use Rattle.change_journal.specs.States.{IsReady, IsStaged};
ghost use Rattle.change_journal.specs.Texts.{IsJournal, record_body, slot_text};

use arrayvec::ArrayVec;
use venue_hall::Record;
use venue_ports::{Disk, Failed};
use venue_types::{FeatureId, Slot};

// What stands between two files: at most the kind, the worker, seventeen slots without bytes and the gate behind them.
type Small = ArrayVec<u8, 156>;

// Lets bytes wait, for which there is room.
fn push_all(waiting: &mut Small, bytes: &[u8])
    requires { array_vec_len waiting.old + length bytes.now ≤ 156 }
    ensures { waiting.new.items ≡ waiting.old.items ++ bytes.now }
{
    let _done = waiting.try_extend_from_slice(bytes);
}

// Lets the head of a file of this length wait.
fn push_head(waiting: &mut Small, count: u64)
    requires { array_vec_len waiting.old + 9 ≤ 156 }
    ensures { waiting.new.items ≡ waiting.old.items ++ 1 ∷ bytes_high_first 8 count }
{
    waiting.push(1);
    push_all(waiting, &count.to_be_bytes());
}

// Writes what waits, and answers where the next byte goes.
fn flush<K: Disk>(disk: &mut K, place: u64, waiting: &mut Small) -> Result<u64, Failed>
    requires some { 0 < array_vec_len waiting.old }
    requires within { Now (λ m. place ≤ length m.reads) (K.moments disk.old) }
    requires room { place + array_vec_len waiting.old < 2 ^ 63 }
    ensures ok { IfOk result (λ next. Puts place waiting.old.items next [] [] (K.moments disk.old) (K.moments disk.new)) }
    ensures empty { OnOk result (waiting.new.items ≡ []) }
    ensures err { OnErr result (GivesUp place waiting.old.items (K.moments disk.old) (K.moments disk.new)) }
    ensures cause { HasExactCause (K.faults disk.old) (K.faults disk.new) result }
{
    disk.write(place, waiting.as_slice())?;
    let next = place + waiting.len() as u64;
    waiting.clear();
    Ok(next)
}

// Writes what waits and, behind it, a file's bytes as they lie.
fn put_bytes<K: Disk>(
    disk: &mut K,
    place: u64,
    waiting: &mut Small,
    bytes: &[u8],
) -> Result<u64, Failed>
    requires some { 0 < array_vec_len waiting.old }
    requires more { 0 < length bytes.now }
    requires within { Now (λ m. place ≤ length m.reads) (K.moments disk.old) }
    requires room { place + (array_vec_len waiting.old + length bytes.now) < 2 ^ 63 }
    ensures ok { IfOk result (λ next. Puts place waiting.old.items next waiting.new.items bytes.now (K.moments disk.old) (K.moments disk.new)) }
    ensures empty { OnOk result (waiting.new.items ≡ []) }
    ensures err { OnErr result (GivesUp place waiting.old.items (K.moments disk.old) (K.moments disk.new)) }
    ensures cause { HasExactCause (K.faults disk.old) (K.faults disk.new) result }
{
    let start = flush(disk, place, waiting)?;
    disk.write(start, bytes)?;
    Ok(start + bytes.len() as u64)
}

// Puts a file: its head waits, its bytes are written. A file of length 0 has its head alone, since pieces aren't empty.
fn put_file<K: Disk>(
    disk: &mut K,
    place: u64,
    waiting: &mut Small,
    bytes: &[u8],
) -> Result<u64, Failed>
    requires small { array_vec_len waiting.old + 9 ≤ 156 }
    requires within { Now (λ m. place ≤ length m.reads) (K.moments disk.old) }
    requires room { place + (array_vec_len waiting.old + (9 + length bytes.now)) < 2 ^ 63 }
    ensures ok { IfOk result (λ next. Puts place waiting.old.items next waiting.new.items (1 ∷ (bytes_high_first 8 (length bytes.now) ++ bytes.now))
        (K.moments disk.old) (K.moments disk.new)) }
    ensures small { OnOk result (array_vec_len waiting.new ≤ array_vec_len waiting.old + 9) }
    ensures err { OnErr result (GivesUp place waiting.old.items (K.moments disk.old) (K.moments disk.new)) }
    ensures cause { HasExactCause (K.faults disk.old) (K.faults disk.new) result }
{
    push_head(waiting, bytes.len() as u64);
    if bytes.is_empty() {
        Ok(place)
    } else {
        put_bytes(disk, place, waiting, bytes)
    }
}

// Puts a slot.
fn put_slot<K: Disk>(
    disk: &mut K,
    place: u64,
    waiting: &mut Small,
    slot: &Slot,
) -> Result<u64, Failed>
    requires small { array_vec_len waiting.old + 9 ≤ 156 }
    requires within { Now (λ m. place ≤ length m.reads) (K.moments disk.old) }
    requires room { place + (array_vec_len waiting.old + length (slot_text slot.now)) < 2 ^ 63 }
    ensures ok { IfOk result (λ next. Puts place waiting.old.items next waiting.new.items (slot_text slot.now) (K.moments disk.old) (K.moments disk.new)) }
    ensures small { OnOk result (array_vec_len waiting.new ≤ array_vec_len waiting.old + 9) }
    ensures err { OnErr result (GivesUp place waiting.old.items (K.moments disk.old) (K.moments disk.new)) }
    ensures cause { HasExactCause (K.faults disk.old) (K.faults disk.new) result }
{
    match slot {
        Slot::Absent => {
            waiting.push(0);
            Ok(place)
        }
        Slot::Held(bytes) => put_file(disk, place, waiting, bytes.as_slice()),
    }
}

// Puts slots, one after the other.
fn put_slots<K: Disk>(
    disk: &mut K,
    place: u64,
    waiting: &mut Small,
    slots: &[Slot],
) -> Result<u64, Failed>
    requires small { array_vec_len waiting.old + 9 * length slots.now ≤ 155 }
    requires within { Now (λ m. place ≤ length m.reads) (K.moments disk.old) }
    requires room { place + (array_vec_len waiting.old + length (flat_map slot_text slots.now)) < 2 ^ 63 }
    ensures ok { IfOk result (λ next. Puts place waiting.old.items next waiting.new.items (flat_map slot_text slots.now)
        (K.moments disk.old) (K.moments disk.new)) }
    ensures small { OnOk result (array_vec_len waiting.new ≤ 155) }
    ensures err { OnErr result (GivesUp place waiting.old.items (K.moments disk.old) (K.moments disk.new)) }
    ensures cause { HasExactCause (K.faults disk.old) (K.faults disk.new) result }
{
    let Some((slot, rest)) = slots.split_first() else {
        return Ok(place);
    };
    let next = put_slot(disk, place, waiting, slot)?;
    put_slots(disk, next, waiting, rest)
}

// Writes what waits with a closed gate behind it, keeps all that was written, and answers where that gate stands.
fn put_gate<K: Disk>(disk: &mut K, place: u64, waiting: &mut Small) -> Result<u64, Failed>
    requires small { array_vec_len waiting.old ≤ 155 }
    requires within { Now (λ m. place ≤ length m.reads) (K.moments disk.old) }
    requires room { place + array_vec_len waiting.old + 1 < 2 ^ 63 }
    ensures ok { OnOk result (Stages place waiting.old.items (K.moments disk.old) (K.moments disk.new)) }
    ensures next { IfOk result (λ next. next ≡ place + array_vec_len waiting.old) }
    ensures err { OnErr result (GivesUp place waiting.old.items (K.moments disk.old) (K.moments disk.new)) }
    ensures cause { HasExactCause (K.faults disk.old) (K.faults disk.new) result }
{
    waiting.push(0); // the closed gate
    let end = flush(disk, place, waiting)?;
    disk.sync()?;
    Ok(end - 1)
}

// Puts the body of a publication.
fn put_published<K: Disk>(
    disk: &mut K,
    gate: u64,
    worker: u8,
    slots: &[Slot],
) -> Result<u64, Failed>
    requires within { Now (λ m. gate + 1 ≤ length m.reads) (K.moments disk.old) }
    requires room { gate ≤ 2 ^ 62 }
    requires slots { AreSlots slots.now }
    ensures ok { OnOk result (StagesText gate (1 ∷ (worker ∷ flat_map slot_text slots.now)) (K.moments disk.old) (K.moments disk.new)) }
    ensures next { IfOk result (λ next. next ≡ gate + 3 + length (flat_map slot_text slots.now)) }
    ensures short { IfOk result (λ next. next ≤ gate + 2 ^ 30) }
    ensures err { OnErr result (KeepsClosed gate (K.moments disk.old) (K.moments disk.new)) }
    ensures cause { HasExactCause (K.faults disk.old) (K.faults disk.new) result }
{
    let mut waiting: Small = ArrayVec::new();
    waiting.push(1);
    waiting.push(worker);
    let place = put_slots(disk, gate + 1, &mut waiting, slots)?;
    put_gate(disk, place, &mut waiting)
}

// Puts the body of a closure or of a reopening, which is one write with the gate behind it.
fn put_profiles<K: Disk>(
    disk: &mut K,
    gate: u64,
    kind: u8,
    worker: u8,
    feature: FeatureId,
    profiles: u16,
) -> Result<u64, Failed>
    requires within { Now (λ m. gate + 1 ≤ length m.reads) (K.moments disk.old) }
    requires room { gate ≤ 2 ^ 62 }
    ensures ok { OnOk result (StagesText gate (kind ∷ (worker ∷ (bytes_high_first 16 feature.0 ++ bytes_high_first 2 profiles)))
        (K.moments disk.old) (K.moments disk.new)) }
    ensures next { IfOk result (λ next. next ≡ gate + 21) }
    ensures err { OnErr result (KeepsClosed gate (K.moments disk.old) (K.moments disk.new)) }
    ensures cause { HasExactCause (K.faults disk.old) (K.faults disk.new) result }
{
    let mut waiting: Small = ArrayVec::new();
    waiting.push(kind);
    waiting.push(worker);
    push_all(&mut waiting, &feature.0.to_be_bytes());
    push_all(&mut waiting, &profiles.to_be_bytes());
    put_gate(disk, gate + 1, &mut waiting)
}

/// Puts a record's body and a closed gate behind the closed gate, and answers where the new gate stands.
pub(crate) fn put_body<K: Disk>(disk: &mut K, gate: u64, entry: &Record<'_>) -> Result<u64, Failed>
    requires within { Now (λ m. gate + 1 ≤ length m.reads) (K.moments disk.old) }
    requires room { gate ≤ 2 ^ 62 }
    requires loggable { IsLoggable (logged entry.now) }
    ensures ok { OnOk result ((records : List Logged) → Now (IsReady records gate true) (K.moments disk.old)
        → Run (IsJournal records) (IsStaged records gate (logged entry.now)) (K.moments disk.old) (K.moments disk.new)) }
    ensures next { IfOk result (λ next. next ≡ gate + 1 + length (record_body (logged entry.now))) }
    ensures short { IfOk result (λ next. next ≤ gate + 2 ^ 30) }
    ensures err { OnErr result ((records : List Logged) → Now (IsReady records gate true) (K.moments disk.old)
        → Run (IsJournal records) (IsReady records gate true) (K.moments disk.old) (K.moments disk.new)) }
    ensures told { OnOk result (K.moments disk.new ≡ [] → K.moments disk.old ≡ []) }
    ensures cause { HasExactCause (K.faults disk.old) (K.faults disk.new) result }
{
    match entry {
        Record::Published { worker, files } => {
            put_published(disk, gate, *worker, files.slots.as_slice())
        }
        Record::Closed {
            worker,
            feature,
            profiles,
        } => put_profiles(disk, gate, 2, *worker, *feature, *profiles),
        Record::Reopened {
            worker,
            feature,
            profiles,
        } => put_profiles(disk, gate, 3, *worker, *feature, *profiles),
    }
}
