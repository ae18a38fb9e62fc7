//! The commands `session` and `serve` with a journal: the settings and the journal are read, and what stops them is printed, or a hall goes on with the
//! history that the journal keeps.

ghost use Rattle.std.specs.Prelude.{◌≡◌, ◌≤◌, ℕ, List, false, length, IfSome, IsSome};
ghost use Rattle.std.specs.Arc.{arc_value};
ghost use Rattle.journal_start.specs.Stamps.{entries_of};
ghost use Rattle.journal_start.specs.Told.{told_records, HoldsRecords};
ghost use Rattle.shared_hall.specs.Making.{shelf_of};
ghost use Rattle.shared_hall.specs.Standing.{AreRecordsOf};
ghost use Rattle.venue_service.specs.Ends.{connection_between};
ghost use Rattle.journal_start.specs.Moments.{reads_between};
ghost use Rattle.venue_commands.specs.Commands.{Asks};
ghost use Rattle.venue_commands.specs.ReadCommands.{kept_session_asked, kept_service_asked};
ghost use Rattle.venue_commands.specs.Runs.{folders_between, run_between};
ghost use Rattle.venue_program.specs.Disks.{disks_between};
ghost use Rattle.venue_program.specs.Doors.{doors_between};
ghost use Rattle.venue_program.specs.Kept.{KeptEnds, SeatEnds, ServedDoors, TellsWhy};

use crate::outcome::Outcome;
use crate::plans::kept_ready;
use crate::ready::Keys;
use crate::seat::{AtSeat, SeatPlan, serve_seat};
use crate::serving::{AtDoors, serve_ready};
use crate::stopping::tell_why;
use journal_start::{Kept, KeptStart, Stop, reach_journal};
use shared_hall::Copies;
use std::alloc::Global;
use std::sync::Wait;
use std::thread::Threads;
use venue_commands::{JournalOf, KeptServiceOf, ServiceOf, Status};
use venue_ports::{Disks, Doors, Folders, Stream};
use venue_types::OutOfMemory;

// Tells why nothing is served.
fn stop<F: Folders, D: Doors, C: Stream, K: Disks>(
    console: &mut C,
    stopped: Stop<K::Disk>,
    folders: F,
    doors: D,
) -> Outcome<F, D, K>
    ensures told { TellsWhy stopped.why (connection_between C.Stream console.old console.new) result.status }
    ensures disk { result.disk ≡ stopped.disk }
    ensures folders { result.folders ≡ folders }
    ensures doors { result.doors ≡ doors }
    ensures left { C.left console.new ≡ C.left console.old }
    ensures console_later { C.faults console.old ≤ C.faults console.new }
{
    let Stop { why, disk } = stopped;
    let status = tell_why(console, &why);
    Outcome {
        status,
        folders,
        doors,
        disk,
    }
}

// Serves the console from the one seat of a hall that goes on with a journal.
fn serve_session<F: Folders, D: Doors, C: Stream, K: Disks, R: Wait>(
    rt: &R,
    alloc: Global,
    start: KeptStart<K::Disk>,
    folders: F,
    doors: D,
    console: &mut C,
) -> Outcome<F, D, K>
    requires length { start.kept.journal.count ≡ length (entries_of start.kept.resumed.held.stamp) }
    requires records { AreRecordsOf (told_records start.kept.journal.count (K.Disk.moments start.kept.journal.disk)) (entries_of start.kept.resumed.held.stamp) }
    ensures back { IsSome result.disk }
    ensures ends { IfSome result.disk (λ disk. (count : ℕ) × SeatEnds (shelf_of (F.files folders) start.base) (arc_value start.settings).staff_keys (entries_of start.kept.resumed.held.stamp)
        (connection_between C.Stream console.old console.new) (reads_between C.Stream console.old console.new) (told_records count (K.Disk.moments disk)) count result.status × HoldsRecords count (K.Disk.moments disk)) }
    ensures files { F.files result.folders ≡ F.files folders }
    ensures doors { result.doors ≡ doors }
    ensures folders_later { F.faults folders ≤ F.faults result.folders }
    ensures console_later { C.faults console.old ≤ C.faults console.new }
{
    let KeptStart {
        base,
        front,
        settings,
        kept,
    } = start;
    let Kept { journal, resumed } = kept;
    match Copies::of(rt, alloc, settings, resumed, 1) {
        Ok(copies) => {
            let plan = SeatPlan {
                copies,
                base,
                front,
            };
            let AtSeat {
                status,
                folders,
                log,
            } = serve_seat(rt, alloc, plan, folders, journal, console);
            Outcome {
                status,
                folders,
                doors,
                disk: Some(log.into_disk()),
            }
        }
        Err(OutOfMemory) => Outcome {
            status: Status::Memory,
            folders,
            doors,
            disk: Some(journal.into_disk()),
        },
    }
}

/// Answers `session BASE FOLDER JOURNAL`.
pub(crate) fn kept_session<F: Folders, D: Doors, C: Stream, K: Disks, R: Wait>(
    rt: &R,
    alloc: Global,
    of: JournalOf<'_>,
    folders: F,
    doors: D,
    console: &mut C,
    disks: &mut K,
) -> Outcome<F, D, K>
    ensures ends { (words : List (List ℕ)) → Asks words (kept_session_asked of.entry) → KeptEnds words (F.files folders)
        (run_between C.Stream console.old console.new (folders_between F.Folders folders result.folders)) (doors_between D.Doors doors result.doors)
        (disks_between K.Disks K.Disk.Disk disks.old disks.new result.disk) result.status }
    ensures files { F.files result.folders ≡ F.files folders }
    ensures doors { result.doors ≡ doors }
    ensures folders_later { F.faults folders ≤ F.faults result.folders }
    ensures console_later { C.faults console.old ≤ C.faults console.new }
    ensures disks_later { K.faults disks.old ≤ K.faults disks.new }
{
    let mut folders = folders;
    match reach_journal(alloc, of, &mut folders, disks) {
        Ok(start) => serve_session(rt, alloc, start, folders, doors, console),
        Err(stopped) => stop(console, stopped, folders, doors),
    }
}

// Serves at doors, at a hall that goes on with a journal.
fn serve_doors<F: Folders + Send, D: Doors + Send, C: Stream, K: Disks, R: Threads + Wait + Sync>(
    rt: &R,
    alloc: Global,
    start: KeptStart<K::Disk>,
    service: ServiceOf<'_>,
    folders: F,
    doors: D,
    console: &mut C,
) -> Outcome<F, D, K>
    requires unbound { D.ready doors ≡ false }
    requires length { start.kept.journal.count ≡ length (entries_of start.kept.resumed.held.stamp) }
    requires records { AreRecordsOf (told_records start.kept.journal.count (K.Disk.moments start.kept.journal.disk)) (entries_of start.kept.resumed.held.stamp) }
    ensures back { IsSome result.disk }
    ensures ends { IfSome result.disk (λ disk. (count : ℕ) × ServedDoors start.base (arc_value start.settings) (entries_of start.kept.resumed.held.stamp) service.entry.address.now
        service.entry.workers service.entry.connections (told_records count (K.Disk.moments disk)) (connection_between C.Stream console.old console.new) (doors_between D.Doors doors result.doors) result.status
        × HoldsRecords count (K.Disk.moments disk)) }
    ensures files { F.files result.folders ≡ F.files folders }
    ensures left { C.left console.new ≡ C.left console.old }
    ensures folders_later { F.faults folders ≤ F.faults result.folders }
    ensures doors_later { D.faults doors ≤ D.faults result.doors }
    ensures console_later { C.faults console.old ≤ C.faults console.new }
{
    let KeptStart {
        base,
        front,
        settings,
        kept,
    } = start;
    let Kept { journal, resumed } = kept;
    let keys = Keys {
        base,
        front,
        settings,
    };
    match kept_ready(rt, alloc, keys, resumed, service) {
        Ok(ready) => {
            let AtDoors {
                status,
                folders,
                doors,
                log,
            } = serve_ready(rt, alloc, ready, folders, doors, journal, console);
            Outcome {
                status,
                folders,
                doors,
                disk: Some(log.into_disk()),
            }
        }
        Err(OutOfMemory) => Outcome {
            status: Status::Memory,
            folders,
            doors,
            disk: Some(journal.into_disk()),
        },
    }
}

/// Answers `serve BASE FOLDER ADDRESS WORKERS CONNECTIONS JOURNAL`.
pub(crate) fn kept_service<
    F: Folders + Send,
    D: Doors + Send,
    C: Stream,
    K: Disks,
    R: Threads + Wait + Sync,
>(
    rt: &R,
    alloc: Global,
    of: KeptServiceOf<'_>,
    folders: F,
    doors: D,
    console: &mut C,
    disks: &mut K,
) -> Outcome<F, D, K>
    requires unbound { D.ready doors ≡ false }
    ensures ends { (words : List (List ℕ)) → Asks words (kept_service_asked of.entry) → KeptEnds words (F.files folders)
        (run_between C.Stream console.old console.new (folders_between F.Folders folders result.folders)) (doors_between D.Doors doors result.doors)
        (disks_between K.Disks K.Disk.Disk disks.old disks.new result.disk) result.status }
    ensures files { F.files result.folders ≡ F.files folders }
    ensures left { C.left console.new ≡ C.left console.old }
    ensures folders_later { F.faults folders ≤ F.faults result.folders }
    ensures doors_later { D.faults doors ≤ D.faults result.doors }
    ensures console_later { C.faults console.old ≤ C.faults console.new }
    ensures disks_later { K.faults disks.old ≤ K.faults disks.new }
{
    let KeptServiceOf {
        service,
        journal,
        ..
    } = of;
    let of = JournalOf {
        of: service.of,
        journal,
    };
    let mut folders = folders;
    match reach_journal(alloc, of, &mut folders, disks) {
        Ok(start) => serve_doors(rt, alloc, start, service, folders, doors, console),
        Err(stopped) => stop(console, stopped, folders, doors),
    }
}
