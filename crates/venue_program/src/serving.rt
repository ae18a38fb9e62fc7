//! A service over doors: it binds, prints the address, serves at a shared hall, and prints the result.

ghost use Rattle.std.specs.Prelude.{◌≡◌, ◌⊎◌, ◌≤◌, ℕ, List, ◌++◌, Option, codes, length, string_bytes, true, false, IfOk, IfSome, IfNone};
ghost use Rattle.std.specs.Fmt.{decimal};
ghost use Rattle.venue_ports.specs.Causes.{Rose};
ghost use Rattle.venue_service.specs.Copied.{entries_in};
ghost use Rattle.venue_service.specs.Ends.{connection_between};
ghost use Rattle.venue_service.specs.Desks.{raised};
ghost use Rattle.venue_service.specs.Services.{AreCounts, IsKeptOn, terms_of};
ghost use Rattle.venue_service.specs.Standing.{AreRecordsOf};
ghost use Rattle.venue_program.specs.Doors.{AreBoundAt, doors_between};
ghost use Rattle.venue_program.specs.Services.{door_fault, closing_line, IsTold, IsToldInPart, IsServiceEnd};
ghost use Rattle.venue_program.specs.Steps.{IsClosing, IsServedOn};

use crate::ready::Ready;
use std::alloc::{AllocError, Global};
use std::marker::Brand;
use std::sync::Wait;
use std::sync::ledger::Blank;
use std::thread::Threads;
use venue_commands::{Status, write_all};
use venue_ports::{Doors, Folders, Stream};
use venue_service::{Counts, Log, Service, serve_hall};

/// The status with which a service ends, and what was handed in.
#[derive(Drop)]
pub(crate) struct AtDoors<F, D, J> {
    pub status: Status,
    pub folders: F,
    pub doors: D,
    pub log: J,
}

// Serves at a hall whose name has the values of what it is opened with.
fn serve_named<F: Folders + Send, D: Doors + Send, J: Log + Send, R: Threads + Wait + Sync>(
    rt: &R,
    alloc: Global,
    ready: Ready<'_>,
    folders: F,
    doors: D,
    log: J,
) -> Service<F, J, D>
    requires bound { D.ready doors ≡ true }
    requires length { J.length log ≡ length (entries_in ready.plan.copies) }
    requires records { AreRecordsOf (J.records log) (entries_in ready.plan.copies) }
    ensures counts { IfSome result.counts (AreCounts ready.entry.plan.workers ready.entry.plan.connections (entries_in ready.entry.plan.copies) (J.records result.log)) }
    ensures kept { IsKeptOn (entries_in ready.entry.plan.copies) (J.records result.log) }
    ensures log_later { J.faults log ≤ J.faults result.log }
    ensures folders { F.files result.folders ≡ F.files folders }
    ensures folders_later { F.faults folders ≤ F.faults result.folders }
    ensures doors_later { D.faults doors ≤ D.faults result.doors }
    ensures binds { D.binds result.doors ≡ D.binds doors }
    ensures bound { D.bound result.doors ≡ D.bound doors }
    ensures accepted { IfSome result.counts (λ counts. D.accepted result.doors ≡ raised counts.sessions (D.accepted doors)) }
    ensures sound { IfSome result.counts (λ counts. counts.failed ≡ false → D.faults result.doors ≡ D.faults doors) }
    ensures failed { IfSome result.counts (λ counts. counts.failed ≡ true → Rose (D.faults doors) (D.faults result.doors)) }
    ensures unserved { IfNone result.counts (result.doors ≡ doors) }
{
    let Ready {
        plan,
        address: _address,
        listening: _listening,
    } = ready;
    let blank = Blank::new(u64::from(plan.workers));
    serve_hall::<Brand, F, J, D, R>(rt, alloc, blank, plan, folders, log, doors)
}

// A word, a number behind it, and what follows.
fn counted(alloc: Global, word: &str, number: u32, rest: &str) -> Result<String, AllocError>
    ensures { IfOk result (λ text. string_bytes text ≡ word.now ++ (codes " " ++ (decimal number ++ rest.now))) }
{
    format!(in alloc; "{word} {number}{rest}")
}

// The line that tells of a service at its close.
fn closing_text(alloc: Global, counts: Counts) -> Result<String, AllocError>
    ensures { IfOk result (λ text. string_bytes text ≡ closing_line counts) }
{
    let changes = counted(alloc, " changes", counts.changes, "\n")?;
    let versions = counted(alloc, " versions", counts.versions, changes.as_str())?;
    let sessions = counted(alloc, " sessions", counts.sessions, versions.as_str())?;
    counted(
        alloc,
        "workers",
        u32::from(counts.workers),
        sessions.as_str(),
    )
}

// The status of a service whose closing line was written.
fn status_of(failed: bool) -> Status
    ensures done { failed ≡ false → result ≡ Status.Done }
    ensures fault { failed ≡ true → result ≡ Status.Fault }
{
    if failed { Status::Fault } else { Status::Done }
}

// Tells of a service at its close.
fn close<C: Stream>(alloc: Global, console: &mut C, counts: Counts) -> Status
    ensures closing { IsClosing counts (connection_between C.Stream console.old console.new) result }
    ensures left { C.left console.new ≡ C.left console.old }
    ensures later { C.faults console.old ≤ C.faults console.new }
{
    let Ok(text) = closing_text(alloc, counts) else {
        return Status::Memory;
    };
    match write_all(console, text.as_bytes()) {
        Ok(()) => status_of(counts.failed),
        Err(_) => Status::Fault,
    }
}

// Serves at doors that are bound, once the console was told where.
fn serve_told<
    F: Folders + Send,
    D: Doors + Send,
    J: Log + Send,
    C: Stream,
    R: Threads + Wait + Sync,
>(
    rt: &R,
    alloc: Global,
    ready: Ready<'_>,
    folders: F,
    doors: D,
    log: J,
    console: &mut C,
) -> AtDoors<F, D, J>
    requires bound { D.ready doors ≡ true }
    requires length { J.length log ≡ length (entries_in ready.plan.copies) }
    requires records { AreRecordsOf (J.records log) (entries_in ready.plan.copies) }
    ensures ends { (binds : Option ℕ) (bound : Option (List ℕ)) → IsServedOn (terms_of ready.entry.plan) (J.records result.log)
        (connection_between C.Stream console.old console.new)
        (record (doors_between D.Doors doors result.doors) { binds = binds; bound = bound }) result.status }
    ensures binds { D.binds result.doors ≡ D.binds doors }
    ensures bound { D.bound result.doors ≡ D.bound doors }
    ensures kept { (result.log ≡ log) ⊎ IsKeptOn (entries_in ready.entry.plan.copies) (J.records result.log) }
    ensures log_later { J.faults log ≤ J.faults result.log }
    ensures files { F.files result.folders ≡ F.files folders }
    ensures left { C.left console.new ≡ C.left console.old }
    ensures folders_later { F.faults folders ≤ F.faults result.folders }
    ensures doors_later { D.faults doors ≤ D.faults result.doors }
    ensures console_later { C.faults console.old ≤ C.faults console.new }
{
    let Service {
        folders,
        doors,
        log,
        counts,
    } = serve_named(rt, alloc, ready, folders, doors, log);
    match counts {
        Some(counts) => {
            let status = close(alloc, console, counts);
            AtDoors {
                status,
                folders,
                doors,
                log,
            }
        }
        None => AtDoors {
            status: Status::Memory,
            folders,
            doors,
            log,
        },
    }
}

// Tells the address of doors that are bound, and serves.
fn serve_bound<
    F: Folders + Send,
    D: Doors + Send,
    J: Log + Send,
    C: Stream,
    R: Threads + Wait + Sync,
>(
    rt: &R,
    alloc: Global,
    ready: Ready<'_>,
    folders: F,
    doors: D,
    log: J,
    console: &mut C,
) -> AtDoors<F, D, J>
    requires bound { D.ready doors ≡ true }
    requires length { J.length log ≡ length (entries_in ready.plan.copies) }
    requires records { AreRecordsOf (J.records log) (entries_in ready.plan.copies) }
    ensures ends { (binds : Option ℕ) (bound : Option (List ℕ)) → IsServiceEnd ready.entry.address.now (terms_of ready.entry.plan) (J.records result.log)
        (connection_between C.Stream console.old console.new)
        (record (doors_between D.Doors doors result.doors) { binds = binds; bound = bound }) result.status }
    ensures binds { D.binds result.doors ≡ D.binds doors }
    ensures bound { D.bound result.doors ≡ D.bound doors }
    ensures kept { (result.log ≡ log) ⊎ IsKeptOn (entries_in ready.entry.plan.copies) (J.records result.log) }
    ensures log_later { J.faults log ≤ J.faults result.log }
    ensures files { F.files result.folders ≡ F.files folders }
    ensures left { C.left console.new ≡ C.left console.old }
    ensures folders_later { F.faults folders ≤ F.faults result.folders }
    ensures doors_later { D.faults doors ≤ D.faults result.doors }
    ensures console_later { C.faults console.old ≤ C.faults console.new }
{
    match write_all(console, ready.listening.as_bytes()) {
        Ok(()) => serve_told(rt, alloc, ready, folders, doors, log, console),
        Err(_) => AtDoors {
            status: Status::Fault,
            folders,
            doors,
            log,
        },
    }
}

// Tells that the bind failed.
fn tell_unbound<C: Stream>(console: &mut C) -> Status
    ensures told { IsTold
        (connection_between C.Stream console.old console.new) door_fault ⊎ IsToldInPart (connection_between C.Stream console.old console.new) door_fault }
    ensures fault { result ≡ Status.Fault }
    ensures left { C.left console.new ≡ C.left console.old }
    ensures later { C.faults console.old ≤ C.faults console.new }
{
    let _ = write_all(console, b"fault doors\n");
    Status::Fault
}

/// Binds the doors, and serves.
pub(crate) fn serve_ready<
    F: Folders + Send,
    D: Doors + Send,
    J: Log + Send,
    C: Stream,
    R: Threads + Wait + Sync,
>(
    rt: &R,
    alloc: Global,
    ready: Ready<'_>,
    folders: F,
    doors: D,
    log: J,
    console: &mut C,
) -> AtDoors<F, D, J>
    requires unbound { D.ready doors ≡ false }
    requires length { J.length log ≡ length (entries_in ready.plan.copies) }
    requires records { AreRecordsOf (J.records log) (entries_in ready.plan.copies) }
    ensures ends { IsServiceEnd ready.entry.address.now (terms_of ready.entry.plan) (J.records result.log)
        (connection_between C.Stream console.old console.new)
        (doors_between D.Doors doors result.doors) result.status }
    ensures bound { AreBoundAt ready.entry.address.now (doors_between D.Doors doors result.doors) }
    ensures kept { (result.log ≡ log) ⊎ IsKeptOn (entries_in ready.entry.plan.copies) (J.records result.log) }
    ensures log_later { J.faults log ≤ J.faults result.log }
    ensures files { F.files result.folders ≡ F.files folders }
    ensures left { C.left console.new ≡ C.left console.old }
    ensures folders_later { F.faults folders ≤ F.faults result.folders }
    ensures doors_later { D.faults doors ≤ D.faults result.doors }
    ensures console_later { C.faults console.old ≤ C.faults console.new }
{
    let mut doors = doors;
    match doors.bind(ready.address) {
        Ok(()) => serve_bound(rt, alloc, ready, folders, doors, log, console),
        Err(_) => {
            let status = tell_unbound(console);
            AtDoors {
                status,
                folders,
                doors,
                log,
            }
        }
    }
}
