//! The command `serve` without a journal: reads the folder, and serves at a shared hall, or prints what stops it.

ghost use Rattle.std.specs.Prelude.{◌≡◌, ◌≤◌, ℕ, List, Option, None, false, IfOk, IfSome};
ghost use Rattle.venue_ports.specs.Files.{StoredFile};
ghost use Rattle.venue_service.specs.Venues.{SeenVenue as Venue};
ghost use Rattle.venue_commands.specs.Checked.{HasVenue};
ghost use Rattle.venue_commands.specs.Commands.{Serve, Asks};
ghost use Rattle.venue_commands.specs.ReadCommands.{service_asked};
ghost use Rattle.venue_commands.specs.Runs.{folders_between, run_between};
ghost use Rattle.venue_commands.specs.Steps.{IsAnswer};
ghost use Rattle.venue_program.specs.Doors.{doors_between};
ghost use Rattle.venue_program.specs.Ends.{PlainEnds};
ghost use Rattle.venue_program.specs.Steps.{IsReadyFor};

use crate::outcome::Ended;
use crate::plans::ready_of;
use crate::ready::Ready;
use crate::serving::{AtDoors, serve_ready};
use std::alloc::Global;
use std::sync::Wait;
use std::thread::Threads;
use venue_commands::{Printout, Reached, ServiceOf, Status, reach_folder, tell};
use venue_ports::{Doors, Folders, ReadFault, Stream};
use venue_types::OutOfMemory;

// Serves at a hall that is opened with this.
fn serve_opening<F: Folders + Send, D: Doors + Send, C: Stream, R: Threads + Wait + Sync>(
    rt: &R,
    alloc: Global,
    ready: Result<Ready<'_>, OutOfMemory>,
    folders: F,
    doors: D,
    console: &mut C,
) -> Ended<F, D>
    requires unbound { D.ready doors ≡ false }
    ensures ends { (words : List (List ℕ)) (files : Option (List StoredFile)) (before : F) (base folder address : List ℕ) (workers connections : ℕ) (venue : Venue)
        → Asks words (Serve base folder address workers connections None) → IfSome files (λ fs. HasVenue fs base folder venue)
        → IfOk ready.entry (IsReadyFor base venue address workers connections) → F.faults folders ≡ F.faults before
        → PlainEnds words files (run_between C.Stream console.old console.new (folders_between F.Folders before result.folders)) (doors_between D.Doors doors result.doors) result.status }
    ensures files { F.files result.folders ≡ F.files folders }
    ensures left { C.left console.new ≡ C.left console.old }
    ensures folders_later { F.faults folders ≤ F.faults result.folders }
    ensures doors_later { D.faults doors ≤ D.faults result.doors }
    ensures console_later { C.faults console.old ≤ C.faults console.new }
{
    match ready {
        Ok(ready) => {
            let log = ready.plan.copies.no_log();
            let AtDoors {
                status,
                folders,
                doors,
                ..
            } = serve_ready(rt, alloc, ready, folders, doors, log, console);
            Ended {
                status,
                folders,
                doors,
            }
        }
        Err(OutOfMemory) => Ended {
            status: Status::Memory,
            folders,
            doors,
        },
    }
}

// Tells what stops a service, or why there is nothing to tell.
fn stop<F: Folders, D: Doors, C: Stream>(
    console: &mut C,
    answer: Result<Printout, ReadFault>,
    folders: F,
    doors: D,
) -> Ended<F, D>
    ensures ends { (words : List (List ℕ)) (files : Option (List StoredFile)) (before : F) → IsAnswer words files (folders_between F.Folders before folders) answer
        → PlainEnds words files (run_between C.Stream console.old console.new (folders_between F.Folders before result.folders)) (doors_between D.Doors doors result.doors) result.status }
    ensures folders { result.folders ≡ folders }
    ensures doors { result.doors ≡ doors }
    ensures left { C.left console.new ≡ C.left console.old }
    ensures console_later { C.faults console.old ≤ C.faults console.new }
{
    let status = tell(console, answer);
    Ended {
        status,
        folders,
        doors,
    }
}

/// Answers `serve BASE FOLDER ADDRESS WORKERS CONNECTIONS`: reads the folder, and serves, or prints what stops it.
pub(crate) fn serve<F: Folders + Send, D: Doors + Send, C: Stream, R: Threads + Wait + Sync>(
    rt: &R,
    alloc: Global,
    service: ServiceOf<'_>,
    folders: F,
    doors: D,
    console: &mut C,
) -> Ended<F, D>
    requires unbound { D.ready doors ≡ false }
    ensures ends { (words : List (List ℕ)) → Asks words (service_asked service.entry) → PlainEnds words (F.files folders)
        (run_between C.Stream console.old console.new (folders_between F.Folders folders result.folders))
        (doors_between D.Doors doors result.doors) result.status }
    ensures files { F.files result.folders ≡ F.files folders }
    ensures left { C.left console.new ≡ C.left console.old }
    ensures folders_later { F.faults folders ≤ F.faults result.folders }
    ensures doors_later { D.faults doors ≤ D.faults result.doors }
    ensures console_later { C.faults console.old ≤ C.faults console.new }
{
    let mut folders = folders;
    match reach_folder(alloc, service.of, &mut folders) {
        Ok(Reached::Opened(opening)) => {
            let ready = ready_of(rt, alloc, opening, service);
            serve_opening(rt, alloc, ready, folders, doors, console)
        }
        Ok(Reached::Printed(answer)) => stop(console, Ok(answer), folders, doors),
        Err(fault) => stop(console, Err(fault), folders, doors),
    }
}
