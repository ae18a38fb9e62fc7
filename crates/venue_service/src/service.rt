//! The whole service, over doors that are bound.

ghost use Rattle.std.specs.Prelude.{◌≡◌, ◌⊎◌, ◌+◌, ◌<◌, ◌≤◌, length, true, false, IfSome, IfNone, IsSome, IsNone};
ghost use Rattle.venue_types.specs.Room.{HasRoom};
ghost use Rattle.venue_ports.specs.Causes.{Rose};
ghost use Rattle.shared_hall.specs.Making.{shelf_of};
ghost use Rattle.shared_hall.specs.Copied.{entries_in, book_in};
ghost use Rattle.shared_hall.specs.Offices.{parts_of, HasShelf, IsOneHistory};
ghost use Rattle.shared_hall.specs.Standing.{AreRecordsOf};
ghost use Rattle.venue_service.specs.Desks.{raised};
ghost use Rattle.venue_service.specs.Services.{AreCounts, IsKeptOn};

use crate::desk::DoorDesk;
use crate::seats::{leave_all, sit_all, work_all};
use shared_hall::{
    Closed, Copies, HallName, Log, LoggedOffice, LoggedSeat, OpenedOf, Pass, UnopenedOf,
    close_hall, open_kept,
};
use std::alloc::Global;
use std::sync::ledger::Blank;
use std::sync::{Mutex, Wait};
use std::thread::Threads;
use venue_ports::{Doors, Folders};
use venue_types::{Text, reserve};
use venue_wire::Front;

/// What a hall is opened with, and what it is to serve.
#[derive(Drop)]
pub struct Plan {
    pub copies: Copies,
    /// The base of the folders from which staff publish.
    pub base: Text,
    /// The routes, with the keys of the staff.
    pub front: Front,
    /// How many workers serve at most: 1 to 16.
    pub workers: u8,
    /// How many connections are accepted.
    pub connections: u32,
}

/// What is told of a service at its close.
#[derive(Clone, Copy)]
pub struct Counts {
    /// How many workers served.
    pub workers: u8,
    /// How many connections were accepted.
    pub sessions: u32,
    /// How many versions the history has.
    pub versions: u32,
    /// How many accepted changes were told.
    pub changes: u32,
    /// Whether an accept failed.
    pub failed: bool,
}

// Passes that are to sit, with room for their seats and for the passes once they leave again.
#[derive(Drop)]
struct Sitting<'a, N: HallName, F: Folders, J: Log, R> {
    passes: Vec<Pass<N>>,
    seats: Vec<LoggedSeat<'a, N, F, J, R>>,
    left: Vec<Pass<N>>,
}

// What is left once all was served: the desk, and the passes, which left their seats.
#[derive(Drop)]
struct Served<N: HallName, D: Doors> {
    desk: DoorDesk<N, D>,
    passes: Vec<Pass<N>>,
}

/// What a service hands back. No counts are told where memory ran out before the first connection.
#[derive(Drop)]
pub struct Service<F, J, D> {
    pub folders: F,
    /// The log, which has a record of each entry of the history.
    pub log: J,
    pub doors: D,
    pub counts: Option<Counts>,
}

// Closes a hall that served nobody.
fn close_unserved<N: HallName, F: Folders, J: Log, D: Doors, R: Wait>(
    rt: &R,
    office: Mutex<LoggedOffice<N, F, J>>,
    passes: Vec<Pass<N>>,
    doors: D,
) -> Service<F, J, D>
    requires some { 0 < length passes.items }
    requires parts { parts_of passes.items ≡ N.parts }
    ensures untold { IsNone result.counts }
    ensures kept { IsKeptOn N.opening (J.records result.log) }
    ensures log_later { N.log_count ≤ J.faults result.log }
    ensures shelf { HasShelf (F.files result.folders) N.folder_files }
    ensures later { N.folder_count ≤ F.faults result.folders }
    ensures doors { result.doors ≡ doors }
{
    let Closed { folders, log, .. } = close_hall(rt, office, passes);
    Service {
        folders,
        log,
        doors,
        counts: None,
    }
}

// Closes a hall that served all that was accepted at a desk for so many connections, and counts.
fn close_served<N: HallName, F: Folders, J: Log, D: Doors, R: Wait>(
    rt: &R,
    office: Mutex<LoggedOffice<N, F, J>>,
    passes: Vec<Pass<N>>,
    desk: DoorDesk<N, D>,
    connections: u32,
) -> Service<F, J, D>
    requires some { 0 < length passes.items }
    requires range { length passes.items ≤ 16 }
    requires parts { parts_of passes.items ≡ N.parts }
    requires connections { connections ≡ N.connections }
    requires ended { (desk.left ≡ 0) ⊎ (desk.failed ≡ true) }
    ensures told { IsSome result.counts }
    ensures counts { IfSome result.counts (AreCounts (length passes.items) connections N.opening (J.records result.log)) }
    ensures workers { IfSome result.counts (λ counts. counts.workers ≡ length passes.items) }
    ensures history { IfSome result.counts (λ counts. IsOneHistory N.opening passes.items (J.records result.log) counts.versions counts.changes) }
    ensures kept { IsKeptOn N.opening (J.records result.log) }
    ensures log_later { N.log_count ≤ J.faults result.log }
    ensures shelf { HasShelf (F.files result.folders) N.folder_files }
    ensures later { N.folder_count ≤ F.faults result.folders }
    ensures ready { D.ready result.doors ≡ true }
    ensures binds { D.binds result.doors ≡ N.binds }
    ensures bound { D.bound result.doors ≡ N.bound }
    ensures accepted { IfSome result.counts (λ counts. D.accepted result.doors ≡ raised counts.sessions N.accepted) }
    ensures sound { IfSome result.counts (λ counts. counts.failed ≡ false → D.faults result.doors ≡ N.door_count) }
    ensures failed { IfSome result.counts (λ counts. counts.failed ≡ true → Rose N.door_count (D.faults result.doors)) }
    ensures doors_later { N.door_count ≤ D.faults result.doors }
{
    let workers = passes.len() as u8;
    let failed = desk.failed();
    let sessions = connections - desk.left();
    let Closed {
        folders,
        log,
        number,
        changes,
    } = close_hall(rt, office, passes);
    Service {
        folders,
        log,
        doors: desk.into_doors(),
        counts: Some(Counts {
            workers,
            sessions,
            versions: number,
            changes,
            failed,
        }),
    }
}

// Gives the passes seats, serves what comes to the desk, and takes the passes back.
fn run_seats<
    'a,
    N: HallName + Send + Sync,
    F: Folders + Send,
    J: Log + Send,
    D: Doors + Send,
    R: Threads + Wait + Sync,
>(
    rt: &'a R,
    alloc: Global,
    office: &'a Mutex<LoggedOffice<N, F, J>>,
    sitting: Sitting<'a, N, F, J, R>,
    desk: DoorDesk<N, D>,
    front: &Front,
) -> Served<N, D>
    requires some { 0 < length sitting.passes.items }
    requires seats { HasRoom sitting.seats (length sitting.passes.items) }
    requires empty { length sitting.seats.items ≡ 0 }
    requires left { HasRoom sitting.left (length sitting.passes.items) }
    requires none { length sitting.left.items ≡ 0 }
    requires keys { front.now ≡ N.keys }
    ensures count { length result.passes.items ≡ length sitting.entry.passes.items }
    ensures parts { parts_of result.passes.items ≡ parts_of sitting.entry.passes.items }
    ensures ended { (result.desk.left ≡ 0) ⊎ (result.desk.failed ≡ true) }
{
    let Sitting {
        passes,
        mut seats,
        mut left,
    } = sitting;
    sit_all(rt, alloc, office, passes, &mut seats);
    let desk = work_all(rt, alloc, seats.as_mut_slice(), Mutex::new(desk), front);
    leave_all(seats, &mut left);
    Served { desk, passes: left }
}

// Serves at a hall that is opened, and closes it.
fn serve_opened<
    N: HallName + Send + Sync,
    F: Folders + Send,
    J: Log + Send,
    D: Doors + Send,
    R: Threads + Wait + Sync,
>(
    rt: &R,
    alloc: Global,
    opened: OpenedOf<N, F, J>,
    doors: D,
    front: &Front,
    connections: u32,
) -> Service<F, J, D>
    requires some { 0 < length opened.passes.items }
    requires range { length opened.passes.items ≤ 16 }
    requires parts { parts_of opened.passes.items ≡ N.parts }
    requires keys { front.now ≡ N.keys }
    requires ready { D.ready doors ≡ true }
    requires binds { D.binds doors ≡ N.binds }
    requires bound { D.bound doors ≡ N.bound }
    requires connections { connections ≡ N.connections }
    requires accepted { D.accepted doors ≡ N.accepted }
    requires faults { D.faults doors ≡ N.door_count }
    ensures counts { IfSome result.counts (AreCounts (length opened.passes.items) connections N.opening (J.records result.log)) }
    ensures kept { IsKeptOn N.opening (J.records result.log) }
    ensures log_later { N.log_count ≤ J.faults result.log }
    ensures shelf { HasShelf (F.files result.folders) N.folder_files }
    ensures later { N.folder_count ≤ F.faults result.folders }
    ensures ready { D.ready result.doors ≡ true }
    ensures binds { D.binds result.doors ≡ N.binds }
    ensures bound { D.bound result.doors ≡ N.bound }
    ensures accepted { IfSome result.counts (λ counts. D.accepted result.doors ≡ raised counts.sessions N.accepted) }
    ensures sound { IfSome result.counts (λ counts. counts.failed ≡ false → D.faults result.doors ≡ N.door_count) }
    ensures failed { IfSome result.counts (λ counts. counts.failed ≡ true → Rose N.door_count (D.faults result.doors)) }
    ensures unserved { IfNone result.counts (result.doors ≡ doors) }
    ensures doors_later { D.faults doors ≤ D.faults result.doors }
{
    let OpenedOf { office, passes } = opened;
    let mut seats = Vec::new(alloc);
    let mut left = Vec::new(alloc);
    if reserve(&mut seats, passes.len()).is_err() || reserve(&mut left, passes.len()).is_err() {
        return close_unserved(rt, office, passes, doors);
    }
    let desk = DoorDesk::new(doors, connections);
    let sitting = Sitting {
        passes,
        seats,
        left,
    };
    let Served { desk, passes } = run_seats(rt, alloc, &office, sitting, desk, front);
    close_served(rt, office, passes, desk, connections)
}

/// Serves so many connections at a hall under a name, opened with the entries of the copies and a log that has a record of each, over
/// folders below a base, by one to `workers` workers, who know the keys of its staff. It ends when all were accepted and served, or an accept failed and what had been
/// accepted was served.
pub fn serve_hall<
    N: HallName + Send + Sync,
    F: Folders + Send,
    J: Log + Send,
    D: Doors + Send,
    R: Threads + Wait + Sync,
>(rt: &R, alloc: Global, blank: Blank, plan: Plan, folders: F, log: J, doors: D) -> Service<F, J, D>
    requires some { 1 ≤ plan.workers }
    requires range { plan.workers ≤ 16 }
    requires name { blank.name ≡ N.name }
    requires parts { blank.parts ≡ N.parts }
    requires share { blank.parts ≡ plan.workers }
    requires book { book_in plan.copies ≡ N.book }
    requires opening { entries_in plan.copies ≡ N.opening }
    requires keys { plan.front ≡ N.keys }
    requires count { N.folder_count ≡ F.faults folders }
    requires files { shelf_of (F.files folders) plan.base ≡ N.folder_files }
    requires length { J.length log ≡ length (entries_in plan.copies) }
    requires records { AreRecordsOf (J.records log) (entries_in plan.copies) }
    requires log_count { N.log_count ≡ J.faults log }
    requires ready { D.ready doors ≡ true }
    requires binds { D.binds doors ≡ N.binds }
    requires bound { D.bound doors ≡ N.bound }
    requires connections { plan.connections ≡ N.connections }
    requires accepted { D.accepted doors ≡ N.accepted }
    requires faults { D.faults doors ≡ N.door_count }
    ensures counts { IfSome result.counts (AreCounts plan.workers plan.connections N.opening (J.records result.log)) }
    ensures kept { IsKeptOn N.opening (J.records result.log) }
    ensures log_later { J.faults log ≤ J.faults result.log }
    ensures folders { F.files result.folders ≡ F.files folders }
    ensures folders_later { F.faults folders ≤ F.faults result.folders }
    ensures doors_later { D.faults doors ≤ D.faults result.doors }
    ensures ready { D.ready result.doors ≡ true }
    ensures binds { D.binds result.doors ≡ N.binds }
    ensures bound { D.bound result.doors ≡ N.bound }
    ensures accepted { IfSome result.counts (λ counts. D.accepted result.doors ≡ raised counts.sessions N.accepted) }
    ensures sound { IfSome result.counts (λ counts. counts.failed ≡ false → D.faults result.doors ≡ N.door_count) }
    ensures failed { IfSome result.counts (λ counts. counts.failed ≡ true → Rose N.door_count (D.faults result.doors)) }
    ensures unserved { IfNone result.counts (result.doors ≡ doors) }
{
    let Plan {
        copies,
        base,
        front,
        workers,
        connections,
    } = plan;
    match open_kept::<N, F, J>(alloc, blank, copies, folders, base, workers, log) {
        Ok(opened) => serve_opened(rt, alloc, opened, doors, &front, connections),
        Err(UnopenedOf { folders, log }) => Service {
            folders,
            log,
            doors,
            counts: None,
        },
    }
}
