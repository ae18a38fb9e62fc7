//! A session at the one seat of a hall with a log.

ghost use Rattle.std.specs.Prelude.{◌≡◌, ◌≤◌, ◌<◌, length, All};
ghost use Rattle.shared_hall.specs.Copied.{entries_in, book_in};
ghost use Rattle.shared_hall.specs.Making.{shelf_of};
ghost use Rattle.shared_hall.specs.Offices.{parts_of, AreNumbered, HasShelf, IsNew};
ghost use Rattle.shared_hall.specs.Standing.{AreRecordsOf};
ghost use Rattle.venue_service.specs.Ends.{connection_between};
ghost use Rattle.journal_start.specs.Moments.{reads_between};
ghost use Rattle.venue_commands.specs.Served.{end_status};
ghost use Rattle.venue_program.specs.Kept.{SeatEnds};

use journal_start::{End, serve_session};
use shared_hall::{
    Closed, Copies, HallName, Log, LoggedSeat, OpenedOf, UnopenedOf, close_hall, open_kept,
};
use std::alloc::Global;
use std::marker::Brand;
use std::sync::Wait;
use std::sync::ledger::Blank;
use venue_commands::Status;
use venue_ports::{Folders, Stream};
use venue_types::{Text, push_reserved, reserve};
use venue_wire::Front;

/// The status with which a session ends, and what was handed in.
#[derive(Drop)]
pub(crate) struct AtSeat<F, J> {
    pub status: Status,
    pub folders: F,
    pub log: J,
}

/// What a hall with one seat is opened with: the two copies, the base of its folders, and what judges the messages of its session.
#[derive(Drop)]
pub(crate) struct SeatPlan {
    pub copies: Copies,
    pub base: Text,
    pub front: Front,
}

// The status with which a session ends.
fn status_of(end: End) -> Status
    ensures { result ≡ end_status end }
{
    match end {
        End::Done => Status::Done,
        End::Cut(_) => Status::Negative,
        End::Refused(_) => Status::Negative,
        End::Worn => Status::Negative,
        End::LinkFault => Status::Fault,
        End::OutOfMemory => Status::Memory,
    }
}

// Serves the console from the one seat of a hall that is opened, and closes it.
fn serve_opened<N: HallName, F: Folders, J: Log, C: Stream, R: Wait>(
    rt: &R,
    alloc: Global,
    opened: OpenedOf<N, F, J>,
    front: &Front,
    console: &mut C,
) -> AtSeat<F, J>
    requires some { 0 < length opened.passes.items }
    requires one { length opened.passes.items ≤ 1 }
    requires new { All (IsNew N.opening) opened.passes.items }
    requires numbered { AreNumbered 1 opened.passes.items }
    requires parts { parts_of opened.passes.items ≡ N.parts }
    ensures ends { SeatEnds N.folder_files front.now N.opening (connection_between C.Stream console.old console.new) (reads_between C.Stream console.old console.new)
        (J.records result.log) (J.length result.log) result.status }
    ensures log_later { N.log_count ≤ J.faults result.log }
    ensures shelf { HasShelf (F.files result.folders) N.folder_files }
    ensures folders_later { N.folder_count ≤ F.faults result.folders }
    ensures console_later { C.faults console.old ≤ C.faults console.new }
{
    let OpenedOf { office, passes } = opened;
    let mut passes = passes;
    let mut left = Vec::new(alloc);
    if reserve(&mut left, 1).is_err() {
        let Closed { folders, log, .. } = close_hall(rt, office, passes);
        return AtSeat {
            status: Status::Memory,
            folders,
            log,
        };
    }
    let Some(pass) = passes.pop() else {
        unreachable!()
    };
    let mut seat = LoggedSeat::sit(rt, alloc, pass, &office);
    seat.shelf_law();
    let end = serve_session(alloc, &mut seat, front, console);
    push_reserved(&mut left, seat.leave());
    let Closed { folders, log, .. } = close_hall(rt, office, left);
    AtSeat {
        status: status_of(end),
        folders,
        log,
    }
}

// The same of a hall under a name, which is opened with a plan and a log.
fn serve_under<N: HallName, F: Folders, J: Log, C: Stream, R: Wait>(
    rt: &R,
    alloc: Global,
    blank: Blank,
    plan: SeatPlan,
    folders: F,
    log: J,
    console: &mut C,
) -> AtSeat<F, J>
    requires name { blank.name ≡ N.name }
    requires parts { blank.parts ≡ N.parts }
    requires one { blank.parts ≡ 1 }
    requires book { book_in plan.copies ≡ N.book }
    requires opening { entries_in plan.copies ≡ N.opening }
    requires count { N.folder_count ≤ F.faults folders }
    requires files { shelf_of (F.files folders) plan.base ≡ N.folder_files }
    requires length { J.length log ≡ length (entries_in plan.copies) }
    requires records { AreRecordsOf (J.records log) (entries_in plan.copies) }
    requires log_count { N.log_count ≤ J.faults log }
    ensures ends { SeatEnds N.folder_files plan.front N.opening (connection_between C.Stream console.old console.new) (reads_between C.Stream console.old console.new)
        (J.records result.log) (J.length result.log) result.status }
    ensures log_later { N.log_count ≤ J.faults result.log }
    ensures shelf { HasShelf (F.files result.folders) N.folder_files }
    ensures folders_later { N.folder_count ≤ F.faults result.folders }
    ensures console_later { C.faults console.old ≤ C.faults console.new }
{
    let SeatPlan {
        copies,
        base,
        front,
    } = plan;
    match open_kept::<N, F, J>(alloc, blank, copies, folders, base, 1, log) {
        Ok(opened) => serve_opened(rt, alloc, opened, &front, console),
        Err(UnopenedOf { folders, log }) => AtSeat {
            status: Status::Memory,
            folders,
            log,
        },
    }
}

/// Serves the console from the one seat of a hall that is opened with a plan and a log, which has a record of each entry, and closes it.
pub(crate) fn serve_seat<F: Folders, J: Log, C: Stream, R: Wait>(
    rt: &R,
    alloc: Global,
    plan: SeatPlan,
    folders: F,
    log: J,
    console: &mut C,
) -> AtSeat<F, J>
    requires length { J.length log ≡ length (entries_in plan.copies) }
    requires records { AreRecordsOf (J.records log) (entries_in plan.copies) }
    ensures ends { SeatEnds (shelf_of (F.files folders) plan.base) plan.front (entries_in plan.copies) (connection_between C.Stream console.old console.new)
        (reads_between C.Stream console.old console.new) (J.records result.log) (J.length result.log) result.status }
    ensures log_later { J.faults log ≤ J.faults result.log }
    ensures files { F.files result.folders ≡ F.files folders }
    ensures folders_later { F.faults folders ≤ F.faults result.folders }
    ensures console_later { C.faults console.old ≤ C.faults console.new }
{
    serve_under::<Brand, F, J, C, R>(rt, alloc, Blank::new(1), plan, folders, log, console)
}
