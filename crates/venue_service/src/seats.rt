//! Passes that take seats, work, and leave again.

ghost use Rattle.std.specs.Prelude.{◌≡◌, ◌⊎◌, ◌<◌, ◌≤◌, ℕ, length, true, IfSome};
ghost use Rattle.venue_types.specs.Room.{HasRoom};
ghost use Rattle.shared_hall.specs.Facts.{IsSameHall};
ghost use Rattle.shared_hall.specs.Offices.{parts_of};

use crate::desk::{DoorDesk, Next};
use crate::worker::work;
use shared_hall::{HallName, Log, LoggedOffice, LoggedSeat, Pass};
use std::alloc::Global;
use std::sync::{Mutex, Wait};
use std::thread;
use std::thread::Threads;
use venue_ports::{Doors, Folders};
use venue_types::push_reserved;
use venue_wire::Front;

/// Gives each pass a seat, in turn. There is room for them.
pub(crate) fn sit_all<'a, N: HallName, F: Folders, J: Log, R>(
    rt: &'a R,
    alloc: Global,
    office: &'a Mutex<LoggedOffice<N, F, J>>,
    passes: Vec<Pass<N>>,
    seats: &mut Vec<LoggedSeat<'a, N, F, J, R>>,
)
    requires room { HasRoom seats.old (length passes.items) }
    requires none { length seats.old.items ≡ 0 }
    ensures count { length seats.new.items ≡ length passes.items }
    ensures parts { parts_of seats.new.items ≡ parts_of passes.items }
{
    for pass in passes {
        push_reserved(seats, LoggedSeat::sit(rt, alloc, pass, office));
    }
}

/// Takes the passes from their seats. There is room for them.
pub(crate) fn leave_all<N: HallName, F: Folders, J: Log, R>(
    seats: Vec<LoggedSeat<'_, N, F, J, R>>,
    passes: &mut Vec<Pass<N>>,
)
    requires room { HasRoom passes.old (length seats.items) }
    requires none { length passes.old.items ≡ 0 }
    ensures count { length passes.new.items ≡ length seats.entry.items }
    ensures parts { parts_of passes.new.items ≡ parts_of seats.entry.items }
{
    for seat in seats {
        push_reserved(passes, seat.leave());
    }
}

// Serves at one seat what is left, unless an accept failed before.
fn work_rest<N: HallName, F: Folders, J: Log, D: Doors, R: Wait>(
    alloc: Global,
    seat: &mut LoggedSeat<'_, N, F, J, R>,
    desk: &mut DoorDesk<N, D>,
    front: &Front,
)
    requires keys { front.now ≡ N.keys }
    ensures same { IsSameHall seat.old seat.new }
    ensures ended { (desk.new.left ≡ 0) ⊎ (desk.new.failed ≡ true) }
{
    while !desk.failed() {
        match desk.next() {
            Next::Conn(guest) => {
                let (_end, _conn) = guest.serve(alloc, seat, front);
            }
            Next::Nobody => return,
            Next::Failed => return,
        }
    }
}

// Works at all seats at once, as far as threads can be made.
fn work_each<
    N: HallName + Send + Sync,
    F: Folders + Send,
    J: Log + Send,
    D: Doors + Send,
    R: Threads + Wait + Sync,
>(
    rt: &R,
    alloc: Global,
    seats: &mut [LoggedSeat<'_, N, F, J, R>],
    desk: &Mutex<DoorDesk<N, D>>,
    front: &Front,
)
    requires some { 0 < length seats.old }
    requires keys { front.now ≡ N.keys }
    ensures count { length seats.new ≡ length seats.old }
    ensures parts { parts_of seats.new ≡ parts_of seats.old }
{
    let threads = seats.len();
    thread::for_each_mut(
        rt,
        seats,
        threads,
        &|_, seat|
            requires { front.now ≡ N.keys }
        { work(rt, alloc, seat, desk, front) },
    );
}

// Serves at the first seat what is left, unless an accept failed before.
fn work_first<N: HallName, F: Folders, J: Log, D: Doors, R: Wait>(
    alloc: Global,
    seats: &mut [LoggedSeat<'_, N, F, J, R>],
    desk: &mut DoorDesk<N, D>,
    front: &Front,
)
    requires some { 0 < length seats.old }
    requires keys { front.now ≡ N.keys }
    ensures count { length seats.new ≡ length seats.old }
    ensures parts { parts_of seats.new ≡ parts_of seats.old }
    ensures ended { (desk.new.left ≡ 0) ⊎ (desk.new.failed ≡ true) }
{
    work_rest(alloc, &mut seats[0], desk, front);
}

/// Works at all seats at once, as far as threads can be made, and then serves at the first what is left.
pub(crate) fn work_all<
    N: HallName + Send + Sync,
    F: Folders + Send,
    J: Log + Send,
    D: Doors + Send,
    R: Threads + Wait + Sync,
>(
    rt: &R,
    alloc: Global,
    seats: &mut [LoggedSeat<'_, N, F, J, R>],
    desk: Mutex<DoorDesk<N, D>>,
    front: &Front,
) -> DoorDesk<N, D>
    requires some { 0 < length seats.old }
    requires keys { front.now ≡ N.keys }
    ensures count { length seats.new ≡ length seats.old }
    ensures parts { parts_of seats.new ≡ parts_of seats.old }
    ensures ended { (result.left ≡ 0) ⊎ (result.failed ≡ true) }
{
    work_each(rt, alloc, seats, &desk, front);
    let mut desk = desk.into_inner();
    work_first(alloc, seats, &mut desk, front);
    desk
}
