//! Workers side by side at one hall, each of which turns a door of its own.

ghost use Rattle.std.specs.Prelude.{◌≡◌, ◌+◌, ◌<◌, ◌≤◌, length, IfOk};
ghost use Rattle.shared_hall.specs.Copied.{entries_in, book_in};
ghost use Rattle.shared_hall.specs.Making.{shelf_of};
ghost use Rattle.shared_hall.specs.Offices.{parts_of};
ghost use Rattle.shared_hall.specs.Standing.{AreRecordsOf};

use crate::answers::Answers;
use crate::halls::{Beginning, Told, asked, closure};
use shared_hall::{
    Closed, HallName, Log, LoggedOffice, LoggedSeat, OpenedOf, Pass, close_hall, open_kept,
};
use std::alloc::{AllocError, Global};
use std::marker::Brand;
use std::process::Abort;
use std::sync::ledger::Blank;
use std::sync::{Mutex, Wait};
use std::test::Fail;
use std::thread;
use std::thread::Threads;
use venue_hall::Hall;
use venue_ports::Folders;
use venue_types::Ask;

/// What each worker does so many times.
#[derive(Clone, Copy)]
pub(crate) enum Task<'a> {
    /// Closes its door, asks, and opens the door again: each is done, and the numbers never fall.
    Ask(u32),
    /// Closes its door or opens it again, by turns, and notes what is accepted.
    Note(u32, &'a Answers),
}

/// The door of the worker at this place.
pub(crate) fn door(place: usize) -> u128 {
    const DOORS: [u128; 4] = [0x0101, 0x0021, 0x0301, 0x0401];
    DOORS[place % DOORS.len()]
}

fn numbered(told: Told) -> u32 {
    match told {
        Told::Closure(number, _, true) | Told::Version(number, _) => number,
        _ => 0,
    }
}

fn ask<H: Hall, R: Abort>(rt: &R, seat: &mut H, tail: u128, times: u32)
    ensures { (H.facts seat.new).parts ≡ (H.facts seat.old).parts }
{
    for _ in 0..times {
        let before = seat.number();
        let closed = numbered(closure(seat, tail, true));
        let found = numbered(asked(seat, Ask::Version));
        let opened = numbered(closure(seat, tail, false));
        assert!(rt; before < closed && closed <= found && found < opened);
        assert!(rt; seat.number() == opened);
    }
}

fn note<H: Hall>(seat: &mut H, place: usize, times: u32, answers: &Answers)
    ensures { (H.facts seat.new).parts ≡ (H.facts seat.old).parts }
{
    let mut is_closed = false;
    for _ in 0..times {
        let number = numbered(closure(seat, door(place), !is_closed));
        if number > 0 {
            is_closed = !is_closed;
            answers.note(number, place, is_closed);
        }
    }
}

fn work<H: Hall, R: Abort>(rt: &R, place: usize, seat: &mut H, task: Task<'_>)
    ensures { (H.facts seat.new).parts ≡ (H.facts seat.old).parts }
{
    match task {
        Task::Ask(times) => ask(rt, seat, door(place), times),
        Task::Note(times, answers) => note(seat, place, times, answers),
    }
}

fn work_all<
    N: HallName + Send + Sync,
    F: Folders + Drop + Send,
    J: Log + Drop + Send,
    R: Abort + Threads + Wait + Sync,
>(rt: &R, seats: &mut [LoggedSeat<'_, N, F, J, R>], task: Task<'_>)
    requires { 0 < length seats.old }
    ensures count { length seats.new ≡ length seats.old }
    ensures parts { parts_of seats.new ≡ parts_of seats.old }
{
    let threads = seats.len();
    thread::for_each_mut(
        rt,
        seats,
        threads,
        &|place, seat| work(rt, place, seat, task),
    );
}

fn sit_all<'a, N: HallName, F: Folders + Drop, J: Log + Drop, R>(
    rt: &'a R,
    alloc: Global,
    office: &'a Mutex<LoggedOffice<N, F, J>>,
    passes: Vec<Pass<N>>,
) -> Result<Vec<LoggedSeat<'a, N, F, J, R>>, AllocError>
    ensures count { IfOk result (λ seats. length seats.items ≡ length passes.items) }
    ensures parts { IfOk result (λ seats. parts_of seats.items ≡ parts_of passes.items) }
{
    let mut passes = passes;
    let mut seats = Vec::new(alloc);
    while let Some(pass) = passes.pop() {
        seats.push(LoggedSeat::sit(rt, alloc, pass, office))?;
    }
    Ok(seats)
}

fn leave_all<N: HallName, F: Folders + Drop, J: Log + Drop, R>(
    alloc: Global,
    seats: Vec<LoggedSeat<'_, N, F, J, R>>,
) -> Result<Vec<Pass<N>>, AllocError>
    ensures count { IfOk result (λ passes. length passes.items ≡ length seats.entry.items) }
    ensures parts { IfOk result (λ passes. parts_of passes.items ≡ parts_of seats.entry.items) }
{
    let mut seats = seats;
    let mut passes = Vec::new(alloc);
    while let Some(seat) = seats.pop() {
        passes.push(seat.leave())?;
    }
    Ok(passes)
}

// Workers side by side at a hall under a name, which is then closed.
fn work_under<
    N: HallName + Send + Sync,
    F: Folders + Drop + Send,
    J: Log + Drop + Send,
    R: Abort + Threads + Wait + Sync,
>(
    rt: &R,
    alloc: Global,
    blank: Blank,
    beginning: Beginning<F, J>,
    workers: u8,
    task: Task<'_>,
) -> Result<Closed<F, J>, Fail>
    requires some { 1 ≤ workers }
    requires range { workers ≤ 16 }
    requires name { blank.name ≡ N.name }
    requires parts { blank.parts ≡ N.parts }
    requires share { blank.parts ≡ workers }
    requires book { book_in beginning.copies ≡ N.book }
    requires opening { entries_in beginning.copies ≡ N.opening }
    requires length { J.length beginning.log ≡ length (entries_in beginning.copies) }
    requires records { AreRecordsOf (J.records beginning.log) (entries_in beginning.copies) }
    requires count { N.folder_count ≤ F.faults beginning.folders }
    requires files { shelf_of (F.files beginning.folders) beginning.base ≡ N.folder_files }
    requires log_count { N.log_count ≤ J.faults beginning.log }
{
    let Beginning {
        copies,
        folders,
        base,
        log,
    } = beginning;
    let Ok(opened) = open_kept::<N, F, J>(alloc, blank, copies, folders, base, workers, log) else {
        return Err(Fail::new("no hall"));
    };
    let OpenedOf { office, passes } = opened;
    let mut seats = sit_all(rt, alloc, &office, passes)?;
    work_all(rt, seats.as_mut_slice(), task);
    let passes = leave_all(alloc, seats)?;
    Ok(close_hall(rt, office, passes))
}

/// One to sixteen workers side by side at a hall, which is then closed.
pub(crate) fn work_at<
    F: Folders + Drop + Send,
    J: Log + Drop + Send,
    R: Abort + Threads + Wait + Sync,
>(
    rt: &R,
    alloc: Global,
    beginning: Beginning<F, J>,
    workers: u8,
    task: Task<'_>,
) -> Result<Closed<F, J>, Fail>
    requires some { 1 ≤ workers }
    requires range { workers ≤ 16 }
    requires length { J.length beginning.log ≡ length (entries_in beginning.copies) }
    requires records { AreRecordsOf (J.records beginning.log) (entries_in beginning.copies) }
{
    let blank = Blank::new(u64::from(workers));
    work_under::<Brand, F, J, R>(rt, alloc, blank, beginning, workers, task)
}
