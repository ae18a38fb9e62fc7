//! A hall over the station, with a log or without, and what is done at its two seats, row by row.

ghost use Rattle.std.specs.Prelude.{◌≡◌, ◌+◌, ◌<◌, ◌≤◌, length, IfOk};
ghost use Rattle.shared_hall.specs.Copied.{entries_in, book_in};
ghost use Rattle.shared_hall.specs.Making.{shelf_of};
ghost use Rattle.shared_hall.specs.Standing.{AreRecordsOf};

use crate::seats::served;
use shared_hall::{
    Closed, Copies, HallName, Log, LoggedSeat, NoLog, OpenedOf, close_hall, open_kept,
};
use std::alloc::Global;
use std::marker::Brand;
use std::process::Abort;
use std::sync::Wait;
use std::sync::ledger::Blank;
use std::test::Fail;
use test_venues::{base, id, tail};
use venue_hall::{Asks, Hall};
use venue_ports::Folders;
use venue_types::{Ask, Change, Closure, ClosuresTold, FeatureId, Query, Reply, Text};

/// What a hall begins with: the two copies, the folders below a base, and a log.
#[derive(Drop)]
pub(crate) struct Beginning<F: Folders, J: Log> {
    pub(crate) copies: Copies,
    pub(crate) folders: F,
    pub(crate) base: Text,
    pub(crate) log: J,
}

/// What a hall that keeps its changes nowhere begins with.
pub(crate) fn unkept<F: Folders + Drop>(
    alloc: Global,
    copies: Copies,
    folders: F,
) -> Result<Beginning<F, NoLog>, Fail>
    ensures { IfOk result (λ it. it.log.count ≡ length (entries_in it.copies)) }
{
    let log = copies.no_log();
    Ok(Beginning {
        copies,
        folders,
        base: base(alloc)?,
        log,
    })
}

/// Whose seat it is: that of the first worker, or of the second.
#[derive(Clone, Copy)]
pub(crate) enum Who {
    One,
    Other,
}

/// What is done there. A feature is named by the last digits of its identifier.
#[derive(Clone, Copy)]
pub(crate) enum Deed {
    Close(u128),
    Reopen(u128),
    Publish(&'static str),
    Ask,
    Closures,
    CatchUp,
    Look,
    /// A session that sends these bytes.
    Serve(&'static str, &'static str),
}

/// What is then told, or seen.
#[derive(Clone, Copy, PartialEq, Eq)]
pub(crate) enum Told {
    /// The number, whether the feature is closed, whether that changed.
    Closure(u32, bool, bool),
    /// The number, how many features were dropped, and the last of these.
    Published(u32, usize, u128),
    /// The folders' counts of faults before and after.
    Fault(u64, u64),
    /// The log's counts of faults before and after.
    JournalFault(u64, u64),
    /// How many findings there are.
    Rejected(u64),
    Full(u32),
    /// The number, and how many features are closed.
    Version(u32, u32),
    /// The number, how many features are closed, and the last of these.
    Closures(u32, usize, u128),
    Seen(u32),
    NoFeature,
    /// The bytes that were expected of a session.
    Written,
    Else,
}

/// Who does what, and what is told.
pub(crate) type Row = (Who, Deed, Told);

// How many features these are, and how the last of them ends.
fn published(number: u32, dropped: &[FeatureId]) -> Told {
    let last = match dropped.last() {
        Some(id) => tail(*id),
        None => 0,
    };
    Told::Published(number, dropped.len(), last)
}

// How many features are closed, and how the last of them ends.
fn closures(told: &ClosuresTold) -> Told {
    let rows = told.closed.as_slice();
    let last = match rows.last() {
        Some(row) => tail(row.id),
        None => 0,
    };
    Told::Closures(told.number, rows.len(), last)
}

/// What a reply tells.
pub(crate) fn told_of(reply: &Reply) -> Told {
    match reply {
        Reply::ClosureDone(done) => Told::Closure(done.number, done.closed, done.changed),
        Reply::Published { number, dropped } => published(*number, dropped.as_slice()),
        Reply::FolderFault { before, after } => Told::Fault(*before, *after),
        Reply::JournalFault { before, after } => Told::JournalFault(*before, *after),
        Reply::Rejected(report) => Told::Rejected(report.total),
        Reply::HistoryFull { number } => Told::Full(*number),
        Reply::Version { number, closed, .. } => Told::Version(*number, *closed),
        Reply::Closures(told) => closures(told),
        Reply::NoFeature => Told::NoFeature,
        _ => Told::Else,
    }
}

/// Closes a feature for all, or opens it again.
pub(crate) fn closure<H: Hall>(seat: &mut H, tail: u128, closed: bool) -> Told
    ensures { (H.facts seat.new).parts ≡ (H.facts seat.old).parts }
{
    let change = Change::Closure(Closure {
        feature: id(tail),
        closed,
        profiles: None,
    });
    told_of(&seat.change(&change))
}

fn publication<H: Hall>(alloc: Global, seat: &mut H, folder: &str) -> Result<Told, Fail>
    ensures { (H.facts seat.new).parts ≡ (H.facts seat.old).parts }
{
    let folder = Text::from_string(String::from_str(alloc, folder)?);
    Ok(told_of(&seat.change(&Change::Publish { folder })))
}

/// Asks, at no certain version.
pub(crate) fn asked<H: Asks>(seat: &mut H, what: Ask) -> Told
    ensures { (H.facts seat.new).parts ≡ (H.facts seat.old).parts }
{
    let query = Query { since: None, what };
    told_of(&seat.ask(&query))
}

// A session that writes what is expected.
fn session<H: Hall>(
    alloc: Global,
    seat: &mut H,
    sent: &'static str,
    wanted: &'static str,
) -> Result<Told, Fail>
    ensures { (H.facts seat.new).parts ≡ (H.facts seat.old).parts }
{
    let written = served(alloc, seat, sent)?;
    Ok(if written.as_slice() == wanted.as_bytes() {
        Told::Written
    } else {
        Told::Else
    })
}

fn done<H: Hall>(alloc: Global, seat: &mut H, deed: Deed) -> Result<Told, Fail>
    ensures { (H.facts seat.new).parts ≡ (H.facts seat.old).parts }
{
    match deed {
        Deed::Close(tail) => Ok(closure(seat, tail, true)),
        Deed::Reopen(tail) => Ok(closure(seat, tail, false)),
        Deed::Publish(folder) => publication(alloc, seat, folder),
        Deed::Ask => Ok(asked(seat, Ask::Version)),
        Deed::Closures => Ok(asked(seat, Ask::Closures)),
        Deed::CatchUp => {
            seat.catch_up();
            Ok(Told::Seen(seat.number()))
        }
        Deed::Look => Ok(Told::Seen(seat.number())),
        Deed::Serve(sent, wanted) => session(alloc, seat, sent, wanted),
    }
}

fn judge_rows<H: Hall, R: Abort>(
    rt: &R,
    alloc: Global,
    one: &mut H,
    other: &mut H,
    rows: &[Row],
) -> Result<(), Fail>
    ensures one { (H.facts one.new).parts ≡ (H.facts one.old).parts }
    ensures other { (H.facts other.new).parts ≡ (H.facts other.old).parts }
{
    for row in rows {
        let (who, deed, told) = *row;
        let found = match who {
            Who::One => done(alloc, one, deed)?,
            Who::Other => done(alloc, other, deed)?,
        };
        assert!(rt; found == told);
    }
    Ok(())
}

// These rows at two seats of a hall under a name, which is then closed.
fn rows_under<N: HallName, F: Folders + Drop, J: Log + Drop, R: Abort + Wait>(
    rt: &R,
    alloc: Global,
    blank: Blank,
    beginning: Beginning<F, J>,
    rows: &[Row],
) -> Result<Closed<F, J>, Fail>
    requires name { blank.name ≡ N.name }
    requires parts { blank.parts ≡ N.parts }
    requires two { blank.parts ≡ 2 }
    requires book { book_in beginning.copies ≡ N.book }
    requires opening { entries_in beginning.copies ≡ N.opening }
    requires length { J.length beginning.log ≡ length (entries_in beginning.copies) }
    requires records { AreRecordsOf (J.records beginning.log) (entries_in beginning.copies) }
    requires count { N.folder_count ≤ F.faults beginning.folders }
    requires files { shelf_of (F.files beginning.folders) beginning.base ≡ N.folder_files }
    requires log_count { N.log_count ≤ J.faults beginning.log }
{
    let Beginning {
        copies,
        folders,
        base,
        log,
    } = beginning;
    let Ok(opened) = open_kept::<N, F, J>(alloc, blank, copies, folders, base, 2, log) else {
        return Err(Fail::new("no hall"));
    };
    let OpenedOf { office, passes } = opened;
    let mut passes = passes;
    let (Some(other), Some(one)) = (passes.pop(), passes.pop()) else {
        return Err(Fail::new("no two passes"));
    };
    let mut one = LoggedSeat::sit(rt, alloc, one, &office);
    let mut other = LoggedSeat::sit(rt, alloc, other, &office);
    judge_rows(rt, alloc, &mut one, &mut other, rows)?;
    passes.push(one.leave())?;
    passes.push(other.leave())?;
    Ok(close_hall(rt, office, passes))
}

/// These rows at the two seats of a hall, which is then closed.
pub(crate) fn rows_at<F: Folders + Drop, J: Log + Drop, R: Abort + Wait>(
    rt: &R,
    alloc: Global,
    beginning: Beginning<F, J>,
    rows: &[Row],
) -> Result<Closed<F, J>, Fail>
    requires length { J.length beginning.log ≡ length (entries_in beginning.copies) }
    requires records { AreRecordsOf (J.records beginning.log) (entries_in beginning.copies) }
{
    rows_under::<Brand, F, J, R>(rt, alloc, Blank::new(2), beginning, rows)
}
