//! Sessions at two seats of one hall over the station, while a disk or a client fails.

ghost use Rattle.std.specs.Prelude.{◌≡◌, ◌≤◌, None, length};
ghost use Rattle.venue_ports.specs.InMemory.{stream_left, stream_written, stream_starts, stream_faults};
ghost use Rattle.venue_program.specs.Making.{shelf_of};
ghost use Rattle.venue_program.specs.Copied.{entries_in, book_in};

use super::outside::{base, folders, joined, stream, venue_of};
use super::texts::{CLOSURE, FOLDER_FAULT, NEW_FOLDER, PUBLICATION, PUBLISHED};
use std::alloc::Global;
use std::marker::Brand;
use std::process::Abort;
use std::sync::ledger::Blank;
use std::sync::{Arc, Wait};
use std::test::Fail;
use test_station::{CLOSED_LIFT, Change as Edits, FIRST, VERSION, folder_files, station_settings};
use venue_ports::{Failed, Folders, MemoryStream, Stream};
use venue_program::{
    Copies, End, Hall, HallName, Opened, Seat, close_hall, open_hall, opening_entries,
    serve_session,
};
use venue_types::{Change, Text};
use venue_wire::Front;

// Whose seat it is.
#[derive(Clone, Copy)]
enum Who {
    One,
    Other,
}

// At whose seat there is a session, what comes, which write fails (0: none), what is written, and how it ends.
type Row = (Who, &'static str, u64, &'static str, End);

// The sessions at a hall, and how many changes there were at its close.
#[derive(Clone, Copy)]
struct Case {
    rows: &'static [Row],
    changes: u32,
    folder_faults: u64,
}

// The read of a folder's file fails, and then none does.
const READ_FAILS: Case = Case {
    rows: &[
        (Who::One, PUBLICATION, 0, FOLDER_FAULT, End::Done),
        (Who::One, VERSION, 0, FIRST, End::Done),
        (Who::Other, VERSION, 0, FIRST, End::Done),
        (Who::One, PUBLICATION, 0, PUBLISHED, End::Done),
        (Who::Other, VERSION, 0, NEW_FOLDER, End::Done),
    ],
    changes: 1,
    folder_faults: 1,
};

// The first write of a closure fails.
const WRITE_FAILS: Case = Case {
    rows: &[
        (Who::One, CLOSURE, 1, "", End::LinkFault),
        (Who::One, VERSION, 0, CLOSED_LIFT, End::Done),
        (Who::Other, VERSION, 0, CLOSED_LIFT, End::Done),
    ],
    changes: 1,
    folder_faults: 0,
};

// Behind a publication at the other seat.
const PUBLISHED_MEANWHILE: [Row; 2] = [
    (Who::One, VERSION, 0, NEW_FOLDER, End::Done),
    (Who::Other, VERSION, 0, NEW_FOLDER, End::Done),
];

fn judge_session<H: Hall, R: Abort>(
    rt: &R,
    alloc: Global,
    hall: &mut H,
    front: &Front,
    row: &Row,
) -> Result<(), Fail>
    ensures { (H.facts hall.new).parts ≡ (H.facts hall.old).parts }
{
    let (_, input, failing, written, end) = *row;
    let input = joined(alloc, &[input])?;
    let mut link = stream(alloc, input, 0, 1_000, [0, failing])?;
    let ended = serve_session(alloc, hall, front, &mut link);
    assert!(rt; str::from_utf8(link.written()) == Ok(written));
    assert!(rt; ended == end);
    Ok(())
}

fn judge_rows<H: Hall, R: Abort>(
    rt: &R,
    alloc: Global,
    one: &mut H,
    other: &mut H,
    front: &Front,
    rows: &[Row],
) -> Result<(), Fail>
    ensures one { (H.facts one.new).parts ≡ (H.facts one.old).parts }
    ensures other { (H.facts other.new).parts ≡ (H.facts other.old).parts }
{
    for row in rows {
        match row.0 {
            Who::One => judge_session(rt, alloc, one, front, row)?,
            Who::Other => judge_session(rt, alloc, other, front, row)?,
        }
    }
    Ok(())
}

// Makes a change at a seat, whatever is told of it.
fn change_at<H: Hall>(seat: &mut H, change: &Change) {
    let _reply = seat.change(change);
}

// A stream that takes the front of a reply, then lets another seat publish, and fails.
#[derive(Drop)]
struct Interrupted<'a, H> {
    stream: MemoryStream,
    other: &'a mut H,
    publication: Change,
}

impl<'a, H: Hall> Stream for Interrupted<'a, H> {
    ghost left = { λ s. stream_left s.stream };

    ghost written = { λ s. stream_written s.stream };

    ghost starts = { λ s. stream_starts s.stream };

    ghost faults = { λ s. stream_faults s.stream };

    fn fault_count(&self) -> u64 {
        self.stream.fault_count()
    }

    fn read(&mut self, buf: &mut [u8]) -> Result<usize, Failed> {
        self.stream.read(buf)
    }

    fn write(&mut self, piece: &[u8]) -> Result<usize, Failed> {
        if !self.stream.written().is_empty() {
            change_at(self.other, &self.publication);
        }
        self.stream.write(piece)
    }
}

// Asks for the version at one seat over a link with room for the 71 bytes of the head alone, while the other publishes.
fn interrupt<H: Hall>(
    alloc: Global,
    one: &mut H,
    other: &mut H,
    front: &Front,
) -> Result<(End, Vec<u8>), Fail> {
    let input = joined(alloc, &[VERSION])?;
    let folder = Text::from_string(String::from_str(alloc, "station")?);
    let mut link = Interrupted {
        stream: stream(alloc, input, 0, 71, [0, 0])?,
        other,
        publication: Change::Publish { folder },
    };
    let end = serve_session(alloc, one, front, &mut link);
    let written = Vec::from_slice(alloc, link.stream.written())?;
    Ok((end, written))
}

fn judge_interrupted<H: Hall, R: Abort>(
    rt: &R,
    alloc: Global,
    one: &mut H,
    other: &mut H,
    front: &Front,
) -> Result<(), Fail> {
    let (end, written) = interrupt(alloc, one, other, front)?;
    assert!(rt; end == End::LinkFault);
    assert!(rt; written.len() == 71);
    assert!(rt; FIRST.as_bytes().starts_with(written.as_slice()));
    assert!(rt; one.number() == 1);
    assert!(rt; other.number() == 2);
    judge_rows(rt, alloc, one, other, front, &PUBLISHED_MEANWHILE)
}

// A case at two seats of a hall under a name, which is then closed; without a case a publication in the middle of a reply.
fn judge_under<N: HallName, F: Folders + Drop, R: Abort + Wait>(
    rt: &R,
    alloc: Global,
    blank: Blank,
    copies: Copies,
    folders: F,
    base: Text,
    front: &Front,
    case: Option<Case>,
) -> Result<(), Fail>
    requires name { blank.name ≡ N.name }
    requires parts { blank.parts ≡ N.parts }
    requires two { blank.parts ≡ 2 }
    requires book { book_in copies ≡ N.book }
    requires opening { entries_in copies ≡ N.opening }
    requires count { N.folder_count ≤ F.faults folders }
    requires files { shelf_of (F.files folders) base ≡ N.folder_files }
    requires log_count { N.log_count ≡ 0 }
{
    let Ok(opened) = open_hall::<N, F>(alloc, blank, copies, folders, base, 2) else {
        return Err(Fail::new("no hall"));
    };
    let Opened { office, passes } = opened;
    let mut passes = passes;
    let (Some(other), Some(one)) = (passes.pop(), passes.pop()) else {
        return Err(Fail::new("no two passes"));
    };
    let mut one = Seat::sit(rt, alloc, one, &office);
    let mut other = Seat::sit(rt, alloc, other, &office);
    let Some(case) = case else {
        return judge_interrupted(rt, alloc, &mut one, &mut other, front);
    };
    judge_rows(rt, alloc, &mut one, &mut other, front, case.rows)?;
    passes.push(one.leave())?;
    passes.push(other.leave())?;
    let closed = close_hall(rt, office, passes);
    assert!(rt; closed.changes == case.changes);
    assert!(rt; closed.folders.fault_count() == case.folder_faults);
    Ok(())
}

fn judge_at<F: Folders + Drop, R: Abort + Wait>(
    rt: &R,
    alloc: Global,
    copies: Copies,
    folders: F,
    base: Text,
    front: &Front,
    case: Option<Case>,
) -> Result<(), Fail> {
    judge_under::<Brand, F, R>(rt, alloc, Blank::new(2), copies, folders, base, front, case)
}

// A case over the station's folder, of which the read with this number fails.
fn judge<R: Abort + Wait>(
    rt: &R,
    alloc: Global,
    failing: u64,
    case: Option<Case>,
) -> Result<(), Fail> {
    let settings = Arc::new(alloc, station_settings(alloc)?)?;
    let front = Front::new(alloc, &settings.staff_keys)?;
    let venue = venue_of(alloc, &settings)?;
    let entries = opening_entries(alloc, venue)?;
    let copies = Copies::new(rt, alloc, settings, entries, 2)?;
    let files = folder_files(alloc, "base/station", Edits::of(&[]))?;
    let folders = folders(alloc, files, failing)?;
    judge_at(rt, alloc, copies, folders, base(alloc)?, &front, case)
}

pub(super) fn each_read_of_a_publication_fails_at_a_seat(
    rt: &(impl Abort + Wait),
    alloc: Global,
) -> Result<(), Fail> {
    for read in 1..=17 {
        judge(rt, alloc, read, Some(READ_FAILS))?;
    }
    Ok(())
}

pub(super) fn the_write_of_a_closure_fails_at_a_seat(
    rt: &(impl Abort + Wait),
    alloc: Global,
) -> Result<(), Fail> {
    judge(rt, alloc, 0, Some(WRITE_FAILS))
}

pub(super) fn a_folder_is_published_in_the_middle_of_a_reply(
    rt: &(impl Abort + Wait),
    alloc: Global,
) -> Result<(), Fail> {
    judge(rt, alloc, 0, None)
}
