//! Sessions over a stream in memory, whose input comes byte by byte: at a seat, and over the hall of one thread.

ghost use Rattle.std.specs.Prelude.{◌≡◌, ◌≤◌, length};
ghost use Rattle.shared_hall.specs.Making.{shelf_of};
ghost use Rattle.shared_hall.specs.Copied.{entries_in, book_in};

use crate::station::{base, venue_of};
use shared_hall::{Copies, HallName, Opened, Seat, open_hall, opening_entries};
use std::alloc::Global;
use std::marker::Brand;
use std::process::Abort;
use std::sync::ledger::Blank;
use std::sync::{Arc, Wait};
use std::test::Fail;
use test_station::{Change, folder_files, station_settings};
use venue_ports::{Folders, MemoryFolders, MemoryStream};
use venue_session::{End, serve_session};
use venue_types::Text;
use venue_wire::Front;
use version_board::{Alone, Hall, Unopened};

// The version asked for.
const VERSION: &str = "GET /v1/version HTTP/1.1\r\nhost: a\r\n\r\n";

// The lift closed.
const CLOSURE: &str =
    "POST /v1/closures HTTP/1.1\r\nhost: a\r\nx-staff-key: desk-key-1\r\ncontent-length: 64\r\n\r\n{\"feature\":\"00000000-0000-4000-8000-000000000301\",\"closed\":true}";

// The lift closed for wheelchairs alone.
const CLOSURE_FOR_SOME: &str =
    "POST /v1/closures HTTP/1.1\r\nhost: a\r\nx-staff-key: desk-key-1\r\ncontent-length: 90\r\n\r\n{\"feature\":\"00000000-0000-4000-8000-000000000301\",\"closed\":true,\"profiles\":[\"wheelchair\"]}";

// It opened again for those who walk.
const OPENING_FOR_SOME: &str =
    "POST /v1/closures HTTP/1.1\r\nhost: a\r\nx-staff-key: desk-key-1\r\ncontent-length: 85\r\n\r\n{\"feature\":\"00000000-0000-4000-8000-000000000301\",\"closed\":false,\"profiles\":[\"walk\"]}";

// It closed for a profile that there isn't.
const UNKNOWN: &str =
    "POST /v1/closures HTTP/1.1\r\nhost: a\r\nx-staff-key: desk-key-1\r\ncontent-length: 87\r\n\r\n{\"feature\":\"00000000-0000-4000-8000-000000000301\",\"closed\":true,\"profiles\":[\"bicycle\"]}";

// What is closed.
const CLOSURES: &str = "GET /v1/closures HTTP/1.1\r\nhost: a\r\n\r\n";

// The lift as a place.
const LIFT: &str = "GET /v1/place/00000000-0000-4000-8000-000000000301 HTTP/1.1\r\nhost: a\r\n\r\n";

// A way for a wheelchair, with its certificate.
const ROUTE: &str =
    "GET /v1/route?from=00000000-0000-4000-8000-000000000051&to=00000000-0000-4000-8000-000000000052&profile=wheelchair&certificate=yes HTTP/1.1\r\nhost: a\r\n\r\n";

// The same folder published again.
const PUBLICATION: &str =
    "POST /v1/publish HTTP/1.1\r\nhost: a\r\nx-staff-key: desk-key-1\r\ncontent-length: 20\r\n\r\n{\"folder\":\"station\"}";

// The head of a reply that tells what was asked.
const HEAD: &[u8] = b"HTTP/1.1 200 OK\r\n";

// What comes in a session.
#[derive(Clone, Copy)]
struct Sent<'a> {
    front: &'a Front,
    texts: &'a [&'static str],
}

// What was written, and how the session ended.
#[derive(Drop)]
struct Served {
    written: Vec<u8>,
    end: End,
}

fn stream(alloc: Global, texts: &[&'static str]) -> Result<MemoryStream, Fail> {
    let mut input = Vec::new(alloc);
    for text in texts {
        input.extend_from_slice(text.as_bytes())?;
    }
    let pieces = vec![in alloc; 1; input.len()]?;
    match MemoryStream::new(
        alloc,
        input,
        pieces,
        4_000,
        Vec::new(alloc),
        Vec::new(alloc),
    ) {
        Ok(stream) => Ok(stream),
        Err(_) => Err(Fail::new("no stream")),
    }
}

fn serve<H: Hall>(alloc: Global, hall: &mut H, sent: Sent<'_>) -> Result<Served, Fail> {
    let mut link = stream(alloc, sent.texts)?;
    let end = serve_session(alloc, hall, sent.front, &mut link);
    let mut written = Vec::new(alloc);
    written.extend_from_slice(link.written())?;
    Ok(Served { written, end })
}

fn folders(alloc: Global) -> Result<MemoryFolders, Fail> {
    let files = folder_files(alloc, "base/station", Change::of(&[]))?;
    match MemoryFolders::new(files, Vec::new(alloc)) {
        Ok(folders) => Ok(folders),
        Err(_) => Err(Fail::new("no folders")),
    }
}

// A session over the hall of one thread.
fn serve_alone(alloc: Global, sent: Sent<'_>) -> Result<Served, Fail> {
    let settings = Arc::new(alloc, station_settings(alloc)?)?;
    let venue = venue_of(alloc, &settings)?;
    match Alone::begin(alloc, settings, venue, folders(alloc)?, base(alloc)?) {
        Ok(mut hall) => serve(alloc, &mut hall, sent),
        Err(Unopened { .. }) => Err(Fail::new("no hall")),
    }
}

// A session at the one seat of a hall under a name.
fn serve_under<N: HallName, F: Folders + Drop, R: Wait>(
    rt: &R,
    alloc: Global,
    blank: Blank,
    copies: Copies,
    folders: F,
    base: Text,
    sent: Sent<'_>,
) -> Result<Served, Fail>
    requires name { blank.name ≡ N.name }
    requires parts { blank.parts ≡ N.parts }
    requires one { blank.parts ≡ 1 }
    requires book { book_in copies ≡ N.book }
    requires opening { entries_in copies ≡ N.opening }
    requires count { N.folder_count ≤ F.faults folders }
    requires files { shelf_of (F.files folders) base ≡ N.folder_files }
    requires log_count { N.log_count ≡ 0 }
{
    let Ok(opened) = open_hall::<N, F>(alloc, blank, copies, folders, base, 1) else {
        return Err(Fail::new("no hall"));
    };
    let Opened { office, passes } = opened;
    let mut passes = passes;
    let Some(pass) = passes.pop() else {
        return Err(Fail::new("no pass"));
    };
    let mut seat = Seat::sit(rt, alloc, pass, &office);
    serve(alloc, &mut seat, sent)
}

fn serve_at<F: Folders + Drop, R: Wait>(
    rt: &R,
    alloc: Global,
    copies: Copies,
    folders: F,
    base: Text,
    sent: Sent<'_>,
) -> Result<Served, Fail> {
    serve_under::<Brand, F, R>(rt, alloc, Blank::new(1), copies, folders, base, sent)
}

// A session at a seat.
fn serve_seated<R: Wait>(rt: &R, alloc: Global, sent: Sent<'_>) -> Result<Served, Fail> {
    let settings = Arc::new(alloc, station_settings(alloc)?)?;
    let venue = venue_of(alloc, &settings)?;
    let entries = opening_entries(alloc, venue)?;
    let copies = Copies::new(rt, alloc, settings, entries, 1)?;
    serve_at(rt, alloc, copies, folders(alloc)?, base(alloc)?, sent)
}

// Both say the same, and the first reply tells what was asked.
fn judge<R: Abort + Wait>(rt: &R, alloc: Global, sent: Sent<'_>) -> Result<(), Fail> {
    let alone = serve_alone(alloc, sent)?;
    let seated = serve_seated(rt, alloc, sent)?;
    assert!(rt; alone.written.as_slice().starts_with(HEAD));
    assert!(rt; seated.written.as_slice() == alone.written.as_slice());
    assert!(rt; alone.end == End::Done);
    assert!(rt; seated.end == End::Done);
    Ok(())
}

#[test]
fn a_seat_says_the_same(rt: HostRuntime) -> Result<(), Fail> {
    let alloc = rt.alloc();
    let settings = station_settings(alloc)?;
    let front = Front::new(alloc, &settings.staff_keys)?;
    let rows: [&[&'static str]; 5] = [
        &[VERSION, VERSION],
        &[CLOSURE, ROUTE],
        &[CLOSURE_FOR_SOME, LIFT, UNKNOWN, CLOSURES, ROUTE],
        &[
            CLOSURE,
            CLOSURE_FOR_SOME,
            OPENING_FOR_SOME,
            OPENING_FOR_SOME,
            CLOSURES,
            LIFT,
            ROUTE,
        ],
        &[PUBLICATION, VERSION],
    ];
    for texts in rows {
        judge(
            &rt,
            alloc,
            Sent {
                front: &front,
                texts,
            },
        )?;
    }
    Ok(())
}
