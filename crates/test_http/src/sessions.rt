//! Sessions over streams in memory: what is written, and how they end, was worked out by hand.

ghost use Rattle.std.specs.Prelude.{◌≡◌};
ghost use Rattle.std.specs.Arc.{arc_value};

use crate::station::{base, venue_of};
use std::alloc::Global;
use std::process::Abort;
use std::sync::Arc;
use std::test::Fail;
use test_station::{AS_ASKED, CLOSED_LIFT, FIRST, LIFT_CLOSED, VERSION, station_settings};
use venue_ports::{MemoryFolders, MemoryStream};
use venue_session::{End, Venue, serve_session};
use venue_types::Settings;
use venue_wire::Front;
use version_board::{Alone, Hall, Unopened};

// It is asked for, and nothing else.
const LAST: &str = "GET /v1/version HTTP/1.1\r\nhost: a\r\nconnection: close\r\n\r\n";

// The same by a method that no path has.
const HEAD: &str = "HEAD /v1/version HTTP/1.1\r\nhost: a\r\n\r\n";

// The begin of the same with a field to be filled.
const PADDED: &str = "GET /v1/version HTTP/1.1\r\nhost: a\r\nx: ";

// Version 9 or a later one is asked for.
const SINCE: &str = "GET /v1/version?since=9 HTTP/1.1\r\nhost: a\r\n\r\n";

// There are two hosts.
const TWICE: &str = "GET /v1/version HTTP/1.1\r\nhost: a\r\nhost: b\r\n\r\n";

// The head of a request of staff, 84 bytes.
const CLOSURE: &str =
    "POST /v1/closures HTTP/1.1\r\nhost: a\r\nx-staff-key: desk-key-1\r\ncontent-length: 64\r\n\r\n";

// Its body, 64 bytes: the lift is to be closed.
const LIFT: &str = "{\"feature\":\"00000000-0000-4000-8000-000000000301\",\"closed\":true}";

// The lift is to be closed for wheelchairs alone.
const CLOSURE_FOR_SOME: &str =
    "POST /v1/closures HTTP/1.1\r\nhost: a\r\nx-staff-key: desk-key-1\r\ncontent-length: 90\r\n\r\n{\"feature\":\"00000000-0000-4000-8000-000000000301\",\"closed\":true,\"profiles\":[\"wheelchair\"]}";

// And for a profile that there isn't.
const CLOSURE_FOR_UNKNOWN: &str =
    "POST /v1/closures HTTP/1.1\r\nhost: a\r\nx-staff-key: desk-key-1\r\ncontent-length: 87\r\n\r\n{\"feature\":\"00000000-0000-4000-8000-000000000301\",\"closed\":true,\"profiles\":[\"bicycle\"]}";

// What is closed.
const CLOSURES: &str = "GET /v1/closures HTTP/1.1\r\nhost: a\r\n\r\n";

// The lift as a place.
const PLACE: &str =
    "GET /v1/place/00000000-0000-4000-8000-000000000301 HTTP/1.1\r\nhost: a\r\n\r\n";

// Version 1, and the end.
const FIRST_LAST: &str =
    "HTTP/1.1 200 OK\r\ncontent-type: application/json\r\ncontent-length: 36\r\nconnection: close\r\n\r\n{\"closed\":0,\"places\":33,\"version\":1}";

// It was closed for wheelchairs.
const CLOSED_FOR_SOME: &str =
    "HTTP/1.1 200 OK\r\ncontent-type: application/json\r\ncontent-length: 117\r\n\r\n{\"changed\":true,\"closed\":true,\"feature\":\"00000000-0000-4000-8000-000000000301\",\"profiles\":[\"wheelchair\"],\"version\":2}";

// Closed for wheelchairs it is the only one.
const ONE_CLOSED: &str =
    "HTTP/1.1 200 OK\r\ncontent-type: application/json\r\ncontent-length: 103\r\n\r\n{\"closures\":[{\"feature\":\"00000000-0000-4000-8000-000000000301\",\"profiles\":[\"wheelchair\"]}],\"version\":2}";

// It as a place then.
const PLACE_FOR_SOME: &str =
    "HTTP/1.1 200 OK\r\ncontent-type: application/json\r\ncontent-length: 136\r\n\r\n{\"closed\":false,\"id\":\"00000000-0000-4000-8000-000000000301\",\"kind\":\"unit\",\"name\":null,\"ordinal\":0,\"profiles\":[\"wheelchair\"],\"version\":2}";

// It was closed for all.
const CLOSED_FOR_ALL: &str =
    "HTTP/1.1 200 OK\r\ncontent-type: application/json\r\ncontent-length: 91\r\n\r\n{\"changed\":true,\"closed\":true,\"feature\":\"00000000-0000-4000-8000-000000000301\",\"version\":3}";

// So it stands in the list by its identifier.
const ALL_CLOSED: &str =
    "HTTP/1.1 200 OK\r\ncontent-type: application/json\r\ncontent-length: 65\r\n\r\n{\"closures\":[\"00000000-0000-4000-8000-000000000301\"],\"version\":3}";

const NO_PROFILE: &str =
    "HTTP/1.1 404 Not Found\r\ncontent-type: application/json\r\ncontent-length: 27\r\n\r\n{\"error\":\"no_such_profile\"}";

const AHEAD: &str =
    "HTTP/1.1 409 Conflict\r\ncontent-type: application/json\r\ncontent-length: 47\r\n\r\n{\"error\":\"version_ahead\",\"since\":9,\"version\":1}";

// The head of what a refused method is told, without the body.
const BARE: &str =
    "HTTP/1.1 405 Method Not Allowed\r\ncontent-type: application/json\r\ncontent-length: 18\r\nallow: GET\r\nconnection: close\r\n\r\n";

const TOO_LARGE: &str =
    "HTTP/1.1 431 Request Header Fields Too Large\r\ncontent-type: application/json\r\ncontent-length: 26\r\nconnection: close\r\n\r\n{\"error\":\"head_too_large\"}";

const BAD_HEAD: &str =
    "HTTP/1.1 400 Bad Request\r\ncontent-type: application/json\r\ncontent-length: 20\r\nconnection: close\r\n\r\n{\"error\":\"bad_head\"}";

// The sizes of pieces in which each input comes, in turn; 0 where it comes whole.
static PIECES: [usize; 3] = [0, 1, 7];

// What comes, what is written for it, and how the session then ends.
#[derive(Clone, Copy)]
struct Row {
    input: &'static [&'static str],
    // How many letters stand for the sign `*` in the input.
    fill: usize,
    // Which write fails, from 1.
    failing_write: u64,
    written: &'static [&'static str],
    end: End,
}

// Whole sessions.
const ROWS: [Row; 16] = [
    // Nothing.
    Row {
        input: &[],
        fill: 0,
        failing_write: 0,
        written: &[],
        end: End::Done,
    },
    // A version.
    Row {
        input: &[VERSION],
        fill: 0,
        failing_write: 0,
        written: &[FIRST],
        end: End::Done,
    },
    // Two versions.
    Row {
        input: &[VERSION, VERSION],
        fill: 0,
        failing_write: 0,
        written: &[FIRST, FIRST],
        end: End::Done,
    },
    // Ten bytes more.
    Row {
        input: &[VERSION, VERSION, "GET /v1/ve"],
        fill: 0,
        failing_write: 0,
        written: &[FIRST, FIRST],
        end: End::Cut(10),
    },
    // A line end more.
    Row {
        input: &[VERSION, "\n"],
        fill: 0,
        failing_write: 0,
        written: &[FIRST],
        end: End::Cut(1),
    },
    // Behind the last.
    Row {
        input: &[LAST, VERSION],
        fill: 0,
        failing_write: 0,
        written: &[FIRST_LAST],
        end: End::Done,
    },
    // A version behind HEAD.
    Row {
        input: &[HEAD, VERSION],
        fill: 0,
        failing_write: 0,
        written: &[BARE],
        end: End::Done,
    },
    // A head of 16,385 bytes.
    Row {
        input: &[PADDED, "*", "\r\n\r\n"],
        fill: 16_343,
        failing_write: 0,
        written: &[TOO_LARGE],
        end: End::Refused(431),
    },
    // A head of 16,384 bytes.
    Row {
        input: &[PADDED, "*", "\r\n\r\n"],
        fill: 16_342,
        failing_write: 0,
        written: &[FIRST],
        end: End::Done,
    },
    // Two hosts.
    Row {
        input: &[VERSION, TWICE, VERSION],
        fill: 0,
        failing_write: 0,
        written: &[FIRST, BAD_HEAD],
        end: End::Refused(400),
    },
    // A closure.
    Row {
        input: &[CLOSURE, LIFT, VERSION, CLOSURE, LIFT],
        fill: 0,
        failing_write: 0,
        written: &[LIFT_CLOSED, CLOSED_LIFT, AS_ASKED],
        end: End::Done,
    },
    // A closure for some.
    Row {
        input: &[
            CLOSURE_FOR_SOME,
            CLOSURES,
            PLACE,
            CLOSURE_FOR_UNKNOWN,
            CLOSURE,
            LIFT,
            CLOSURES,
        ],
        fill: 0,
        failing_write: 0,
        written: &[
            CLOSED_FOR_SOME,
            ONE_CLOSED,
            PLACE_FOR_SOME,
            NO_PROFILE,
            CLOSED_FOR_ALL,
            ALL_CLOSED,
        ],
        end: End::Done,
    },
    // A later version.
    Row {
        input: &[SINCE],
        fill: 0,
        failing_write: 0,
        written: &[AHEAD],
        end: End::Done,
    },
    // A body cut.
    Row {
        input: &[
            CLOSURE,
            "{\"feature\":\"00000000-0000-4000-8000-000000000301\",\"closed\":true",
        ],
        fill: 0,
        failing_write: 0,
        written: &[],
        end: End::Cut(147),
    },
    // The first write fails.
    Row {
        input: &[VERSION, VERSION],
        fill: 0,
        failing_write: 1,
        written: &[],
        end: End::LinkFault,
    },
    // The second write fails.
    Row {
        input: &[VERSION, VERSION],
        fill: 0,
        failing_write: 2,
        written: &[FIRST],
        end: End::LinkFault,
    },
];

fn joined(alloc: Global, texts: &[&'static str], fill: usize) -> Result<Vec<u8>, Fail> {
    let mut bytes = Vec::new(alloc);
    for text in texts {
        if *text == "*" {
            bytes.resize(fill.saturating_add(bytes.len()), b'a')?;
        } else {
            bytes.extend_from_slice(text.as_bytes())?;
        }
    }
    Ok(bytes)
}

fn sizes(alloc: Global, size: usize, length: usize) -> Result<Vec<usize>, Fail> {
    let count = if size == 0 { 0 } else { length };
    Ok(vec![in alloc; size; count]?)
}

// The input of a row in pieces of a size.
fn stream(alloc: Global, row: &Row, size: usize) -> Result<MemoryStream, Fail> {
    let input = joined(alloc, row.input, row.fill)?;
    let pieces = sizes(alloc, size, input.len())?;
    let writes = vec![in alloc; row.failing_write]?;
    match MemoryStream::new(alloc, input, pieces, 2_000, Vec::new(alloc), writes) {
        Ok(stream) => Ok(stream),
        Err(_) => Err(Fail::new("no stream")),
    }
}

// A session of a row over a hall.
fn judge_session(
    rt: &impl Abort,
    alloc: Global,
    hall: &mut impl Hall,
    front: &Front,
    row: &Row,
    size: usize,
) -> Result<(), Fail> {
    let mut link = stream(alloc, row, size)?;
    let end = serve_session(alloc, hall, front, &mut link);
    let written = joined(alloc, row.written, 0)?;
    assert!(rt; link.written() == written.as_slice());
    assert!(rt; end == row.end);
    Ok(())
}

/// A hall of the venue, over no folders.
pub(crate) fn hall(
    alloc: Global,
    settings: &Arc<Settings>,
    venue: &Arc<Venue>,
) -> Result<Alone<MemoryFolders>, Fail>
    requires { (arc_value venue.now).settings ≡ arc_value settings.now }
{
    let Ok(folders) = MemoryFolders::new(Vec::new(alloc), Vec::new(alloc)) else {
        return Err(Fail::new("no folders"));
    };
    let base = base(alloc)?;
    let settings = Arc::try_clone(settings)?;
    let venue = Arc::try_clone(venue)?;
    match Alone::begin(alloc, settings, venue, folders, base) {
        Ok(hall) => Ok(hall),
        Err(Unopened { .. }) => Err(Fail::new("no hall")),
    }
}

// The session of a row, over a hall of its own for each size of pieces.
fn judge(
    rt: &impl Abort,
    alloc: Global,
    settings: &Arc<Settings>,
    venue: &Arc<Venue>,
    front: &Front,
    row: &Row,
) -> Result<(), Fail>
    requires { (arc_value venue.now).settings ≡ arc_value settings.now }
{
    for size in &PIECES {
        let mut hall = hall(alloc, settings, venue)?;
        judge_session(rt, alloc, &mut hall, front, row, *size)?;
    }
    Ok(())
}

#[test]
fn sessions_end(rt: HostRuntime) -> Result<(), Fail> {
    let alloc = rt.alloc();
    let settings = Arc::new(alloc, station_settings(alloc)?)?;
    let venue = venue_of(alloc, &settings)?;
    let front = Front::new(alloc, &settings.staff_keys)?;
    for row in &ROWS {
        judge(&rt, alloc, &settings, &venue, &front, row)?;
    }
    Ok(())
}
