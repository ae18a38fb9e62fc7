//! Links that fail or end within a message, over the hall of one thread, which a later session asks for its version.

ghost use Rattle.std.specs.Prelude.{◌≡◌};
ghost use Rattle.std.specs.Arc.{arc_value};

use super::outside::{base, folders, joined, stream, venue_of};
use super::texts::CLOSURE;
use std::alloc::Global;
use std::process::Abort;
use std::sync::Arc;
use std::test::Fail;
use test_station::{CLOSED_LIFT, FIRST, VERSION, station_settings};
use venue_ports::{MemoryFolders, MemoryStream};
use venue_program::{Alone, End, Unopened, Venue, serve_session};
use venue_types::Settings;
use venue_wire::Front;

// A closure but for its last byte: a head of 84 bytes, and 63.
const CUT_CLOSURE: &str =
    "POST /v1/closures HTTP/1.1\r\nhost: a\r\nx-staff-key: desk-key-1\r\ncontent-length: 64\r\n\r\n{\"feature\":\"00000000-0000-4000-8000-000000000301\",\"closed\":true";

// What comes in a session for which nothing is written, and how it ends.
#[derive(Drop)]
struct Row {
    input: &'static str,
    // The sizes of pieces in which the input comes, in turn; 0 where it comes whole.
    pieces: &'static [usize],
    // Which read and which write fail, from 1 (0: none).
    failing: [u64; 2],
    end: End,
    // The answer to a version that is asked for later.
    later: &'static str,
}

// A hall of the venue, over no folders.
fn hall(
    alloc: Global,
    settings: &Arc<Settings>,
    venue: &Arc<Venue>,
) -> Result<Alone<MemoryFolders>, Fail>
    requires { (arc_value venue.now).settings ≡ arc_value settings.now }
{
    let folders = folders(alloc, Vec::new(alloc), 0)?;
    let settings = Arc::try_clone(settings)?;
    let venue = Arc::try_clone(venue)?;
    match Alone::begin(alloc, settings, venue, folders, base(alloc)?) {
        Ok(hall) => Ok(hall),
        Err(Unopened { .. }) => Err(Fail::new("no hall")),
    }
}

// A session over a hall and a link, for which this is written.
fn judge_session(
    rt: &impl Abort,
    alloc: Global,
    hall: &mut Alone<MemoryFolders>,
    front: &Front,
    link: MemoryStream,
    row: (&str, End),
) -> Result<(), Fail> {
    let (written, end) = row;
    let mut link = link;
    let ended = serve_session(alloc, hall, front, &mut link);
    assert!(rt; str::from_utf8(link.written()) == Ok(written));
    assert!(rt; ended == end);
    Ok(())
}

// Both sessions of a row, in pieces of a size.
fn judge(
    rt: &impl Abort,
    alloc: Global,
    hall: &mut Alone<MemoryFolders>,
    front: &Front,
    row: &Row,
    piece: usize,
) -> Result<(), Fail> {
    let input = joined(alloc, &[row.input])?;
    let link = stream(alloc, input, piece, 1_000, row.failing)?;
    judge_session(rt, alloc, hall, front, link, ("", row.end))?;
    let version = joined(alloc, &[VERSION])?;
    let link = stream(alloc, version, piece, 1_000, [0, 0])?;
    judge_session(rt, alloc, hall, front, link, (row.later, End::Done))
}

// A row over a hall of its own for each size of pieces.
fn judge_pieces(
    rt: &impl Abort,
    alloc: Global,
    settings: &Arc<Settings>,
    venue: &Arc<Venue>,
    front: &Front,
    row: &Row,
) -> Result<(), Fail>
    requires { (arc_value venue.now).settings ≡ arc_value settings.now }
{
    for piece in row.pieces {
        let mut hall = hall(alloc, settings, venue)?;
        judge(rt, alloc, &mut hall, front, row, *piece)?;
    }
    Ok(())
}

pub(super) fn links_fail_or_end(rt: &impl Abort, alloc: Global) -> Result<(), Fail> {
    let settings = Arc::new(alloc, station_settings(alloc)?)?;
    let venue = venue_of(alloc, &settings)?;
    let front = Front::new(alloc, &settings.staff_keys)?;
    for row in &[
        // The second read fails.
        Row {
            input: VERSION,
            pieces: &[10],
            failing: [2, 0],
            end: End::LinkFault,
            later: FIRST,
        },
        // A closure untold.
        Row {
            input: CLOSURE,
            pieces: &[0, 1, 7],
            failing: [0, 1],
            end: End::LinkFault,
            later: CLOSED_LIFT,
        },
        // A closure but for its last byte.
        Row {
            input: CUT_CLOSURE,
            pieces: &[0],
            failing: [0, 0],
            end: End::Cut(147),
            later: FIRST,
        },
    ] {
        judge_pieces(rt, alloc, &settings, &venue, &front, row)?;
    }
    Ok(())
}
