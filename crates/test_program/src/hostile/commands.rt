//! The program, while the disk or the console fails.

use super::outside::{Ended, file, joined, run_without_doors};
use super::texts::{CLOSURE, FOLDER_FAULT, NEW_FOLDER, PUBLICATION, PUBLISHED};
use std::alloc::Global;
use std::process::Abort;
use std::sync::Wait;
use std::test::Fail;
use std::thread::Threads;
use test_station::{
    Change, EVERY, Edit, FIRST, GONE, LIFT_CLOSED, MANIFEST, SETTINGS, VERSION, station_files,
};
use venue_ports::MemoryFile;

const CHECK: [&str; 3] = ["check", "base", "station"];

const CANON: [&str; 4] = ["canon", "base", "station", "address.geojson"];

// The station's one address in the fixed form.
const ADDRESS: &str =
    "{\"features\":[{\"feature_type\":\"address\",\"geometry\":null,\"id\":\"00000000-0000-4000-8000-000000000001\",\"properties\":{},\"type\":\"Feature\"}],\"type\":\"FeatureCollection\"}";

const LINKS: [&str; 4] = ["links", "base", "station", "walk"];

// There is no such profile.
const LINKS_BY: [&str; 4] = ["links", "base", "station", "bicycle"];

const ROUTE: [&str; 6] = [
    "route",
    "base",
    "station",
    "walk",
    "00000000-0000-4000-8000-000000000051",
    "00000000-0000-4000-8000-000000000052",
];

// Nor are these places.
const ROUTE_BY: [&str; 6] = [
    "route",
    "base",
    "station",
    "bicycle",
    "00000000-0000-4000-8000-000000000307",
    "00000000-0000-4000-8000-000000000999",
];

const PRICE: [&str; 2] = ["price", "base"];

const SESSION: [&str; 3] = ["session", "base", "station"];

// Three nodes.
const TABLE: &str =
    "imdf-links 1\nnode 00000000-0000-4000-8000-000000000001\nnode 00000000-0000-4000-8000-000000000002\nnode 00000000-0000-4000-8000-000000000003\nlink 0 1 633 00000000-0000-4000-8000-000000000009\nlink 1 2 200 00000000-0000-4000-8000-000000000009\nlink 0 2 900 00000000-0000-4000-8000-000000000009\nend\n";

const WALK: &str = "imdf-walk 1\nfrom 0\nstep 0\nstep 1\nend\n";

const ZERO_KX: &[Edit] = &[(SETTINGS, "", "kx = 10000000", "kx = 0")];

const NO_SETTINGS: &[Edit] = &[(SETTINGS, "", "", GONE)];

const NOTHING: &[Edit] = &[(EVERY, "", "", GONE), (SETTINGS, "", "", GONE)];

const SETTINGS_ALONE: &[Edit] = &[
    (EVERY, "", "", GONE),
    (SETTINGS, "", "", "kx = 1\nky = 1\n"),
];

const BROKEN: &[Edit] = &[(MANIFEST, "", "", "{")];

const FAULT: &str = "fault folder\n";

const MISSING: &str = "missing venue.toml\n";

const KX: &str = "settings 4 kx\n";

// Room for all that is printed.
const ROOM: usize = 4_000;

/// The words, what is changed in the station, which read of a file and which write of the console fail, from 1 (0: none), the room
/// of the console, what is printed, and the status.
type Row = (
    &'static [&'static str],
    &'static [Edit],
    u64,
    u64,
    usize,
    &'static str,
    u8,
);

static COMMANDS: [Row; 29] = [
    (&PRICE, &[], 1, 0, ROOM, FAULT, 3),
    (&PRICE, &[], 1, 1, ROOM, "", 3),
    (&PRICE, &[], 2, 0, ROOM, FAULT, 3),
    // The table is judged before the walk is read.
    (
        &["price", "short"],
        &[],
        2,
        0,
        ROOM,
        "form links.txt 2\n",
        2,
    ),
    // A console that fails in mid-stream holds a front of the line.
    (&PRICE, &[], 0, 0, 4, "cost", 3),
    (&PRICE, &[], 0, 1, ROOM, "", 3),
    // The settings are judged before the folder is read.
    (&CHECK, NOTHING, 2, 0, ROOM, MISSING, 2),
    (&CHECK, SETTINGS_ALONE, 2, 0, ROOM, FAULT, 3),
    (&CHECK, &[], 1, 0, ROOM, FAULT, 3),
    (&CHECK, &[], 2, 0, ROOM, FAULT, 3),
    (&CHECK, &[], 6, 0, ROOM, FAULT, 3),
    (&CHECK, &[], 18, 0, ROOM, FAULT, 3),
    // There is no read after the venue's.
    (&CHECK, &[], 19, 0, ROOM, "accepted 44\nnotes 0\n", 0),
    (&CHECK, BROKEN, 18, 0, ROOM, FAULT, 3),
    (&CHECK, ZERO_KX, 2, 0, ROOM, KX, 2),
    (&CHECK, NO_SETTINGS, 2, 0, ROOM, MISSING, 2),
    (&CANON, NO_SETTINGS, 2, 0, ROOM, MISSING, 2),
    (&CANON, ZERO_KX, 2, 0, ROOM, KX, 2),
    (&CANON, &[], 3, 0, ROOM, FAULT, 3),
    (&CANON, &[], 19, 0, ROOM, ADDRESS, 0),
    (&CANON, &[], 0, 0, 10, "{\"features", 3),
    (&LINKS, NO_SETTINGS, 2, 0, ROOM, MISSING, 2),
    (&LINKS, &[], 1, 0, ROOM, FAULT, 3),
    (&LINKS_BY, &[], 18, 0, ROOM, FAULT, 3),
    (&ROUTE, NO_SETTINGS, 2, 0, ROOM, MISSING, 2),
    (&ROUTE_BY, &[], 18, 0, ROOM, FAULT, 3),
    (&SESSION, &[], 1, 0, ROOM, FAULT, 3),
    (&SESSION, &[], 2, 0, ROOM, FAULT, 3),
    (&SESSION, ZERO_KX, 2, 0, ROOM, KX, 2),
];

/// Which read of a file, which read and which write of the console fail, what is sent and written, and the status.
type Session = (
    [u64; 3],
    &'static [&'static str],
    &'static [&'static str],
    u8,
);

static SESSIONS: [Session; 9] = [
    // A folder that fails, and then not.
    (
        [23, 0, 0],
        &[PUBLICATION, VERSION, PUBLICATION],
        &[FOLDER_FAULT, FIRST, PUBLISHED],
        0,
    ),
    ([19, 0, 0], &[VERSION], &[FIRST], 0),
    ([18, 0, 0], &[VERSION], &[FAULT], 3),
    ([18, 0, 1], &[VERSION], &[], 3),
    ([0, 0, 1], &[VERSION, CLOSURE], &[], 3),
    ([0, 0, 2], &[VERSION, CLOSURE, VERSION], &[FIRST], 3),
    (
        [0, 0, 3],
        &[VERSION, CLOSURE, VERSION],
        &[FIRST, LIFT_CLOSED],
        3,
    ),
    ([0, 1, 0], &[VERSION], &[], 3),
    ([0, 2, 0], &[VERSION, VERSION], &[FIRST, FIRST], 3),
];

// The changed station, with a walk over a table beside it, and a base with a table that is cut.
fn base_files(alloc: Global, edits: &'static [Edit]) -> Result<Vec<MemoryFile>, Fail> {
    let mut files = station_files(alloc, "base", "station", Change::of(edits))?;
    for (folder, name, text) in [
        ("base", "links.txt", TABLE),
        ("base", "walk.txt", WALK),
        ("short", "links.txt", "imdf-links 1\n"),
    ] {
        let bytes = Vec::from_slice(alloc, text.as_bytes())?;
        files.push(file(alloc, folder, name, bytes)?)?;
    }
    Ok(files)
}

// Each command, though the version is asked for.
pub(super) fn the_disk_or_the_console_fails(
    rt: &(impl Threads + Wait + Abort + Sync),
    alloc: Global,
) -> Result<(), Fail> {
    for (words, edits, read, write, room, text, status) in &COMMANDS {
        let files = base_files(alloc, edits)?;
        let input = joined(alloc, &[VERSION])?;
        let failing = [*read, 0, *write];
        let ended = run_without_doors(rt, alloc, words, files, input, failing, *room)?;
        assert!(rt; str::from_utf8(ended.text.as_slice()) == Ok(*text));
        assert!(rt; ended.status == *status);
        let faults = u64::from(*read > 0 && *status == 3);
        assert!(rt; ended.folder_faults == faults);
    }
    Ok(())
}

// A session over the station, where the read of a file, and the read and the write of the console with these numbers fail.
fn run_session(
    rt: &(impl Threads + Wait + Abort + Sync),
    alloc: Global,
    sent: &[&str],
    failing: [u64; 3],
) -> Result<Ended, Fail> {
    let files = station_files(alloc, "base", "station", Change::of(&[]))?;
    let input = joined(alloc, sent)?;
    run_without_doors(rt, alloc, &SESSION, files, input, failing, ROOM)
}

pub(super) fn a_session_fails(
    rt: &(impl Threads + Wait + Abort + Sync),
    alloc: Global,
) -> Result<(), Fail> {
    for (failing, sent, written, status) in &SESSIONS {
        let ended = run_session(rt, alloc, sent, *failing)?;
        let written = joined(alloc, written)?;
        assert!(rt; str::from_utf8(ended.text.as_slice()) == str::from_utf8(written.as_slice()));
        assert!(rt; ended.status == *status);
    }
    Ok(())
}

pub(super) fn each_write_of_a_session_fails(
    rt: &(impl Threads + Wait + Abort + Sync),
    alloc: Global,
) -> Result<(), Fail> {
    let whole = joined(alloc, &[FIRST, FIRST])?;
    for write in 1..100 {
        let ended = run_session(rt, alloc, &[VERSION, VERSION], [0, 0, write])?;
        if ended.status == 0 {
            assert!(rt; write > 1 && ended.text.as_slice() == whole.as_slice());
            return Ok(());
        }
        assert!(rt; ended.status == 3);
        assert!(rt; whole.as_slice().starts_with(ended.text.as_slice()));
    }
    Err(Fail::new("no session ends"))
}

pub(super) fn each_read_of_a_publication_fails(
    rt: &(impl Threads + Wait + Abort + Sync),
    alloc: Global,
) -> Result<(), Fail> {
    let sent = [PUBLICATION, VERSION, PUBLICATION, VERSION];
    let whole = joined(alloc, &[FOLDER_FAULT, FIRST, PUBLISHED, NEW_FOLDER])?;
    // The settings and the 17 files of the folder are read before.
    for read in 19..=35 {
        let ended = run_session(rt, alloc, &sent, [read, 0, 0])?;
        assert!(rt; str::from_utf8(ended.text.as_slice()) == str::from_utf8(whole.as_slice()));
        assert!(rt; ended.status == 0);
        assert!(rt; ended.folder_faults == 1);
    }
    Ok(())
}
