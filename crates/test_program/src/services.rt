//! The command `serve` over clients who wait for one another: what is printed, the status, and what is written to them. `'` stands
//! for a quotation mark, `@0301` for the identifier that ends in 0301.

mod kept;
mod talks;

use crate::hostile::outside::{folders, owned, run_without_disks, stream};
use crate::hostile::texts::CLOSURE;
use std::alloc::{AllocError, Global};
use std::process::Abort;
use std::sync::Wait;
use std::test::Fail;
use std::thread::Threads;
use talks::{Client, Part, Talks};
use test_station::{Change, FIRST, LIFT_CLOSED, VERSION, station_files};
use venue_ports::Doors;
use venue_program::Outcome;

const IDENTIFIER: &str = "00000000-0000-4000-8000-00000000";

const ADDRESS: &str = "127.0.0.1:7070";

// What a client sends once so many bytes were written to the client with this number, from 0.
type Sent = (usize, u64, &'static str);

// What a client sends, and what must be written to it.
type Spoken = (&'static [Sent], &'static [&'static str]);

const ROUTE: &str =
    "GET /v1/route?from=@0051&to=@0052&profile=wheelchair HTTP/1.1\r\nhost: a\r\n\r\n";

// The same at version 2 or later, less the last byte.
const ROUTE_SINCE: &str =
    "GET /v1/route?from=@0051&to=@0052&profile=wheelchair&since=2 HTTP/1.1\r\nhost: a\r\n\r";

// 755 bytes.
const BY_RAMP: &str =
    "HTTP/1.1 200 OK\r\ncontent-type: application/json\r\ncontent-length: 683\r\n\r\n{'cost':14023,'from':'@0051','profile':'wheelchair','result':'route','start':'@0041','steps':[{'cost':633,'kind':'floor','to':'@0105','via':'@0305'},{'cost':6004,'kind':'floor','to':'@0104','via':'@0300'},{'cost':2000,'kind':'ramp','to':'@0204','via':'@0024'},{'cost':5386,'kind':'floor','to':'@0042','via':'@0400'}],'to':'@0052','version':2}";

// Two clients who ask for the version twice. The reply to that has 107 bytes, and that to a closure 162.
static ASKING: [Spoken; 2] = [
    (&[(0, 0, VERSION), (0, 0, VERSION)], &[FIRST, FIRST]),
    (&[(0, 0, VERSION), (0, 0, VERSION)], &[FIRST, FIRST]),
];

// The first holds back its request until the third has its reply.
static LATER: [Spoken; 3] = [
    (&[(2, 107, VERSION)], &[FIRST]),
    (&[(1, 0, VERSION)], &[FIRST]),
    (&[(2, 0, VERSION)], &[FIRST]),
];

// The first holds back the last byte of its request until the second, which closes the lift, has its reply.
static AT_ONCE: [Spoken; 2] = [
    (&[(0, 0, ROUTE_SINCE), (1, 162, "\n")], &[BY_RAMP]),
    (&[(1, 0, CLOSURE)], &[LIFT_CLOSED]),
];

// The second asks for the version, then the first closes the lift, then the second asks for the way, and then the first ends.
static FRESH: [Spoken; 2] = [
    (&[(1, 107, CLOSURE), (1, 862, "")], &[LIFT_CLOSED]),
    (&[(1, 0, VERSION), (0, 162, ROUTE)], &[FIRST, BY_RAMP]),
];

// A short text written out.
fn plain(alloc: Global, short: &str) -> Result<String, AllocError> {
    let quoted = short.replace(alloc, '\'', "\"")?;
    quoted.as_str().replace(alloc, '@', IDENTIFIER)
}

fn part(alloc: Global, sent: &Sent) -> Result<Part, AllocError> {
    let (client, written, text) = sent;
    Ok(Part {
        client: *client,
        written: *written,
        bytes: plain(alloc, text)?.into_bytes(),
    })
}

fn client(alloc: Global, spoken: &Spoken) -> Result<Client, AllocError> {
    let (sent, replies) = spoken;
    let mut parts = Vec::new(alloc);
    for sent in *sent {
        parts.push(part(alloc, sent)?)?;
    }
    let mut bytes = Vec::new(alloc);
    for reply in *replies {
        bytes.extend_from_slice(plain(alloc, reply)?.as_bytes())?;
    }
    Ok(Client::new(parts, bytes))
}

fn clients(alloc: Global, table: &[Spoken]) -> Result<Vec<Client>, AllocError> {
    let mut clients = Vec::new(alloc);
    for spoken in table {
        clients.push(client(alloc, spoken)?)?;
    }
    Ok(clients)
}

// So many workers serve these clients, each is written what it must be, and this is printed.
fn judge<R: Abort + Threads + Wait + Sync>(
    rt: &R,
    alloc: Global,
    table: &[Spoken],
    workers: &str,
    connections: &str,
    text: &str,
) -> Result<(), Fail> {
    let words = owned(
        alloc,
        &["serve", "base", "station", ADDRESS, workers, connections],
    )?;
    let files = station_files(alloc, "base", "station", Change::of(&[]))?;
    let folders = folders(alloc, files, 0)?;
    let clients = clients(alloc, table)?;
    let doors = Talks::new(clients.as_slice());
    let mut console = stream(alloc, Vec::new(alloc), 0, 400, [0, 0])?;
    let Outcome { status, doors, .. } = run_without_disks(
        rt,
        alloc,
        words.as_slice(),
        folders,
        doors,
        &mut console,
    )?;
    for client in &clients {
        assert!(rt; client.ending() == (0, false, false));
    }
    assert!(rt; str::from_utf8(console.written()) == Ok(text));
    assert!(rt; status.code() == 0);
    assert!(rt; doors.accepted() == clients.len() as u64);
    assert!(rt; doors.fault_count() == 0);
    Ok(())
}

#[test]
fn a_worker_serves_one_client_after_the_other(rt: HostRuntime) -> Result<(), Fail> {
    let alloc = rt.alloc();
    judge(
        &rt,
        alloc,
        &ASKING,
        "1",
        "2",
        "listening 127.0.0.1:7070\nworkers 1 sessions 2 versions 1 changes 0\n",
    )?;
    judge(
        &rt,
        alloc,
        &LATER,
        "2",
        "3",
        "listening 127.0.0.1:7070\nworkers 2 sessions 3 versions 1 changes 0\n",
    )
}

#[test]
fn two_workers_at_once(rt: HostRuntime) -> Result<(), Fail> {
    judge(
        &rt,
        rt.alloc(),
        &AT_ONCE,
        "2",
        "2",
        "listening 127.0.0.1:7070\nworkers 2 sessions 2 versions 2 changes 1\n",
    )
}

#[test]
fn fresh_without_since(rt: HostRuntime) -> Result<(), Fail> {
    judge(
        &rt,
        rt.alloc(),
        &FRESH,
        "2",
        "2",
        "listening 127.0.0.1:7070\nworkers 2 sessions 2 versions 2 changes 1\n",
    )
}
