//! Services of whose clients or doors some fail.

ghost use Rattle.std.specs.Prelude.{◌≡◌, None, false, IfOk};
ghost use Rattle.venue_ports.specs.Doors.{doors_ready, doors_accepted, doors_binds, doors_bound, doors_faults};
ghost use Rattle.venue_ports.specs.InMemory.{stream_left, stream_written, stream_starts, stream_faults};

use super::outside::{Ended, doors, folders, joined, run_over, stream};
use std::alloc::Global;
use std::process::Abort;
use std::sync::{Mutex, Wait};
use std::test::Fail;
use std::thread::Threads;
use test_station::{Change, FIRST, VERSION, station_files};
use venue_ports::{Doors, Failed, MemoryDoors, MemoryStream, Stream};

// A connection in memory. What is written to it is heard.
#[derive(Drop)]
struct HeardStream<'a, R> {
    stream: MemoryStream,
    heard: &'a Mutex<Vec<u8>>,
    rt: &'a R,
}

impl<'a, R: Wait> Stream for HeardStream<'a, R> {
    ghost left = { λ s. stream_left s.stream };

    ghost written = { λ s. stream_written s.stream };

    ghost starts = { λ s. stream_starts s.stream };

    ghost faults = { λ s. stream_faults s.stream };

    fn fault_count(&self) -> u64 {
        self.stream.fault_count()
    }

    fn read(&mut self, buf: &mut [u8]) -> Result<usize, Failed> {
        self.stream.read(buf)
    }

    fn write(&mut self, piece: &[u8]) -> Result<usize, Failed> {
        let count = self.stream.write(piece)?;
        let mut heard = self.heard.lock(self.rt);
        let _ = heard.extend_from_slice(&piece[..count]);
        Ok(count)
    }
}

// Doors in memory, whose connections are heard.
#[derive(Drop)]
struct HeardDoors<'a, R> {
    doors: MemoryDoors,
    heard: &'a Mutex<Vec<u8>>,
    rt: &'a R,
}

impl<'a, R: Wait + Sync> Doors for HeardDoors<'a, R> {
    type Conn = HeardStream<'a, R>;

    ghost ready = { λ d. doors_ready d.doors };

    ghost accepted = { λ d. doors_accepted d.doors };

    ghost binds = { λ d. doors_binds d.doors };

    ghost bound = { λ d. doors_bound d.doors };

    ghost faults = { λ d. doors_faults d.doors };

    fn fault_count(&self) -> u64 {
        self.doors.fault_count()
    }

    fn bind(&mut self, address: &str) -> Result<(), Failed> {
        self.doors.bind(address)
    }

    fn accept(&mut self) -> Result<HeardStream<'a, R>, Failed> {
        let stream = self.doors.accept()?;
        Ok(HeardStream {
            stream,
            heard: self.heard,
            rt: self.rt,
        })
    }
}

// What each client sends, in pieces of this size (0: whole), and which of its reads fails (0: none).
static CLIENTS: [(&str, usize, u64); 3] = [("", 0, 0), (VERSION, 10, 2), (VERSION, 0, 0)];

const ADDRESS: &str = "127.0.0.1:7070";

const WORDS: [&str; 6] = ["serve", "base", "station", "127.0.0.1:80", "2", "3"];

// How many connections are asked for, which bind, accept and write of the console fail (0: none), its room, and what is printed.
static STOPS: [(&str, [u64; 3], usize, &str); 5] = [
    ("1000000", [1, 0, 0], 1_000, "fault doors\n"),
    (
        "3",
        [0, 2, 0],
        1_000,
        "listening 127.0.0.1:7070\nworkers 1 sessions 1 versions 1 changes 0\n",
    ),
    ("1", [0, 0, 1], 1_000, ""),
    ("1", [0, 0, 2], 1_000, "listening 127.0.0.1:7070\n"),
    ("1", [0, 0, 0], 30, "listening 127.0.0.1:7070\nworke"),
];

// The doors through which the clients come.
fn heard_doors<'a, R>(
    rt: &'a R,
    alloc: Global,
    heard: &'a Mutex<Vec<u8>>,
) -> Result<HeardDoors<'a, R>, Fail>
    ensures { IfOk result (λ heard. doors_ready heard.doors ≡ false) }
{
    let mut streams = Vec::new(alloc);
    for (sent, piece, read) in &CLIENTS {
        let input = joined(alloc, &[*sent])?;
        streams.push(stream(alloc, input, *piece, 1_000, [*read, 0])?)?;
    }
    let doors = doors(alloc, streams, [0, 0])?;
    Ok(HeardDoors { doors, heard, rt })
}

pub(super) fn a_client_says_nothing_and_another_fails(
    rt: &(impl Threads + Wait + Abort + Sync),
    alloc: Global,
) -> Result<(), Fail> {
    let heard = Mutex::new(Vec::new(alloc));
    let files = station_files(alloc, "base", "station", Change::of(&[]))?;
    let folders = folders(alloc, files, 0)?;
    let doors = heard_doors(rt, alloc, &heard)?;
    let console = stream(alloc, Vec::new(alloc), 0, 1_000, [0, 0])?;
    let ended = run_over(rt, alloc, &WORDS, folders, doors, console)?;
    assert!(rt;
        str::from_utf8(ended.text.as_slice())
            == Ok("listening 127.0.0.1:80\nworkers 2 sessions 3 versions 1 changes 0\n")
    );
    assert!(rt; ended.status == 0);
    assert!(rt; ended.door_faults == 0);
    let heard = heard.into_inner();
    assert!(rt; str::from_utf8(heard.as_slice()) == Ok(FIRST));
    Ok(())
}

// A service whose clients say nothing, with what fails as in a row.
fn run_silent<R: Abort + Threads + Wait + Sync>(
    rt: &R,
    alloc: Global,
    words: &[&str],
    failing: [u64; 3],
    room: usize,
) -> Result<Ended, Fail> {
    let [bind, accept, write] = failing;
    let files = station_files(alloc, "base", "station", Change::of(&[]))?;
    let folders = folders(alloc, files, 0)?;
    let doors = doors(alloc, Vec::new(alloc), [bind, accept])?;
    let console = stream(alloc, Vec::new(alloc), 0, room, [0, write])?;
    run_over(rt, alloc, words, folders, doors, console)
}

pub(super) fn doors_or_the_console_fail(
    rt: &(impl Threads + Wait + Abort + Sync),
    alloc: Global,
) -> Result<(), Fail> {
    for (connections, failing, room, text) in &STOPS {
        let words = ["serve", "base", "station", ADDRESS, "1", *connections];
        let ended = run_silent(rt, alloc, &words, *failing, *room)?;
        assert!(rt; str::from_utf8(ended.text.as_slice()) == Ok(*text));
        assert!(rt; ended.status == 3);
        let [bind, accept, _] = *failing;
        let faults = u64::from(bind > 0 || accept > 0);
        assert!(rt; ended.door_faults == faults);
    }
    Ok(())
}

// Any text of at most 256 bytes is an address, of which the doors judge.
pub(super) fn an_address_has_256_bytes(
    rt: &(impl Threads + Wait + Abort + Sync),
    alloc: Global,
) -> Result<(), Fail> {
    let address = "a".repeat(alloc, 256)?;
    let words = ["serve", "base", "station", address.as_str(), "16", "1"];
    let text = format!(in alloc;
        "listening {address}\nworkers 16 sessions 1 versions 1 changes 0\n"
    )?;
    let ended = run_silent(rt, alloc, &words, [0, 0, 0], 1_000)?;
    assert!(rt; str::from_utf8(ended.text.as_slice()) == Ok(text.as_str()));
    assert!(rt; ended.status == 0);
    assert!(rt; ended.door_faults == 0);
    Ok(())
}
