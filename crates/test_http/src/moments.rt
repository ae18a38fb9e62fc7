//! When a session reads: a client that waits for each reply before it asks again, and one that hears the end.

ghost use Rattle.std.specs.Prelude.{◌≤◌, None};
ghost use Rattle.venue_ports.specs.Causes.{Rose};

use crate::sessions::hall;
use crate::station::venue_of;
use std::sync::Arc;
use std::test::Fail;
use test_station::station_settings;
use venue_ports::{Failed, Stream};
use venue_session::{End, serve_session};
use venue_wire::Front;

// A request, and the bytes of the reply that has to be there before the next one comes.
type Turn = (&'static str, usize);

// A client that gives a request at a read, and none while a reply is missing: then the read fails.
#[derive(Drop)]
struct Patient {
    turns: &'static [Turn],
    asked: usize,
    due: usize,
    written: usize,
    reads: usize,
    faults: u64,
}

impl Patient {
    fn new(turns: &'static [Turn]) -> Patient {
        Patient {
            turns,
            asked: 0,
            due: 0,
            written: 0,
            reads: 0,
            faults: 0,
        }
    }

    // Counts a failure.
    fn failed(&mut self) -> Failed
        ensures later { self.old.faults ≤ self.new.faults }
        ensures rose { Rose self.old.faults self.new.faults }
    {
        self.faults = self.faults.saturating_add(1);
        Failed
    }
}

impl Stream for Patient {
    ghost left = { λ _. None };

    ghost written = { λ _. None };

    ghost starts = { λ _. None };

    ghost faults = { λ p. p.faults };

    fn fault_count(&self) -> u64 {
        self.faults
    }

    fn read(&mut self, buf: &mut [u8]) -> Result<usize, Failed> {
        self.reads = self.reads.saturating_add(1);
        if self.written != self.due {
            return Err(self.failed());
        }
        let Some((request, reply)) = self.turns.get(self.asked) else {
            return Ok(0);
        };
        let bytes = request.as_bytes();
        let count = bytes.len().min(buf.len());
        buf[..count].copy_from_slice(&bytes[..count]);
        self.asked = self.asked.saturating_add(1);
        self.due = self.due.saturating_add(*reply);
        Ok(count)
    }

    fn write(&mut self, piece: &[u8]) -> Result<usize, Failed> {
        self.written = self.written.saturating_add(piece.len());
        Ok(piece.len())
    }
}

// A question, one that comes too early, a refused path, a refused method, a refused key, a bad query.
static TALK: &[Turn] = &[
    ("GET /v1/version HTTP/1.1\r\nhost: a\r\n\r\n", 107),
    ("GET /v1/version?since=9 HTTP/1.1\r\nhost: a\r\n\r\n", 124),
    ("GET /v2 HTTP/1.1\r\nhost: a\r\n\r\n", 102),
    ("PUT /v1/version HTTP/1.1\r\nhost: a\r\n\r\n", 117),
    ("POST /v1/closures HTTP/1.1\r\nhost: a\r\n\r\n", 99),
    ("GET /v1/place/x HTTP/1.1\r\nhost: a\r\n\r\n", 101),
];

// A request that closes, behind which nothing may be read.
static CLOSING: &[Turn] = &[
    (
        "GET /v1/version HTTP/1.1\r\nhost: a\r\nconnection: close\r\n\r\n",
        126,
    ),
    ("GET /v1/version HTTP/1.1\r\nhost: a\r\n\r\n", 107),
];

// The same of HEAD, whose reply has no body.
static HEAD: &[Turn] = &[
    ("HEAD /v1/version HTTP/1.1\r\nhost: a\r\n\r\n", 118),
    ("GET /v1/version HTTP/1.1\r\nhost: a\r\n\r\n", 107),
];

// And of a refused head.
static REFUSED: &[Turn] = &[
    ("x\r\n\r\n", 119),
    ("GET /v1/version HTTP/1.1\r\nhost: a\r\n\r\n", 107),
];

#[test]
fn sessions_read_when_all_is_answered(rt: HostRuntime) -> Result<(), Fail> {
    let alloc = rt.alloc();
    let settings = Arc::new(alloc, station_settings(alloc)?)?;
    let venue = venue_of(alloc, &settings)?;
    let front = Front::new(alloc, &settings.staff_keys)?;
    let mut hall = hall(alloc, &settings, &venue)?;
    for (turns, end, reads) in [
        (TALK, End::Done, 7),
        (CLOSING, End::Done, 1),
        (HEAD, End::Done, 1),
        (REFUSED, End::Refused(400), 1),
    ] {
        let mut client = Patient::new(turns);
        assert!(rt; serve_session(alloc, &mut hall, &front, &mut client) == end);
        assert!(rt; client.reads == reads);
        assert!(rt; client.written == client.due);
    }
    Ok(())
}
