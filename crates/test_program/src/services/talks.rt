//! Clients who wait for one another, and the doors through which they come.

ghost use Rattle.std.specs.Prelude.{◌≡◌, None, false};
ghost use Rattle.venue_ports.specs.Causes.{one_more};

use std::sync::atomic::{AtomicBool, AtomicU64, Ordering};
use std::thread::yield_now;
use venue_ports::{Doors, Failed, Stream};

// How often a client looks at most at what was written to the others.
const LOOKS: u32 = 1_000_000;

/// What a client sends at once, when so many bytes were written to the client with this number. Without bytes it is the end.
#[derive(Drop)]
pub(super) struct Part {
    pub client: usize,
    pub written: u64,
    pub bytes: Vec<u8>,
}

/// What a client sends and must be written, and what the others see of it.
#[derive(Drop)]
pub(super) struct Client {
    parts: Vec<Part>,
    replies: Vec<u8>,
    // How many bytes of the replies were written.
    written: AtomicU64,
    // Whether other bytes were.
    mistaken: AtomicBool,
    // Whether it looked so often that its input ended.
    tired: AtomicBool,
}

impl Client {
    pub(super) fn new(parts: Vec<Part>, replies: Vec<u8>) -> Client {
        Client {
            parts,
            replies,
            written: AtomicU64::new(0),
            mistaken: AtomicBool::new(false),
            tired: AtomicBool::new(false),
        }
    }

    /// How many bytes of the replies are missing, whether other bytes were written, and whether it looked too often.
    pub(super) fn ending(&self) -> (u64, bool, bool) {
        let replies = self.replies.len() as u64;
        (
            replies.saturating_sub(self.written.load(Ordering::SeqCst)),
            self.mistaken.load(Ordering::SeqCst),
            self.tired.load(Ordering::SeqCst),
        )
    }
}

/// The connection of a client.
#[derive(Drop)]
pub(super) struct Talk<'a> {
    all: &'a [Client],
    own: &'a Client,
    // The parts that are to come, and the bytes that have come and weren't read.
    parts: &'a [Part],
    rest: &'a [u8],
    // The replies that weren't written yet.
    due: &'a [u8],
    looks: u32,
}

impl<'a> Talk<'a> {
    // Looks until the part may come, or it has looked too often.
    fn waits(&mut self, part: &Part) -> bool {
        let Some(other) = self.all.get(part.client) else {
            return false;
        };
        for look in self.looks..LOOKS {
            if other.written.load(Ordering::SeqCst) >= part.written {
                self.looks = look.saturating_add(1);
                return true;
            }
            yield_now();
        }
        self.looks = LOOKS;
        self.own.tired.store(true, Ordering::SeqCst);
        false
    }

    // The bytes of the next part, and none at the end.
    fn next_part(&mut self) -> &'a [u8] {
        let Some((part, later)) = self.parts.split_first() else {
            return &[];
        };
        if self.waits(part) {
            self.parts = later;
            part.bytes.as_slice()
        } else {
            &[]
        }
    }
}

impl<'a> Stream for Talk<'a> {
    ghost left = { λ _. None };

    ghost written = { λ _. None };

    ghost starts = { λ _. None };

    ghost faults = { λ _. 0 };

    fn fault_count(&self) -> u64 {
        0
    }

    fn read(&mut self, buf: &mut [u8]) -> Result<usize, Failed> {
        if self.rest.is_empty() {
            self.rest = self.next_part();
        }
        let count = self.rest.len().min(buf.len());
        let (come, rest) = self.rest.split_at(count);
        buf[..count].copy_from_slice(come);
        self.rest = rest;
        Ok(count)
    }

    fn write(&mut self, piece: &[u8]) -> Result<usize, Failed> {
        match self.due.strip_prefix(piece) {
            Some(due) => {
                self.due = due;
                self.own
                    .written
                    .fetch_add(piece.len() as u64, Ordering::SeqCst);
            }
            None => self.own.mistaken.store(true, Ordering::SeqCst),
        }
        Ok(piece.len())
    }
}

/// Doors through which the clients come in their order. Where all have come, an accept fails.
#[derive(Drop)]
pub(super) struct Talks<'a> {
    all: &'a [Client],
    coming: &'a [Client],
    ready: bool,
    accepted: u64,
    faults: u64,
}

impl<'a> Talks<'a> {
    pub(super) fn new(all: &'a [Client]) -> Talks<'a>
        ensures { result.ready ≡ false }
    {
        Talks {
            all,
            coming: all,
            ready: false,
            accepted: 0,
            faults: 0,
        }
    }

    /// How many have come.
    pub(super) fn accepted(&self) -> u64 {
        self.accepted
    }
}

impl<'a> Doors for Talks<'a> {
    type Conn = Talk<'a>;

    ghost ready = { λ d. d.ready };

    ghost accepted = { λ d. d.accepted };

    ghost binds = { λ _. None };

    ghost bound = { λ _. None };

    ghost faults = { λ d. d.faults };

    fn fault_count(&self) -> u64 {
        self.faults
    }

    fn bind(&mut self, _address: &str) -> Result<(), Failed> {
        self.ready = true;
        Ok(())
    }

    fn accept(&mut self) -> Result<Talk<'a>, Failed> {
        let Some((own, coming)) = self.coming.split_first() else {
            self.faults = self.faults.saturating_add(1);
            return Err(Failed);
        };
        self.coming = coming;
        self.accepted = self.accepted.saturating_add(1);
        Ok(Talk {
            all: self.all,
            own,
            parts: own.parts.as_slice(),
            rest: &[],
            due: own.replies.as_slice(),
            looks: 0,
        })
    }
}
