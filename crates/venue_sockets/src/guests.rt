//! The connections of the lobby: those that wait for more bytes, and those that are ready for a worker.

use crate::looks::{MOST_SEEN, Seen, look};
use crate::waiters::Waiters;
use mio::net::TcpStream;
use mio::{Interest, Registry, Token};
use std::alloc::{AllocError, Global};
use std::collections::VecDeque;
use std::time::Duration;

/// How many connections there is room for.
pub(crate) const MOST_GUESTS: usize = 16_384;

// How long a connection may take to send a message, in seconds.
const PATIENCE_SECS: u64 = 30;

/// Each connection is in one of the two, and what it sent stays in the system.
#[derive(Drop)]
pub(crate) struct Guests {
    waiters: Waiters,
    ready: VecDeque<TcpStream>,
    seen: Vec<u8>,
}

impl Guests {
    /// Nobody. Takes all memory that is ever taken.
    pub(crate) fn new(alloc: Global) -> Result<Guests, AllocError> {
        Ok(Guests {
            waiters: Waiters::with_capacity(alloc, MOST_GUESTS)?,
            ready: VecDeque::with_capacity(alloc, MOST_GUESTS)?,
            seen: Vec::from_elem(alloc, 0, MOST_SEEN)?,
        })
    }

    pub(crate) fn ready_count(&self) -> usize {
        self.ready.len()
    }

    /// Whether anybody has sent less than a message.
    pub(crate) fn are_waiting(&self) -> bool {
        self.waiters.len() > 0
    }

    pub(crate) fn is_empty(&self) -> bool {
        self.waiters.len() == 0 && self.ready.is_empty()
    }

    /// Whether one more has room, for which the one that has waited longest may be closed.
    pub(crate) fn make_room(&mut self) -> bool {
        self.waiters.len().saturating_add(self.ready.len()) < MOST_GUESTS || self.close_first()
    }

    /// Closes the one that has waited longest, where there is one.
    pub(crate) fn close_first(&mut self) -> bool {
        self.waiters.take_first().is_some()
    }

    /// Takes in a connection that came at this time.
    pub(crate) fn take_in(&mut self, registry: &Registry, mut stream: TcpStream, came: Duration) {
        match look(&stream, &mut self.seen, false) {
            Seen::Gone => {}
            Seen::Ready => self.is_ready(stream),
            Seen::Part => {
                let token = Token(self.waiters.next_place());
                // What came since the look is told by an event. Where the system has no room for that, the connection is closed.
                if registry
                    .register(&mut stream, token, Interest::READABLE)
                    .is_ok()
                {
                    self.waiters.push(stream, came);
                }
            }
        }
    }

    /// Looks at the connection at a place, where there is one, whose input has ended or may not have.
    pub(crate) fn look_at(&mut self, registry: &Registry, place: usize, ended: bool) {
        let Some(stream) = self.waiters.get(place) else {
            return;
        };
        match look(stream, &mut self.seen, ended) {
            Seen::Part => {}
            Seen::Gone => drop(self.waiters.take(place)),
            Seen::Ready => {
                if let Some(mut stream) = self.waiters.take(place) {
                    // Its next bytes are its worker's, and wake nobody here.
                    let _ = registry.deregister(&mut stream);
                    self.is_ready(stream);
                }
            }
        }
    }

    // Puts a connection behind those that are ready. There is room for it.
    fn is_ready(&mut self, stream: TcpStream) {
        let _ = self.ready.push_back(stream);
    }

    /// Closes those that came too long before this time.
    pub(crate) fn close_late(&mut self, now: Duration) {
        for _ in 0..MOST_GUESTS {
            match self.waiters.first_came() {
                Some(came) if now.saturating_sub(came) >= Duration::from_secs(PATIENCE_SECS) => {
                    self.close_first();
                }
                _ => return,
            }
        }
    }

    /// The one that has been ready longest.
    pub(crate) fn next_ready(&mut self) -> Option<TcpStream> {
        self.ready.pop_front()
    }
}
