//! Connections that wait without a worker, in the order in which they came.

use mio::net::TcpStream;
use slab::Slab;
use std::alloc::{AllocError, Global};
use std::time::Duration;

// A connection with less than a message, when it came, and who came just before and behind it of those that are still here.
#[derive(Drop)]
struct Waiter {
    stream: TcpStream,
    came: Duration,
    before: Option<usize>,
    behind: Option<usize>,
}

/// Connections at places that they keep. Each call takes the same time, however many there are.
#[derive(Drop)]
pub(crate) struct Waiters {
    places: Slab<Waiter>,
    first: Option<usize>,
    last: Option<usize>,
}

impl Waiters {
    /// Nobody, with room for so many.
    pub(crate) fn with_capacity(alloc: Global, most: usize) -> Result<Waiters, AllocError> {
        Ok(Waiters {
            places: Slab::with_capacity(alloc, most)?,
            first: None,
            last: None,
        })
    }

    pub(crate) fn len(&self) -> usize {
        self.places.len()
    }

    /// The place that the next one gets.
    pub(crate) fn next_place(&self) -> usize {
        self.places.vacant_key()
    }

    /// Takes one in that came at this time. Where there is no room, it is closed.
    pub(crate) fn push(&mut self, stream: TcpStream, came: Duration) {
        let waiter = Waiter {
            stream,
            came,
            before: self.last,
            behind: None,
        };
        if let Ok(place) = self.places.insert(waiter) {
            self.join(self.last, Some(place));
            self.last = Some(place);
        }
    }

    // Has one place follow another, where `None` is in front of the first and behind the last.
    fn join(&mut self, before: Option<usize>, behind: Option<usize>) {
        match before {
            Some(place) => {
                if let Some(waiter) = self.places.get_mut(place) {
                    waiter.behind = behind;
                }
            }
            None => self.first = behind,
        }
        match behind {
            Some(place) => {
                if let Some(waiter) = self.places.get_mut(place) {
                    waiter.before = before;
                }
            }
            None => self.last = before,
        }
    }

    /// The connection at a place, where there is one.
    pub(crate) fn get(&self, place: usize) -> Option<&TcpStream> {
        match self.places.get(place) {
            Some(waiter) => Some(&waiter.stream),
            None => None,
        }
    }

    /// Takes the connection at a place out.
    pub(crate) fn take(&mut self, place: usize) -> Option<TcpStream> {
        let Waiter {
            stream,
            came: _,
            before,
            behind,
        } = self.places.try_remove(place)?;
        self.join(before, behind);
        Some(stream)
    }

    /// Takes out the one that came first.
    pub(crate) fn take_first(&mut self) -> Option<TcpStream> {
        let place = self.first?;
        self.take(place)
    }

    /// When the one that came first came.
    pub(crate) fn first_came(&self) -> Option<Duration> {
        match self.places.get(self.first?) {
            Some(waiter) => Some(waiter.came),
            None => None,
        }
    }
}
