//! What the lock of the lobby keeps: the door and the connections that wait without a worker.

use crate::calls::now;
use crate::door::Door;
use crate::guests::Guests;
use crate::limits::SLICE_MILLIS;
use mio::Events;
use mio::net::TcpStream;
use std::alloc::{AllocError, Global};
use std::time::{Clock, Duration};
use venue_ports::Failed;

// How many events the system tells at once.
const MOST_EVENTS: usize = 1_024;

// The longest wait while anybody is here, whose time is then judged, in seconds.
const TURN_SECS: u64 = 1;

/// The connections without a worker, and the door through which they come, once it is bound.
#[derive(Drop)]
pub(crate) struct Pool {
    door: Option<Door>,
    events: Events,
    guests: Guests,
}

impl Pool {
    /// Nobody, and no door. Takes all memory that is ever taken.
    pub(crate) fn new(alloc: Global) -> Result<Pool, AllocError> {
        Ok(Pool {
            door: None,
            events: Events::with_capacity(alloc, MOST_EVENTS)?,
            guests: Guests::new(alloc)?,
        })
    }

    /// Takes the connections of this door from now on.
    pub(crate) fn open(&mut self, door: Door) {
        self.door = Some(door);
    }

    /// How many are ready for a worker.
    pub(crate) fn ready_count(&self) -> usize {
        self.guests.ready_count()
    }

    /// Whether somebody may be in front of the door whom nobody has looked at.
    pub(crate) fn is_open(&self) -> bool {
        match &self.door {
            Some(door) => door.is_open(),
            None => false,
        }
    }

    /// Whether it is to be told that the system lacked room for a connection, and takes that for told.
    pub(crate) fn take_news(&mut self) -> bool {
        match &mut self.door {
            Some(door) => door.take_news(),
            None => false,
        }
    }

    /// The one that has been ready longest.
    pub(crate) fn next_ready(&mut self) -> Option<TcpStream> {
        self.guests.next_ready()
    }

    // How long a turn may wait, where nothing happens.
    fn longest_turn(&self, door: &Door) -> Option<Duration> {
        if door.is_open() {
            Some(Duration::ZERO)
        } else if door.is_held() {
            // A connection that a worker closes makes room, of which nothing tells.
            Some(Duration::from_millis(SLICE_MILLIS))
        } else if self.guests.is_empty() {
            None
        } else {
            Some(Duration::from_secs(TURN_SECS))
        }
    }

    /// Waits until something happens, and looks at it until somebody is ready.
    pub(crate) fn wait(&mut self, clock: &impl Clock) -> Result<(), Failed> {
        match &self.door {
            Some(door) => {
                let within = self.longest_turn(door);
                self.turn(clock, within, 1)
            }
            None => Err(Failed),
        }
    }

    /// Looks once at what has happened, without waiting, until so many are ready.
    pub(crate) fn look(&mut self, clock: &impl Clock, enough: usize) -> Result<(), Failed> {
        self.turn(clock, Some(Duration::ZERO), enough)
    }

    // Looks at what happens within this time, lets in those who came until so many are ready, and closes those who are late.
    fn turn(
        &mut self,
        clock: &impl Clock,
        within: Option<Duration>,
        enough: usize,
    ) -> Result<(), Failed> {
        let Pool {
            door,
            events,
            guests,
        } = self;
        let Some(door) = door else {
            return Err(Failed);
        };
        // While the door is open and nobody waits, no event tells more than the accept does.
        if !door.is_open() || guests.are_waiting() {
            door.wait(events, within)?;
            // A place that becomes free here is taken again only by those who are let in behind, so each event finds its own connection.
            for event in events.iter() {
                door.look(event, guests);
            }
        }
        let now = now(clock)?;
        door.let_in(guests, now, enough)?;
        guests.close_late(now);
        Ok(())
    }
}
