//! The listener, and the set of sockets at which the system tells what comes.

use crate::guests::Guests;
use crate::refusals::{NoConnection, Shortage, why};
use mio::event::Event;
use mio::net::TcpListener;
use mio::{Events, Interest, Poll, Token};
use std::net::{Net, ToSocketAddrs};
use std::time::Duration;
use venue_ports::Failed;

// The listener's token, which is no place of a connection.
const LISTENER: Token = Token(usize::MAX);

// How many connections are taken in one turn.
const MOST_AT_ONCE: usize = 256;

/// What the listener is known to have.
#[derive(Clone, Copy, PartialEq, Eq)]
enum Queue {
    /// Nobody, until an event tells of one.
    Empty,
    /// Maybe somebody.
    Open,
    /// Maybe somebody for whom there was no room.
    Held,
}

/// A listener that is bound.
#[derive(Drop)]
pub(crate) struct Door {
    poll: Poll,
    listener: TcpListener,
    queue: Queue,
    shortage: Shortage,
}

impl Door {
    /// Listens at the first address that lets itself be bound. Takes no memory.
    pub(crate) fn bind(net: &impl Net, address: &str) -> Result<Door, Failed> {
        let Ok(poll) = Poll::new(net) else {
            return Err(Failed);
        };
        let Ok(addresses) = address.to_socket_addrs(net) else {
            return Err(Failed);
        };
        for at in addresses {
            if let Ok(listener) = TcpListener::bind(net, at) {
                return Door::over(poll, listener);
            }
        }
        Err(Failed)
    }

    // The same over a listener.
    fn over(poll: Poll, mut listener: TcpListener) -> Result<Door, Failed> {
        match poll
            .registry()
            .register(&mut listener, LISTENER, Interest::READABLE)
        {
            Ok(()) => Ok(Door {
                poll,
                listener,
                queue: Queue::Open,
                shortage: Shortage::Never,
            }),
            Err(_) => Err(Failed),
        }
    }

    /// Waits for so long at most, `None` being for ever, until there is something to look at.
    pub(crate) fn wait(
        &mut self,
        events: &mut Events,
        within: Option<Duration>,
    ) -> Result<(), Failed> {
        self.poll.poll(events, within).map_err(|_| Failed)
    }

    /// Whether somebody may be let in at once.
    pub(crate) fn is_open(&self) -> bool {
        self.queue == Queue::Open
    }

    /// Whether somebody is held up for whom there was no room.
    pub(crate) fn is_held(&self) -> bool {
        self.queue == Queue::Held
    }

    /// Whether it is to be told that the system lacked room for a connection, and takes that for told.
    pub(crate) fn take_news(&mut self) -> bool {
        self.shortage.take_news()
    }

    /// Looks where an event says that something is to be seen.
    pub(crate) fn look(&mut self, event: &Event, guests: &mut Guests) {
        if event.token() == LISTENER {
            self.queue = Queue::Open;
        } else {
            guests.look_at(
                self.poll.registry(),
                event.token().0,
                event.is_read_closed(),
            );
        }
    }

    /// Lets in those who came, at this time, until so many are ready. For one for whom there is no room, the one that has waited longest is
    /// closed; who finds no room even then stays in the system's queue.
    pub(crate) fn let_in(
        &mut self,
        guests: &mut Guests,
        now: Duration,
        enough: usize,
    ) -> Result<(), Failed> {
        if self.queue == Queue::Empty {
            return Ok(());
        }
        self.queue = Queue::Open;
        let mut made_room = false;
        for _ in 0..MOST_AT_ONCE {
            // The queue stays open here. An event tells of a change alone, so whoever came before would be forgotten if any but an accept that
            // finds nobody said that it is empty.
            if guests.ready_count() >= enough {
                return Ok(());
            }
            if !guests.make_room() {
                self.queue = Queue::Held;
                return Ok(());
            }
            match self.listener.accept() {
                Ok((stream, _)) => {
                    made_room = false;
                    guests.take_in(self.poll.registry(), stream, now);
                }
                Err(error) => match why(error.kind(), error.raw_os_error()) {
                    NoConnection::NoneCame => {
                        self.queue = Queue::Empty;
                        return Ok(());
                    }
                    NoConnection::Gone => {}
                    NoConnection::Full => {
                        self.shortage.came();
                        if made_room || !guests.close_first() {
                            self.queue = Queue::Held;
                            return Ok(());
                        }
                        made_room = true;
                    }
                    NoConnection::Broken => return Err(Failed),
                },
            }
        }
        Ok(())
    }
}
