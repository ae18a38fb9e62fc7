//! An accepted connection.

ghost use Rattle.std.specs.Prelude.{◌≡◌, ◌≤◌};
ghost use Rattle.venue_session.specs.Ends.{connection_between};
ghost use Rattle.venue_session.specs.Moments.{IsPrompt, reads_between};
ghost use Rattle.venue_session.specs.Sessions.{IsSession, HasServed};
ghost use Rattle.venue_service.specs.Guests.{conn_of};

use shared_hall::{HallName, Log, LoggedSeat};
use std::alloc::Global;
use std::marker::PhantomData;
use std::sync::Wait;
use venue_ports::{Folders, Stream};
use venue_session::{End, serve_session};
use venue_wire::Front;

/// A connection that must be served, at a seat of its hall: it can't be let go.
pub struct Guest<N, C> {
    conn: C,
    name: PhantomData<N>,
}

impl<N: HallName, C: Stream> Guest<N, C> {
    /// A guest of a hall. Takes no memory.
    pub fn new(conn: C) -> Guest<N, C>
        ensures { conn_of result ≡ conn }
    {
        Guest {
            conn,
            name: PhantomData,
        }
    }

    /// Serves it by a session at a seat, and hands the connection back.
    pub fn serve<F: Folders, J: Log, R: Wait>(
        self,
        alloc: Global,
        seat: &mut LoggedSeat<'_, N, F, J, R>,
        front: &Front,
    ) -> (End, C)
        requires keys { front.now ≡ N.keys }
        ensures session { IsSession front.now seat.old seat.new (connection_between C.Stream (conn_of self) result.1) result.0 }
        ensures prompt { IsPrompt front.now seat.old (reads_between C.Stream (conn_of self) result.1) }
        ensures hall { HasServed seat.old seat.new }
        ensures link { C.faults (conn_of self) ≤ C.faults result.1 }
    {
        let Guest { conn, name: _ } = self;
        let mut conn = conn;
        let end = serve_session(alloc, seat, front, &mut conn);
        (end, conn)
    }
}
