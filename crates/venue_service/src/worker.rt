//! One worker.

ghost use Rattle.std.specs.Prelude.{◌≡◌};
ghost use Rattle.shared_hall.specs.Facts.{IsSameHall};

use crate::desk::{DoorDesk, Next};
use shared_hall::{HallName, Log, LoggedSeat};
use std::alloc::Global;
use std::sync::{Mutex, Wait};
use venue_ports::{Doors, Folders};
use venue_wire::Front;

/// The most connections that one service accepts.
pub const MOST_CONNECTIONS: u32 = 1_000_000;

// The next connection of a desk that others use too. The lock is let go before the connection is served.
fn next_of<N: HallName, D: Doors, R: Wait>(
    rt: &R,
    desk: &Mutex<DoorDesk<N, D>>,
) -> Next<N, D::Conn> {
    let mut guard = desk.lock(rt);
    guard.next()
}

/// Serves one connection after the other at a seat, until all are accepted or an accept fails.
pub fn work<N: HallName, F: Folders, J: Log, D: Doors, R: Wait>(
    rt: &R,
    alloc: Global,
    seat: &mut LoggedSeat<'_, N, F, J, R>,
    desk: &Mutex<DoorDesk<N, D>>,
    front: &Front,
)
    requires keys { front.now ≡ N.keys }
    ensures { IsSameHall seat.old seat.new }
{
    for _ in 0..=MOST_CONNECTIONS {
        match next_of(rt, desk) {
            Next::Conn(guest) => {
                let (_end, _conn) = guest.serve(alloc, seat, front);
            }
            Next::Nobody => return,
            Next::Failed => return,
        }
    }
}
