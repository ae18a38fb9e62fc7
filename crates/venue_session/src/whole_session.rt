//! A whole session.

ghost use Rattle.std.specs.Prelude.{◌≡◌, ◌≤◌, ℕ, [], List};
ghost use Rattle.venue_hall.specs.Histories.{IsLegal};
ghost use Rattle.venue_session.specs.Ends.{connection_between};
ghost use Rattle.venue_session.specs.Going.{Moment, moment, IsGoing, StaysShort, HasEnded, WaitsOrEnded};
ghost use Rattle.venue_session.specs.Moments.{IsPrompt, reads_between};
ghost use Rattle.venue_session.specs.Sessions.{IsSession, HasServed};

use crate::ends::End;
use crate::heard::{Heard, read_on};
use crate::input::Input;
use crate::step_runs::{Stop, run_steps};
use std::alloc::Global;
use venue_hall::Hall;
use venue_ports::Stream;
use venue_wire::{Front, more_is_short_law};

// Behind so many bytes a session ends by itself, once all the messages in them are answered.
const MOST: u64 = 1 << 40;

// Acts on the messages that wait, where there are enough bytes for one.
fn run_where_due<H: Hall, L: Stream>(
    alloc: Global,
    hall: &mut H,
    front: &Front,
    connection: &mut L,
    input: &mut Input,
    least: usize,
) -> Stop
    ensures { (first : Moment) (taken : ℕ)
        → IsGoing front.now first (moment (H.facts hall.old) (L.left connection.old) (L.written connection.old) (L.starts connection.old) (L.faults connection.old)) taken
        input.old
        → StaysShort input.old least
        → WaitsOrEnded front.now first (moment (H.facts hall.new) (L.left connection.new) (L.written connection.new) (L.starts connection.new) (L.faults connection.new)) taken
        input.new result }
{
    if input.waiting().len() < least {
        Stop::Waiting(least)
    } else {
        run_steps(alloc, hall, front, connection, input)
    }
}

// Reads and runs in turn, from an input in which nothing waits.
fn serve<H: Hall, L: Stream>(
    alloc: Global,
    hall: &mut H,
    front: &Front,
    connection: &mut L,
    input: &mut Input,
) -> End
    requires legal { IsLegal (H.facts hall.old).seen }
    requires empty { input.old ≡ [] }
    ensures { HasEnded front.now (moment (H.facts hall.old) (L.left connection.old) (L.written connection.old) (L.starts connection.old) (L.faults connection.old))
        (moment (H.facts hall.new) (L.left connection.new) (L.written connection.new) (L.starts connection.new) (L.faults connection.new)) result }
{
    more_is_short_law();
    let mut taken: u64 = 0;
    let mut least = 0;
    'reads: while taken < MOST {
        match read_on(connection, input) {
            Heard::Ended(end) => return end,
            Heard::More(count) => taken += count as u64,
        }
        match run_where_due(alloc, hall, front, connection, input, least) {
            Stop::Ended(end) => return end,
            Stop::Waiting(next) => least = next,
        }
    }
    End::Worn
}

/// Serves one session over a connection, and tells how it ended. Messages are acted on in the order in which their bytes come, in
/// whatever pieces, and the text for each is written whole before the next is acted on. Whenever it reads, all whole messages that
/// have come are answered, none of them closes, and no refused head waits.
///
/// It ends `Done` where the input ends between two messages, or behind a message that closes; `Cut` with the number of bytes of
/// an unfinished message; `Refused` with the status of a refused head, whose text is written and closes; `Worn` behind 2^40 bytes
/// of input; `LinkFault` where a read or a write failed; `OutOfMemory` where memory ran out for the buffer, or for the text of
/// an accepted change. For want of memory any other reply is 503, also to a message that couldn't be read, and the session goes on; a
/// message that is refused by itself is told why in any case. The connection is not closed.
///
/// It takes 81,920 bytes of memory once, and else what a message and its text take while it is acted on. Beside the hall's time
/// it takes time in proportion to the bytes; those of a head that has no end yet are looked at again at each read, those of a
/// body are not.
pub fn serve_session<H: Hall, L: Stream>(
    alloc: Global,
    hall: &mut H,
    front: &Front,
    connection: &mut L,
) -> End
    ensures session { IsSession front.now (H.facts hall.old) (H.facts hall.new) (connection_between L.Stream connection.old connection.new) result }
    ensures prompt { IsPrompt front.now (H.facts hall.old) (reads_between L.Stream connection.old connection.new) }
    ensures hall { HasServed (H.facts hall.old) (H.facts hall.new) }
    ensures connection { L.faults connection.old ≤ L.faults connection.new }
{
    // By its number what the hall has seen is a legal history.
    let _number = hall.number();
    match Input::new(alloc) {
        Ok(mut input) => serve(alloc, hall, front, connection, &mut input),
        Err(_error) => End::OutOfMemory,
    }
}
