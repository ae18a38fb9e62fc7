//! A read after the bytes that wait.

ghost use Rattle.std.specs.Prelude.{ℕ, ◌<◌, ◌^◌, List, Option, length};
ghost use Rattle.std.specs.Io.KnownBytes.{IsAtEnd};
ghost use Rattle.venue_ports.specs.Starts.{ReadStart};
ghost use Rattle.venue_hall.specs.Facts.{Facts};
ghost use Rattle.wire_frames.specs.Frames.{IsShort};
ghost use Rattle.venue_session.specs.Going.{Moment, moment, Awaits, IsGoing, HasEnded, HeardOrEnded};

use crate::ends::End;
use crate::input::Input;
use crate::laws::acts_more_law;
use venue_ports::Stream;

/// What a read comes to.
pub(crate) enum Heard {
    /// So many bytes came.
    More(usize),
    /// The session has ended.
    Ended(End),
}

// How the session ends where the input does, and these bytes wait.
fn end_of_input(waiting: &[u8]) -> End
    ensures { (keys : List (List ℕ)) (first : Moment) (facts : Facts) (left written : Option (List ℕ)) (starts : Option (List ReadStart)) (faults taken : ℕ)
        → IsGoing keys first (moment facts left written starts faults) taken waiting.now → IsShort waiting.now → IsAtEnd left
        → HasEnded keys first (moment facts left written starts faults) result }
{
    if waiting.is_empty() {
        End::Done
    } else {
        End::Cut(waiting.len() as u64)
    }
}

/// Reads behind the bytes that wait, which are less than a message.
pub(crate) fn read_on<L: Stream>(connection: &mut L, input: &mut Input) -> Heard
    requires { length input.old < 81920 }
    ensures { (keys : List (List ℕ)) (first : Moment) (facts : Facts) (taken least : ℕ)
        → IsGoing keys first (moment facts (L.left connection.old) (L.written connection.old) (L.starts connection.old) (L.faults connection.old)) taken input.old
        → Awaits input.old least → taken < 2 ^ 40
        → HeardOrEnded keys first (moment facts (L.left connection.new) (L.written connection.new) (L.starts connection.new) (L.faults connection.new)) taken
        input.new least result }
{
    acts_more_law();
    match input.read_more(connection) {
        Ok(0) => Heard::Ended(end_of_input(input.waiting())),
        Ok(count) => Heard::More(count),
        Err(_failed) => Heard::Ended(End::LinkFault),
    }
}
