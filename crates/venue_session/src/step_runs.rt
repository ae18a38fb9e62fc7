//! A run of steps over the bytes that wait.

ghost use Rattle.std.specs.Prelude.{◌≡◌, ◌<◌, ◌≤◌, ℕ, List, drop, length, IsNone};
ghost use Rattle.venue_hall.specs.Facts.{Facts};
ghost use Rattle.venue_wire.specs.Messages.{At};
ghost use Rattle.venue_wire.specs.declared.messages.Message.{Message};
ghost use Rattle.venue_session.specs.Going.{Moment, moment, IsGoing, GoesOrEnded, WaitsOrEnded, GoesOrStops};
ghost use Rattle.venue_session.specs.Texts.{Stepped};

use crate::ends::End;
use crate::input::Input;
use crate::refused_heads::refuse;
use crate::steps::{Step, answer_message};
use crate::writer::write_all;
use std::alloc::Global;
use venue_hall::Hall;
use venue_ports::Stream;
use venue_wire::{Front, Message, Taken, message_length_law, take};

/// How a run of steps stops.
pub(crate) enum Stop {
    /// Less than a message waits, and no more does before so many bytes wait in all.
    Waiting(usize),
    /// The session has ended.
    Ended(End),
}

// Writes the text for a message, and tells how the session ends by it, if it does.
fn write_step<L: Stream>(connection: &mut L, step: &Step, close: bool) -> Option<End>
    ensures { (keys : List (List ℕ)) (first : Moment) (before after : Facts) (taken : ℕ) (waiting : List ℕ)
        → (message : Message) (size : ℕ)
        → IsGoing keys first (moment before (L.left connection.old) (L.written connection.old) (L.starts connection.old) (L.faults connection.old)) taken waiting
        → At keys waiting (Taken.Message message size close) → Stepped before message close step.now after
        → GoesOrEnded keys first (moment after (L.left connection.new) (L.written connection.new) (L.starts connection.new) (L.faults connection.new)) taken
        (drop size waiting) result }
{
    match step {
        Step::Untold => Some(End::OutOfMemory),
        Step::Replied(text) => match write_all(connection, text.as_slice()) {
            Ok(()) if close => Some(End::Done),
            Ok(()) => None,
            Err(_failed) => Some(End::LinkFault),
        },
    }
}

// Acts on a message at the front of what waits, and tells how the session ends by it, if it does.
fn answer_front<H: Hall, L: Stream>(
    alloc: Global,
    hall: &mut H,
    connection: &mut L,
    message: &Message,
    close: bool,
) -> Option<End>
    ensures { (keys : List (List ℕ)) (first : Moment) (taken : ℕ) (waiting : List ℕ) (size : ℕ)
        → IsGoing keys first (moment (H.facts hall.old) (L.left connection.old) (L.written connection.old) (L.starts connection.old) (L.faults connection.old)) taken waiting
        → At keys waiting (Taken.Message message.now size close)
        → GoesOrEnded keys first (moment (H.facts hall.new) (L.left connection.new) (L.written connection.new) (L.starts connection.new) (L.faults connection.new)) taken
        (drop size waiting) result }
{
    let step = answer_message(alloc, hall, message, close);
    write_step(connection, &step, close)
}

// Acts on a message of this size at the front of what waits, and passes it: tells how the run stops there, if it does.
fn pass_message<H: Hall, L: Stream>(
    alloc: Global,
    hall: &mut H,
    connection: &mut L,
    input: &mut Input,
    message: &Message,
    size: usize,
    close: bool,
) -> Option<Stop>
    requires { size ≤ length input.old }
    ensures stop { (keys : List (List ℕ)) (first : Moment) (taken : ℕ)
        → IsGoing keys first (moment (H.facts hall.old) (L.left connection.old) (L.written connection.old) (L.starts connection.old) (L.faults connection.old)) taken
        input.old
        → At keys input.old (Taken.Message message.now size close)
        → GoesOrStops keys first (moment (H.facts hall.new) (L.left connection.new) (L.written connection.new) (L.starts connection.new) (L.faults connection.new)) taken
        input.new result }
    ensures passed { IsNone result → input.new ≡ drop size input.old }
{
    match answer_front(alloc, hall, connection, message, close) {
        Some(end) => Some(Stop::Ended(end)),
        None => {
            input.pass(size);
            None
        }
    }
}

// Acts on what stands at the front of what waits: tells how the run stops there, if it does.
fn step<H: Hall, L: Stream>(
    alloc: Global,
    hall: &mut H,
    front: &Front,
    connection: &mut L,
    input: &mut Input,
) -> Option<Stop>
    ensures stop { (first : Moment) (taken : ℕ)
        → IsGoing front.now first (moment (H.facts hall.old) (L.left connection.old) (L.written connection.old) (L.starts connection.old) (L.faults connection.old)) taken
        input.old
        → GoesOrStops front.now first (moment (H.facts hall.new) (L.left connection.new) (L.written connection.new) (L.starts connection.new) (L.faults connection.new)) taken
        input.new result }
    ensures shorter { IsNone result → length input.new < length input.old }
{
    message_length_law();
    match take(alloc, front, input.waiting()) {
        Taken::More { least } => Some(Stop::Waiting(least)),
        Taken::Fault(refusal) => Some(Stop::Ended(refuse(connection, refusal))),
        Taken::Message {
            message,
            length,
            close,
        } => pass_message(alloc, hall, connection, input, &message, length, close),
    }
}

/// Acts on the messages that wait, one behind the other, and writes the text for each before the next.
pub(crate) fn run_steps<H: Hall, L: Stream>(
    alloc: Global,
    hall: &mut H,
    front: &Front,
    connection: &mut L,
    input: &mut Input,
) -> Stop
    ensures { (first : Moment) (taken : ℕ)
        → IsGoing front.now first (moment (H.facts hall.old) (L.left connection.old) (L.written connection.old) (L.starts connection.old) (L.faults connection.old)) taken
        input.old
        → WaitsOrEnded front.now first (moment (H.facts hall.new) (L.left connection.new) (L.written connection.new) (L.starts connection.new) (L.faults connection.new)) taken
        input.new result }
{
    'steps: loop {
        if let Some(stop) = step(alloc, hall, front, connection, input) {
            return stop;
        }
    }
}
