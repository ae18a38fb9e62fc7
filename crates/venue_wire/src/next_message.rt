//! The message with which some bytes begin.

ghost use Rattle.std.specs.Prelude.{◌≡◌, ℕ, ◌<◌, List, IfOk, OnErr, length};
ghost use Rattle.venue_wire.specs.Messages.{At, IsMessage, IsTaken, call_of, read_by, refused};
ghost use Rattle.venue_wire.specs.Outcomes.{IfMore};
ghost use Rattle.wire_frames.specs.Frames.{HasFrame, PlainFrame};
ghost use Rattle.wire_frames.specs.Outcomes.{ShowsFrame, WaitsFor};

use crate::bodies::changed;
use crate::calls::Call;
use crate::front::Front;
use crate::messages::{Message, Taken};
use crate::paths::{cut_target, is_head};
use crate::query_values::asked;
use std::alloc::Global;
use venue_types::OutOfMemory;
use wire_frames::{Framed, Framing, Refusal, frame};

// A refusal by path, method or key.
fn refused(method: &str, refusal: Refusal) -> Message
    ensures { result ≡ refused method.now refusal }
{
    if is_head(method) {
        Message::Bare(refusal)
    } else {
        Message::Refused(refusal)
    }
}

// What a framed message asks for.
fn message_of(alloc: Global, front: &Front, framed: &Framed<'_>) -> Result<Message, OutOfMemory>
    ensures message { IfOk result (λ message. (frame : PlainFrame) → ShowsFrame framed.now frame → IsMessage front.now frame message) }
    ensures memory { OnErr result ((frame : PlainFrame) → ShowsFrame framed.now frame
        → 0 < length (read_by (call_of front.now frame) frame)) }
{
    let (text, query) = cut_target(framed.target);
    match front.call_of(framed, text) {
        Call::Refused(refusal) => Ok(refused(framed.method, refusal)),
        Call::Get(path) => asked(alloc, path, text, query),
        Call::Post(path) => changed(alloc, path, framed.body),
    }
}

// The same, where there is memory for it.
fn message_or_unread(alloc: Global, front: &Front, framed: &Framed<'_>) -> Message
    ensures { (frame : PlainFrame) → ShowsFrame framed.now frame → IsTaken front.now frame result }
{
    match message_of(alloc, front, framed) {
        Ok(message) => message,
        Err(_) => Message::Unread,
    }
}

fn take_framed(alloc: Global, front: &Front, framed: &Framed<'_>) -> Taken
    ensures at { (bytes : List ℕ) (frame : PlainFrame) → HasFrame bytes frame → ShowsFrame framed.now frame
        → At front.now bytes result }
    ensures there { IfMore result (λ _. ⊥) }
{
    Taken::Message {
        message: message_or_unread(alloc, front, framed),
        length: framed.length,
        close: framed.close,
    }
}

/// What stands at the front, from these bytes alone, in time in proportion to them. A question takes no memory where its query
/// has nothing encoded, but for a profile's name and for at most eight stops; a change takes as much as the values of its body do.
pub fn take(alloc: Global, front: &Front, bytes: &[u8]) -> Taken
    ensures at { At front.now bytes.now result }
    ensures waits { IfMore result (WaitsFor bytes.now) }
{
    match frame(bytes) {
        Framing::More { least } => Taken::More { least },
        Framing::Fault(refusal) => Taken::Fault(refusal),
        Framing::Framed(framed) => take_framed(alloc, front, &framed),
    }
}
