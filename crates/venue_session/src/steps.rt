//! One message acted on.

ghost use Rattle.std.specs.Prelude.{◌≡◌, if◌then◌else◌};
ghost use Rattle.venue_wire.specs.declared.messages.Message.{Message as AMessage};
ghost use Rattle.venue_hall.specs.Facts.{Facts};
ghost use Rattle.wire_replies.specs.declared.response.Response.TheVariants.{Of};
ghost use Rattle.venue_session.specs.Steps.{IsStep, NeedsNoLook, told_by};
ghost use Rattle.venue_session.specs.Texts.{Stepped};

use crate::texts::Text;
use std::alloc::Global;
use venue_hall::{Hall, number_law};
use venue_types::{Change, Query, Reply};
use venue_wire::Message;
use wire_frames::Refusal;
use wire_replies::{Response, bare_bytes, refusal_bytes, reply_bytes, want_of_memory};

/// What comes of a message.
#[derive(Drop)]
pub(crate) enum Step {
    /// This text is to be written.
    Replied(Text),
    /// A change was accepted, and there is no memory for its text: nothing may be written any more.
    Untold,
}

// Asks behind a look at what others changed, which is for a question that has to look.
fn ask_again<H: Hall>(hall: &mut H, query: &Query) -> Reply
    ensures { (¬ NeedsNoLook (H.facts hall.old).seen (AMessage.Ask query.now)) → IsStep (H.facts hall.old) (AMessage.Ask query.now) (Of result) (H.facts hall.new) }
{
    hall.catch_up();
    hall.ask(query)
}

// Asks, and once more where the question comes too early.
fn ask<H: Hall>(hall: &mut H, query: &Query) -> Reply
    ensures { IsStep (H.facts hall.old) (AMessage.Ask query.now) (Of result) (H.facts hall.new) }
{
    number_law();
    match hall.ask(query) {
        Reply::Ahead { .. } => ask_again(hall, query),
        reply => reply,
    }
}

fn change<H: Hall>(hall: &mut H, asked: &Change) -> Reply
    ensures { IsStep (H.facts hall.old) (AMessage.Do asked.now) (Of result) (H.facts hall.new) }
{
    hall.change(asked)
}

// A message that is refused by itself, or couldn't be read, leaves the hall as it is. By its number what that has seen is a legal
// history.
fn refuse<H: Hall>(hall: &H, refusal: Refusal) -> Response
    ensures { IsStep (H.facts hall.now) (AMessage.Refused refusal) result (H.facts hall.now) }
{
    let _number = hall.number();
    Response::No(refusal)
}

fn refuse_bare<H: Hall>(hall: &H, refusal: Refusal) -> Response
    ensures { IsStep (H.facts hall.now) (AMessage.Bare refusal) result (H.facts hall.now) }
{
    let _number = hall.number();
    Response::Bare(refusal)
}

fn leave_unread<H: Hall>(hall: &H) -> Response
    ensures { IsStep (H.facts hall.now) AMessage.Unread result (H.facts hall.now) }
{
    let _number = hall.number();
    Response::Of(Reply::OutOfMemory)
}

fn answer<H: Hall>(hall: &mut H, message: &Message) -> Response
    ensures { IsStep (H.facts hall.old) message.now result (H.facts hall.new) }
{
    match message {
        Message::Ask(query) => Response::Of(ask(hall, query)),
        Message::Do(asked) => Response::Of(change(hall, asked)),
        Message::Refused(refusal) => refuse(hall, *refusal),
        Message::Bare(refusal) => refuse_bare(hall, *refusal),
        Message::Unread => leave_unread(hall),
    }
}

// Whether a reply tells that a change was accepted.
fn tells_change(reply: &Reply) -> bool
    ensures { told_by (Of reply.now) ≡ (if result then 1 else 0) }
{
    match reply {
        Reply::ClosureDone(done) => done.changed,
        Reply::Published { .. } => true,
        _ => false,
    }
}

// What is written where there is no memory for a reply's text.
fn step_without_memory(reply: &Reply, close: bool) -> Step
    ensures { (old new : Facts) (message : AMessage) → IsStep old message (Of reply.now) new → Stepped old message close result new }
{
    if tells_change(reply) {
        Step::Untold
    } else {
        Step::Replied(Text::Fixed(want_of_memory(close)))
    }
}

fn make_reply(alloc: Global, reply: &Reply, close: bool) -> Step
    ensures { (old new : Facts) (message : AMessage) → IsStep old message (Of reply.now) new → Stepped old message close result new }
{
    match reply_bytes(alloc, reply, close) {
        Ok(bytes) => Step::Replied(Text::Made(bytes)),
        Err(_) => step_without_memory(reply, close),
    }
}

fn make_step(alloc: Global, answer: &Response, close: bool) -> Step
    ensures { (old new : Facts) (message : AMessage) → IsStep old message answer.now new → Stepped old message close result new }
{
    match answer {
        Response::Of(reply) => make_reply(alloc, reply, close),
        Response::No(refusal) => Step::Replied(Text::Fixed(refusal_bytes(*refusal, close))),
        Response::Bare(refusal) => Step::Replied(Text::Fixed(bare_bytes(*refusal, close))),
    }
}

/// Asks, changes or refuses as the message says. A question that comes too early is asked once more behind a look at what others
/// changed.
pub(crate) fn answer_message<H: Hall>(
    alloc: Global,
    hall: &mut H,
    message: &Message,
    close: bool,
) -> Step
    ensures { Stepped (H.facts hall.old) message.now close result (H.facts hall.new) }
{
    let answer = answer(hall, message);
    make_step(alloc, &answer, close)
}
