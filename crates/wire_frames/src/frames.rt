//! How some bytes begin: with less than a message, with a head that is refused, or with the frame of a message.

ghost use Rattle.std.specs.Prelude.{◌≡◌, ◌+◌, ◌<◌, ◌≤◌, ℕ, take};
ghost use Rattle.wire_frames.specs.declared.refusals.Refusal.{Refusal};
ghost use Rattle.wire_frames.specs.Frames.{HasFrame, IsRefused, IsShort, PlainFrame};
ghost use Rattle.wire_frames.specs.Outcomes.{IfFault, IfFramed, IfMore, IsFramedAnd, IsMore, ShowsFrame, WaitsFor};
ghost use Rattle.wire_frames.specs.Reading.{FramesBody};

use crate::fields::Named;
use crate::heads::find_head;
use crate::parts::{Parts, read_head};
use crate::refusals::Refusal;

const MAX_HEAD: usize = 16_384;

/// The parts of a whole message, which borrow its bytes.
#[derive(Clone, Copy, Debug)]
pub struct Framed<'b> {
    pub method: &'b str,
    /// As it stands in the request line, with its query, still encoded.
    pub target: &'b str,
    /// The values of `x-staff-key`.
    pub staff_key: Named<'b>,
    pub body: &'b [u8],
    /// Head and body, in bytes.
    pub length: usize,
    /// No message may follow this one on its connection.
    pub close: bool,
}

/// What stands at the front of some bytes.
#[derive(Clone, Copy, Debug)]
pub enum Framing<'b> {
    /// Not yet decided; it won't be before `least` bytes are there in all.
    More { least: usize },
    Fault(Refusal),
    Framed(Framed<'b>),
}

// The first `size` bytes, or all where there are fewer.
fn first(bytes: &[u8], size: usize) -> &[u8]
    ensures { result.now ≡ take size bytes.now }
{
    &bytes[..size.min(bytes.len())]
}

// What a front without the end of a head comes to.
fn frame_endless<'b>(size: usize) -> Framing<'b>
    ensures short { size < 16384 → result ≡ Framing.More (size + 1) }
    ensures long { 16384 ≤ size → result ≡ Framing.Fault Refusal.HeadTooLarge }
{
    if size < MAX_HEAD {
        Framing::More { least: size + 1 }
    } else {
        Framing::Fault(Refusal::HeadTooLarge)
    }
}

// What the front comes to whose head, of so many bytes, has these parts.
fn frame_body<'b>(bytes: &'b [u8], parts: &Parts<'b>, size: usize) -> Framing<'b>
    requires head { size ≤ 16384 }
    requires body { parts.now.body ≤ 65536 }
    ensures { FramesBody bytes.now parts.now size result }
{
    let length = size + parts.body;
    if bytes.len() < length {
        return Framing::More { least: length };
    }
    Framing::Framed(Framed {
        method: parts.method,
        target: parts.target,
        staff_key: parts.staff_key,
        body: &bytes[size..length],
        length,
        close: parts.close,
    })
}

/// What stands at the front, from these bytes alone. It takes no memory, and time in proportion to the head.
pub fn frame(bytes: &[u8]) -> Framing<'_>
    ensures more { IfMore result (WaitsFor bytes.now) }
    ensures fault { IfFault result (IsRefused bytes.now) }
    ensures framed { IfFramed result (λ framed. (frame : PlainFrame) × HasFrame bytes.now frame × ShowsFrame framed frame) }

    // Each comes exactly where its fact holds.
    ensures short { IsShort bytes.now → IsMore result }
    ensures refused { (refusal : Refusal) → IsRefused bytes.now refusal → result ≡ Framing.Fault refusal }
    ensures whole { (frame : PlainFrame) → HasFrame bytes.now frame
        → IsFramedAnd result (λ framed. ShowsFrame framed frame) }
{
    let Some(extent) = find_head(first(bytes, MAX_HEAD)) else {
        return frame_endless(bytes.len());
    };
    match read_head(first(bytes, extent.length), extent.lines) {
        Ok(parts) => frame_body(bytes, &parts, extent.length),
        Err(refusal) => Framing::Fault(refusal),
    }
}
