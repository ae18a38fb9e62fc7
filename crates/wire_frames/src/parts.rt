//! A whole head, read and judged.

ghost use Rattle.std.specs.Prelude.{◌≡◌, ◌+◌, ◌≤◌, ◌==◌, ◌||◌, ℕ, Some, IfErr, IfOk, length, map};
ghost use Rattle.httparse.specs.Borrowed.{header_parts};
ghost use Rattle.httparse.specs.Grammar.{RequestHead};
ghost use Rattle.wire_frames.specs.Fields.{fields_of, is_head, lists_close};
ghost use Rattle.wire_frames.specs.Frames.{RefusesHead};
ghost use Rattle.wire_frames.specs.Heads.{head_extent};
ghost use Rattle.wire_frames.specs.Reading.{AreParts, ArePartsOf, FrameBody, Holds, RefuseHead};

use crate::fields::{Named, body_length, find_named, has_coding, has_one_host, lists_close};
use crate::refusals::Refusal;
use httparse::{EMPTY_HEADER, Header, Request, Status};

const MAX_FIELDS: usize = 64;

const FEW_FIELDS: usize = 16;

const MAX_BODY: u64 = 65_536;

/// The parts of a head that isn't refused.
#[derive(Clone, Copy)]
pub(crate) struct Parts<'b> {
    pub(crate) method: &'b str,
    pub(crate) target: &'b str,
    pub(crate) staff_key: Named<'b>,
    /// The length of the body.
    pub(crate) body: usize,
    pub(crate) close: bool,
}

// The length of the body that a head of this version and these fields frames.
fn body_size(minor: u8, headers: &[Header<'_>]) -> Result<usize, Refusal>
    ensures ok { IfOk result (λ body. FrameBody minor (map header_parts headers.now) body) }
    ensures err { IfErr result (λ refusal. RefuseHead minor (map header_parts headers.now) refusal) }
{
    if minor == 1 && !has_one_host(headers) {
        return Err(Refusal::BadHead);
    }
    let Some(body) = body_length(headers) else {
        return Err(Refusal::BadHead);
    };
    if has_coding(headers) {
        return Err(Refusal::TransferCoding);
    }
    if body > MAX_BODY {
        return Err(Refusal::BodyTooLarge);
    }
    Ok(body as usize)
}

fn is_head(method: &str) -> bool
    ensures { result ≡ is_head method.now }
{
    method == "HEAD"
}

// Whether no message may follow one of this version, method and fields.
fn closes(minor: u8, method: &str, headers: &[Header<'_>]) -> bool
    ensures { result ≡ ((minor == 0) || (is_head method.now || lists_close (map header_parts headers.now))) }
{
    minor == 0 || is_head(method) || lists_close(headers)
}

fn judge<'b>(request: &Request<'_, 'b>) -> Result<Parts<'b>, Refusal>
    ensures ok { IfOk result (λ parts. (h : RequestHead) → Holds request.now h → ArePartsOf h parts) }
    ensures err { IfErr result (λ refusal. (h : RequestHead) → Holds request.now h
        → RefuseHead h.minor (fields_of h) refusal) }
{
    let Some(method) = request.method else {
        return Err(Refusal::BadHead);
    };
    let Some(target) = request.path else {
        return Err(Refusal::BadHead);
    };
    let Some(minor) = request.version else {
        return Err(Refusal::BadHead);
    };
    let body = body_size(minor, request.headers)?;
    let staff_key = find_named(request.headers, "x-staff-key");
    let close = closes(minor, method, request.headers);
    Ok(Parts {
        method,
        target,
        staff_key,
        body,
        close,
    })
}

// What a whole head of so many lines comes to, read into this room.
fn read_into<'b>(
    head: &'b [u8],
    lines: usize,
    headers: &mut [Header<'b>],
) -> Result<Parts<'b>, Refusal>
    requires whole { head_extent head.now ≡ Some (record { length = length head.now; lines = lines }) }
    requires few { lines ≤ 65 }
    requires room { lines ≤ length headers.old + 1 }
    ensures ok { IfOk result (AreParts head.now lines) }
    ensures err { IfErr result (RefusesHead head.now lines) }
{
    let mut request = Request::new(headers);
    match request.parse(head) {
        Ok(Status::Complete(_)) => judge(&request),
        Ok(Status::Partial) => Err(Refusal::BadHead),
        Err(_) => Err(Refusal::BadHead),
    }
}

/// What a whole head of so many lines comes to. A line is the request's, and each other has one field.
pub(crate) fn read_head<'b>(head: &'b [u8], lines: usize) -> Result<Parts<'b>, Refusal>
    requires { head_extent head.now ≡ Some (record { length = length head.now; lines = lines }) }
    ensures ok { IfOk result (AreParts head.now lines) }
    ensures err { IfErr result (RefusesHead head.now lines) }
{
    if lines > MAX_FIELDS + 1 {
        return Err(Refusal::HeadTooLarge);
    }
    // Most heads have few fields, and to empty the greater room would take longer than to read them.
    if lines > FEW_FIELDS + 1 {
        read_into(head, lines, &mut [EMPTY_HEADER; MAX_FIELDS])
    } else {
        read_into(head, lines, &mut [EMPTY_HEADER; FEW_FIELDS])
    }
}
