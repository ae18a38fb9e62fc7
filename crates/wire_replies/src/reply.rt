//! The bytes of an answer.

ghost use Rattle.std.specs.Prelude.{◌≡◌, IfOk, None};
ghost use Rattle.serde_json.specs.Written.{compact_text};
ghost use Rattle.venue_types.specs.declared.reply.Reply.TheVariants.{OutOfMemory as WantOfMemory};
ghost use Rattle.wire_replies.specs.declared.response.Response.TheVariants.{Of};
ghost use Rattle.wire_replies.specs.Replies.{message_text, reply_text};
ghost use Rattle.wire_replies.specs.Statuses.{status_code};

use crate::heads::{HttpStatus, content_lines, last_lines, reply_status, status_line};
use crate::written::Written;
use itoa::Buffer;
use json::Writer;
use std::alloc::{AllocError, Global};
use venue_types::{Bytes, OutOfMemory, Reply};

// More bytes than any head has.
const HEAD_ROOM: usize = 256;

// Most bodies fit into so many bytes at once.
const BODY_ROOM: usize = 512;

// The text of a body.
fn body_text<T: Written>(alloc: Global, body: &T) -> Result<Vec<u8>, AllocError>
    ensures { IfOk result (λ text. text.items ≡ compact_text (T.shown body.now)) }
{
    let mut out = Writer::new(Vec::with_capacity(alloc, BODY_ROOM)?);
    body.write_to(alloc, &mut out)?;
    Ok(out.into_inner())
}

// A message around a body, in one piece of memory.
fn message(
    alloc: Global,
    status: HttpStatus,
    close: bool,
    body: &[u8],
) -> Result<Vec<u8>, AllocError>
    ensures { IfOk result (λ bytes. bytes.items ≡ message_text (status_code status) None close body.now) }
{
    let mut length = Buffer::new();
    let mut bytes = Vec::with_capacity(alloc, body.len().saturating_add(HEAD_ROOM))?;
    bytes.extend_from_slice(status_line(status).as_bytes())?;
    bytes.extend_from_slice(content_lines().as_bytes())?;
    bytes.extend_from_slice(length.format(body.len()).as_bytes())?;
    bytes.extend_from_slice(last_lines(close).as_bytes())?;
    bytes.extend_from_slice(body)?;
    Ok(bytes)
}

fn reply_message(alloc: Global, reply: &Reply, close: bool) -> Result<Vec<u8>, AllocError>
    ensures { IfOk result (λ bytes. bytes.items ≡ reply_text (Of reply.now) close) }
{
    let body = body_text(alloc, reply)?;
    message(alloc, reply_status(reply), close, &body)
}

/// The bytes of a reply, where the session goes on or ends. It takes time and memory by their number.
pub fn reply_bytes(alloc: Global, reply: &Reply, close: bool) -> Result<Bytes, OutOfMemory>
    ensures { IfOk result (λ bytes. bytes ≡ reply_text (Of reply.now) close) }
{
    let bytes = reply_message(alloc, reply, close)?;
    Ok(Bytes::from_vec(bytes))
}

// The text of the reply that memory ran out.
fn wants_text(close: bool) -> &'static str
    ensures { result.now ≡ reply_text (Of WantOfMemory) close }
{
    if close {
        "HTTP/1.1 503 Service Unavailable\r\ncontent-type: application/json\r\ncontent-length: 26\r\nconnection: close\r\n\r\n{\"error\":\"want_of_memory\"}"
    } else {
        "HTTP/1.1 503 Service Unavailable\r\ncontent-type: application/json\r\ncontent-length: 26\r\n\r\n{\"error\":\"want_of_memory\"}"
    }
}

/// The bytes of the reply that memory ran out, which take none.
pub fn want_of_memory(close: bool) -> &'static [u8]
    ensures { result.now ≡ reply_text (Of WantOfMemory) close }
{
    wants_text(close).as_bytes()
}
