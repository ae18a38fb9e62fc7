//! What is seen of a connection that waits without a worker. What it sent stays in the system.

ghost use Rattle.std.specs.Prelude.{◌↔◌, IsTrue};
ghost use Rattle.venue_sockets.specs.Looks.{IsReady, IsWhole};

use mio::net::TcpStream;
use std::io::ErrorKind;
use wire_frames::{Framing, frame};

/// How many bytes a look sees at most. A message that is longer is read by a worker.
pub(crate) const MOST_SEEN: usize = 16_384;

// How often a look that a signal has cut short is tried again.
const TRIES_AGAIN: usize = 16;

/// What a look finds.
#[derive(Clone, Copy, PartialEq, Eq)]
pub(crate) enum Seen {
    /// Less than a message.
    Part,
    /// Something for a worker.
    Ready,
    /// The end without a byte, or a connection that is gone.
    Gone,
}

// Whether a whole message or a refusal is at the front.
fn is_whole(bytes: &[u8]) -> bool
    ensures { IsTrue result ↔ IsWhole bytes.now }
{
    match frame(bytes) {
        Framing::More { .. } => false,
        Framing::Fault(_) => true,
        Framing::Framed(_) => true,
    }
}

// Whether what is at the front is something for a worker.
fn is_ready(bytes: &[u8], ended: bool) -> bool
    ensures { IsTrue result ↔ IsReady bytes.now ended }
{
    if ended || bytes.len() >= MOST_SEEN {
        return true;
    }
    is_whole(bytes)
}

// How many bytes are there, up to the buffer's length: `None` where none came yet.
fn peek(stream: &TcpStream, buf: &mut [u8]) -> Result<Option<usize>, ErrorKind> {
    for _ in 0..TRIES_AGAIN {
        match stream.peek(buf) {
            Ok(count) => return Ok(Some(count)),
            Err(error) => match error.kind() {
                ErrorKind::WouldBlock => return Ok(None),
                ErrorKind::Interrupted => {}
                kind => return Err(kind),
            },
        }
    }
    Err(ErrorKind::Interrupted)
}

/// Looks at a connection, whose input has ended or may not have.
pub(crate) fn look(stream: &TcpStream, buf: &mut [u8], ended: bool) -> Seen {
    match peek(stream, buf) {
        Ok(None) => Seen::Part,
        Ok(Some(0)) | Err(_) => Seen::Gone,
        Ok(Some(count)) => match buf.get(..count) {
            Some(bytes) if !is_ready(bytes, ended) => Seen::Part,
            _ => Seen::Ready,
        },
    }
}
