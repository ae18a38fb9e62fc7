//! What is done with a socket, before a link is made of it and at its end.

ghost use Rattle.std.specs.Prelude.{◌≡◌, ℕ, ◌<◌, ◌≤◌, ◌↔◌, Contains, IfOk, IsTrue, length};
ghost use Rattle.venue_ports.specs.Sockets.{IsGone, gone_codes, gone_kinds};

use crate::reports::{read_count, write_count};
use crate::stream::Failed;
use std::io;
use std::io::{ErrorKind, Read, Write};
use std::net::{Shutdown, TcpListener, TcpStream};
use std::time::{Clock, Duration};

// How often a call that a signal has cut short is tried again.
const TRIES_AGAIN: usize = 16;

// How many pieces of what the other side still sends are taken at the end.
const LAST_READS: usize = 64;

/// What the clock shows.
pub(crate) fn now(clock: &impl Clock) -> Result<Duration, Failed> {
    clock.monotonic().map_err(|_| Failed)
}

/// How long it is since the clock showed that. A clock that went back is as good as none.
pub(crate) fn since(clock: &impl Clock, from: Duration) -> Result<Duration, Failed> {
    now(clock)?.checked_sub(from).ok_or(Failed)
}

/// Reads, and again where a signal came between.
pub(crate) fn read_again<S: Read>(stream: &mut S, buf: &mut [u8]) -> Result<usize, Failed>
    ensures bound { IfOk result (λ n. n ≤ length buf.old) }
{
    for _ in 0..TRIES_AGAIN {
        match stream.read(buf) {
            Err(error) if error.kind() == ErrorKind::Interrupted => {}
            reported => return read_count(reported),
        }
    }
    read_count(stream.read(buf))
}

/// Writes, and again where a signal came between. A write that takes nothing is a failure.
pub(crate) fn write_again<S: Write>(stream: &mut S, piece: &[u8]) -> Result<usize, Failed>
    ensures bound { IfOk result (λ n. (0 < n) × (n ≤ length piece.now)) }
{
    for _ in 0..TRIES_AGAIN {
        match stream.write(piece) {
            Err(error) if error.kind() == ErrorKind::Interrupted => {}
            reported => return write_count(reported),
        }
    }
    write_count(stream.write(piece))
}

// Whether an error of this kind is a connection's own.
fn has_gone_kind(kind: ErrorKind) -> bool
    ensures { IsTrue result ↔ Contains gone_kinds kind }
{
    let kinds = [
        ErrorKind::ConnectionAborted,
        ErrorKind::ConnectionReset,
        ErrorKind::Interrupted,
        ErrorKind::NetworkDown,
        ErrorKind::NetworkUnreachable,
        ErrorKind::HostUnreachable,
    ];
    kinds.contains(&kind)
}

// Whether an error of this number on Linux is one: ENONET, EPROTO, ENOPROTOOPT, EOPNOTSUPP or EHOSTDOWN.
fn has_gone_code(code: i32) -> bool
    ensures { IsTrue result ↔ Contains gone_codes code }
{
    [64, 71, 92, 95, 112].contains(&code)
}

/// Whether an accept failed because of the connection alone, which was gone before it was taken. Linux passes the network errors
/// of a connection on to the accept that takes it, and has no kind for some of them.
pub(crate) fn is_gone(kind: ErrorKind, code: Option<i32>) -> bool
    ensures { IsTrue result ↔ IsGone kind code }
{
    match code {
        Some(code) => has_gone_kind(kind) || has_gone_code(code),
        None => has_gone_kind(kind),
    }
}

// Sends each piece at once, and waits so long in a call.
fn prepare(stream: &TcpStream, wait: Duration) -> io::Result<()> {
    stream.set_nodelay(true)?;
    stream.set_read_timeout(Some(wait))?;
    stream.set_write_timeout(Some(wait))
}

/// Takes the next connection and prepares it: `None` where it is gone or doesn't let itself be prepared.
pub(crate) fn take_connection(
    listener: &TcpListener,
    wait: Duration,
) -> Result<Option<TcpStream>, Failed> {
    match listener.accept() {
        Ok((stream, _)) => match prepare(&stream, wait) {
            Ok(()) => Ok(Some(stream)),
            Err(_) => Ok(None),
        },
        Err(error) if is_gone(error.kind(), error.raw_os_error()) => Ok(None),
        Err(_) => Err(Failed),
    }
}

// Takes a piece of what comes within this time, and answers whether more may come.
fn take_rest(mut stream: &TcpStream, within: Duration) -> bool {
    let mut buf = [0; 4096];
    stream.set_read_timeout(Some(within)).is_ok() && matches!(stream.read(&mut buf), Ok(1..))
}

/// Tells the other side that no more comes, and takes what it still sends for so long. If the socket were closed with bytes
/// in it, then the other side would lose what it has not read.
pub(crate) fn linger(clock: &impl Clock, stream: &TcpStream, most: Duration) -> Result<(), Failed> {
    let from = now(clock)?;
    stream.shutdown(Shutdown::Write).map_err(|_| Failed)?;
    for _ in 0..LAST_READS {
        let left = most.saturating_sub(since(clock, from)?);
        if left.is_zero() || !take_rest(stream, left) {
            return Ok(());
        }
    }
    Ok(())
}
