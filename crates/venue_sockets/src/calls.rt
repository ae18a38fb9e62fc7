//! Calls of the system at a socket that a worker has. None of them waits for longer than a slice.

ghost use Rattle.std.specs.Prelude.{◌≡◌, ℕ, ◌<◌, ◌≤◌, IfOk, IfSome, length};

use crate::limits::SLICE_MILLIS;
use std::io;
use std::io::{ErrorKind, Read, Write};
use std::net::{Shutdown, TcpStream};
use std::time::{Clock, Duration};
use venue_ports::Failed;

/// What the clock shows.
pub(crate) fn now(clock: &impl Clock) -> Result<Duration, Failed> {
    clock.monotonic().map_err(|_| Failed)
}

/// How long it is since the clock showed that. A clock that went back is as good as none.
pub(crate) fn since(clock: &impl Clock, from: Duration) -> Result<Duration, Failed> {
    now(clock)?.checked_sub(from).ok_or(Failed)
}

// Whether a call that failed so may be made again: a slice has passed, or a signal came between.
fn may_go_on(kind: ErrorKind) -> bool {
    matches!(
        kind,
        ErrorKind::WouldBlock | ErrorKind::TimedOut | ErrorKind::Interrupted
    )
}

/// Reads within a slice: `None` where nothing came.
pub(crate) fn read_slice<S: Read>(stream: &mut S, buf: &mut [u8]) -> Result<Option<usize>, Failed>
    ensures { IfOk result (λ read. IfSome read (λ n. n ≤ length buf.old)) }
{
    match stream.read(buf) {
        Ok(count) => Ok(Some(count)),
        Err(error) if may_go_on(error.kind()) => Ok(None),
        Err(_) => Err(Failed),
    }
}

/// Writes within a slice: `None` where nothing was taken. A write that takes nothing at once is a failure.
pub(crate) fn write_slice<S: Write>(stream: &mut S, piece: &[u8]) -> Result<Option<usize>, Failed>
    ensures { IfOk result (λ written. IfSome written (λ n. (0 < n) × (n ≤ length piece.now))) }
{
    match stream.write(piece) {
        Ok(count) if count > 0 => Ok(Some(count)),
        Ok(_) => Err(Failed),
        Err(error) if may_go_on(error.kind()) => Ok(None),
        Err(_) => Err(Failed),
    }
}

/// Reads what is there already: `None` where nothing is.
pub(crate) fn read_at_once(stream: &TcpStream, buf: &mut [u8]) -> Result<Option<usize>, Failed>
    ensures { IfOk result (λ read. IfSome read (λ n. n ≤ length buf.old)) }
{
    stream.set_nonblocking(true).map_err(|_| Failed)?;
    let mut reader = stream;
    let read = read_slice(&mut reader, buf);
    stream.set_nonblocking(false).map_err(|_| Failed)?;
    read
}

// Has reads wait for a slice.
fn set_read_options(stream: &TcpStream) -> io::Result<()> {
    stream.set_nonblocking(false)?;
    stream.set_read_timeout(Some(Duration::from_millis(SLICE_MILLIS)))
}

// Has calls wait for a slice, and each piece sent at once.
fn set_options(stream: &TcpStream) -> io::Result<()> {
    set_read_options(stream)?;
    stream.set_nodelay(true)?;
    stream.set_write_timeout(Some(Duration::from_millis(SLICE_MILLIS)))
}

/// From now on a call at the socket waits for a slice, and each piece is sent at once. Until then none waits.
pub(crate) fn let_wait(stream: &TcpStream) -> Result<(), Failed> {
    set_options(stream).map_err(|_| Failed)
}

/// From now on a read at the socket waits for a slice.
pub(crate) fn let_read_wait(stream: &TcpStream) -> Result<(), Failed> {
    set_read_options(stream).map_err(|_| Failed)
}

/// Tells the other side that no more comes.
pub(crate) fn end_output(stream: &TcpStream) -> Result<(), Failed> {
    stream.shutdown(Shutdown::Write).map_err(|_| Failed)
}
