//! Why the system hands out no connection.

ghost use Rattle.std.specs.Prelude.{◌≡◌, ◌≢◌, ◌↔◌, Contains, IsTrue};
ghost use Rattle.venue_ports.specs.Sockets.{IsGone, gone_codes, gone_kinds};
ghost use Rattle.venue_sockets.specs.Refusals.{IsFull, full_codes};

use std::io::ErrorKind;

/// Why an accept gave no connection.
#[derive(Clone, Copy, PartialEq, Eq)]
pub(crate) enum NoConnection {
    /// None has come.
    NoneCame,
    /// It was gone before it was taken.
    Gone,
    /// There are too many files, or there is no memory for a socket.
    Full,
    /// The listener itself fails.
    Broken,
}

/// Whether the system lacked room for a connection, and whether that was told.
#[derive(Clone, Copy, PartialEq, Eq)]
pub(crate) enum Shortage {
    /// It never did.
    Never,
    /// It did, and nobody has been told.
    Untold,
    /// It did, and it was told.
    Told,
}

impl Shortage {
    /// The system lacks room.
    pub(crate) fn came(&mut self)
        ensures first { self.old ≡ Shortage.Never → self.new ≡ Shortage.Untold }
        ensures later { self.old ≢ Shortage.Never → self.new ≡ self.old }
    {
        if *self == Shortage::Never {
            *self = Shortage::Untold;
        }
    }

    /// Whether it is to be told, and takes that for told.
    pub(crate) fn take_news(&mut self) -> bool
        ensures due { IsTrue result ↔ (self.old ≡ Shortage.Untold) }
        ensures told { IsTrue result → self.new ≡ Shortage.Told }
        ensures kept { ¬ IsTrue result → self.new ≡ self.old }
    {
        if *self != Shortage::Untold {
            return false;
        }
        *self = Shortage::Told;
        true
    }
}

// Whether an error of this kind is a connection's own.
fn has_gone_kind(kind: ErrorKind) -> bool
    ensures { IsTrue result ↔ Contains gone_kinds kind }
{
    let kinds = [
        ErrorKind::ConnectionAborted,
        ErrorKind::ConnectionReset,
        ErrorKind::Interrupted,
        ErrorKind::NetworkDown,
        ErrorKind::NetworkUnreachable,
        ErrorKind::HostUnreachable,
    ];
    kinds.contains(&kind)
}

// Whether an error of this number on Linux is one: ENONET, EPROTO, ENOPROTOOPT, EOPNOTSUPP or EHOSTDOWN.
fn has_gone_code(code: i32) -> bool
    ensures { IsTrue result ↔ Contains gone_codes code }
{
    [64, 71, 92, 95, 112].contains(&code)
}

// Whether an accept failed because of the connection alone. Linux passes the network errors of a connection on to the accept
// that takes it, and has no kind for some of them.
fn is_gone(kind: ErrorKind, code: Option<i32>) -> bool
    ensures { IsTrue result ↔ IsGone kind code }
{
    match code {
        Some(code) => has_gone_kind(kind) || has_gone_code(code),
        None => has_gone_kind(kind),
    }
}

// Whether an accept failed because there is no room: ENOMEM, ENFILE, EMFILE or ENOBUFS.
fn is_full(code: Option<i32>) -> bool
    ensures { IsTrue result ↔ IsFull code }
{
    match code {
        Some(code) => [12, 23, 24, 105].contains(&code),
        None => false,
    }
}

/// Why an accept gave no connection, by its error.
pub(crate) fn why(kind: ErrorKind, code: Option<i32>) -> NoConnection
    ensures none_came { (result ≡ NoConnection.NoneCame) ↔ (kind ≡ ErrorKind.WouldBlock) }
    ensures gone { kind ≢ ErrorKind.WouldBlock → (result ≡ NoConnection.Gone) ↔ IsGone kind code }
    ensures full { result ≡ NoConnection.Full → IsFull code }
    ensures broken { result ≡ NoConnection.Broken → ¬ IsFull code }
{
    if kind == ErrorKind::WouldBlock {
        return NoConnection::NoneCame;
    }
    if is_gone(kind, code) {
        return NoConnection::Gone;
    }
    if is_full(code) {
        NoConnection::Full
    } else {
        NoConnection::Broken
    }
}
