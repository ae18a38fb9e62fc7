//! How long links wait.

ghost use Rattle.venue_ports.specs.Sockets.{AreServers};

use std::time::Duration;

/// The limits in time of a link.
#[derive(Clone, Copy)]
pub(crate) struct Limits {
    /// The longest that a single read or write waits.
    pub(crate) wait: Duration,
    /// The most that all reads wait together, since the accept or the last write.
    pub(crate) patience: Duration,
    /// The most that all writes wait together, since the last read that gave bytes.
    pub(crate) delivery: Duration,
    /// How long what the other side still sends is taken at the end.
    pub(crate) linger: Duration,
}

impl Limits {
    /// The limits of a server.
    pub(crate) fn of_a_server() -> Limits
        ensures { AreServers result }
    {
        Limits {
            wait: Duration::from_secs(10),
            patience: Duration::from_secs(30),
            delivery: Duration::from_secs(60),
            linger: Duration::from_secs(2),
        }
    }
}
