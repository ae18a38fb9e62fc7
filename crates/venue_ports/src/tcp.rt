//! A TCP listener. Its contracts say nothing of what comes or goes.

ghost use Rattle.std.specs.Prelude.{◌≡◌, ℕ, ◌≤◌, IfOk, OnErr, OnOk, None, length, is_some, true, false};
ghost use Rattle.std.specs.Duration.{as_nanos};
ghost use Rattle.venue_ports.specs.Causes.{one_more, HasExactCause};
ghost use Rattle.venue_ports.specs.Sockets.{AreServers};
ghost use Rattle.venue_ports.specs.Waits.{no_waits};

use crate::doors::Doors;
use crate::limits::Limits;
use crate::sockets::take_connection;
use crate::stream::Failed;
use crate::tcp_link::TcpLink;
use std::net::{Net, TcpListener, TcpStream};
use std::time::Clock;

// How many connections one accept takes that are gone already.
const GONE_CONNECTIONS: usize = 64;

/// A TCP listener. An accept passes over up to 64 connections that are gone before they were taken.
#[derive(Drop)]
pub struct TcpDoors<'a, R> {
    rt: &'a R,
    listener: Option<TcpListener>,
    limits: Limits,
    accepted: u64,
    faults: u64,
}

impl<'a, R> TcpDoors<'a, R> {
    /// Doors that are not ready.
    pub fn new(rt: &'a R) -> TcpDoors<'a, R>
        ensures not_ready { is_some result.listener ≡ false }
        ensures accepted { result.accepted ≡ 0 }
        ensures faults { result.faults ≡ 0 }
        ensures limits { AreServers result.limits }
    {
        TcpDoors::with_limits(rt, Limits::of_a_server())
    }

    /// The same with these limits.
    pub(crate) fn with_limits(rt: &'a R, limits: Limits) -> TcpDoors<'a, R>
        ensures not_ready { is_some result.listener ≡ false }
        ensures accepted { result.accepted ≡ 0 }
        ensures faults { result.faults ≡ 0 }
        ensures limits { result.limits ≡ limits }
    {
        TcpDoors {
            rt,
            listener: None,
            limits,
            accepted: 0,
            faults: 0,
        }
    }

    // Counts a failure.
    fn failed(&mut self) -> Failed
        ensures counted { self.new ≡ record self.old { faults = one_more self.old.faults } }
        ensures later { self.old.faults ≤ self.new.faults }
    {
        self.faults = self.faults.saturating_add(1);
        Failed
    }

    // The next connection that is there.
    fn next_connection(&self) -> Result<TcpStream, Failed> {
        let Some(listener) = &self.listener else {
            return Err(Failed);
        };
        for _ in 0..GONE_CONNECTIONS {
            if let Some(stream) = take_connection(listener, self.limits.wait)? {
                return Ok(stream);
            }
        }
        Err(Failed)
    }
}

impl<'a, R: Net<Listener = TcpListener, Stream = TcpStream> + Clock + Sync> Doors
    for TcpDoors<'a, R> {
    type Conn = TcpLink<'a, R>;

    ghost ready = { λ d. is_some d.listener };

    ghost accepted = { λ d. d.accepted };

    ghost binds = { λ _. None };

    ghost bound = { λ _. None };

    ghost faults = { λ d. d.faults };

    fn fault_count(&self) -> u64 {
        self.faults
    }

    fn bind(&mut self, address: &str) -> Result<(), Failed>
        requires not_ready { is_some self.old.listener ≡ false }
        requires short { length address.now ≤ 256 }
        ensures ok { OnOk result (is_some self.new.listener ≡ true) }
        ensures err { OnErr result (is_some self.new.listener ≡ false) }
        ensures accepted { self.new.accepted ≡ self.old.accepted }
        ensures cause { HasExactCause self.old.faults self.new.faults result }

        ensures counted { OnErr result (self.new.faults ≡ one_more self.old.faults) }
        ensures limits { self.new.limits ≡ self.old.limits }
    {
        match TcpListener::bind(self.rt, address) {
            Ok(listener) => {
                self.listener = Some(listener);
                Ok(())
            }
            Err(_) => Err(self.failed()),
        }
    }

    fn accept(&mut self) -> Result<TcpLink<'a, R>, Failed>
        requires { is_some self.old.listener ≡ true }
        ensures ok { OnOk result (self.new.accepted ≡ one_more self.old.accepted) }
        ensures err { OnErr result (self.new.accepted ≡ self.old.accepted) }
        ensures ready { is_some self.new.listener ≡ true }
        ensures cause { HasExactCause self.old.faults self.new.faults result }

        ensures counted { OnErr result (self.new.faults ≡ one_more self.old.faults) }
        ensures limits { self.new.limits ≡ self.old.limits }
        ensures no_faults { IfOk result (λ l. l.faults ≡ 0) }
        ensures no_end { IfOk result (λ l. l.ended ≡ false) }
        ensures linger { IfOk result (λ l. l.linger ≡ self.old.limits.linger) }
        ensures no_waits { IfOk result (λ l. l.waiting ≡ no_waits (as_nanos self.old.limits.patience) (as_nanos self.old.limits.delivery)) }
    {
        match self.next_connection() {
            Ok(stream) => {
                self.accepted = self.accepted.saturating_add(1);
                Ok(TcpLink::new(self.rt, stream, self.limits))
            }
            Err(_) => Err(self.failed()),
        }
    }
}
