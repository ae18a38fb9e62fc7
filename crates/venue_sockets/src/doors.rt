//! The doors of the lobby. Their contracts say nothing of what comes or goes.

ghost use Rattle.std.specs.Prelude.{◌≡◌, ℕ, ◌≤◌, IfOk, OnErr, OnOk, None, length, true, false};
ghost use Rattle.venue_ports.specs.Causes.{one_more, HasExactCause};
ghost use Rattle.venue_ports.specs.Waits.{no_waits};
ghost use Rattle.venue_sockets.specs.declared.limits.Awaited.TheVariants.{Bytes, Room};
ghost use Rattle.venue_sockets.specs.declared.limits.Behind.TheVariants.{Nobody};
ghost use Rattle.venue_sockets.specs.Limits.{most_nanos};

use crate::link::LobbyLink;
use crate::lobby::Lobby;
use std::net::Net;
use std::sync::Wait;
use std::time::Clock;
use venue_ports::{Doors, Failed};

/// A listener whose connections wait in a lobby until a worker has something to do. What was accepted is what was handed out: a
/// connection that is closed in the lobby counts neither there nor among the faults.
#[derive(Drop)]
pub struct LobbyDoors<'a, R> {
    rt: &'a R,
    lobby: &'a Lobby,
    is_bound: bool,
    accepted: u64,
    faults: u64,
}

impl<'a, R> LobbyDoors<'a, R> {
    /// Doors of a lobby, which are not ready.
    pub fn new(rt: &'a R, lobby: &'a Lobby) -> LobbyDoors<'a, R>
        ensures not_ready { result.is_bound ≡ false }
        ensures accepted { result.accepted ≡ 0 }
        ensures faults { result.faults ≡ 0 }
    {
        LobbyDoors {
            rt,
            lobby,
            is_bound: false,
            accepted: 0,
            faults: 0,
        }
    }

    // Counts a failure.
    fn failed(&mut self) -> Failed
        ensures counted { self.new ≡ record self.old { faults = one_more self.old.faults } }
        ensures later { self.old.faults ≤ self.new.faults }
    {
        self.faults = self.faults.saturating_add(1);
        Failed
    }
}

impl<'a, R: Net + Clock + Eprint + Wait + Sync> Doors for LobbyDoors<'a, R> {
    type Conn = LobbyLink<'a, R>;

    ghost ready = { λ d. d.is_bound };

    ghost accepted = { λ d. d.accepted };

    ghost binds = { λ _. None };

    ghost bound = { λ _. None };

    ghost faults = { λ d. d.faults };

    fn fault_count(&self) -> u64 {
        self.faults
    }

    fn bind(&mut self, address: &str) -> Result<(), Failed>
        requires not_ready { self.old.is_bound ≡ false }
        requires short { length address.now ≤ 256 }
        ensures ok { OnOk result (self.new.is_bound ≡ true) }
        ensures err { OnErr result (self.new.is_bound ≡ false) }
        ensures accepted { self.new.accepted ≡ self.old.accepted }
        ensures cause { HasExactCause self.old.faults self.new.faults result }

        ensures counted { OnErr result (self.new.faults ≡ one_more self.old.faults) }
    {
        match self.lobby.open(self.rt, address) {
            Ok(()) => {
                self.is_bound = true;
                Ok(())
            }
            Err(_) => Err(self.failed()),
        }
    }

    fn accept(&mut self) -> Result<LobbyLink<'a, R>, Failed>
        requires { self.old.is_bound ≡ true }
        ensures ok { OnOk result (self.new.accepted ≡ one_more self.old.accepted) }
        ensures err { OnErr result (self.new.accepted ≡ self.old.accepted) }
        ensures ready { self.new.is_bound ≡ true }
        ensures cause { HasExactCause self.old.faults self.new.faults result }

        ensures counted { OnErr result (self.new.faults ≡ one_more self.old.faults) }
        ensures no_faults { IfOk result (λ l. l.faults ≡ 0) }
        ensures no_end { IfOk result (λ l. l.ended ≡ false) }
        ensures no_waits { IfOk result (λ l. l.waiting ≡ no_waits (most_nanos Bytes Nobody) (most_nanos Room Nobody)) }
    {
        match self.lobby.next(self.rt) {
            Ok(stream) => {
                self.accepted = self.accepted.saturating_add(1);
                Ok(LobbyLink::new(self.rt, self.lobby, stream))
            }
            Err(_) => Err(self.failed()),
        }
    }
}
