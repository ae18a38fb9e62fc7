//! The desk at the doors, which workers share under a lock.

ghost use Rattle.std.specs.Prelude.{◌≡◌, ◌≢◌, ℕ, ◌+◌, ◌-◌, ◌≤◌, ◌↔◌, true, false};
ghost use Rattle.venue_ports.specs.Causes.{one_more, Rose};
ghost use Rattle.venue_service.specs.Desks.{raised};

use crate::guest::Guest;
use shared_hall::HallName;
use std::marker::{Model, PhantomData};
use venue_ports::{Doors, Stream};

/// What comes of an accept.
pub enum Next<N, C> {
    /// All connections were accepted.
    Nobody,
    /// The accept failed.
    Failed,
    /// A connection that must be served.
    Conn(Guest<N, C>),
}

/// Doors that are bound, how many connections are still to be accepted, and whether an accept has failed.
#[derive(Drop)]
pub struct DoorDesk<N: HallName, D: Doors> {
    doors: D,
    left: u32,
    failed: bool,
    name: PhantomData<N>,
}

impl<N: HallName, D: Doors> Model for DoorDesk<N, D> {
    ghost use Rattle.std.specs.Prelude.{◌≡◌, ◌-◌, ◌≤◌, true, false};
    ghost use Rattle.venue_ports.specs.Causes.{Rose};
    ghost use Rattle.venue_service.specs.Desks.{raised, DeskFacts};

    ghost Value = { DeskFacts };

    ghost view = { λ d. record { left = d.left; failed = d.failed; accepted = D.accepted d.doors; faults = D.faults d.doors } };

    ghost invariant = { λ d. (D.ready d.doors ≡ true) × (D.binds d.doors ≡ N.binds) × (D.bound d.doors ≡ N.bound) × (d.left ≤ N.connections) × (D.accepted d.doors ≡ raised (N.connections - d.left) N.accepted) × (N.door_count ≤ D.faults d.doors) × (d.failed ≡ false → D.faults d.doors ≡ N.door_count) × (d.failed ≡ true → Rose N.door_count (D.faults d.doors)) };
}

impl<N: HallName, D: Doors> DoorDesk<N, D> {
    ghost use Rattle.venue_service.specs.Steps.{IsNobody, IsFailed, IsGuest};

    /// A desk at doors that were bound, for so many connections. Takes no memory.
    pub fn new(doors: D, connections: u32) -> DoorDesk<N, D>
        requires ready { D.ready doors ≡ true }
        requires binds { D.binds doors ≡ N.binds }
        requires bound { D.bound doors ≡ N.bound }
        requires connections { connections ≡ N.connections }
        requires accepted { D.accepted doors ≡ N.accepted }
        requires faults { D.faults doors ≡ N.door_count }
        ensures left { result.left ≡ connections }
        ensures sound { result.failed ≡ false }
    {
        DoorDesk {
            doors,
            left: connections,
            failed: false,
            name: PhantomData,
        }
    }

    /// The next connection, while there are some left. Takes no memory. It waits in the doors alone.
    pub fn next(&mut self) -> Next<N, D::Conn>
        ensures nobody { IsNobody result ↔ (self.old.left ≡ 0) }
        ensures kept { IsNobody result → self.new ≡ self.old }
        ensures failed { IsFailed result → (self.new.failed ≡ true) × (self.new.left ≡ self.old.left) × (self.new.accepted ≡ self.old.accepted) × Rose self.old.faults self.new.faults }
        ensures guest { IsGuest result → (self.new.left + 1 ≡ self.old.left) × (self.new.failed ≡ self.old.failed) × (self.new.accepted ≡ one_more self.old.accepted) × (self.new.faults ≡ self.old.faults) }
    {
        if self.left == 0 {
            return Next::Nobody;
        }
        match self.doors.accept() {
            Ok(conn) => {
                self.left -= 1;
                Next::Conn(Guest::new(conn))
            }
            Err(_) => {
                self.failed = true;
                Next::Failed
            }
        }
    }

    /// How many connections are still to be accepted.
    pub fn left(&self) -> u32
        ensures left { result ≡ self.now.left }
        ensures few { self.now.left ≤ N.connections }
    {
        self.left
    }

    /// Whether an accept has failed.
    pub fn failed(&self) -> bool
        ensures { result ≡ self.now.failed }
    {
        self.failed
    }

    /// The doors, once all is served.
    pub fn into_doors(self) -> D
        ensures ready { D.ready result ≡ true }
        ensures binds { D.binds result ≡ N.binds }
        ensures bound { D.bound result ≡ N.bound }
        ensures accepted { D.accepted result ≡ self.accepted }
        ensures counted { self.accepted ≡ raised (N.connections - self.left) N.accepted }
        ensures faults { D.faults result ≡ self.faults }
        ensures later { N.door_count ≤ self.faults }
        ensures sound { self.failed ≡ false → self.faults ≡ N.door_count }
        ensures failing { self.failed ≡ true → Rose N.door_count self.faults }
    {
        let DoorDesk { doors, .. } = self;
        doors
    }
}
