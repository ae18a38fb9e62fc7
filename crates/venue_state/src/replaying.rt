//! A version in the making, changed in place entry by entry.

ghost use Rattle.std.specs.Prelude.{◌≡◌, IfOk};
ghost use Rattle.std.specs.Arc.{arc_value};
ghost use Rattle.venue_history.specs.Versions.{opening};
ghost use Rattle.venue_state.specs.Replaying.{IsClosureAct, IsEntered, IsLeft};

use crate::act_checks::{has_settings, may_follow};
use crate::board::Board;
use crate::outgoing::Outgoing;
use crate::stand::Stand;
use crate::stand_after::make;
use std::alloc::Global;
use std::marker::Model;
use std::sync::Arc;
use venue_history::{Act, Venue};
use venue_types::{OutOfMemory, Settings};

/// A version of which only the last is to be asked: the entries of a kept history are made in it one after the other.
#[derive(Drop)]
pub struct Replaying {
    pub(crate) stand: Stand,
}

impl Model for Replaying {
    ghost use Rattle.venue_history.specs.Closed.{Version};
    ghost use Rattle.venue_state.specs.Boards.{IsStand, version_of};

    ghost Value = { Version };

    ghost view = { λ r. version_of r.stand };

    ghost invariant = { λ r. IsStand r.stand };
}

impl Replaying {
    /// The version with which the venue opens a history.
    pub fn first(
        alloc: Global,
        venue: Arc<Venue>,
        settings: Arc<Settings>,
    ) -> Result<Replaying, OutOfMemory>
        requires { (arc_value venue).settings ≡ arc_value settings }
        ensures { IfOk result (λ r. r ≡ opening (arc_value venue).features (arc_value settings)) }
    {
        let stand = Stand::first(alloc, venue, settings)?;
        Ok(Replaying { stand })
    }

    /// Makes a closure or a reopening by a worker, and tells whether it may be made at this version; else the version stays. Takes no memory,
    /// and looks for one identifier.
    pub fn step(&mut self, act: &Act, worker: u8) -> bool
        requires { IsClosureAct act.now }
        ensures { IsEntered self.old (record { worker = worker; act = act.now }) result self.new }
    {
        if !has_settings(&self.stand, act) {
            return false;
        }
        if !may_follow(&self.stand, act, worker) {
            return false;
        }
        make(&mut self.stand, act);
        true
    }

    /// Lets the venue go, so that only a publication goes on from what is left. Takes memory in proportion to what is closed.
    pub fn let_go(self, alloc: Global) -> Result<Outgoing, OutOfMemory>
        ensures { IfOk result (IsLeft self) }
    {
        self.stand.outgoing(alloc)
    }

    /// The board of this version.
    pub fn finish(self, alloc: Global) -> Result<Board, OutOfMemory>
        ensures { IfOk result (λ board. board ≡ self) }
    {
        let Self { stand } = self;
        Board::of(alloc, stand)
    }
}
