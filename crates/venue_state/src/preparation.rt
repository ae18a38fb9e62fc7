//! From an act to a change that is ready.

ghost use Rattle.std.specs.Prelude.{◌≡◌, ◌≤◌, IfOk, IfErr};
ghost use Rattle.venue_state.specs.Boards.{IsStand, version_of};
ghost use Rattle.venue_state.specs.Preparing.{HasSettings, IsReady, IsPrepared, IsUnready};

use crate::act_checks::judge;
use crate::board::Board;
use crate::prepared::{NextBoard, Prepared};
use crate::stand::Stand;
use crate::stand_after::{After, following};
use crate::unready::Unready;
use std::alloc::Global;
use venue_history::{Act, Entry};

// An act made ready at what stands.
fn ready_at(alloc: Global, stand: &Stand, act: Act, worker: u8) -> Result<NextBoard, Unready>
    requires stands { IsStand stand.now }
    requires some { 1 ≤ worker }
    requires range { worker ≤ 16 }
    requires settings { HasSettings (version_of stand.now) act }
    ensures ready { IfOk result (λ ready. IsReady (version_of stand.now) act worker ready) }
    ensures unready { IfErr result (λ unready. IsUnready (version_of stand.now) act unready) }
{
    judge(stand, &act)?;
    let After { stand, dropped } = following(alloc, stand, &act)?;
    let board = Board::of(alloc, stand)?;
    Ok(NextBoard {
        entry: Entry { worker, act },
        dropped,
        board,
    })
}

impl Board {
    /// Makes an act of a worker ready, with all memory that it needs, or tells why it can't be done. Changes nothing. A closure takes
    /// the time of copying the marks, a publication besides that of finding each closed feature in the new venue.
    pub fn ready(&self, alloc: Global, act: Act, worker: u8) -> Result<NextBoard, Unready>
        requires some { 1 ≤ worker }
        requires range { worker ≤ 16 }
        requires settings { HasSettings self.now act }
        ensures ready { IfOk result (λ ready. IsReady self.now act worker ready) }
        ensures unready { IfErr result (λ unready. IsUnready self.now act unready) }
    {
        ready_at(alloc, self.stand(), act, worker)
    }

    /// Makes an act ready as `ready` does, for two boards that it is applied to.
    pub fn prepare(&self, alloc: Global, act: Act, worker: u8) -> Result<Prepared, Unready>
        requires some { 1 ≤ worker }
        requires range { worker ≤ 16 }
        requires settings { HasSettings self.now act }
        ensures ready { IfOk result (λ prepared. IsPrepared self.now act worker prepared) }
        ensures unready { IfErr result (λ unready. IsUnready self.now act unready) }
    {
        let ready = self.ready(alloc, act, worker)?;
        let prepared = Prepared::of(ready)?;
        Ok(prepared)
    }
}
