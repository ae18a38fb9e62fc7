//! Changes that are ready.

ghost use Rattle.std.specs.Prelude.{◌≡◌, IfOk};
ghost use Rattle.venue_state.specs.Preparing.{IsApplied, IsGiven};

use crate::board::Board;
use std::marker::Model;
use venue_history::Entry;
use venue_types::{FeatureId, List, OutOfMemory};

/// What a change that is ready brings: its entry, the closed features that it drops, in their order, and the board after it.
#[derive(Drop)]
pub struct NextBoard {
    pub entry: Entry,
    pub dropped: List<FeatureId>,
    pub board: Board,
}

/// A change that was made ready, and two handles to the board after it, which it gives away.
#[derive(Drop)]
pub struct Prepared {
    ready: NextBoard,
    one: Option<Board>,
    other: Option<Board>,
}

impl Model for Prepared {
    ghost use Rattle.std.specs.Prelude.{◌+◌};
    ghost use Rattle.venue_state.specs.Preparing.{Given, AreHandles, left_of};

    ghost Value = { Given };

    ghost view = { λ a. record { ready = a.ready; left = left_of a.one + left_of a.other } };

    ghost invariant = { λ a. AreHandles a.one a.other a.ready.board };
}

impl Prepared {
    /// A change whose board is to be had twice.
    pub(crate) fn of(ready: NextBoard) -> Result<Prepared, OutOfMemory>
        ensures { IfOk result (λ prepared. prepared ≡ record { ready = ready; left = 2 }) }
    {
        let one = Some(ready.board.handle()?);
        let other = Some(ready.board.handle()?);
        Ok(Prepared { ready, one, other })
    }

    /// The entry of the change.
    pub fn entry(&self) -> &Entry
        ensures { result.now ≡ self.now.ready.entry }
    {
        &self.ready.entry
    }

    /// The closed features that can't be closed any more after it, in their order.
    pub fn dropped(&self) -> &List<FeatureId>
        ensures { result.now ≡ self.now.ready.dropped }
    {
        &self.ready.dropped
    }

    // The board after it, if it is still to be had.
    fn give(&mut self) -> Option<Board>
        ensures { IsGiven self.old self.new result }
    {
        match self.one.take() {
            Some(board) => Some(board),
            None => self.other.take(),
        }
    }
}

impl Board {
    /// Puts the board that is ready in place of this one, where it is still to be had: twice. Takes no memory, and never fails.
    pub fn apply(&mut self, ready: &mut Prepared)
        ensures { IsApplied self.old ready.old self.new ready.new }
    {
        match ready.give() {
            Some(next) => *self = next,
            None => {}
        }
    }
}
