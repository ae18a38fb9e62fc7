//! A board beside the stamp of its entries.

ghost use Rattle.std.specs.Prelude.{◌≡◌};
ghost use Rattle.venue_state.specs.Histories.{Replays};
ghost use Rattle.board_copies.specs.Stamps.{entries_of};

use crate::stamp::Stamp;
use std::sync::Arc;
use venue_state::Board;

/// A board, and the stamp of the entries to whose version it leads.
#[derive(Drop)]
pub struct Held {
    pub board: Board,
    pub stamp: Stamp,
    ghost stands: { Replays (entries_of stamp) board },
}

impl Held {
    /// The board of a stamp's entries.
    pub fn new(board: Board, stamp: Stamp) -> Held
        requires { Replays (entries_of stamp) board }
        ensures board { result.board ≡ board }
        ensures stamp { result.stamp ≡ stamp }
    {
        Held { board, stamp }
    }
}

/// One of the two copies. Both may be of one board.
#[derive(Drop)]
pub struct Side {
    pub held: Arc<Held>,
}

/// What is published next.
#[derive(Drop)]
pub struct Ready {
    pub held: Arc<Held>,
}
