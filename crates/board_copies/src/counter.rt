//! The rule of the book into which every list is written that somebody means to publish.

use logbook::{Gain, Play, Rule};
use venue_state::Entry;

/// A list that somebody meant to publish. No value of it is made.
pub struct Tried {
    pub list: [Entry; 0],
}

/// The rule of the book: its first word is the number of its lists.
pub struct Counting;

impl Rule<Tried, u64> for Counting {
    ghost use Rattle.board_copies.specs.Lists.{IsCounted};
    ghost use Rattle.std.specs.Prelude.{[]};
    ghost use base.Fml.{ftrue};

    ghost holds = { IsCounted };

    ghost first = { [] };

    ghost moves = { λ asked old new got. Unit {0} };

    ghost hinted = { λ number lists. Unit {0} };

    ghost shows = { λ lists. [] };

    ghost keeps = { λ pages lists. ftrue };
}

/// What a caller of the book has after a step: no more than before.
pub(crate) struct Nothing;

impl Gain<Tried, u64> for Nothing {
    ghost use base.Fml.{ftrue};

    ghost after = { λ pages list got. ftrue };
}

/// The step that adds a list.
pub(crate) struct Adding;

impl Play<Tried, u64> for Adding {
    ghost use Rattle.board_copies.specs.Lists.{Adds};

    ghost then = { Adds };
}
