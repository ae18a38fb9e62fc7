//! The counter.

use std::marker::Model;
use std::sync::ledger::{Blank, Book, Ledger, Share};

/// Contracts see the number of steps so far. The only way to change it is a step more. `L` names the ledger in which the steps
/// are entered, so that no counter is taken for another.
#[derive(Drop)]
pub struct Steps<L: Ledger> {
    // What may be entered into the ledger.
    part: Share<L>,
    // What was entered, of which the total is the number of steps.
    entered: Book<L>,
}

impl<L: Ledger> Model for Steps<L> {
    ghost use Rattle.std.specs.Prelude.{ℕ, ◌<◌};

    ghost Value = { ℕ };

    ghost invariant = { λ steps. 0 < steps.part.parts };

    ghost view = { λ steps. steps.entered.total };
}

impl<L: Ledger> Steps<L> {
    ghost use Rattle.std.specs.Prelude.{◌≡◌, ◌+◌, ◌<◌};

    /// A counter before its first step, from a ledger of one part or more in which nothing is entered.
    pub fn begin(blank: Blank) -> Steps<L>
        requires some { 0 < L.parts }
        requires name { blank.name ≡ L.name }
        requires parts { blank.parts ≡ L.parts }
        ensures { result ≡ 0 }
    {
        let (entered, part) = blank.open::<L>();
        Steps { part, entered }
    }

    /// Counts one step. Takes no time.
    pub fn tick(&mut self)
        ensures { self.new ≡ self.old + 1 }
    {
        self.entered.add(&mut self.part, 1);
    }
}
