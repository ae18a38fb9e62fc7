//! The next board, brought together with the stamp of its entries.

ghost use Rattle.std.specs.Prelude.{◌≡◌, ◌≢◌, ◌≤◌, ◌^◌, ◌⊎◌, [], ◌∷◌, ◌++◌, length, IfOk, OnErr};
ghost use Rattle.venue_state.specs.Versions.{MayFollow, after};
ghost use Rattle.board_copies.specs.Stamps.{entries_of};

use crate::held::Held;
use crate::roll::Roll;
use venue_state::{NextBoard, entry_law};
use venue_types::OutOfMemory;

impl Held {
    /// The board that is ready: its entry stands behind this board's entries. Takes no memory; but the numbers of the book may be used up.
    pub fn next(&self, roll: &mut Roll, ready: NextBoard) -> Result<Held, OutOfMemory>
        requires may { MayFollow self.now.board ready.entry }
        requires next { ready.board ≡ after self.now.board ready.entry.act }
        ensures entries { IfOk result (λ held. entries_of held.stamp ≡ entries_of self.now.stamp ++ ready.entry ∷ []) }
        ensures board { IfOk result (λ held. held.board ≡ ready.board) }
        ensures book { IfOk result (λ held. held.stamp.seen.book ≡ roll.old.seen.book) }
        ensures err { OnErr result ((2 ^ 62 ≤ length roll.old.seen.log) ⊎ (length roll.new.seen.log ≢ length roll.old.seen.log)) }
        ensures roll { roll.new.seen.book ≡ roll.old.seen.book }
    {
        entry_law();
        let NextBoard { entry, board, .. } = ready;
        let stamp = roll
            .stamp(Some(self.stamp.again()), entry)
            .ok_or(OutOfMemory)?;
        Ok(Held::new(board, stamp))
    }
}
