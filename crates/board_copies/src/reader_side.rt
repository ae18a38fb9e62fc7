//! What a reader does with the copy that it entered. Nothing here takes a lock or waits.

ghost use Rattle.std.specs.Prelude.{◌≡◌, length, IfSome, IfNone, IsTrue, true};
ghost use mathlib.Core.List.{IsPrefix};
ghost use Rattle.left_right.specs.Sides.{view};
ghost use Rattle.board_copies.specs.Reading.{IsSeen};
ghost use Rattle.board_copies.specs.Rules.{known, StaysBound};
ghost use Rattle.board_copies.specs.Stamps.{entries_of};

use crate::held::Held;
use crate::rule::{Seeing, SideReader};
use crate::seen::Seen;
use core::mem::replace_with;
use std::alloc::Global;
use venue_state::number_law;
use venue_types::Query;

// The number of a board, and its answer.
fn answer(held: &Held, alloc: Global, query: &Query) -> Seen
    ensures { IsSeen (entries_of held.now.stamp) query.now result }
{
    number_law();
    Seen {
        number: held.board.number(),
        reply: held.board.ask(alloc, query),
    }
}

#[tactic(auto, using(crate::proofs::Steps::sees))]
/// Enters, answers at the copy that is published, and leaves. None where the copies are gone, which callers answer as want of memory;
/// then nothing more was seen.
pub fn read(reader: SideReader, alloc: Global, query: &Query) -> (SideReader, Option<Seen>)
    ensures bound { StaysBound (view reader.place) (view result.0.place) }
    ensures grows { IsPrefix (view reader.place).seen (view result.0.place).seen }
    ensures found { IfSome result.1 (IsSeen (view result.0.place).seen query.now) }
    ensures gone { IfNone result.1 (view result.0.place ≡ view reader.place) }
{
    match reader.enter_as::<Seeing>() {
        Ok(reading) => {
            let found = answer(&reading.get().held, alloc, query);
            (reading.leave(), Some(found))
        }
        Err(reader) => (reader, None),
    }
}

/// The same in place.
pub fn read_in(reader: &mut SideReader, alloc: Global, query: &Query) -> Option<Seen>
    ensures bound { StaysBound (view reader.old.place) (view reader.new.place) }
    ensures grows { IsPrefix (view reader.old.place).seen (view reader.new.place).seen }
    ensures found { IfSome result (IsSeen (view reader.new.place).seen query.now) }
    ensures gone { IfNone result (view reader.new.place ≡ view reader.old.place) }
{
    replace_with(
        reader,
        (alloc, query),
        |reader, (alloc, query)| read(reader, alloc, query),
    )
}

#[tactic(auto, using(crate::proofs::Steps::sees))]
/// Enters, tells whether it found this board there, and leaves.
pub fn meet(reader: SideReader, held: &Held) -> (SideReader, bool)
    requires bound { (view reader.place).bound ≡ true }
    requires book { known (view reader.place) ≡ held.now.stamp.seen.book }
    ensures bound { StaysBound (view reader.place) (view result.0.place) }
    ensures grows { IsPrefix (view reader.place).seen (view result.0.place).seen }
    ensures met { IsTrue result.1 → (view result.0.place).seen ≡ entries_of held.now.stamp }
{
    match reader.enter_as::<Seeing>() {
        Ok(reading) => {
            let met = reading.get().held.stamp.is_same(&held.stamp);
            (reading.leave(), met)
        }
        Err(reader) => (reader, false),
    }
}

/// The same in place.
pub fn meet_in(reader: &mut SideReader, held: &Held) -> bool
    requires bound { (view reader.old.place).bound ≡ true }
    requires book { known (view reader.old.place) ≡ held.now.stamp.seen.book }
    ensures bound { StaysBound (view reader.old.place) (view reader.new.place) }
    ensures grows { IsPrefix (view reader.old.place).seen (view reader.new.place).seen }
    ensures met { IsTrue result → (view reader.new.place).seen ≡ entries_of held.now.stamp }
{
    replace_with(reader, held, |reader, held| meet(reader, held))
}
