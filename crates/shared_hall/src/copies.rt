//! The two copies of the board, before a hall is opened over them.

ghost use Rattle.std.specs.Prelude.{◌≡◌, ◌≤◌, length, IfOk};
ghost use Rattle.std.specs.Arc.{arc_value};
ghost use Rattle.left_right.specs.Sides.{view};
ghost use Rattle.board_copies.specs.Rules.{book_of, Knows};
ghost use Rattle.board_copies.specs.Stamps.{entries_of};

use crate::entries::resumed;
use board_copies::{Keep, Keeper, Resumed, Roll, make_writer, settle};
use std::alloc::Global;
use std::sync::{Arc, Wait};
use venue_hall::{Entry, NoLog, number_law};
use venue_types::{OutOfMemory, Settings};

/// The two copies of the board to which a history leads, their writer, and the settings. They have no name yet.
#[derive(Drop)]
pub struct Copies {
    pub(crate) keeper: Keeper,
    pub(crate) roll: Roll,
    pub(crate) settings: Arc<Settings>,
    ghost book_is: { book_of keeper.writer.desk.shown.value ≡ roll.seen.book },
    ghost known: { Knows (view keeper.writer.desk.place) keeper.writer.desk.shown.value },
    ghost settings_are: { arc_value settings ≡ (arc_value keeper.writer.desk.shown.value.held).board.settings },
}

impl Copies {
    ghost use Rattle.venue_hall.specs.Histories.{IsLegal};
    ghost use Rattle.shared_hall.specs.Copied.{entries_in};
    ghost use Rattle.venue_hall.specs.Openings.{HaveSettings};

    /// Two copies of the board to which these entries lead, with room for so many readers. It waits as a publication does.
    pub fn new<R: Wait>(
        rt: &R,
        alloc: Global,
        settings: Arc<Settings>,
        entries: Vec<Entry>,
        workers: u8,
    ) -> Result<Copies, OutOfMemory>
        requires legal { IsLegal entries.items }
        requires settings { HaveSettings (arc_value settings) entries.items }
        requires some { 1 ≤ workers }
        requires range { workers ≤ 16 }
        ensures { IfOk result (λ copies. entries_in copies ≡ entries.items) }
    {
        let resumed = resumed(alloc, &settings, entries)?;
        Copies::of(rt, alloc, settings, resumed, workers)
    }

    /// Two copies of the board of a history that was resumed, with room for so many readers. It waits as a publication does.
    pub fn of<R: Wait>(
        rt: &R,
        alloc: Global,
        settings: Arc<Settings>,
        resumed: Resumed,
        workers: u8,
    ) -> Result<Copies, OutOfMemory>
        requires settings { resumed.held.board.settings ≡ arc_value settings }
        requires some { 1 ≤ workers }
        requires range { workers ≤ 16 }
        ensures { IfOk result (λ copies. entries_in copies ≡ entries_of resumed.held.stamp) }
    {
        let Resumed { held, roll, .. } = resumed;
        let writer = make_writer(alloc, held, usize::from(workers))?;
        Ok(Copies {
            keeper: Keep {
                writer: settle(writer, rt),
            },
            roll,
            settings,
        })
    }

    /// The log of a hall that keeps its changes nowhere: it counts these entries.
    pub fn no_log(&self) -> NoLog
        ensures { result.count ≡ length (entries_in self.now) }
    {
        number_law();
        let number = self.keeper.writer.published().held.board.number();
        NoLog {
            count: u64::from(number),
        }
    }
}
