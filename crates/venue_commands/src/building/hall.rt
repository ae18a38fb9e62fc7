//! A history that nobody else changes: what is asked and changed of it.

ghost use Rattle.std.specs.Prelude.{◌≡◌, ◌≤◌, IfOk, length};
ghost use Rattle.std.specs.Arc.{arc_value};
ghost use Rattle.version_board.specs.Changes.{Changes};
ghost use Rattle.version_board.specs.Facts.{IsAnswered};
ghost use Rattle.version_board.specs.Halls.{facts_of};
ghost use Rattle.version_board.specs.Openings.{opening_history};
ghost use Rattle.version_board.specs.Replies.{IsJournalFault};

use std::alloc::Global;
use std::sync::Arc;
use venue_ports::QuietFolders;
use venue_types::{Change, OutOfMemory, Query, Reply, Settings, Text};
use version_board::{Alone, Asks, Hall, Unopened, Venue, change_law};

/// A hall of one thread over no folders.
pub(crate) type OwnHall = Alone<QuietFolders>;

/// Opens a history with a venue.
pub(crate) fn opened(
    alloc: Global,
    settings: Arc<Settings>,
    venue: Arc<Venue>,
) -> Result<OwnHall, OutOfMemory>
    requires { (arc_value venue).settings ≡ arc_value settings }
    ensures { IfOk result (λ hall. (facts_of hall).seen ≡ opening_history venue) }
{
    let Ok(folders) = QuietFolders::new(Vec::new(alloc)) else {
        return Err(OutOfMemory);
    };
    let base = Text::from_string(String::new(alloc));
    match Alone::begin(alloc, settings, venue, folders, base) {
        Ok(hall) => Ok(hall),
        Err(Unopened { .. }) => Err(OutOfMemory),
    }
}

/// The answer at what is seen, which stays.
pub(crate) fn asked(hall: &mut OwnHall, query: &Query) -> Reply
    requires { 1 ≤ length (facts_of hall.old).seen }
    ensures reply { IsAnswered (facts_of hall.old).seen query.now result }
    ensures same { (facts_of hall.new).seen ≡ (facts_of hall.old).seen }
{
    hall.ask(query)
}

/// The reply to a change of what is seen.
pub(crate) fn changed(hall: &mut OwnHall, change: &Change) -> Reply
    requires { 1 ≤ length (facts_of hall.old).seen }
    ensures changes { Changes (facts_of hall.old).files 1 change.now (facts_of hall.old).seen result (facts_of hall.new).seen }
    ensures journalless { ¬ IsJournalFault result }
{
    change_law();
    hall.change(change)
}
