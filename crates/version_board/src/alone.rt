//! The hall of one thread.

ghost use Rattle.std.specs.Prelude.{◌≡◌, ◌+◌, ◌≤◌, [], ◌∷◌, ◌++◌, OnOk, OnErr, IfOk, IfErr};
ghost use Rattle.std.specs.Arc.{arc_value};
ghost use mathlib.Core.List.{IsPrefix};
ghost use Rattle.venue_ports.specs.Causes.{Rose};
ghost use Rattle.venue_hall.specs.Changes.{Changes};
ghost use Rattle.venue_hall.specs.Histories.{IsLegal};
ghost use Rattle.venue_hall.specs.Replies.{told, IsJournalFault, IsOutsideFault};
ghost use Rattle.venue_hall.specs.Versions.{MayFollow, after};
ghost use Rattle.board_copies.specs.Stamps.{entries_of};
ghost use Rattle.venue_hall.specs.Facts.{IsSameHall, IsChanged};
ghost use Rattle.version_board.specs.OneThread.{one_thread};
ghost use Rattle.venue_hall.specs.Openings.{opening_history};
ghost use Rattle.board_copies.specs.Making.{shelf_of, CountsFault};

use board_copies::{BaseFolders, Held, NextBoard, Outcome, Resumed, Resuming, Roll, ready_change};
use std::alloc::Global;
use std::sync::Arc;
use venue_hall::{Asks, Hall, Unopened, Venue, change_law, number_law, version_law};
use venue_ports::Folders;
use venue_types::{Change, OutOfMemory, Query, Reply, Settings, Text};

/// One history that one thread serves: it answers at the newest version, and whatever it makes it sees at once. Of its entries it keeps
/// a stamp alone, so a venue is let go once another is published.
#[derive(Drop)]
pub struct Alone<F: Folders> {
    held: Held,
    roll: Roll,
    reader: BaseFolders<F>,
    settings: Arc<Settings>,
    looks: u64,
    alloc: Global,
    ghost settings_are: { arc_value settings ≡ held.board.settings },
}

// The board with which a venue opens a history, and its book.
fn opened(
    alloc: Global,
    settings: &Arc<Settings>,
    venue: Arc<Venue>,
) -> Result<Resumed, OutOfMemory>
    requires { (arc_value venue).settings ≡ arc_value settings.now }
    ensures entries { IfOk result (λ resumed. entries_of resumed.held.stamp ≡ opening_history venue) }
    ensures settings { IfOk result (λ resumed. resumed.held.board.settings ≡ arc_value settings.now) }
{
    let history = Resuming::first(alloc, Arc::try_clone(settings)?, venue)?;
    history.finish(alloc)
}

impl<F: Folders> Alone<F> {
    ghost use Rattle.version_board.specs.Halls.{folders_of, facts_of};

    /// Opens a history with a venue, which worker 0 publishes, over folders below a base. Takes the memory of the first version's
    /// marks, and reads nothing.
    pub fn begin(
        alloc: Global,
        settings: Arc<Settings>,
        venue: Arc<Venue>,
        folders: F,
        base: Text,
    ) -> Result<Alone<F>, Unopened<F>>
        requires { (arc_value venue).settings ≡ arc_value settings }
        ensures facts { IfOk result (λ hall. facts_of hall ≡ one_thread (F.files folders) base (opening_history venue) (F.faults folders) 0) }
        ensures folders { IfOk result (λ hall. folders_of hall ≡ folders) }
        ensures err { IfErr result (λ unopened. unopened.folders ≡ folders) }
    {
        match opened(alloc, &settings, venue) {
            Ok(Resumed { held, roll, .. }) => Ok(Alone {
                held,
                roll,
                reader: BaseFolders { folders, base },
                settings,
                looks: 0,
                alloc,
            }),
            Err(OutOfMemory) => Err(Unopened { folders }),
        }
    }

    /// The folders, once the history is done with. Takes no memory.
    pub fn finish(self) -> F
        ensures { result ≡ folders_of self }
    {
        let Alone { reader, .. } = self;
        let BaseFolders { folders, .. } = reader;
        folders
    }

    // Enters what is ready: its entry, and the board after it. Takes no memory, and lets go of the board before.
    fn enter(&mut self, ready: NextBoard) -> Result<(), OutOfMemory>
        requires may { MayFollow self.old.held.board ready.entry }
        requires next { ready.board ≡ after self.old.held.board ready.entry.act }
        ensures ok { OnOk result (entries_of self.new.held.stamp ≡ entries_of self.old.held.stamp ++ ready.entry ∷ []) }
        ensures err { OnErr result (entries_of self.new.held.stamp ≡ entries_of self.old.held.stamp) }
        ensures reader { self.new.reader ≡ self.old.reader }
        ensures looks { self.new.looks ≡ self.old.looks }
    {
        self.held = self.held.next(&mut self.roll, ready)?;
        Ok(())
    }

    // Makes a change, but for the count of looks.
    fn make(&mut self, change: &Change) -> Reply
        ensures changes { Changes (shelf_of (F.files self.old.reader.folders) self.old.reader.base) 1 change.now (entries_of self.old.held.stamp) result (entries_of self.new.held.stamp) }
        ensures counts { CountsFault (F.faults self.old.reader.folders) (F.faults self.new.reader.folders) result }
        ensures kept { ¬ IsJournalFault result }
        ensures same { F.files self.new.reader.folders ≡ F.files self.old.reader.folders }
        ensures base { self.new.reader.base ≡ self.old.reader.base }
        ensures looks { self.new.looks ≡ self.old.looks }
    {
        version_law();
        let held = &self.held;
        match ready_change(
            self.alloc,
            &held.board,
            &self.settings,
            1,
            &mut self.reader,
            change,
        ) {
            Outcome::Stays(reply) => reply,
            Outcome::Made(ready, reply, _files) => match self.enter(ready) {
                Ok(()) => reply,
                Err(OutOfMemory) => Reply::OutOfMemory,
            },
        }
    }
}

impl<F: Folders> Asks for Alone<F> {
    ghost use Rattle.version_board.specs.Halls.{facts_of};

    ghost facts = { facts_of };

    fn number(&self) -> u32 {
        number_law();
        self.held.board.number()
    }

    fn ask(&mut self, query: &Query) -> Reply {
        self.held.board.ask(self.alloc, query)
    }
}

impl<F: Folders> Hall for Alone<F> {
    ghost use Rattle.version_board.specs.Halls.{folders_of, facts_of};

    fn change(&mut self, change: &Change) -> Reply
        ensures reply { IsChanged (facts_of self.old) (facts_of self.new) change.now result }
        ensures grows { IsPrefix (facts_of self.old).seen (facts_of self.new).seen }
        ensures legal { IsLegal (facts_of self.new).seen }
        ensures made { (facts_of self.new).made ≡ (facts_of self.old).made + told result }
        ensures faults { (facts_of self.old).faults ≤ (facts_of self.new).faults }
        ensures fault { IsOutsideFault result → Rose (facts_of self.old).faults (facts_of self.new).faults }
        ensures looks { Rose (facts_of self.old).looks (facts_of self.new).looks }
        ensures same { IsSameHall (facts_of self.old) (facts_of self.new) }

        // A reply that tells a fault tells the folders' own counts, at the beginning and at the end.
        ensures counts { CountsFault (F.faults (folders_of self.old)) (F.faults (folders_of self.new)) result }

        // It has no journal.
        ensures journalless { ¬ IsJournalFault result }
    {
        change_law();
        self.looks = self.looks.saturating_add(1);
        self.make(change)
    }

    fn catch_up(&mut self) {
        self.looks = self.looks.saturating_add(1);
    }
}
