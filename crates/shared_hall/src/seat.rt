//! A worker's seat at a hall: its pass, and the lock of the office.

ghost use Rattle.std.specs.Prelude.{◌≡◌, ◌+◌, ◌≤◌, ℕ, List as AList, IfOk, IfErr, length};
ghost use Rattle.std.specs.Arc.{arc_value};
ghost use mathlib.Core.List.{IsPrefix};
ghost use Rattle.venue_types.specs.declared.query.Change.TheVariants.{Publish};
ghost use Rattle.venue_ports.specs.Causes.{Rose};
ghost use Rattle.venue_hall.specs.Changes.{AreRead};
ghost use Rattle.venue_hall.specs.Facts.{IsChanged};
ghost use Rattle.venue_hall.specs.Histories.{IsLegal};
ghost use Rattle.venue_hall.specs.Replies.{told, IsOutsideFault};
ghost use Rattle.shared_hall.specs.Judging.{AreSettingsOf, HasLooked, IsJudgedAt};

use crate::name::HallName;
use crate::office::{LoggedOffice, OfficeOf, Pass, PassOf, Unjudged};
use board_copies::{Keeper, Reads, SideReader, Writes, judge_files};
use std::alloc::Global;
use std::marker::Model;
use std::sync::{Arc, Mutex, Wait};
use venue_hall::{Asks, Hall, Log, NoLog, Venue, legal_law, version_law};
use venue_ports::Folders;
use venue_types::{Change, Files, Query, Reply, Text};

/// What one worker serves with: it answers questions without waiting, and takes the hall's lock to make a change.
#[derive(Drop)]
pub struct SeatIn<'a, N: HallName, F: Folders, Q: Reads, W: Writes, J: Log, R> {
    pass: PassOf<N, Q>,
    office: &'a Mutex<OfficeOf<N, F, W, J>>,
    rt: &'a R,
    alloc: Global,
}

/// A seat at the copies that a hall has, with a log.
pub type LoggedSeat<'a, N, F, J, R> = SeatIn<'a, N, F, SideReader, Keeper, J, R>;

/// A seat at a hall that keeps its changes nowhere.
pub type Seat<'a, N, F, R> = LoggedSeat<'a, N, F, NoLog, R>;

impl<'a, N: HallName, F: Folders, Q: Reads, W: Writes, J: Log, R> Model
    for SeatIn<'a, N, F, Q, W, J, R> {
    ghost use Rattle.venue_hall.specs.Facts.{Facts};

    ghost Value = { Facts };

    ghost view = { λ s. s.pass };
}

impl<'a, N: HallName, F: Folders, J: Log, R> SeatIn<'a, N, F, SideReader, Keeper, J, R> {
    /// Takes a seat. Takes no memory.
    pub fn sit(
        rt: &'a R,
        alloc: Global,
        pass: Pass<N>,
        office: &'a Mutex<LoggedOffice<N, F, J>>,
    ) -> LoggedSeat<'a, N, F, J, R>
        ensures { result ≡ pass }
    {
        SeatIn {
            pass,
            office,
            rt,
            alloc,
        }
    }

    /// What the type keeps: what was seen from the seat begins with the entries with which its hall was opened.
    pub fn opening_law(&self)
        ensures { IsPrefix N.opening self.now.seen }
    {
        self.pass.pass_law();
    }

    /// What the type keeps: the folders from which staff publish at the seat are those of the hall's name.
    pub fn shelf_law(&self)
        ensures { self.now.files ≡ N.folder_files }
    {
        self.pass.pass_law();
    }

    /// Gives the pass back. Takes no memory.
    pub fn leave(self) -> Pass<N>
        ensures { result ≡ self.entry }
    {
        let SeatIn { pass, .. } = self;
        pass
    }
}

impl<N: HallName, F: Folders, J: Log, R> Asks for SeatIn<'_, N, F, SideReader, Keeper, J, R> {
    ghost facts = { λ s. s };

    fn number(&self) -> u32 {
        self.pass.number()
    }

    fn ask(&mut self, query: &Query) -> Reply {
        self.pass.ask(self.alloc, query)
    }
}

impl<N: HallName, F: Folders, J: Log, R: Wait> SeatIn<'_, N, F, SideReader, Keeper, J, R> {
    // Makes a change, and holds the lock from its first step to its last.
    fn change_at_once(&mut self, change: &Change) -> Reply
        ensures reply { IsChanged self.old self.new change.now result }
        ensures looked { HasLooked self.old self.new }
        ensures made { self.new.made ≡ self.old.made + told result }
        ensures fault { IsOutsideFault result → Rose self.old.faults self.new.faults }
    {
        let mut guard = self.office.lock(self.rt);
        let office = &mut *guard;
        self.pass.pass_law();
        office.tell(self.rt, &mut self.pass);
        let reply = office.change(self.rt, self.alloc, change, &mut self.pass);
        office.tell(self.rt, &mut self.pass);
        reply
    }

    // Reads the files of a folder under the lock, and lets it go at its end.
    fn read_folder(&mut self, folder: &Text) -> Result<Unjudged, Reply>
        ensures looked { HasLooked self.old self.new }
        ensures made { self.new.made ≡ self.old.made }
        ensures read { IfOk result (λ it. AreRead self.old.files folder.now it.files) }
        ensures settings { IfOk result (λ it. AreSettingsOf self.new.seen (arc_value it.settings)) }
        ensures unread { IfErr result (IsChanged self.old self.new (Publish folder.now)) }
        ensures untold { IfErr result (λ reply. told reply ≡ 0) }
        ensures fault { IfErr result (λ reply. IsOutsideFault reply → Rose self.old.faults self.new.faults) }
    {
        legal_law();
        let mut guard = self.office.lock(self.rt);
        let office = &mut *guard;
        self.pass.pass_law();
        office.tell(self.rt, &mut self.pass);
        office.read_folder(self.alloc, folder, &mut self.pass)
    }

    // Publishes what was judged while the lock was free, at the version that stands now.
    fn publish_judged(&mut self, files: Files, venue: Arc<Venue>) -> Reply
        requires seventeen { length files.slots ≡ 17 }
        requires legal { IsLegal self.old.seen }
        requires judged { IsJudgedAt self.old.seen files venue }
        ensures reply { (folder : AList ℕ) → AreRead self.old.files folder files → IsChanged self.old self.new (Publish folder) result }
        ensures looked { HasLooked self.old self.new }
        ensures made { self.new.made ≡ self.old.made + told result }
        ensures fault { IsOutsideFault result → Rose self.old.faults self.new.faults }
    {
        version_law();
        legal_law();
        let mut guard = self.office.lock(self.rt);
        let office = &mut *guard;
        self.pass.pass_law();
        office.tell(self.rt, &mut self.pass);
        let reply = office.publish(self.rt, self.alloc, files, venue, &mut self.pass);
        office.tell(self.rt, &mut self.pass);
        reply
    }

    // Publishes a folder. The lock is held while it is read and while its venue is published: each of the two calls that takes it has
    // let it go when it returns. While the files are judged in between it is free, so others make their changes meanwhile.
    fn publish(&mut self, folder: &Text) -> Reply
        ensures reply { IsChanged self.old self.new (Publish folder.now) result }
        ensures looked { HasLooked self.old self.new }
        ensures made { self.new.made ≡ self.old.made + told result }
        ensures fault { IsOutsideFault result → Rose self.old.faults self.new.faults }
    {
        legal_law();
        match self.read_folder(folder) {
            Ok(Unjudged { files, settings }) => match judge_files(self.alloc, &files, &settings) {
                Ok(venue) => self.publish_judged(files, venue),
                Err(reply) => reply,
            },
            Err(reply) => reply,
        }
    }
}

impl<N: HallName, F: Folders, J: Log, R: Wait> Hall for SeatIn<'_, N, F, SideReader, Keeper, J, R> {
    fn change(&mut self, change: &Change) -> Reply {
        match change {
            Change::Closure(_) => self.change_at_once(change),
            Change::Publish { folder } => self.publish(folder),
        }
    }

    fn catch_up(&mut self) {
        let mut guard = self.office.lock(self.rt);
        let office = &mut *guard;
        office.tell(self.rt, &mut self.pass);
    }
}
