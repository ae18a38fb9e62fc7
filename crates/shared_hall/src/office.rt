//! A pass of a worker, and the office under the lock.

ghost use Rattle.std.specs.Prelude.{◌≡◌, ◌+◌, ◌^◌, ◌<◌, ◌≤◌, [], ◌∷◌, ◌++◌, length, IfErr, OnOk, OnErr};
ghost use mathlib.Core.List.{IsPrefix};
ghost use Rattle.venue_hall.specs.Changes.{Changes};
ghost use Rattle.venue_hall.specs.Closed.{Version};
ghost use Rattle.venue_hall.specs.Histories.{IsLegal, Replays};
ghost use Rattle.venue_hall.specs.Replies.{told};
ghost use Rattle.venue_hall.specs.Versions.{MayFollow, after};
ghost use Rattle.venue_ports.specs.Causes.{one_more};
ghost use Rattle.venue_hall.specs.Facts.{IsAnswered};
ghost use Rattle.venue_hall.specs.Records.{AreKept};
ghost use Rattle.venue_hall.specs.Standing.{AreRecordsOf};
ghost use Rattle.board_copies.specs.Making.{CountsFault, CountsJournalFault};
ghost use Rattle.shared_hall.specs.Keeping.{ComesOf, IsUnkept};
ghost use Rattle.shared_hall.specs.Offices.{faulted, IsRecorded};

mod close;
mod judged;
mod publication;
mod start;
mod unlogged;

use crate::name::HallName;
use board_copies::{
    BaseFolders, Keeper, NextBoard, Outcome, Reads, Roll, SideReader, Writes, meet_in, read_in,
    ready_change, wait_for_ever,
};
pub use close::{Closed, close_hall};
pub use judged::Unjudged;
use publication::{fall_back_in, keep, queue_next, record_of, show_in};
pub use start::{OpenedOf, UnopenedOf, open_kept};
use std::alloc::Global;
use std::marker::Model;
use std::sync::ledger::{Book, Share};
use std::sync::{Arc, Wait};
pub use unlogged::{Office, Opened, open_hall};
use venue_hall::{Log, legal_law, number_law, version_law};
use venue_ports::Folders;
use venue_types::{Change, Files, Query, Reply, Settings};

/// What a worker has seen, and its part of the hall's changes.
#[derive(Drop)]
pub struct PassOf<N: HallName, Q: Reads> {
    reader: Q,
    number: u32,
    worker: u8,
    share: Share<N>,
    faults: u64,
    looks: u64,
}

/// A pass of the copies that a hall has.
pub type Pass<N> = PassOf<N, SideReader>;

impl<N: HallName, Q: Reads> Model for PassOf<N, Q> {
    ghost use Rattle.std.specs.Prelude.{◌≡◌, ◌<◌, ◌≤◌, length, true};
    ghost use mathlib.Core.List.{IsPrefix};
    ghost use Rattle.venue_hall.specs.Histories.{IsLegal};
    ghost use Rattle.board_copies.specs.Rules.{known};
    ghost use Rattle.venue_hall.specs.Facts.{Facts};

    ghost Value = { Facts };

    ghost view = { λ p. record { worker = p.worker; parts = p.share.parts; files = N.folder_files; seen = (Q.client p.reader).seen; made = p.share.amount; faults = p.faults; looks = p.looks } };

    ghost invariant = { λ p. ((Q.client p.reader).bound ≡ true) × (known (Q.client p.reader) ≡ N.book) × IsPrefix N.opening (Q.client p.reader).seen × IsLegal (Q.client p.reader).seen × (p.number ≡ length (Q.client p.reader).seen) × (0 < p.share.parts) × (1 ≤ p.worker) × (p.worker ≤ 16) };
}

impl<N: HallName> PassOf<N, SideReader> {
    /// The number of the version that it has seen. Takes no memory.
    pub fn number(&self) -> u32
        ensures number { result ≡ length self.now.seen }
        ensures legal { IsLegal self.now.seen }
    {
        self.number
    }

    /// Answers at the copy that is published, and waits for nobody.
    pub fn ask(&mut self, alloc: Global, query: &Query) -> Reply
        ensures reply { IsAnswered self.new.seen query.now result }
        ensures grows { IsPrefix self.old.seen self.new.seen }
        ensures kept { self.new ≡ record self.old { seen = self.new.seen } }
    {
        legal_law();
        match read_in(&mut self.reader, alloc, query) {
            Some(found) => {
                self.number = found.number;
                found.reply
            }
            None => Reply::OutOfMemory,
        }
    }

    /// What the type keeps: what a pass has seen begins with the entries with which its hall was opened, its folders are those of
    /// the hall's name, and its count of faults has a bound.
    pub(crate) fn pass_law(&self)
        ensures opened { IsPrefix N.opening self.now.seen }
        ensures files { self.now.files ≡ N.folder_files }
        ensures faults { self.now.faults < 2 ^ 64 }
    {
        let _faults = self.faults;
    }

    // Counts a reply that tells a fault of the folders or of the log.
    fn count_fault(&mut self, reply: &Reply)
        ensures { self.new ≡ record self.old { faults = faulted reply.now self.old.faults } }
    {
        match reply {
            Reply::FolderFault { .. } | Reply::JournalFault { .. } => {
                self.faults = self.faults.saturating_add(1);
            }
            _ => {}
        }
    }
}

/// What is under the lock: the writer of the two copies, whose published one has the history; the count of all accepted changes; the folders;
/// and the log, which has a record of each entry.
#[derive(Drop)]
pub struct OfficeOf<N: HallName, F: Folders, W: Writes, J: Log> {
    keeper: W,
    roll: Roll,
    book: Book<N>,
    reader: BaseFolders<F>,
    settings: Arc<Settings>,
    log: J,
    start: u32,
}

/// The office of the copies that a hall has, with a log.
pub type LoggedOffice<N, F, J> = OfficeOf<N, F, Keeper, J>;

impl<N: HallName, F: Folders, W: Writes, J: Log> Model for OfficeOf<N, F, W, J> {
    ghost use Rattle.std.specs.Prelude.{◌≡◌, ◌+◌, ◌≤◌, length};
    ghost use Rattle.std.specs.Arc.{arc_value};
    ghost use mathlib.Core.List.{IsPrefix};
    ghost use Rattle.venue_hall.specs.Standing.{AreRecordsOf};
    ghost use Rattle.board_copies.specs.Rules.{list_of, book_of};
    ghost use Rattle.board_copies.specs.Making.{shelf_of};
    ghost use Rattle.shared_hall.specs.Offices.{OfficeFacts};

    ghost Value = { OfficeFacts };

    ghost view = { λ o. record { entries = list_of (W.shown o.keeper); shelf = shelf_of (F.files o.reader.folders) o.reader.base; faults = F.faults o.reader.folders; records = J.records o.log; log_faults = J.faults o.log } };

    ghost invariant = { λ o. (o.roll.seen.book ≡ N.book) × (book_of (W.shown o.keeper) ≡ N.book) × (arc_value o.settings ≡ (arc_value (W.shown o.keeper).held).board.settings) × (o.start ≡ length N.opening) × (o.book.total + length N.opening ≡ length (list_of (W.shown o.keeper))) × IsPrefix N.opening (list_of (W.shown o.keeper)) × (N.folder_count ≤ F.faults o.reader.folders) × (shelf_of (F.files o.reader.folders) o.reader.base ≡ N.folder_files) × (J.length o.log ≡ length (list_of (W.shown o.keeper))) × AreRecordsOf (J.records o.log) (list_of (W.shown o.keeper)) × (N.log_count ≤ J.faults o.log) };
}

impl<N: HallName, F: Folders, J: Log> OfficeOf<N, F, Keeper, J> {
    // Keeps what is ready, publishes it and counts it; or tells that memory ran out or the log failed: then all stays. Behind the log's Ok
    // nothing wants memory, and nothing fails.
    fn enter<R: Wait>(
        &mut self,
        rt: &R,
        alloc: Global,
        ready: NextBoard,
        files: Option<Files>,
        pass: &mut Pass<N>,
    ) -> Result<(), Reply>
        requires may { (v : Version) → Replays self.old.entries v → MayFollow v ready.entry }
        requires next { (v : Version) → Replays self.old.entries v → ready.board ≡ after v ready.entry.act }
        requires comes { ComesOf ready.entry.act files }
        ensures ok { OnOk result (self.new.entries ≡ self.old.entries ++ ready.entry ∷ []) }
        ensures err { OnErr result (self.new.entries ≡ self.old.entries) }
        ensures shelf { self.new.shelf ≡ self.old.shelf }
        ensures faults { self.new.faults ≡ self.old.faults }
        ensures recorded { OnOk result (IsRecorded 1 self.old.records self.new.records) }
        ensures unrecorded { OnErr result (AreKept self.old.records self.new.records) }
        ensures records { AreRecordsOf self.new.records self.new.entries }
        ensures faultless { OnOk result (self.new.log_faults ≡ self.old.log_faults) }
        ensures unkept { IfErr result (λ reply. IsUnkept self.old.log_faults self.new.log_faults reply) }
        ensures counted { OnOk result (pass.new.made ≡ pass.old.made + 1) }
        ensures uncounted { OnErr result (pass.new.made ≡ pass.old.made) }
        ensures kept { pass.new ≡ record pass.old { made = pass.new.made } }
    {
        number_law();
        let _number = self.keeper.writer.published().held.board.number();
        let record = record_of(&ready.entry, &files);
        let Ok(last) = queue_next(alloc, &mut self.keeper, &mut self.roll, ready) else {
            return Err(Reply::OutOfMemory);
        };
        if let Err(reply) = keep(&mut self.log, &record) {
            fall_back_in(&mut self.keeper.writer, rt);
            return Err(reply);
        }
        drop(files);
        show_in(&mut self.keeper.writer, rt, last);
        self.book.add(&mut pass.share, 1);
        Ok(())
    }

    /// Makes a change by the pass's worker, or tells why not. The folder of a publication is read for it, with its seventeen files once
    /// each, in order, up to the first fault. A change that is made has its record in the log before anybody sees it; where the log fails
    /// all stays. What the pass has seen stays: `tell` shows it the change.
    pub fn change<R: Wait>(
        &mut self,
        rt: &R,
        alloc: Global,
        change: &Change,
        pass: &mut Pass<N>,
    ) -> Reply
        ensures reply { Changes self.old.shelf pass.old.worker change.now self.old.entries result self.new.entries }
        ensures fault { CountsFault self.old.faults self.new.faults result }
        ensures later { self.old.faults ≤ self.new.faults }
        ensures shelf { self.new.shelf ≡ self.old.shelf }
        ensures named { self.old.shelf ≡ N.folder_files }
        ensures log_fault { CountsJournalFault self.old.log_faults self.new.log_faults result }
        ensures recorded { IsRecorded (told result) self.old.records self.new.records }
        ensures records { AreRecordsOf self.new.records self.new.entries }
        ensures made { pass.new.made ≡ pass.old.made + told result }
        ensures faults { pass.new.faults ≡ faulted result pass.old.faults }
        ensures kept { pass.new ≡ record pass.old { made = pass.new.made; faults = pass.new.faults } }
    {
        version_law();
        let held = &self.keeper.writer.published().held;
        let outcome = ready_change(
            alloc,
            &held.board,
            &self.settings,
            pass.worker,
            &mut self.reader,
            change,
        );
        match outcome {
            Outcome::Stays(reply) => {
                pass.count_fault(&reply);
                reply
            }
            Outcome::Made(ready, reply, files) => match self.enter(rt, alloc, ready, files, pass) {
                Ok(()) => reply,
                Err(reply) => {
                    pass.count_fault(&reply);
                    reply
                }
            },
        }
    }

    /// Shows the pass all entries of the office. No other call raises a pass's count of looks. Takes no memory.
    pub fn tell<R: Wait>(&mut self, rt: &R, pass: &mut Pass<N>)
        ensures seen { pass.new.seen ≡ self.old.entries }
        ensures grows { IsPrefix pass.old.seen pass.new.seen }
        ensures legal { IsLegal pass.new.seen }
        ensures looks { pass.new.looks ≡ one_more pass.old.looks }
        ensures kept { pass.new ≡ record pass.old { seen = pass.new.seen; looks = pass.new.looks } }
        ensures office { self.new ≡ self.old }
    {
        number_law();
        let held = &*self.keeper.writer.published().held;
        let number = held.board.number();
        if !meet_in(&mut pass.reader, held) {
            // What is published is what this writer published last: it never comes here.
            wait_for_ever(rt);
            unreachable!()
        }
        pass.number = number;
        pass.looks = pass.looks.saturating_add(1);
    }
}
